//! The kinds of terms, and the handles of terms in an interner.
use crate::number::{BoundVar, BoundVarIndexKind, ConstVid, TyVid};
use crate::region::Region;
use crate::{AdtId, TraitId};
use std::alloc::AllocError;

/// A type of an interner, by its index there.
///
/// A handle is meaningful only together with its interner. Each call that takes one requires that it is of this
/// interner.
#[derive(Clone, Copy, PartialEq, Eq, Hash)]
pub struct Ty(pub u32);

/// A constant of an interner, by its index there.
#[derive(Clone, Copy, PartialEq, Eq, Hash)]
pub struct Const(pub u32);

/// A list of generic arguments of an interner, by its index there.
#[derive(Clone, Copy, PartialEq, Eq, Hash)]
pub struct GenericArgs(pub u32);

/// A list of types of an interner, by its index there.
#[derive(Clone, Copy, PartialEq, Eq, Hash)]
pub struct Tys(pub u32);

/// The bounds of a `dyn` of an interner, by their index there.
#[derive(Clone, Copy, PartialEq, Eq, Hash)]
pub struct Bounds(pub u32);

/// The signed integer types.
#[derive(Clone, Copy, PartialEq, Eq, Hash)]
pub enum IntTy {
    I8,
    I16,
    I32,
    I64,
    I128,
    Isize,
}

/// The unsigned integer types.
#[derive(Clone, Copy, PartialEq, Eq, Hash)]
pub enum UintTy {
    U8,
    U16,
    U32,
    U64,
    U128,
    Usize,
}

/// Whether a reference or a raw pointer is `mut`.
#[derive(Clone, Copy, PartialEq, Eq, Hash)]
pub enum Mutability {
    Not,
    Mut,
}

/// The outermost constructor of a type. Its parts are handles of the same interner (rustc_type_ir: `TyKind`).
#[derive(Clone, Copy, PartialEq, Eq, Hash)]
pub enum TyKind {
    Bool,
    Char,
    Int(IntTy),
    Uint(UintTy),
    Str,
    Never,
    /// `V<'a, T, 3>`: a struct, with one argument for each of its parameters.
    Adt(AdtId, GenericArgs),
    /// `&'a T` or `&'a mut T`.
    Ref(Region, Ty, Mutability),
    /// `*const T` or `*mut T`.
    RawPtr(Ty, Mutability),
    /// `[T; n]`.
    Array(Ty, Const),
    /// `[T]`.
    Slice(Ty),
    Tuple(Tys),
    /// `for<'a> fn(T) -> U`: the number of lifetimes that it binds, and its inputs followed by the output.
    FnPtr(u32, Tys),
    /// `dyn Trait + Auto + 'a`.
    Dynamic(Bounds, Region),
    /// The parameter with this index in the list of an item's parameters.
    Param(u32),
    /// An arbitrary type that is equal to itself alone.
    Placeholder(u32),
    /// A type variable of a canonical form.
    Bound(BoundVarIndexKind, BoundVar),
    /// An inference variable.
    Infer(TyVid),
}

/// The kind of a constant: a number below 2 to the 64, a parameter, a placeholder or a variable (rustc_type_ir:
/// `ConstKind`).
#[derive(Clone, Copy, PartialEq, Eq, Hash)]
pub enum ConstKind {
    Value(u64),
    /// The parameter with this index in the list of an item's parameters.
    Param(u32),
    /// An arbitrary constant that is equal to itself alone.
    Placeholder(u32),
    /// A constant variable of a canonical form.
    Bound(BoundVarIndexKind, BoundVar),
    /// An inference variable.
    Infer(ConstVid),
}

/// A generic argument. It is of the kind of its parameter (rustc_type_ir: `GenericArgKind`).
#[derive(Clone, Copy, PartialEq, Eq, Hash)]
pub enum GenericArgKind {
    Lifetime(Region),
    Ty(Ty),
    Const(Const),
}

/// The principal of a `dyn`, for example `for<'a> Fn<&'a u8>`.
#[derive(Clone, Copy, PartialEq, Eq, Hash)]
pub struct Principal {
    /// The number of lifetimes that its `for` binds.
    pub bound_vars: u32,
    pub def_id: TraitId,
    /// Its arguments, without Self.
    pub args: GenericArgs,
}

/// The bounds of a `dyn`, except for its lifetime.
#[derive(PartialEq, Eq, Hash, Drop)]
pub struct BoundsData {
    pub principal: Option<Principal>,
    /// The auto traits by rising number, each once.
    pub autos: Vec<TraitId>,
}

impl Clone for BoundsData {
    ghost use Rattle.std.specs.Prelude.{◌≡◌};

    ghost is_clone = { λ b c. (c.principal ≡ b.principal) × (c.autos.items ≡ b.autos.items) };

    fn clone(&self) -> Result<BoundsData, AllocError> {
        let autos = Vec::from_slice(*self.autos.allocator(), &self.autos)?;
        Ok(BoundsData {
            principal: self.principal,
            autos,
        })
    }
}
