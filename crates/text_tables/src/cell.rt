//! Types without names, as lists of cells. A type is one list in postfix order, so it is read by a loop with a stack and without recursion.

use type_terms::kinds::{ConstKind, IntTy, Mutability, UintTy};
use type_terms::number::TyVid;
use type_terms::region::Region;
use type_terms::{AdtId, TraitId};

/// The kind of a parameter. rustc: `GenericParamDefKind`.
#[derive(Clone, Copy)]
pub enum ParamKind {
    Lifetime,
    Type,
    Const,
}

/// A part of a type in postfix order. Its own parts come before it, and it says how many they are.
///
/// `&'static V<u8, 3>` has the cells `Uint(U8)`, `Const(Value(3))`, `Adt { V, args: 2 }`, `Ref { 'static, Not }`.
#[derive(Clone, Copy)]
pub enum TermCell {
    Bool,
    Char,
    Str,
    /// `!`
    Never,
    Int(IntTy),
    Uint(UintTy),
    /// A type parameter of an item, by its index among all parameters of the item.
    Param(u32),
    /// A type parameter of a query, by its index among all its parameters. It stands for any type.
    Placeholder(u32),
    /// A type variable of a query.
    Infer(TyVid),
    /// A constant, as an argument or a length.
    Const(ConstKind),
    /// A lifetime, as an argument or as the last part of a `dyn`.
    Lifetime(Region),
    /// A struct, after its arguments.
    Adt {
        id: AdtId,
        args: u32,
    },
    /// `&'a T` or `&'a mut T`, after T.
    Ref {
        region: Region,
        mutability: Mutability,
    },
    /// `*const T` or `*mut T`, after T.
    RawPtr {
        mutability: Mutability,
    },
    /// `[T]`, after T.
    Slice,
    /// `[T; N]`, after T and N.
    Array,
    /// A tuple, after its items.
    Tuple {
        items: u32,
    },
    /// `for<...> fn(...) -> T`, after its inputs and its output.
    FnPtr {
        bound_vars: u32,
        types: u32,
    },
    /// The principal trait of a `dyn`, after its arguments.
    Principal {
        bound_vars: u32,
        def_id: TraitId,
        args: u32,
    },
    /// An auto trait of a `dyn`.
    Auto(TraitId),
    /// `dyn Tr + Auto + 'a`, after its principal trait, if it has one, its auto traits by rising number, and its lifetime.
    Dynamic {
        has_principal: bool,
        autos: u32,
    },
}
