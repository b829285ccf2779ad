//! The interner stores each term once, with its flags, its outer binder and its depth.
//!
//! For contracts, an interner is the list of its terms, in the order in which they were created: each with the kind of
//! its handle. A handle is an index in this list:
//! - `Is es types ty.0 t`: `ty` is the type `t` among the terms `es`.
//! - `Has es types ty.0`: `ty` is some type among them.
//! - `Grew old new`: each handle of the first interner has the same term in the second, and the limit is the same.
//!
//! **Handles of this interner.** You can write `Ty(7)`, and no check at run time distinguishes it from a handle. So
//! each call that takes a handle requires that it is of this interner. Three facts help a caller to satisfy this:
//! - What `mk_ty` and the other calls return is of this interner (`is`).
//! - The handles inside of a term are of this interner (`held` of `kind`, `args`, `tys` and `bounds`).
//! - No call removes a term (`grew`).
//! Therefore, a function that borrows the interner and takes handles requires `Has cx.old.entries` of each. It ensures
//! `Grew cx.old cx.new` for callers that have others, or `GrewOrFull` if it may fail.
//!
//! This is the trait `Interner` of rustc as a struct. Its calls replace `mk_ty_from_kind`, `mk_args` and the like,
//! which cannot fail there.
ghost use Rattle.std.specs.Prelude.{◌≡◌, ℕ, ◌+◌, ◌*◌, ◌≤◌, ◌<◌, ◌^◌, length, OnOk, OnErr, IfOk, Some, [], Err};
ghost use Rattle.std.specs.List.{slice_get};
ghost use Rattle.type_terms.specs.Trees.{flags, outer_binder, depth};
ghost use Rattle.type_terms.specs.Growth.{Grew, RefusedIfFull};
ghost use Rattle.type_terms.specs.Promised.Handles.{term, held, Is, Has, trees_at, types, consts, bounds_lists};
ghost use Rattle.type_terms.specs.Terms.{AddsAtMost, Absent, Lawful, type_lists, args_lists};
ghost use Rattle.type_terms.specs.Promised.Handles.{region_trees, arg_trees, RegionHeld, ArgHeld, ArgsHeld};
ghost use Rattle.type_terms.specs.Kinds.{kind_trees, const_trees, args_trees, tys_trees, principal_trees, autos_trees, bounds_trees, KindHeld, ConstHeld, TysHeld, PrincipalHeld, BoundsHeld, KindOlder, ArgsOlder, TysOlder, PrincipalOlder};
ghost use Rattle.type_terms.specs.Nodes.{Held, NodeOlder, kind_of, node_entry, node_trees};
ghost use Rattle.type_terms.specs.Infos.{info_of};
ghost use Rattle.type_terms.specs.declared.TheConstants.{MAX_INDEX};

use crate::flags::TypeFlags;
use crate::kinds::{
    Bounds, BoundsData, Const, ConstKind, GenericArgKind, GenericArgs, Principal, Ty, TyKind, Tys,
};
use crate::node::{Counts, Info, Node};
use crate::number::DebruijnIndex;
use crate::region::{Region, RegionKind};
use crate::{Fault, TraitId};
use indexmap::IndexMap;
use std::alloc::Global;
use std::marker::Model;

/// The greatest limit that an interner can have for the handles of one kind.
pub const MAX_HANDLES: u32 = 16_777_216;

/// A handle of an interner: of a type, a constant, a list of arguments or types, or bounds.
pub trait Handle: Copy {
    // The kind of handle.
    ghost handle_kind: { ℕ };

    // Its index in its interner.
    ghost handle_number: { Self → ℕ };

    /// Its index in its interner.
    fn number(self) -> u32
        ensures { result ≡ handle_number self };
}

impl Handle for Ty {
    ghost use Rattle.type_terms.specs.Promised.Handles.{types};

    ghost handle_kind = { types };

    ghost handle_number = { λ t. t.0 };

    fn number(self) -> u32 {
        self.0
    }
}

impl Handle for Const {
    ghost use Rattle.type_terms.specs.Promised.Handles.{consts};

    ghost handle_kind = { consts };

    ghost handle_number = { λ t. t.0 };

    fn number(self) -> u32 {
        self.0
    }
}

impl Handle for GenericArgs {
    ghost use Rattle.type_terms.specs.Terms.{args_lists};

    ghost handle_kind = { args_lists };

    ghost handle_number = { λ t. t.0 };

    fn number(self) -> u32 {
        self.0
    }
}

impl Handle for Tys {
    ghost use Rattle.type_terms.specs.Terms.{type_lists};

    ghost handle_kind = { type_lists };

    ghost handle_number = { λ t. t.0 };

    fn number(self) -> u32 {
        self.0
    }
}

impl Handle for Bounds {
    ghost use Rattle.type_terms.specs.Promised.Handles.{bounds_lists};

    ghost handle_kind = { bounds_lists };

    ghost handle_number = { λ t. t.0 };

    fn number(self) -> u32 {
        self.0
    }
}

/// Terms, each stored once: two handles of one kind are equal exactly if their terms are.
///
/// All kinds of handle share one table, in which the parts of a term precede it. Each kind has a count of its own.
pub struct Interner {
    nodes: IndexMap<Node, Info>,
    counts: Counts,
    limit: u32,
}

// Written by hand, so that the drop of an owner calls it once at each exit, and not once for each field.
impl Drop for Interner {
    fn drop(self) {
        let Interner {
            nodes: _,
            counts: _,
            limit: _,
        } = self;
    }
}

impl Model for Interner {
    ghost use Rattle.type_terms.specs.Terms.{Terms, terms_code};

    ghost Value = { Terms };

    ghost coded = { terms_code };

    ghost use Rattle.type_terms.specs.Inner.{terms_view, Sound};

    ghost view = { terms_view };

    ghost invariant = { Sound };
}

impl Interner {
    /// An empty interner with room for `limit` handles of each kind. It allocates nothing until the first term.
    pub fn new(alloc: Global, limit: u32) -> Interner
        requires { limit ≤ MAX_HANDLES }
        ensures empty { result.entries ≡ [] }
        ensures limit { result.limit ≡ limit }
    {
        Interner {
            nodes: IndexMap::new(alloc),
            counts: Counts::EMPTY,
            limit,
        }
    }

    /// The index of the node: that of an equal node, or the next one.
    fn intern(&mut self, node: Node, info: Info) -> Result<u32, Fault>
        requires held { Held self.old.entries node }
        requires info { info ≡ info_of (node_trees self.old.entries node) }
        ensures is { IfOk result (λ i. slice_get self.new.entries i ≡ Some (node_entry self.old.entries node)) }
        ensures grew { Grew self.old self.new }
        ensures adds { OnOk result (AddsAtMost self.old.entries (node_entry self.old.entries node) self.new.entries) }
        ensures refused { OnErr result (self.new.entries ≡ self.old.entries) }
        ensures full { result ≡ Err Fault.Full → held (kind_of node) self.old.entries ≡ self.old.limit }
        ensures memory { result ≡ Err Fault.Memory → self.old.room ≡ 0 }
        ensures absent { OnErr result (Absent (node_entry self.old.entries node) self.old.entries) }
        ensures refuses { RefusedIfFull self.old (node_entry self.old.entries node) result }
    {
        if let Some(index) = self.nodes.get_index_of(&node) {
            return Ok(index as u32);
        }
        let index = self.nodes.len();
        let kind = node.handle_kind();
        if self.counts.of(kind) == self.limit {
            return Err(Fault::Full);
        }
        self.nodes.insert(node, info)?;
        self.counts = self.counts.raised(kind);
        Ok(index as u32)
    }

    /// The type of this kind: an existing handle if there is one, or else a new one.
    ///
    /// An existing type is found without an allocation, even if the table is full. The call fails with `Full` if the
    /// type is new and there are as many types as the limit allows, and with `Memory` if it is new and memory is
    /// refused. The interner is then unchanged. The same is true of the four calls that follow, each with its kind of
    /// handle.
    ///
    /// The handles in `kind` must be of this interner. The binder number of a bound variable must be below `MAX_INDEX`,
    /// and the list of a `FnPtr` must have an output.
    pub fn mk_ty(&mut self, kind: TyKind) -> Result<Ty, Fault>
        requires { KindHeld self.old.entries kind }
        ensures is { IfOk result (λ handle. Is self.new.entries types handle.0 (kind_trees self.old.entries kind)) }
        ensures grew { Grew self.old self.new }
        ensures adds { OnOk result (AddsAtMost self.old.entries (term types (kind_trees self.old.entries kind)) self.new.entries) }
        ensures refused { OnErr result (self.new.entries ≡ self.old.entries) }
        ensures full { result ≡ Err Fault.Full → held types self.old.entries ≡ self.old.limit }
        ensures memory { result ≡ Err Fault.Memory → self.old.room ≡ 0 }
        ensures absent { OnErr result (Absent (term types (kind_trees self.old.entries kind)) self.old.entries) }
        ensures refuses { RefusedIfFull self.old (term types (kind_trees self.old.entries kind)) result }
    {
        let info = self.kind_info(kind);
        match self.intern(Node::Ty(kind), info) {
            Ok(index) => Ok(Ty(index)),
            Err(fault) => Err(fault),
        }
    }

    /// The constant of this kind. See `mk_ty`.
    pub fn mk_const(&mut self, kind: ConstKind) -> Result<Const, Fault>
        requires { ConstHeld kind }
        ensures is { IfOk result (λ handle. Is self.new.entries consts handle.0 (const_trees kind)) }
        ensures grew { Grew self.old self.new }
        ensures adds { OnOk result (AddsAtMost self.old.entries (term consts (const_trees kind)) self.new.entries) }
        ensures refused { OnErr result (self.new.entries ≡ self.old.entries) }
        ensures full { result ≡ Err Fault.Full → held consts self.old.entries ≡ self.old.limit }
        ensures memory { result ≡ Err Fault.Memory → self.old.room ≡ 0 }
        ensures absent { OnErr result (Absent (term consts (const_trees kind)) self.old.entries) }
        ensures refuses { RefusedIfFull self.old (term consts (const_trees kind)) result }
    {
        let info = const_info(kind);
        match self.intern(Node::Const(kind), info) {
            Ok(index) => Ok(Const(index)),
            Err(fault) => Err(fault),
        }
    }

    /// The list of these arguments, in this order. See `mk_ty`.
    pub fn mk_args(&mut self, list: Vec<GenericArgKind>) -> Result<GenericArgs, Fault>
        requires { ArgsHeld self.old.entries list.items }
        ensures is { IfOk result (λ handle. Is self.new.entries args_lists handle.0 (args_trees self.old.entries list.items)) }
        ensures grew { Grew self.old self.new }
        ensures adds { OnOk result (AddsAtMost self.old.entries (term args_lists (args_trees self.old.entries list.items)) self.new.entries) }
        ensures refused { OnErr result (self.new.entries ≡ self.old.entries) }
        ensures full { result ≡ Err Fault.Full → held args_lists self.old.entries ≡ self.old.limit }
        ensures memory { result ≡ Err Fault.Memory → self.old.room ≡ 0 }
        ensures absent { OnErr result (Absent (term args_lists (args_trees self.old.entries list.items)) self.old.entries) }
        ensures refuses { RefusedIfFull self.old (term args_lists (args_trees self.old.entries list.items)) result }
    {
        let info = self.args_info(&list);
        match self.intern(Node::Args(list), info) {
            Ok(index) => Ok(GenericArgs(index)),
            Err(fault) => Err(fault),
        }
    }

    /// The list of these types, in this order. See `mk_ty`.
    pub fn mk_tys(&mut self, list: Vec<Ty>) -> Result<Tys, Fault>
        requires { TysHeld self.old.entries list.items }
        ensures is { IfOk result (λ handle. Is self.new.entries type_lists handle.0 (tys_trees self.old.entries list.items)) }
        ensures grew { Grew self.old self.new }
        ensures adds { OnOk result (AddsAtMost self.old.entries (term type_lists (tys_trees self.old.entries list.items)) self.new.entries) }
        ensures refused { OnErr result (self.new.entries ≡ self.old.entries) }
        ensures full { result ≡ Err Fault.Full → held type_lists self.old.entries ≡ self.old.limit }
        ensures memory { result ≡ Err Fault.Memory → self.old.room ≡ 0 }
        ensures absent { OnErr result (Absent (term type_lists (tys_trees self.old.entries list.items)) self.old.entries) }
        ensures refuses { RefusedIfFull self.old (term type_lists (tys_trees self.old.entries list.items)) result }
    {
        let info = self.tys_info(&list);
        match self.intern(Node::Tys(list), info) {
            Ok(index) => Ok(Tys(index)),
            Err(fault) => Err(fault),
        }
    }

    /// These bounds of a `dyn`, whose auto traits have rising numbers. See `mk_ty`.
    pub fn mk_bounds(&mut self, bounds: BoundsData) -> Result<Bounds, Fault>
        requires { BoundsHeld self.old.entries bounds }
        ensures is { IfOk result (λ handle. Is self.new.entries bounds_lists handle.0 (bounds_trees self.old.entries bounds)) }
        ensures grew { Grew self.old self.new }
        ensures adds { OnOk result (AddsAtMost self.old.entries (term bounds_lists (bounds_trees self.old.entries bounds)) self.new.entries) }
        ensures refused { OnErr result (self.new.entries ≡ self.old.entries) }
        ensures full { result ≡ Err Fault.Full → held bounds_lists self.old.entries ≡ self.old.limit }
        ensures memory { result ≡ Err Fault.Memory → self.old.room ≡ 0 }
        ensures absent { OnErr result (Absent (term bounds_lists (bounds_trees self.old.entries bounds)) self.old.entries) }
        ensures refuses { RefusedIfFull self.old (term bounds_lists (bounds_trees self.old.entries bounds)) result }
    {
        let info = self.bounds_info(&bounds);
        match self.intern(Node::Bounds(bounds), info) {
            Ok(index) => Ok(Bounds(index)),
            Err(fault) => Err(fault),
        }
    }

    /// The kind of a type. The handles in it are smaller than the type, so that a recursion on them ends.
    pub fn kind(&self, ty: Ty) -> TyKind
        requires { Has self.now.entries types ty.0 }
        ensures is { Is self.now.entries types ty.0 (kind_trees self.now.entries result) }
        ensures held { KindHeld self.now.entries result }
        ensures older { KindOlder ty.0 result }
    {
        match self.node(ty.0) {
            Node::Ty(kind) => *kind,
            _ => unreachable!(),
        }
    }

    /// The kind of a constant: a number, a parameter, a placeholder or a variable.
    pub fn const_kind(&self, value: Const) -> ConstKind
        requires { Has self.now.entries consts value.0 }
        ensures is { Is self.now.entries consts value.0 (const_trees result) }
        ensures held { ConstHeld result }
    {
        match self.node(value.0) {
            Node::Const(kind) => *kind,
            _ => unreachable!(),
        }
    }

    /// The arguments of a list. The handles in it are smaller than the list.
    pub fn args(&self, args: GenericArgs) -> &[GenericArgKind]
        requires { Has self.now.entries args_lists args.0 }
        ensures is { Is self.now.entries args_lists args.0 (args_trees self.now.entries result.now) }
        ensures held { ArgsHeld self.now.entries result.now }
        ensures older { ArgsOlder args.0 result.now }
    {
        match self.node(args.0) {
            Node::Args(list) => list,
            _ => unreachable!(),
        }
    }

    /// The types of a list. They are smaller than the list.
    pub fn tys(&self, tys: Tys) -> &[Ty]
        requires { Has self.now.entries type_lists tys.0 }
        ensures is { Is self.now.entries type_lists tys.0 (tys_trees self.now.entries result.now) }
        ensures held { TysHeld self.now.entries result.now }
        ensures older { TysOlder tys.0 result.now }
    {
        match self.node(tys.0) {
            Node::Tys(list) => list,
            _ => unreachable!(),
        }
    }

    /// The bounds of a `dyn`. The arguments of the principal are smaller.
    pub fn bounds(&self, bounds: Bounds) -> &BoundsData
        requires { Has self.now.entries bounds_lists bounds.0 }
        ensures is { Is self.now.entries bounds_lists bounds.0 (bounds_trees self.now.entries result.now) }
        ensures held { BoundsHeld self.now.entries result.now }
        ensures older { PrincipalOlder bounds.0 result.now.principal }
    {
        match self.node(bounds.0) {
            Node::Bounds(data) => data,
            _ => unreachable!(),
        }
    }

    /// The union of the flags of a term's nodes, including those below binders. It is stored with the term.
    pub fn flags<H: Handle>(&self, handle: H) -> TypeFlags
        requires { Has self.now.entries H.handle_kind (H.handle_number handle) }
        ensures { result.0 ≡ flags (trees_at self.now.entries (H.handle_number handle)) }
    {
        TypeFlags(self.info(handle.number()).flags)
    }

    /// The number of binders that a term needs around it for all of its bound variables: one more than the greatest
    /// binder number that refers to a binder outside of it, or 0.
    pub fn outer_exclusive_binder<H: Handle>(&self, handle: H) -> DebruijnIndex
        requires { Has self.now.entries H.handle_kind (H.handle_number handle) }
        ensures { result.index ≡ outer_binder (trees_at self.now.entries (H.handle_number handle)) }
    {
        DebruijnIndex {
            index: self.info(handle.number()).outer_binder,
        }
    }

    /// The greatest number of nodes above one another in a term: 1 for `u8`, 0 for an empty list.
    pub fn depth<H: Handle>(&self, handle: H) -> u32
        requires { Has self.now.entries H.handle_kind (H.handle_number handle) }
        ensures { result ≡ depth (trees_at self.now.entries (H.handle_number handle)) }
    {
        self.info(handle.number()).depth
    }

    /// The allocator of this interner. A traversal of deep terms uses it for its list.
    pub fn allocator(&self) -> Global {
        *self.nodes.allocator()
    }

    /// What is true of the terms of every interner, as a lemma. It does nothing at run time.
    /// - Handles of one kind are equal exactly if their terms are.
    /// - A handle of a type has one type, and a handle of a constant one constant.
    /// - Lifetimes and variables have no children, and no variable has a number above `MAX_INDEX`.
    /// - A `dyn` has its principal, if any, then its auto traits, then its lifetime.
    pub fn lawful(&self)
        ensures { Lawful self.now.entries }
    {
        let _ = self.nodes.len();
    }

    /// The node of the handle with this index.
    fn node(&self, index: u32) -> &Node
        requires { index < length self.now.entries }
        ensures is { slice_get self.now.entries index ≡ Some (node_entry self.now.entries result.now) }
        ensures held { Held self.now.entries result.now }
        ensures older { NodeOlder index result.now }
    {
        match self.nodes.get_index(index as usize) {
            Some((node, _)) => node,
            None => unreachable!(),
        }
    }

    /// What is stored with the handle that has this index.
    fn info(&self, index: u32) -> Info
        requires { index < length self.now.entries }
        ensures is { result ≡ info_of (trees_at self.now.entries index) }
        ensures shallow { result.depth ≤ 5 * MAX_HANDLES }
        ensures bounded { result.outer_binder ≤ MAX_INDEX }
    {
        match self.nodes.get_index(index as usize) {
            Some((_, info)) => *info,
            None => unreachable!(),
        }
    }

    fn kind_info(&self, kind: TyKind) -> Info
        requires { KindHeld self.now.entries kind }
        ensures { result ≡ info_of (kind_trees self.now.entries kind) }
    {
        match kind {
            TyKind::Bool
            | TyKind::Char
            | TyKind::Int(_)
            | TyKind::Uint(_)
            | TyKind::Str
            | TyKind::Never => Info::LEAF,
            TyKind::Adt(_, args) => self.info(args.0).plain(),
            TyKind::Ref(region, ty, _) => region_info(region).join(self.info(ty.0)).plain(),
            TyKind::RawPtr(ty, _) => self.info(ty.0).plain(),
            TyKind::Array(ty, len) => self.info(ty.0).join(self.info(len.0)).plain(),
            TyKind::Slice(ty) => self.info(ty.0).plain(),
            TyKind::Tuple(tys) => self.info(tys.0).plain(),
            TyKind::FnPtr(bound_vars, tys) => self.info(tys.0).binder(bound_vars),
            TyKind::Dynamic(bounds, region) => self
                .info(bounds.0)
                .join(region_info(region))
                .plain(),
            TyKind::Param(_) => Info::leaf(TypeFlags::HAS_TY_PARAM),
            TyKind::Placeholder(_) => Info::leaf(TypeFlags::HAS_TY_PLACEHOLDER),
            TyKind::Bound(binder, _) => Info::bound(TypeFlags::HAS_TY_BOUND, binder),
            TyKind::Infer(_) => Info::leaf(TypeFlags::HAS_TY_INFER),
        }
    }

    fn arg_info(&self, arg: GenericArgKind) -> Info
        requires { ArgHeld self.now.entries arg }
        ensures { result ≡ info_of (arg_trees self.now.entries arg) }
    {
        match arg {
            GenericArgKind::Lifetime(region) => region_info(region),
            GenericArgKind::Ty(ty) => self.info(ty.0),
            GenericArgKind::Const(value) => self.info(value.0),
        }
    }

    fn args_info(&self, list: &[GenericArgKind]) -> Info
        requires { ArgsHeld self.now.entries list.now }
        ensures { result ≡ info_of (args_trees self.now.entries list.now) }
    {
        let mut info = Info::EMPTY;
        for arg in list {
            info = info.join(self.arg_info(*arg));
        }
        info
    }

    fn tys_info(&self, list: &[Ty]) -> Info
        requires { TysHeld self.now.entries list.now }
        ensures { result ≡ info_of (tys_trees self.now.entries list.now) }
    {
        let mut info = Info::EMPTY;
        for ty in list {
            info = info.join(self.info(ty.0));
        }
        info
    }

    fn bounds_info(&self, bounds: &BoundsData) -> Info
        requires { BoundsHeld self.now.entries bounds.now }
        ensures { result ≡ info_of (bounds_trees self.now.entries bounds.now) }
    {
        self.principal_info(bounds.principal)
            .join(autos_info(&bounds.autos))
    }

    fn principal_info(&self, principal: Option<Principal>) -> Info
        requires { PrincipalHeld self.now.entries principal }
        ensures { result ≡ info_of (principal_trees self.now.entries principal) }
    {
        match principal {
            None => Info::EMPTY,
            Some(principal) => self.info(principal.args.0).binder(principal.bound_vars),
        }
    }
}

fn autos_info(autos: &[TraitId]) -> Info
    ensures { result ≡ info_of (autos_trees autos.now) }
{
    match autos {
        [] => Info::EMPTY,
        [_, ..] => Info::LEAF,
    }
}

fn const_info(kind: ConstKind) -> Info
    requires { ConstHeld kind }
    ensures { result ≡ info_of (const_trees kind) }
{
    match kind {
        ConstKind::Value(_) => Info::LEAF,
        ConstKind::Param(_) => Info::leaf(TypeFlags::HAS_CT_PARAM),
        ConstKind::Placeholder(_) => Info::leaf(TypeFlags::HAS_CT_PLACEHOLDER),
        ConstKind::Bound(binder, _) => Info::bound(TypeFlags::HAS_CT_BOUND, binder),
        ConstKind::Infer(_) => Info::leaf(TypeFlags::HAS_CT_INFER),
    }
}

fn region_info(region: Region) -> Info
    requires { RegionHeld region.kind }
    ensures { result ≡ info_of (region_trees region) }
{
    match region.kind {
        RegionKind::ReStatic => Info::leaf(TypeFlags::HAS_RE_STATIC),
        RegionKind::ReEarlyParam(_) => Info::leaf(TypeFlags::HAS_RE_PARAM),
        RegionKind::RePlaceholder(_) => Info::leaf(TypeFlags::HAS_RE_PLACEHOLDER),
        RegionKind::ReBound(binder, _) => Info::bound(TypeFlags::HAS_RE_BOUND, binder),
        RegionKind::ReVar(_) => Info::leaf(TypeFlags::HAS_RE_INFER),
    }
}
