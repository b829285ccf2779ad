//! What an interner stores for each term.
ghost use Rattle.std.specs.Prelude.{◌≡◌, ◌+◌, ◌≤◌, ◌<◌, ◌^◌};
ghost use Rattle.type_terms.specs.Promised.Label.{fn_ptr};
ghost use Rattle.type_terms.specs.Counts.{count_of, number_of, raised};
ghost use Rattle.type_terms.specs.Infos.{join, node_info, outer_of};
ghost use Rattle.type_terms.specs.Promised.Handles.{BinderHeld};
ghost use Rattle.type_terms.specs.Nodes.{kind_of};

use crate::flags::TypeFlags;
use crate::kinds::{BoundsData, ConstKind, GenericArgKind, Ty, TyKind};
use crate::number::BoundVarIndexKind;

/// A term, with the handles of its parts.
#[derive(PartialEq, Eq, Hash, Drop)]
pub(crate) enum Node {
    Ty(TyKind),
    Const(ConstKind),
    Args(Vec<GenericArgKind>),
    Tys(Vec<Ty>),
    Bounds(BoundsData),
}

/// The kinds of handle. Each has a limit of its own.
#[derive(Clone, Copy, PartialEq, Eq)]
pub(crate) enum HandleKind {
    Types,
    Consts,
    ArgsLists,
    TypeLists,
    BoundsLists,
}

/// The number of handles of each kind.
#[derive(Clone, Copy)]
pub(crate) struct Counts {
    pub types: u32,
    pub consts: u32,
    pub args_lists: u32,
    pub type_lists: u32,
    pub bounds_lists: u32,
}

/// What is computed once for a term, when it is created.
#[derive(Clone, Copy)]
pub(crate) struct Info {
    pub flags: u32,
    pub outer_binder: u32,
    pub depth: u32,
}

impl Node {
    /// The kind of handle that the node has.
    pub(crate) fn handle_kind(&self) -> HandleKind
        ensures { number_of result ≡ kind_of self.now }
    {
        match self {
            Node::Ty(_) => HandleKind::Types,
            Node::Const(_) => HandleKind::Consts,
            Node::Args(_) => HandleKind::ArgsLists,
            Node::Tys(_) => HandleKind::TypeLists,
            Node::Bounds(_) => HandleKind::BoundsLists,
        }
    }
}

impl Counts {
    /// The counts of an empty interner.
    pub(crate) const EMPTY: Counts = Counts {
        types: 0,
        consts: 0,
        args_lists: 0,
        type_lists: 0,
        bounds_lists: 0,
    };

    /// The number of handles of this kind.
    pub(crate) fn of(&self, kind: HandleKind) -> u32
        ensures { result ≡ count_of (number_of kind) self.now }
    {
        match kind {
            HandleKind::Types => self.types,
            HandleKind::Consts => self.consts,
            HandleKind::ArgsLists => self.args_lists,
            HandleKind::TypeLists => self.type_lists,
            HandleKind::BoundsLists => self.bounds_lists,
        }
    }

    /// The counts with one more handle of this kind.
    pub(crate) fn raised(self, kind: HandleKind) -> Counts
        requires { count_of (number_of kind) self + 1 < 2 ^ 32 }
        ensures { result ≡ raised (number_of kind) self }
    {
        match kind {
            HandleKind::Types => Counts {
                types: self.types + 1,
                ..self
            },
            HandleKind::Consts => Counts {
                consts: self.consts + 1,
                ..self
            },
            HandleKind::ArgsLists => Counts {
                args_lists: self.args_lists + 1,
                ..self
            },
            HandleKind::TypeLists => Counts {
                type_lists: self.type_lists + 1,
                ..self
            },
            HandleKind::BoundsLists => Counts {
                bounds_lists: self.bounds_lists + 1,
                ..self
            },
        }
    }
}

impl Info {
    /// The info of an empty list of terms.
    pub(crate) const EMPTY: Info = Info {
        flags: 0,
        outer_binder: 0,
        depth: 0,
    };

    /// The info of a node without children and flags.
    pub(crate) const LEAF: Info = Info {
        flags: 0,
        outer_binder: 0,
        depth: 1,
    };

    /// The info of a bound variable with these flags. Its outer binder is one more than its binder number, or 0 for a
    /// variable of a canonical form.
    pub(crate) fn bound(flags: TypeFlags, binder: BoundVarIndexKind) -> Info
        requires { BinderHeld binder }
        ensures { result ≡ record { flags = flags.0; outer_binder = outer_of binder; depth = 1 } }
    {
        let outer_binder = match binder {
            BoundVarIndexKind::Bound(binder) => binder.index + 1,
            BoundVarIndexKind::Canonical => 0,
        };
        Info {
            flags: flags.0,
            outer_binder,
            depth: 1,
        }
    }

    /// The info of a node without children and with these flags.
    pub(crate) fn leaf(flags: TypeFlags) -> Info
        ensures { result ≡ record { flags = flags.0; outer_binder = 0; depth = 1 } }
    {
        Info {
            flags: flags.0,
            outer_binder: 0,
            depth: 1,
        }
    }

    /// The info of two lists of terms, one after the other.
    pub(crate) fn join(self, other: Info) -> Info
        ensures { result ≡ join self other }
    {
        Info {
            flags: self.flags | other.flags,
            outer_binder: self.outer_binder.max(other.outer_binder),
            depth: self.depth.max(other.depth),
        }
    }

    /// The info of a node with these children that has no flag and is no binder.
    pub(crate) fn plain(self) -> Info
        requires { self.depth + 1 < 2 ^ 32 }
        ensures { result ≡ record self { depth = self.depth + 1 } }
    {
        Info {
            depth: self.depth + 1,
            ..self
        }
    }

    /// The info of a node with these children that binds lifetimes.
    pub(crate) fn binder(self, bound_vars: u32) -> Info
        requires { self.depth + 1 < 2 ^ 32 }
        ensures { result ≡ node_info (fn_ptr bound_vars) self }
    {
        let own = if bound_vars == 0 {
            0
        } else {
            TypeFlags::HAS_BINDER_VARS.0
        };
        Info {
            flags: own | self.flags,
            outer_binder: self.outer_binder.saturating_sub(1),
            depth: self.depth + 1,
        }
    }
}
