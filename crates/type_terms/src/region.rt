//! Lifetimes.
use crate::number::{BoundVar, BoundVarIndexKind, RegionVid};

/// The kind of a lifetime (rustc_type_ir: `RegionKind`). The kinds for erased, late bound and erroneous lifetimes are
/// left out.
#[derive(Clone, Copy, PartialEq, Eq, Hash)]
pub enum RegionKind {
    /// `'static`.
    ReStatic,
    /// The parameter with this index in the list of an item's parameters.
    ReEarlyParam(u32),
    /// An arbitrary lifetime that is equal to itself alone.
    RePlaceholder(u32),
    /// A lifetime of a `for<'a>`, or of a canonical form.
    ReBound(BoundVarIndexKind, BoundVar),
    /// An inference variable.
    ReVar(RegionVid),
}

/// A lifetime. It is a value that needs no interner.
#[derive(Clone, Copy, PartialEq, Eq, Hash)]
pub struct Region {
    pub kind: RegionKind,
}
