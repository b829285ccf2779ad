//! The binders around a node.
ghost use Rattle.std.specs.Prelude.{◌≡◌, ℕ, length, min};
ghost use Rattle.std.specs.List.{slice_get};
ghost use Rattle.type_terms.specs.Binders.{counts_of};
ghost use Rattle.type_terms.specs.declared.TheConstants.{MAX_INDEX};

use crate::MAX_INDEX;
use crate::number::DebruijnIndex;

/// The binders around a node of a term, the innermost first, each with the number of lifetimes that it binds.
///
/// A traversal stores them in its stack frames and passes references to them, so that it needs no memory.
#[derive(Clone, Copy)]
pub enum Binders<'a> {
    /// There is no binder around the node.
    Outermost,
    /// A binder of this number of lifetimes, and the binders around it.
    Inside(u32, &'a Binders<'a>),
    /// This number of binders, each of no lifetime. A fold uses them, because only the number of binders matters there.
    Empty(u32),
    /// A list of binders, by how many lifetimes they bind, the innermost last, and the binders around them. A visit
    /// uses it that has a list in memory.
    Listed(&'a [u32], &'a Binders<'a>),
}

impl Binders<'_> {
    /// The number of binders, at most `MAX_INDEX`.
    ///
    /// No binder number in a term is greater, so that none refers outside of more binders than that.
    pub fn depth(&self) -> DebruijnIndex
        ensures { result.index ≡ min (length (counts_of self.now)) MAX_INDEX }
    {
        match self {
            Binders::Outermost => DebruijnIndex { index: 0 },
            Binders::Empty(count) => DebruijnIndex {
                index: (*count).min(MAX_INDEX),
            },
            Binders::Listed(counts, outer) => {
                let depth = outer.depth();
                let room = MAX_INDEX - depth.index;
                if counts.len() < room as usize {
                    depth.shifted_in(counts.len() as u32)
                } else {
                    DebruijnIndex { index: MAX_INDEX }
                }
            }
            Binders::Inside(_, outer) => {
                let depth = outer.depth();
                if depth.index == MAX_INDEX {
                    depth
                } else {
                    depth.shifted_in(1)
                }
            }
        }
    }

    /// The number of lifetimes that the binder with this number binds, if there is one.
    pub fn count(&self, binder: DebruijnIndex) -> Option<u32>
        ensures { result ≡ slice_get (counts_of self.now) binder.index }
    {
        match self {
            Binders::Outermost => None,
            Binders::Empty(count) => { if binder.index < *count { Some(0) } else { None } }
            Binders::Listed(counts, outer) => {
                let index = binder.index as usize;
                if index < counts.len() {
                    Some(counts[counts.len() - 1 - index])
                } else {
                    outer.count(binder.shifted_out(counts.len() as u32))
                }
            }
            Binders::Inside(count, _) if binder.index == 0 => Some(*count),
            Binders::Inside(_, outer) => outer.count(binder.shifted_out(1)),
        }
    }
}
