//! The checks of pairs of impls, below a session: which pairs a crate has to compare, and whether a where-clause clears a pair.
//!
//! For `impl<T> Show for T where T: Num` and `impl Show for V<u8>`:
//!
//! - `by_trait`: the second is one of the impls that may overlap with the first, as all of the trait are.
//! - `impossible`: whether the search refuses `V<u8>: Num` in coherence, alone over the table of the equated headers.
//! - `obligations`: whether it does so for one of the where-clauses of both. Then the impls do not overlap.
#![tactic(auto)]

pub mod by_trait;
mod impossible;
mod obligations;

pub use impossible::is_impossible;
pub use obligations::has_impossible_obligation;
