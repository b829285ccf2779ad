//! The overlap check of two impls, up to the goals that the solver has to refute, and the orphan check of a crate's impls. rustc:
//! `overlap` and `orphan_check_impl`.
//!
//! For example, `impl<T> Show for V<T> where T: Num` and `impl<U> Show for V<U> where U: Copy`:
//!
//! 1. With fresh inference variables the headers are `V<?0>: Show` and `V<?1>: Show`.
//! 2. Equating them makes `?1` equal to `?0`. If that fails, the impls do not overlap.
//! 3. The where-clauses are now the goals `?0: Num` and `?0: Copy`. If one of them has no solution in any linked set, the impls do not
//!    overlap.
#![tactic(auto)]

pub mod equate;
pub mod fixed;
pub mod fresh;
pub mod header;
pub mod heads;
pub mod intersection;
pub mod laws;
pub mod orphans;
pub mod partners;

pub use laws::{
    a_refused_clause_clears, accepted_sets_have_one_impl, accepted_texts_in_any_order,
    answers_hold_in_linked_sets, apart_is_cleared, bounded_is_refuted, decided_is_answered,
    held_sets_have_one_impl, impl_rules_are_instances, passed_is_accepted, refused_is_real,
    worked_answers, worked_headers, worked_pairs,
};
