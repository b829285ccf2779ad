//! Why a session answers as it does: walks of the goals that it asked, over its own search.
//!
//! What a walk shows is how the search answers each goal, and no more is proved of it than that its terms are the session's. But the
//! steps of a proof that it finds go through the checker (`Session::is_proof_of`), so what is shown as checked is a proof; and so do
//! candidates (`checked_candidates`), and what two overlapping impls have in common. That no impl fits a goal is told by heads and by
//! equations (`no_impl_fits`), and that no built-in rule does is looked up (`no_built_in_rule_fits`). Who may write an impl that is not seen is
//! told by the orphan rule, the trait, and the impls that it must not overlap (`Adder`).
#![tactic(auto)]

mod adding;
mod alone;
mod apart;
mod bounds;
mod breaking;
mod claims;
mod explained;
mod fitting;
mod free;
mod headers;
mod holding;
mod instances;
mod pairs;
mod places;
mod questions;
mod refusals;
mod rules;
mod shown;
mod steps;
mod supertraits;
mod unknowns;
mod unseen;
mod walking;
mod walks;

pub use adding::Adder;
pub use breaking::BreakingCause;
pub use claims::{Claims, no_claims, pair_claims, question_claims, refutation_claims};
pub use explained::{
    explain_breaking, explain_overlap, explain_proof, explain_question, explain_refutation,
    explain_supertrait, impls_overlap,
};
pub use unseen::{breaks_orphan_rule, impl_header};
pub use walks::{BoundWalk, CheckedCandidates, PairWalk, ProofWalk, ShownStep};

// What traces are made of, so that users of this crate need no other.
pub use explain_traces::{Answer, GoalWalk};
pub use sessions::orphan_check::errors::Conflict;
pub use sessions::proof_checker::steps::{Step, Way};

// The crates below whose names the crates above need too: these list this crate alone.
pub use explain_traces;
pub use sessions;
pub use sessions::{goal_evaluator, orphan_check, term_folds, text_lines, text_tables, type_terms};
