//! Sessions: one crate of a text, lowered once, with its solver.
//!
//! A [`Session`] has one interner, one store of goals and answers, one search graph and one cache for all its calls. What a call finds
//! stays in the cache, and all of it is justified. Where a call promises something of its answer, earlier calls cannot change that. What a
//! session leaves is a [`SeenView`], from which the session of another crate may begin.
//!
//! - `check_crate`: does the crate keep the orphan rule, and do two impls overlap?
//! - `check_supertraits`: does each of its impls have the supertraits of its trait?
//! - `check_later`: may a later version add the impls of a section?
//! - `prove`, `refute`: has `V<u8>: Show` a proof here, and is it certain that it has none in any linked set?
#![tactic(auto)]

mod answers;
mod asked;
mod checked;
mod fixed_goals;
mod later;
pub mod laws;
mod left_session;
mod limits;
mod own_values;
mod placeholders;
mod proving;
mod refuted;
mod seen_view;
mod session;
mod shown;
mod supertraits;
pub mod table;
mod together;
pub mod values;
mod view;

pub use answers::{LaterAnswer, ProveAnswer, RefuteAnswer, SupersAnswer, Verdict};
pub use asked::lower_in;
pub use checked::{intersection_at, overlap_at};
pub use later::{added_impls, added_impls_break_no_user, old_answers_stay, trait_is_relied_on};
pub use laws::{
    SolverSearch, accepted_texts_are_coherent, answered_sets_are_linked, clauses_apply,
    crates_of_two_texts_are_a_set, decided_are_answered, formed_questions_are_goals,
    held_texts_are_coherent, impls_apply, impls_are_in_scope, open_pair_goals_are_possible,
    pair_goals_are_formed, questions_are_answered_as_written, questions_are_answered_exactly,
    questions_are_elaborated, questions_are_formed, ready_impls_are_written_well,
    references_are_goals, refusals_are_exact, sorts_tell_fits, texts_are_formed, texts_are_joined,
    texts_list_in_order,
};
pub use left_session::LeftSession;
pub use limits::Limits;
pub use orphan_check::errors::{OrphanCheckErr, UncoveredTyParams};
pub use proving::{elaborate_in, goal_under, question_table_in};
pub use seen_view::SeenView;
pub use session::Session;
pub use supertraits::{SupertraitGoals, own_goals_in};
pub use together::{all_asked, obligations_for};
pub use view::{declarations_are_ready, impls_are_numbered};

// The crates below whose names the crates above need too: these list this crate alone.
pub use candidate_assembly;
pub use declarations;
pub use fulfillment;
pub use goal_evaluator;
pub use infer_table;
pub use orphan_check;
pub use overlap_check;
pub use pair_checks;
pub use proof_checker;
pub use search_graph;
pub use solver_graph;
pub use term_folds;
pub use text_lines;
pub use text_lowering;
pub use text_tables;
pub use type_terms;
