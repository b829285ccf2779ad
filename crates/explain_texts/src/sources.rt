//! The sources of candidates, in words.

use crate::items::{Texts, impl_piece};
use explain_sessions::goal_evaluator::{BuiltinImplSource, CandidateSource};
use messages::Piece;

/// What a built-in rule is called.
fn rule_name(source: BuiltinImplSource) -> &'static str {
    match source {
        BuiltinImplSource::Trivial => "built-in rule",
        BuiltinImplSource::Misc => "built-in rule",
        BuiltinImplSource::Object(_) => "built-in rule of the `dyn`",
        BuiltinImplSource::TraitUpcasting(_) => "supertrait of the `dyn`'s bound",
    }
}

/// The source of a candidate, as in "by a built-in rule".
pub fn source_piece<'w>(texts: Texts<'w>, source: CandidateSource) -> Piece<'w> {
    match source {
        CandidateSource::Impl(id) => impl_piece(texts, id),
        CandidateSource::BuiltinImpl(source) => Piece::Text(rule_name(source)),
        CandidateSource::ParamEnv(_) => Piece::Text("where-clause"),
        CandidateSource::CoherenceUnknowable => Piece::Text("impl of a crate that is not seen"),
    }
}
