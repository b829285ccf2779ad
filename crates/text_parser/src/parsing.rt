//! Whole texts, read into a workspace.
ghost use Rattle.std.specs.Prelude.{◌≡◌, ℕ, Ok, Err, IfOk, IfErr, MatchResult};
ghost use Rattle.text_language.specs.Promised.Declarations.{Declarations};
ghost use Rattle.text_language.specs.Text.{TextGives};
ghost use Rattle.text_parser.specs.Outcomes.{IsTextError};
ghost use Rattle.text_parser.specs.Parsing.{IsFaultAt};

use crate::fault::TextError;
use crate::text::read_text;
use std::alloc::Global;
use text_tables::Workspace;

/// Reads a text: what it declares and queries, after `core`, in its order.
///
/// Fails with the first faulty line, counted from 1, with the smallest number of a fault in it, or with `Memory` if memory is refused.
pub fn parse(alloc: Global, bytes: &[u8]) -> Result<Workspace, TextError>
    ensures taken { IfOk result (λ w. TextGives bytes.now (Ok w)) }
    ensures refused { IfErr result (λ e. IsTextError bytes.now e) }
    // A text that gives declarations is taken, and a faulty one refused, unless memory is refused.
    ensures gives { (d : Declarations) → TextGives bytes.now (Ok d) → MatchResult result (λ w. w ≡ d) (λ e. e ≡ TextError.Memory) }
    ensures faulty { (k n : ℕ) → TextGives bytes.now (Err (k, n)) → MatchResult result (λ w. ⊥) (λ e. IsFaultAt k n e) }
{
    read_text(alloc, bytes)
}
