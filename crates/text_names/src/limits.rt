//! Limits that a line exceeds.
ghost use Rattle.std.specs.Prelude.{◌≡◌, length, nat_lt, IfOk};
ghost use Rattle.text_language.specs.Promised.Syntax.{Line};
ghost use Rattle.text_language.specs.Faults.{param_limit, passes_limit};
ghost use Rattle.text_lines.specs.Lines.{ReadsLine};
ghost use Rattle.text_lines.specs.Says.{params_said};
ghost use Rattle.text_lines.specs.Views.{statement_of};
ghost use Rattle.text_names.specs.Limits.{is_full_for, is_large_for};
ghost use Rattle.text_names.specs.LineFound.{IsLineFound};
ghost use Rattle.text_names.specs.Speaks.{Speaks};

use crate::found_variables::each_once;
use crate::line::LineFound;
use crate::names::LineNames;
use std::alloc::{AllocError, Global};
use text_lines::{LineRead, Statement};

/// The crates of a text, with `core`.
const CRATE_LIMIT: usize = 4_096;

const QUESTION_LIMIT: usize = 65_536;

/// The structs, traits and impls of a crate, or the impls of a section.
const ITEM_LIMIT: usize = 65_535;

const PARAM_LIMIT: usize = 64;

/// Fields, bounds of a trait or a query, or where-clauses.
const PART_LIMIT: usize = 64;

/// The variables of a query.
const VARIABLE_LIMIT: usize = 16;

/// Whether there are already as many crates, queries or items as there may be.
fn is_full<N: LineNames>(names: &N, statement: &Statement<'_>) -> bool
    ensures { result ≡ is_full_for (N.sight names.now).before (statement_of statement.now) }
{
    match statement {
        Statement::Crate { .. } => names.crate_count() >= CRATE_LIMIT,
        Statement::Prove { .. } => names.question_count() >= QUESTION_LIMIT,
        Statement::Refute { .. } => names.question_count() >= QUESTION_LIMIT,
        Statement::Later { .. } | Statement::Supers { .. } => false,
        Statement::Impl { .. } if names.is_in_section() => names.last_later() >= ITEM_LIMIT,
        _ => names.last_items() >= ITEM_LIMIT,
    }
}

#[tactic(auto, using(crate::proofs::Passing::params_counted))]
fn has_many_params(statement: &Statement<'_>) -> bool
    ensures { result ≡ nat_lt param_limit (length (params_said (statement_of statement.now))) }
{
    statement.params().len() > PARAM_LIMIT
}

/// Whether the statement without its types exceeds a limit.
fn is_large<N: LineNames>(names: &N, statement: &Statement<'_>) -> bool
    ensures { result ≡ is_large_for (N.sight names.now).before (statement_of statement.now) }
{
    is_full(names, statement)
        || statement.has_long_name()
        || has_many_params(statement)
        || statement.part_count() > PART_LIMIT
}

/// Whether a line exceeds a limit, given what was found of it. Fails only if memory is refused.
pub(crate) fn passes_limit<N: LineNames>(
    names: &N,
    alloc: Global,
    read: &LineRead<'_>,
    found: &LineFound<'_>,
) -> Result<bool, AllocError>
    requires { Speaks (N.sight names.now).line (statement_of read.now.statement) }
    ensures { IfOk result (λ b. (l : Line) → ReadsLine l read.now → IsLineFound (N.sight names.now) l found.now
        → b ≡ passes_limit (N.sight names.now).before l) }
{
    if is_large(names, &read.statement) {
        return Ok(true);
    }
    if found.asked.is_deep {
        return Ok(true);
    }
    if found.others.is_deep {
        return Ok(true);
    }
    let variables = each_once(alloc, &found.asked.variables)?;
    if variables.len() > VARIABLE_LIMIT {
        return Ok(true);
    }
    Ok(found.faults().passes_limit)
}
