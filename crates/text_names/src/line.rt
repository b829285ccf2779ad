//! What is found of a line.
ghost use Rattle.std.specs.Prelude.{◌≡◌, [], map, IfOk};
ghost use Rattle.text_lines.specs.TokenViews.{text_of};
ghost use Rattle.text_language.specs.Uses.{crate_use};
ghost use Rattle.text_lines.specs.Views.{statement_of};
ghost use Rattle.text_names.specs.Machine.{Sight, seen_items, findings, either};
ghost use Rattle.text_names.specs.Speaks.{Speaks, crates_mentioned};
ghost use Rattle.text_names.specs.LineFound.{asked_bounds, FindsLine};

use crate::findings::Findings;
use crate::judge_use::crate_name;
use crate::looked_up::Names;
use crate::parts::{PartsFound, find_parts};
use std::alloc::{AllocError, Global};
use text_lines::{LineRead, Statement};

/// What was found of a line.
#[derive(Drop)]
pub struct LineFound<'a> {
    /// What is wrong with the crates that it names.
    pub crates: Findings,
    /// What was found of the bounds of a query.
    pub asked: PartsFound<'a>,
    /// What was found of all other types and bounds.
    pub others: PartsFound<'a>,
}

/// What is wrong with names of crates, on a line that declares no struct and no trait.
fn crate_names<N: Names>(names: &N, crates: &[&[u8]]) -> Findings
    requires { seen_items (N.sight names.now) ≡ (N.sight names.now).before }
    ensures { result ≡ findings (N.sight names.now) (map crate_use (map text_of crates.now)) }
{
    let mut faults = Findings::NONE;
    for name in crates {
        faults = faults.either(crate_name(names, name));
    }
    faults
}

/// No names, so nothing is wrong.
fn no_names() -> Findings
    ensures { (v : Sight) → result ≡ findings v [] }
{
    Findings::NONE
}

/// What is wrong with the crates that a line names.
fn named_crates<N: Names>(names: &N, statement: &Statement<'_>) -> Findings
    requires { Speaks (N.sight names.now).line (statement_of statement.now) }
    ensures { result ≡ findings (N.sight names.now) (map crate_use (crates_mentioned (statement_of statement.now))) }
{
    match statement {
        Statement::Crate { uses, .. } => crate_names(names, uses),
        Statement::Prove {
            crate_name: name,
            ..
        } => crate_name(names, name),
        Statement::Refute {
            crate_name: name,
            ..
        } => crate_name(names, name),
        Statement::Later { crate_name: name } => crate_name(names, name),
        Statement::Supers { crate_name: name } => crate_name(names, name),
        _ => no_names(),
    }
}

/// How many bounds a query asks. In a line each has a type and a bound, and these come first.
fn asked_bounds(statement: &Statement<'_>) -> usize
    ensures { result ≡ asked_bounds (statement_of statement.now) }
{
    match statement {
        Statement::Prove { further, .. } => further.len() + 1,
        Statement::Refute { further, .. } => further.len() + 1,
        _ => 0,
    }
}

impl<'a> LineFound<'a> {
    /// What is wrong with what the line uses.
    pub fn faults(&self) -> Findings
        ensures { result ≡ either self.now.crates (either self.now.asked.faults self.now.others.faults) }
    {
        self.crates
            .either(self.asked.faults.either(self.others.faults))
    }
}

/// What is found of a line that was read. Fails only if memory is refused.
pub(crate) fn find_line<'a, N: Names>(
    names: &N,
    alloc: Global,
    read: &LineRead<'a>,
) -> Result<LineFound<'a>, AllocError>
    requires { Speaks (N.sight names.now).line (statement_of read.now.statement) }
    ensures { IfOk result (λ found. FindsLine (N.sight names.now) read.now found) }
{
    let parts = read.statement.parts(alloc)?;
    let count = asked_bounds(&read.statement)
        .saturating_mul(2)
        .min(parts.len());
    let asked = find_parts(names, alloc, &read.cells, &parts[..count])?;
    let others = find_parts(names, alloc, &read.cells, &parts[count..])?;
    Ok(LineFound {
        crates: named_crates(names, &read.statement),
        asked,
        others,
    })
}
