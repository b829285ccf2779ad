//! The fault of a line that was read, or what was found of a line without one. All tests are computed, and then the first that fails is
//! looked for. So no test has to know what was tested before.
ghost use Rattle.std.specs.Prelude.{◌≡◌, ◌||◌, ◌&&◌, false, map, is_some, length, nat_le, IfOk};
ghost use Rattle.std.specs.Option.{option_map, option_map_or};
ghost use Rattle.text_language.specs.Promised.Syntax.{Line};
ghost use Rattle.text_language.specs.Promised.Declarations.{known};
ghost use Rattle.text_language.specs.Faults.{is_any, tests, first_of, fault_of};
ghost use Rattle.text_lines.specs.Lines.{ReadsLine};
ghost use Rattle.text_lines.specs.Says.{name_said};
ghost use Rattle.text_lines.specs.Views.{statement_of};
ghost use Rattle.text_names.specs.Machine.{Sight, seen_items};
ghost use Rattle.text_names.specs.Views.{variable_in};
ghost use Rattle.text_names.specs.FaultNumbers.{fault_number, numbered};
ghost use Rattle.text_names.specs.Judged.{fault_in, HandsOn};
ghost use Rattle.text_names.specs.Limits.{is_misplaced_for};
ghost use Rattle.text_names.specs.LineFound.{IsLineFound, FindsLine};
ghost use Rattle.text_names.specs.Params.{takes_said};
ghost use Rattle.text_names.specs.Speaks.{Speaks, is_trait_said};
ghost use Rattle.text_names.specs.Variables.{have_two_kinds};

use crate::fault::{FaultKind, Tests};
use crate::header::{has_free_param, implements_built_in, is_foreign_auto};
use crate::limits::passes_limit;
use crate::line::{LineFound, find_line};
use crate::names::LineNames;
use crate::params::is_taken_param;
use crate::variables::are_of_two_kinds;
use std::alloc::{AllocError, Global};
use text_lines::{LineRead, Statement};

/// A line that was judged.
#[derive(Drop)]
pub enum JudgedLine<'a> {
    /// Of all faults that apply, the one with the smallest number.
    Faulty(FaultKind),
    /// No fault applies, and this was found of the line.
    Faultless(LineFound<'a>),
}

/// Whether the line is misplaced: a struct or trait in a section, or a struct, trait or impl outside a section before any crate but `core`.
fn is_misplaced<N: LineNames>(names: &N, statement: &Statement<'_>) -> bool
    ensures { result ≡ is_misplaced_for (N.sight names.now).before (statement_of statement.now) }
{
    if names.is_in_section() {
        return statement.belongs_to_crate() && !statement.is_impl();
    }
    statement.belongs_to_crate() && names.crate_count() <= 1
}

/// Whether the name that the line declares was declared before.
fn declares_taken<N: LineNames>(names: &N, statement: &Statement<'_>) -> bool
    ensures { result ≡ option_map_or (λ n. is_some (known (N.sight names.now).before n)) (name_said (statement_of statement.now)) false }
{
    match statement.declared_name() {
        Some(name) => names.was_known(name),
        None => false,
    }
}

/// Whether the name that the line declares is taken, or that of a parameter.
fn takes_names<N: LineNames>(
    names: &N,
    alloc: Global,
    statement: &Statement<'_>,
) -> Result<bool, AllocError>
    ensures { IfOk result (λ b. b ≡ takes_said (N.sight names.now).before (seen_items (N.sight names.now)) (statement_of statement.now)) }
{
    Ok(declares_taken(names, statement) || is_taken_param(names, alloc, statement.params())?)
}

fn is_trait(statement: &Statement<'_>) -> bool
    ensures { result ≡ is_trait_said (statement_of statement.now) }
{
    matches!(statement, Statement::Trait { .. })
}

/// Whether there is a variable outside the bounds of a query, or one of two kinds.
fn has_stray_variable(alloc: Global, found: &LineFound<'_>) -> Result<bool, AllocError>
    ensures { IfOk result (λ b. b ≡ (is_any (map variable_in found.now.others.variables.items)
        || have_two_kinds (map variable_in found.now.asked.variables.items))) }
{
    Ok(!found.others.variables.is_empty() || are_of_two_kinds(alloc, &found.asked.variables)?)
}

fn tests_of<N: LineNames>(
    names: &N,
    alloc: Global,
    read: &LineRead<'_>,
    found: &LineFound<'_>,
) -> Result<Tests, AllocError>
    requires { Speaks (N.sight names.now).line (statement_of read.now.statement) }
    ensures { IfOk result (λ t. (l : Line) → ReadsLine l read.now → IsLineFound (N.sight names.now) l found.now
        → numbered t ≡ tests (N.sight names.now).before l) }
{
    let faults = found.faults();
    let takes_own = takes_names(names, alloc, &read.statement)?;
    let has_free_param = has_free_param(alloc, read)?;
    let has_stray_variable = has_stray_variable(alloc, found)?;
    let passes_limit = passes_limit(names, alloc, read, found)?;
    Ok(Tests {
        is_misplaced: is_misplaced(names, &read.statement),
        takes_names: takes_own | faults.takes_names,
        uses_unknown: faults.uses_unknown,
        uses_hidden: faults.uses_hidden,
        uses_other_sort: faults.uses_other_sort,
        has_free_param,
        bounds_use_own: is_trait(&read.statement) & faults.uses_own,
        is_loaded_auto: read.statement.is_loaded_auto(),
        is_foreign_auto: is_foreign_auto(names, read),
        implements_built_in: implements_built_in(names, read),
        has_stray_variable,
        refutes_params: read.statement.refutes_params(),
        has_bad_dyn: faults.has_bad_dyn,
        passes_limit,
    })
}

/// The judged line, with these tests and what was found of it.
fn judged_by(tests: Tests, found: LineFound<'_>) -> JudgedLine<'_>
    ensures fault { option_map fault_number (fault_in result) ≡ first_of (numbered tests) }
    ensures found { (v : Sight) (read : LineRead) → FindsLine v read found.entry → HandsOn v read result }
{
    match tests.first() {
        Some(kind) => JudgedLine::Faulty(kind),
        None => JudgedLine::Faultless(found),
    }
}

/// The fault of a line that was read: of all faults that apply, the one with the smallest number. For a line without a fault, what was
/// found of it: its types and bounds with all names looked up. Each name is looked up once.
///
/// The names must be those of the line: they know what is declared before it, and its own name and parameters. Fails only if memory is
/// refused.
pub fn judge_line<'a, N: LineNames>(
    names: &N,
    alloc: Global,
    read: &LineRead<'a>,
) -> Result<JudgedLine<'a>, AllocError>
    requires { Speaks (N.sight names.now).line (statement_of read.now.statement) }
    ensures fault { IfOk result (λ judged. (l : Line) → ReadsLine l read.now
        → option_map fault_number (fault_in judged) ≡ fault_of (N.sight names.now).before l) }
    ensures found { IfOk result (HandsOn (N.sight names.now) read.now) }
{
    let found = find_line(names, alloc, read)?;
    let tests = tests_of(names, alloc, read, &found)?;
    Ok(judged_by(tests, found))
}
