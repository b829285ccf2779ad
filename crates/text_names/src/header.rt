//! Faults of an impl's header: a parameter that is not in it, an auto trait for a foreign type, and a trait with built-in rules alone.
ghost use Rattle.std.specs.Prelude.{◌≡◌, ◌-◌, ◌&&◌, ℕ, List, [], false, not, map, take, drop, IfOk};
ghost use Rattle.std.specs.List.{list_any};
ghost use Rattle.std.specs.Option.{option_copied, option_map, option_map_or};
ghost use Rattle.text_language.specs.Promised.Syntax.{Line};
ghost use Rattle.text_language.specs.Promised.Declarations.{Declarations, known, impl_owner};
ghost use Rattle.text_language.specs.Faults.{has_free_param, implements_built_in, is_built_in, is_foreign_auto, is_struct_in};
ghost use Rattle.text_language.specs.Promised.Faults.{is_among, is_auto_name};
ghost use Rattle.text_lines.specs.TokenViews.{text_of};
ghost use Rattle.text_lines.specs.TypeViews.{cell_of, cells_in};
ghost use Rattle.text_lines.specs.Lines.{ReadsLine};
ghost use Rattle.text_lines.specs.Views.{statement_of};
ghost use Rattle.text_names.specs.Machine.{seen_items};
ghost use Rattle.text_names.specs.UsedNames.{Holds, names_with};
ghost use Rattle.text_names.specs.Header.{header_said, name_of, last_name, names_own_struct, names_foreign_auto, names_in_header, trait_of_impl};
ghost use Rattle.text_names.specs.Speaks.{Speaks};

use crate::judge_use::is_param;
use crate::looked_up::Names;
use crate::name_set::NameSet;
use crate::names::LineNames;
use crate::params::ParamNames;
use crate::parts::cells_to;
use std::alloc::{AllocError, Global};
use text_lines::{Cell, ClauseSpans, LineRead, Statement};
use text_tables::Known;

/// Traits of `core` that have built-in rules alone: `Sized`, `Tuple`, `FnPtr`, `FnOnce`, `FnMut`, `Fn`, `Unsize`.
const BUILT_IN_TRAITS: [u32; 7] = [0, 3, 4, 5, 6, 7, 8];

fn impl_header(statement: &Statement<'_>) -> Option<ClauseSpans>
    ensures { result ≡ header_said (statement_of statement.now) }
{
    match statement {
        Statement::Impl { header, .. } => Some(*header),
        _ => None,
    }
}

/// The name of a cell, if it is a name where a type is expected.
fn cell_name<'a>(cell: Option<&Cell<'a>>) -> Option<&'a [u8]>
    ensures { option_map text_of result ≡ name_of (option_map cell_of (option_copied cell.entry)) }
{
    match cell {
        Some(Cell::Named { name, .. }) => Some(name),
        _ => None,
    }
}

/// The name of the type or bound that ends at this index, if it is a name, with or without arguments.
fn last_name<'a>(cells: &[Cell<'a>], end: usize) -> Option<&'a [u8]>
    ensures { option_map text_of result ≡ last_name (take end (cells_in cells.now)) }
{
    cell_name(cells_to(cells, end).last())
}

/// Whether this is the name of an auto trait.
fn is_auto<N: Names>(names: &N, name: &[u8]) -> bool
    ensures { result ≡ is_auto_name (seen_items (N.sight names.now)) name.now }
{
    match names.known(name) {
        Some(Known::Trait { is_auto, .. }) => is_auto,
        _ => false,
    }
}

/// Whether this is the name of a trait that has built-in rules alone.
fn is_built_in<N: Names>(names: &N, name: &[u8]) -> bool
    ensures { result ≡ option_map_or is_built_in (known (seen_items (N.sight names.now)) name.now) false }
{
    match names.known(name) {
        Some(Known::Trait { id, .. }) => BUILT_IN_TRAITS.contains(&id.index),
        _ => false,
    }
}

/// Whether a declared name is that of a struct of the impl's crate.
fn is_struct_of_crate<N: LineNames>(names: &N, name: &[u8]) -> bool
    ensures { result ≡ option_map_or (is_struct_in (impl_owner (N.sight names.now).before)) (known (seen_items (N.sight names.now)) name.now) false }
{
    match names.known(name) {
        Some(Known::Struct { owner, .. }) => owner.index == names.impl_owner().index,
        _ => false,
    }
}

/// Whether this is the name of a struct of the impl's crate, and of no parameter.
fn names_own_struct<N: LineNames>(names: &N, name: &[u8]) -> bool
    ensures { result ≡ names_own_struct (N.sight names.now) name.now }
{
    !is_param(names, name) && is_struct_of_crate(names, name)
}

fn is_auto_trait<N: Names>(names: &N, name: Option<&[u8]>) -> bool
    ensures { result ≡ option_map_or (is_auto_name (seen_items (N.sight names.now))) (option_map text_of name.entry) false }
{
    match name {
        Some(name) => is_auto(names, name),
        None => false,
    }
}

fn is_built_in_trait<N: Names>(names: &N, name: Option<&[u8]>) -> bool
    ensures { result ≡ option_map_or (λ n. option_map_or is_built_in (known (seen_items (N.sight names.now)) n) false) (option_map text_of name.entry) false }
{
    match name {
        Some(name) => is_built_in(names, name),
        None => false,
    }
}

fn is_own_struct<N: LineNames>(names: &N, name: Option<&[u8]>) -> bool
    ensures { result ≡ option_map_or (names_own_struct (N.sight names.now)) (option_map text_of name.entry) false }
{
    match name {
        Some(name) => names_own_struct(names, name),
        None => false,
    }
}

/// Whether the trait is an auto trait, and the subject no struct of the impl's crate.
fn is_foreign<N: LineNames>(names: &N, name: Option<&[u8]>, subject: Option<&[u8]>) -> bool
    ensures { result ≡ names_foreign_auto (N.sight names.now) (option_map text_of name.entry) (option_map text_of subject.entry) }
{
    is_auto_trait(names, name) && !is_own_struct(names, subject)
}

/// Whether the line is an impl of an auto trait whose self type is no struct of its crate.
pub(crate) fn is_foreign_auto<N: LineNames>(names: &N, read: &LineRead<'_>) -> bool
    requires { Speaks (N.sight names.now).line (statement_of read.now.statement) }
    ensures { (l : Line) → ReadsLine l read.now → result ≡ is_foreign_auto (N.sight names.now).before l }
{
    match impl_header(&read.statement) {
        Some(header) => {
            let name = last_name(&read.cells, header.bound.end);
            let subject = last_name(&read.cells, header.subject.end);
            is_foreign(names, name, subject)
        }
        None => false,
    }
}

/// Whether the line is an impl of a trait that has built-in rules alone.
pub(crate) fn implements_built_in<N: Names>(names: &N, read: &LineRead<'_>) -> bool
    requires { Speaks (N.sight names.now).line (statement_of read.now.statement) }
    ensures { (l : Line) → ReadsLine l read.now → result ≡ implements_built_in (N.sight names.now).before l }
{
    match impl_header(&read.statement) {
        Some(header) => is_built_in_trait(names, last_name(&read.cells, header.bound.end)),
        None => false,
    }
}

/// The trait that the line is an impl of, by its name. `None` if the line is no impl.
pub fn implemented_trait<'a>(read: &LineRead<'a>) -> Option<&'a [u8]>
    ensures { (l : Line) → ReadsLine l read.now → option_map text_of result ≡ trait_of_impl l }
{
    match impl_header(&read.statement) {
        Some(header) => last_name(&read.cells, header.bound.end),
        None => None,
    }
}

/// The cells from one index to another.
fn cells_between<'c, 'a>(cells: &'c [Cell<'a>], start: usize, end: usize) -> &'c [Cell<'a>]
    ensures { cells_in result.now ≡ drop start (take end (cells_in cells.now)) }
{
    let front = cells_to(cells, end);
    &front[start.min(front.len())..]
}

/// The names that a header uses where a type or a constant is expected.
fn header_names<'a>(
    alloc: Global,
    cells: &[Cell<'a>],
    header: ClauseSpans,
) -> Result<NameSet<'a>, AllocError>
    ensures { IfOk result (λ set. Holds set (names_in_header (cells_in cells.now) header)) }
{
    let mut used = NameSet::new(alloc);
    used.add_used(cells_between(cells, header.subject.start, header.subject.end))?;
    let end = header.bound.end.saturating_sub(1);
    used.add_used(cells_between(cells, header.bound.start, end))?;
    Ok(used)
}

/// Whether one of the names is not used.
fn any_unused(used: &NameSet<'_>, params: &[&[u8]]) -> bool
    ensures { (ns : List (List ℕ)) → Holds used.now ns → result ≡ list_any (λ n. not (is_among n ns)) (map text_of params.now) }
{
    for name in params {
        if !used.contains(name) {
            return true;
        }
    }
    false
}

/// Whether the line is an impl with a type or constant parameter that is not in its header, as in `impl<T> Show for u8`. Fails only if
/// memory is refused.
pub(crate) fn has_free_param(alloc: Global, read: &LineRead<'_>) -> Result<bool, AllocError>
    ensures { IfOk result (λ b. (d : Declarations) (l : Line) → ReadsLine l read.now → b ≡ has_free_param d l) }
{
    match impl_header(&read.statement) {
        Some(header) => {
            let used = header_names(alloc, &read.cells, header)?;
            let own = ParamNames::of(alloc, read.statement.params())?;
            Ok(any_unused(&used, &own.others))
        }
        None => Ok(false),
    }
}
