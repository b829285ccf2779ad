//! The lines for which a line with types stands, one after the other.
ghost use Rattle.std.specs.Prelude.{◌≡◌, length, IfOk, OnOk};
ghost use Rattle.text_lines.specs.Pieces.{companions_in, names_in};
ghost use Rattle.text_parser.specs.Lists.{AreShortLists, HasRoom, IsShortList, TakesList, TakesLists};
ghost use Rattle.text_tables.specs.Numbered.{IsFew};
ghost use Rattle.text_tables.specs.Tables.{declared, IsConsistent};

use crate::text::take_read;
use std::alloc::{AllocError, Global};
use text_lines::{Piece, companion_names, line_of_list};
use text_names::FaultKind;
use text_tables::{ENTRY_LIMIT, Tables};

/// Takes the line that a list spells, whose companions have these names. Returns its fault, or `None` if it was declared.
fn take_list<'t, 'a>(
    alloc: Global,
    tables: &mut Tables,
    list: &[Piece<'t, 'a>],
    names: &'a [Vec<u8>],
) -> Result<Option<FaultKind>, AllocError>
    requires names { names_in names.now ≡ companions_in list.now }
    requires agrees { IsConsistent tables.old }
    requires few { IsFew (declared tables.old) ENTRY_LIMIT }
    requires line { IsShortList list.now }
    ensures gives { IfOk result (λ found. TakesList (declared tables.old) list.now found (declared tables.new)) }
    ensures agrees { OnOk result (IsConsistent tables.new) }
{
    match line_of_list(alloc, list, names) {
        Err(_) => Err(AllocError),
        Ok(read) => take_read(alloc, tables, &read),
    }
}

/// Takes the lines that lists spell, up to the first faulty one. Returns its fault, or `None` if all were declared.
pub(crate) fn take_lists(
    alloc: Global,
    tables: &mut Tables,
    lists: &[Vec<Piece<'_, '_>>],
) -> Result<Option<FaultKind>, AllocError>
    requires agrees { IsConsistent tables.old }
    requires room { HasRoom (declared tables.old) (length lists.now) }
    requires lines { AreShortLists lists.now }
    ensures gives { IfOk result (λ found. TakesLists (declared tables.old) lists.now found (declared tables.new)) }
    ensures agrees { OnOk result (IsConsistent tables.new) }
{
    let mut rest = lists;
    while let [first, others @ ..] = rest {
        let names = companion_names(alloc, first)?;
        if let Some(kind) = take_list(alloc, tables, first, &names)? {
            return Ok(Some(kind));
        }
        rest = others;
    }
    Ok(None)
}
