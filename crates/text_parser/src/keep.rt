//! The cells that the tables store for a list of resolved cells.
ghost use Rattle.std.specs.Prelude.{◌≡◌, map, OnOk};
ghost use Rattle.text_language.specs.Lowering.{Meanings};
ghost use Rattle.text_names.specs.Views.{resolved_in};
ghost use Rattle.text_parser.specs.Keeping.{AddsCells};
ghost use Rattle.text_parser.specs.Numbering.{IsNumbersOf};

use crate::cell::next_autos;
use crate::numbering::Numbers;
use std::alloc::AllocError;
use text_names::ResolvedCell;
use text_tables::TermCell;

/// Appends the cells that are stored for these.
pub(crate) fn push_cells<'a>(
    numbers: &Numbers<'_, 'a>,
    cells: &[ResolvedCell<'a>],
    kept: &mut Vec<TermCell>,
) -> Result<(), AllocError>
    ensures { OnOk result ((e : Meanings) → IsNumbersOf numbers.now e → AddsCells e (map resolved_in cells.now) kept.old.items kept.new.items) }
{
    let mut autos = 0;
    for resolved in cells {
        kept.push(numbers.cell(*resolved, autos))?;
        autos = next_autos(autos, *resolved);
    }
    Ok(())
}
