//! The fault that a line has by itself, as it is written: a type is bound or given twice, or not given, or a trait with types has const
//! parameters. All other faults are faults of the lines for which it stands.
ghost use Rattle.std.specs.Prelude.{◌≡◌, IfOk};
ghost use Rattle.std.specs.Option.{option_map};
ghost use Rattle.text_names.specs.FaultNumbers.{fault_number};
ghost use Rattle.text_parser.specs.WrittenLines.{IsIllBound, LacksTypes, lacks_given, with_own};
ghost use Rattle.text_tables.specs.Tables.{declared};

use std::alloc::{AllocError, Global};
use text_lines::{HeaderNames, LineRead, TypedLine};
use text_names::{FaultKind, implemented_trait};
use text_tables::Tables;

/// Whether the trait of a header has a type that the header does not give.
fn leaves_out(tables: &Tables, header: &HeaderNames) -> bool
    ensures { result ≡ lacks_given (declared tables.now) header.now }
{
    tables.has_trait_besides(&header.front, &header.names)
}

/// Whether a line without types is an impl that gives none of the types that its trait has. Fails only if memory is refused.
pub(crate) fn lacks_types(
    alloc: Global,
    tables: &Tables,
    read: &LineRead<'_>,
) -> Result<bool, AllocError>
    ensures { IfOk result (LacksTypes (declared tables.now) read.now) }
{
    match implemented_trait(read) {
        None => Ok(false),
        Some(name) => {
            let header = HeaderNames::without_types(alloc, name)?;
            Ok(leaves_out(tables, &header))
        }
    }
}

/// Whether a line with types has the fault. Fails only if memory is refused.
pub(crate) fn is_ill_bound(
    alloc: Global,
    tables: &Tables,
    line: &TypedLine<'_, '_>,
) -> Result<bool, AllocError>
    ensures { IfOk result (IsIllBound (declared tables.now) line.now) }
{
    let is_ill = line.is_ill_bound();
    match line.header_names(alloc)? {
        None => Ok(is_ill),
        Some(header) => {
            let lacks = leaves_out(tables, &header);
            Ok(lacks | is_ill)
        }
    }
}

/// The fault that was found, or that of a line that is ill bound: the one with the smaller number.
pub(crate) fn with_own_fault(found: Option<FaultKind>, is_ill: bool) -> Option<FaultKind>
    ensures { option_map fault_number result ≡ with_own (option_map fault_number found) is_ill }
{
    if !is_ill {
        return found;
    }
    match found {
        Some(kind) => {
            if kind.number() < 7 {
                Some(kind)
            } else {
                Some(FaultKind::OtherSort)
            }
        }
        None => Some(FaultKind::OtherSort),
    }
}
