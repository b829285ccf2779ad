//! Cells without binders, and with the lifetimes that are kept.
ghost use Rattle.std.specs.Prelude.{◌≡◌, List, Bool, map, IfOk};
ghost use Rattle.std.specs.List.{list_all};
ghost use Rattle.type_terms.specs.Promised.Handles.{region_label, RegionHeld};
ghost use Rattle.text_tables.specs.Made.{StackPart, AreMade, ReferenceMade, CellHeld, parts_behind};
ghost use Rattle.text_tables.specs.Views.{cell_of, cells_of, reference_of};
ghost use Rattle.text_lowering.specs.Promised.SeenWorlds.{plain_label, is_lifetime, plain_reference};
ghost use Rattle.text_lowering.specs.PlainCells.{names, named_in, is_kept, is_without_lifetimes, plain_cell};

use std::alloc::{AllocError, Global};
use text_tables::{ReferenceCells, TermCell};
use type_terms::number::BoundVarIndexKind;
use type_terms::region::{Region, RegionKind};

/// Which lifetime parameters are kept.
#[derive(Clone, Copy)]
pub(crate) enum Kept<'c> {
    All,
    /// Those that occur in these cells.
    NamedIn(&'c [TermCell]),
    None,
}

/// Whether the lifetime is the parameter with this number.
fn is_param(region: Region, param: u32) -> bool
    ensures { result ≡ is_lifetime param (region_label region.kind) }
{
    match region.kind {
        RegionKind::ReEarlyParam(place) => param == place,
        RegionKind::ReStatic
        | RegionKind::RePlaceholder(_)
        | RegionKind::ReBound(_, _)
        | RegionKind::ReVar(_) => false,
    }
}

/// Whether the cell is that parameter, or a reference `&'a T` with that lifetime.
fn names(cell: TermCell, param: u32) -> bool
    ensures { result ≡ names param cell }
{
    match cell {
        TermCell::Lifetime(region) => is_param(region, param),
        TermCell::Ref { region, .. } => is_param(region, param),
        _ => false,
    }
}

/// Whether that parameter occurs in the cells.
fn named_in(cells: &[TermCell], param: u32) -> bool
    ensures { result ≡ named_in cells.now param }
{
    cells.iter().any(|cell| names(*cell, param))
}

impl<'c> Kept<'c> {
    /// Whether the parameter with this number is kept.
    fn has(self, param: u32) -> bool
        ensures { result ≡ is_kept self.entry param }
    {
        match self {
            Kept::All => true,
            Kept::NamedIn(cells) => named_in(cells, param),
            Kept::None => false,
        }
    }
}

/// The lifetime, or `'static` if it is bound or a parameter that is not kept.
fn plain_region(region: Region, kept: Kept<'_>) -> Region
    ensures is { region_label result.kind ≡ plain_label (is_kept kept.entry) (region_label region.kind) }
    ensures held { RegionHeld region.kind → RegionHeld result.kind }
{
    let kind = match region.kind {
        RegionKind::ReEarlyParam(param) => {
            if kept.has(param) {
                RegionKind::ReEarlyParam(param)
            } else {
                RegionKind::ReStatic
            }
        }
        RegionKind::ReBound(BoundVarIndexKind::Bound(_), _) => RegionKind::ReStatic,
        other => other,
    };
    Region { kind }
}

/// The cell without a binder, and with the lifetimes that are kept.
fn plain_cell(cell: TermCell, kept: Kept<'_>) -> TermCell
    ensures is { cell_of result ≡ plain_cell (is_kept kept.entry) (cell_of cell) }
    ensures parts { (S : List StackPart) → parts_behind result S ≡ parts_behind cell S }
    ensures held { CellHeld cell → CellHeld result }
{
    match cell {
        TermCell::Lifetime(region) => TermCell::Lifetime(plain_region(region, kept)),
        TermCell::Ref { region, mutability } => TermCell::Ref {
            region: plain_region(region, kept),
            mutability,
        },
        TermCell::FnPtr { types, .. } => TermCell::FnPtr {
            bound_vars: 0,
            types,
        },
        TermCell::Principal { def_id, args, .. } => TermCell::Principal {
            bound_vars: 0,
            def_id,
            args,
        },
        _ => cell,
    }
}

/// Whether the cells hold no lifetime, and nothing that may bind one. Such cells need no copy, whatever is kept.
pub(crate) fn are_without_lifetimes(cells: &[TermCell]) -> bool
    ensures { result ≡ list_all is_without_lifetimes cells.now }
{
    cells.iter().all(|cell| {
        !matches!(
            *cell,
            TermCell::Lifetime(_)
                | TermCell::Ref { .. }
                | TermCell::FnPtr { .. }
                | TermCell::Principal { .. }
        )
    })
}

/// The cells without binders, and with the lifetimes that are kept. Fails only if memory is refused.
pub(crate) fn plain_cells(
    alloc: Global,
    cells: &[TermCell],
    kept: Kept<'_>,
) -> Result<Vec<TermCell>, AllocError>
    ensures are { IfOk result (λ plain. cells_of plain.items ≡ map (plain_cell (is_kept kept.entry)) (cells_of cells.now)) }
    ensures made { (p : StackPart → Bool) → AreMade p cells.now → IfOk result (λ plain. AreMade p plain.items) }
{
    let mut plain = Vec::new(alloc);
    for cell in cells {
        plain.push(plain_cell(*cell, kept))?;
    }
    Ok(plain)
}

/// The trait reference without binders, and with the lifetimes that are kept. Fails only if memory is refused.
pub(crate) fn plain_reference(
    alloc: Global,
    cells: &ReferenceCells,
    kept: Kept<'_>,
) -> Result<ReferenceCells, AllocError>
    ensures is { IfOk result (λ plain. reference_of plain ≡ plain_reference (is_kept kept.entry) (reference_of cells.now)) }
    ensures made { ReferenceMade cells.now → IfOk result (λ plain. ReferenceMade plain) }
{
    let args = plain_cells(alloc, &cells.args, kept)?;
    Ok(ReferenceCells {
        trait_id: cells.trait_id,
        args,
    })
}
