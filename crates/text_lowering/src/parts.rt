//! Parameters and trait references.
ghost use Rattle.std.specs.Prelude.{◌≡◌, ◌+◌, ◌≤◌, ◌++◌, length, map, sum_by, IfOk, OnOk};
ghost use Rattle.type_terms.specs.Growth.{GrewOrFull};
ghost use Rattle.declarations.specs.Applied.{sort_of_param, references_in};
ghost use Rattle.declarations.specs.Held.{ReferenceHeld};
ghost use Rattle.declarations.specs.Items.{reference_in};
ghost use Rattle.declarations.specs.Promised.Elaboration.{Each};
ghost use Rattle.text_tables.specs.Made.{ReferenceMade, ReferencesMade};
ghost use Rattle.text_tables.specs.TermCounts.{reference_terms};
ghost use Rattle.text_tables.specs.Views.{sort_of_kind, sorts_of, reference_of};
ghost use Rattle.text_lowering.specs.Promised.SeenWorlds.{plain_reference};
ghost use Rattle.text_lowering.specs.PlainCells.{is_kept};

use crate::plain::{Kept, are_without_lifetimes, plain_reference};
use declarations::items::GenericParamKind;
use std::alloc::{AllocError, Global};
use term_folds::predicate::TraitRef;
use text_tables::{ParamKind, ReferenceCells, lower_args};
use type_terms::Fault;
use type_terms::interner::Interner;

/// The kind of a parameter, as declarations have it.
pub(crate) fn param_kind(kind: ParamKind) -> GenericParamKind
    ensures { sort_of_param result ≡ sort_of_kind kind }
{
    match kind {
        ParamKind::Lifetime => GenericParamKind::Lifetime,
        ParamKind::Type => GenericParamKind::Type,
        ParamKind::Const => GenericParamKind::Const,
    }
}

/// Appends parameters.
pub(crate) fn push_params(
    params: &mut Vec<GenericParamKind>,
    kinds: &[ParamKind],
) -> Result<(), AllocError>
    ensures { OnOk result (map sort_of_param params.new.items ≡ map sort_of_param params.old.items ++ sorts_of kinds.now) }
{
    for kind in kinds {
        params.push(param_kind(*kind))?;
    }
    Ok(())
}

/// The trait reference with the terms of these cells as arguments. The errors are those of `lower_args`.
fn lower_as_written(
    alloc: Global,
    cx: &mut Interner,
    cells: &ReferenceCells,
) -> Result<TraitRef, Fault>
    requires { ReferenceMade cells.now }
    ensures is { IfOk result (λ trait_ref. reference_in cx.new.entries trait_ref ≡ reference_of cells.now) }
    ensures held { IfOk result (λ trait_ref. ReferenceHeld cx.new.entries trait_ref) }
    ensures terms { GrewOrFull cx.old cx.new result }
    ensures few { length cx.new.entries ≤ length cx.old.entries + reference_terms (reference_of cells.now) }
{
    let args = lower_args(alloc, cx, &cells.args)?;
    Ok(TraitRef {
        def_id: cells.trait_id,
        args,
    })
}

/// The trait reference with the terms of these cells as arguments, without binders and with the lifetimes that are kept. The errors are
/// those of `lower_args`.
pub(crate) fn lower_reference(
    alloc: Global,
    cx: &mut Interner,
    cells: &ReferenceCells,
    kept: Kept<'_>,
) -> Result<TraitRef, Fault>
    requires { ReferenceMade cells.now }
    ensures is { IfOk result (λ trait_ref. reference_in cx.new.entries trait_ref ≡ plain_reference (is_kept kept.entry) (reference_of cells.now)) }
    ensures held { IfOk result (λ trait_ref. ReferenceHeld cx.new.entries trait_ref) }
    ensures terms { GrewOrFull cx.old cx.new result }
    ensures few { length cx.new.entries ≤ length cx.old.entries + reference_terms (reference_of cells.now) }
{
    if are_without_lifetimes(&cells.args) {
        return lower_as_written(alloc, cx, cells);
    }
    let plain = plain_reference(alloc, cells, kept)?;
    lower_as_written(alloc, cx, &plain)
}

/// The trait references with terms as arguments, in order, without binders and with the lifetimes that are kept.
pub(crate) fn lower_references(
    alloc: Global,
    cx: &mut Interner,
    list: &[ReferenceCells],
    kept: Kept<'_>,
) -> Result<Vec<TraitRef>, Fault>
    requires { ReferencesMade list.now }
    ensures are { IfOk result (λ refs. references_in cx.new.entries refs.items ≡ map (plain_reference (is_kept kept.entry)) (map reference_of list.now)) }
    ensures held { IfOk result (λ refs. Each (ReferenceHeld cx.new.entries) refs.items) }
    ensures terms { GrewOrFull cx.old cx.new result }
    ensures few { length cx.new.entries ≤ length cx.old.entries + sum_by reference_terms (map reference_of list.now) }
{
    let mut refs = Vec::new(alloc);
    for cells in list {
        let trait_ref = lower_reference(alloc, cx, cells, kept)?;
        refs.push(trait_ref)?;
    }
    Ok(refs)
}
