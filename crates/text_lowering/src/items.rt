//! A struct, a trait and an impl as declarations. `for<'a> fn(&'a u8)` becomes `fn(&'static u8)`.
ghost use Rattle.std.specs.Prelude.{◌≡◌, ◌+◌, ◌≤◌, ◌∷◌, true, length, map, IfOk};
ghost use Rattle.type_terms.specs.Promised.Label.{of_type};
ghost use Rattle.type_terms.specs.Growth.{GrewOrFull};
ghost use Rattle.declarations.specs.Applied.{sort_of_param};
ghost use Rattle.declarations.specs.Heads.{begins_declared};
ghost use Rattle.declarations.specs.Items.{struct_in, trait_in, impl_in};
ghost use Rattle.declarations.specs.Held.{StructHeld, TraitHeld, ImplHeld};
ghost use Rattle.text_tables.specs.Made.{AreMade, ReferenceMade, ReferencesMade, is_type};
ghost use Rattle.text_tables.specs.Views.{struct_of, trait_of, impl_of, sorts_of, sort_of_kind};
ghost use Rattle.text_lowering.specs.MostTerms.{struct_terms, trait_terms, impl_terms};
ghost use Rattle.text_lowering.specs.Promised.SeenWorlds.{plain_struct, plain_trait, plain_impl};
ghost use Rattle.text_lowering.specs.Seen.{struct_sorts, trait_sorts, param_sorts};

use crate::parts::{lower_reference, lower_references, param_kind, push_params};
use crate::plain::{Kept, plain_cells};
use declarations::items::{AdtDef, GenericParamKind, ImplDef, TraitDef};
use std::alloc::{AllocError, Global};
use text_tables::{ImplEntry, Param, ParamKind, StructEntry, TraitEntry, lower_types};
use type_terms::Fault;
use type_terms::interner::Interner;

/// The struct of an entry. Its fields hold no lifetime but `'static`.
pub(crate) fn lower_struct(
    alloc: Global,
    cx: &mut Interner,
    entry: &StructEntry,
) -> Result<AdtDef, Fault>
    requires { AreMade is_type entry.now.fields.items }
    ensures is { IfOk result (λ def. struct_in cx.new.entries (entry.now.id, def) ≡ plain_struct (struct_of entry.now).item) }
    ensures sorts { IfOk result (λ def. struct_sorts (entry.now.id, def) ≡ (struct_of entry.now).kinds) }
    ensures held { IfOk result (λ def. StructHeld cx.new.entries def) }
    ensures terms { GrewOrFull cx.old cx.new result }
    ensures few { length cx.new.entries ≤ length cx.old.entries + struct_terms (struct_of entry.now).item }
{
    let mut params = Vec::new(alloc);
    push_params(&mut params, &entry.params)?;
    let cells = plain_cells(alloc, &entry.fields, Kept::None)?;
    let fields = lower_types(alloc, cx, &cells)?;
    AdtDef::new(alloc, cx, entry.owner, entry.is_fundamental, params, fields)
}

/// The parameters of a trait: Self, and those that are written.
fn trait_params(alloc: Global, kinds: &[ParamKind]) -> Result<Vec<GenericParamKind>, AllocError>
    ensures { IfOk result (λ params. map sort_of_param params.items ≡ of_type ∷ sorts_of kinds.now) }
{
    let mut params = Vec::new(alloc);
    params.push(GenericParamKind::Type)?;
    push_params(&mut params, kinds)?;
    Ok(params)
}

/// The trait of an entry. Its bounds hold no lifetime but `'static`.
pub(crate) fn lower_trait(
    alloc: Global,
    cx: &mut Interner,
    entry: &TraitEntry,
) -> Result<TraitDef, Fault>
    requires { ReferencesMade entry.now.bounds.items }
    ensures is { IfOk result (λ def. trait_in cx.new.entries (entry.now.id, def) ≡ plain_trait (trait_of entry.now).item) }
    ensures sorts { IfOk result (λ def. trait_sorts (entry.now.id, def) ≡ of_type ∷ (trait_of entry.now).kinds) }
    ensures held { IfOk result (λ def. TraitHeld cx.new.entries def) }
    ensures terms { GrewOrFull cx.old cx.new result }
    ensures few { length cx.new.entries ≤ length cx.old.entries + trait_terms (trait_of entry.now).item }
{
    let params = trait_params(alloc, &entry.params)?;
    let bounds = lower_references(alloc, cx, &entry.bounds, Kept::None)?;
    Ok(TraitDef {
        home: entry.owner,
        is_fundamental: entry.is_fundamental,
        is_auto: entry.is_auto,
        params,
        bounds,
    })
}

fn impl_params(alloc: Global, list: &[Param]) -> Result<Vec<GenericParamKind>, AllocError>
    ensures { IfOk result (λ params. map sort_of_param params.items ≡ map (λ p. sort_of_kind p.kind) list.now) }
{
    let mut params = Vec::new(alloc);
    for param in list {
        params.push(param_kind(param.kind))?;
    }
    Ok(params)
}

/// The impl of an entry. Its self type must be a parameter, or begin with no variable or placeholder. Its where-clauses hold the lifetimes
/// of the header and `'static`.
pub(crate) fn lower_impl(
    alloc: Global,
    cx: &mut Interner,
    entry: &ImplEntry,
) -> Result<ImplDef, Fault>
    requires header { ReferenceMade entry.now.header }
    requires clauses { ReferencesMade entry.now.clauses.items }
    requires begins { begins_declared (impl_of entry.now).item.header.args ≡ true }
    ensures is { IfOk result (λ def. impl_in cx.new.entries entry.now.id def ≡ plain_impl (impl_of entry.now).item) }
    ensures sorts { IfOk result (λ def. map sort_of_param def.params.items ≡ param_sorts (impl_of entry.now)) }
    ensures held { IfOk result (λ def. ImplHeld cx.new.entries def) }
    ensures terms { GrewOrFull cx.old cx.new result }
    ensures few { length cx.new.entries ≤ length cx.old.entries + impl_terms (impl_of entry.now).item }
{
    let params = impl_params(alloc, &entry.params)?;
    let header = lower_reference(alloc, cx, &entry.header, Kept::All)?;
    let kept = Kept::NamedIn(&entry.header.args);
    let clauses = lower_references(alloc, cx, &entry.clauses, kept)?;
    Ok(ImplDef {
        home: entry.owner,
        params,
        header,
        clauses,
    })
}
