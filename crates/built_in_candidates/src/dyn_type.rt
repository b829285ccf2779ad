//! `dyn` types: their bounds, the principal with a self type, and its supertraits.
ghost use Rattle.type_terms.specs.Growth.{GrewOrFull};
ghost use Rattle.std.specs.Prelude.{◌≡◌, ◌==◌, ◌≤◌, List, [], ◌∷◌, length, filter, count_by, true, IfOk, OnOk, suc, drop};
ghost use Rattle.std.specs.List.{list_any, slice_get};
ghost use Rattle.type_terms.specs.Promised.Trees.{Trees, ◌+++◌};
ghost use Rattle.type_terms.specs.Promised.Rules.{principal_with, autos_with, are_declared, are_dyn_compatible};
ghost use Rattle.type_terms.specs.Promised.Handles.{Has, Entry, types, bounds_lists, trees_at};
ghost use Rattle.type_terms.specs.Terms.{args_lists};
ghost use Rattle.goal_evaluator.specs.Merge.{if_there};
ghost use Rattle.declarations.specs.Items.{Items, reference_in, written};
ghost use Rattle.declarations.specs.Held.{AreHeld, ReferenceHeld};
ghost use Rattle.declarations.specs.Promised.Elaboration.{Each};
ghost use Rattle.declarations.specs.Applied.{references_in, TraitRefsHeld, AreApplied, HaveBounds};
ghost use Rattle.declarations.specs.Promised.Elaboration.{elaborate};
ghost use Rattle.built_in_candidates.specs.Objects.{AreArgumentsOf, AreBoundsOf, WithLifetime, numbered_to, can_be_in};
ghost use Rattle.built_in_candidates.specs.Noted.{first_of, StayElaborated};

use crate::relate::can_be;
use declarations::core_traits::SIZED;
use declarations::declarations::Declarations;
use std::alloc::Global;
use term_folds::predicate::TraitRef;
use type_terms::interner::Interner;
use type_terms::kinds::{Bounds, GenericArgKind, GenericArgs, Ty, TyKind};
use type_terms::{Fault, TraitId};

/// The bounds of a `dyn`, if the type is one.
pub fn dyn_bounds(cx: &Interner, ty: Ty) -> Option<Bounds>
    requires { Has cx.now.entries types ty.0 }
    ensures { AreBoundsOf cx.now.entries (trees_at cx.now.entries ty.0) result }
{
    match cx.kind(ty) {
        TyKind::Dynamic(bounds, _) => Some(bounds),
        TyKind::Bool
        | TyKind::Char
        | TyKind::Int(_)
        | TyKind::Uint(_)
        | TyKind::Str
        | TyKind::Never
        | TyKind::Adt(_, _)
        | TyKind::Ref(_, _, _)
        | TyKind::RawPtr(_, _)
        | TyKind::Array(_, _)
        | TyKind::Slice(_)
        | TyKind::Tuple(_)
        | TyKind::FnPtr(_, _)
        | TyKind::Param(_)
        | TyKind::Placeholder(_)
        | TyKind::Bound(_, _)
        | TyKind::Infer(_) => None,
    }
}

/// The self type followed by the arguments.
fn args_with_self(
    alloc: Global,
    cx: &mut Interner,
    self_ty: Ty,
    args: GenericArgs,
) -> Result<GenericArgs, Fault>
    requires self_held { Has cx.old.entries types self_ty.0 }
    requires args { Has cx.old.entries args_lists args.0 }
    ensures terms { GrewOrFull cx.old cx.new result }
    ensures held { IfOk result (λ r. Has cx.new.entries args_lists r.0) }
    ensures are { IfOk result (λ r. trees_at cx.new.entries r.0 ≡ trees_at cx.old.entries self_ty.0 +++ trees_at cx.old.entries args.0) }
{
    let mut list = vec![in alloc; GenericArgKind::Ty(self_ty)]?;
    list.extend_from_slice(cx.args(args))?;
    let args = cx.mk_args(list)?;
    Ok(args)
}

/// The principal of a `dyn` as a trait reference with this self type, if there is one. For `dyn Conv<u8> + Send` and `T` it is
/// `T: Conv<u8>`. rustc: `with_self_ty`.
pub(crate) fn principal_with(
    alloc: Global,
    cx: &mut Interner,
    self_ty: Ty,
    bounds: Bounds,
) -> Result<Option<TraitRef>, Fault>
    requires self_held { Has cx.old.entries types self_ty.0 }
    requires bounds { Has cx.old.entries bounds_lists bounds.0 }
    ensures terms { GrewOrFull cx.old cx.new result }
    ensures held { IfOk result (λ o. TraitRefsHeld cx.new.entries (if_there o)) }
    ensures is { IfOk result
        (λ o. WithLifetime cx.old.entries bounds (λ b. references_in cx.new.entries (if_there o) ≡ principal_with (trees_at cx.old.entries self_ty.0) b)) }
{
    match cx.bounds(bounds).principal {
        Some(principal) => {
            let args = args_with_self(alloc, cx, self_ty, principal.args)?;
            let def_id = principal.def_id;
            Ok(Some(TraitRef { def_id, args }))
        }
        None => Ok(None),
    }
}

/// The principal, if there is one, followed by all its direct and indirect supertraits.
fn elaborate_principal(
    alloc: Global,
    cx: &mut Interner,
    declarations: &Declarations,
    principal: Option<TraitRef>,
) -> Result<Vec<TraitRef>, Fault>
    requires declared { AreHeld cx.old.entries declarations.now }
    requires bounds { HaveBounds cx.old.entries declarations.now }
    requires held { TraitRefsHeld cx.old.entries (if_there principal) }
    requires applied { AreApplied cx.old.entries declarations.now (if_there principal) }
    ensures terms { GrewOrFull cx.old cx.new result }
    ensures held { IfOk result (λ v. TraitRefsHeld cx.new.entries v.items) }
    ensures are { IfOk result (λ v. references_in cx.new.entries v.items
        ≡ elaborate (written cx.old.entries declarations.now) (references_in cx.old.entries (if_there principal))) }
{
    match principal {
        Some(trait_ref) => declarations.elaborate(alloc, cx, &[trait_ref]),
        None => Ok(Vec::new(alloc)),
    }
}

/// The principal of a `dyn`, if there is one, and the list of the principal and all its supertraits.
#[derive(Drop)]
pub(crate) struct Elaborated {
    pub principal: Option<TraitRef>,
    pub elaborated: Vec<TraitRef>,
}

/// The principal of a `dyn` with this self type, if there is one, and the list of the principal and all its supertraits.
pub(crate) fn elaborated_principal(
    alloc: Global,
    cx: &mut Interner,
    declarations: &Declarations,
    self_ty: Ty,
    bounds: Bounds,
) -> Result<Elaborated, Fault>
    requires declared { AreHeld cx.old.entries declarations.now }
    requires traits { HaveBounds cx.old.entries declarations.now }
    requires self_held { Has cx.old.entries types self_ty.0 }
    requires bounds { Has cx.old.entries bounds_lists bounds.0 }
    requires applied { WithLifetime cx.old.entries bounds (λ b. Each (AreArgumentsOf declarations.now) (principal_with (trees_at cx.old.entries self_ty.0) b)) }
    ensures terms { GrewOrFull cx.old cx.new result }
    ensures principal_held { IfOk result (λ e. TraitRefsHeld cx.new.entries (if_there e.principal)) }
    ensures principal { IfOk result (λ e. WithLifetime cx.old.entries bounds (λ b. references_in cx.new.entries (if_there e.principal)
        ≡ principal_with (trees_at cx.old.entries self_ty.0) b)) }
    ensures held { IfOk result (λ e. TraitRefsHeld cx.new.entries e.elaborated.items) }
    ensures elaborated { let V = written cx.old.entries declarations.now in
        IfOk result (λ e. WithLifetime cx.old.entries bounds (λ b. references_in cx.new.entries e.elaborated.items
        ≡ elaborate V (principal_with (trees_at cx.old.entries self_ty.0) b))) }
{
    let principal = principal_with(alloc, cx, self_ty, bounds)?;
    let elaborated = elaborate_principal(alloc, cx, declarations, principal)?;
    Ok(Elaborated {
        principal,
        elaborated,
    })
}

/// The notes with which the candidates of a goal begin: there are none.
pub fn no_notes(alloc: Global) -> Vec<TraitRef>
    ensures { (es : List Entry) (d : Items) → StayElaborated es d result.items }
{
    Vec::new(alloc)
}

/// Whether the list begins with the trait reference.
fn begins_with(references: &[TraitRef], trait_ref: TraitRef) -> bool
    ensures { (es : List Entry) → result ≡ true → first_of (references_in es references.now) ≡ reference_in es trait_ref ∷ [] }
{
    match references {
        [first, ..] => {
            first.def_id.index == trait_ref.def_id.index && first.args.0 == trait_ref.args.0
        }
        [] => false,
    }
}

/// Lets the notes be the principal, if there is one, followed by all its direct and indirect supertraits. They are not elaborated again
/// if the notes begin with the principal.
fn note_elaborated(
    alloc: Global,
    cx: &mut Interner,
    declarations: &Declarations,
    principal: Option<TraitRef>,
    notes: &mut Vec<TraitRef>,
) -> Result<(), Fault>
    requires declared { AreHeld cx.old.entries declarations.now }
    requires bounds { HaveBounds cx.old.entries declarations.now }
    requires held { TraitRefsHeld cx.old.entries (if_there principal) }
    requires applied { AreApplied cx.old.entries declarations.now (if_there principal) }
    requires notes { StayElaborated cx.old.entries declarations.now notes.old.items }
    ensures terms { GrewOrFull cx.old cx.new result }
    ensures notes { OnOk result (StayElaborated cx.new.entries declarations.now notes.new.items) }
    ensures are { OnOk result (references_in cx.new.entries notes.new.items
        ≡ elaborate (written cx.old.entries declarations.now) (references_in cx.old.entries (if_there principal))) }
{
    match principal {
        Some(trait_ref) => {
            if !begins_with(notes, trait_ref) {
                *notes = declarations.elaborate(alloc, cx, &[trait_ref])?;
            }
        }
        None => notes.clear(),
    }
    Ok(())
}

/// The principal of a `dyn` with this self type, if there is one. The notes become the list of the principal and all its supertraits.
pub(crate) fn noted_principal(
    alloc: Global,
    cx: &mut Interner,
    declarations: &Declarations,
    self_ty: Ty,
    bounds: Bounds,
    notes: &mut Vec<TraitRef>,
) -> Result<Option<TraitRef>, Fault>
    requires declared { AreHeld cx.old.entries declarations.now }
    requires traits { HaveBounds cx.old.entries declarations.now }
    requires self_held { Has cx.old.entries types self_ty.0 }
    requires bounds { Has cx.old.entries bounds_lists bounds.0 }
    requires applied { WithLifetime cx.old.entries bounds (λ b. Each (AreArgumentsOf declarations.now) (principal_with (trees_at cx.old.entries self_ty.0) b)) }
    requires notes { StayElaborated cx.old.entries declarations.now notes.old.items }
    ensures terms { GrewOrFull cx.old cx.new result }
    ensures principal { IfOk result (λ p. WithLifetime cx.old.entries bounds (λ b. references_in cx.new.entries (if_there p)
        ≡ principal_with (trees_at cx.old.entries self_ty.0) b)) }
    ensures notes { OnOk result (StayElaborated cx.new.entries declarations.now notes.new.items) }
    ensures elaborated { let V = written cx.old.entries declarations.now in
        OnOk result (WithLifetime cx.old.entries bounds (λ b. references_in cx.new.entries notes.new.items
        ≡ elaborate V (principal_with (trees_at cx.old.entries self_ty.0) b))) }
{
    let principal = principal_with(alloc, cx, self_ty, bounds)?;
    note_elaborated(alloc, cx, declarations, principal, notes)?;
    Ok(principal)
}

/// Whether the principal is declared. No rule applies to a `dyn` whose principal is not declared. Returns `true` if there is no principal.
pub(crate) fn is_declared(declarations: &Declarations, principal: Option<TraitRef>) -> bool
    ensures { (es now : List Entry) → result ≡ are_declared (written es declarations.now) (references_in now (if_there principal)) }
{
    match principal {
        Some(trait_ref) => match declarations.trait_def(trait_ref.def_id) {
            Some(_) => true,
            None => false,
        },
        None => true,
    }
}

/// Whether one of the trait references is of the trait, with any arguments. This finds auto traits among supertraits.
pub(crate) fn has_trait(references: &[TraitRef], def_id: TraitId) -> bool
    ensures { result ≡ list_any (λ r. r.def_id.index == def_id.index) references.now }
{
    references
        .iter()
        .any(|other| other.def_id.index == def_id.index)
}

/// Whether the principal is dyn compatible: it is declared, and neither it nor one of its supertraits is `Sized`. `elaborated` is the
/// principal with its supertraits. Returns `true` if there is no principal. rustc: `trait_is_dyn_compatible`.
pub(crate) fn is_dyn_compatible(
    declarations: &Declarations,
    principal: Option<TraitRef>,
    elaborated: &[TraitRef],
) -> bool
    ensures { (es now : List Entry) → let V = written es declarations.now in let ps = references_in now (if_there principal) in
        HaveBounds es declarations.now → references_in now elaborated.now ≡ elaborate V ps → result ≡ are_dyn_compatible V ps }
{
    is_declared(declarations, principal) && !has_trait(elaborated, TraitId { index: SIZED })
}

/// How often the trait occurs in the list.
fn count_of(autos: &[TraitId], def_id: TraitId) -> usize
    ensures { result ≡ count_by (λ x. x.index == def_id.index) autos.now }
{
    autos
        .iter()
        .filter(|auto| auto.index == def_id.index)
        .count()
}

/// How often the trait occurs among the auto traits of a `dyn`: once or never.
pub(crate) fn count_autos(cx: &Interner, bounds: Bounds, def_id: TraitId) -> usize
    requires { Has cx.now.entries bounds_lists bounds.0 }
    ensures { (self : Trees) → WithLifetime cx.now.entries bounds (λ b. result ≡ length (filter (λ r. r.trait == def_id.index) (autos_with self b))) }
{
    count_of(&cx.bounds(bounds).autos, def_id)
}

/// The trait reference with this index among those of the trait, with its index in the whole list.
pub(crate) fn reference_at(
    references: &[TraitRef],
    def_id: TraitId,
    place: usize,
) -> Option<(usize, TraitRef)>
    ensures { result ≡ slice_get (numbered_to (λ r. r.def_id.index == def_id.index) 0 references.now) place }
{
    let mut before = place;
    'references: for (number, trait_ref) in references.iter().enumerate() {
        if trait_ref.def_id.index == def_id.index {
            if before == 0 {
                return Some((number, *trait_ref));
            }
            before -= 1;
        }
    }
    None
}

/// The bound with this index among those that can be what is asked, from the index `first` of the list on. It comes with its index in the
/// whole list.
pub(crate) fn bound_from(
    cx: &Interner,
    bounds: &[TraitRef],
    asked: TraitRef,
    first: usize,
    place: usize,
) -> Option<(usize, TraitRef)>
    requires asked { ReferenceHeld cx.now.entries asked }
    requires held { TraitRefsHeld cx.now.entries bounds.now }
    requires first { first ≤ length bounds.now }
    ensures { let es = cx.now.entries in result ≡ slice_get (numbered_to (can_be_in es (reference_in es asked)) first (drop first bounds.now)) place }
{
    let (_, rest) = bounds.split_at(first);
    let mut before = place;
    'rest: for (skipped, bound) in rest.iter().enumerate() {
        if can_be(cx, asked, *bound) {
            if before == 0 {
                return Some((first + skipped, *bound));
            }
            before -= 1;
        }
    }
    None
}

/// The first bound that can be what is asked after the index `after` of the list, with its own index.
pub(crate) fn bound_after(
    cx: &Interner,
    bounds: &[TraitRef],
    asked: TraitRef,
    after: usize,
) -> Option<(usize, TraitRef)>
    requires asked { ReferenceHeld cx.now.entries asked }
    requires held { TraitRefsHeld cx.now.entries bounds.now }
    ensures { let es = cx.now.entries in result ≡ slice_get (numbered_to (can_be_in es (reference_in es asked)) (suc after) (drop (suc after) bounds.now)) 0 }
{
    if after >= bounds.len() {
        return None;
    }
    bound_from(cx, bounds, asked, after + 1, 0)
}
