//! The candidate by which a struct unsizes to itself with other arguments.
ghost use Rattle.type_terms.specs.Growth.{GrewOrFull};
ghost use Rattle.std.specs.Prelude.{◌≡◌, [], ◌∷◌, map, IfOk, IfErr, IfSome, None, if◌then◌else◌};
ghost use Rattle.std.specs.List.{flat_map, list_any};
ghost use Rattle.type_terms.specs.Promised.Trees.{◌+++◌};
ghost use Rattle.type_terms.specs.Trees.{outer_binder};
ghost use Rattle.type_terms.specs.Promised.Worlds.{World, StructDecl, structs_named};
ghost use Rattle.type_terms.specs.Promised.Rules.{unsize, with_unsizing};
ghost use Rattle.type_terms.specs.Promised.Handles.{Has, types, trees_at};
ghost use Rattle.type_terms.specs.Terms.{args_lists};
ghost use Rattle.type_terms.specs.declared.Fault.TheVariants.{Memory};
ghost use Rattle.term_folds.specs.Arguments.{first_misfit};
ghost use Rattle.infer_table.specs.Goals.{GoalHeld};
ghost use Rattle.goal_evaluator.specs.Lists.{Every};
ghost use Rattle.goal_evaluator.specs.Readings.{SpecHeld, EquationHeld};
ghost use Rattle.goal_evaluator.specs.StepReadings.{equation_read};
ghost use Rattle.declarations.specs.Items.{reference_in, written};
ghost use Rattle.declarations.specs.Held.{AreHeld, StructHeld, ReferenceHeld};
ghost use Rattle.declarations.specs.Promised.Elaboration.{Each};
ghost use Rattle.declarations.specs.Unsizing.{field_trees};
ghost use Rattle.candidate_model.specs.Candidates.{by_rule, misc, all_equal, unsize_by_struct, unsize_struct_of};
ghost use Rattle.built_in_candidates.specs.Goals.{asked_of, candidate_of};
ghost use Rattle.structural_traits.specs.Constituents.{AreArguments, StructIsApplied, HaveFields};
ghost use Rattle.built_in_candidates.specs.Constituents.{candidates_of};
ghost use Rattle.built_in_candidates.specs.Unsizing.{replaced, FitsStruct, IsStructType, tail_asked};

use crate::parts::{Coercion, by_rule};
use crate::relate::relate_args;
use declarations::core_traits::UNSIZE;
use declarations::declarations::Declarations;
use declarations::items::AdtDef;
use goal_evaluator::{BuiltinImplSource, CandidateSource, CandidateSpec};
use infer_table::input::CanonicalInput;
use infer_table::terms::Equation;
use std::alloc::Global;
use structural_traits::fields::field_with;
use term_folds::predicate::TraitRef;
use type_terms::interner::Interner;
use type_terms::kinds::{GenericArgKind, GenericArgs, Ty, TyKind};
use type_terms::{AdtId, Fault, TraitId};

/// Whether at least one parameter is unsizing.
fn has_unsizing(flags: &[bool]) -> bool
    ensures { result ≡ list_any (λ flag. flag) flags.now }
{
    flags.iter().any(|flag| *flag)
}

/// The target's argument for an unsizing parameter, and the struct's own argument for any other.
fn argument(is_unsizing: bool, own: GenericArgKind, other: GenericArgKind) -> GenericArgKind
    ensures { result ≡ (if is_unsizing then other else own) }
{
    if is_unsizing { other } else { own }
}

/// The struct's arguments, but those of the target for unsizing parameters. Fails only with `Memory`.
fn with_unsizing(
    alloc: Global,
    flags: &[bool],
    args: &[GenericArgKind],
    target: &[GenericArgKind],
) -> Result<Vec<GenericArgKind>, Fault>
    ensures is { IfOk result (λ v. v.items ≡ replaced flags.now args.now target.now) }
    ensures memory { IfErr result (λ fault. fault ≡ Memory) }
{
    let mut found = Vec::new(alloc);
    let mut left = flags;
    let mut own = args;
    let mut others = target;
    'flags: while let Some((flag, flags_left)) = left.split_first() {
        match (own.split_first(), others.split_first()) {
            (Some((x, own_left)), Some((y, others_left))) => {
                found.push(argument(*flag, *x, *y))?;
                left = flags_left;
                own = own_left;
                others = others_left;
            }
            (Some(_), None) => return Ok(found),
            (None, Some(_)) => return Ok(found),
            (None, None) => return Ok(found),
        }
    }
    Ok(found)
}

/// Equations between the arguments and those of the target, except for unsizing parameters.
fn unsizing_equations(
    alloc: Global,
    cx: &mut Interner,
    def: &AdtDef,
    args: GenericArgs,
    target: GenericArgs,
) -> Result<Vec<Equation>, Fault>
    requires def { StructHeld cx.old.entries def.now }
    requires args { Has cx.old.entries args_lists args.0 }
    requires target { Has cx.old.entries args_lists target.0 }
    requires fit { FitsStruct def.now (trees_at cx.old.entries args.0) }
    requires target_fits { FitsStruct def.now (trees_at cx.old.entries target.0) }
    ensures terms { GrewOrFull cx.old cx.new result }
    ensures held { IfOk result (λ v. Every (EquationHeld cx.new.entries) v.items) }
    ensures are { let fields = field_trees cx.old.entries def.now.fields.items in let b = trees_at cx.old.entries args.0 in
        let d = trees_at cx.old.entries target.0 in
        IfOk result (λ v. map (equation_read cx.new.entries) v.items ≡ all_equal (with_unsizing fields 0 b d) d) }
{
    cx.lawful();
    let list = with_unsizing(alloc, &def.unsizing_params, cx.args(args), cx.args(target))?;
    let unsized_args = cx.mk_args(list)?;
    relate_args(alloc, cx, unsized_args, target)
}

/// The trait reference `source: Unsize<target>`.
fn unsizes(alloc: Global, cx: &mut Interner, source: Ty, target: Ty) -> Result<TraitRef, Fault>
    requires source { Has cx.old.entries types source.0 }
    requires target { Has cx.old.entries types target.0 }
    ensures terms { GrewOrFull cx.old cx.new result }
    ensures held { IfOk result (ReferenceHeld cx.new.entries) }
    ensures is { IfOk result (λ r. reference_in cx.new.entries r
        ≡ record { trait = unsize; args = trees_at cx.old.entries source.0 +++ trees_at cx.old.entries target.0 }) }
{
    let list = vec![in alloc; GenericArgKind::Ty(source), GenericArgKind::Ty(target)]?;
    let args = cx.mk_args(list)?;
    Ok(TraitRef {
        def_id: TraitId { index: UNSIZE },
        args,
    })
}

/// The trait reference by which a struct's last field unsizes: from the field with the struct's arguments to the field with the target's.
fn tail_unsizes(
    alloc: Global,
    cx: &mut Interner,
    tail: Ty,
    args: GenericArgs,
    target: GenericArgs,
) -> Result<TraitRef, Fault>
    requires tail { Has cx.old.entries types tail.0 }
    requires args { Has cx.old.entries args_lists args.0 }
    requires target { Has cx.old.entries args_lists target.0 }
    requires closed { outer_binder (trees_at cx.old.entries args.0) ≡ 0 }
    requires target_closed { outer_binder (trees_at cx.old.entries target.0) ≡ 0 }
    requires fits { first_misfit (trees_at cx.old.entries args.0) (trees_at cx.old.entries tail.0) ≡ None }
    requires target_fits { first_misfit (trees_at cx.old.entries target.0) (trees_at cx.old.entries tail.0) ≡ None }
    ensures terms { GrewOrFull cx.old cx.new result }
    ensures held { IfOk result (ReferenceHeld cx.new.entries) }
    ensures is { IfOk result (λ r. reference_in cx.new.entries r
        ≡ tail_asked (trees_at cx.old.entries args.0) (trees_at cx.old.entries target.0) (trees_at cx.old.entries tail.0)) }
{
    let source = match field_with(alloc, cx, tail, args)? {
        Some(source) => source,
        None => unreachable!(),
    };
    let goal = match field_with(alloc, cx, tail, target)? {
        Some(goal) => goal,
        None => unreachable!(),
    };
    unsizes(alloc, cx, source, goal)
}

/// The arguments of a struct, and those of the same struct as the target of `Unsize`.
#[derive(Clone, Copy)]
struct Arguments {
    own: GenericArgs,
    target: GenericArgs,
}

/// The candidate by which a struct with its own arguments unsizes to the struct with those of the target.
fn struct_candidate(
    alloc: Global,
    cx: &mut Interner,
    goal: &CanonicalInput,
    def: &AdtDef,
    tail: Ty,
    args: Arguments,
) -> Result<CandidateSpec, Fault>
    requires goal { GoalHeld cx.old.entries goal.now.goal }
    requires def { StructHeld cx.old.entries def.now }
    requires tail { Has cx.old.entries types tail.0 }
    requires args { Has cx.old.entries args_lists args.own.0 }
    requires target { Has cx.old.entries args_lists args.target.0 }
    requires fit { FitsStruct def.now (trees_at cx.old.entries args.own.0) }
    requires target_fit { FitsStruct def.now (trees_at cx.old.entries args.target.0) }
    requires tail_fits { first_misfit (trees_at cx.old.entries args.own.0) (trees_at cx.old.entries tail.0) ≡ None }
    requires target_tail_fits { first_misfit (trees_at cx.old.entries args.target.0) (trees_at cx.old.entries tail.0) ≡ None }
    ensures terms { GrewOrFull cx.old cx.new result }
    ensures held { IfOk result (SpecHeld cx.new.entries) }
    ensures is { let fields = field_trees cx.old.entries def.now.fields.items in let b = trees_at cx.old.entries args.own.0 in
        let d = trees_at cx.old.entries args.target.0 in
        IfOk result (λ s. (V : World) → candidate_of V goal.now.goal.predicate.trait_ref.def_id.index cx.new.entries s
        ≡ by_rule V (asked_of cx.old.entries goal.now) misc (all_equal (with_unsizing fields 0 b d) d) (tail_asked b d (trees_at cx.old.entries tail.0) ∷ [])) }
{
    let equations = unsizing_equations(alloc, cx, def, args.own, args.target)?;
    let premise = tail_unsizes(alloc, cx, tail, args.own, args.target)?;
    let source = CandidateSource::BuiltinImpl(BuiltinImplSource::Misc);
    by_rule(alloc, goal, source, equations, &[premise])
}

/// The candidate by which a struct unsizes to itself with other arguments, if it has a field and an unsizing parameter.
fn unsize_struct(
    alloc: Global,
    cx: &mut Interner,
    goal: &CanonicalInput,
    def: &AdtDef,
    args: Arguments,
) -> Result<Option<CandidateSpec>, Fault>
    requires goal { GoalHeld cx.old.entries goal.now.goal }
    requires def { StructHeld cx.old.entries def.now }
    requires args { Has cx.old.entries args_lists args.own.0 }
    requires target { Has cx.old.entries args_lists args.target.0 }
    requires fit { FitsStruct def.now (trees_at cx.old.entries args.own.0) }
    requires target_fit { FitsStruct def.now (trees_at cx.old.entries args.target.0) }
    requires fields_fit { Each (λ f. first_misfit (trees_at cx.old.entries args.own.0) (trees_at cx.old.entries f.0) ≡ None) def.now.fields.items }
    requires target_fields_fit { Each (λ f. first_misfit (trees_at cx.old.entries args.target.0) (trees_at cx.old.entries f.0) ≡ None) def.now.fields.items }
    ensures terms { GrewOrFull cx.old cx.new result }
    ensures held { IfOk result (λ o. IfSome o (SpecHeld cx.new.entries)) }
    ensures is { IfOk result (λ o. (V : World) (x : StructDecl) → x.fields ≡ field_trees cx.old.entries def.now.fields.items
        → candidates_of V goal.now.goal.predicate.trait_ref.def_id.index cx.new.entries o
        ≡ unsize_by_struct V (asked_of cx.old.entries goal.now) (trees_at cx.old.entries args.own.0) (trees_at cx.old.entries args.target.0) x) }
{
    match def.fields.split_last() {
        Some((tail, _)) => {
            if has_unsizing(&def.unsizing_params) {
                let candidate = struct_candidate(alloc, cx, goal, def, *tail, args)?;
                Ok(Some(candidate))
            } else {
                Ok(None)
            }
        }
        None => Ok(None),
    }
}

/// The candidate by which a struct, given by its number, unsizes to itself with other arguments. Returns `None` if it is not declared.
fn unsize_adt(
    alloc: Global,
    cx: &mut Interner,
    declarations: &Declarations,
    goal: &CanonicalInput,
    def_id: AdtId,
    args: Arguments,
) -> Result<Option<CandidateSpec>, Fault>
    requires goal { GoalHeld cx.old.entries goal.now.goal }
    requires declared { AreHeld cx.old.entries declarations.now }
    requires fields { HaveFields cx.old.entries declarations.now }
    requires args { Has cx.old.entries args_lists args.own.0 }
    requires target { Has cx.old.entries args_lists args.target.0 }
    requires applied { AreArguments declarations.now def_id.index (trees_at cx.old.entries args.own.0) }
    requires target_applied { AreArguments declarations.now def_id.index (trees_at cx.old.entries args.target.0) }
    ensures terms { GrewOrFull cx.old cx.new result }
    ensures held { IfOk result (λ o. IfSome o (SpecHeld cx.new.entries)) }
    ensures is { let V = written cx.old.entries declarations.now in
        let b = trees_at cx.old.entries args.own.0 in let d = trees_at cx.old.entries args.target.0 in
        IfOk result (λ o. candidates_of V goal.now.goal.predicate.trait_ref.def_id.index cx.new.entries o
        ≡ flat_map (unsize_by_struct V (asked_of cx.old.entries goal.now) b d) (structs_named V def_id.index)) }
{
    match declarations.adt_def(def_id) {
        Some(def) => unsize_struct(alloc, cx, goal, def, args),
        None => Ok(None),
    }
}

fn struct_with(cx: &Interner, ty: Ty) -> Option<(AdtId, GenericArgs)>
    requires { Has cx.now.entries types ty.0 }
    ensures { IsStructType cx.now.entries (trees_at cx.now.entries ty.0) result }
{
    cx.lawful();
    match cx.kind(ty) {
        TyKind::Adt(def_id, args) => Some((def_id, args)),
        TyKind::Bool
        | TyKind::Char
        | TyKind::Int(_)
        | TyKind::Uint(_)
        | TyKind::Str
        | TyKind::Never
        | TyKind::Ref(_, _, _)
        | TyKind::RawPtr(_, _)
        | TyKind::Array(_, _)
        | TyKind::Slice(_)
        | TyKind::Tuple(_)
        | TyKind::FnPtr(_, _)
        | TyKind::Dynamic(_, _)
        | TyKind::Param(_)
        | TyKind::Placeholder(_)
        | TyKind::Bound(_, _)
        | TyKind::Infer(_) => None,
    }
}

/// The candidate by which a struct unsizes to itself with other arguments. It equates the arguments, except for unsizing parameters. Its
/// premise is that the last field unsizes. With `struct S<T>(u8, V<T>)` the premise of `S<[u8; 3]>: Unsize<S<[u8]>>` is
/// `V<[u8; 3]>: Unsize<V<[u8]>>`. rustc: `consider_structural_builtin_unsize_candidates`.
pub fn consider_builtin_struct_unsize_candidate(
    alloc: Global,
    cx: &mut Interner,
    declarations: &Declarations,
    goal: &CanonicalInput,
    coercion: Coercion,
) -> Result<Option<CandidateSpec>, Fault>
    requires goal { GoalHeld cx.old.entries goal.now.goal }
    requires declared { AreHeld cx.old.entries declarations.now }
    requires fields { HaveFields cx.old.entries declarations.now }
    requires self_held { Has cx.old.entries types coercion.self_ty.0 }
    requires target { Has cx.old.entries types coercion.target.0 }
    requires applied { StructIsApplied declarations.now (trees_at cx.old.entries coercion.self_ty.0) }
    requires target_applied { StructIsApplied declarations.now (trees_at cx.old.entries coercion.target.0) }
    ensures terms { GrewOrFull cx.old cx.new result }
    ensures held { IfOk result (λ o. IfSome o (SpecHeld cx.new.entries)) }
    ensures is { let V = written cx.old.entries declarations.now in
        let types = trees_at cx.old.entries coercion.self_ty.0 +++ trees_at cx.old.entries coercion.target.0 in
        IfOk result (λ o. candidates_of V goal.now.goal.predicate.trait_ref.def_id.index cx.new.entries o
        ≡ unsize_struct_of V (asked_of cx.old.entries goal.now) types) }
{
    cx.lawful();
    match (
        struct_with(cx, coercion.self_ty),
        struct_with(cx, coercion.target),
    ) {
        (Some((def_id, own)), Some((other, target_args))) => {
            if def_id.index == other.index {
                let args = Arguments {
                    own,
                    target: target_args,
                };
                unsize_adt(alloc, cx, declarations, goal, def_id, args)
            } else {
                Ok(None)
            }
        }
        (Some(_), None) => Ok(None),
        (None, Some(_)) => Ok(None),
        (None, None) => Ok(None),
    }
}
