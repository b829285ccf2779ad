//! Which goals the candidates decide: those that fit the declarations, and whose self type is no variable. Only the outermost types are
//! looked at. What is inside them comes up in nested goals.
//!
//! With `struct V<T>`, a goal `V<u8>: Clone` fits, and `V<u8, u8>: Clone` and `?x: Clone` are not decided.
ghost use Rattle.std.specs.Prelude.{◌≡◌, ◌&&◌, ◌||◌, ◌==◌, not, ◌∷◌, true, IsTrue, IfSome, map, Some, None, if◌then◌else◌};
ghost use Rattle.std.specs.List.{list_any};
ghost use Rattle.type_terms.specs.Promised.Label.{of_type};
ghost use Rattle.type_terms.specs.Promised.Trees.{Trees, ◌+++◌, is_sort};
ghost use Rattle.type_terms.specs.Promised.Rules.{unsize};
ghost use Rattle.type_terms.specs.Promised.Answers.{written_in};
ghost use Rattle.type_terms.specs.Promised.Handles.{Has, types, bounds_lists, trees_at};
ghost use Rattle.type_terms.specs.Terms.{args_lists};
ghost use Rattle.type_terms.specs.Promised.Handles.{ArgHeld, region_trees};
ghost use Rattle.type_terms.specs.Made.{terms, is_made};
ghost use Rattle.type_terms.specs.declared.region.Region.{Region};
ghost use Rattle.term_folds.specs.Clauses.{ClauseHeld};
ghost use Rattle.infer_table.specs.Goals.{GoalHeld, ClausesHeld, clause_terms, environment_trees};
ghost use Rattle.infer_table.specs.Inputs.{form_of};
ghost use Rattle.infer_table.specs.Values.{sort_of_arg};
ghost use Rattle.goal_evaluator.specs.Variables.{is_variable_over};
ghost use Rattle.declarations.specs.Items.{reference_in, written};
ghost use Rattle.declarations.specs.Applied.{sort_of_param, sorts_of};
ghost use Rattle.declarations.specs.Held.{ReferenceHeld};
ghost use Rattle.candidate_model.specs.Asking.{goal_over_kinds, are_clauses, begins_with_type, begins_unknown, next_of, with_plain_head};
ghost use Rattle.candidate_model.specs.DeclaredWell.{is_declared_well};
ghost use Rattle.structural_traits.specs.Constituents.{HaveFields};
ghost use Rattle.built_in_candidates.specs.Goals.{asked_of};
ghost use Rattle.built_in_candidates.specs.FnPointers.{IsFirst};
ghost use Rattle.candidate_assembly.specs.Sections.{decided};
ghost use Rattle.candidate_assembly.specs.Solving.{meaning_for};
ghost use Rattle.candidate_assembly.specs.Fitting.{same_sorts, are_of_trait, are_of_struct, is_shut, names_unsize, principal_fits, type_fits, reference_fits, solving_of, GoalFits};

use crate::visitors::{
    args_are_declared, args_are_over, region_is_over, trait_is_declared, ty_is_over,
};
use built_in_candidates::calls::second_argument;
use built_in_candidates::variables::is_unknown;
use declarations::core_traits::UNSIZE;
use declarations::declarations::Declarations;
use declarations::items::GenericParamKind;
use infer_table::canonical::CanonicalVarKind;
use infer_table::input::CanonicalInput;
use term_folds::predicate::{Clause, TraitRef};
use type_terms::interner::Interner;
use type_terms::kinds::{Bounds, GenericArgKind, GenericArgs, Principal, Ty, TyKind};
use type_terms::number::BoundVarIndexKind;
use type_terms::{AdtId, TraitId};

fn is_for(arg: GenericArgKind, param: GenericParamKind) -> bool
    ensures { result ≡ is_sort (sort_of_arg arg) (sort_of_param param) }
{
    match (arg, param) {
        (GenericArgKind::Lifetime(_), GenericParamKind::Lifetime) => true,
        (GenericArgKind::Lifetime(_), _) => false,
        (GenericArgKind::Ty(_), GenericParamKind::Type) => true,
        (GenericArgKind::Ty(_), _) => false,
        (GenericArgKind::Const(_), GenericParamKind::Const) => true,
        (GenericArgKind::Const(_), _) => false,
    }
}

/// Whether there is one argument of its kind for each parameter, and no other.
fn are_for(args: &[GenericArgKind], params: &[GenericParamKind]) -> bool
    ensures { result ≡ same_sorts (map sort_of_arg args.now) (map sort_of_param params.now) }
{
    let mut xs = args;
    let mut ps = params;
    'params: loop {
        match (xs.split_first(), ps.split_first()) {
            (Some((x, xs_left)), Some((p, ps_left))) => {
                if !is_for(*x, *p) {
                    return false;
                }
                xs = xs_left;
                ps = ps_left;
            }
            (None, None) => return true,
            (Some(_), None) => return false,
            (None, Some(_)) => return false,
        }
    }
}

/// Whether the arguments are for the trait's parameters, Self first, in number and kind. So it is where the trait is not declared.
pub fn args_are_for_trait(
    cx: &Interner,
    declarations: &Declarations,
    id: TraitId,
    args: GenericArgs,
) -> bool
    requires { Has cx.now.entries args_lists args.0 }
    ensures { result ≡ are_of_trait declarations.now id.index (sorts_of (trees_at cx.now.entries args.0)) }
{
    cx.lawful();
    match declarations.trait_def(id) {
        Some(def) => are_for(cx.args(args), &def.params),
        None => true,
    }
}

/// Whether the struct is declared and the arguments are for its parameters.
fn args_are_for_struct(
    cx: &Interner,
    declarations: &Declarations,
    id: AdtId,
    args: GenericArgs,
) -> bool
    requires { Has cx.now.entries args_lists args.0 }
    ensures { result ≡ are_of_struct declarations.now id.index (sorts_of (trees_at cx.now.entries args.0)) }
{
    cx.lawful();
    match declarations.adt_def(id) {
        Some(def) => are_for(cx.args(args), &def.params),
        None => true,
    }
}

/// Whether the trait is declared and the arguments, after one for Self, are for its parameters.
fn args_are_for_principal(
    cx: &Interner,
    declarations: &Declarations,
    id: TraitId,
    args: GenericArgs,
) -> bool
    requires { Has cx.now.entries args_lists args.0 }
    ensures { result ≡ are_of_trait declarations.now id.index (of_type ∷ sorts_of (trees_at cx.now.entries args.0)) }
{
    cx.lawful();
    match declarations.trait_def(id) {
        Some(def) => match def.params.split_first() {
            Some((GenericParamKind::Type, others)) => are_for(cx.args(args), others),
            Some((GenericParamKind::Lifetime, _)) => false,
            Some((GenericParamKind::Const, _)) => false,
            None => false,
        },
        None => true,
    }
}

/// Whether `Unsize` is one of these traits.
fn names_unsize(ids: &[TraitId]) -> bool
    ensures { result ≡ list_any (λ (id : TraitId). id.index == unsize) ids.now }
{
    ids.iter().any(|id| id.index == UNSIZE)
}

/// Whether the principal trait of a `dyn` has an argument for each parameter but Self, and uses none of the lifetimes that it binds.
/// `dyn for<'a> Conv<&'a u8>` does not fit.
fn principal_fits(cx: &Interner, declarations: &Declarations, principal: Principal) -> bool
    requires { Has cx.now.entries args_lists principal.args.0 }
    ensures { let args = trees_at cx.now.entries principal.args.0 in
        result ≡ (are_of_trait declarations.now principal.def_id.index (of_type ∷ sorts_of args) && is_shut args) }
{
    args_are_for_principal(cx, declarations, principal.def_id, principal.args)
        && cx.outer_exclusive_binder(principal.args).index == 0
}

/// Whether the bounds of a `dyn` fit: its principal trait has its arguments, and `Unsize` is no auto trait of it.
fn bounds_fit(cx: &Interner, declarations: &Declarations, bounds: Bounds) -> bool
    requires { Has cx.now.entries bounds_lists bounds.0 }
    ensures { (r : Region) → let bs = trees_at cx.now.entries bounds.0 +++ region_trees r in
        result ≡ (principal_fits declarations.now bs && not (names_unsize bs)) }
{
    let bounds = cx.bounds(bounds);
    match bounds.principal {
        Some(principal) => {
            principal_fits(cx, declarations, principal) && !names_unsize(&bounds.autos)
        }
        None => !names_unsize(&bounds.autos),
    }
}

/// Whether the type fits: a struct, or the principal trait of a `dyn`, has its arguments.
fn type_fits(cx: &Interner, declarations: &Declarations, ty: Ty) -> bool
    requires { Has cx.now.entries types ty.0 }
    ensures { result ≡ type_fits declarations.now (trees_at cx.now.entries ty.0) }
{
    cx.lawful();
    match cx.kind(ty) {
        TyKind::Adt(id, args) => args_are_for_struct(cx, declarations, id, args),
        TyKind::Dynamic(bounds, _) => bounds_fit(cx, declarations, bounds),
        TyKind::Bool
        | TyKind::Char
        | TyKind::Int(_)
        | TyKind::Uint(_)
        | TyKind::Str
        | TyKind::Never
        | TyKind::Ref(_, _, _)
        | TyKind::RawPtr(_, _)
        | TyKind::Array(_, _)
        | TyKind::Slice(_)
        | TyKind::Tuple(_)
        | TyKind::FnPtr(_, _)
        | TyKind::Param(_)
        | TyKind::Placeholder(_)
        | TyKind::Bound(_, _)
        | TyKind::Infer(_) => true,
    }
}

fn argument_fits(cx: &Interner, declarations: &Declarations, arg: Option<GenericArgKind>) -> bool
    requires { IfSome arg (ArgHeld cx.now.entries) }
    ensures { (t : Trees) → IsFirst cx.now.entries t arg → result ≡ type_fits declarations.now t }
{
    cx.lawful();
    match arg {
        Some(arg) => match arg {
            GenericArgKind::Ty(ty) => type_fits(cx, declarations, ty),
            GenericArgKind::Lifetime(_) => true,
            GenericArgKind::Const(_) => true,
        },
        None => true,
    }
}

/// Whether the type is a variable of a canonical form, or its outermost constructor is known.
fn is_variable_or_rigid(cx: &Interner, ty: Ty) -> bool
    requires { Has cx.now.entries types ty.0 }
    ensures { result ≡ begins_with_type (trees_at cx.now.entries ty.0) }
{
    cx.lawful();
    match cx.kind(ty) {
        TyKind::Param(_)
        | TyKind::Placeholder(_)
        | TyKind::Bound(BoundVarIndexKind::Bound(_), _)
        | TyKind::Infer(_) => false,
        TyKind::Bound(BoundVarIndexKind::Canonical, _)
        | TyKind::Bool
        | TyKind::Char
        | TyKind::Int(_)
        | TyKind::Uint(_)
        | TyKind::Str
        | TyKind::Never
        | TyKind::Adt(_, _)
        | TyKind::Ref(_, _, _)
        | TyKind::RawPtr(_, _)
        | TyKind::Array(_, _)
        | TyKind::Slice(_)
        | TyKind::Tuple(_)
        | TyKind::FnPtr(_, _)
        | TyKind::Dynamic(_, _) => true,
    }
}

/// Whether the argument is such a type.
fn argument_is_type(cx: &Interner, arg: Option<GenericArgKind>) -> bool
    requires { IfSome arg (ArgHeld cx.now.entries) }
    ensures { (t : Trees) → IsFirst cx.now.entries t arg → result ≡ begins_with_type t }
{
    cx.lawful();
    match arg {
        Some(arg) => match arg {
            GenericArgKind::Ty(ty) => is_variable_or_rigid(cx, ty),
            GenericArgKind::Lifetime(_) => false,
            GenericArgKind::Const(_) => false,
        },
        None => false,
    }
}

/// Whether the argument is a type variable of these kinds.
fn argument_is_unknown(
    cx: &Interner,
    kinds: &[CanonicalVarKind],
    arg: Option<GenericArgKind>,
) -> bool
    requires { IfSome arg (ArgHeld cx.now.entries) }
    ensures { (t : Trees) → IsFirst cx.now.entries t arg → result ≡ begins_unknown kinds.now (with_plain_head t) }
{
    cx.lawful();
    match arg {
        Some(arg) => match arg {
            GenericArgKind::Ty(ty) => is_unknown(cx, kinds, ty),
            GenericArgKind::Lifetime(_) => false,
            GenericArgKind::Const(_) => false,
        },
        None => false,
    }
}

fn first_argument(cx: &Interner, args: GenericArgs) -> Option<GenericArgKind>
    requires { Has cx.now.entries args_lists args.0 }
    ensures { IsFirst cx.now.entries (trees_at cx.now.entries args.0) result }
{
    cx.lawful();
    cx.args(args).first().copied()
}

/// Whether the trait reference fits the declarations: its trait, its self type and, for `Unsize`, the target have their arguments.
fn reference_fits(cx: &Interner, declarations: &Declarations, trait_ref: TraitRef) -> bool
    requires { ReferenceHeld cx.now.entries trait_ref }
    ensures { result ≡ reference_fits declarations.now (reference_in cx.now.entries trait_ref) }
{
    let args = trait_ref.args;
    args_are_for_trait(cx, declarations, trait_ref.def_id, args)
        && cx.outer_exclusive_binder(args).index == 0
        && argument_fits(cx, declarations, first_argument(cx, args))
        && (trait_ref.def_id.index != UNSIZE
            || argument_fits(cx, declarations, second_argument(cx, args)))
}

/// Whether the first argument and, for `Unsize`, the second are types that are variables or have a known outermost constructor.
fn begins_with_types(cx: &Interner, trait_ref: TraitRef) -> bool
    requires { ReferenceHeld cx.now.entries trait_ref }
    ensures { let args = trees_at cx.now.entries trait_ref.args.0 in
        result ≡ (begins_with_type args && (not (trait_ref.def_id.index == unsize) || begins_with_type (next_of args))) }
{
    let args = trait_ref.args;
    argument_is_type(cx, first_argument(cx, args))
        && (trait_ref.def_id.index != UNSIZE || argument_is_type(cx, second_argument(cx, args)))
}

/// Whether all names in the trait reference are declared.
fn reference_is_declared(cx: &Interner, declarations: &Declarations, trait_ref: TraitRef) -> bool
    requires { ReferenceHeld cx.now.entries trait_ref }
    ensures { result ≡ written_in (written cx.now.entries declarations.now) (reference_in cx.now.entries trait_ref) }
{
    trait_is_declared(declarations, trait_ref.def_id)
        && args_are_declared(cx, declarations, trait_ref.args)
}

/// Whether the where-clause holds variables of these kinds alone.
fn clause_is_over(cx: &Interner, kinds: &[CanonicalVarKind], clause: Clause) -> bool
    requires { ClauseHeld cx.now.entries clause }
    ensures { result ≡ is_made (is_variable_over kinds.now) terms (clause_terms cx.now.entries clause) }
{
    cx.lawful();
    match clause {
        Clause::Trait(predicate) => args_are_over(cx, kinds, predicate.trait_ref.args),
        Clause::RegionOutlives(longer, shorter) => {
            region_is_over(kinds, longer) && region_is_over(kinds, shorter)
        }
        Clause::TypeOutlives(ty, region) => {
            ty_is_over(cx, kinds, ty) && region_is_over(kinds, region)
        }
    }
}

/// Whether the where-clauses do.
fn clauses_are_over(cx: &Interner, kinds: &[CanonicalVarKind], clauses: &[Clause]) -> bool
    requires { ClausesHeld cx.now.entries clauses.now }
    ensures { result ≡ are_clauses kinds.now (environment_trees cx.now.entries clauses.now) }
{
    let mut left = clauses;
    'clauses: while let Some((clause, others)) = left.split_first() {
        if !clause_is_over(cx, kinds, *clause) {
            return false;
        }
        left = others;
    }
    true
}

/// Whether the solver may evaluate the goal: its names are declared, its terms hold its own variables alone, and it begins with types.
fn is_asked(cx: &Interner, declarations: &Declarations, goal: &CanonicalInput) -> bool
    requires { GoalHeld cx.now.entries goal.now.goal }
    ensures { let es = cx.now.entries in
        goal_over_kinds (written es declarations.now) (form_of es goal.now) ≡ (if result then Some (asked_of es goal.now) else None) }
{
    let trait_ref = goal.goal.predicate.trait_ref;
    if !reference_is_declared(cx, declarations, trait_ref) {
        return false;
    }
    if !args_are_over(cx, &goal.variables, trait_ref.args) {
        return false;
    }
    if !begins_with_types(cx, trait_ref) {
        return false;
    }
    clauses_are_over(cx, &goal.variables, &goal.goal.param_env)
}

/// Whether the goal is decided by its candidates: its names are declared, its terms hold its own variables alone, it fits the declarations,
/// and its self type is no variable. Nothing is known about any other goal.
///
/// The declarations are declared well, and the fields of structs have the structs' own parameters alone. So structs with their arguments
/// have the lifetimes that their fields name. The test takes no memory and cannot fail.
pub fn is_decided(cx: &Interner, declarations: &Declarations, goal: &CanonicalInput) -> bool
    requires goal { GoalHeld cx.now.entries goal.now.goal }
    requires well { is_declared_well (written cx.now.entries declarations.now) ≡ true }
    requires fields { HaveFields cx.now.entries declarations.now }
    ensures is { let es = cx.now.entries in let f = form_of es goal.now in
        decided (meaning_for (solving_of es declarations.now) f) (goal_over_kinds (written es declarations.now) f)
        ≡ (if result then Some (asked_of es goal.now) else None) }
    ensures fits { IsTrue result → GoalFits cx.now.entries declarations.now goal.now }
{
    let trait_ref = goal.goal.predicate.trait_ref;
    if !is_asked(cx, declarations, goal) {
        return false;
    }
    if !reference_fits(cx, declarations, trait_ref) {
        return false;
    }
    let first = first_argument(cx, trait_ref.args);
    !argument_is_unknown(cx, &goal.variables, first)
}
