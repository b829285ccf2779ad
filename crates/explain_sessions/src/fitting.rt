//! Goals that no impl fits, and goals that no built-in rule fits. If a crate sees only `impl Show for u8` and `impl<T> Show for V<T>`, no
//! impl fits `bool: Show` and none fits `&?x: Show`.

ghost use Rattle.std.specs.Prelude.{◌≡◌, true, List, IfOk, IfSome};
ghost use Rattle.sessions.specs.TypeTerms.Promised.Handles.{Has, types, trees_at};
ghost use Rattle.sessions.specs.TypeTerms.Growth.{Grew};
ghost use Rattle.sessions.specs.TypeTerms.Promised.Worlds.{CrateDecl};
ghost use Rattle.sessions.specs.TermFolds.Signatures.{StartsWithType};
ghost use Rattle.sessions.specs.Declarations.Heads.{head_of, label_of};
ghost use Rattle.sessions.specs.Declarations.Held.{ReferenceHeld};
ghost use Rattle.sessions.specs.Declarations.Items.{declared};
ghost use Rattle.sessions.specs.CandidateAssembly.Ready.{AreReadyDeclarations};
ghost use Rattle.explain_traces.specs.Walking.{ReferencesHeld};
ghost use Rattle.sessions.specs.ProofChecker.Steps.{term_of};
ghost use Rattle.sessions.specs.Checking.{rules_in};
ghost use Rattle.sessions.specs.Promised.Promises.{view_in};
ghost use Rattle.sessions.specs.Proving.{SolverAdvances, SolverIsReady};
ghost use Rattle.sessions.specs.Promised.Subjects.{StaysOn};
ghost use Rattle.explain_sessions.specs.Rules.{HasNoImpl, HasNoImplAt, HasNoRow, HasNoRowAt, begins_known, is_bare};
ghost use Rattle.explain_sessions.specs.Walked.{WalkHeld};

use crate::apart::all_are_apart;
use crate::instances::table_for_goals;
use crate::places::reference_at;
use crate::unknowns::is_of_table;
use built_in_candidates::built_in_rules::is_auto;
use explain_traces::GoalWalk;
use sessions::Session;
use sessions::candidate_assembly::solver::Solver;
use sessions::declarations::core_traits::{SIZED, UNSIZE};
use sessions::declarations::declarations::Declarations;
use sessions::declarations::laws::declarations_are_kept;
use sessions::declarations::simplify::{SimplifiedType, simplify_type};
use sessions::overlap_check::impl_rules_are_instances;
use sessions::solver_graph::SolverCx;
use sessions::term_folds::predicate::TraitRef;
use sessions::type_terms::Fault;
use sessions::type_terms::interner::Interner;
use sessions::type_terms::kinds::{GenericArgKind, Ty, TyKind};
use std::alloc::Global;

/// The self type of a trait reference, if it has one.
fn self_type(cx: &Interner, reference: TraitRef) -> Option<Ty>
    requires { ReferenceHeld cx.now.entries reference }
    ensures held { IfSome result (λ ty. Has cx.now.entries types ty.0) }
    ensures first { IfSome result (λ _. StartsWithType (trees_at cx.now.entries reference.args.0)) }
    ensures head { IfSome result (λ ty. head_of (trees_at cx.now.entries reference.args.0) ≡ head_of (trees_at cx.now.entries ty.0)) }
    ensures known { IfSome result (λ ty. begins_known (trees_at cx.now.entries reference.args.0) ≡ begins_known (trees_at cx.now.entries ty.0)) }
{
    cx.lawful();
    match cx.args(reference.args).first().copied() {
        Some(GenericArgKind::Ty(ty)) => Some(ty),
        _ => None,
    }
}

/// Whether a type is no variable.
fn is_known(cx: &Interner, ty: Ty) -> bool
    requires { Has cx.now.entries types ty.0 }
    ensures { result ≡ begins_known (trees_at cx.now.entries ty.0) }
{
    match cx.kind(ty) {
        TyKind::Infer(_) => false,
        TyKind::Bool
        | TyKind::Char
        | TyKind::Int(_)
        | TyKind::Uint(_)
        | TyKind::Str
        | TyKind::Never
        | TyKind::Adt(_, _)
        | TyKind::Ref(_, _, _)
        | TyKind::RawPtr(_, _)
        | TyKind::Array(_, _)
        | TyKind::Slice(_)
        | TyKind::Tuple(_)
        | TyKind::FnPtr(_, _)
        | TyKind::Dynamic(_, _)
        | TyKind::Param(_)
        | TyKind::Placeholder(_)
        | TyKind::Bound(_, _) => true,
    }
}

/// Whether no impl has a rule for a trait reference, whatever its variables stand for. Heads, the first levels of the arguments, and
/// equations of headers can tell.
pub(crate) fn has_no_impl(
    alloc: Global,
    cx: &mut Interner,
    declarations: &Declarations,
    reference: TraitRef,
) -> Result<bool, Fault>
    requires ready { AreReadyDeclarations cx.old.entries declarations.now }
    requires reference { ReferenceHeld cx.old.entries reference }
    ensures grew { Grew cx.old cx.new }
    ensures none { IfOk result (λ b. b ≡ true
        → HasNoImpl (declared cx.old.entries declarations.now) (term_of cx.old.entries reference)) }
{
    impl_rules_are_instances();
    declarations_are_kept();
    let Some(ty) = self_type(cx, reference) else {
        return Ok(false);
    };
    if !is_known(cx, ty) {
        return Ok(false);
    }
    let matching = declarations.next_matching_impl(cx, reference, None);
    if matching.is_none() {
        return Ok(true);
    }
    let mut table = table_for_goals(alloc, cx)?;
    if !is_of_table(cx, &table, reference.args) {
        return Ok(false);
    }
    all_are_apart(alloc, cx, declarations, &mut table, reference)
}

/// Whether no impl has a rule for the goal at this index of a trace.
fn has_no_impl_at(cx: &mut SolverCx<Solver>, walk: &GoalWalk, place: usize) -> Result<bool, Fault>
    requires ready { SolverIsReady cx.old }
    requires walked { ReferencesHeld cx.old.interner.entries walk.now.references.items }
    ensures advances { SolverAdvances cx.old cx.new }
    ensures none { IfOk result (λ b. b ≡ true
        → HasNoImplAt cx.old.interner.entries (rules_in cx.old) walk.now.references.items place) }
{
    let Some(reference) = reference_at(&walk.references, place) else {
        return Ok(false);
    };
    let declarations = &cx.handler.declarations;
    let told = has_no_impl(cx.alloc, &mut cx.interner, declarations, reference);
    cx.interner.lawful();
    told
}

/// Whether types with this head are no tuples, no `fn` pointers and no `dyn`.
fn is_bare(head: SimplifiedType) -> bool
    ensures { result ≡ is_bare (label_of head) }
{
    match head {
        SimplifiedType::Tuple => false,
        SimplifiedType::Function => false,
        SimplifiedType::Dynamic => false,
        SimplifiedType::Bool => true,
        SimplifiedType::Char => true,
        SimplifiedType::Int(_) => true,
        SimplifiedType::Uint(_) => true,
        SimplifiedType::Adt(_) => true,
        SimplifiedType::Str => true,
        SimplifiedType::Array => true,
        SimplifiedType::Slice => true,
        SimplifiedType::Ref(_) => true,
        SimplifiedType::Ptr(_) => true,
        SimplifiedType::Never => true,
    }
}

/// Whether the trait and the head of the self type tell that no built-in rule concludes a trait reference, whatever its variables stand
/// for.
fn has_no_row(cx: &Interner, declarations: &Declarations, reference: TraitRef) -> bool
    requires { ReferenceHeld cx.now.entries reference }
    ensures { result ≡ true → (cs : List CrateDecl)
        → HasNoRow (record (declared cx.now.entries declarations.now) { crates = cs }) (term_of cx.now.entries reference) }
{
    let number = reference.def_id.index;
    if is_auto(declarations, reference.def_id) || number == UNSIZE {
        return false;
    }
    let Some(ty) = self_type(cx, reference) else {
        return false;
    };
    let Some(head) = simplify_type(cx, ty) else {
        return false;
    };
    match head {
        SimplifiedType::Str => true,
        SimplifiedType::Slice => true,
        _ => number != SIZED && is_bare(head),
    }
}

/// Whether no impl that the session's crate sees has a rule for the goal at this index of a trace, whatever types, lifetimes and constants
/// its variables stand for.
///
/// `false` says nothing. It is the answer if the self type is a variable, or if the trace has no such index. For a goal with a parameter,
/// or with a variable whose number is 64 or more, only heads are compared.
///
/// Fails with `Memory` if memory is refused, or with `Full` if a table of the session is full.
pub(crate) fn no_impl_fits(
    session: &mut Session<'_>,
    walk: &GoalWalk,
    place: usize,
) -> Result<bool, Fault>
    requires { WalkHeld session.old.terms walk.now }
    ensures none { IfOk result (λ b. b ≡ true
        → HasNoImplAt session.old.terms (view_in session.old.declarations session.old.of_crate) walk.now.references.items place) }
    ensures held { WalkHeld session.new.terms walk.now }
    ensures stays { StaysOn session.old session.new }
{
    has_no_impl_at(&mut session.search.cx, walk, place)
}

/// Whether no built-in rule concludes the goal at this index of a trace, by what the session's crate sees and whatever its variables stand
/// for.
///
/// `false` says nothing. `true` comes only for types that are no tuples, no `fn` pointers and no `dyn`, and not for `Unsize` or auto
/// traits. For `Sized` it comes only for `str` and slices. If the trace has no such index, the answer is `false`.
pub(crate) fn no_built_in_rule_fits(session: &Session<'_>, walk: &GoalWalk, place: usize) -> bool
    requires { WalkHeld session.now.terms walk.now }
    ensures { result ≡ true
        → HasNoRowAt session.now.terms (view_in session.now.declarations session.now.of_crate) walk.now.references.items place }
{
    match reference_at(&walk.references, place) {
        Some(reference) => {
            has_no_row(
                &session.search.cx.interner,
                &session.search.cx.handler.declarations,
                reference,
            )
        }
        None => false,
    }
}
