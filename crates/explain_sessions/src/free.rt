//! Goals with an instance that no impl concludes: who adds an impl of it overlaps nothing that stands.
//!
//! Beside `impl Show for V<u8>` the goal `V<?x>: Show` has the instance `V<New>: Show`, for a struct `New` that the view does not have. Beside
//! `impl<T> Show for T` no goal of `Show` has one.

ghost use Rattle.std.specs.Prelude.{◌≡◌, ◌<◌, true, IfOk};
ghost use Rattle.sessions.specs.TypeTerms.Growth.{Grew};
ghost use Rattle.sessions.specs.TypeTerms.Promised.Handles.{ArgHeld};
ghost use Rattle.sessions.specs.Declarations.Held.{ReferenceHeld};
ghost use Rattle.sessions.specs.Declarations.Items.{declared};
ghost use Rattle.sessions.specs.Declarations.Promised.Elaboration.{Each};
ghost use Rattle.sessions.specs.InferTable.Content.{Ready};
ghost use Rattle.sessions.specs.CandidateAssembly.Ready.{AreReadyDeclarations};
ghost use Rattle.explain_traces.specs.Walking.{ReferencesHeld};
ghost use Rattle.sessions.specs.ProofChecker.Steps.{term_of};
ghost use Rattle.sessions.specs.Checking.{rules_in};
ghost use Rattle.sessions.specs.Promised.Promises.{view_in};
ghost use Rattle.sessions.specs.Promised.Subjects.{StaysOn};
ghost use Rattle.sessions.specs.Proving.{SolverAdvances, SolverIsReady};
ghost use Rattle.explain_sessions.specs.Adding.{HasFreeInstance};
ghost use Rattle.explain_sessions.specs.Claims.{IsFreeAt};
ghost use Rattle.explain_sessions.specs.Walked.{WalkHeld};

use crate::fitting::has_no_impl;
use crate::instances::{GOAL_UNKNOWNS, instance_in, table_for_goals};
use crate::places::{TOLD_LIMIT, is_answered, push_if, reference_at};
use explain_traces::{Answer, GoalWalk};
use sessions::Session;
use sessions::candidate_assembly::solver::Solver;
use sessions::declarations::declarations::Declarations;
use sessions::declarations::laws::declarations_are_kept;
use sessions::infer_table::certainty::EqError;
use sessions::infer_table::infer_ctxt::InferCtxt;
use sessions::solver_graph::SolverCx;
use sessions::term_folds::predicate::TraitRef;
use sessions::type_terms::interner::Interner;
use sessions::type_terms::kinds::{ConstKind, GenericArgKind, TyKind};
use sessions::type_terms::number::{ConstVid, TyVid};
use sessions::type_terms::{AdtId, Fault};
use std::alloc::Global;

/// The number of a struct that is in no view, and so are those of the next ones: texts have fewer.
const NEW_STRUCT: u32 = 4_000_000_000;

/// A length that impls hardly name.
const NEW_LENGTH: u64 = 65_521;

/// Lets a variable of a table stand for a term.
fn put_value(
    cx: &mut Interner,
    table: &mut InferCtxt,
    variable: GenericArgKind,
    value: GenericArgKind,
) -> Result<(), Fault>
    requires ready { Ready cx.old.entries table.old }
    requires variable { ArgHeld cx.old.entries variable }
    requires value { ArgHeld cx.old.entries value }
    ensures ready { Ready cx.new.entries table.new }
    ensures grew { Grew cx.old cx.new }
{
    match table.eq(cx, variable, value) {
        Ok(()) => Ok(()),
        Err(EqError::NoSolution) => Ok(()),
        Err(EqError::Fault(fault)) => Err(fault),
    }
}

/// Lets the type variable with this number stand for a new struct of its own.
fn put_struct(cx: &mut Interner, table: &mut InferCtxt, number: u32) -> Result<(), Fault>
    requires small { number < 64 }
    requires ready { Ready cx.old.entries table.old }
    ensures ready { Ready cx.new.entries table.new }
    ensures grew { Grew cx.old cx.new }
{
    let alloc = cx.allocator();
    let variable = cx.mk_ty(TyKind::Infer(TyVid { index: number }))?;
    let args = cx.mk_args(Vec::new(alloc))?;
    let id = AdtId {
        index: NEW_STRUCT + number,
    };
    let new = cx.mk_ty(TyKind::Adt(id, args))?;
    put_value(
        cx,
        table,
        GenericArgKind::Ty(variable),
        GenericArgKind::Ty(new),
    )
}

/// Lets the constant variable with this number stand for the new length.
fn put_length(cx: &mut Interner, table: &mut InferCtxt, number: u32) -> Result<(), Fault>
    requires small { number < 64 }
    requires ready { Ready cx.old.entries table.old }
    ensures ready { Ready cx.new.entries table.new }
    ensures grew { Grew cx.old cx.new }
{
    let variable = cx.mk_const(ConstKind::Infer(ConstVid { index: number }))?;
    let new = cx.mk_const(ConstKind::Value(NEW_LENGTH))?;
    put_value(
        cx,
        table,
        GenericArgKind::Const(variable),
        GenericArgKind::Const(new),
    )
}

/// A table in which the variables of a goal stand for new structs, each for another one, and for the new length.
fn table_of_new(alloc: Global, cx: &mut Interner) -> Result<InferCtxt, Fault>
    ensures ready { IfOk result (Ready cx.new.entries) }
    ensures grew { Grew cx.old cx.new }
{
    let mut table = table_for_goals(alloc, cx)?;
    'numbers: for number in 0..GOAL_UNKNOWNS {
        put_struct(cx, &mut table, number)?;
        put_length(cx, &mut table, number)?;
    }
    Ok(table)
}

/// Whether no impl has a rule for the instance of a trait reference with new terms for its variables.
fn is_free(
    alloc: Global,
    cx: &mut Interner,
    declarations: &Declarations,
    reference: TraitRef,
) -> Result<bool, Fault>
    requires ready { AreReadyDeclarations cx.old.entries declarations.now }
    requires reference { ReferenceHeld cx.old.entries reference }
    ensures grew { Grew cx.old cx.new }
    ensures free { IfOk result (λ b. b ≡ true
        → HasFreeInstance (declared cx.old.entries declarations.now) (term_of cx.old.entries reference)) }
{
    declarations_are_kept();
    let table = table_of_new(alloc, cx)?;
    let instance = instance_in(cx, &table, reference)?;
    has_no_impl(alloc, cx, declarations, instance)
}

/// The same for the goal at this index of a trace.
fn is_free_at(cx: &mut SolverCx<Solver>, walk: &GoalWalk, place: usize) -> Result<bool, Fault>
    requires ready { SolverIsReady cx.old }
    requires walked { ReferencesHeld cx.old.interner.entries walk.now.references.items }
    ensures advances { SolverAdvances cx.old cx.new }
    ensures free { IfOk result (λ b. b ≡ true
        → IsFreeAt cx.old.interner.entries (rules_in cx.old) walk.now.references.items place) }
{
    let Some(reference) = reference_at(&walk.references, place) else {
        return Ok(false);
    };
    let declarations = &cx.handler.declarations;
    let told = is_free(cx.alloc, &mut cx.interner, declarations, reference);
    cx.interner.lawful();
    told
}

/// The same by what a session's crate sees. A nested goal that is refused is not looked at.
fn is_free_goal(session: &mut Session<'_>, walk: &GoalWalk, place: usize) -> Result<bool, Fault>
    requires { WalkHeld session.old.terms walk.now }
    ensures free { IfOk result (λ b. b ≡ true
        → IsFreeAt session.old.terms (view_in session.old.declarations session.old.of_crate) walk.now.references.items place) }
    ensures held { WalkHeld session.new.terms walk.now }
    ensures stays { StaysOn session.old session.new }
{
    if place > 0 && is_answered(walk, place, Answer::Refused) {
        return Ok(false);
    }
    is_free_at(&mut session.search.cx, walk, place)
}

/// The indices of goals of a trace with an instance that no impl which the session's crate sees concludes, whatever its lifetimes are. The
/// variables of the instance stand for structs that the view does not have, each for another one, and for a length that impls hardly name.
///
/// A goal that is not named may have one too, for example if it has a parameter or too many variables. Fails with `Memory` if memory is
/// refused, or with `Full` if a table of the session is full.
pub(crate) fn free_goals(session: &mut Session<'_>, walk: &GoalWalk) -> Result<Vec<usize>, Fault>
    requires { WalkHeld session.old.terms walk.now }
    ensures free { IfOk result (λ ps. Each
        (IsFreeAt session.old.terms (view_in session.old.declarations session.old.of_crate) walk.now.references.items) ps.items) }
    ensures held { WalkHeld session.new.terms walk.now }
    ensures stays { StaysOn session.old session.new }
{
    let mut found = Vec::new(session.search.cx.alloc);
    for place in 0..walk.nodes.len().min(TOLD_LIMIT) {
        let is_free = is_free_goal(session, walk, place)?;
        push_if(&mut found, place, is_free)?;
    }
    Ok(found)
}
