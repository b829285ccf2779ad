//! Steps that are given as a proof of a query's trait reference, checked.

ghost use Rattle.std.specs.Prelude.{◌≡◌, ◌∷◌, true, map, IfOk, Some};
ghost use Rattle.std.specs.List.{slice_get};
ghost use Rattle.type_terms.specs.Promised.Erased.{erased_reference};
ghost use Rattle.type_terms.specs.Promised.Handles.{ArgHeld, ArgsHeld};
ghost use Rattle.type_terms.specs.Promised.Worlds.{Reference};
ghost use Rattle.type_terms.specs.Growth.{Grew};
ghost use Rattle.declarations.specs.Applied.{TraitRefsHeld};
ghost use Rattle.declarations.specs.Held.{ReferenceHeld};
ghost use Rattle.declarations.specs.Items.{reference_in};
ghost use Rattle.declarations.specs.Promised.Elaboration.{Each};
ghost use Rattle.infer_table.specs.Content.{Ready};
ghost use Rattle.proof_checker.specs.Steps.{term_of, terms_of, AreProofOf, StepHeld};
ghost use Rattle.text_language.specs.Promised.Declarations.{Question};
ghost use Rattle.text_lowering.specs.Promised.SeenWorlds.{unbound_reference};
ghost use Rattle.text_lowering.specs.Plain.{unbound_references};
ghost use Rattle.text_lowering.specs.Promised.Questions.{IsQuestion};
ghost use Rattle.sessions.specs.Checking.{IsReadySolver, SolverStaysReady, rules_in};
ghost use Rattle.sessions.specs.Shown.{IsResolved, IsShown};

use crate::asked::{lower_in, rest_laws};
use crate::laws::ready_impls_are_written_well;
use crate::proving::question_table_in;
use candidate_assembly::solver::Solver;
use infer_table::certainty::EqError;
use infer_table::infer_ctxt::InferCtxt;
use proof_checker::checker::is_proof_of;
use proof_checker::steps::Step;
use solver_graph::SolverCx;
use term_folds::predicate::TraitRef;
use text_lowering::LoweredQuestion;
use text_tables::Workspace;
use type_terms::Fault;
use type_terms::interner::Interner;
use type_terms::kinds::GenericArgKind;

/// Equates a variable with a value. If the value does not fit, nothing changes.
fn equate(
    cx: &mut Interner,
    table: &mut InferCtxt,
    unknown: GenericArgKind,
    value: GenericArgKind,
) -> Result<(), Fault>
    requires ready { Ready cx.old.entries table.old }
    requires unknown { ArgHeld cx.old.entries unknown }
    requires value { ArgHeld cx.old.entries value }
    ensures ready { Ready cx.new.entries table.new }
    ensures grew { Grew cx.old cx.new }
{
    match table.eq(cx, unknown, value) {
        Ok(()) => Ok(()),
        Err(EqError::NoSolution) => Ok(()),
        Err(EqError::Fault(fault)) => Err(fault),
    }
}

/// Equates each variable with its value, as far as these fit.
fn equate_all(
    cx: &mut Interner,
    table: &mut InferCtxt,
    unknowns: &[GenericArgKind],
    values: &[GenericArgKind],
) -> Result<(), Fault>
    requires ready { Ready cx.old.entries table.old }
    requires unknowns { ArgsHeld cx.old.entries unknowns.now }
    requires values { ArgsHeld cx.old.entries values.now }
    ensures ready { Ready cx.new.entries table.new }
    ensures grew { Grew cx.old cx.new }
{
    let mut left = unknowns;
    let mut given = values;
    'unknowns: while let Some((unknown, unknowns_left)) = left.split_first() {
        match given.split_first() {
            Some((value, values_left)) => {
                equate(cx, table, *unknown, *value)?;
                left = unknowns_left;
                given = values_left;
            }
            None => return Ok(()),
        }
    }
    Ok(())
}

/// A trait reference with the values of the table.
fn resolve_reference(
    cx: &mut Interner,
    table: &mut InferCtxt,
    reference: TraitRef,
    unknowns: &[GenericArgKind],
    values: &[GenericArgKind],
) -> Result<TraitRef, Fault>
    requires ready { Ready cx.old.entries table.old }
    requires reference { ReferenceHeld cx.old.entries reference }
    requires unknowns { ArgsHeld cx.old.entries unknowns.now }
    requires values { ArgsHeld cx.old.entries values.now }
    ensures grew { Grew cx.old cx.new }
    ensures held { IfOk result (ReferenceHeld cx.new.entries) }
    ensures resolved { IfOk result (λ r. IsResolved (reference_in cx.old.entries reference) (reference_in cx.new.entries r)) }
{
    equate_all(cx, table, unknowns, values)?;
    let args = table.eager_resolve_vars(cx, reference.args)?;
    Ok(TraitRef {
        def_id: reference.def_id,
        args,
    })
}

/// The same over the interner of a solver's context.
fn resolve_reference_in(
    cx: &mut SolverCx<Solver>,
    table: &mut InferCtxt,
    reference: TraitRef,
    unknowns: &[GenericArgKind],
    values: &[GenericArgKind],
) -> Result<TraitRef, Fault>
    requires ready { IsReadySolver cx.old }
    requires table { Ready cx.old.interner.entries table.old }
    requires reference { ReferenceHeld cx.old.interner.entries reference }
    requires unknowns { ArgsHeld cx.old.interner.entries unknowns.now }
    requires values { ArgsHeld cx.old.interner.entries values.now }
    ensures advances { SolverStaysReady cx.old cx.new }
    ensures held { IfOk result (ReferenceHeld cx.new.interner.entries) }
    ensures resolved { IfOk result (λ r. IsResolved (reference_in cx.old.interner.entries reference) (reference_in cx.new.interner.entries r)) }
{
    rest_laws::<Solver>();
    let instance = resolve_reference(&mut cx.interner, table, reference, unknowns, values);
    cx.interner.lawful();
    instance
}

/// Whether steps are a proof of a trait reference by the declarations of a solver's context (`is_proof_of`).
fn is_proof_in(
    cx: &mut SolverCx<Solver>,
    clauses: &[TraitRef],
    asked: TraitRef,
    steps: &[Step],
) -> Result<bool, Fault>
    requires ready { IsReadySolver cx.old }
    requires clauses { TraitRefsHeld cx.old.interner.entries clauses.now }
    requires asked { ReferenceHeld cx.old.interner.entries asked }
    requires steps { Each (StepHeld cx.old.interner.entries) steps.now }
    ensures advances { SolverStaysReady cx.old cx.new }
    ensures proof { IfOk result (λ b. b ≡ true → AreProofOf cx.old.interner.entries (rules_in cx.old)
        (terms_of cx.old.interner.entries clauses.now) (term_of cx.old.interner.entries asked) steps.now) }
{
    rest_laws::<Solver>();
    ready_impls_are_written_well();
    let declarations = &cx.handler.declarations;
    let found = is_proof_of(
        cx.alloc,
        &mut cx.interner,
        declarations,
        clauses,
        asked,
        steps,
    );
    cx.interner.lawful();
    found
}

/// Whether steps are a proof of a trait reference under just these where-clauses, with these values for its variables as far as they fit.
fn is_proof_under(
    cx: &mut SolverCx<Solver>,
    clauses: &[TraitRef],
    asked: TraitRef,
    unknowns: &[GenericArgKind],
    values: &[GenericArgKind],
    steps: &[Step],
) -> Result<bool, Fault>
    requires ready { IsReadySolver cx.old }
    requires clauses { TraitRefsHeld cx.old.interner.entries clauses.now }
    requires asked { ReferenceHeld cx.old.interner.entries asked }
    requires unknowns { ArgsHeld cx.old.interner.entries unknowns.now }
    requires values { ArgsHeld cx.old.interner.entries values.now }
    requires steps { Each (StepHeld cx.old.interner.entries) steps.now }
    ensures advances { SolverStaysReady cx.old cx.new }
    ensures proof { IfOk result (λ b. b ≡ true → IsShown cx.old.interner.entries (rules_in cx.old)
        (terms_of cx.old.interner.entries clauses.now) (reference_in cx.old.interner.entries asked) steps.now) }
{
    let mut table = question_table_in(cx, unknowns)?;
    let instance = resolve_reference_in(cx, &mut table, asked, unknowns, values)?;
    is_proof_in(cx, clauses, instance, steps)
}

/// The trait reference of the query with this number, counted from 0, if there is one.
fn bound_at(question: &LoweredQuestion, bound: usize) -> Option<TraitRef>
    ensures { result ≡ slice_get (question.now.asked ∷ question.now.further.items) bound }
{
    match bound.checked_sub(1) {
        None => Some(question.asked),
        Some(place) => question.further.get(place).copied(),
    }
}

/// Whether steps are a proof of the trait reference with this number, counted from 0, of the query with this number, with these values for
/// the query's variables as far as they fit. If there is none, they are not.
///
/// Everything stays ready, after a fault too. Fails with `Memory` if memory is refused, or with `Full` if a table is full.
pub(crate) fn is_proof_of_question(
    cx: &mut SolverCx<Solver>,
    workspace: &Workspace,
    number: u32,
    bound: usize,
    values: &[GenericArgKind],
    steps: &[Step],
) -> Result<bool, Fault>
    requires ready { IsReadySolver cx.old }
    requires question { (q : Question) × IsQuestion workspace.now number q }
    requires values { ArgsHeld cx.old.interner.entries values.now }
    requires steps { Each (StepHeld cx.old.interner.entries) steps.now }
    ensures advances { SolverStaysReady cx.old cx.new }
    ensures proof { (q : Question) → IsQuestion workspace.now number q → IfOk result (λ b. b ≡ true
        → (r : Reference) × (slice_get (q.asked ∷ q.further) bound ≡ Some r)
        × IsShown cx.old.interner.entries (rules_in cx.old) (map erased_reference (unbound_references q.clauses)) (unbound_reference r) steps.now) }
{
    let lowered = lower_in(cx, workspace, number)?;
    let Some(asked) = bound_at(&lowered, bound) else {
        return Ok(false);
    };
    is_proof_under(
        cx,
        &lowered.clauses,
        asked,
        &lowered.unknowns,
        values,
        steps,
    )
}
