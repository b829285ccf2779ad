//! Queries about several trait references, which share variables. For `prove in a Str: Conv<?v>, ?v: Coll<u8>` both are goals over one
//! table, and what an answer to one of them fixes the other has.

ghost use Rattle.std.specs.Prelude.{◌≡◌, ◌∷◌, [], true, false, map, Ok, IfOk, IfErr};
ghost use Rattle.type_terms.specs.Promised.Handles.{ArgsHeld, Keeps, arg_trees};
ghost use Rattle.type_terms.specs.Promised.Proofs.{Every};
ghost use Rattle.type_terms.specs.Growth.{FullAtLimit, GrewOrFull};
ghost use Rattle.term_folds.specs.Arguments.{arg_sort};
ghost use Rattle.declarations.specs.Applied.{TraitRefsHeld, AreApplied, references_in};
ghost use Rattle.infer_table.specs.Content.{Ready};
ghost use Rattle.text_language.specs.Promised.Declarations.{Question};
ghost use Rattle.text_lowering.specs.Questions.{IsLowered};
ghost use Rattle.solver_graph.specs.Contexts.{Advances, IsReady, KeepsLimits};
ghost use Rattle.solver_graph.specs.Shortages.{ContextFullAtLimit};
ghost use Rattle.candidate_assembly.specs.Fitting.{solving_of};
ghost use Rattle.candidate_assembly.specs.SolverMeaning.{solver_by_view};
ghost use Rattle.sessions.specs.Goals.{goal_of};
ghost use Rattle.sessions.specs.Promised.Given.{AnswerValuesHeld};
ghost use Rattle.sessions.specs.Proving.{SolvesTheSame};
ghost use Rattle.sessions.specs.ProvingTogether.{AreAllReadOff, AreAnswered, AreAnsweredBySolver, AreAnsweredInSearch, AreObligationsFor, AreRefused, AreRefusedAlone, IsUnbound};
ghost use Rattle.sessions.specs.Resting.{AreAtRest};
ghost use Rattle.sessions.specs.Sessions.{SolverRests};
ghost use Rattle.sessions.specs.Tables.{table_of};

use crate::answers::{ProveAnswer, RefuteAnswer};
use crate::asked::rest_laws;
use crate::laws::references_are_goals;
use crate::own_values::own_answer_together;
use crate::proving::{elaborate_in, goal_under, has_bound_terms, question_table_in};
use crate::values::values_of;
use candidate_assembly::solver::Solver;
use fulfillment::{FulfillmentCtxt, Selected};
use goal_evaluator::TypingMode;
use goal_frames::GoalHandler;
use infer_table::infer_ctxt::InferCtxt;
use solver_graph::{Search, SolverCx};
use std::alloc::{AllocError, Global};
use term_folds::predicate::TraitRef;
use text_lowering::LoweredQuestion;
use type_terms::Fault;
use type_terms::interner::Interner;
use type_terms::kinds::GenericArgKind;

/// Whether the query is about several trait references.
pub(crate) fn asks_several(question: &LoweredQuestion) -> bool
    ensures one { result ≡ false → question.now.further.items ≡ [] }
    ensures several { result ≡ true → question.now.further.items ≡ [] → ⊥ }
{
    !question.further.is_empty()
}

/// The trait references of a query, in the order in which they are written. Fails if memory is refused.
pub fn all_asked(alloc: Global, question: &LoweredQuestion) -> Result<Vec<TraitRef>, AllocError>
    ensures { IfOk result (λ all. all.items ≡ question.now.asked ∷ question.now.further.items) }
{
    let mut all = Vec::new(alloc);
    all.push(question.asked)?;
    all.extend_from_slice(&question.further)?;
    Ok(all)
}

/// Obligations to prove these trait references under these where-clauses. At most `limit` answers to each may have values. Fails if memory is
/// refused.
pub fn obligations_for(
    alloc: Global,
    clauses: &[TraitRef],
    references: &[TraitRef],
    limit: usize,
) -> Result<FulfillmentCtxt, AllocError>
    ensures { IfOk result (λ goals. AreObligationsFor clauses.now references.now goals.obligations.items) }
{
    let mut goals = FulfillmentCtxt::new(alloc, limit);
    for reference in references {
        let goal = goal_under(alloc, clauses, *reference)?;
        let _ = goals.register(goal)?;
    }
    Ok(goals)
}

/// Whether a bound type or a bound constant occurs in one of the trait references with the values of the table.
fn some_have_bound_terms(
    cx: &mut Interner,
    table: &InferCtxt,
    references: &[TraitRef],
) -> Result<bool, Fault>
    requires ready { Ready cx.old.entries table.now }
    requires references { TraitRefsHeld cx.old.entries references.now }
    ensures ready { Ready cx.new.entries table.now }
    ensures terms { GrewOrFull cx.old cx.new result }
    ensures unbound { IfOk result (λ b. b ≡ false → Every (IsUnbound cx.old.entries table.now) (references_in cx.old.entries references.now)) }
{
    for reference in references {
        let resolved = table.eager_resolve_vars(cx, reference.args)?;
        if has_bound_terms(cx, resolved) {
            return Ok(true);
        }
    }
    Ok(false)
}

/// The answer for trait references, which all were proved or not, with the values that their table gives the variables.
///
/// Values in which a type or a constant is bound prove nothing, so then the answer is `Maybe`.
fn read_all(
    alloc: Global,
    cx: &mut Interner,
    table: &InferCtxt,
    are_proved: bool,
    references: &[TraitRef],
    unknowns: &[GenericArgKind],
) -> Result<ProveAnswer, Fault>
    requires ready { Ready cx.old.entries table.now }
    requires references { TraitRefsHeld cx.old.entries references.now }
    requires unknowns { ArgsHeld cx.old.entries unknowns.now }
    ensures terms { GrewOrFull cx.old cx.new result }
    ensures held { IfOk result (AnswerValuesHeld cx.new.entries) }
    ensures read { IfOk result
        (AreAllReadOff are_proved cx.old.entries table.now (references_in cx.old.entries references.now) unknowns.now cx.new.entries) }
{
    let have_bound = some_have_bound_terms(cx, table, references)?;
    let values = values_of(alloc, cx, table, unknowns)?;
    if are_proved && !have_bound {
        Ok(ProveAnswer::Yes(values))
    } else {
        Ok(ProveAnswer::Maybe(values))
    }
}

/// The same over the interner of a context.
fn read_all_in<H: GoalHandler>(
    cx: &mut SolverCx<H>,
    table: &InferCtxt,
    are_proved: bool,
    references: &[TraitRef],
    unknowns: &[GenericArgKind],
) -> Result<ProveAnswer, Fault>
    requires ready { IsReady H.meaning.IsReady cx.old }
    requires table { Ready cx.old.interner.entries table.now }
    requires references { TraitRefsHeld cx.old.interner.entries references.now }
    requires unknowns { ArgsHeld cx.old.interner.entries unknowns.now }
    ensures advances { Advances H.meaning.IsReady cx.old cx.new }
    ensures held { IfOk result (AnswerValuesHeld cx.new.interner.entries) }
    ensures read { let es = cx.old.interner.entries in IfOk result
        (AreAllReadOff are_proved es table.now (references_in es references.now) unknowns.now cx.new.interner.entries) }
    ensures full { IfErr result (FullAtLimit cx.new.interner) }
{
    rest_laws::<H>();
    let read = read_all(
        cx.alloc,
        &mut cx.interner,
        table,
        are_proved,
        references,
        unknowns,
    );
    cx.interner.lawful();
    read
}

/// Selects the goals of trait references over their table until nothing new is fixed, and reads the answer.
///
/// Everything stays at rest, after a fault too. Fails with `Memory` if memory is refused, or with `Full` if a table is full.
fn ask_for_all<H: GoalHandler>(
    search: &mut Search<H>,
    table: &mut InferCtxt,
    clauses: &[TraitRef],
    references: &[TraitRef],
    unknowns: &[GenericArgKind],
    limit: usize,
) -> Result<ProveAnswer, Fault>
    requires rest { AreAtRest H.meaning search.old.graph.root_depth search.old.cx search.old.graph search.old.cache }
    requires ready { Ready search.old.cx.interner.entries table.old }
    requires table { table.old ≡ table_of (map arg_sort unknowns.now) }
    requires clauses { TraitRefsHeld search.old.cx.interner.entries clauses.now }
    requires references { TraitRefsHeld search.old.cx.interner.entries references.now }
    requires unknowns { ArgsHeld search.old.cx.interner.entries unknowns.now }
    ensures rest { AreAtRest H.meaning search.old.graph.root_depth search.new.cx search.new.graph search.new.cache }
    ensures meaning { H.meaning.world search.new.cx.handler search.new.cx.interner.entries ≡ H.meaning.world search.old.cx.handler
        search.old.cx.interner.entries }
    ensures keeps { Keeps search.old.cx.interner.entries search.new.cx.interner.entries }
    ensures limits { KeepsLimits search.old.cx search.new.cx }
    ensures held { IfOk result (AnswerValuesHeld search.new.cx.interner.entries) }
    ensures answer { let es = search.old.cx.interner.entries in IfOk result
        (AreAnswered H.meaning (H.meaning.world search.old.cx.handler es) search.old.graph.root_depth (map arg_sort unknowns.now)
        (map (goal_of (references_in es clauses.now)) (references_in es references.now)) (map (arg_trees es) unknowns.now)
        search.new.cx.interner.entries) }
    ensures full { IfErr result (ContextFullAtLimit search.new.cx) }
{
    rest_laws::<H>();
    references_are_goals();
    let mut goals = obligations_for(search.cx.alloc, clauses, references, limit)?;
    search.cache.forget_if_many();
    match goals.select_where_possible(search, table, TypingMode::PostAnalysis)? {
        Selected::AllDone => read_all_in(&mut search.cx, table, true, references, unknowns),
        Selected::Refused(_) => Ok(ProveAnswer::Unproved),
        Selected::Pending => read_all_in(&mut search.cx, table, false, references, unknowns),
    }
}

/// Selects the goals of trait references outside coherence, under just these where-clauses, over a new table with these variables.
///
/// Everything stays at rest, after a fault too. Fails with `Memory` if memory is refused, or with `Full` if a table is full.
fn prove_all_under(
    search: &mut Search<Solver>,
    clauses: &[TraitRef],
    references: &[TraitRef],
    unknowns: &[GenericArgKind],
    limit: usize,
) -> Result<ProveAnswer, Fault>
    requires rest { SolverRests search.old.graph.root_depth search.old.cx search.old.graph search.old.cache }
    requires clauses { TraitRefsHeld search.old.cx.interner.entries clauses.now }
    requires references { TraitRefsHeld search.old.cx.interner.entries references.now }
    requires unknowns { ArgsHeld search.old.cx.interner.entries unknowns.now }
    ensures rest { SolverRests search.old.graph.root_depth search.new.cx search.new.graph search.new.cache }
    ensures solving { SolvesTheSame search.old.cx search.new.cx }
    ensures keeps { Keeps search.old.cx.interner.entries search.new.cx.interner.entries }
    ensures limits { KeepsLimits search.old.cx search.new.cx }
    ensures held { IfOk result (AnswerValuesHeld search.new.cx.interner.entries) }
    ensures answer { let es = search.old.cx.interner.entries in IfOk result
        (AreAnswered solver_by_view (solving_of es search.old.cx.handler.declarations) search.old.graph.root_depth (map arg_sort unknowns.now)
        (map (goal_of (references_in es clauses.now)) (references_in es references.now)) (map (arg_trees es) unknowns.now)
        search.new.cx.interner.entries) }
    ensures full { IfErr result (ContextFullAtLimit search.new.cx) }
{
    rest_laws::<Solver>();
    let mut table = question_table_in(&mut search.cx, unknowns)?;
    ask_for_all(search, &mut table, clauses, references, unknowns, limit)
}

/// Selects the goals of a query of the context's terms outside coherence, under its where-clauses with all their supertraits.
fn prove_all_lowered(
    search: &mut Search<Solver>,
    lowered: &LoweredQuestion,
    limit: usize,
) -> Result<ProveAnswer, Fault>
    requires rest { SolverRests search.old.graph.root_depth search.old.cx search.old.graph search.old.cache }
    requires lowered { (q : Question) × IsLowered search.old.cx.interner.entries q lowered.now }
    requires applied { AreApplied search.old.cx.interner.entries search.old.cx.handler.declarations lowered.now.clauses.items }
    ensures rest { SolverRests search.old.graph.root_depth search.new.cx search.new.graph search.new.cache }
    ensures solving { SolvesTheSame search.old.cx search.new.cx }
    ensures keeps { Keeps search.old.cx.interner.entries search.new.cx.interner.entries }
    ensures limits { KeepsLimits search.old.cx search.new.cx }
    ensures held { IfOk result (AnswerValuesHeld search.new.cx.interner.entries) }
    ensures answer { IfOk result (λ a. (q : Question) → IsLowered search.old.cx.interner.entries q lowered.now
        → AreAnsweredInSearch (solving_of search.old.cx.interner.entries search.old.cx.handler.declarations) search.old.graph.root_depth q
        search.new.cx.interner.entries a) }
    ensures full { IfErr result (ContextFullAtLimit search.new.cx) }
{
    rest_laws::<Solver>();
    let clauses = elaborate_in(&mut search.cx, &lowered.clauses)?;
    let references = all_asked(search.cx.alloc, lowered)?;
    prove_all_under(search, &clauses, &references, &lowered.unknowns, limit)
}

/// Answers a `prove` query about several trait references. Their goals are selected together outside coherence, under its where-clauses with
/// all their supertraits, over a new table with its variables. At most `limit` answers to each goal may have values.
///
/// Everything stays at rest, after a fault too. Fails with `Memory` if memory is refused, or with `Full` if a table is full.
pub(crate) fn prove_together(
    search: &mut Search<Solver>,
    lowered: &LoweredQuestion,
    limit: usize,
) -> Result<ProveAnswer, Fault>
    requires rest { SolverRests search.old.graph.root_depth search.old.cx search.old.graph search.old.cache }
    requires lowered { (q : Question) × IsLowered search.old.cx.interner.entries q lowered.now }
    requires applied { AreApplied search.old.cx.interner.entries search.old.cx.handler.declarations lowered.now.clauses.items }
    ensures rest { SolverRests search.old.graph.root_depth search.new.cx search.new.graph search.new.cache }
    ensures solving { SolvesTheSame search.old.cx search.new.cx }
    ensures keeps { Keeps search.old.cx.interner.entries search.new.cx.interner.entries }
    ensures limits { KeepsLimits search.old.cx search.new.cx }
    ensures held { IfOk result (AnswerValuesHeld search.new.cx.interner.entries) }
    ensures answer { IfOk result (λ a. (q : Question) → IsLowered search.old.cx.interner.entries q lowered.now
        → AreAnsweredBySolver (solving_of search.old.cx.interner.entries search.old.cx.handler.declarations) search.old.graph.root_depth q
        search.new.cx.interner.entries a) }
    ensures full { IfErr result (ContextFullAtLimit search.new.cx) }
{
    let answer = prove_all_lowered(search, lowered, limit)?;
    let own = own_answer_together(
        search.cx.alloc,
        &search.cx.interner,
        &search.cx.handler.declarations,
        lowered,
        answer,
    )?;
    Ok(own)
}

/// Selects the goals of trait references in coherence, without where-clauses, over their table. `No` if one of them was refused.
///
/// Everything stays at rest, after a fault too. Fails with `Memory` if memory is refused, or with `Full` if a table is full.
fn ask_all_in_coherence<H: GoalHandler>(
    search: &mut Search<H>,
    table: &mut InferCtxt,
    references: &[TraitRef],
    unknowns: &[GenericArgKind],
    limit: usize,
) -> Result<RefuteAnswer, Fault>
    requires rest { AreAtRest H.meaning search.old.graph.root_depth search.old.cx search.old.graph search.old.cache }
    requires ready { Ready search.old.cx.interner.entries table.old }
    requires table { table.old ≡ table_of (map arg_sort unknowns.now) }
    requires references { TraitRefsHeld search.old.cx.interner.entries references.now }
    ensures rest { AreAtRest H.meaning search.old.graph.root_depth search.new.cx search.new.graph search.new.cache }
    ensures meaning { H.meaning.world search.new.cx.handler search.new.cx.interner.entries ≡ H.meaning.world search.old.cx.handler
        search.old.cx.interner.entries }
    ensures keeps { Keeps search.old.cx.interner.entries search.new.cx.interner.entries }
    ensures limits { KeepsLimits search.old.cx search.new.cx }
    ensures no { result ≡ Ok RefuteAnswer.No → let es = search.old.cx.interner.entries in
        AreRefusedAlone H.meaning (H.meaning.world search.old.cx.handler es) search.old.graph.root_depth (map arg_sort unknowns.now)
        (references_in es references.now) }
    ensures full { IfErr result (ContextFullAtLimit search.new.cx) }
{
    rest_laws::<H>();
    references_are_goals();
    let mut goals = obligations_for(search.cx.alloc, &[], references, limit)?;
    search.cache.forget_if_many();
    match goals.select_where_possible(search, table, TypingMode::Coherence)? {
        Selected::Refused(_) => Ok(RefuteAnswer::No),
        Selected::AllDone | Selected::Pending => Ok(RefuteAnswer::Open),
    }
}

/// Answers a `refute` query about several trait references. Their goals are selected together in coherence, over a new table with its
/// variables. At most `limit` answers to each goal may have values.
///
/// Everything stays at rest, after a fault too. Fails with `Memory` if memory is refused, or with `Full` if a table is full.
pub(crate) fn refute_together<H: GoalHandler>(
    search: &mut Search<H>,
    lowered: &LoweredQuestion,
    limit: usize,
) -> Result<RefuteAnswer, Fault>
    requires rest { AreAtRest H.meaning search.old.graph.root_depth search.old.cx search.old.graph search.old.cache }
    requires lowered { (q : Question) × IsLowered search.old.cx.interner.entries q lowered.now }
    ensures rest { AreAtRest H.meaning search.old.graph.root_depth search.new.cx search.new.graph search.new.cache }
    ensures meaning { H.meaning.world search.new.cx.handler search.new.cx.interner.entries ≡ H.meaning.world search.old.cx.handler
        search.old.cx.interner.entries }
    ensures keeps { Keeps search.old.cx.interner.entries search.new.cx.interner.entries }
    ensures limits { KeepsLimits search.old.cx search.new.cx }
    ensures no { result ≡ Ok RefuteAnswer.No → (q : Question) → IsLowered search.old.cx.interner.entries q lowered.now
        → AreRefused H.meaning (H.meaning.world search.old.cx.handler search.old.cx.interner.entries) search.old.graph.root_depth q }
    ensures full { IfErr result (ContextFullAtLimit search.new.cx) }
{
    rest_laws::<H>();
    let references = all_asked(search.cx.alloc, lowered)?;
    let mut table = question_table_in(&mut search.cx, &lowered.unknowns)?;
    ask_all_in_coherence(search, &mut table, &references, &lowered.unknowns, limit)
}
