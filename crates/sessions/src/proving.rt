//! `prove` queries: has a trait reference a proof, by what the crate sees and by the query's where-clauses? For
//! `prove in a <T> V<T>: Show where T: Show` the goal is `V<!0>: Show` under `!0: Show`, with the supertraits of the clause.

ghost use Rattle.std.specs.Prelude.{◌≡◌, [], map, IfOk, IfErr};
ghost use Rattle.type_terms.specs.Promised.Trees.{some_node};
ghost use Rattle.type_terms.specs.Promised.Handles.{ArgsHeld, arg_trees};
ghost use Rattle.type_terms.specs.Promised.Handles.{Has, Keeps, trees_at};
ghost use Rattle.type_terms.specs.Terms.{args_lists};
ghost use Rattle.term_folds.specs.Arguments.{arg_sort};
ghost use Rattle.type_terms.specs.Growth.{FullAtLimit, GrewOrFull};
ghost use Rattle.declarations.specs.Applied.{TraitRefsHeld, AreApplied, references_in};
ghost use Rattle.declarations.specs.Promised.Elaboration.{elaborate};
ghost use Rattle.declarations.specs.Held.{ReferenceHeld};
ghost use Rattle.declarations.specs.Items.{reference_in, written};
ghost use Rattle.infer_table.specs.Content.{Ready};
ghost use Rattle.infer_table.specs.Goals.{GoalHeld, goal_trees};
ghost use Rattle.sessions.specs.Goals.{goal_of};
ghost use Rattle.text_language.specs.Promised.Declarations.{Question};
ghost use Rattle.text_lowering.specs.Promised.Questions.{IsQuestion};
ghost use Rattle.text_lowering.specs.Questions.{IsLowered};
ghost use Rattle.solver_graph.specs.Contexts.{Advances, IsReady, KeepsLimits};
ghost use Rattle.solver_graph.specs.Shortages.{ContextFullAtLimit};
ghost use Rattle.candidate_assembly.specs.Fitting.{solving_of};
ghost use Rattle.candidate_assembly.specs.SolverMeaning.{solver_by_view};
ghost use Rattle.sessions.specs.Frames.{SettlesInFrames, QuestionInFrames};
ghost use Rattle.sessions.specs.Promised.Given.{AnswerValuesHeld};
ghost use Rattle.sessions.specs.Proving.{AreReadOff, ClausesApply, IsAnswered, IsAnsweredInSearch, IsGoalAnswered, SolverAdvances, SolverIsReady, SolvesTheSame, is_bound_term};
ghost use Rattle.sessions.specs.ProvingTogether.{IsQuestionAnswered};
ghost use Rattle.sessions.specs.Questions.{where_clauses};
ghost use Rattle.sessions.specs.Resting.{AreAtRest};
ghost use Rattle.sessions.specs.Sessions.{SolverRests};
ghost use Rattle.sessions.specs.Tables.{table_of};

use crate::answers::ProveAnswer;
use crate::asked::{lower_in, rest_laws};
use crate::laws::references_are_goals;
use crate::own_values::own_answer;
use crate::table::question_table;
use crate::together::{asks_several, prove_together};
use crate::values::values_of;
use candidate_assembly::solver::Solver;
use goal_evaluator::TypingMode;
use goal_frames::GoalHandler;
use infer_table::goal::Goal;
use infer_table::infer_ctxt::InferCtxt;
use solver_graph::{Outcome, Search, SolverCx, ask_until_settled};
use std::alloc::{AllocError, Global};
use term_folds::predicate::{Clause, TraitPredicate, TraitRef};
use text_lowering::LoweredQuestion;
use text_tables::Workspace;
use type_terms::Fault;
use type_terms::flags::TypeFlags;
use type_terms::interner::Interner;
use type_terms::kinds::{GenericArgKind, GenericArgs};
use type_terms::visitable_ext::TypeVisitableExt;

fn where_clauses(alloc: Global, references: &[TraitRef]) -> Result<Vec<Clause>, AllocError>
    ensures { IfOk result (λ v. v.items ≡ where_clauses references.now) }
{
    references
        .iter()
        .map(|reference| {
            Clause::Trait(TraitPredicate {
                trait_ref: *reference,
            })
        })
        .collect(alloc)
}

/// Whether a bound type or a bound constant occurs in the arguments.
pub(crate) fn has_bound_terms(cx: &Interner, args: GenericArgs) -> bool
    requires { Has cx.now.entries args_lists args.0 }
    ensures { result ≡ some_node is_bound_term (trees_at cx.now.entries args.0) }
{
    args.has_type_flags(cx, TypeFlags::HAS_TY_BOUND)
        || args.has_type_flags(cx, TypeFlags::HAS_CT_BOUND)
}

/// The answer for a trait reference, which was proved or not, with the values that the table gives the variables.
///
/// Values in which a type or a constant is bound prove nothing, so then the answer is `Maybe`.
fn read_values(
    alloc: Global,
    cx: &mut Interner,
    table: &InferCtxt,
    is_proved: bool,
    asked: TraitRef,
    unknowns: &[GenericArgKind],
) -> Result<ProveAnswer, Fault>
    requires ready { Ready cx.old.entries table.now }
    requires asked { Has cx.old.entries args_lists asked.args.0 }
    requires unknowns { ArgsHeld cx.old.entries unknowns.now }
    ensures terms { GrewOrFull cx.old cx.new result }
    ensures held { IfOk result (AnswerValuesHeld cx.new.entries) }
    ensures read { IfOk result
        (AreReadOff is_proved cx.old.entries table.now (trees_at cx.old.entries asked.args.0) unknowns.now cx.new.entries) }
{
    let resolved = table.eager_resolve_vars(cx, asked.args)?;
    let has_bound = has_bound_terms(cx, resolved);
    let values = values_of(alloc, cx, table, unknowns)?;
    if is_proved && !has_bound {
        Ok(ProveAnswer::Yes(values))
    } else {
        Ok(ProveAnswer::Maybe(values))
    }
}

/// The same over the interner of a context.
fn read_values_in<H: GoalHandler>(
    cx: &mut SolverCx<H>,
    table: &InferCtxt,
    is_proved: bool,
    asked: TraitRef,
    unknowns: &[GenericArgKind],
) -> Result<ProveAnswer, Fault>
    requires ready { IsReady H.meaning.IsReady cx.old }
    requires table { Ready cx.old.interner.entries table.now }
    requires asked { Has cx.old.interner.entries args_lists asked.args.0 }
    requires unknowns { ArgsHeld cx.old.interner.entries unknowns.now }
    ensures advances { Advances H.meaning.IsReady cx.old cx.new }
    ensures held { IfOk result (AnswerValuesHeld cx.new.interner.entries) }
    ensures read { IfOk result
        (AreReadOff is_proved cx.old.interner.entries table.now (trees_at cx.old.interner.entries asked.args.0) unknowns.now cx.new.interner.entries) }
    ensures full { IfErr result (FullAtLimit cx.new.interner) }
{
    rest_laws::<H>();
    let read = read_values(
        cx.alloc,
        &mut cx.interner,
        table,
        is_proved,
        asked,
        unknowns,
    );
    cx.interner.lawful();
    read
}

/// A table for the variables of a query, over the interner of a context. The errors are those of `question_table`.
pub fn question_table_in<H: GoalHandler>(
    cx: &mut SolverCx<H>,
    unknowns: &[GenericArgKind],
) -> Result<InferCtxt, Fault>
    requires { IsReady H.meaning.IsReady cx.old }
    ensures advances { Advances H.meaning.IsReady cx.old cx.new }
    ensures ready { IfOk result (λ table. Ready cx.new.interner.entries table) }
    ensures is { IfOk result (λ table. table ≡ table_of (map arg_sort unknowns.now)) }
    ensures full { IfErr result (FullAtLimit cx.new.interner) }
{
    rest_laws::<H>();
    let table = question_table(cx.alloc, &mut cx.interner, unknowns);
    cx.interner.lawful();
    table
}

/// Evaluates a query's goal over its table until the answer is definite, and reads the answer.
///
/// Everything stays at rest, after a fault too. Fails with `Memory` if memory is refused, or with `Full` if a table is full.
fn ask_for<H: GoalHandler>(
    search: &mut Search<H>,
    table: &mut InferCtxt,
    goal: &Goal,
    unknowns: &[GenericArgKind],
) -> Result<ProveAnswer, Fault>
    requires rest { AreAtRest H.meaning search.old.graph.root_depth search.old.cx search.old.graph search.old.cache }
    requires ready { Ready search.old.cx.interner.entries table.old }
    requires table { table.old ≡ table_of (map arg_sort unknowns.now) }
    requires goal { GoalHeld search.old.cx.interner.entries goal.now }
    requires unknowns { ArgsHeld search.old.cx.interner.entries unknowns.now }
    ensures rest { AreAtRest H.meaning search.old.graph.root_depth search.new.cx search.new.graph search.new.cache }
    ensures meaning { H.meaning.world search.new.cx.handler search.new.cx.interner.entries ≡ H.meaning.world search.old.cx.handler
        search.old.cx.interner.entries }
    ensures keeps { Keeps search.old.cx.interner.entries search.new.cx.interner.entries }
    ensures limits { KeepsLimits search.old.cx search.new.cx }
    ensures held { IfOk result (AnswerValuesHeld search.new.cx.interner.entries) }
    ensures answer { IfOk result (IsAnswered H.meaning (H.meaning.world search.old.cx.handler search.old.cx.interner.entries) search.old.graph.root_depth
        (map arg_sort unknowns.now) (goal_trees search.old.cx.interner.entries goal.now)
        (map (arg_trees search.old.cx.interner.entries) unknowns.now) search.new.cx.interner.entries) }
    ensures frames { SettlesInFrames H.meaning (H.meaning.world search.old.cx.handler search.old.cx.interner.entries) search.old.graph.root_depth
        (map arg_sort unknowns.now) (goal_trees search.old.cx.interner.entries goal.now) search.old.graph search.new.graph }
    ensures full { IfErr result (ContextFullAtLimit search.new.cx) }
{
    rest_laws::<H>();
    search.cache.forget_if_many();
    match ask_until_settled(search, table, TypingMode::PostAnalysis, goal)? {
        Outcome::Proved => read_values_in(
            &mut search.cx,
            table,
            true,
            goal.predicate.trait_ref,
            unknowns,
        ),
        Outcome::Unproved => Ok(ProveAnswer::Unproved),
        Outcome::Maybe => read_values_in(
            &mut search.cx,
            table,
            false,
            goal.predicate.trait_ref,
            unknowns,
        ),
    }
}

/// The trait references with their supertraits through all levels, over the interner of a solver's context. rustc: `elaborate`.
pub fn elaborate_in(
    cx: &mut SolverCx<Solver>,
    references: &[TraitRef],
) -> Result<Vec<TraitRef>, Fault>
    requires ready { SolverIsReady cx.old }
    requires held { TraitRefsHeld cx.old.interner.entries references.now }
    requires applied { AreApplied cx.old.interner.entries cx.old.handler.declarations references.now }
    ensures advances { SolverAdvances cx.old cx.new }
    ensures held { IfOk result (λ v. TraitRefsHeld cx.new.interner.entries v.items) }
    ensures are { IfOk result (λ v. references_in cx.new.interner.entries v.items
        ≡ elaborate (written cx.old.interner.entries cx.old.handler.declarations) (references_in cx.old.interner.entries references.now)) }
    ensures full { IfErr result (FullAtLimit cx.new.interner) }
{
    rest_laws::<Solver>();
    let declarations = &cx.handler.declarations;
    let elaborated = declarations.elaborate(cx.alloc, &mut cx.interner, references);
    cx.interner.lawful();
    elaborated
}

/// The goal for a trait reference under these where-clauses.
pub fn goal_under(alloc: Global, clauses: &[TraitRef], asked: TraitRef) -> Result<Goal, AllocError>
    ensures clauses { IfOk result (λ goal. goal.param_env.items ≡ where_clauses clauses.now) }
    ensures asked { IfOk result (λ goal. goal.predicate.trait_ref ≡ asked) }
{
    Ok(Goal {
        param_env: where_clauses(alloc, clauses)?,
        predicate: TraitPredicate { trait_ref: asked },
    })
}

/// Evaluates a trait reference outside coherence, under just these where-clauses, over a new table with these variables.
///
/// Everything stays at rest, after a fault too. Fails with `Memory` if memory is refused, or with `Full` if a table is full.
pub(crate) fn prove_under(
    search: &mut Search<Solver>,
    clauses: &[TraitRef],
    asked: TraitRef,
    unknowns: &[GenericArgKind],
) -> Result<ProveAnswer, Fault>
    requires rest { SolverRests search.old.graph.root_depth search.old.cx search.old.graph search.old.cache }
    requires clauses { TraitRefsHeld search.old.cx.interner.entries clauses.now }
    requires asked { ReferenceHeld search.old.cx.interner.entries asked }
    requires unknowns { ArgsHeld search.old.cx.interner.entries unknowns.now }
    ensures rest { SolverRests search.old.graph.root_depth search.new.cx search.new.graph search.new.cache }
    ensures solving { SolvesTheSame search.old.cx search.new.cx }
    ensures keeps { Keeps search.old.cx.interner.entries search.new.cx.interner.entries }
    ensures limits { KeepsLimits search.old.cx search.new.cx }
    ensures held { IfOk result (AnswerValuesHeld search.new.cx.interner.entries) }
    ensures answer { IfOk result
        (IsGoalAnswered (solving_of search.old.cx.interner.entries search.old.cx.handler.declarations) search.old.graph.root_depth (map arg_sort unknowns.now)
        (goal_of (references_in search.old.cx.interner.entries clauses.now) (reference_in search.old.cx.interner.entries asked))
        (map (arg_trees search.old.cx.interner.entries) unknowns.now) search.new.cx.interner.entries) }
    ensures frames { SettlesInFrames solver_by_view
        (solving_of search.old.cx.interner.entries search.old.cx.handler.declarations) search.old.graph.root_depth (map arg_sort unknowns.now)
        (goal_of (references_in search.old.cx.interner.entries clauses.now) (reference_in search.old.cx.interner.entries asked)) search.old.graph
        search.new.graph }
    ensures full { IfErr result (ContextFullAtLimit search.new.cx) }
{
    rest_laws::<Solver>();
    references_are_goals();
    let goal = goal_under(search.cx.alloc, clauses, asked)?;
    let mut table = question_table_in(&mut search.cx, unknowns)?;
    ask_for(search, &mut table, &goal, unknowns)
}

/// Evaluates a query of the context's terms outside coherence, under its where-clauses with all their supertraits.
fn prove_lowered(
    search: &mut Search<Solver>,
    lowered: &LoweredQuestion,
) -> Result<ProveAnswer, Fault>
    requires rest { SolverRests search.old.graph.root_depth search.old.cx search.old.graph search.old.cache }
    requires lowered { (q : Question) × IsLowered search.old.cx.interner.entries q lowered.now }
    requires applied { AreApplied search.old.cx.interner.entries search.old.cx.handler.declarations lowered.now.clauses.items }
    ensures rest { SolverRests search.old.graph.root_depth search.new.cx search.new.graph search.new.cache }
    ensures solving { SolvesTheSame search.old.cx search.new.cx }
    ensures keeps { Keeps search.old.cx.interner.entries search.new.cx.interner.entries }
    ensures limits { KeepsLimits search.old.cx search.new.cx }
    ensures held { IfOk result (AnswerValuesHeld search.new.cx.interner.entries) }
    ensures answer { IfOk result (λ a. (q : Question) → IsLowered search.old.cx.interner.entries q lowered.now
        → IsAnsweredInSearch (solving_of search.old.cx.interner.entries search.old.cx.handler.declarations) search.old.graph.root_depth q
        search.new.cx.interner.entries a) }
    ensures frames { (q : Question) → IsLowered search.old.cx.interner.entries q lowered.now
        → QuestionInFrames (solving_of search.old.cx.interner.entries search.old.cx.handler.declarations) search.old.graph.root_depth q
        search.old.graph search.new.graph }
    ensures full { IfErr result (ContextFullAtLimit search.new.cx) }
{
    rest_laws::<Solver>();
    let clauses = elaborate_in(&mut search.cx, &lowered.clauses)?;
    prove_under(search, &clauses, lowered.asked, &lowered.unknowns)
}

/// Answers the `prove` query with this number: its trait reference is evaluated outside coherence, under its where-clauses with all their
/// supertraits, over a new table with its variables. Several are evaluated together, and at most `limit` answers to each may have values.
///
/// Everything stays at rest, after a fault too. Fails with `Memory` if memory is refused, or with `Full` if a table is full.
pub(crate) fn prove_question(
    search: &mut Search<Solver>,
    workspace: &Workspace,
    number: u32,
    limit: usize,
) -> Result<ProveAnswer, Fault>
    requires rest { SolverRests search.old.graph.root_depth search.old.cx search.old.graph search.old.cache }
    requires question { (q : Question) × IsQuestion workspace.now number q }
    requires applied { (q : Question) → IsQuestion workspace.now number q → ClausesApply search.old.cx.handler.declarations q }
    ensures rest { SolverRests search.old.graph.root_depth search.new.cx search.new.graph search.new.cache }
    ensures solving { SolvesTheSame search.old.cx search.new.cx }
    ensures keeps { Keeps search.old.cx.interner.entries search.new.cx.interner.entries }
    ensures limits { KeepsLimits search.old.cx search.new.cx }
    ensures held { IfOk result (AnswerValuesHeld search.new.cx.interner.entries) }
    ensures answer { IfOk result (λ a. (q : Question) → IsQuestion workspace.now number q
        → IsQuestionAnswered (solving_of search.old.cx.interner.entries search.old.cx.handler.declarations) search.old.graph.root_depth q
        search.new.cx.interner.entries a) }
    ensures frames { (q : Question) → IsQuestion workspace.now number q → q.further ≡ []
        → QuestionInFrames (solving_of search.old.cx.interner.entries search.old.cx.handler.declarations) search.old.graph.root_depth q
        search.old.graph search.new.graph }
    ensures full { IfErr result (ContextFullAtLimit search.new.cx) }
{
    rest_laws::<Solver>();
    let lowered = lower_in(&mut search.cx, workspace, number)?;
    if asks_several(&lowered) {
        return prove_together(search, &lowered, limit);
    }
    let answer = prove_lowered(search, &lowered)?;
    let own = own_answer(
        search.cx.alloc,
        &search.cx.interner,
        &search.cx.handler.declarations,
        &lowered,
        answer,
    )?;
    Ok(own)
}
