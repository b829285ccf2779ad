//! `refute` queries: is it certain that a trait reference has no proof in any linked set with the crate? For `refute in a V<?x>: Show` the
//! goal is `V<?x>: Show` in coherence, where crates outside the view may have impls.

ghost use Rattle.std.specs.Prelude.{◌≡◌, [], true, Ok, Err, OnOk, IfErr};
ghost use Rattle.type_terms.specs.Made.{terms, is_made, is_in_range};
ghost use Rattle.type_terms.specs.Promised.Handles.{Has, Keeps};
ghost use Rattle.type_terms.specs.Terms.{args_lists};
ghost use Rattle.declarations.specs.Items.{reference_in};
ghost use Rattle.infer_table.specs.Content.{Ready, variables_of};
ghost use Rattle.infer_table.specs.Covers.{AreKnown};
ghost use Rattle.infer_table.specs.Canonical.{HasNoCanonical};
ghost use Rattle.text_language.specs.Promised.Declarations.{Question};
ghost use Rattle.text_lowering.specs.Promised.SeenWorlds.{unbound_reference};
ghost use Rattle.text_lowering.specs.Promised.Questions.{IsQuestion};
ghost use Rattle.text_lowering.specs.Questions.{IsLowered};
ghost use Rattle.text_lowering.specs.QuestionVariables.{HasVariablesAlone};
ghost use Rattle.sessions.specs.Asking.{HasNoProof, IsLeftOpen, IsRefusedAlone, goal_alone};
ghost use Rattle.sessions.specs.Frames.{StartsFramesOfOne};
ghost use Rattle.sessions.specs.ProvingTogether.{AreRefused};
ghost use Rattle.pair_checks.specs.Impossible.{IsNoRefusal};
ghost use Rattle.sessions.specs.Resting.{AreAtRest};
ghost use Rattle.solver_graph.specs.Contexts.{KeepsLimits};
ghost use Rattle.solver_graph.specs.Shortages.{ContextFullAtLimit};

use crate::answers::RefuteAnswer;
use crate::asked::{lower_in, rest_laws};
use crate::proving::question_table_in;
use crate::together::{asks_several, refute_together};
use goal_evaluator::TypingMode;
use goal_frames::GoalHandler;
use infer_table::goal::Goal;
use infer_table::infer_ctxt::InferCtxt;
use solver_graph::{GoalEvaluation, RootError, Search};
use term_folds::predicate::{TraitPredicate, TraitRef};
use text_lowering::LoweredQuestion;
use text_tables::Workspace;
use type_terms::Fault;

/// Evaluates a trait reference in coherence, without where-clauses, over a table without values.
///
/// A conflict refuses nothing. Fails with `Memory` if memory is refused, or with `Full` if a table is full.
fn ask_in_coherence<H: GoalHandler>(
    search: &mut Search<H>,
    table: &mut InferCtxt,
    asked: TraitRef,
) -> Result<RefuteAnswer, Fault>
    requires rest { AreAtRest H.meaning search.old.graph.root_depth search.old.cx search.old.graph search.old.cache }
    requires table { Ready search.old.cx.interner.entries table.old }
    requires no_values { table.old.values ≡ [] }
    requires held { Has search.old.cx.interner.entries args_lists asked.args.0 }
    ensures rest { AreAtRest H.meaning search.old.graph.root_depth search.new.cx search.new.graph search.new.cache }
    ensures meaning { H.meaning.world search.new.cx.handler search.new.cx.interner.entries ≡ H.meaning.world search.old.cx.handler
        search.old.cx.interner.entries }
    ensures keeps { Keeps search.old.cx.interner.entries search.new.cx.interner.entries }
    ensures limits { KeepsLimits search.old.cx search.new.cx }

    // A trait reference that is refused has no proof, if it has variables of the table alone.
    ensures no { result ≡ Ok RefuteAnswer.No → let r = reference_in search.old.cx.interner.entries asked in HasNoCanonical r.args
        → AreKnown (variables_of table.old) r.args
        → HasNoProof (H.meaning.goals.handled (H.meaning.world search.old.cx.handler search.old.cx.interner.entries)) (goal_alone r) }
    ensures refused { result ≡ Ok RefuteAnswer.No → (let w = H.meaning.world search.old.cx.handler search.old.cx.interner.entries in
        IsRefusedAlone H.meaning w search.old.graph.root_depth (reference_in search.old.cx.interner.entries asked)) }
    ensures open { result ≡ Ok RefuteAnswer.Open → (let w = H.meaning.world search.old.cx.handler search.old.cx.interner.entries in
        IsLeftOpen H.meaning w search.old.graph.root_depth (reference_in search.old.cx.interner.entries asked)) }

    // After a fault too.
    ensures frames { let es = search.old.cx.interner.entries in
        StartsFramesOfOne H.meaning (H.meaning.world search.old.cx.handler es) (reference_in es asked) search.old.graph search.new.graph }
    ensures full { IfErr result (ContextFullAtLimit search.new.cx) }
{
    let goal = Goal {
        param_env: Vec::new(search.cx.alloc),
        predicate: TraitPredicate { trait_ref: asked },
    };
    search.cache.forget_if_many();
    let evaluated = search.evaluate(table, TypingMode::Coherence, &goal);
    answer_of(evaluated)
}

/// The answer for an evaluation in coherence: `No` if there is no solution, and `Open` otherwise, after a conflict too.
fn answer_of(evaluated: Result<GoalEvaluation, RootError>) -> Result<RefuteAnswer, Fault>
    ensures no { result ≡ Ok RefuteAnswer.No → evaluated ≡ Err RootError.NoSolution }
    ensures open { result ≡ Ok RefuteAnswer.Open → IsNoRefusal evaluated }
    ensures fault { IfErr result (λ fault. evaluated ≡ Err (RootError.Fault fault)) }
{
    match evaluated {
        Ok(_) => Ok(RefuteAnswer::Open),
        Err(RootError::NoSolution) => Ok(RefuteAnswer::No),
        Err(RootError::Conflict) => Ok(RefuteAnswer::Open),
        Err(RootError::Fault(fault)) => Err(fault),
    }
}

/// Evaluates a query of the context's terms in coherence, over a new table.
fn refute_lowered<H: GoalHandler>(
    search: &mut Search<H>,
    lowered: &LoweredQuestion,
) -> Result<RefuteAnswer, Fault>
    requires rest { AreAtRest H.meaning search.old.graph.root_depth search.old.cx search.old.graph search.old.cache }
    requires lowered { (q : Question) × IsLowered search.old.cx.interner.entries q lowered.now }
    ensures rest { AreAtRest H.meaning search.old.graph.root_depth search.new.cx search.new.graph search.new.cache }
    ensures meaning { H.meaning.world search.new.cx.handler search.new.cx.interner.entries ≡ H.meaning.world search.old.cx.handler
        search.old.cx.interner.entries }
    ensures keeps { Keeps search.old.cx.interner.entries search.new.cx.interner.entries }
    ensures limits { KeepsLimits search.old.cx search.new.cx }
    ensures no { result ≡ Ok RefuteAnswer.No → (q : Question) → IsLowered search.old.cx.interner.entries q lowered.now → HasVariablesAlone q
        → HasNoProof (H.meaning.goals.handled (H.meaning.world search.old.cx.handler search.old.cx.interner.entries)) (goal_alone (unbound_reference q.asked)) }
    ensures refused { result ≡ Ok RefuteAnswer.No → (q : Question) → IsLowered search.old.cx.interner.entries q lowered.now
        → IsRefusedAlone H.meaning (H.meaning.world search.old.cx.handler search.old.cx.interner.entries) search.old.graph.root_depth
        (unbound_reference q.asked) }
    ensures open { result ≡ Ok RefuteAnswer.Open → (q : Question) → IsLowered search.old.cx.interner.entries q lowered.now
        → IsLeftOpen H.meaning (H.meaning.world search.old.cx.handler search.old.cx.interner.entries) search.old.graph.root_depth (unbound_reference q.asked) }
    ensures frames { (q : Question) → IsLowered search.old.cx.interner.entries q lowered.now
        → StartsFramesOfOne H.meaning (H.meaning.world search.old.cx.handler search.old.cx.interner.entries) (unbound_reference q.asked)
        search.old.graph search.new.graph }
    ensures full { IfErr result (ContextFullAtLimit search.new.cx) }
{
    rest_laws::<H>();
    let mut table = question_table_in(&mut search.cx, &lowered.unknowns)?;
    ask_in_coherence(search, &mut table, lowered.asked)
}

/// Answers the `refute` query with this number: its trait reference is evaluated in coherence, over a new table with its variables.
/// Several are evaluated together, and at most `limit` answers to each may have values.
///
/// Everything stays at rest, after a fault too. Fails with `Memory` if memory is refused, or with `Full` if a table is full.
pub(crate) fn refute_question<H: GoalHandler>(
    search: &mut Search<H>,
    workspace: &Workspace,
    number: u32,
    limit: usize,
) -> Result<RefuteAnswer, Fault>
    requires rest { AreAtRest H.meaning search.old.graph.root_depth search.old.cx search.old.graph search.old.cache }
    requires question { (q : Question) × IsQuestion workspace.now number q }
    ensures rest { AreAtRest H.meaning search.old.graph.root_depth search.new.cx search.new.graph search.new.cache }
    ensures meaning { H.meaning.world search.new.cx.handler search.new.cx.interner.entries ≡ H.meaning.world search.old.cx.handler
        search.old.cx.interner.entries }
    ensures keeps { Keeps search.old.cx.interner.entries search.new.cx.interner.entries }
    ensures limits { KeepsLimits search.old.cx search.new.cx }

    // The trait reference is made as an interner's terms are.
    ensures made { OnOk result ((q : Question) → IsQuestion workspace.now number q → is_made is_in_range terms (unbound_reference q.asked).args ≡ true) }
    ensures no { result ≡ Ok RefuteAnswer.No → (q : Question) → IsQuestion workspace.now number q → q.further ≡ [] → HasVariablesAlone q
        → HasNoProof (H.meaning.goals.handled (H.meaning.world search.old.cx.handler search.old.cx.interner.entries)) (goal_alone (unbound_reference q.asked)) }
    ensures refused { result ≡ Ok RefuteAnswer.No → (q : Question) → IsQuestion workspace.now number q → q.further ≡ []
        → IsRefusedAlone H.meaning (H.meaning.world search.old.cx.handler search.old.cx.interner.entries) search.old.graph.root_depth
        (unbound_reference q.asked) }
    ensures open { result ≡ Ok RefuteAnswer.Open → (q : Question) → IsQuestion workspace.now number q → q.further ≡ []
        → IsLeftOpen H.meaning (H.meaning.world search.old.cx.handler search.old.cx.interner.entries) search.old.graph.root_depth (unbound_reference q.asked) }
    ensures together { result ≡ Ok RefuteAnswer.No → (q : Question) → IsQuestion workspace.now number q → (q.further ≡ [] → ⊥)
        → AreRefused H.meaning (H.meaning.world search.old.cx.handler search.old.cx.interner.entries) search.old.graph.root_depth q }
    ensures frames { (q : Question) → IsQuestion workspace.now number q → q.further ≡ []
        → StartsFramesOfOne H.meaning (H.meaning.world search.old.cx.handler search.old.cx.interner.entries) (unbound_reference q.asked)
        search.old.graph search.new.graph }
    ensures full { IfErr result (ContextFullAtLimit search.new.cx) }
{
    rest_laws::<H>();
    let lowered = lower_in(&mut search.cx, workspace, number)?;
    if asks_several(&lowered) {
        return refute_together(search, &lowered, limit);
    }
    refute_lowered(search, &lowered)
}
