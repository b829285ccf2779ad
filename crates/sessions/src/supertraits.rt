//! Whether the supertraits of an impl's header have proofs from its where-clauses. For `trait Sub: Sup` and
//! `impl<T> Sub for V<T> where T: Sub`, the goal is `V<!0>: Sup` under `!0: Sub` and `!0: Sup`.

ghost use Rattle.std.specs.Prelude.{ℕ, IfOk, IfErr};
ghost use Rattle.type_terms.specs.Promised.Handles.{Keeps};
ghost use Rattle.type_terms.specs.Growth.{FullAtLimit, GrewOrFull};
ghost use Rattle.declarations.specs.Applied.{TraitRefsHeld, references_in};
ghost use Rattle.declarations.specs.Held.{ImplHeld, ReferenceHeld};
ghost use Rattle.declarations.specs.Items.{reference_in, written};
ghost use Rattle.overlap_check.specs.Written.{IsWrittenWell};
ghost use Rattle.candidate_assembly.specs.Fitting.{solving_of};
ghost use Rattle.candidate_assembly.specs.Ready.{AreReadyDeclarations};
ghost use Rattle.text_language.specs.Promised.Declarations as text;
ghost use Rattle.sessions.specs.Proving.{SolverAdvances, SolverIsReady, SolvesTheSame};
ghost use Rattle.sessions.specs.Sessions.{SolverRests, IsSession};
ghost use Rattle.sessions.specs.Supertraits.{AreGoalsFor, AreOfOwn, HasApplied, ImplsApply, IsCheckedAt, IsHeaderTold, SolverTells};
ghost use Rattle.solver_graph.specs.Contexts.{KeepsLimits};
ghost use Rattle.solver_graph.specs.Shortages.{ContextFullAtLimit};

use crate::answers::ProveAnswer;
use crate::asked::rest_laws;
use crate::laws::{ready_impls_are_written_well, supertraits_are_told};
use crate::placeholders::{next_number, opaque_impl};
use crate::proving::prove_under;
use candidate_assembly::solver::Solver;
use declarations::declarations::Declarations;
use declarations::items::ImplDef;
use solver_graph::{Outcome, Search, SolverCx};
use std::alloc::Global;
use term_folds::predicate::TraitRef;
use type_terms::interner::Interner;
use type_terms::{Fault, ImplId};

/// The goals of an impl: the strict supertraits of its header, each once, under its where-clauses with all their supertraits. Its
/// parameters are placeholders in all of them.
#[derive(Drop)]
pub struct SupertraitGoals {
    pub supertraits: Vec<TraitRef>,
    pub clauses: Vec<TraitRef>,
}

/// How the supertraits of one header are answered. They count from 1.
#[derive(Clone, Copy)]
pub(crate) enum HeaderAnswer {
    /// Each has a proof.
    Held,
    /// Those before this one have proofs, and the search found none of this one.
    Missing(u32),
    /// Those before this one have proofs, and the search does not know about this one.
    Undecided(u32),
}

/// The goals of an impl. The header is none of the where-clauses. Fails with `Memory` if memory is refused, or with `Full` if a table is
/// full.
fn goals_of(
    alloc: Global,
    cx: &mut Interner,
    declarations: &Declarations,
    def: &ImplDef,
) -> Result<SupertraitGoals, Fault>
    requires ready { AreReadyDeclarations cx.old.entries declarations.now }
    requires held { ImplHeld cx.old.entries def.now }
    requires written { IsWrittenWell cx.old.entries def.now }
    requires applied { HasApplied declarations.now (reference_in cx.old.entries def.now.header) (references_in cx.old.entries def.now.clauses.items) }
    ensures terms { GrewOrFull cx.old cx.new result }
    ensures are { IfOk result (AreGoalsFor (written cx.old.entries declarations.now)
        (reference_in cx.old.entries def.now.header) (references_in cx.old.entries def.now.clauses.items) cx.new.entries) }
{
    let opaque = opaque_impl(alloc, cx, def)?;
    let supertraits = declarations.supertraits(alloc, cx, opaque.header)?;
    let clauses = declarations.elaborate(alloc, cx, &opaque.clauses)?;
    Ok(SupertraitGoals {
        supertraits,
        clauses,
    })
}

/// The goals of the impl with this number, if it is of the local crate. Fails with `Memory` if memory is refused, or with `Full` if a table
/// is full.
fn own_goals(
    alloc: Global,
    cx: &mut Interner,
    declarations: &Declarations,
    id: ImplId,
) -> Result<Option<SupertraitGoals>, Fault>
    requires ready { AreReadyDeclarations cx.old.entries declarations.now }
    requires applied { ImplsApply declarations.now (written cx.old.entries declarations.now) }
    ensures terms { GrewOrFull cx.old cx.new result }
    ensures goals { IfOk result (AreOfOwn (written cx.old.entries declarations.now) declarations.now.local id.index cx.new.entries) }
{
    ready_impls_are_written_well();
    let Some(def) = declarations.impl_def(id) else {
        return Ok(None);
    };
    if declarations.is_local(def.home) {
        let goals = goals_of(alloc, cx, declarations, def)?;
        Ok(Some(goals))
    } else {
        Ok(None)
    }
}

/// The same over the interner of a solver's context.
pub fn own_goals_in(cx: &mut SolverCx<Solver>, id: ImplId) -> Result<Option<SupertraitGoals>, Fault>
    requires ready { SolverIsReady cx.old }
    requires applied { ImplsApply cx.old.handler.declarations (written cx.old.interner.entries cx.old.handler.declarations) }
    ensures advances { SolverAdvances cx.old cx.new }
    ensures goals { IfOk result
        (AreOfOwn (written cx.old.interner.entries cx.old.handler.declarations) cx.old.handler.declarations.local id.index cx.new.interner.entries) }
    ensures full { IfErr result (FullAtLimit cx.new.interner) }
{
    rest_laws::<Solver>();
    let declarations = &cx.handler.declarations;
    let goals = own_goals(cx.alloc, &mut cx.interner, declarations, id);
    cx.interner.lawful();
    goals
}

/// Evaluates a trait reference without variables outside coherence, under just these where-clauses.
///
/// Everything stays at rest, after a fault too. Fails with `Memory` if memory is refused, or with `Full` if a table is full.
fn ask_under(
    search: &mut Search<Solver>,
    clauses: &[TraitRef],
    asked: TraitRef,
) -> Result<Outcome, Fault>
    requires rest { SolverRests search.old.graph.root_depth search.old.cx search.old.graph search.old.cache }
    requires clauses { TraitRefsHeld search.old.cx.interner.entries clauses.now }
    requires asked { ReferenceHeld search.old.cx.interner.entries asked }
    ensures rest { SolverRests search.old.graph.root_depth search.new.cx search.new.graph search.new.cache }
    ensures solving { SolvesTheSame search.old.cx search.new.cx }
    ensures keeps { Keeps search.old.cx.interner.entries search.new.cx.interner.entries }
    ensures limits { KeepsLimits search.old.cx search.new.cx }
    ensures told { IfOk result (SolverTells (solving_of search.old.cx.interner.entries search.old.cx.handler.declarations) search.old.graph.root_depth
        (references_in search.old.cx.interner.entries clauses.now) (reference_in search.old.cx.interner.entries asked)) }
    ensures full { IfErr result (ContextFullAtLimit search.new.cx) }
{
    match prove_under(search, clauses, asked, &[])? {
        ProveAnswer::Yes(_) => Ok(Outcome::Proved),
        ProveAnswer::Unproved => Ok(Outcome::Unproved),
        ProveAnswer::Maybe(_) => Ok(Outcome::Maybe),
    }
}

/// Evaluates each supertrait in turn, up to the first that is not proved.
///
/// Everything stays at rest, after a fault too. Fails with `Memory` if memory is refused, or with `Full` if a table is full.
fn first_unproved(
    search: &mut Search<Solver>,
    goals: &SupertraitGoals,
) -> Result<HeaderAnswer, Fault>
    requires rest { SolverRests search.old.graph.root_depth search.old.cx search.old.graph search.old.cache }
    requires supertraits { TraitRefsHeld search.old.cx.interner.entries goals.now.supertraits.items }
    requires clauses { TraitRefsHeld search.old.cx.interner.entries goals.now.clauses.items }
    ensures rest { SolverRests search.old.graph.root_depth search.new.cx search.new.graph search.new.cache }
    ensures solving { SolvesTheSame search.old.cx search.new.cx }
    ensures keeps { Keeps search.old.cx.interner.entries search.new.cx.interner.entries }
    ensures limits { KeepsLimits search.old.cx search.new.cx }
    ensures told { IfOk result (IsHeaderTold (solving_of search.old.cx.interner.entries search.old.cx.handler.declarations) search.old.graph.root_depth
        (references_in search.old.cx.interner.entries goals.now.clauses.items) (references_in search.old.cx.interner.entries goals.now.supertraits.items)) }
    ensures full { IfErr result (ContextFullAtLimit search.new.cx) }
{
    let mut place = 0;
    for supertrait in &goals.supertraits {
        place = next_number(place)?;
        match ask_under(search, &goals.clauses, *supertrait)? {
            Outcome::Proved => {}
            Outcome::Unproved => return Ok(HeaderAnswer::Missing(place)),
            Outcome::Maybe => return Ok(HeaderAnswer::Undecided(place)),
        }
    }
    Ok(HeaderAnswer::Held)
}

/// How the supertraits of the header of the impl with this number are answered, if it is of the local crate. Those of another impl are not
/// evaluated.
///
/// Everything stays at rest, after a fault too. Fails with `Memory` if memory is refused, or with `Full` if a table is full.
pub(crate) fn header_answer_at(
    search: &mut Search<Solver>,
    id: ImplId,
) -> Result<HeaderAnswer, Fault>
    requires rest { SolverRests search.old.graph.root_depth search.old.cx search.old.graph search.old.cache }
    requires applied { ImplsApply search.old.cx.handler.declarations (written search.old.cx.interner.entries search.old.cx.handler.declarations) }
    ensures rest { SolverRests search.old.graph.root_depth search.new.cx search.new.graph search.new.cache }
    ensures solving { SolvesTheSame search.old.cx search.new.cx }
    ensures keeps { Keeps search.old.cx.interner.entries search.new.cx.interner.entries }
    ensures limits { KeepsLimits search.old.cx search.new.cx }
    ensures checked { (d : text.Declarations) (c depth : ℕ) → IsSession d c depth search.old.cx search.old.graph search.old.cache → IfOk result
        (IsCheckedAt depth d c id.index) }
    ensures full { IfErr result (ContextFullAtLimit search.new.cx) }
{
    rest_laws::<Solver>();
    supertraits_are_told();
    let Some(goals) = own_goals_in(&mut search.cx, id)? else {
        return Ok(HeaderAnswer::Held);
    };
    first_unproved(search, &goals)
}
