//! The steps of a proof that a trace found. How they are found needs no proof, because the checker accepts or refuses them.

ghost use Rattle.std.specs.Prelude.{IfOk, IfSome};
ghost use Rattle.sessions.specs.TypeTerms.Promised.Handles.{Has};
ghost use Rattle.sessions.specs.TypeTerms.Terms.{args_lists};
ghost use Rattle.sessions.specs.TypeTerms.Growth.{Grew};
ghost use Rattle.sessions.specs.Declarations.Applied.{TraitRefsHeld, HaveBounds};
ghost use Rattle.sessions.specs.Declarations.Held.{AreHeld, ImplHeld, ReferenceHeld};
ghost use Rattle.sessions.specs.Declarations.Promised.Elaboration.{Each};
ghost use Rattle.sessions.specs.InferTable.Content.{Ready};
ghost use Rattle.sessions.specs.CandidateAssembly.Ready.{AreReadyDeclarations};
ghost use Rattle.sessions.specs.OverlapCheck.Written.{IsWrittenWell};
ghost use Rattle.sessions.specs.ProofChecker.Steps.{StepHeld, WayHeld};
ghost use Rattle.explain_traces.specs.Walking.{ReferencesHeld};
ghost use Rattle.sessions.specs.Proving.{SolverAdvances, SolverIsReady};
ghost use Rattle.explain_sessions.specs.Shown.{AreShownPremises, ShowsItsSteps, StepIsShown, StepsAreShown};
ghost use Rattle.explain_sessions.specs.Walked.{ProofWalkHeld};

use crate::headers::args_where_equal;
use crate::places::reference_at;
use crate::shown::shown_steps;
use crate::walks::{ProofWalk, ShownStep};
use explain_traces::GoalWalk;
use sessions::candidate_assembly::solver::Solver;
use sessions::declarations::declarations::Declarations;
use sessions::declarations::items::ImplDef;
use sessions::goal_evaluator::CandidateSource;
use sessions::infer_table::infer_ctxt::InferCtxt;
use sessions::overlap_check::header::{ImplHeader, fresh_impl_header};
use sessions::proof_checker::rows::by_built_in;
use sessions::proof_checker::rules::by_clause;
use sessions::proof_checker::steps::{ImplSource, Step, Way};
use sessions::proof_checker::supertraits::by_supertrait;
use sessions::ready_impls_are_written_well;
use sessions::solver_graph::SolverCx;
use sessions::term_folds::predicate::TraitRef;
use sessions::type_terms::interner::Interner;
use sessions::type_terms::kinds::GenericArgs;
use sessions::type_terms::{Fault, ImplId};
use std::alloc::{AllocError, Global};

/// The arguments with which the header of an impl is the trait reference. `None` if there are none.
pub(crate) fn impl_args(
    alloc: Global,
    cx: &mut Interner,
    table: &mut InferCtxt,
    def: &ImplDef,
    reference: TraitRef,
) -> Result<Option<GenericArgs>, Fault>
    requires table { Ready cx.old.entries table.old }
    requires held { ImplHeld cx.old.entries def.now }
    requires written { IsWrittenWell cx.old.entries def.now }
    requires reference { ReferenceHeld cx.old.entries reference }
    ensures table { Ready cx.new.entries table.new }
    ensures grew { Grew cx.old cx.new }
    ensures held { IfOk result (λ o. IfSome o (λ a. Has cx.new.entries args_lists a.0)) }
{
    let header = fresh_impl_header(alloc, cx, table, def)?;
    let asked = ImplHeader {
        impl_args: header.impl_args,
        trait_ref: reference,
    };
    args_where_equal(alloc, cx, table, header, asked, header.impl_args)
}

/// The rule instance by an impl, if its header can be the trait reference.
fn impl_way(
    alloc: Global,
    cx: &mut Interner,
    declarations: &Declarations,
    table: &mut InferCtxt,
    id: ImplId,
    reference: TraitRef,
) -> Result<Way, Fault>
    requires ready { AreReadyDeclarations cx.old.entries declarations.now }
    requires table { Ready cx.old.entries table.old }
    requires reference { ReferenceHeld cx.old.entries reference }
    ensures grew { Grew cx.old cx.new }
    ensures table { Ready cx.new.entries table.new }
    ensures held { IfOk result (WayHeld cx.new.entries) }
{
    ready_impls_are_written_well();
    let Some(def) = declarations.impl_def(id) else {
        return Ok(Way::Assumed);
    };
    match impl_args(alloc, cx, table, def, reference)? {
        Some(args) => Ok(Way::Impl(ImplSource {
            impl_def_id: id,
            args,
        })),
        None => Ok(Way::Assumed),
    }
}

/// The index of the first where-clause that is the trait reference.
fn clause_place(
    alloc: Global,
    cx: &mut Interner,
    clauses: &[TraitRef],
    reference: TraitRef,
) -> Result<Option<usize>, Fault>
    requires clauses { TraitRefsHeld cx.old.entries clauses.now }
    requires reference { ReferenceHeld cx.old.entries reference }
    ensures grew { Grew cx.old cx.new }
{
    for place in 0..clauses.len() {
        if by_clause(alloc, cx, clauses, reference, place)? {
            return Ok(Some(place));
        }
    }
    Ok(None)
}

/// The index of the first where-clause that has the trait reference as a supertrait.
fn supertrait_place(
    alloc: Global,
    cx: &mut Interner,
    declarations: &Declarations,
    clauses: &[TraitRef],
    reference: TraitRef,
) -> Result<Option<usize>, Fault>
    requires declared { AreHeld cx.old.entries declarations.now }
    requires bounds { HaveBounds cx.old.entries declarations.now }
    requires clauses { TraitRefsHeld cx.old.entries clauses.now }
    requires reference { ReferenceHeld cx.old.entries reference }
    ensures grew { Grew cx.old cx.new }
{
    for place in 0..clauses.len() {
        if by_supertrait(alloc, cx, declarations, clauses, reference, place)? {
            return Ok(Some(place));
        }
    }
    Ok(None)
}

/// The rule instance by a where-clause, if the trait reference is one, or a supertrait of one.
fn clause_way(
    alloc: Global,
    cx: &mut Interner,
    declarations: &Declarations,
    clauses: &[TraitRef],
    reference: TraitRef,
) -> Result<Way, Fault>
    requires declared { AreHeld cx.old.entries declarations.now }
    requires bounds { HaveBounds cx.old.entries declarations.now }
    requires clauses { TraitRefsHeld cx.old.entries clauses.now }
    requires reference { ReferenceHeld cx.old.entries reference }
    ensures grew { Grew cx.old cx.new }
    ensures held { IfOk result (WayHeld cx.new.entries) }
{
    if let Some(place) = clause_place(alloc, cx, clauses, reference)? {
        return Ok(Way::Clause(place));
    }
    match supertrait_place(alloc, cx, declarations, clauses, reference)? {
        Some(place) => Ok(Way::Supertrait(place)),
        None => Ok(Way::Assumed),
    }
}

/// The rule instance by a built-in rule, if one that is checked concludes the trait reference.
fn row_way(
    alloc: Global,
    cx: &mut Interner,
    declarations: &Declarations,
    reference: TraitRef,
) -> Result<Way, Fault>
    requires declared { AreHeld cx.old.entries declarations.now }
    requires reference { ReferenceHeld cx.old.entries reference }
    ensures grew { Grew cx.old cx.new }
    ensures held { IfOk result (WayHeld cx.new.entries) }
{
    match by_built_in(alloc, cx, declarations, reference)? {
        Some(_) => Ok(Way::BuiltIn),
        None => Ok(Way::Assumed),
    }
}

/// The rule instance by which a candidate concludes a trait reference. If the checker has no rule for it, or if there is no candidate, it
/// is assumed.
fn way_by(
    cx: &mut Interner,
    declarations: &Declarations,
    table: &mut InferCtxt,
    clauses: &[TraitRef],
    reference: TraitRef,
    source: Option<CandidateSource>,
) -> Result<Way, Fault>
    requires ready { AreReadyDeclarations cx.old.entries declarations.now }
    requires table { Ready cx.old.entries table.old }
    requires clauses { TraitRefsHeld cx.old.entries clauses.now }
    requires reference { ReferenceHeld cx.old.entries reference }
    ensures grew { Grew cx.old cx.new }
    ensures table { Ready cx.new.entries table.new }
    ensures held { IfOk result (WayHeld cx.new.entries) }
{
    let alloc = cx.allocator();
    match source {
        Some(CandidateSource::Impl(id)) => {
            impl_way(alloc, cx, declarations, table, id, reference)
        }
        Some(CandidateSource::ParamEnv(_)) => {
            clause_way(alloc, cx, declarations, clauses, reference)
        }
        Some(CandidateSource::BuiltinImpl(_)) => row_way(alloc, cx, declarations, reference),
        Some(CandidateSource::CoherenceUnknowable) => Ok(Way::Assumed),
        None => Ok(Way::Assumed),
    }
}

/// The source of the first candidate of the goal at this index. `None` if its proof is not displayed.
fn source_at(walk: &GoalWalk, place: usize) -> Option<CandidateSource> {
    match walk.node(place) {
        Some(node) => match node.candidates.first() {
            Some(candidate) => Some(candidate.source),
            None => None,
        },
        None => None,
    }
}

/// The premises of a step by a rule instance. The checker has premises for impls and built-in rules alone.
fn premises_by(alloc: Global, way: Way, shown: &ShownStep) -> Result<Vec<usize>, AllocError>
    ensures { IfOk result (λ ps. AreShownPremises way ps.items shown.now.premises.items) }
{
    match way {
        Way::Impl(_) => Vec::from_slice(alloc, &shown.premises),
        Way::BuiltIn => Vec::from_slice(alloc, &shown.premises),
        Way::Clause(_) => Ok(Vec::new(alloc)),
        Way::Supertrait(_) => Ok(Vec::new(alloc)),
        Way::Assumed => Ok(Vec::new(alloc)),
    }
}

/// The step that is displayed like this. `None` if the trace has no such index.
fn step_of(
    cx: &mut Interner,
    declarations: &Declarations,
    table: &mut InferCtxt,
    clauses: &[TraitRef],
    walk: &GoalWalk,
    shown: &ShownStep,
) -> Result<Option<Step>, Fault>
    requires ready { AreReadyDeclarations cx.old.entries declarations.now }
    requires table { Ready cx.old.entries table.old }
    requires clauses { TraitRefsHeld cx.old.entries clauses.now }
    requires walked { ReferencesHeld cx.old.entries walk.now.references.items }
    ensures grew { Grew cx.old cx.new }
    ensures table { Ready cx.new.entries table.new }
    ensures held { IfOk result (λ o. IfSome o (StepHeld cx.new.entries)) }
    ensures shown { IfOk result (λ o. IfSome o (λ s. StepIsShown walk.now.references.items s shown.now)) }
{
    let alloc = cx.allocator();
    let Some(reference) = reference_at(&walk.references, shown.place) else {
        return Ok(None);
    };
    let source = source_at(walk, shown.place);
    let way = way_by(cx, declarations, table, clauses, reference, source)?;
    let premises = premises_by(alloc, way, shown)?;
    Ok(Some(Step {
        reference,
        way,
        premises,
    }))
}

/// The steps that are displayed like this, in order. `None` if the trace lacks one of the indices.
fn steps_of(
    cx: &mut Interner,
    declarations: &Declarations,
    table: &mut InferCtxt,
    clauses: &[TraitRef],
    walk: &GoalWalk,
    shown: &[ShownStep],
) -> Result<Option<Vec<Step>>, Fault>
    requires ready { AreReadyDeclarations cx.old.entries declarations.now }
    requires table { Ready cx.old.entries table.old }
    requires clauses { TraitRefsHeld cx.old.entries clauses.now }
    requires walked { ReferencesHeld cx.old.entries walk.now.references.items }
    ensures grew { Grew cx.old cx.new }
    ensures held { IfOk result (λ o. IfSome o (λ v. Each (StepHeld cx.new.entries) v.items)) }
    ensures shown { IfOk result (λ o. IfSome o (λ v. StepsAreShown walk.now.references.items v.items shown.now)) }
{
    let alloc = cx.allocator();
    let mut steps = Vec::new(alloc);
    for next in shown {
        match step_of(cx, declarations, table, clauses, walk, next)? {
            Some(step) => steps.push(step)?,
            None => return Ok(None),
        }
    }
    Ok(Some(steps))
}

/// The same over the interner of a context.
pub(crate) fn steps_in(
    cx: &mut SolverCx<Solver>,
    table: &mut InferCtxt,
    clauses: &[TraitRef],
    walk: &GoalWalk,
    shown: &[ShownStep],
) -> Result<Option<Vec<Step>>, Fault>
    requires ready { SolverIsReady cx.old }
    requires table { Ready cx.old.interner.entries table.old }
    requires clauses { TraitRefsHeld cx.old.interner.entries clauses.now }
    requires walked { ReferencesHeld cx.old.interner.entries walk.now.references.items }
    ensures advances { SolverAdvances cx.old cx.new }
    ensures held { IfOk result (λ o. IfSome o (λ v. Each (StepHeld cx.new.interner.entries) v.items)) }
    ensures shown { IfOk result (λ o. IfSome o (λ v. StepsAreShown walk.now.references.items v.items shown.now)) }
{
    let declarations = &cx.handler.declarations;
    let steps = steps_of(&mut cx.interner, declarations, table, clauses, walk, shown);
    cx.interner.lawful();
    steps
}

/// A trace with the steps of the proof that it found. They are not checked.
pub(crate) fn with_steps(
    cx: &mut SolverCx<Solver>,
    table: &mut InferCtxt,
    clauses: &[TraitRef],
    walk: GoalWalk,
) -> Result<ProofWalk, Fault>
    requires ready { SolverIsReady cx.old }
    requires table { Ready cx.old.interner.entries table.old }
    requires clauses { TraitRefsHeld cx.old.interner.entries clauses.now }
    requires walked { ReferencesHeld cx.old.interner.entries walk.references.items }
    ensures advances { SolverAdvances cx.old cx.new }
    ensures held { IfOk result (ProofWalkHeld cx.new.interner.entries) }
    ensures shown { IfOk result ShowsItsSteps }
{
    let shown = shown_steps(cx.alloc, &walk, 0)?;
    match steps_in(cx, table, clauses, &walk, &shown)? {
        Some(steps) => Ok(ProofWalk {
            walk,
            steps,
            shown,
            is_checked: false,
        }),
        None => Ok(ProofWalk {
            walk,
            steps: Vec::new(cx.alloc),
            shown: Vec::new(cx.alloc),
            is_checked: false,
        }),
    }
}
