//! What comes next for a trait goal: a candidate, or the answer. Candidates come in this order:
//!
//! - In coherence, if the goal is not knowable: that another crate may have an impl. If that holds, nothing else comes.
//! - Where-clauses.
//! - Built-in rules.
//! - Impls. Outside coherence none comes if a where-clause has settled the goal.
//! - The bounds of the `dyn` that is the self type, with the same exception.
//!
//! A goal that is not decided has one candidate, which is ambiguous.
ghost use Rattle.type_terms.specs.Growth.{GrewOrFull};
ghost use Rattle.std.specs.Prelude.{◌≡◌, ◌==◌, ◌&&◌, not, length, map, Some, Bool, List, IfErr, IfOk, IfSome, is_some, option_map, OnOk};
ghost use Rattle.std.specs.List.{list_any, slice_get};
ghost use Rattle.type_terms.specs.Promised.Handles.{Entry};
ghost use Rattle.type_terms.specs.declared.Fault.TheVariants.{Memory};
ghost use Rattle.infer_table.specs.Goals.{GoalHeld};
ghost use Rattle.infer_table.specs.Responses.{ResponseHeld, answer_trees};
ghost use Rattle.goal_evaluator.specs.Readings.{ConsideredHeld, ResultHeld, SpecHeld, HandlerStepHeld};
ghost use Rattle.goal_frames.specs.Fitting.{ConsideredFits, ResultFits, StepFits};
ghost use Rattle.goal_evaluator.specs.StepReadings.{result_read, shown_by, spec_read, HasHistory, IsNextAfter};
ghost use Rattle.goal_evaluator.specs.TableAnswers.{IsWellFormed};
ghost use Rattle.declarations.specs.Items.{written};
ghost use Rattle.candidate_model.specs.Knowing.{is_knowable};
ghost use Rattle.candidate_model.specs.Candidates.{unsure, by_objects};
ghost use Rattle.candidate_model.specs.Solver.{says_nothing, is_non_global, is_settled};
ghost use Rattle.candidate_assembly.specs.Counted.{ForEachPast};
ghost use Rattle.built_in_candidates.specs.Goals.{asked_of, candidate_of};
ghost use Rattle.built_in_candidates.specs.Noted.{StayElaborated};
ghost use Rattle.candidate_assembly.specs.Nexts.{handled_in, IsNextBy, early_in, late_in, early_or_late_in, next_inside_in, next_outside_in, next_decided, next_undecided, next_for, mode_at_end};
ghost use Rattle.candidate_assembly.specs.Ready.{AreReadyDeclarations, Decides, IsWellPosedGoal};
ghost use Rattle.candidate_assembly.specs.Sections.{is_unknowable, is_bound, is_first_step, misc_is_bound, considered_from};

use crate::assembly::{
    Section, assemble_builtin_impl_candidates, assemble_impl_candidates,
    assemble_param_env_candidates, considered_from, ends_by, last_bound, misc_is_bound,
};
use crate::decided::is_decided;
use crate::knowable::is_knowable;
use crate::merge::merge_trait_candidates;
use crate::unknowable::consider_coherence_unknowable_candidate;
use built_in_candidates::object::{
    consider_next_object_bound_candidate, consider_object_bound_candidate,
};
use built_in_candidates::parts::unsure;
use declarations::declarations::Declarations;
use goal_evaluator::{
    CandidateSource, CandidateSpec, Considered, HandlerStep, ParamEnvSource, TypingMode,
    is_identity_modulo_regions,
};
use infer_table::input::CanonicalInput;
use infer_table::response::CanonicalResponse;
use std::alloc::Global;
use term_folds::predicate::TraitRef;
use type_terms::Fault;
use type_terms::interner::Interner;

/// The response has no constraints on lifetimes.
fn has_no_constraints(response: &CanonicalResponse) -> bool
    ensures { result ≡ (length response.now.region_constraints.items == 0) }
{
    response.region_constraints.is_empty()
}

/// Whether the response gives no types and constants, and says nothing of lifetimes.
fn says_nothing(cx: &Interner, response: &CanonicalResponse) -> bool
    requires held { ResponseHeld cx.now.entries response.now }
    requires fits { IsWellFormed (answer_trees cx.now.entries response.now) }
    ensures { result ≡ says_nothing (Some (answer_trees cx.now.entries response.now)) }
{
    is_identity_modulo_regions(cx, &response.var_values) && has_no_constraints(response)
}

/// Whether the candidate is by a where-clause that is not global, and its response says nothing.
fn settles(cx: &Interner, considered: &Considered) -> bool
    requires held { ResultHeld cx.now.entries considered.now.result }
    requires fits { ResultFits cx.now.entries considered.now.result }
    ensures { result ≡ (is_non_global considered.now.source && says_nothing (result_read cx.now.entries considered.now.result)) }
{
    match considered.source {
        CandidateSource::ParamEnv(ParamEnvSource::NonGlobal) => match &considered.result {
            Some(response) => says_nothing(cx, response),
            None => false,
        },
        CandidateSource::ParamEnv(ParamEnvSource::Global)
        | CandidateSource::Impl(_)
        | CandidateSource::BuiltinImpl(_)
        | CandidateSource::CoherenceUnknowable => false,
    }
}

/// Whether a where-clause has settled the goal.
fn is_settled(cx: &Interner, done: &[Considered]) -> bool
    requires held { ConsideredHeld cx.now.entries done.now }
    requires fits { ConsideredFits cx.now.entries done.now }
    ensures { result ≡ list_any (λ x. is_non_global x.source && says_nothing x.result) (map (shown_by cx.now.entries) done.now) }
{
    'done: for considered in done {
        if settles(cx, considered) {
            return true;
        }
    }
    false
}

/// Whether it was found that a crate outside the view may have an impl.
fn unknowable_holds(done: &[Considered]) -> bool
    ensures { result ≡ list_any (λ d. is_unknowable d.source && is_some d.result) done.now }
{
    done.iter().any(|considered| {
        matches!(considered.source, CandidateSource::CoherenceUnknowable)
            && considered.result.is_some()
    })
}

/// Whether nothing was considered, and a crate outside the view may have an impl. Fails only with `Memory`.
fn begins_unknowable(
    alloc: Global,
    cx: &Interner,
    declarations: &Declarations,
    goal: &CanonicalInput,
    done: &[Considered],
) -> Result<bool, Fault>
    requires { IsWellPosedGoal cx.now.entries declarations.now goal.now }
    ensures is { let V = written cx.now.entries declarations.now in let r = (asked_of cx.now.entries goal.now).reference in
        IfOk result (λ b. ForEachPast cx.now.entries done.now (λ seen. b ≡ (is_first_step seen && not (is_knowable V declarations.now.local r)))) }
    ensures memory { IfErr result (λ fault. fault ≡ Memory) }
{
    if done.is_empty() {
        let known = is_knowable(alloc, cx, declarations, goal.goal.predicate.trait_ref)?;
        Ok(!known)
    } else {
        Ok(false)
    }
}

/// The next candidate by a bound of the `dyn` that is the self type, after these candidates were considered, if one is left. rustc:
/// `assemble_object_bound_candidates`.
fn assemble_object_bound_candidates(
    alloc: Global,
    cx: &mut Interner,
    declarations: &Declarations,
    goal: &CanonicalInput,
    done: &[Considered],
    notes: &mut Vec<TraitRef>,
) -> Result<Option<CandidateSpec>, Fault>
    requires decided { IsWellPosedGoal cx.old.entries declarations.now goal.now }
    requires notes { StayElaborated cx.old.entries declarations.now notes.old.items }
    ensures terms { GrewOrFull cx.old cx.new result }
    ensures held { IfOk result (λ o. IfSome o (SpecHeld cx.new.entries)) }
    ensures notes { OnOk result (StayElaborated cx.new.entries declarations.now notes.new.items) }
    ensures is { let V = written cx.old.entries declarations.now in let a = asked_of cx.old.entries goal.now in
        IfOk result (λ o. ForEachPast cx.old.entries done.now (λ seen. option_map (candidate_of V a.reference.trait cx.new.entries) o
        ≡ slice_get (by_objects V a) (considered_from (is_bound (misc_is_bound a)) seen))) }
{
    let place = considered_from(done, Section::ObjectBounds, misc_is_bound(cx, goal));
    consider_object_bound_candidate(alloc, cx, declarations, goal, place, notes)
}

/// The next candidate by a where-clause or a built-in rule.
fn early_candidate(
    alloc: Global,
    cx: &mut Interner,
    declarations: &Declarations,
    goal: &CanonicalInput,
    done: &[Considered],
) -> Result<Option<CandidateSpec>, Fault>
    requires decided { IsWellPosedGoal cx.old.entries declarations.now goal.now }
    requires done { ConsideredHeld cx.old.entries done.now }
    ensures terms { GrewOrFull cx.old cx.new result }
    ensures held { IfOk result (λ o. IfSome o (SpecHeld cx.new.entries)) }
    ensures is { IfOk result (IsNextBy (early_in cx.old.entries declarations.now goal.now) cx.old.entries declarations.now goal.now done.now cx.new.entries) }
{
    match assemble_param_env_candidates(alloc, cx, goal, done)? {
        Some(candidate) => Ok(Some(candidate)),
        None => assemble_builtin_impl_candidates(alloc, cx, declarations, goal, done),
    }
}

/// The next candidate by an impl or by a bound of the `dyn` that is the self type.
fn late_candidate(
    alloc: Global,
    cx: &mut Interner,
    declarations: &Declarations,
    goal: &CanonicalInput,
    done: &[Considered],
    notes: &mut Vec<TraitRef>,
) -> Result<Option<CandidateSpec>, Fault>
    requires decided { IsWellPosedGoal cx.old.entries declarations.now goal.now }
    requires done { ConsideredHeld cx.old.entries done.now }
    requires notes { StayElaborated cx.old.entries declarations.now notes.old.items }
    ensures terms { GrewOrFull cx.old cx.new result }
    ensures held { IfOk result (λ o. IfSome o (SpecHeld cx.new.entries)) }
    ensures notes { OnOk result (StayElaborated cx.new.entries declarations.now notes.new.items) }
    ensures is { IfOk result (IsNextBy (late_in cx.old.entries declarations.now goal.now) cx.old.entries declarations.now goal.now done.now cx.new.entries) }
{
    match assemble_impl_candidates(alloc, cx, declarations, goal, done)? {
        Some(candidate) => Ok(Some(candidate)),
        None => assemble_object_bound_candidates(alloc, cx, declarations, goal, done, notes),
    }
}

/// The next candidate by a where-clause or a built-in rule, or else by an impl or by a bound of the `dyn` that is the self type.
fn early_or_late_candidate(
    alloc: Global,
    cx: &mut Interner,
    declarations: &Declarations,
    goal: &CanonicalInput,
    done: &[Considered],
    notes: &mut Vec<TraitRef>,
) -> Result<Option<CandidateSpec>, Fault>
    requires decided { IsWellPosedGoal cx.old.entries declarations.now goal.now }
    requires done { ConsideredHeld cx.old.entries done.now }
    requires notes { StayElaborated cx.old.entries declarations.now notes.old.items }
    ensures terms { GrewOrFull cx.old cx.new result }
    ensures held { IfOk result (λ o. IfSome o (SpecHeld cx.new.entries)) }
    ensures notes { OnOk result (StayElaborated cx.new.entries declarations.now notes.new.items) }
    ensures is { IfOk result
        (IsNextBy (early_or_late_in cx.old.entries declarations.now goal.now) cx.old.entries declarations.now goal.now done.now cx.new.entries) }
{
    match early_candidate(alloc, cx, declarations, goal, done)? {
        Some(candidate) => Ok(Some(candidate)),
        None => late_candidate(alloc, cx, declarations, goal, done, notes),
    }
}

/// The next candidate in coherence.
fn candidate_in_coherence(
    alloc: Global,
    cx: &mut Interner,
    declarations: &Declarations,
    goal: &CanonicalInput,
    done: &[Considered],
    notes: &mut Vec<TraitRef>,
) -> Result<Option<CandidateSpec>, Fault>
    requires decided { IsWellPosedGoal cx.old.entries declarations.now goal.now }
    requires done { ConsideredHeld cx.old.entries done.now }
    requires notes { StayElaborated cx.old.entries declarations.now notes.old.items }
    ensures terms { GrewOrFull cx.old cx.new result }
    ensures held { IfOk result (λ o. IfSome o (SpecHeld cx.new.entries)) }
    ensures notes { OnOk result (StayElaborated cx.new.entries declarations.now notes.new.items) }
    ensures is { IfOk result
        (IsNextBy (next_inside_in cx.old.entries declarations.now goal.now) cx.old.entries declarations.now goal.now done.now cx.new.entries) }
{
    if begins_unknowable(alloc, cx, declarations, goal, done)? {
        let candidate = consider_coherence_unknowable_candidate(alloc, cx, declarations, goal)?;
        return Ok(Some(candidate));
    }
    if unknowable_holds(done) {
        return Ok(None);
    }
    early_or_late_candidate(alloc, cx, declarations, goal, done, notes)
}

/// The next candidate outside coherence.
fn candidate_outside_coherence(
    alloc: Global,
    cx: &mut Interner,
    declarations: &Declarations,
    goal: &CanonicalInput,
    done: &[Considered],
    notes: &mut Vec<TraitRef>,
) -> Result<Option<CandidateSpec>, Fault>
    requires decided { IsWellPosedGoal cx.old.entries declarations.now goal.now }
    requires done { ConsideredHeld cx.old.entries done.now }
    requires fits { ConsideredFits cx.old.entries done.now }
    requires notes { StayElaborated cx.old.entries declarations.now notes.old.items }
    ensures terms { GrewOrFull cx.old cx.new result }
    ensures held { IfOk result (λ o. IfSome o (SpecHeld cx.new.entries)) }
    ensures notes { OnOk result (StayElaborated cx.new.entries declarations.now notes.new.items) }
    ensures is { IfOk result
        (IsNextBy (next_outside_in cx.old.entries declarations.now goal.now) cx.old.entries declarations.now goal.now done.now cx.new.entries) }
{
    if is_settled(cx, done) {
        early_candidate(alloc, cx, declarations, goal, done)
    } else {
        early_or_late_candidate(alloc, cx, declarations, goal, done, notes)
    }
}

/// The next candidate of a goal that is decided, in the goal's mode. If the newest candidate is by an impl, then no where-clause and no
/// built-in rule is left, and nothing has settled the goal. So nothing before that impl is looked at again. If it is by a bound of the
/// principal, no impl is left either.
fn decided_candidate(
    alloc: Global,
    cx: &mut Interner,
    declarations: &Declarations,
    goal: &CanonicalInput,
    done: &[Considered],
    notes: &mut Vec<TraitRef>,
) -> Result<Option<CandidateSpec>, Fault>
    requires decided { IsWellPosedGoal cx.old.entries declarations.now goal.now }
    requires done { ConsideredHeld cx.old.entries done.now }
    requires fits { ConsideredFits cx.old.entries done.now }
    requires notes { StayElaborated cx.old.entries declarations.now notes.old.items }
    ensures terms { GrewOrFull cx.old cx.new result }
    ensures held { IfOk result (λ o. IfSome o (SpecHeld cx.new.entries)) }
    ensures notes { OnOk result (StayElaborated cx.new.entries declarations.now notes.new.items) }
    ensures is { IfOk result
        (IsNextBy (next_decided cx.old.entries declarations.now goal.now) cx.old.entries declarations.now goal.now done.now cx.new.entries) }
{
    if ends_by(done, Section::Impls) {
        return late_candidate(alloc, cx, declarations, goal, done, notes);
    }
    if let Some(number) = last_bound(done) {
        return consider_next_object_bound_candidate(alloc, cx, declarations, goal, number, notes);
    }
    match goal.mode {
        TypingMode::Coherence => candidate_in_coherence(alloc, cx, declarations, goal, done, notes),
        TypingMode::PostAnalysis => {
            candidate_outside_coherence(alloc, cx, declarations, goal, done, notes)
        }
    }
}

/// The one candidate of a goal that is not decided, if nothing was considered. It is ambiguous.
fn undecided_candidate(alloc: Global, done: &[Considered]) -> Option<CandidateSpec>
    ensures is { (es new : List Entry) (kind : Bool) → ForEachPast es done.now (λ seen. option_map (spec_read new kind) result ≡ next_undecided seen) }
    ensures held { (es : List Entry) → IfSome result (SpecHeld es) }
{
    if done.is_empty() {
        Some(unsure(alloc))
    } else {
        None
    }
}

/// The next candidate of a goal after these were considered, the oldest first, if one is left. The caller says whether the goal is decided.
/// The module's comment has the order.
///
/// Fails with `Full` if a table of the interner is full. Fails with `Memory` if memory is refused, or if the next impl has more parameters
/// than there are numbers after the goal's variables. rustc: `EvalCtxt::assemble_and_evaluate_candidates`, which evaluates them too.
pub fn assemble_and_evaluate_candidates(
    alloc: Global,
    cx: &mut Interner,
    declarations: &Declarations,
    goal: &CanonicalInput,
    decided: bool,
    done: &[Considered],
    notes: &mut Vec<TraitRef>,
) -> Result<Option<CandidateSpec>, Fault>
    requires ready { AreReadyDeclarations cx.old.entries declarations.now }
    requires goal { GoalHeld cx.old.entries goal.now.goal }
    requires decides { Decides cx.old.entries declarations.now goal.now decided }
    requires done { ConsideredHeld cx.old.entries done.now }
    requires fits { ConsideredFits cx.old.entries done.now }
    requires notes { StayElaborated cx.old.entries declarations.now notes.old.items }
    ensures terms { GrewOrFull cx.old cx.new result }
    ensures held { IfOk result (λ o. IfSome o (SpecHeld cx.new.entries)) }
    ensures notes { OnOk result (StayElaborated cx.new.entries declarations.now notes.new.items) }
    ensures is { IfOk result (IsNextBy (next_for cx.old.entries declarations.now goal.now) cx.old.entries declarations.now goal.now done.now cx.new.entries) }
{
    if decided {
        decided_candidate(alloc, cx, declarations, goal, done, notes)
    } else {
        Ok(undecided_candidate(alloc, done))
    }
}

/// The mode in which the candidates of a goal are merged. A goal that is not decided is merged as in coherence.
fn mode_at_end(mode: TypingMode, decided: bool) -> TypingMode
    ensures { result ≡ mode_at_end mode decided }
{
    if decided { mode } else { TypingMode::Coherence }
}

/// Whether the goal is decided, after these candidates were considered. A goal of which an impl, a where-clause or a bound of the principal
/// was considered is: its terms and its where-clauses are not walked again for each of these.
fn stays_decided(
    cx: &Interner,
    declarations: &Declarations,
    goal: &CanonicalInput,
    done: &[Considered],
) -> bool
    requires ready { AreReadyDeclarations cx.now.entries declarations.now }
    requires goal { GoalHeld cx.now.entries goal.now.goal }
    requires history { HasHistory cx.now.entries (handled_in cx.now.entries declarations.now goal.now) done.now }
    ensures { Decides cx.now.entries declarations.now goal.now result }
{
    if ends_by(done, Section::Impls) {
        return true;
    }
    if ends_by(done, Section::WhereClauses) {
        return true;
    }
    if ends_by(done, Section::ObjectBounds) {
        return true;
    }
    is_decided(cx, declarations, goal)
}

/// What the frame of a trait goal does next, after these candidates were considered, the oldest first: it considers the next one, or
/// answers with the merge of their responses.
///
/// Fails with `Full` if a table of the interner is full. Fails with `Memory` if memory is refused, or if there are no numbers for the
/// variables of what is next. rustc: `EvalCtxt::compute_trait_goal`.
pub fn compute_trait_goal(
    alloc: Global,
    cx: &mut Interner,
    declarations: &Declarations,
    goal: &CanonicalInput,
    done: &[Considered],
    notes: &mut Vec<TraitRef>,
) -> Result<HandlerStep, Fault>
    requires ready { AreReadyDeclarations cx.old.entries declarations.now }
    requires goal { GoalHeld cx.old.entries goal.now.goal }
    requires done { ConsideredHeld cx.old.entries done.now }
    requires fits { ConsideredFits cx.old.entries done.now }
    requires history { HasHistory cx.old.entries (handled_in cx.old.entries declarations.now goal.now) done.now }
    requires notes { StayElaborated cx.old.entries declarations.now notes.old.items }
    ensures terms { GrewOrFull cx.old cx.new result }
    ensures held { IfOk result (HandlerStepHeld cx.new.entries) }
    ensures notes { OnOk result (StayElaborated cx.new.entries declarations.now notes.new.items) }
    ensures fits { IfOk result (StepFits goal.now.variables.items cx.new.entries) }
    ensures next { IfOk result (IsNextAfter cx.old.entries (handled_in cx.old.entries declarations.now goal.now) done.now cx.new.entries) }
{
    let decided = stays_decided(cx, declarations, goal, done);
    match assemble_and_evaluate_candidates(alloc, cx, declarations, goal, decided, done, notes)? {
        Some(candidate) => Ok(HandlerStep::Consider(candidate)),
        None => {
            let mode = mode_at_end(goal.mode, decided);
            merge_trait_candidates(alloc, cx, mode, &goal.variables, done)
        }
    }
}
