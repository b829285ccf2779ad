//! Sessions: checks and queries of one crate.

ghost use Rattle.std.specs.Prelude.{◌≡◌, ◌<◌, ◌≤◌, ◌+◌, ℕ, true, length, IfOk, IfErr, IfSome, OnOk, Ok, Err};
ghost use Rattle.type_terms.specs.Promised.Handles.{SomeKindIsFull};
ghost use Rattle.type_terms.specs.Promised.Handles.{ArgsHeld};
ghost use Rattle.type_terms.specs.declared.TheConstants.{MAX_INDEX};
ghost use Rattle.type_terms.specs.Promised.LinkedSet.{InEveryLinkedSet};
ghost use Rattle.declarations.specs.Promised.Elaboration.{Each};
ghost use Rattle.orphan_check.specs.Promised.Errors.{ErrorHeld};
ghost use Rattle.type_terms.specs.Promised.SetLaws.{AnswersHoldEverywhere, HeadlineHolds};
ghost use Rattle.proof_checker.specs.Steps.{StepHeld};
ghost use Rattle.text_lowering.specs.MostTerms.{most_terms};
ghost use Rattle.text_tables.specs.Numbered.{IsNumbered};
ghost use Rattle.text_language.specs.Promised.Declarations.{Question};
ghost use Rattle.sessions.specs.Promised.AnsweredSets.{AnsweredSetsAreCoherent, AnsweredSetsAreLinked};
ghost use Rattle.sessions.specs.Promised.CoherentTexts.{HeldTextsAreCoherent};
ghost use Rattle.sessions.specs.Promised.Entailment.{YesHolds};
ghost use Rattle.sessions.specs.Checking.{HasOrphan, HasJudged, HasPartner, HasOverlap, ListsSeen, HavePartnersSeen};
ghost use Rattle.sessions.specs.FixedGoals.{AreRefutedInSession};
ghost use Rattle.sessions.specs.Promised.FrameBounds.{ProvesInFrames, RefutesInFrames};
ghost use Rattle.sessions.specs.Promised.Given.{AnswerValuesHeld, VerdictHeld, answer_in, later_of, refutation_of, supers_answer_of, verdict_in};
ghost use Rattle.sessions.specs.Promised.Promises.{IsProved, IsRefutation, IsVerdictOf};
ghost use Rattle.sessions.specs.Promised.Releases.{AddedImplsBreakNoUser, IsSectionOf, IsLaterAnswer, IsSupersAnswer, OldProofsStay};
ghost use Rattle.sessions.specs.LeftSessions.{IsLeftSession, subject_after};
ghost use Rattle.sessions.specs.SeenViews.{IsLeftView, IsViewOf};
ghost use Rattle.sessions.specs.Shown.{AreProofOfBound};
ghost use Rattle.sessions.specs.Promised.Shortages.{SessionFullAtLimit};
ghost use Rattle.sessions.specs.Supertraits.{IsCheckedAt};
ghost use Rattle.sessions.specs.Promised.Subjects.{IsOfText, AsksProof, AsksRefutation, StaysOn};

use crate::answers::{LaterAnswer, ProveAnswer, RefuteAnswer, SupersAnswer, Verdict};
use crate::asked::rest_laws;
use crate::checked::{first_broken_header, overlaps_by_goals};
use crate::fixed_goals::FixedAnswers;
use crate::later::{added_impls_break_no_user, later_answer, old_answers_stay};
use crate::laws::{
    answered_sets_are_linked, clauses_apply, held_texts_are_coherent, impls_apply,
    other_answers_are_right, several_are_answered_rightly, yes_holds_in_linked_sets, yes_is_proved,
};
use crate::left_session::LeftSession;
use crate::limits::Limits;
use crate::proving::prove_question;
use crate::refuted::refute_question;
use crate::seen_view::SeenView;
use crate::shown::is_proof_of_question;
use crate::supertraits::{HeaderAnswer, header_answer_at};
use candidate_assembly::solver::Solver;
use orphan_check::errors::OrphanCheckErr;
use overlap_check::{accepted_sets_have_one_impl, answers_hold_in_linked_sets};
use pair_checks::by_trait::ImplsByTrait;
use proof_checker::steps::Step;
use search_graph::{GlobalCache, SearchGraph};
use solver_graph::{Search, SolverCx};
use std::alloc::{AllocError, Global};
use std::marker::Model;
use text_lowering::refutations_have_variables_alone;
use text_tables::Workspace;
use type_terms::interner::Interner;
use type_terms::kinds::{GenericArgKind, Ty};
use type_terms::{CrateId, Fault, ImplId};

/// A crate of a text, for checks and queries.
///
/// A session sees the view of its crate alone: the crate, `core`, and all that it uses, directly or through others. It lowers the view when
/// it is made, or only what is new if it begins with what another session left. It can be used after any call, also after a fault: the
/// terms, goals and answers of each call stay, and what the cache holds is justified. A cache with many results is emptied before the
/// next goal.
///
/// A fault is `Memory` if memory is refused, or if there are no numbers for so many variables or parameters (`MAX_INDEX`). It is `Full`
/// only if a limit of the session is reached.
///
/// The fields are public so that `explain_sessions` can run the same search. Callers must keep the invariant `IsSessionWithin`.
pub struct Session<'w> {
    pub workspace: &'w Workspace,
    pub crate_id: CrateId,
    pub limits: Limits,
    pub search: Search<Solver>,
    /// How many frames earlier sessions over the interner have started.
    pub frames_before: u64,
}

// Hand-written so that the prover sees one drop call: docs/PROVING.md#drop.
impl Drop for Session<'_> {
    fn drop(self) {
        let Session {
            workspace: _,
            crate_id: _,
            limits: _,
            search: _,
            frames_before: _,
        } = self;
    }
}

impl<'w> Model for Session<'w> {
    ghost use Rattle.sessions.specs.Promised.Subjects.{Subject};
    ghost use Rattle.sessions.specs.Subjects.{subject_code};

    ghost Value = { Subject };

    ghost coded = { subject_code };

    ghost use Rattle.std.specs.Prelude.{length};
    ghost use Rattle.goal_frames.specs.Stores.{kept_inputs, kept_responses};
    ghost use Rattle.sessions.specs.Sessions.{IsSessionWithin};

    ghost view = { λ s. record {
      declarations = s.workspace.now;
      of_crate = s.crate_id.index;
      depth = s.limits.depth;
      handles = s.limits.handles;
      terms = s.search.cx.interner.entries;
      goals = length (kept_inputs s.search.cx.store);
      answers = length (kept_responses s.search.cx.store);
      frames = s.search.graph.frames;
    } };

    ghost invariant = { λ s. IsSessionWithin s.workspace.now s.crate_id.index s.limits.depth s.limits.handles s.search.cx s.search.graph s.search.cache };
}

impl<'w> Session<'w> {
    /// A session for a crate of a text, by the crate's number. It lowers the crate's view.
    ///
    /// Fails with `Memory` if memory is refused, and with `Full` if the view needs more handles than the limit. A limit above `most_terms`
    /// (two for each part of a written type, one for each trait reference) always suffices.
    pub fn new(
        alloc: Global,
        workspace: &'w Workspace,
        crate_id: CrateId,
        limits: Limits,
    ) -> Result<Self, Fault>
        // `parse` made the workspace from a text.
        requires parsed { IsOfText workspace.now }
        requires declared { crate_id.index < length workspace.now.crates }
        ensures declarations { IfOk result (λ session. session.declarations ≡ workspace.now) }
        ensures of_crate { IfOk result (λ session. session.of_crate ≡ crate_id.index) }
        ensures depth { IfOk result (λ session. session.depth ≡ limits.depth) }
        ensures handles { IfOk result (λ session. session.handles ≡ limits.handles) }
        ensures frames { IfOk result (λ session. session.frames ≡ 0) }
        ensures full { result ≡ Err Fault.Full → limits.handles ≤ most_terms workspace.now crate_id.index }
    {
        let view = SeenView::new(alloc, workspace, crate_id, limits.handles)?;
        Ok(Session::on_view(alloc, workspace, limits, view))
    }

    /// A session for a crate of a text that begins with the view that the session of another crate left (`into_view`).
    ///
    /// The first items of the text that both crates see alike stay, and only what this crate sees behind them is lowered. If searches over
    /// the view's interner have started many frames, the view is dropped and everything is lowered, as `new` does. Each call promises the
    /// same as of a session that `new` makes.
    ///
    /// Fails with `Memory` if memory is refused, and with `Full` as `new` does, but the terms that the view holds count too. So a table may
    /// be full sooner than in a new session, here and at a later call.
    pub fn behind(
        alloc: Global,
        workspace: &'w Workspace,
        crate_id: CrateId,
        limits: Limits,
        view: SeenView,
    ) -> Result<Self, Fault>
        requires parsed { IsOfText workspace.now }
        requires declared { crate_id.index < length workspace.now.crates }

        // A session on the same text, with the same limit of handles, left it.
        requires view { IsViewOf workspace.now view.crate_id.index limits.handles view }
        ensures declarations { IfOk result (λ session. session.declarations ≡ workspace.now) }
        ensures of_crate { IfOk result (λ session. session.of_crate ≡ crate_id.index) }
        ensures depth { IfOk result (λ session. session.depth ≡ limits.depth) }
        ensures handles { IfOk result (λ session. session.handles ≡ limits.handles) }
        ensures frames { IfOk result (λ session. session.frames ≡ 0) }
        ensures full { result ≡ Err Fault.Full → limits.handles ≤ length view.interner.entries + most_terms workspace.now crate_id.index }
    {
        let seen = view.handed_on(alloc, workspace, crate_id, limits.handles)?;
        Ok(Session::on_view(alloc, workspace, limits, seen))
    }

    /// A session for a crate of a text: `behind` if there is a view of another crate, and `new` otherwise. The errors are those of either.
    pub fn on_crate(
        alloc: Global,
        workspace: &'w Workspace,
        crate_id: CrateId,
        limits: Limits,
        left: Option<SeenView>,
    ) -> Result<Self, Fault>
        requires parsed { IsOfText workspace.now }
        requires declared { crate_id.index < length workspace.now.crates }
        requires left { IfSome left (IsLeftView workspace.now limits.handles) }
        ensures declarations { IfOk result (λ session. session.declarations ≡ workspace.now) }
        ensures of_crate { IfOk result (λ session. session.of_crate ≡ crate_id.index) }
        ensures depth { IfOk result (λ session. session.depth ≡ limits.depth) }
        ensures handles { IfOk result (λ session. session.handles ≡ limits.handles) }
        ensures frames { IfOk result (λ session. session.frames ≡ 0) }
    {
        match left {
            None => Session::new(alloc, workspace, crate_id, limits),
            Some(view) => Session::behind(alloc, workspace, crate_id, limits, view),
        }
    }

    /// A session for the crate that sees the view. It takes no memory yet.
    fn on_view(alloc: Global, workspace: &'w Workspace, limits: Limits, view: SeenView) -> Self
        requires parsed { IsOfText workspace.now }
        requires view { IsViewOf workspace.now view.crate_id.index limits.handles view }
        ensures declarations { result.declarations ≡ workspace.now }
        ensures of_crate { result.of_crate ≡ view.crate_id.index }
        ensures depth { result.depth ≡ limits.depth }
        ensures handles { result.handles ≡ limits.handles }
        ensures frames { result.frames ≡ 0 }
    {
        let graph = SearchGraph::new(alloc, limits.depth as usize);
        let cache = GlobalCache::new(alloc);
        let crate_id = view.crate_id;
        let (interner, declarations, frames_before) = view.into_parts();
        let solver = Solver::new(declarations);
        let cx = SolverCx::new(alloc, interner, solver, limits.handles);
        Session {
            workspace,
            crate_id,
            limits,
            search: Search { graph, cache, cx },
            frames_before,
        }
    }

    /// A session for a crate of a text that goes on where an earlier one stopped, if there is one (`leave`).
    ///
    /// If that was of this crate, its view, terms, goals, answers and results stay, and nothing is lowered. If it was of another crate, its
    /// view alone goes over, as `behind` says. Each call promises the same as of a session that `new` makes.
    ///
    /// The text may have other queries than that of the earlier session. Fails with `Memory` if memory is refused, and with `Full` as
    /// `new` and `behind` do.
    pub fn after(
        alloc: Global,
        workspace: &'w Workspace,
        crate_id: CrateId,
        limits: Limits,
        left: Option<LeftSession>,
    ) -> Result<Self, Fault>
        requires parsed { IsOfText workspace.now }
        requires declared { crate_id.index < length workspace.now.crates }

        // A session with the same limits left it, on a text with the same declarations.
        requires left { IfSome left (IsLeftSession workspace.now limits.depth limits.handles) }
        ensures declarations { IfOk result (λ session. session.declarations ≡ workspace.now) }
        ensures of_crate { IfOk result (λ session. session.of_crate ≡ crate_id.index) }
        ensures depth { IfOk result (λ session. session.depth ≡ limits.depth) }
        ensures handles { IfOk result (λ session. session.handles ≡ limits.handles) }
    {
        let Some(left) = left else {
            return Session::new(alloc, workspace, crate_id, limits);
        };
        if left.crate_id.index == crate_id.index {
            return Ok(Session::resumed(workspace, limits, left));
        }
        let view = left.into_view();
        Session::behind(alloc, workspace, crate_id, limits, view)
    }

    /// The session of the same crate that goes on with what one left, which a session with the same limits left, on a text with the same
    /// declarations. It takes no memory.
    pub fn resumed(workspace: &'w Workspace, limits: Limits, left: LeftSession) -> Self
        requires parsed { IsOfText workspace.now }
        requires left { IsLeftSession workspace.now limits.depth limits.handles left }
        ensures subject { result ≡ subject_after workspace.now limits.depth limits.handles left }
        ensures declarations { result.declarations ≡ workspace.now }
        ensures of_crate { result.of_crate ≡ left.crate_id.index }
        ensures depth { result.depth ≡ limits.depth }
        ensures handles { result.handles ≡ limits.handles }
    {
        let crate_id = left.crate_id;
        let (search, frames_before) = left.into_parts();
        Session {
            workspace,
            crate_id,
            limits,
            search,
            frames_before,
        }
    }

    /// What the session leaves for the next one of its crate: all but the text.
    pub fn leave(self) -> LeftSession
        ensures left { IsLeftSession self.entry.declarations self.entry.depth self.entry.handles result }
        ensures of_crate { result.crate_id.index ≡ self.entry.of_crate }
        ensures subject { subject_after self.entry.declarations self.entry.depth self.entry.handles result ≡ self.entry }
    {
        let Session {
            workspace: _,
            crate_id,
            limits: _,
            search,
            frames_before,
        } = self;
        LeftSession {
            crate_id,
            search,
            frames_before,
        }
    }

    /// What the session leaves for the session of another crate: the view of its crate, with the terms that its calls made. Goals, answers
    /// and the cache are dropped.
    pub fn into_view(self) -> SeenView
        ensures view { IsViewOf self.entry.declarations self.entry.of_crate self.entry.handles result }
    {
        let left = self.leave();
        left.into_view()
    }

    /// The verdict of the crate: whether each of its impls keeps the orphan rule, and whether it brings two impls together that overlap.
    ///
    /// All headers are checked before any pair, by the numbers of their impls in the text. Pairs come by the rising number of the crate's
    /// impl. A pair overlaps if the headers have a common instance and none of the where-clauses is impossible there. For example
    /// `impl<T> Show for T` and `impl Show for u8` overlap; with `where T: Debug` they do not, if `u8: Debug` is impossible.
    ///
    /// Fails with `Memory` if memory is refused, or with `Full` if a table of the session is full.
    ///
    /// In a set of linked crates that were all accepted, of one text or of several, no concrete trait reference has proofs by two impls.
    ///
    /// rustc: `coherent_trait` of `rustc_hir_analysis`, for all traits.
    pub fn check_crate(&mut self) -> Result<Verdict, Fault>
        ensures one_impl { HeadlineHolds }
        ensures verdict { IfOk result (λ verdict. IsVerdictOf self.old.depth self.old.declarations self.old.of_crate (verdict_in self.new.terms verdict)) }
        ensures held { IfOk result (VerdictHeld self.new.terms) }
        ensures stays { StaysOn self.old self.new }
        ensures full { IfErr result (SessionFullAtLimit self.new) }
    {
        accepted_sets_have_one_impl();
        let end = self.impl_end();
        if let Some((id, error)) = self.first_orphan(end)? {
            return Ok(Verdict::Orphan(id, error));
        }
        match self.first_overlap(end)? {
            Some((later, earlier)) => Ok(Verdict::Overlap(later, earlier)),
            None => Ok(Verdict::Accepted),
        }
    }

    /// How many impls the text has. Their numbers are below it.
    fn impl_end(&self) -> u32
        ensures is { result ≡ length self.now.declarations.impls }
        ensures in_range { result ≤ MAX_INDEX + 1 }
        ensures numbered { IsNumbered self.now.declarations }
    {
        let _ = self.workspace.crates();
        self.workspace.impls().len() as u32
    }

    /// The first impl of the crate whose header breaks the orphan rule, and why it does.
    fn first_orphan(&mut self, end: u32) -> Result<Option<(ImplId, OrphanCheckErr<Ty>)>, Fault>
        requires end { end ≡ length self.old.declarations.impls }
        requires in_range { end ≤ MAX_INDEX + 1 }
        requires numbered { IsNumbered self.old.declarations }
        ensures first { IfOk result (HasOrphan self.old self.new.terms) }
        ensures held { IfOk result (λ found. IfSome found (λ x. ErrorHeld self.new.terms x.1)) }
        ensures stays { StaysOn self.old self.new }
        ensures full { IfErr result (SessionFullAtLimit self.new) }
    {
        rest_laws::<Solver>();
        first_broken_header(&mut self.search.cx, end)
    }

    /// A pair that the crate brings together and that overlaps, if there is one. The search returns the one whose own impl has the smallest
    /// number, and the contract holds for any. The numbers are below `end`.
    fn first_overlap(&mut self, end: u32) -> Result<Option<(ImplId, ImplId)>, Fault>
        requires end { end ≡ length self.old.declarations.impls }
        requires in_range { end ≤ MAX_INDEX + 1 }
        requires numbered { IsNumbered self.old.declarations }
        ensures found { IfOk result (HasOverlap self.old end) }
        ensures stays { StaysOn self.old self.new }
        ensures full { IfErr result (SessionFullAtLimit self.new) }
    {
        let impls = self.impls_by_trait(end)?;
        let mut answers = FixedAnswers::new(self.search.cx.alloc);
        for index in 0..end {
            let later = ImplId { index };
            if let Some(earlier) = self.first_partner(&impls, &mut answers, later)? {
                return Ok(Some((later, earlier)));
            }
        }
        Ok(None)
    }

    /// The impls that the crate sees, by their traits. Their numbers are below `end`.
    fn impls_by_trait(&self, end: u32) -> Result<ImplsByTrait, AllocError>
        requires end { end ≡ length self.now.declarations.impls }
        requires in_range { end ≤ MAX_INDEX + 1 }
        requires numbered { IsNumbered self.now.declarations }
        ensures { IfOk result (ListsSeen self.now) }
    {
        ImplsByTrait::of_declarations(
            self.search.cx.alloc,
            &self.search.cx.interner,
            &self.search.cx.handler.declarations,
            end,
        )
    }

    /// The impls that the crate has to compare with an impl of its own, by rising number. For an impl of another crate there are none.
    fn partners_of(&self, impls: &ImplsByTrait, later: ImplId) -> Result<Vec<ImplId>, AllocError>
        requires { ListsSeen self.now impls.now }
        ensures { IfOk result (λ ids. HavePartnersSeen self.now later.index ids.items) }
    {
        impls.partners_of(
            self.search.cx.alloc,
            &self.search.cx.interner,
            &self.search.cx.handler.declarations,
            later,
        )
    }

    /// The impl with the smallest number that overlaps with this impl of the crate, if there is one.
    fn first_partner(
        &mut self,
        impls: &ImplsByTrait,
        answers: &mut FixedAnswers,
        later: ImplId,
    ) -> Result<Option<ImplId>, Fault>
        requires listed { ListsSeen self.old impls.now }
        requires numbered { IsNumbered self.old.declarations }
        requires noted { AreRefutedInSession self.old answers.old }
        ensures noted { OnOk result (AreRefutedInSession self.new answers.new) }
        ensures found { (end : ℕ) → IfOk result (HasPartner self.old end later.index) }
        ensures stays { StaysOn self.old self.new }
        ensures full { IfErr result (SessionFullAtLimit self.new) }
    {
        let partners = self.partners_of(impls, later)?;
        for earlier in &partners {
            if self.overlaps(answers, later, *earlier)? {
                return Ok(Some(*earlier));
            }
        }
        Ok(None)
    }

    /// Whether the crate brings the impls with these numbers together and they overlap.
    fn overlaps(
        &mut self,
        answers: &mut FixedAnswers,
        later: ImplId,
        earlier: ImplId,
    ) -> Result<bool, Fault>
        requires numbered { IsNumbered self.old.declarations }
        requires noted { AreRefutedInSession self.old answers.old }
        ensures noted { OnOk result (AreRefutedInSession self.new answers.new) }
        ensures judged { IfOk result (HasJudged self.old later.index earlier.index) }
        ensures stays { StaysOn self.old self.new }
        ensures full { IfErr result (SessionFullAtLimit self.new) }
    {
        overlaps_by_goals(&mut self.search, answers, later, earlier)
    }

    /// The terms of the session. The handles of its answers are of this interner.
    pub fn interner(&self) -> &Interner
        ensures terms { result.now.entries ≡ self.now.terms }
        ensures limit { result.now.limit ≡ self.now.handles }
    {
        &self.search.cx.interner
    }

    /// How many frames this session has started since it was made, or the greatest `u64` if there were more. Each evaluation of a goal is
    /// one frame.
    pub fn frames(&self) -> u64
        ensures { result ≡ self.now.frames }
    {
        self.search.graph.frames()
    }

    /// Lets the next call count nested goals from nothing (`SearchGraph::evaluate_goal`), as the first call of a session does. Otherwise
    /// calls count on from each other. What a call promises does not depend on it.
    pub fn begin_count(&mut self)
        ensures { self.new ≡ self.old }
    {
        self.search.graph.count_from(0);
    }

    /// Whether a later version of this crate may add the impls of a section. Sections count from 0.
    ///
    /// An impl may be added if it keeps the crate's orphan rule, its trait is neither fundamental nor auto, and its open walk meets no
    /// parameter. `Compatible` says that no crate that uses this one, seen or unseen, can have an impl that overlaps one of them. None of
    /// their instances is knowable in a crate that this one does not see. `Breaking` names the first impl for which that does not hold,
    /// counted from 1. Supertraits are not looked at: see `check_supertraits`. Whether an impl may go or change, `prove` answers in the new
    /// version, asked for the impl's header under its where-clauses.
    ///
    /// No goal is evaluated. Fails with `Memory` if memory is refused, or with `Full` if a table of the session is full.
    ///
    /// RFC 1105 (which changes are breaking) and RFC 2451.
    pub fn check_later(&mut self, section: u32) -> Result<LaterAnswer, Fault>
        requires { IsSectionOf self.old.declarations self.old.of_crate section }

        // In each linked set, what a later version may add breaks no user.
        ensures users { InEveryLinkedSet AddedImplsBreakNoUser }

        // An impl may go or change if the new version proves its header from its where-clauses: then what had a proof has one.
        ensures lost { InEveryLinkedSet OldProofsStay }
        ensures answer { IfOk result (λ a. IsLaterAnswer self.old.declarations self.old.of_crate section (later_of a)) }
        ensures stays { StaysOn self.old self.new }
        ensures frames { self.new.frames ≡ self.old.frames }
        ensures full { result ≡ Err Fault.Full → SomeKindIsFull self.new.terms self.new.handles }
    {
        rest_laws::<Solver>();
        added_impls_break_no_user();
        old_answers_stay();
        later_answer(&mut self.search.cx, self.workspace, section)
    }

    /// Whether each impl of this crate has the supertraits of its header proved from its where-clauses, whatever its parameters stand for.
    ///
    /// The strict supertraits of a header are asked for one by one, as `supertraits` gives them, with placeholders for the impl's
    /// parameters, outside coherence and under its where-clauses with all their supertraits. The header itself is no where-clause. `Held`
    /// says that each has a proof; `Missing` and `Undecided` name the first impl, and the first supertrait of its header, counted from 1,
    /// of which none was found, or of which it is not known: all before have proofs, and that one is not determinate. The fault is `Memory`
    /// where memory is refused, or `Full` where a table of the session is full.
    ///
    /// Crates of any texts that fit together, each accepted and held, are a set of linked crates, in which no closed reference has proofs by
    /// two impls and what was answered holds, with nothing assumed of supertraits. A text whose crates were all accepted and held is
    /// coherent as a whole.
    ///
    /// `check_impl` of `rustc_hir_analysis`, as far as it asks for the supertraits of the header.
    pub fn check_supertraits(&mut self) -> Result<SupersAnswer, Fault>
        ensures linked { AnsweredSetsAreLinked }
        ensures one_impl { AnsweredSetsAreCoherent }
        ensures coherent { HeldTextsAreCoherent }

        // In each linked set with a crate that answered, what got `no` has no solution, and the where-clauses of what got `yes` entail it. Of
        // several trait references the answer `no` itself says so.
        ensures everywhere { AnswersHoldEverywhere }
        ensures entailed { InEveryLinkedSet YesHolds }
        ensures answer { IfOk result (λ a. IsSupersAnswer self.old.depth self.old.declarations self.old.of_crate (supers_answer_of a)) }
        ensures stays { StaysOn self.old self.new }
        ensures full { IfErr result (SessionFullAtLimit self.new) }
    {
        answered_sets_are_linked();
        held_texts_are_coherent();
        answers_hold_in_linked_sets();
        yes_holds_in_linked_sets();
        let end = self.impl_end();
        for number in 0..end {
            let id = ImplId { index: number };
            match self.header_answer(id)? {
                HeaderAnswer::Held => {}
                HeaderAnswer::Missing(place) => return Ok(SupersAnswer::Missing(id, place)),
                HeaderAnswer::Undecided(place) => return Ok(SupersAnswer::Undecided(id, place)),
            }
        }
        Ok(SupersAnswer::Held)
    }

    /// How the supertraits of the header of the impl with this number are answered, if the impl is the crate's own.
    fn header_answer(&mut self, id: ImplId) -> Result<HeaderAnswer, Fault>
        ensures checked { IfOk result (IsCheckedAt self.old.depth self.old.declarations self.old.of_crate id.index) }
        ensures stays { StaysOn self.old self.new }
        ensures full { IfErr result (SessionFullAtLimit self.new) }
    {
        impls_apply();
        header_answer_at(&mut self.search, id)
    }

    /// Whether the reference of a `prove` question of this crate has a proof, by what the crate sees of the text and by the question's
    /// where-clauses. Questions count from 1.
    ///
    /// It is asked outside coherence, under the where-clauses with all their supertraits, and again until an answer brings no more values.
    /// `Yes` has a value for each of the question's variables, in their order: with them the reference has a proof, in which parameters, and
    /// variables that a value leaves, stand for themselves. The values name only what the crate sees; what is open in them are unknowns and
    /// parameters that the question names. If the reference has one solution alone, the values are that one. `Unproved` says that the search
    /// found none, and `Maybe` that it does not know.
    /// If the reference has no variables, and its chains of premises are shorter than the depth, `Unproved` says that it has no proof, and
    /// `Maybe` that it has one. Then at some step several impls or built-in rules have premises with proofs, or several where-clauses
    /// with lifetimes are equal up to these. Of a question without where-clauses and parameters `Unproved` says that it has no solution by
    /// what the crate sees, and the values of the other answers cover all solutions.
    ///
    /// A question about several references has one answer for all of them: with the values of `Yes` each has a proof. They are asked in the
    /// order in which they are written, again and again, until nothing new is fixed.
    ///
    /// The fault is `Memory` where memory is refused, or `Full` where a table of the session is full.
    ///
    /// `evaluate_root_goal` in a `ParamEnv` of elaborated clauses, as `predicate_may_hold` and `type_implements_trait` ask it outside coherence.
    pub fn prove(&mut self, number: u32) -> Result<ProveAnswer, Fault>
        requires { (q : Question) × AsksProof self.old.declarations self.old.of_crate number q }

        // With the values of `Yes` there are proofs. Without where-clauses and parameters `Unproved` has no solution. Of one reference alone, if
        // there is one solution alone the values are it, and without variables, and within the depth, `Unproved` has no proof, `Maybe` has
        // one, and there is no `Maybe` if there are few rules at each step.
        ensures answer { (q : Question) → AsksProof self.old.declarations self.old.of_crate number q
            → IfOk result (λ a. IsProved self.old.depth self.old.declarations q (answer_in self.new.terms a)) }
        ensures held { IfOk result (AnswerValuesHeld self.new.terms) }
        ensures stays { StaysOn self.old self.new }

        // Of one reference the frames are those of at most eight evaluations, after a fault too.
        ensures frames { (q : Question) → AsksProof self.old.declarations self.old.of_crate number q → ProvesInFrames self.old q self.new }
        ensures full { IfErr result (SessionFullAtLimit self.new) }
    {
        clauses_apply();
        yes_is_proved();
        other_answers_are_right();
        several_are_answered_rightly();
        prove_question(
            &mut self.search,
            self.workspace,
            number,
            self.limits.most_values(),
        )
    }

    /// Whether steps are a proof of a trait reference of a `prove` query of this crate: by what the crate sees, by the query's where-clauses,
    /// and by what the steps assume. Queries count from 1, and their trait references from 0.
    ///
    /// The steps and the values may come from anyone. `true` says that the steps prove the trait reference with some values of the
    /// variables' kinds, which need not be the given ones. A step that is assumed counts as one more where-clause. If none is assumed, this
    /// is the proof that `Yes` promises. `false` says nothing. No goal is evaluated.
    ///
    /// Fails with `Memory` if memory is refused, or with `Full` if a table of the session is full.
    pub fn is_proof_of(
        &mut self,
        number: u32,
        bound: usize,
        values: &[GenericArgKind],
        steps: &[Step],
    ) -> Result<bool, Fault>
        requires question { (q : Question) × AsksProof self.old.declarations self.old.of_crate number q }
        requires values { ArgsHeld self.old.terms values.now }
        requires steps { Each (StepHeld self.old.terms) steps.now }
        ensures proof { (q : Question) → AsksProof self.old.declarations self.old.of_crate number q
            → IfOk result (λ b. b ≡ true → AreProofOfBound self.old.declarations q bound self.old.terms steps.now) }
        ensures stays { StaysOn self.old self.new }
        ensures frames { self.new.frames ≡ self.old.frames }
    {
        rest_laws::<Solver>();
        is_proof_of_question(
            &mut self.search.cx,
            self.workspace,
            number,
            bound,
            values,
            steps,
        )
    }

    /// Whether the trait reference of a `refute` query of this crate is refused: it has no proof in any linked set with the crate, whatever
    /// its variables stand for. Queries count from 1.
    ///
    /// It is evaluated once, in coherence and without where-clauses. If it has no variables, and its chains of premises are shorter than
    /// the depth, it is refused exactly if it is not possible in the crate. Several are refused together: whatever their variables stand for,
    /// one of them has no proof.
    ///
    /// Fails with `Memory` if memory is refused, or with `Full` if a table of the session is full.
    pub fn refute(&mut self, number: u32) -> Result<RefuteAnswer, Fault>
        requires { (q : Question) × AsksRefutation self.old.declarations self.old.of_crate number q }

        // `No` is right in every linked set with the crate. A bounded trait reference gets it exactly if it is not possible.
        ensures answer { (q : Question) → AsksRefutation self.old.declarations self.old.of_crate number q
            → IfOk result (λ a. IsRefutation self.old.depth self.old.declarations q (refutation_of a)) }
        ensures stays { StaysOn self.old self.new }

        // Of one trait reference the frames are those of one evaluation, after a fault too.
        ensures frames { (q : Question) → AsksRefutation self.old.declarations self.old.of_crate number q → RefutesInFrames self.old q self.new }
        ensures full { IfErr result (SessionFullAtLimit self.new) }
    {
        refutations_have_variables_alone();
        refute_question(
            &mut self.search,
            self.workspace,
            number,
            self.limits.most_values(),
        )
    }
}
