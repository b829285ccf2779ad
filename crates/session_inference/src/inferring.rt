//! Inference sessions.

ghost use Rattle.std.specs.Prelude.{◌≡◌, ◌∷◌, ◌++◌, ◌⊎◌, [], true, false, All, Any, None, Some, Ok, Err, IfOk, IfErr, IsOk, IsErr, OnOk, OnErr, length, slice_get, take, map};
ghost use Rattle.type_terms.specs.Promised.Label.{of_type, of_const, infer, placeholder, static, value};
ghost use Rattle.type_terms.specs.Promised.Trees.{leaf};
ghost use Rattle.type_terms.specs.Promised.Worlds.{sees};
ghost use Rattle.infer_table.specs.Content.{content};
ghost use Rattle.infer_table.specs.Solutions.{resolved};
ghost use Rattle.fulfillment.specs.declared.obligation.Obligation.{Obligation};
ghost use Rattle.fulfillment.specs.declared.obligation.ObligationId.{ObligationId};
ghost use Rattle.sessions.specs.Promised.Shortages.{SessionFullAtLimit};
ghost use Rattle.sessions.specs.Promised.Subjects.{IsOfText};
ghost use Rattle.text_language.specs.Output.{type_text};
ghost use Rattle.text_language.specs.Promised.Declarations.{world_of};
ghost use Rattle.inference.specs.Inference.{equal, proved};
ghost use Rattle.inference.specs.Inferring.{HasGrownFrom, HasSolution, IsAsBefore, IsSnapshotOf, no_variables};
ghost use Rattle.inference.specs.declared.context.Infer.{Infer};
ghost use Rattle.session_inference.specs.declared.open_snapshot.OpenSnapshot.{OpenSnapshot};
ghost use Rattle.session_inference.specs.Assuming.{LacksTerm};
ghost use Rattle.session_inference.specs.Contexts.{DoneHaveProofs, HasOneMoreIn, HasRegistered, HasSpent, IsFaithfulIn, ShowsSolutionsIn, SomeIsUnsettledIn};
ghost use Rattle.session_inference.specs.LeftInferences.{IsLeftInference, inference_after};
ghost use Rattle.session_inference.specs.Primitives.{primitive_trees};
ghost use Rattle.session_inference.specs.Shapes.{shaped_trees};
ghost use Rattle.session_inference.specs.TermTexts.{inference_names};

use crate::assuming::Stated;
use crate::assumption::Assumption;
use crate::calls;
use crate::error::InferenceError;
use crate::left_inference::LeftInference;
use crate::making::{
    placeholder_constant, placeholder_type, primitive_type, shaped_type, value_constant,
};
use crate::open_snapshot::OpenSnapshot;
use crate::primitive::Primitive;
use crate::shape::Shape;
use crate::term_id::TermId;
use crate::term_text::text_of;
use crate::terms::{assumed, equated, given, numbered, numbered_there, opened, term_at, terms_at};
use fulfillment::{Obligation, ObligationId, Selected, Standing};
use inference::Infer;
use sessions::Session;
use std::alloc::AllocError;
use std::marker::Model;
use text_tables::Workspace;
use type_terms::kinds::GenericArgKind;
use type_terms::region::{Region, RegionKind};
use type_terms::{CrateId, Fault, TraitId};

/// A session with an inference context over its search: variables with their values, and goals that have to hold together.
///
/// Goals are evaluated outside coherence, by what the session's crate sees of its text. Terms have numbers, in the order in which calls give
/// them. A number that was never given is refused at run time. A rollback takes the numbers back that were given since the snapshot, and
/// gives them anew.
///
/// The promise is that of [`Infer`]: what solves all that was asked is not lost, and a goal that is done has a proof at each solution that is
/// left. What it says of solutions holds while no goal has where-clauses or placeholders.
///
/// rustc: `ObligationCtxt` with its `InferCtxt`. rust-analyzer: `InferenceTable`.
pub struct InferenceSession<'w> {
    session: Session<'w>,
    infer: Infer,
    terms: Vec<GenericArgKind>,
    snapshots: Vec<OpenSnapshot>,
    assumptions: Vec<Assumption>,
}

// Hand-written so that the prover sees one drop call: docs/PROVING.md#drop.
impl Drop for InferenceSession<'_> {
    fn drop(self) {
        let InferenceSession {
            session: _,
            infer: _,
            terms: _,
            snapshots: _,
            assumptions: _,
        } = self;
    }
}

impl<'w> Model for InferenceSession<'w> {
    ghost use Rattle.session_inference.specs.Inferences.{Inference, inference_code};

    ghost Value = { Inference };

    ghost coded = { inference_code };

    ghost use Rattle.session_inference.specs.Inferences.{IsInferring};

    ghost view = { λ s. record {
      subject = s.session;
      context = s.infer;
      terms = s.terms.items;
      snapshots = s.snapshots.items;
      assumptions = s.assumptions.items;
    } };

    ghost invariant = { λ s. IsInferring s.session s.infer s.terms.items s.snapshots.items };
}

impl<'w> InferenceSession<'w> {
    ghost use Rattle.session_inference.specs.Inferences.{AsksFurther, ErrorAtLimit, InfersOn, HasAssumed, HasNewTerm, HasNoSolutionWith, HasNoTerm, TakesOthers, goal_numbered, term_numbered, terms_numbered};

    /// An inference session without variables, goals and terms. It takes no memory yet.
    pub fn new(session: Session<'w>) -> Self
        ensures subject { result.subject ≡ session.entry }
        ensures faithful { IsFaithfulIn no_variables [] result.subject result.context }
        ensures none { result.context.goals.obligations.items ≡ [] }
        ensures terms { result.terms ≡ [] }
        ensures snapshots { result.snapshots ≡ [] }
        ensures assumptions { result.assumptions ≡ [] }
    {
        let alloc = session.search.cx.alloc;
        let infer = calls::begin(&session);
        InferenceSession {
            session,
            infer,
            terms: Vec::new(alloc),
            snapshots: Vec::new(alloc),
            assumptions: Vec::new(alloc),
        }
    }

    /// The session, with all that its search has found. Variables, values and goals are dropped.
    pub fn into_session(self) -> Session<'w>
        ensures { result ≡ self.entry.subject }
    {
        let InferenceSession {
            session,
            infer: _,
            terms: _,
            snapshots: _,
            assumptions: _,
        } = self;
        session
    }

    /// What it leaves: all but the text. [`InferenceSession::resumed`] goes on with it.
    pub fn leave(self) -> LeftInference
        ensures left { IsLeftInference self.entry.subject.declarations result }
        ensures is { inference_after self.entry.subject.declarations result ≡ self.entry }
    {
        let InferenceSession {
            session,
            infer,
            terms,
            snapshots,
            assumptions,
        } = self;
        let limits = session.limits;
        LeftInference {
            limits,
            session: session.leave(),
            infer,
            terms,
            snapshots,
            assumptions,
        }
    }

    /// The inference session that goes on with what one left, on a text with the same declarations. It takes no memory.
    pub fn resumed(workspace: &'w Workspace, left: LeftInference) -> Self
        requires parsed { IsOfText workspace.now }
        requires left { IsLeftInference workspace.now left }
        ensures { result ≡ inference_after workspace.now left }
    {
        let LeftInference {
            limits,
            session,
            infer,
            terms,
            snapshots,
            assumptions,
        } = left;
        InferenceSession {
            session: Session::resumed(workspace, limits, session),
            infer,
            terms,
            snapshots,
            assumptions,
        }
    }

    /// The session. Its interner has the terms.
    pub fn session(&self) -> &Session<'w>
        ensures { result.now ≡ self.now.subject }
    {
        &self.session
    }

    /// The term with this number, as a handle of the session's interner, or `None` if there is none.
    pub fn term(&self, id: TermId) -> Option<GenericArgKind>
        ensures { result ≡ slice_get self.now.terms id.index }
    {
        self.terms.get(id.index).copied()
    }

    /// Whether its crate sees another one of the text.
    pub fn sees(&self, id: CrateId) -> bool
        ensures { result ≡ sees (world_of self.now.subject.declarations) self.now.subject.of_crate id.index }
    {
        self.session.workspace.sees(self.session.crate_id, id)
    }

    /// A new type variable, with a number.
    ///
    /// Fails with `Memory` if memory is refused or there is no number for it, and with `Full` only if the session is at a limit.
    ///
    /// rustc: `InferCtxt::next_ty_var`.
    pub fn fresh_ty(&mut self) -> Result<TermId, Fault>
        ensures goes_on { InfersOn self.old self.new }
        ensures is { IfOk result (HasNewTerm self.old self.new (leaf (infer of_type self.old.context.table.ty_vars))) }
        ensures faithful { OnOk result
            (HasOneMoreIn of_type self.old.context.table.ty_vars self.old.subject self.old.context self.new.subject self.new.context) }
        ensures still { AsksFurther [] self.old self.new }
        ensures terms { OnErr result (self.new.terms ≡ self.old.terms) }
        ensures full { IfErr result (SessionFullAtLimit self.new.subject) }
    {
        let made = calls::fresh_ty(&mut self.session, &mut self.infer);
        numbered(&mut self.terms, made)
    }

    /// A new constant variable, with a number. It fails like [`InferenceSession::fresh_ty`].
    ///
    /// rustc: `InferCtxt::next_const_var`.
    pub fn fresh_const(&mut self) -> Result<TermId, Fault>
        ensures goes_on { InfersOn self.old self.new }
        ensures is { IfOk result (HasNewTerm self.old self.new (leaf (infer of_const self.old.context.table.const_vars))) }
        ensures faithful { OnOk result
            (HasOneMoreIn of_const self.old.context.table.const_vars self.old.subject self.old.context self.new.subject self.new.context) }
        ensures still { AsksFurther [] self.old self.new }
        ensures terms { OnErr result (self.new.terms ≡ self.old.terms) }
        ensures full { IfErr result (SessionFullAtLimit self.new.subject) }
    {
        let made = calls::fresh_const(&mut self.session, &mut self.infer);
        numbered(&mut self.terms, made)
    }

    /// A type without parts, with a number. It fails like [`InferenceSession::fresh_ty`].
    pub fn primitive(&mut self, primitive: Primitive) -> Result<TermId, Fault>
        ensures goes_on { InfersOn self.old self.new }
        ensures context { self.new.context ≡ self.old.context }
        ensures faithful { AsksFurther [] self.old self.new }
        ensures is { IfOk result (HasNewTerm self.old self.new (primitive_trees primitive)) }
        ensures terms { OnErr result (self.new.terms ≡ self.old.terms) }
        ensures full { IfErr result (SessionFullAtLimit self.new.subject) }
    {
        let made = primitive_type(&mut self.session, primitive);
        numbered(&mut self.terms, made)
    }

    /// The constant with this value, with a number. It fails like [`InferenceSession::fresh_ty`].
    pub fn constant(&mut self, number: u64) -> Result<TermId, Fault>
        ensures goes_on { InfersOn self.old self.new }
        ensures context { self.new.context ≡ self.old.context }
        ensures faithful { AsksFurther [] self.old self.new }
        ensures is { IfOk result (HasNewTerm self.old self.new (leaf (value number))) }
        ensures terms { OnErr result (self.new.terms ≡ self.old.terms) }
        ensures full { IfErr result (SessionFullAtLimit self.new.subject) }
    {
        let made = value_constant(&mut self.session, number);
        numbered(&mut self.terms, made)
    }

    /// The lifetime `'static`, with a number. What stands here of terms holds up to lifetimes. Fails with `Memory` alone.
    pub fn lifetime(&mut self) -> Result<TermId, Fault>
        ensures subject { self.new.subject ≡ self.old.subject }
        ensures context { self.new.context ≡ self.old.context }
        ensures snapshots { self.new.snapshots ≡ self.old.snapshots }
        ensures assumptions { self.new.assumptions ≡ self.old.assumptions }
        ensures is { IfOk result (HasNewTerm self.old self.new (leaf static)) }
        ensures terms { OnErr result (self.new.terms ≡ self.old.terms) }
        ensures memory { IfErr result (λ e. e ≡ Fault.Memory) }
    {
        let region = Region {
            kind: RegionKind::ReStatic,
        };
        numbered(&mut self.terms, Ok(GenericArgKind::Lifetime(region)))
    }

    /// The type that is this parameter of the function whose types are inferred, with a number. Nothing is known of it but what is assumed.
    /// It fails like [`InferenceSession::fresh_ty`].
    ///
    /// rustc: `Ty::new_placeholder`, as a query has it for its own parameters.
    pub fn ty_param(&mut self, number: u32) -> Result<TermId, Fault>
        ensures goes_on { InfersOn self.old self.new }
        ensures context { self.new.context ≡ self.old.context }
        ensures faithful { AsksFurther [] self.old self.new }
        ensures is { IfOk result (HasNewTerm self.old self.new (leaf (placeholder of_type number))) }
        ensures terms { OnErr result (self.new.terms ≡ self.old.terms) }
        ensures full { IfErr result (SessionFullAtLimit self.new.subject) }
    {
        let made = placeholder_type(&mut self.session, number);
        numbered(&mut self.terms, made)
    }

    /// The constant that is this parameter, with a number, as [`InferenceSession::ty_param`].
    pub fn const_param(&mut self, number: u32) -> Result<TermId, Fault>
        ensures goes_on { InfersOn self.old self.new }
        ensures context { self.new.context ≡ self.old.context }
        ensures faithful { AsksFurther [] self.old self.new }
        ensures is { IfOk result (HasNewTerm self.old self.new (leaf (placeholder of_const number))) }
        ensures terms { OnErr result (self.new.terms ≡ self.old.terms) }
        ensures full { IfErr result (SessionFullAtLimit self.new.subject) }
    {
        let made = placeholder_constant(&mut self.session, number);
        numbered(&mut self.terms, made)
    }

    /// A type of this shape with these parts, with a number. If they are not a struct's arguments in number and kind, nothing decides goals of
    /// it.
    ///
    /// Fails with `NoSuchTerm` if a number has no term, with `WrongParts` if another shape than that of a struct takes other parts, and with a
    /// fault if memory is refused or the session is at a limit.
    ///
    /// rustc: `Ty::new_adt`, `Ty::new_ref`, `Ty::new_tup` and their like.
    pub fn ty(&mut self, shape: Shape, parts: &[TermId]) -> Result<TermId, InferenceError>
        ensures goes_on { InfersOn self.old self.new }
        ensures context { self.new.context ≡ self.old.context }
        ensures faithful { AsksFurther [] self.old self.new }
        ensures is { IfOk result (HasNewTerm self.old self.new (shaped_trees shape (terms_numbered self.old parts.now))) }
        ensures no_term { result ≡ Err InferenceError.NoSuchTerm → Any (HasNoTerm self.old) parts.now }
        ensures others { result ≡ Err InferenceError.WrongParts → TakesOthers self.old shape parts.now }
        ensures terms { OnErr result (self.new.terms ≡ self.old.terms) }
        ensures full { IfErr result (ErrorAtLimit self.new) }
    {
        let alloc = *self.terms.allocator();
        let list = terms_at(alloc, &self.terms, parts)?;
        let made = shaped_type(&mut self.session, shape, list);
        numbered_there(&mut self.terms, made)
    }

    /// Makes two types, constants or lifetimes equal.
    ///
    /// Fails with `NoSuchTerm` if one of the numbers has no term, with `NoSolution` if no solution of all that was asked makes them equal, and
    /// with a fault if memory is refused or the session is at a limit. Then the context is as it was.
    ///
    /// rustc: `ObligationCtxt::eq`. rust-analyzer: `InferenceTable::unify`.
    pub fn eq(&mut self, left: TermId, right: TermId) -> Result<(), InferenceError>
        ensures goes_on { InfersOn self.old self.new }
        ensures faithful { OnOk result (AsksFurther (equal (term_numbered self.old left) (term_numbered self.old right) ∷ []) self.old self.new) }
        ensures no_solution { result ≡ Err InferenceError.NoSolution
            → HasNoSolutionWith (equal (term_numbered self.old left) (term_numbered self.old right) ∷ []) self.old }
        ensures no_term { result ≡ Err InferenceError.NoSuchTerm → HasNoTerm self.old left ⊎ HasNoTerm self.old right }
        ensures as_it_was { OnErr result (self.new.context ≡ self.old.context) }
        ensures still { OnErr result (AsksFurther [] self.old self.new) }
        ensures terms { self.new.terms ≡ self.old.terms }
        ensures full { IfErr result (ErrorAtLimit self.new) }
    {
        let left = term_at(&self.terms, left)?;
        let right = term_at(&self.terms, right)?;
        let made = calls::eq(&mut self.session, &mut self.infer, left, right);
        equated(made)
    }

    /// Whether two terms can be equal, by the values of variables that are known. No goal is selected, and the context is as it was.
    ///
    /// - `true`: a solution of what was equated makes them equal.
    /// - `false`: no solution of all that was asked does.
    ///
    /// Fails as [`InferenceSession::eq`] does.
    ///
    /// rustc: `InferCtxt::can_eq`. rust-analyzer: `InferenceTable::could_unify`.
    pub fn can_eq(&mut self, left: TermId, right: TermId) -> Result<bool, InferenceError>
        ensures goes_on { InfersOn self.old self.new }
        ensures faithful { AsksFurther [] self.old self.new }
        ensures as_before { IsAsBefore self.old.context self.new.context }
        ensures possible { result ≡ Ok true
            → HasSolution (content self.old.subject.terms self.old.context.table.values) (term_numbered self.old left) (term_numbered self.old right) }
        ensures impossible { result ≡ Ok false → HasNoSolutionWith (equal (term_numbered self.old left) (term_numbered self.old right) ∷ []) self.old }
        ensures no_term { result ≡ Err InferenceError.NoSuchTerm → HasNoTerm self.old left ⊎ HasNoTerm self.old right }
        ensures terms { self.new.terms ≡ self.old.terms }
        ensures full { IfErr result (ErrorAtLimit self.new) }
    {
        let left = term_at(&self.terms, left)?;
        let right = term_at(&self.terms, right)?;
        let made = calls::can_eq(&mut self.session, &mut self.infer, left, right);
        given(made)
    }

    /// Assumes that these terms implement this trait, the self type first. What is registered from now on has to hold under that and its
    /// supertraits.
    ///
    /// Fails with `NoSuchTerm` if a number has no term, and with a fault if memory is refused. Then it is not assumed.
    ///
    /// rustc: one more clause of the `ParamEnv`.
    pub fn assume(&mut self, trait_id: TraitId, args: &[TermId]) -> Result<(), InferenceError>
        ensures subject { self.new.subject ≡ self.old.subject }
        ensures context { self.new.context ≡ self.old.context }
        ensures terms { self.new.terms ≡ self.old.terms }
        ensures snapshots { self.new.snapshots ≡ self.old.snapshots }
        ensures assumed { IfOk result (λ _. HasAssumed self.old self.new trait_id args.now) }
        ensures refused { OnErr result (self.new.assumptions ≡ self.old.assumptions) }
        ensures no_term { result ≡ Err InferenceError.NoSuchTerm → Any (HasNoTerm self.old) args.now }
        ensures memory { (f : Fault) → result ≡ Err (InferenceError.Fault f) → f ≡ Fault.Memory }
    {
        let alloc = *self.terms.allocator();
        let _ = terms_at(alloc, &self.terms, args)?;
        assumed(alloc, &mut self.assumptions, trait_id, args)
    }

    /// Registers the goal to prove that these terms implement this trait, the self type first, under what is assumed with all its supertraits.
    /// It is pending, and was not evaluated yet.
    ///
    /// If the trait is not declared, or the terms are not its arguments in number and kind, nothing decides the goal. Fails with `NoSuchTerm`
    /// if a number has no term, with `WrongParts` if something is assumed that does not have its trait's arguments, and with a fault if memory is
    /// refused or the session is at a limit. Then nothing is registered.
    ///
    /// rustc: `ObligationCtxt::register_obligation`. rust-analyzer: `InferenceTable::register_obligation`.
    pub fn register(
        &mut self,
        trait_id: TraitId,
        args: &[TermId],
    ) -> Result<ObligationId, InferenceError>
        ensures goes_on { InfersOn self.old self.new }
        ensures registered { IfOk result
            (HasRegistered self.new.subject.terms self.old.context self.new.context (goal_numbered self.old trait_id.index args.now)) }
        ensures faithful { OnOk result (AsksFurther (proved (goal_numbered self.old trait_id.index args.now) ∷ []) self.old self.new) }
        ensures still { OnErr result (AsksFurther [] self.old self.new) }
        ensures no_term { result ≡ Err InferenceError.NoSuchTerm → LacksTerm self.old.terms self.old.assumptions args.now }
        ensures terms { self.new.terms ≡ self.old.terms }
        ensures full { IfErr result (ErrorAtLimit self.new) }
    {
        let stated = Stated {
            terms: &self.terms,
            assumptions: &self.assumptions,
        };
        calls::register(&mut self.session, &mut self.infer, stated, trait_id, args)
    }

    /// Selects the registered goals. What answers fix stays, whatever their certainty.
    ///
    /// - `AllDone`: each obligation is done: at each solution of the table it has a proof by what the session's crate sees.
    /// - `Refused`: this obligation was refused. Then there is no solution of all that was asked.
    /// - `Pending`: some obligation is pending, and another evaluation fixes nothing new.
    /// - `None`: it stopped before an evaluation, since it has started as many nested goals as `budget` says. Another call goes on: it looks at
    ///   the pending obligations again, and those whose results are cached start none. A budget below what the others start gets no further.
    ///
    /// Fails with `Memory` if memory is refused, and with `Full` only if the session is at a limit. What was found stays.
    ///
    /// rustc: `ObligationCtxt::select_where_possible`. rust-analyzer: `InferenceTable::select_obligations_where_possible`.
    pub fn select_where_possible(&mut self, budget: Option<u64>) -> Result<Option<Selected>, Fault>
        ensures goes_on { InfersOn self.old self.new }
        ensures faithful { AsksFurther [] self.old self.new }
        ensures done { DoneHaveProofs self.new.subject self.new.context }
        ensures all_done { result ≡ Ok (Some Selected.AllDone)
            → All (λ (o : Obligation). o.standing ≡ Standing.Done) self.new.context.goals.obligations.items }
        ensures unsettled { result ≡ Ok (Some Selected.Pending) → SomeIsUnsettledIn self.old.subject self.old.context }
        ensures refused { (id : ObligationId) → result ≡ Ok (Some (Selected.Refused id)) → HasNoSolutionWith [] self.old }
        ensures stopped { result ≡ Ok None → HasSpent budget self.old.subject self.new.subject }
        ensures terms { self.new.terms ≡ self.old.terms }
        ensures full { IfErr result (SessionFullAtLimit self.new.subject) }
    {
        calls::select_where_possible(&mut self.session, &mut self.infer, budget)
    }

    /// The obligations, in the order in which they were registered. One that is pending has its cause, and one that was refused says so.
    pub fn obligations(&self) -> &[Obligation]
        ensures { result.now ≡ self.now.context.goals.obligations.items }
    {
        self.infer.obligations()
    }

    /// The term with the values that are known, with a number of its own: each variable with a value is replaced by it.
    ///
    /// Under each solution of all that was asked, a term of own variables is an instance of it. Fails as [`InferenceSession::eq`] does.
    ///
    /// rustc: `InferCtxt::resolve_vars_if_possible`. rust-analyzer: `InferenceTable::resolve_completely`, where open variables stay.
    pub fn resolve(&mut self, term: TermId) -> Result<TermId, InferenceError>
        ensures goes_on { InfersOn self.old self.new }
        ensures context { self.new.context ≡ self.old.context }
        ensures faithful { AsksFurther [] self.old self.new }
        ensures is { IfOk result (HasNewTerm self.old self.new
            (resolved (content self.old.subject.terms self.old.context.table.values) (term_numbered self.old term))) }
        ensures shows { OnOk result (ShowsSolutionsIn self.old.subject self.old.context (term_numbered self.old term)
            (resolved (content self.old.subject.terms self.old.context.table.values) (term_numbered self.old term))) }
        ensures no_term { result ≡ Err InferenceError.NoSuchTerm → HasNoTerm self.old term }
        ensures terms { OnErr result (self.new.terms ≡ self.old.terms) }
        ensures full { IfErr result (ErrorAtLimit self.new) }
    {
        let term = term_at(&self.terms, term)?;
        let shown = calls::resolve(&mut self.session, &self.infer, term);
        let made = numbered(&mut self.terms, shown);
        given(made)
    }

    /// The text of a term, as the language writes it: a type variable is `?0t`, and a constant variable `?0c`, by their numbers. That of a
    /// lifetime is empty.
    ///
    /// Fails with `NoSuchTerm` if the number has no term, and with a fault if memory is refused.
    pub fn display(&self, id: TermId) -> Result<Vec<u8>, InferenceError>
        ensures text { IfOk result (λ text. text.items ≡ type_text (inference_names self.now.subject.declarations) (term_numbered self.now id)) }
        ensures no_term { result ≡ Err InferenceError.NoSuchTerm → HasNoTerm self.now id }
        ensures memory { (f : Fault) → result ≡ Err (InferenceError.Fault f) → f ≡ Fault.Memory }
    {
        let term = term_at(&self.terms, id)?;
        let alloc = *self.terms.allocator();
        let text = text_of(alloc, self.session.interner(), self.session.workspace, term)?;
        Ok(text)
    }

    /// Opens a snapshot, behind those that are open. Fails if memory is refused.
    ///
    /// rustc: `InferCtxt::start_snapshot`. rust-analyzer: `InferenceTable::snapshot`.
    pub fn start_snapshot(&mut self) -> Result<(), AllocError>
        ensures subject { self.new.subject ≡ self.old.subject }
        ensures context { self.new.context ≡ self.old.context }
        ensures terms { self.new.terms ≡ self.old.terms }
        ensures assumptions { self.new.assumptions ≡ self.old.assumptions }
        ensures taken { IfOk result (λ _. (m : OpenSnapshot) × (self.new.snapshots ≡ self.old.snapshots ++ m ∷ [])
            × IsSnapshotOf self.old.context m.context × (m.terms ≡ length self.old.terms) × (m.assumptions ≡ length self.old.assumptions)) }
        ensures refused { OnErr result (self.new.snapshots ≡ self.old.snapshots) }
    {
        let alloc = *self.terms.allocator();
        let context = self.infer.snapshot(alloc)?;
        let taken = OpenSnapshot {
            context,
            terms: self.terms.len(),
            assumptions: self.assumptions.len(),
        };
        opened(&mut self.snapshots, taken)
    }

    /// Ends the snapshot that was opened last, and keeps what was done since. Whether one was open.
    ///
    /// rustc: `InferCtxt::commit_from`.
    pub fn commit(&mut self) -> bool
        ensures subject { self.new.subject ≡ self.old.subject }
        ensures context { self.new.context ≡ self.old.context }
        ensures terms { self.new.terms ≡ self.old.terms }
        ensures assumptions { self.new.assumptions ≡ self.old.assumptions }
        ensures ended { result ≡ true → (m : OpenSnapshot) × (self.old.snapshots ≡ self.new.snapshots ++ m ∷ []) }
        ensures none { result ≡ false → (self.old.snapshots ≡ []) × (self.new.snapshots ≡ []) }
    {
        self.snapshots.pop().is_some()
    }

    /// Restores the context as it was at the snapshot that was opened last, and ends that: its variables and their values, its obligations and
    /// how they stand, its terms and its assumptions. What the search found stays. Whether a snapshot was open.
    ///
    /// rustc: `InferCtxt::rollback_to`. rust-analyzer: `InferenceTable::rollback_to`.
    pub fn roll_back(&mut self) -> bool
        ensures subject { self.new.subject ≡ self.old.subject }
        ensures restored { result ≡ true → (m : OpenSnapshot) × (self.old.snapshots ≡ self.new.snapshots ++ m ∷ [])
            × (self.new.terms ≡ take m.terms self.old.terms) × (self.new.assumptions ≡ take m.assumptions self.old.assumptions)
            × ((before : Infer) → IsSnapshotOf before m.context → HasGrownFrom before self.old.context → IsAsBefore before self.new.context) }
        ensures none { result ≡ false → (self.old.snapshots ≡ []) × (self.new ≡ self.old) }
    {
        match self.snapshots.pop() {
            None => false,
            Some(taken) => {
                let OpenSnapshot {
                    context,
                    terms,
                    assumptions,
                } = taken;
                self.infer.rollback_to(context);
                self.terms.truncate(terms);
                self.assumptions.truncate(assumptions);
                true
            }
        }
    }
}
