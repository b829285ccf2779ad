//! The inference context.

ghost use Rattle.std.specs.Prelude.{◌≡◌, ◌<◌, ◌⊎◌, true, false, [], ◌∷◌, All, length, slice_get, map};
ghost use Rattle.std.specs.Prelude.{None, Some, Ok, Err, IfOk, IfErr, IsOk, OnOk, OnErr};
ghost use Rattle.type_terms.specs.Promised.Handles.{ArgHeld, Is, Keeps, types, consts, arg_trees};
ghost use Rattle.type_terms.specs.Promised.Label.{of_type, of_const, infer};
ghost use Rattle.type_terms.specs.Promised.Trees.{leaf};
ghost use Rattle.type_terms.specs.Growth.{FullAtLimit};
ghost use Rattle.infer_table.specs.Content.{content, variables_of};
ghost use Rattle.infer_table.specs.Equated.{MakesEqual};
ghost use Rattle.infer_table.specs.Goals.{GoalHeld, goal_trees};
ghost use Rattle.infer_table.specs.Shortages.{EqFullAtLimit};
ghost use Rattle.infer_table.specs.Solutions.{resolved};
ghost use Rattle.search_graph.specs.Cache.{AreJustified};
ghost use Rattle.solver_graph.specs.Contexts.{Advances, IsReady};
ghost use Rattle.solver_graph.specs.Searching.{solver_meaning};
ghost use Rattle.solver_graph.specs.Shortages.{ContextFullAtLimit};
ghost use Rattle.fulfillment.specs.Obligations.{IsRegistered, SomeIsSpent, standing_of};
ghost use Rattle.fulfillment.specs.Selecting.{HasSelected, IsReached, SomeStaysOpen};
ghost use Rattle.fulfillment.specs.declared.obligation.Obligation.{Obligation};
ghost use Rattle.fulfillment.specs.declared.obligation.ObligationId.{ObligationId};
ghost use Rattle.inference.specs.declared.context.Infer.{Infer};
ghost use Rattle.inference.specs.Inference.{equal, proved, HaveNoSolutionWith, IsFaithfulTo};
ghost use Rattle.inference.specs.Inferring.{CanInfer, GoalIsOver, HasOneMore, IsAskedFurther, IsOverVariables, ShowsSolutions, no_variables};
ghost use Rattle.inference.specs.Inferring.{HasGrownFrom, HasSolution, IsAsBefore, IsSnapshotOf};

use crate::laws::{resting_laws, restoring_laws};
use fulfillment::{
    FulfillmentCtxt, Obligation, ObligationId, ObligationsSnapshot, Selected, Standing,
};
use goal_evaluator::TypingMode;
use goal_frames::GoalHandler;
use infer_table::certainty::EqError;
use infer_table::goal::Goal;
use infer_table::infer_ctxt::InferCtxt;
use infer_table::laws::solution_laws;
use infer_table::terms::Snapshot as TableSnapshot;
use solver_graph::{Search, context_laws};
use std::alloc::{AllocError, Global};
use type_terms::Fault;
use type_terms::kinds::{Const, GenericArgKind, Ty};

/// Inference variables with their values, and goals that have to hold together.
///
/// A context belongs to one search: each call takes it, and all handles are of its interner. Between two calls the search may evaluate other
/// goals, and its interner may grow.
///
/// The promise is `IsFaithfulTo`. A new context is faithful to no demands, and each call preserves that for what was asked before and for what
/// it asks. Take values for the variables that the user made, with which terms that were to be equal are equal, and all goals have proofs: the
/// table has a solution with these values. What it says of solutions holds while no goal has where-clauses or placeholders.
///
/// rustc: `ObligationCtxt` of `rustc_trait_selection` with its `InferCtxt`. rust-analyzer: `InferenceTable`.
pub struct Infer {
    table: InferCtxt,
    goals: FulfillmentCtxt,
    mode: TypingMode,
}

// Hand-written so that the prover sees one drop call: docs/PROVING.md#drop.
impl Drop for Infer {
    fn drop(self) {
        let Infer {
            table: _,
            goals: _,
            mode: _,
        } = self;
    }
}

/// A snapshot of a context: of its table, and of how its obligations stand.
#[derive(Drop)]
pub struct Snapshot {
    table: TableSnapshot,
    goals: ObligationsSnapshot,
}

/// Whether an equation has a solution.
fn can_be(made: Result<(), EqError>) -> Result<bool, Fault>
    ensures possible { result ≡ Ok true → IsOk made }
    ensures impossible { result ≡ Ok false → made ≡ Err EqError.NoSolution }
    ensures fault { IfErr result (λ f. made ≡ Err (EqError.Fault f)) }
{
    match made {
        Ok(()) => Ok(true),
        Err(EqError::NoSolution) => Ok(false),
        Err(EqError::Fault(fault)) => Err(fault),
    }
}

impl Infer {
    /// A context without variables and goals. Goals are evaluated in this typing mode, and at most `limit` answers to each may have values.
    ///
    /// [`FulfillmentCtxt::new`] says which limit to take.
    pub fn new<H: GoalHandler>(search: &Search<H>, mode: TypingMode, limit: usize) -> Infer
        requires empty { search.now.graph.current_depth ≡ 0 }
        requires cache { AreJustified (solver_meaning H.meaning) search.now.cx search.now.cache }
        requires ready { IsReady H.meaning.IsReady search.now.cx }
        ensures again { CanInfer H.meaning search.now.graph search.now.cache search.now.cx result }
        ensures faithful { IsFaithfulTo H.meaning no_variables [] search.now.cx result }
        ensures mode { result.mode ≡ mode }
        ensures none { result.goals.obligations.items ≡ [] }
        ensures limit { result.goals.limit ≡ limit }
    {
        let alloc = search.cx.alloc;
        Infer {
            table: InferCtxt::new(alloc),
            goals: FulfillmentCtxt::new(alloc, limit),
            mode,
        }
    }

    /// A new type variable.
    ///
    /// Fails with `Memory` if memory is refused or the table has no further number, and with `Full` only if the interner has no room for a
    /// type. Then the context is as it was.
    ///
    /// rustc: `InferCtxt::next_ty_var`.
    pub fn fresh_ty<H: GoalHandler>(&mut self, search: &mut Search<H>) -> Result<Ty, Fault>
        requires { CanInfer H.meaning search.old.graph search.old.cache search.old.cx self.old }
        ensures again { CanInfer H.meaning search.new.graph search.new.cache search.new.cx self.new }
        ensures advances { Advances H.meaning.IsReady search.old.cx search.new.cx }
        ensures is { IfOk result (λ t. Is search.new.cx.interner.entries types t.0 (leaf (infer of_type self.old.table.ty_vars))) }
        ensures faithful { OnOk result (HasOneMore H.meaning of_type self.old.table.ty_vars search.old.cx self.old search.new.cx self.new) }
        ensures grows { HasGrownFrom self.old self.new }
        ensures goals { self.new.goals ≡ self.old.goals }
        ensures mode { self.new.mode ≡ self.old.mode }
        ensures as_it_was { OnErr result (self.new ≡ self.old) }
        ensures full { IfErr result (FullAtLimit search.new.cx.interner) }
    {
        context_laws::<H>();
        let made = self.table.next_ty_var(&mut search.cx.interner);
        search.cx.interner.lawful();
        made
    }

    /// A new constant variable. It fails like [`Infer::fresh_ty`].
    ///
    /// rustc: `InferCtxt::next_const_var`.
    pub fn fresh_const<H: GoalHandler>(&mut self, search: &mut Search<H>) -> Result<Const, Fault>
        requires { CanInfer H.meaning search.old.graph search.old.cache search.old.cx self.old }
        ensures again { CanInfer H.meaning search.new.graph search.new.cache search.new.cx self.new }
        ensures advances { Advances H.meaning.IsReady search.old.cx search.new.cx }
        ensures is { IfOk result (λ t. Is search.new.cx.interner.entries consts t.0 (leaf (infer of_const self.old.table.const_vars))) }
        ensures faithful { OnOk result (HasOneMore H.meaning of_const self.old.table.const_vars search.old.cx self.old search.new.cx self.new) }
        ensures grows { HasGrownFrom self.old self.new }
        ensures goals { self.new.goals ≡ self.old.goals }
        ensures mode { self.new.mode ≡ self.old.mode }
        ensures as_it_was { OnErr result (self.new ≡ self.old) }
        ensures full { IfErr result (FullAtLimit search.new.cx.interner) }
    {
        context_laws::<H>();
        let made = self.table.next_const_var(&mut search.cx.interner);
        search.cx.interner.lawful();
        made
    }

    /// Makes two types, constants or lifetimes equal.
    ///
    /// Fails with `NoSolution` if no solution of all that was asked makes them equal, with `Fault(Memory)` if memory is refused or the table
    /// has no numbers for lifetimes that they bind, and with `Fault(Full)` only if the interner has no room for a term. Then the context is
    /// as it was.
    ///
    /// rustc: `ObligationCtxt::eq`. rust-analyzer: `InferenceTable::unify`.
    pub fn eq<H: GoalHandler>(
        &mut self,
        search: &mut Search<H>,
        left: GenericArgKind,
        right: GenericArgKind,
    ) -> Result<(), EqError>
        requires can { CanInfer H.meaning search.old.graph search.old.cache search.old.cx self.old }
        requires left { ArgHeld search.old.cx.interner.entries left }
        requires right { ArgHeld search.old.cx.interner.entries right }
        requires left_over { IsOverVariables (variables_of self.old.table) (arg_trees search.old.cx.interner.entries left) }
        requires right_over { IsOverVariables (variables_of self.old.table) (arg_trees search.old.cx.interner.entries right) }
        ensures again { CanInfer H.meaning search.new.graph search.new.cache search.new.cx self.new }
        ensures advances { Advances H.meaning.IsReady search.old.cx search.new.cx }
        ensures faithful { OnOk result (let es = search.old.cx.interner.entries in
            IsAskedFurther H.meaning (equal (arg_trees es left) (arg_trees es right) ∷ []) search.old.cx self.old search.new.cx self.new) }
        ensures equates { OnOk result (let es = search.old.cx.interner.entries in
            MakesEqual es self.old.table search.new.cx.interner.entries self.new.table (arg_trees es left) (arg_trees es right)) }
        ensures no_solution { result ≡ Err EqError.NoSolution → let es = search.old.cx.interner.entries in
            HaveNoSolutionWith H.meaning (equal (arg_trees es left) (arg_trees es right) ∷ []) search.old.cx self.old }
        ensures grows { HasGrownFrom self.old self.new }
        ensures goals { self.new.goals ≡ self.old.goals }
        ensures mode { self.new.mode ≡ self.old.mode }
        ensures as_it_was { OnErr result (self.new ≡ self.old) }
        ensures full { IfErr result (EqFullAtLimit search.new.cx.interner) }
    {
        context_laws::<H>();
        let made = self.table.eq(&mut search.cx.interner, left, right);
        search.cx.interner.lawful();
        made
    }

    /// Whether the two terms can be equal, by the values that the table has. No goal is selected, and the context is as it was.
    ///
    /// - `true`: a solution of the table makes them equal.
    /// - `false`: no solution of all that was asked does.
    ///
    /// Fails with the faults of [`Infer::eq`].
    ///
    /// rustc: `InferCtxt::can_eq`. rust-analyzer: `InferenceTable::could_unify`.
    pub fn can_eq<H: GoalHandler>(
        &mut self,
        search: &mut Search<H>,
        left: GenericArgKind,
        right: GenericArgKind,
    ) -> Result<bool, Fault>
        requires can { CanInfer H.meaning search.old.graph search.old.cache search.old.cx self.old }
        requires left { ArgHeld search.old.cx.interner.entries left }
        requires right { ArgHeld search.old.cx.interner.entries right }
        requires left_over { IsOverVariables (variables_of self.old.table) (arg_trees search.old.cx.interner.entries left) }
        requires right_over { IsOverVariables (variables_of self.old.table) (arg_trees search.old.cx.interner.entries right) }
        ensures again { CanInfer H.meaning search.new.graph search.new.cache search.new.cx self.new }
        ensures advances { Advances H.meaning.IsReady search.old.cx search.new.cx }
        ensures faithful { IsAskedFurther H.meaning [] search.old.cx self.old search.new.cx self.new }
        ensures as_before { IsAsBefore self.old self.new }
        ensures possible { result ≡ Ok true → let es = search.old.cx.interner.entries in
            HasSolution (content es self.old.table.values) (arg_trees es left) (arg_trees es right) }
        ensures impossible { result ≡ Ok false → let es = search.old.cx.interner.entries in
            HaveNoSolutionWith H.meaning (equal (arg_trees es left) (arg_trees es right) ∷ []) search.old.cx self.old }
        ensures full { IfErr result (FullAtLimit search.new.cx.interner) }
    {
        context_laws::<H>();
        resting_laws::<H>();
        restoring_laws::<H>();
        solution_laws();
        let place = self.table.snapshot();
        let made = self.eq(search, left, right);
        self.table.roll_back(place);
        can_be(made)
    }

    /// Adds a goal behind the others. It is pending, and was not evaluated yet.
    ///
    /// Fails if memory is refused. Then the context is as it was.
    ///
    /// rustc: `ObligationCtxt::register_obligation`. rust-analyzer: `InferenceTable::register_obligation`.
    pub fn register<H: GoalHandler>(
        &mut self,
        search: &Search<H>,
        goal: Goal,
    ) -> Result<ObligationId, AllocError>
        requires can { CanInfer H.meaning search.now.graph search.now.cache search.now.cx self.old }
        requires held { GoalHeld search.now.cx.interner.entries goal }
        requires over { GoalIsOver (variables_of self.old.table) (goal_trees search.now.cx.interner.entries goal) }
        ensures again { CanInfer H.meaning search.now.graph search.now.cache search.now.cx self.new }
        ensures registered { IfOk result (λ id. IsRegistered self.old.goals.obligations.items self.old.goals.limit goal id self.new.goals.obligations.items) }
        ensures faithful { OnOk result (IsAskedFurther H.meaning (proved (goal_trees search.now.cx.interner.entries goal) ∷ [])
            search.now.cx self.old search.now.cx self.new) }
        ensures grows { HasGrownFrom self.old self.new }
        ensures table { self.new.table ≡ self.old.table }
        ensures mode { self.new.mode ≡ self.old.mode }
        ensures limit { self.new.goals.limit ≡ self.old.goals.limit }
        ensures as_it_was { OnErr result (self.new.goals.obligations.items ≡ self.old.goals.obligations.items) }
    {
        let _ = search;
        self.goals.register(goal)
    }

    /// Selects the registered goals: [`FulfillmentCtxt::select_within`]. What answers fix stays in the table, whatever their certainty.
    ///
    /// - `AllDone`: each obligation is done.
    /// - `Refused`: this obligation was refused. Then there is no solution of all that was asked.
    /// - `Pending`: some obligation is pending, and another evaluation fixes nothing new.
    /// - `None`: it stopped before an evaluation, since searches have started `until` frames in all. Another call goes on.
    ///
    /// Fails with `Memory` if memory is refused, or if the table has no numbers for a goal's form or for its answer. Fails with `Full` only
    /// if a table of the search's context is at its limit. What was found stays, and the context can be used further.
    ///
    /// rustc: `ObligationCtxt::select_where_possible`. rust-analyzer: `InferenceTable::select_obligations_where_possible`.
    pub fn select_where_possible<H: GoalHandler>(
        &mut self,
        search: &mut Search<H>,
        until: Option<u64>,
    ) -> Result<Option<Selected>, Fault>
        requires { CanInfer H.meaning search.old.graph search.old.cache search.old.cx self.old }
        ensures again { CanInfer H.meaning search.new.graph search.new.cache search.new.cx self.new }
        ensures keeps { Keeps search.old.cx.interner.entries search.new.cx.interner.entries }
        ensures faithful { IsAskedFurther H.meaning [] search.old.cx self.old search.new.cx self.new }
        ensures grows { HasGrownFrom self.old self.new }
        ensures selected { HasSelected H.meaning self.old.mode search.old.graph search.old.cache search.old.cx self.old.table
            self.old.goals.obligations.items search.new.graph search.new.cache search.new.cx self.new.table self.new.goals.obligations.items }
        ensures all_done { result ≡ Ok (Some Selected.AllDone)
            → All (λ (o : Obligation). o.standing ≡ Standing.Done) self.new.goals.obligations.items }
        ensures unsettled { result ≡ Ok (Some Selected.Pending) → SomeIsSpent self.old.goals.obligations.items
            ⊎ SomeStaysOpen H.meaning self.old.mode search.old.graph search.old.cx self.old.table self.old.goals.obligations.items }
        ensures refused { (id : ObligationId) → result ≡ Ok (Some (Selected.Refused id)) → HaveNoSolutionWith H.meaning [] search.old.cx self.old }
        ensures stopped { result ≡ Ok None → IsReached until search.new.graph.frames }
        ensures mode { self.new.mode ≡ self.old.mode }
        ensures limit { self.new.goals.limit ≡ self.old.goals.limit }
        ensures full { IfErr result (ContextFullAtLimit search.new.cx) }
    {
        self.goals
            .select_within(search, &mut self.table, self.mode, until)
    }

    /// The obligations, in the order in which they were registered. One that is pending has its cause, and one that was refused says so.
    pub fn obligations(&self) -> &[Obligation]
        ensures { result.now ≡ self.now.goals.obligations.items }
    {
        self.goals.obligations()
    }

    /// How this obligation stands.
    pub fn standing(&self, id: ObligationId) -> Standing
        requires { id.index < length self.now.goals.obligations.items }
        ensures { slice_get (map standing_of self.now.goals.obligations.items) id.index ≡ Some result }
    {
        self.goals.standing(id)
    }

    /// The term with the values that are known: each variable with a value is replaced by it.
    ///
    /// Under each solution of all that was asked, a term of own variables is an instance of it. Fails with `Memory` if memory is refused, and
    /// with `Full` only if the interner has no room for a term.
    ///
    /// rustc: `InferCtxt::resolve_vars_if_possible`. rust-analyzer: `InferenceTable::resolve_completely`, where open variables stay.
    pub fn resolve<H: GoalHandler>(
        &self,
        search: &mut Search<H>,
        term: GenericArgKind,
    ) -> Result<GenericArgKind, Fault>
        requires can { CanInfer H.meaning search.old.graph search.old.cache search.old.cx self.now }
        requires held { ArgHeld search.old.cx.interner.entries term }
        ensures again { CanInfer H.meaning search.new.graph search.new.cache search.new.cx self.now }
        ensures advances { Advances H.meaning.IsReady search.old.cx search.new.cx }
        ensures faithful { IsAskedFurther H.meaning [] search.old.cx self.now search.new.cx self.now }
        ensures held { IfOk result (λ a. ArgHeld search.new.cx.interner.entries a) }
        ensures resolved { IfOk result (λ a. arg_trees search.new.cx.interner.entries a
            ≡ resolved (content search.old.cx.interner.entries self.now.table.values) (arg_trees search.old.cx.interner.entries term)) }
        ensures shows { IfOk result (λ a. ShowsSolutions H.meaning search.old.cx self.now (arg_trees search.old.cx.interner.entries term)
            (arg_trees search.new.cx.interner.entries a)) }
        ensures full { IfErr result (FullAtLimit search.new.cx.interner) }
    {
        context_laws::<H>();
        let resolved = self.table.eager_resolve_vars(&mut search.cx.interner, term);
        search.cx.interner.lawful();
        resolved
    }

    /// A snapshot of the context, to which it can be rolled back. Fails if memory is refused.
    ///
    /// rustc: `InferCtxt::start_snapshot`. rust-analyzer: `InferenceTable::snapshot`.
    pub fn snapshot(&self, alloc: Global) -> Result<Snapshot, AllocError>
        ensures { IfOk result (IsSnapshotOf self.now) }
    {
        let goals = self.goals.snapshot(alloc)?;
        Ok(Snapshot {
            table: self.table.snapshot(),
            goals,
        })
    }

    /// Restores the context as it was at a snapshot: its variables and their values, and its obligations, in number and in how they stand.
    ///
    /// Since then it must only have been used by the calls here. Terms that were made and what the search found stay.
    ///
    /// rustc: `InferCtxt::rollback_to`. rust-analyzer: `InferenceTable::rollback_to`.
    pub fn rollback_to(&mut self, snapshot: Snapshot)
        ensures { (before : Infer) → IsSnapshotOf before snapshot → HasGrownFrom before self.old → IsAsBefore before self.new }
    {
        let Snapshot { table, goals } = snapshot;
        self.table.roll_back(table);
        self.goals.roll_back(&goals);
    }
}
