//! Calls of an inference session as data.

ghost use Rattle.std.specs.Prelude.{◌≡◌, ◌≤◌, Err, IfErr, IfOk, OnErr, length};
ghost use Rattle.sessions.specs.Promised.Subjects.{StaysOn};
ghost use Rattle.session_inference.specs.Inferences.{ErrorAtLimit};
ghost use Rattle.session_inference.specs.Operations.{Does, IsNumberOfSelected, IsRefusedEquation, NamesNothing, StandsAs, StaysAsItWas, standing_number, yes_number};

use crate::error::InferenceError;
use crate::inferring::InferenceSession;
use crate::primitive::Primitive;
use crate::shape::Shape;
use crate::term_id::TermId;
use fulfillment::{Obligation, ObligationId, Selected, Standing};
use goal_evaluator::MaybeCause;
use type_terms::TraitId;

/// A call of an inference session, as data. Each is that of `InferenceSession` with the same name.
#[derive(Clone, Copy)]
pub enum Operation<'a> {
    FreshTy,
    FreshConst,
    Primitive(Primitive),
    Constant(u64),
    Lifetime,
    TyParam(u32),
    ConstParam(u32),
    Ty(Shape, &'a [TermId]),
    Eq(TermId, TermId),
    CanEq(TermId, TermId),
    Assume(TraitId, &'a [TermId]),
    Register(TraitId, &'a [TermId]),
    SelectWherePossible(Option<u64>),
    /// How an obligation stands.
    Standing(ObligationId),
    Resolve(TermId),
    StartSnapshot,
    Commit,
    RollBack,
}

/// 1 for yes, and 0 for no.
fn number_of(answer: bool) -> usize
    ensures { result ≡ yes_number answer }
{
    if answer { 1 } else { 0 }
}

/// 0 where all are done, 1 where some are pending, 2 where it stopped, and 3 more than the number of one that was refused.
fn selected_number(selected: Option<Selected>) -> usize
    ensures { IsNumberOfSelected selected result }
{
    match selected {
        Some(Selected::AllDone) => 0,
        Some(Selected::Pending) => 1,
        None => 2,
        Some(Selected::Refused(id)) => id.index.saturating_add(3),
    }
}

/// 0 where it is done, 1 where it is pending and more values may decide it, 2 where it is pending at a limit, and 3 where it was refused.
fn standing_number(standing: Standing) -> usize
    ensures { result ≡ standing_number standing }
{
    match standing {
        Standing::Done => 0,
        Standing::Pending(MaybeCause::Ambiguity) => 1,
        Standing::Pending(MaybeCause::Overflow) => 2,
        Standing::Refused => 3,
    }
}

/// How an obligation stands, as a number. Fails with `NoSuchTerm` if there is no such obligation.
fn standing_at(obligations: &[Obligation], id: ObligationId) -> Result<usize, InferenceError>
    ensures stands { IfOk result (StandsAs obligations.now id) }
    ensures none { OnErr result (length obligations.now ≤ id.index) }
    ensures error { IfErr result (λ e. e ≡ InferenceError.NoSuchTerm) }
{
    match obligations.get(id.index) {
        Some(obligation) => Ok(standing_number(obligation.standing)),
        None => Err(InferenceError::NoSuchTerm),
    }
}

impl InferenceSession<'_> {
    /// Makes a call. What it gives is the number of a term or an obligation, that of an answer (1 for yes), or 0.
    ///
    /// A selection gives 0 where all are done, 1 where some are pending, 2 where it stopped, and 3 more than the number of an obligation that was
    /// refused. An obligation stands as 0 where it is done, 1 where it is pending and more values may decide it, 2 where it is pending at a limit, and 3
    /// where it was refused. The errors are those of the call; there is `NoSuchTerm` too where there is no obligation of a number.
    pub fn perform(&mut self, operation: Operation<'_>) -> Result<usize, InferenceError>
        ensures stays { StaysOn self.old.subject self.new.subject }
        ensures does { IfOk result (Does operation.entry self.old self.new) }
        ensures refused { OnErr result (StaysAsItWas self.old self.new) }
        ensures no_solution { result ≡ Err InferenceError.NoSolution → IsRefusedEquation operation.entry self.old }
        ensures no_term { result ≡ Err InferenceError.NoSuchTerm → NamesNothing operation.entry self.old }
        ensures full { IfErr result (ErrorAtLimit self.new) }
    {
        match operation {
            Operation::FreshTy => {
                let id = self.fresh_ty()?;
                Ok(id.index)
            }
            Operation::FreshConst => {
                let id = self.fresh_const()?;
                Ok(id.index)
            }
            Operation::Primitive(primitive) => {
                let id = self.primitive(primitive)?;
                Ok(id.index)
            }
            Operation::Constant(number) => {
                let id = self.constant(number)?;
                Ok(id.index)
            }
            Operation::Lifetime => {
                let id = self.lifetime()?;
                Ok(id.index)
            }
            Operation::TyParam(number) => {
                let id = self.ty_param(number)?;
                Ok(id.index)
            }
            Operation::ConstParam(number) => {
                let id = self.const_param(number)?;
                Ok(id.index)
            }
            Operation::Ty(shape, parts) => {
                let id = self.ty(shape, parts)?;
                Ok(id.index)
            }
            Operation::Eq(left, right) => {
                self.eq(left, right)?;
                Ok(0)
            }
            Operation::CanEq(left, right) => {
                let can = self.can_eq(left, right)?;
                Ok(number_of(can))
            }
            Operation::Assume(trait_id, args) => {
                self.assume(trait_id, args)?;
                Ok(0)
            }
            Operation::Register(trait_id, args) => {
                let id = self.register(trait_id, args)?;
                Ok(id.index)
            }
            Operation::SelectWherePossible(budget) => {
                let selected = self.select_where_possible(budget)?;
                Ok(selected_number(selected))
            }
            Operation::Standing(id) => standing_at(self.obligations(), id),
            Operation::Resolve(term) => {
                let id = self.resolve(term)?;
                Ok(id.index)
            }
            Operation::StartSnapshot => {
                self.start_snapshot()?;
                Ok(0)
            }
            Operation::Commit => Ok(number_of(self.commit())),
            Operation::RollBack => Ok(number_of(self.roll_back())),
        }
    }
}
