//! The goals and responses that numbers represent, borrowed or copied.
ghost use Rattle.std.specs.Prelude.{◌≡◌, List, Some, IfOk, IfErr};
ghost use Rattle.type_terms.specs.Promised.Handles.{Entry};
ghost use Rattle.type_terms.specs.declared.Fault.TheVariants.{Memory};
ghost use Rattle.infer_table.specs.Goals.{GoalHeld};
ghost use Rattle.infer_table.specs.Responses.{ResponseHeld, answer_trees};
ghost use Rattle.goal_frames.specs.Stores.{input_at, response_at, HasInput, HasResponse, StandsForInput, StandsForResponse, asked_goal, goal_at, answer_at, StoreIsHeld};

use crate::store::{GoalStore, InputId, ResponseId};
use infer_table::input::CanonicalInput;
use infer_table::response::CanonicalResponse;
use type_terms::Fault;

impl GoalStore {
    /// The canonical goal with this number. It allocates nothing.
    pub fn input(&self, id: InputId) -> &CanonicalInput
        requires { HasInput self.now id }
        ensures is { input_at self.now id ≡ Some result.now }
        ensures held { (es : List Entry) → StoreIsHeld es self.now → GoalHeld es result.now.goal }
    {
        match self.inputs.get_index(id.0 as usize) {
            Some(input) => input,
            None => unreachable!(),
        }
    }

    /// The response with this number.
    pub fn response(&self, id: ResponseId) -> &CanonicalResponse
        requires { HasResponse self.now id }
        ensures is { response_at self.now id ≡ Some result.now }
        ensures held { (es : List Entry) → StoreIsHeld es self.now → ResponseHeld es result.now }
    {
        match self.responses.get_index(id.0 as usize) {
            Some(response) => response,
            None => unreachable!(),
        }
    }

    /// A copy of the goal with this number.
    ///
    /// The only fault is `Memory`.
    pub fn copy_input(&self, id: InputId) -> Result<CanonicalInput, Fault>
        requires { HasInput self.now id }
        ensures is { IfOk result (StandsForInput self.now id) }
        ensures goal { IfOk result (λ copy. (es : List Entry) → goal_at es self.now id ≡ Some (asked_goal es copy)) }
        ensures held { IfOk result (λ copy. (es : List Entry) → StoreIsHeld es self.now → GoalHeld es copy.goal) }
        ensures memory { IfErr result (λ fault. fault ≡ Memory) }
    {
        let copy = self.input(id).clone()?;
        Ok(copy)
    }

    /// A copy of the response with this number.
    ///
    /// The only fault is `Memory`.
    pub fn copy_response(&self, id: ResponseId) -> Result<CanonicalResponse, Fault>
        requires { HasResponse self.now id }
        ensures is { IfOk result (StandsForResponse self.now id) }
        ensures answer { IfOk result (λ copy. (es : List Entry) → answer_at es self.now id ≡ Some (answer_trees es copy)) }
        ensures held { IfOk result (λ copy. (es : List Entry) → StoreIsHeld es self.now → ResponseHeld es copy) }
        ensures memory { IfErr result (λ fault. fault ≡ Memory) }
    {
        let copy = self.response(id).clone()?;
        Ok(copy)
    }
}
