//! Stores goals and responses without duplicates.
ghost use Rattle.std.specs.Prelude.{◌≡◌, ◌≤◌, ℕ, List, [], length, Some, IfOk, OnOk, OnErr, Ok, Err, true, false};
ghost use Rattle.std.specs.List.{slice_get};
ghost use Rattle.indexmap.specs.IndexSet.{index_set_len, insert_key, contains, spare, IsUnique};
ghost use Rattle.type_terms.specs.Promised.Handles.{Entry};
ghost use Rattle.type_terms.specs.Terms.{Lawful};
ghost use Rattle.type_terms.specs.declared.Fault.TheVariants.{Memory, Full};
ghost use Rattle.infer_table.specs.Goals.{GoalHeld};
ghost use Rattle.infer_table.specs.Responses.{ResponseHeld, answer_trees};
ghost use Rattle.goal_frames.specs.Stores.{kept_inputs, kept_responses, limit_of, room_for_inputs, room_for_responses, StandsForInput, StandsForResponse, IsNewInput, IsNewResponse, AddsInput, AddsResponse, asked_goal, goal_at, answer_at, StoreIsHeld, StoreGrows, FindsRenamed};

use crate::store::{GoalStore, InputId, ResponseId};
use indexmap::IndexSet;
use infer_table::input::CanonicalInput;
use infer_table::response::CanonicalResponse;
use std::alloc::Global;
use std::hash::Hash;
use type_terms::Fault;

impl GoalStore {
    /// An empty store with room for `limit` goals and as many responses. It allocates nothing before the first.
    pub fn new(alloc: Global, limit: u32) -> GoalStore
        ensures inputs { kept_inputs result ≡ [] }
        ensures responses { kept_responses result ≡ [] }
        ensures limit { limit_of result ≡ limit }
        ensures held { (es : List Entry) → StoreIsHeld es result }
    {
        GoalStore {
            inputs: IndexSet::new(alloc),
            responses: IndexSet::new(alloc),
            limit,
        }
    }

    /// The number of a goal: its existing one, or a new one.
    ///
    /// A stored goal is found without memory, even if the store is full. `Full` is returned if the goal is new and there are as
    /// many goals as the limit allows, and `Memory` if memory for a new goal is refused. Then the store is unchanged. The call
    /// computes one hash of the goal.
    pub fn keep_input(&mut self, input: CanonicalInput) -> Result<InputId, Fault>
        ensures is { IfOk result (λ id. StandsForInput self.new id input) }
        ensures goal { IfOk result (λ id. (es : List Entry) → goal_at es self.new id ≡ Some (asked_goal es input)) }
        ensures grows { StoreGrows self.old self.new }
        ensures adds { OnOk result (AddsInput self.old input self.new) }
        ensures responses { kept_responses self.new ≡ kept_responses self.old }
        ensures limit { limit_of self.new ≡ limit_of self.old }
        ensures held { (es : List Entry) → GoalHeld es input.goal → StoreIsHeld es self.old → StoreIsHeld es self.new }

        // A stored goal has its earlier number. So does a goal that is equal up to renaming.
        ensures found { (id : InputId) → StandsForInput self.old id input → result ≡ Ok id }
        ensures known { (es : List Entry) (id : InputId) → Lawful es → StoreIsHeld es self.old → GoalHeld es input.goal
            → goal_at es self.old id ≡ Some (asked_goal es input) → result ≡ Ok id }
        ensures renamed { FindsRenamed self.old input result }

        ensures refused { OnErr result (kept_inputs self.new ≡ kept_inputs self.old) }
        ensures absent { OnErr result (IsNewInput self.old input) }
        ensures full { result ≡ Err Full → length (kept_inputs self.old) ≡ limit_of self.old }
        ensures memory { result ≡ Err Memory → room_for_inputs self.old ≡ 0 }
        ensures refuses { length (kept_inputs self.old) ≡ limit_of self.old → IsNewInput self.old input → result ≡ Err Full }
    {
        let place = keep(&mut self.inputs, self.limit, input)?;
        Ok(InputId(place))
    }

    /// The number of a response, like `keep_input` for a goal.
    pub fn keep_response(&mut self, response: CanonicalResponse) -> Result<ResponseId, Fault>
        ensures is { IfOk result (λ id. StandsForResponse self.new id response) }
        ensures answer { IfOk result (λ id. (es : List Entry) → answer_at es self.new id ≡ Some (answer_trees es response)) }
        ensures grows { StoreGrows self.old self.new }
        ensures adds { OnOk result (AddsResponse self.old response self.new) }
        ensures inputs { kept_inputs self.new ≡ kept_inputs self.old }
        ensures limit { limit_of self.new ≡ limit_of self.old }
        ensures held { (es : List Entry) → ResponseHeld es response → StoreIsHeld es self.old → StoreIsHeld es self.new }

        // A stored response has its earlier number. So does an equal one.
        ensures found { (id : ResponseId) → StandsForResponse self.old id response → result ≡ Ok id }
        ensures known { (es : List Entry) (id : _) → Lawful es → StoreIsHeld es self.old → ResponseHeld es response
            → answer_at es self.old id ≡ Some (answer_trees es response) → result ≡ Ok id }

        ensures refused { OnErr result (kept_responses self.new ≡ kept_responses self.old) }
        ensures absent { OnErr result (IsNewResponse self.old response) }
        ensures full { result ≡ Err Full → length (kept_responses self.old) ≡ limit_of self.old }
        ensures memory { result ≡ Err Memory → room_for_responses self.old ≡ 0 }
        ensures refuses { length (kept_responses self.old) ≡ limit_of self.old → IsNewResponse self.old response → result ≡ Err Full }
    {
        let place = keep(&mut self.responses, self.limit, response)?;
        Ok(ResponseId(place))
    }
}

/// The index of the value in the store: its existing one, or the next.
fn keep<T: Eq + Hash + Drop>(kept: &mut IndexSet<T>, limit: u32, value: T) -> Result<u32, Fault>
    requires { index_set_len kept.old ≤ limit }
    ensures is { IfOk result (λ place. (k : T) × (slice_get kept.new.keys place ≡ Some k) × (T.eq value k ≡ true)) }
    ensures keys { OnOk result (kept.new.keys ≡ insert_key T.eq kept.old.keys value) }
    ensures within { index_set_len kept.new ≤ limit }
    ensures unique { IsUnique T.eq kept.new }
    ensures refused { OnErr result (kept.new.keys ≡ kept.old.keys) }
    ensures absent { OnErr result (contains T.eq kept.old value ≡ false) }
    ensures full { result ≡ Err Full → index_set_len kept.old ≡ limit }
    ensures memory { result ≡ Err Memory → spare kept.old ≡ 0 }
    ensures refuses { index_set_len kept.old ≡ limit → contains T.eq kept.old value ≡ false → result ≡ Err Full }
{
    if kept.len() < limit as usize {
        let (place, _) = kept.insert_full(value)?;
        return Ok(place as u32);
    }
    if let Some(place) = kept.get_index_of(&value) {
        return Ok(place as u32);
    }
    Err(Fault::Full)
}
