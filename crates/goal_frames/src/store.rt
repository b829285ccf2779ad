//! The store and its numbers.
ghost use Rattle.std.specs.Prelude.{◌≤◌, length};
ghost use Rattle.std.specs.List.{IsDistinct, IsDistinct-prop};

use indexmap::IndexSet;
use infer_table::input::CanonicalInput;
use infer_table::response::CanonicalResponse;

/// A canonical goal, by its number in a store.
#[derive(Clone, Copy, PartialEq, Eq, Hash)]
pub struct InputId(pub u32);

/// A response, by its number in a store.
#[derive(Clone, Copy, PartialEq, Eq, Hash)]
pub struct ResponseId(pub u32);

/// Canonical goals and responses, without duplicates.
pub struct GoalStore {
    pub(crate) inputs: IndexSet<CanonicalInput>,
    pub(crate) responses: IndexSet<CanonicalResponse>,
    pub(crate) limit: u32,
    ghost inputs_distinct: { IsDistinct ⟦<CanonicalInput as PartialEq>⟧.eq inputs.keys } by { IsDistinct-prop _ _ },
    ghost responses_distinct: { IsDistinct ⟦<CanonicalResponse as PartialEq>⟧.eq responses.keys } by { IsDistinct-prop _ _ },
    ghost inputs_within: { length inputs.keys ≤ limit },
    ghost responses_within: { length responses.keys ≤ limit },
}

// Hand-written so that the prover sees one drop call: docs/PROVING.md#drop.
impl Drop for GoalStore {
    fn drop(self) {
        let GoalStore {
            inputs: _,
            responses: _,
            limit: _,
        } = self;
    }
}
