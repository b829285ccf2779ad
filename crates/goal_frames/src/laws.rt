//! Laws of the numbers of a store.
ghost use Rattle.std.specs.Prelude.{◌≡◌, ◌↔◌, List, Some, true};
ghost use Rattle.type_terms.specs.Promised.Handles.{Entry, Keeps};
ghost use Rattle.type_terms.specs.Terms.{Lawful};
ghost use Rattle.infer_table.specs.Responses.{AnswerTrees};
ghost use Rattle.goal_frames.specs.declared.store.GoalStore.{GoalStore};
ghost use Rattle.goal_frames.specs.declared.store.InputId.{InputId};
ghost use Rattle.goal_frames.specs.declared.store.ResponseId.{ResponseId};
ghost use Rattle.goal_frames.specs.Stores.{AskedGoal, goal_at, answer_at, HasInput, HasResponse, StoreIsHeld, StoreGrows, NumbersTellQuestions};

use crate::store::{InputId, ResponseId};

/// Equal numbers are the same number.
pub fn number_laws()
    ensures inputs { (i j : InputId) → (⟦<InputId as PartialEq>⟧.eq i j ≡ true) ↔ (i ≡ j) }
    ensures responses { (i j : ResponseId) → (⟦<ResponseId as PartialEq>⟧.eq i j ≡ true) ↔ (i ≡ j) }
{}

/// Over a lawful interner each goal has one number, and so has each response. The numbers of two goals are equal exactly if a
/// renaming maps one goal to the other.
pub fn distinct_laws()
    ensures inputs { (es : List Entry) (s : GoalStore) (i j : InputId) (q : AskedGoal) → Lawful es → StoreIsHeld es s → goal_at es s i ≡ Some q
        → goal_at es s j ≡ Some q → i ≡ j }
    ensures responses { (es : List Entry) (s : GoalStore) (i j : ResponseId) (a : AnswerTrees) → Lawful es → StoreIsHeld es s → answer_at es s i ≡ Some a
        → answer_at es s j ≡ Some a → i ≡ j }
    ensures questions { NumbersTellQuestions }
{}

/// As the interner grows, all that is stored is still of this interner, and numbers represent the same goals and responses.
pub fn interner_laws()
    ensures held { (old new : List Entry) (s : GoalStore) → Keeps old new → StoreIsHeld old s → StoreIsHeld new s }
    ensures goals { (old new : List Entry) (s : GoalStore) (i : InputId) → Keeps old new → StoreIsHeld old s → goal_at new s i ≡ goal_at old s i }
    ensures answers { (old new : List Entry) (s : GoalStore) (i : ResponseId) → Keeps old new → StoreIsHeld old s → answer_at new s i ≡ answer_at old s i }
{}

/// As the store grows, its numbers represent the same goals and responses.
pub fn growth_laws()
    ensures goals { (es : List Entry) (old new : GoalStore) (i : InputId) → StoreGrows old new → HasInput old i → goal_at es new i ≡ goal_at es old i }
    ensures answers { (es : List Entry) (old new : GoalStore) (i : ResponseId) → StoreGrows old new → HasResponse old i
        → answer_at es new i ≡ answer_at es old i }
    ensures same { (s : GoalStore) → StoreGrows s s }
    ensures further { (a b c : GoalStore) → StoreGrows a b → StoreGrows b c → StoreGrows a c }
{}
