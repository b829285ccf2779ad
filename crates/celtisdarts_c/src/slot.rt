//! The slot of a handle, and the calls on it.

ghost use Rattle.std.specs.Prelude.{◌≡◌, ◌≢◌, ◌⊎◌, None, Some, Ok};
ghost use Rattle.celtisdarts_c.specs.Asked.{fault_word, TellsNumber, HasNoCrate, IsCrateName, IsCrateLine, IsAnswer, IsUnanswered};
ghost use Rattle.celtisdarts_c.specs.Inferred.{HasBegunIn, HasInferred, HasNoSolutionIn, IsTermText, LacksAnythingIn, StaysAsItWasIn, inference_in};
ghost use Rattle.celtisdarts_c.specs.Told.{IsAtFront, IsTooShort};
ghost use Rattle.celtisdarts_c.specs.Told.{Tells, TellsLength};

use crate::call::{Call, make, told};
use crate::told::tell;
use coherence::{AskFault, Asker, CrateId, Fault};
use session_inference::{InferenceError, LeftInference, TermId};
use std::alloc::Global;
use std::marker::Model;

/// A slot for a text that can be queried, and for inference in one of its crates. It is empty until a text is read.
#[derive(Drop)]
pub struct Slot {
    asker: Option<Asker>,
    /// What the last call of the inference left.
    left: Option<LeftInference>,
}

impl Model for Slot {
    ghost use Rattle.celtisdarts_c.specs.Slots.{IsInferenceOf, SlotState, slot_code};

    ghost Value = { SlotState };

    ghost coded = { slot_code };

    ghost view = { λ s. record { asker = s.asker; left = s.left } };

    ghost invariant = { λ s. IsInferenceOf s.asker s.left };
}

impl Slot {
    /// A slot without a text.
    pub fn empty() -> Slot
        ensures { result.asker ≡ None }
    {
        Slot {
            asker: None,
            left: None,
        }
    }

    /// A slot with this text.
    pub fn of(asker: Asker) -> Slot
        ensures { result.asker ≡ Some asker }
    {
        Slot {
            asker: Some(asker),
            left: None,
        }
    }

    /// Begins inference in a crate, in the place of the one before, which is dropped. Returns 0, 3, 4, 9 or 10.
    pub fn begin(&mut self, number: u32) -> u32
        ensures begun { result ≡ 0 → HasBegunIn self.old number self.new }
        ensures asker { self.new.asker ≡ self.old.asker }
        ensures word { (result ≡ 0) ⊎ (result ≡ 3) ⊎ (result ≡ 4) ⊎ (result ≡ 9) ⊎ (result ≡ 10) }
        ensures no_crate { result ≡ 9 → HasNoCrate self.old number }
        ensures no_text { result ≡ 10 → self.old.asker ≡ None }
        ensures stays { result ≢ 0 → self.new ≡ self.old }
    {
        let Some(asker) = &mut self.asker else {
            return 10;
        };
        if number as usize >= asker.workspace().crates().len() {
            return 9;
        }
        match asker.begin_inference(CrateId { index: number }) {
            Err(Fault::Full) => 4,
            Err(_) => 3,
            Ok(begun) => {
                self.left = Some(begun);
                0
            }
        }
    }

    /// Ends the inference. What its searches found is kept. Returns 0, 10 or 11.
    pub fn end(&mut self) -> u32
        ensures ended { result ≡ 0 → self.new.left ≡ None }
        ensures word { (result ≡ 0) ⊎ (result ≡ 10) ⊎ (result ≡ 11) }
        ensures no_text { result ≡ 10 → self.old.asker ≡ None }
        ensures no_inference { result ≡ 11 → self.old.left ≡ None }
        ensures asker { self.new.asker ≡ self.old.asker }
    {
        let Some(asker) = &mut self.asker else {
            return 10;
        };
        match self.left.take() {
            None => 11,
            Some(left) => {
                asker.keep(left);
                0
            }
        }
    }

    /// Makes a call of the inference. Returns 0, 3, 4, or 10 to 16.
    pub fn infer(&mut self, alloc: Global, call: &Call<'_>, given: &mut u32) -> u32
        ensures done { result ≡ 0 → HasInferred self.old call.now self.new given.new }
        ensures refused { result ≢ 0 → result ≢ 4 → StaysAsItWasIn self.old self.new }
        ensures no_solution { result ≡ 13 → HasNoSolutionIn self.old call.now }
        ensures no_term { result ≡ 12 → LacksAnythingIn self.old call.now }
        ensures no_text { result ≡ 10 → self.old.asker ≡ None }
        ensures no_inference { result ≡ 11 → self.old.left ≡ None }
        ensures asker { self.new.asker ≡ self.old.asker }
    {
        let Some(asker) = &self.asker else {
            return 10;
        };
        let Some(left) = self.left.take() else {
            return 11;
        };
        let mut session = asker.inferring(left);
        let outcome = make(alloc, &mut session, call);
        self.left = Some(session.leave());
        told(outcome, given)
    }

    /// Writes a term of the inference. Returns 0, 3, 5, 10, 11 or 12.
    pub fn show(&mut self, term: u32, buffer: &mut [u8], needed: &mut usize) -> u32
        ensures told { result ≡ 0 → Tells (IsTermText self.old term) buffer.new needed.new }
        ensures short { result ≡ 5 → TellsLength (IsTermText self.old term) buffer.old needed.new }
        ensures no_text { result ≡ 10 → self.old.asker ≡ None }
        ensures no_inference { result ≡ 11 → self.old.left ≡ None }
        ensures asker { self.new.asker ≡ self.old.asker }
        ensures same { inference_in self.new ≡ inference_in self.old }
    {
        let Some(asker) = &self.asker else {
            return 10;
        };
        let Some(left) = self.left.take() else {
            return 11;
        };
        let session = asker.inferring(left);
        let text = session.display(TermId {
            index: term as usize,
        });
        self.left = Some(session.leave());
        shown(text, buffer, needed)
    }

    /// Writes the name of a crate. Returns 0, 5, 9 or 10.
    pub fn name(&self, number: u32, buffer: &mut [u8], needed: &mut usize) -> u32
        ensures told { result ≡ 0 → Tells (IsCrateName self.now number) buffer.new needed.new }
        ensures short { result ≡ 5 → TellsLength (IsCrateName self.now number) buffer.old needed.new }
        ensures word { (result ≡ 0) ⊎ (result ≡ 5) ⊎ (result ≡ 9) ⊎ (result ≡ 10) }
        ensures no_crate { result ≡ 9 → HasNoCrate self.now number }
        ensures no_text { result ≡ 10 → self.now.asker ≡ None }
    {
        let Some(asker) = &self.asker else {
            return 10;
        };
        let workspace = asker.workspace();
        if number as usize >= workspace.crates().len() {
            return 9;
        }
        let name = workspace.crate_name(CrateId { index: number });
        if tell(name, buffer, needed) { 0 } else { 5 }
    }

    /// Writes the verdict of a crate. Returns 0, 3, 4, 5, 9 or 10.
    pub fn check(&mut self, number: u32, buffer: &mut [u8], needed: &mut usize) -> u32
        ensures told { result ≡ 0 → Tells (IsCrateLine self.old number) buffer.new needed.new }
        ensures short { result ≡ 5 → TellsLength (IsCrateLine self.old number) buffer.old needed.new }
        ensures word { (result ≡ 0) ⊎ (result ≡ 3) ⊎ (result ≡ 4) ⊎ (result ≡ 5) ⊎ (result ≡ 9) ⊎ (result ≡ 10) }
        ensures no_crate { result ≡ 9 → HasNoCrate self.old number }
        ensures no_text { result ≡ 10 → self.old.asker ≡ None }
        ensures stays { self.new ≡ self.old }
    {
        let Some(asker) = &mut self.asker else {
            return 10;
        };
        if number as usize >= asker.workspace().crates().len() {
            return 9;
        }
        match asker.check(CrateId { index: number }) {
            Err(Fault::Full) => 4,
            Err(_) => 3,
            Ok(line) => { if tell(&line, buffer, needed) { 0 } else { 5 } }
        }
    }

    /// Writes the answer to a query. Returns 0, 1, 3 to 8, or 10.
    pub fn ask(
        &mut self,
        line: &[u8],
        buffer: &mut [u8],
        needed: &mut usize,
        number: &mut u32,
    ) -> u32
        ensures told { result ≡ 0 → Tells (IsAnswer self.old line.now) buffer.new needed.new }
        ensures short { result ≡ 5 → TellsLength (IsAnswer self.old line.now) buffer.old needed.new }
        ensures refused { result ≢ 0 → result ≢ 5 → result ≢ 10 → IsUnanswered self.old line.now result number.new }
        ensures no_text { result ≡ 10 → self.old.asker ≡ None }
        ensures stays { self.new ≡ self.old }
    {
        let Some(asker) = &mut self.asker else {
            return 10;
        };
        match asker.ask(line) {
            Err(fault) => refuse(fault, number),
            Ok(answer) => { if tell(&answer, buffer, needed) { 0 } else { 5 } }
        }
    }
}

/// Writes the text of a term. Returns 0, 3, 5 or 12.
fn shown(text: Result<Vec<u8>, InferenceError>, buffer: &mut [u8], needed: &mut usize) -> u32
    ensures told { result ≡ 0 → (x : _) × (text ≡ Ok x) × IsAtFront x.items buffer.new needed.new }
    ensures short { result ≡ 5 → (x : _) × (text ≡ Ok x) × IsTooShort x.items buffer.old needed.new }
    ensures word { (result ≡ 0) ⊎ (result ≡ 3) ⊎ (result ≡ 5) ⊎ (result ≡ 12) }
{
    match text {
        Err(InferenceError::NoSuchTerm) => 12,
        Err(_) => 3,
        Ok(text) => { if tell(&text, buffer, needed) { 0 } else { 5 } }
    }
}

/// The status of a fault. `number` is set if the fault is one of the line.
fn refuse(fault: AskFault, number: &mut u32) -> u32
    ensures word { result ≡ fault_word fault }
    ensures number { TellsNumber number.new fault }
{
    match fault {
        AskFault::Line(kind) => {
            *number = u32::from(kind.number());
            1
        }
        AskFault::Memory => 3,
        AskFault::Full => 4,
        AskFault::NotAQuery => 6,
        AskFault::SeveralLines => 7,
        AskFault::TooLong => 8,
    }
}
