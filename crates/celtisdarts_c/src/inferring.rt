//! Inference in the crates of a text that was read.

ghost use Rattle.std.specs.Prelude.{◌≡◌, ◌≢◌, ◌⊎◌, None};
ghost use Rattle.celtisdarts_c.specs.Asked.{HasNoCrate};
ghost use Rattle.celtisdarts_c.specs.Inferred.{HasBegunIn, HasInferred, HasNoSolutionIn, IsTermText, LacksAnythingIn, StaysAsItWasIn, inference_in};
ghost use Rattle.celtisdarts_c.specs.Told.{Tells, TellsLength};

use crate::asked::empty;
use crate::call::Call;
use crate::handle::Handle;
use std::alloc::Global;

/// Begins inference in a crate of the text, in the place of the one before, which is dropped. `core` has number 0. Returns 0, 3, 4, 9 or 10.
#[unsafe(no_mangle)]
pub extern "C" fn celtisdarts_infer_begin(alloc: Global, handle: &mut Handle, number: u32) -> u32
    ensures begun { result ≡ 0 → HasBegunIn handle.old.value number handle.new.value }
    ensures word { (result ≡ 0) ⊎ (result ≡ 3) ⊎ (result ≡ 4) ⊎ (result ≡ 9) ⊎ (result ≡ 10) }
    ensures no_crate { result ≡ 9 → HasNoCrate handle.old.value number }
    ensures no_text { result ≡ 10 → handle.old.value.asker ≡ None }
    ensures stays { result ≢ 0 → handle.new.value ≡ handle.old.value }
{
    let Ok(place) = empty(alloc) else {
        return 3;
    };
    let mut slot = handle.replace(place);
    let word = slot.begin(number);
    let _ = handle.replace(slot);
    word
}

/// Ends the inference. What its searches found is kept. Returns 0, 3, 10 or 11.
#[unsafe(no_mangle)]
pub extern "C" fn celtisdarts_infer_end(alloc: Global, handle: &mut Handle) -> u32
    ensures ended { result ≡ 0 → handle.new.value.left ≡ None }
    ensures no_text { result ≡ 10 → handle.old.value.asker ≡ None }
    ensures no_inference { result ≡ 11 → handle.old.value.left ≡ None }
    ensures asker { handle.new.value.asker ≡ handle.old.value.asker }
{
    let Ok(place) = empty(alloc) else {
        return 3;
    };
    let mut slot = handle.replace(place);
    let word = slot.end();
    let _ = handle.replace(slot);
    word
}

/// Makes a call of the inference: an operation by its number, about a name, terms by their numbers, and a number. What it gives is written
/// to `given`.
///
/// | Operation | Gives |
/// |---|---|
/// | 1, 2 | a new type variable, a new constant variable |
/// | 3 | the type of the name, with the terms as its arguments: a struct that the crate sees, or a type without parts |
/// | 4, 5 | the constant with the number as its value, the lifetime `'static` |
/// | 6 to 13 | the tuple, `[T]`, `[T; n]`, `&T`, `&mut T`, `*const T`, `*mut T`, `fn` (its inputs and its output) of the terms |
/// | 14, 15 | the type, and the constant, that is the parameter with the number of the function whose types are inferred |
/// | 20 | 0, and makes two terms equal |
/// | 21 | 1 if two terms can be equal by the values that are known, or 0 if no solution makes them equal |
/// | 22 | the obligation of the trait of the name for the terms, the self type first. It is not evaluated yet |
/// | 23 | selects with that budget of nested goals (0: none): 0 all done, 1 some pending, 2 stopped, 3 more than the number of one refused |
/// | 24 | how the obligation with the number stands: 0 done, 1 pending, 2 pending at a limit, 3 refused |
/// | 25 | the term with the values that are known |
/// | 26 | 0, and opens a snapshot |
/// | 27, 28 | ends the last snapshot, and restores what was there: 1, or 0 if none was open |
/// | 29 | 0, and assumes that the trait of the name holds for the terms, for what is registered from now on |
///
/// Returns 0, 3, 4, or 10 to 16. After another word than 0 and 4 the inference is as it was, but that a selection keeps what it found.
#[unsafe(no_mangle)]
pub extern "C" fn celtisdarts_infer(
    alloc: Global,
    handle: &mut Handle,
    operation: u32,
    name: &[u8],
    terms: &[u32],
    number: u64,
    given: &mut u32,
) -> u32
    ensures done { result ≡ 0
        → HasInferred handle.old.value (record { operation = operation; name = name.entry; terms = terms.entry; number = number }) handle.new.value given.new }
    ensures no_solution { result ≡ 13
        → HasNoSolutionIn handle.old.value (record { operation = operation; name = name.entry; terms = terms.entry; number = number }) }
    ensures no_term { result ≡ 12
        → LacksAnythingIn handle.old.value (record { operation = operation; name = name.entry; terms = terms.entry; number = number }) }
    ensures refused { result ≢ 0 → result ≢ 4 → StaysAsItWasIn handle.old.value handle.new.value }
    ensures no_text { result ≡ 10 → handle.old.value.asker ≡ None }
    ensures no_inference { result ≡ 11 → handle.old.value.left ≡ None }
    ensures asker { handle.new.value.asker ≡ handle.old.value.asker }
{
    let Ok(place) = empty(alloc) else {
        return 3;
    };
    let mut slot = handle.replace(place);
    let call = Call {
        operation,
        name,
        terms,
        number,
    };
    let word = slot.infer(alloc, &call, given);
    let _ = handle.replace(slot);
    word
}

/// Writes the text of a term of the inference: a type variable is `?0t`, and a constant variable `?0c`, by their numbers. Returns 0, 3, 5, 10,
/// 11 or 12.
#[unsafe(no_mangle)]
pub extern "C" fn celtisdarts_infer_text(
    alloc: Global,
    handle: &mut Handle,
    term: u32,
    buffer: &mut [u8],
    needed: &mut usize,
) -> u32
    ensures told { result ≡ 0 → Tells (IsTermText handle.old.value term) buffer.new needed.new }
    ensures short { result ≡ 5 → TellsLength (IsTermText handle.old.value term) buffer.old needed.new }
    ensures no_text { result ≡ 10 → handle.old.value.asker ≡ None }
    ensures no_inference { result ≡ 11 → handle.old.value.left ≡ None }
    ensures asker { handle.new.value.asker ≡ handle.old.value.asker }
    ensures same { inference_in handle.new.value ≡ inference_in handle.old.value }
{
    let Ok(place) = empty(alloc) else {
        return 3;
    };
    let mut slot = handle.replace(place);
    let word = slot.show(term, buffer, needed);
    let _ = handle.replace(slot);
    word
}
