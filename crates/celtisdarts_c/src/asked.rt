//! Texts that are read once and queried at run time.

ghost use Rattle.std.specs.Prelude.{◌≡◌, ◌≢◌, ◌≤◌, ◌↔◌, ◌⊎◌, Err, Some, None};
ghost use Rattle.coherence.specs.TextLanguage.Text.{TextGives};
ghost use Rattle.celtisdarts_c.specs.Asked.{HasRead, HasNoCrate, IsCrateName, IsCrateLine, IsAnswer, IsUnanswered};
ghost use Rattle.celtisdarts_c.specs.Told.{Tells, TellsLength};

use crate::handle::{Handle, put};
use crate::slot::Slot;
use crate::whole::HANDLES;
use coherence::{Asker, Limits, TextError};
use std::alloc::{AllocError, Global};

/// An empty slot, in a box.
pub(crate) fn empty(alloc: Global) -> Result<Box<Slot>, AllocError> {
    let boxed = Box::new(alloc, Slot::empty())?;
    Ok(boxed)
}

/// Writes a new handle, without a text. Returns 0 or 3.
///
/// No clause states that `at` is a handle afterwards: of all calls here this is the one whose promise is not proved.
#[unsafe(no_mangle)]
pub extern "C" fn celtisdarts_new(alloc: Global, at: &mut *mut u8) -> u32
    ensures { (result ≡ 0) ⊎ (result ≡ 3) }
{
    match empty(alloc) {
        Err(_) => 3,
        Ok(boxed) => {
            put(boxed, at);
            0
        }
    }
}

/// Frees a handle and its text.
#[unsafe(no_mangle)]
pub extern "C" fn celtisdarts_close(handle: Handle) {
    let _ = handle.into_box();
}

/// Reads a text, to be queried at this depth. It replaces the text of the handle.
///
/// Returns 0 to 3. If it returns 1, the text has a fault: `line` is the first faulty line, counted from 1, and `number` is its smallest
/// fault.
#[unsafe(no_mangle)]
pub extern "C" fn celtisdarts_read(
    alloc: Global,
    handle: &mut Handle,
    text: &[u8],
    depth: u32,
    line: &mut u32,
    number: &mut u32,
) -> u32
    ensures word { result ≤ 3 }
    ensures in_range { (result ≢ 2) ↔ ((1 ≤ depth) × (depth ≤ 255)) }
    ensures read { result ≡ 0 → HasRead depth text.now handle.new.value }
    ensures fault { result ≡ 1 → TextGives text.now (Err (line.new, number.new)) }
    ensures stays { result ≢ 0 → handle.new.value ≡ handle.old.value }
{
    let Some(limits) = Limits::new(depth, HANDLES) else {
        return 2;
    };
    match Asker::read(alloc, text, limits) {
        Err(TextError::Memory) => 3,
        Err(TextError::Text(fault)) => {
            *line = fault.line;
            *number = u32::from(fault.kind.number());
            1
        }
        Ok(asker) => put_text(alloc, handle, asker),
    }
}

/// Replaces the text of a handle. Returns 0 or 3.
fn put_text(alloc: Global, handle: &mut Handle, asker: Asker) -> u32
    ensures word { result ≤ 3 }
    ensures no_other { (result ≡ 0) ⊎ (result ≡ 3) }
    ensures put { result ≡ 0 → handle.new.value.asker ≡ Some asker }
    ensures stays { result ≢ 0 → handle.new.value ≡ handle.old.value }
{
    match Box::new(alloc, Slot::of(asker)) {
        Err(_) => 3,
        Ok(boxed) => {
            let _ = handle.replace(boxed);
            0
        }
    }
}

/// Writes the name of a crate of the text. `core` has number 0, and the others are numbered in the order of the text. Returns 0, 3, 5, 9
/// or 10.
#[unsafe(no_mangle)]
pub extern "C" fn celtisdarts_name(
    alloc: Global,
    handle: &mut Handle,
    number: u32,
    buffer: &mut [u8],
    needed: &mut usize,
) -> u32
    ensures told { result ≡ 0 → Tells (IsCrateName handle.old.value number) buffer.new needed.new }
    ensures short { result ≡ 5 → TellsLength (IsCrateName handle.old.value number) buffer.old needed.new }
    ensures word { (result ≡ 0) ⊎ (result ≡ 3) ⊎ (result ≡ 5) ⊎ (result ≡ 9) ⊎ (result ≡ 10) }
    ensures no_crate { result ≡ 9 → HasNoCrate handle.old.value number }
    ensures no_text { result ≡ 10 → handle.old.value.asker ≡ None }
    ensures stays { handle.new.value ≡ handle.old.value }
{
    let Ok(place) = empty(alloc) else {
        return 3;
    };
    let boxed = handle.replace(place);
    let word = boxed.name(number, buffer, needed);
    let _ = handle.replace(boxed);
    word
}

/// Writes the verdict of a crate of the text, as a line with its end. Returns 0, 3, 4, 5, 9 or 10.
#[unsafe(no_mangle)]
pub extern "C" fn celtisdarts_check(
    alloc: Global,
    handle: &mut Handle,
    number: u32,
    buffer: &mut [u8],
    needed: &mut usize,
) -> u32
    ensures told { result ≡ 0 → Tells (IsCrateLine handle.old.value number) buffer.new needed.new }
    ensures short { result ≡ 5 → TellsLength (IsCrateLine handle.old.value number) buffer.old needed.new }
    ensures word { (result ≡ 0) ⊎ (result ≡ 3) ⊎ (result ≡ 4) ⊎ (result ≡ 5) ⊎ (result ≡ 9) ⊎ (result ≡ 10) }
    ensures no_crate { result ≡ 9 → HasNoCrate handle.old.value number }
    ensures no_text { result ≡ 10 → handle.old.value.asker ≡ None }
    ensures stays { handle.new.value ≡ handle.old.value }
{
    let Ok(place) = empty(alloc) else {
        return 3;
    };
    let mut boxed = handle.replace(place);
    let word = boxed.check(number, buffer, needed);
    let _ = handle.replace(boxed);
    word
}

/// Writes the answer to a query, as a line with its end: the last line of the output for the text followed by the query.
///
/// Returns 0, 1, 3 to 8, or 10. If it returns 1, the line has a fault, and `number` is the smallest one.
#[unsafe(no_mangle)]
pub extern "C" fn celtisdarts_ask(
    alloc: Global,
    handle: &mut Handle,
    line: &[u8],
    buffer: &mut [u8],
    needed: &mut usize,
    number: &mut u32,
) -> u32
    ensures told { result ≡ 0 → Tells (IsAnswer handle.old.value line.now) buffer.new needed.new }
    ensures short { result ≡ 5 → TellsLength (IsAnswer handle.old.value line.now) buffer.old needed.new }
    ensures refused { result ≢ 0 → result ≢ 3 → result ≢ 5 → result ≢ 10 → IsUnanswered handle.old.value line.now result number.new }
    ensures no_text { result ≡ 10 → handle.old.value.asker ≡ None }
    ensures stays { handle.new.value ≡ handle.old.value }
{
    let Ok(place) = empty(alloc) else {
        return 3;
    };
    let mut boxed = handle.replace(place);
    let word = boxed.ask(line, buffer, needed, number);
    let _ = handle.replace(boxed);
    word
}
