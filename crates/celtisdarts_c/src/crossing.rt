//! What may move to another thread. C code may pass a handle from one thread to another, so slots have to be `Send`.

use crate::slot::Slot;

fn moves<T: Send>() {}

/// A slot is `Send`, with its text.
pub fn slots_move() {
    moves::<Slot>();
}
