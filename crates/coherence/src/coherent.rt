//! What the lines of a text's crates say of the text as a whole. These are laws, with no code to run.

ghost use Rattle.coherence.specs.Promised.Told.{AcceptedTextsHold, AllSayHeld, SupertraitsStand};

use sessions::{accepted_texts_are_coherent, held_texts_are_coherent};

/// If the line of each crate says `accepted`, and the supertraits of headers have proofs, the text is coherent as a whole.
pub fn accepted_lines_tell()
    ensures { AcceptedTextsHold SupertraitsStand }
{
    accepted_texts_are_coherent();
}

/// The same holds if each crate also has a line `supers N: held`. Then nothing is assumed of supertraits.
pub fn held_lines_tell()
    ensures { AcceptedTextsHold AllSayHeld }
{
    held_texts_are_coherent();
}
