//! Output in a caller's buffer.

ghost use Rattle.std.specs.Prelude.{◌≡◌, length, true, false};
ghost use Rattle.celtisdarts_c.specs.Told.{IsAtFront, IsTooShort};

/// Writes a text to the front of a buffer and returns `true`, if it fits. `needed` is its length in any case.
pub fn tell(text: &[u8], buffer: &mut [u8], needed: &mut usize) -> bool
    ensures told { result ≡ true → IsAtFront text.now buffer.new needed.new }
    ensures short { result ≡ false → IsTooShort text.now buffer.old needed.new }
{
    *needed = text.len();
    if buffer.len() < text.len() {
        return false;
    }
    let (front, _) = buffer.split_at_mut(text.len());
    front.copy_from_slice(text);
    true
}
