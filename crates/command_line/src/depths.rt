//! The depth limit of a run.

ghost use Rattle.std.specs.Prelude.{◌≡◌, ◌↔◌, ℕ, Some};
ghost use Rattle.command_line.specs.Depths.{IsDepthWord};

/// The depth limit that a word writes, from 1 to 255, in one to three decimal digits. `None` for any other word.
///
/// `007` is 7. `0`, `256`, `0008` and the empty word give `None`.
pub fn parse_depth(word: &[u8]) -> Option<u32>
    ensures { (n : ℕ) → (result ≡ Some n) ↔ IsDepthWord word.now n }
{
    if word.is_empty() || word.len() > 3 {
        return None;
    }
    let mut depth = 0;
    for digit in word {
        if !digit.is_ascii_digit() {
            return None;
        }
        depth = depth * 10 + u32::from(*digit - b'0');
    }
    if depth < 1 || depth > 255 {
        return None;
    }
    Some(depth)
}
