//! Long texts are cut.

ghost use Rattle.std.specs.Prelude.{◌≡◌, ◌≤◌, ◌<◌, ◌++◌, length, map, take, codes, string_bytes, IfOk};
ghost use Rattle.explain_diagnostics.specs.Shown.{shown};

use crate::writer::TextWriter;
use std::alloc::{AllocError, Global};

/// How many bytes of a type are displayed.
pub const TYPE_LIMIT: usize = 120;

/// How many items of a list are displayed.
pub const LIST_LIMIT: usize = 8;

/// A text as it is displayed: at most `limit` of its bytes, and `..` after them if it has more. A byte that is no printable ASCII becomes
/// `?`, and a tab becomes a space. Fails only if memory is refused.
pub fn cut_text(alloc: Global, text: &[u8], limit: usize) -> Result<String, AllocError>
    ensures whole { IfOk result (λ t. length text.now ≤ limit → string_bytes t ≡ map shown text.now) }
    ensures cut { IfOk result (λ t. limit < length text.now → string_bytes t ≡ map shown (take limit text.now) ++ codes "..") }
{
    let mut out = TextWriter::new(alloc);
    if text.len() <= limit {
        out.push_shown(text);
    } else {
        out.push_shown(&text[..limit]);
        out.push_str("..");
    }
    out.finish()
}
