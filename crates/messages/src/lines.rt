//! Places of lines.

use explain_diagnostics::Place;

/// The whole line.
pub fn whole_line(line: &[u8]) -> Place {
    Place {
        start: 0,
        end: line.len(),
    }
}
