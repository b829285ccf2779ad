//! Which part of a long line is displayed.

ghost use Rattle.std.specs.Prelude.{◌≡◌, ◌≤◌, ◌+◌, ◌-◌, min};
ghost use Rattle.explain_diagnostics.specs.Places.{IsPartOf};

use crate::span::Place;

/// The part of a line with `length` bytes that is displayed in `columns` columns, so that a range of it is visible. It is the whole line if
/// that fits, and otherwise as many bytes as there are columns.
///
/// If the line goes on before or after the part, two columns at that end are for `..`. They are not in the range, if the range leaves room
/// for them.
pub(crate) fn window(length: usize, columns: usize, place: Place) -> Place
    requires { IsPartOf length place }
    ensures part { IsPartOf length result }
    ensures fits { result.end - result.start ≤ columns }
    ensures whole { length ≤ columns → (result.start ≡ 0) × (result.end ≡ length) }
    ensures begins { (result.start ≤ place.start) × (place.start ≤ result.end) }
    ensures ends { (place.end - place.start) + 4 ≤ columns → place.end ≤ result.end }
{
    if length <= columns {
        return Place {
            start: 0,
            end: length,
        };
    }
    let beside = columns.saturating_sub(place.end - place.start) / 2;
    let start = place.start.saturating_sub(beside).min(length - columns);
    Place {
        start,
        end: start + columns,
    }
}

/// The part of a range that is displayed, counted from where the window begins.
pub(crate) fn place_in_window(window: Place, place: Place) -> Place
    ensures part { IsPartOf (window.end - window.start) result }
    ensures begins { place.start ≤ min place.end window.end → result.start ≡ place.start - window.start }
    ensures ends { result.end ≡ min place.end window.end - window.start }
{
    let end = place.end.min(window.end).saturating_sub(window.start);
    Place {
        start: place.start.saturating_sub(window.start).min(end),
        end,
    }
}
