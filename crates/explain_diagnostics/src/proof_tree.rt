//! Proofs as trees of rows.

ghost use Rattle.std.specs.Prelude.{◌≤◌, ◌+◌, string_len};

use crate::diagnostic::ProofRow;
use crate::writer::TextWriter;
use std::alloc::{AllocError, Global};

/// How many columns of a row are for the goal, so that most reasons are below one another.
const GOAL_COLUMNS: usize = 60;

/// How many columns there are between a goal and its reason.
const GAP: usize = 4;

/// Whether another row of this depth follows in these, before any row that is less deep.
fn goes_on(rows: &[ProofRow], depth: usize) -> bool {
    for row in rows {
        if row.depth <= depth {
            return row.depth == depth;
        }
    }
    false
}

/// How many columns come before the goal of a row.
fn indent(depth: usize) -> usize {
    depth.saturating_mul(3)
}

/// How many columns the goals of a proof take, with what comes before them.
pub(crate) fn goal_columns(rows: &[ProofRow]) -> usize
    ensures { result ≤ 60 }
{
    let mut columns = 0;
    for row in rows {
        let taken = indent(row.depth).saturating_add(row.goal.len());
        if taken <= GOAL_COLUMNS && columns < taken {
            columns = taken;
        }
    }
    columns
}

/// Appends what comes before the goal of a row: the lines that lead to it and to the rows below. If the row is deeper than `levels`, the
/// first ones are left out.
fn push_branches(out: &mut TextWriter, depth: usize, below: &[ProofRow], levels: usize) {
    let hidden = depth.saturating_sub(levels);
    if hidden > 0 {
        out.push_str(".. ");
    }
    for level in hidden.saturating_add(1)..depth {
        out.push_str(if goes_on(below, level) { "|  " } else { "   " });
    }
    if depth > 0 {
        out.push_str(if goes_on(below, depth) { "|- " } else { "`- " });
    }
}

/// A goal after what comes before it, which takes at most about half of the row.
fn goal_text(
    alloc: Global,
    row: &ProofRow,
    below: &[ProofRow],
    room: usize,
) -> Result<String, AllocError> {
    let mut text = TextWriter::new(alloc);
    push_branches(&mut text, row.depth, below, room / 6);
    text.push_str(row.goal.as_str());
    text.finish()
}

/// Appends a goal, and spaces up to this many columns, as far as there is room.
fn push_goal(out: &mut TextWriter, goal: &str, columns: usize, room: usize)
    ensures { string_len out.new.text ≤ string_len out.old.text + room }
{
    out.push_cut(goal, room);
    out.push_spaces(columns.min(room).saturating_sub(goal.len()));
}

/// Appends a reason after a goal, as far as there is room.
fn push_reason(out: &mut TextWriter, reason: &str, room: usize)
    ensures { string_len out.new.text ≤ string_len out.old.text + room }
{
    out.push_spaces(GAP.min(room));
    out.push_cut(reason, room.saturating_sub(GAP));
}

/// How many columns a reason gets after a goal: all that it needs if the goal has room next to it, and otherwise half of a row.
fn reason_columns(reason: usize, goal: usize, room: usize) -> usize
    ensures { result ≤ room }
{
    let most = room.saturating_sub(goal).max(room / 2);
    reason.saturating_add(GAP).min(most)
}

/// Appends a goal and its reason. If both do not fit, each gets at least half of the row, and is cut.
fn push_beside(out: &mut TextWriter, goal: &str, reason: &str, columns: usize, room: usize)
    ensures { string_len out.new.text ≤ string_len out.old.text + room }
{
    if reason.is_empty() {
        out.push_cut(goal, room);
    } else {
        let behind = reason_columns(reason.len(), goal.len(), room);
        push_goal(out, goal, columns, room - behind);
        push_reason(out, reason, behind);
    }
}

/// Appends a row of a proof without its end. `below` are the rows after it. The goal takes `columns` columns if there is room, and the
/// reason follows. If both do not fit, each gets at least half of the row, and is cut.
pub(crate) fn push_proof_row(
    out: &mut TextWriter,
    row: &ProofRow,
    below: &[ProofRow],
    columns: usize,
    room: usize,
)
    ensures { string_len out.new.text ≤ string_len out.old.text + room }
{
    match goal_text(out.alloc, row, below, room) {
        Ok(goal) => push_beside(out, goal.as_str(), row.reason.as_str(), columns, room),
        Err(_) => out.refuse(),
    }
}
