//! Snapshots that are open.

use inference::Snapshot;

/// A snapshot of an inference session that was neither rolled back to nor ended: that of its context, how many terms had numbers, and how
/// many assumptions there were.
#[derive(Drop)]
pub struct OpenSnapshot {
    pub context: Snapshot,
    pub terms: usize,
    pub assumptions: usize,
}
