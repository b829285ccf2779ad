//! How deep a session searches, and how many terms it stores.

ghost use Rattle.std.specs.Prelude.{◌≡◌, ◌≤◌, ◌+◌, ◌↔◌, IsSome, IfSome};

/// The limits of a session. No call changes them.
#[derive(Clone, Copy, PartialEq, Eq)]
pub struct Limits {
    /// The depth limit of a query's goal, from 1 to 255. rustc: `recursion_limit`.
    pub depth: u32,
    /// How many handles of each kind the session's interner holds at most, from 1 to 16,777,216. As many goals, and as many answers, are
    /// stored at most.
    pub handles: u32,
    ghost depth_positive: { 1 ≤ depth },
    ghost depth_small: { depth ≤ 255 },
    ghost handles_positive: { 1 ≤ handles },
    ghost handles_few: { handles ≤ 16777216 },
}

impl Limits {
    /// These limits, or `None` if one of them is out of its range.
    pub fn new(depth: u32, handles: u32) -> Option<Limits>
        ensures in_range { IsSome result ↔ ((1 ≤ depth) × (depth ≤ 255) × (1 ≤ handles) × (handles ≤ 16777216)) }
        ensures depth { IfSome result (λ limits. limits.depth ≡ depth) }
        ensures handles { IfSome result (λ limits. limits.handles ≡ handles) }
    {
        if depth < 1 || depth > 255 || handles < 1 || handles > 16_777_216 {
            return None;
        }
        Some(Limits { depth, handles })
    }

    /// How many answers to each trait reference of a query about several may have values: one more than the depth limit.
    pub fn most_values(self) -> usize
        ensures { result ≡ self.depth + 1 }
    {
        self.depth as usize + 1
    }
}
