//! Terms by their numbers.

/// The number of a term in an inference session.
#[derive(Clone, Copy, PartialEq, Eq)]
pub struct TermId {
    pub index: usize,
}
