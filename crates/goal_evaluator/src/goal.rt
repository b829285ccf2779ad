//! The source of a nested goal, and whether a response changed anything.

/// The source of a nested goal (`rustc_type_ir::solve::GoalSource`). It decides whether the step to the goal can be coinductive.
#[derive(Clone, Copy, PartialEq, Eq)]
pub enum GoalSource {
    /// A condition of the evaluation itself, for example that a supertrait holds.
    Misc,
    /// A where-clause of the impl, or a premise of the built-in rule.
    ImplWhereBound,
}

/// Whether a response gave values to inference variables of the goal (`rustc_next_trait_solver::solve::HasChanged`).
#[derive(Clone, Copy, PartialEq, Eq)]
pub enum HasChanged {
    Yes,
    No,
}
