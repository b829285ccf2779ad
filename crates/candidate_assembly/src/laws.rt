//! Laws of candidates, in terms that contracts can use.
ghost use Rattle.std.specs.Prelude.{◌≡◌, ◌+◌, ℕ, List, Some, None, map};
ghost use Rattle.std.specs.List.{slice_get};
ghost use Rattle.type_terms.specs.Promised.Worlds.{World, Reference};
ghost use Rattle.type_terms.specs.Promised.Erased.{erased_world, erased_reference};
ghost use Rattle.type_terms.specs.Promised.Handles.{Entry};
ghost use Rattle.type_terms.specs.declared.ImplId.{ImplId};
ghost use Rattle.goal_evaluator.specs.declared.candidate.CandidateSource.TheVariants.{Impl};
ghost use Rattle.declarations.specs.Items.{Items, written};
ghost use Rattle.declarations.specs.Merges.{Rises};
ghost use Rattle.candidate_model.specs.Knowing.{is_knowable};
ghost use Rattle.candidate_model.specs.Asking.{GoalOverKinds};
ghost use Rattle.candidate_model.specs.Candidates.{Candidate, by_impls};
ghost use Rattle.candidate_assembly.specs.Headers.{impls_above, WellDeclaredHaveCandidates};
ghost use Rattle.candidate_assembly.specs.Sections.{HistoriesTell, WalksGoOn};
ghost use Rattle.candidate_assembly.specs.SolverMeaning.{goals_by_view};
ghost use Rattle.goal_frames.specs.HandlerPrograms.{HandlersArePrograms};

/// A walk over the impls of a goal meets the candidates of the definitions one after the other. With no impl considered it is at the first
/// one, and after the impl of any of them it is at the next one.
pub fn walks_meet_all_impls()
    ensures begins { (es : List Entry) (d : Items) (a : GoalOverKinds) → let V = written es d in
        slice_get (by_impls V a (impls_above None V.impls)) 0 ≡ slice_get (by_impls V a V.impls) 0 }
    ensures goes_on { (es : List Entry) (d : Items) (a : GoalOverKinds) (n : ℕ) (c : Candidate) (last : ImplId) → let V = written es d in
        Rises (map (λ i. i.id) d.impls) → slice_get (by_impls V a V.impls) n ≡ Some c → c.source ≡ Impl last
        → slice_get (by_impls V a (impls_above (Some last) V.impls)) 0 ≡ slice_get (by_impls V a V.impls) (n + 1) }
{}

/// What was considered determines what is next. After each history of a goal, in both modes, the next candidate is the one at the counted
/// index of the first section that has one there. If no section has one, the answer is next.
///
/// The sections are where-clauses, built-in rules, impls and object bounds. In coherence, what other crates may say comes before them. The
/// next candidate by an impl is the first one after the impl that was considered last.
pub fn histories_tell_what_is_next()
    ensures next { HistoriesTell }
    ensures impls { WalksGoOn }
{}

/// Impls of declarations that are declared well can be candidates, if each type and constant parameter occurs in its impl's header. Then
/// the header and the where-clauses have the impl's own parameters alone, and the self type binds no lifetimes outermost.
pub fn well_declared_have_candidates()
    ensures { WellDeclaredHaveCandidates }
{}

/// What the solver means for goals are lawful programs for a search, for each view, and whatever is required of goals in addition to being
/// decided. For each goal it is a lawful handler. In coherence its answers cover the solutions by the view and in every linked set. Terms
/// get no wider, and nested goals no more, from goal to goal. The solutions of nested goals are looked for where those of the goal are.
pub fn solver_keeps_the_laws_of_handlers()
    ensures { HandlersArePrograms goals_by_view }
{}

/// Which trait references are knowable does not depend on lifetimes, neither on those of declarations nor on their own.
pub fn knowing_is_up_to_lifetimes()
    ensures declarations { (W : World) (c : ℕ) (r : Reference) → is_knowable (erased_world W) c r ≡ is_knowable W c r }
    ensures references { (W : World) (c : ℕ) (r : Reference) → is_knowable W c (erased_reference r) ≡ is_knowable W c r }
{}
