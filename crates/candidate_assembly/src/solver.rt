//! The solver: the declarations that a crate sees, as a handler of goals.
ghost use Rattle.std.specs.Prelude.{◌≡◌, List};
ghost use Rattle.type_terms.specs.Promised.Rules.{is_coinductive};
ghost use Rattle.type_terms.specs.Promised.Handles.{Entry};
ghost use Rattle.declarations.specs.Items.{written};
ghost use Rattle.candidate_assembly.specs.SolverMeaning.{solver_by_view};
ghost use Rattle.candidate_assembly.specs.SolverLaws.{solver-laws};

use crate::trait_goals::compute_trait_goal;
use built_in_candidates::built_in_rules::is_auto;
use declarations::core_traits::SIZED;
use declarations::declarations::Declarations;
use goal_evaluator::{Considered, HandlerStep};
use goal_frames::GoalHandler;
use infer_table::input::CanonicalInput;
use std::alloc::Global;
use term_folds::predicate::TraitRef;
use type_terms::interner::Interner;
use type_terms::{Fault, TraitId};

/// The solver of trait goals. The rules are those of the declarations that a crate sees.
///
/// It is ready over an interner (`IsReady`) if the declarations' terms are the interner's, they are declared well, and impls, fields and
/// supertraits have their own parameters alone. It stays ready while the interner grows. It means what the declarations mean as they are
/// written (`solving_of`). Goals that do not fit them are not decided.
///
/// rustc: `rustc_next_trait_solver::solve::SolverDelegate`, with the declarations behind it.
#[derive(Drop)]
pub struct Solver {
    /// What is declared.
    pub declarations: Declarations,
}

impl Solver {
    /// The solver for these declarations. It takes no memory.
    pub fn new(declarations: Declarations) -> Solver
        ensures { result.declarations ≡ declarations }
    {
        Solver { declarations }
    }
}

/// Whether the trait is coinductive: a goal of it holds if it needs nothing but itself. These are `Sized` and the auto traits.
fn is_coinductive(declarations: &Declarations, def_id: TraitId) -> bool
    ensures { (es : List Entry) → result ≡ is_coinductive (written es declarations.now) def_id.index }
{
    is_auto(declarations, def_id) || def_id.index == SIZED
}

/// The candidates come one after the other, as `compute_trait_goal` says. The answer is the merge of their responses.
impl GoalHandler for Solver {
    ghost meaning = { solver_by_view };

    fn step(
        &self,
        alloc: Global,
        cx: &mut Interner,
        goal: &CanonicalInput,
        done: &[Considered],
        notes: &mut Vec<TraitRef>,
    ) -> Result<HandlerStep, Fault> {
        compute_trait_goal(alloc, cx, &self.declarations, goal, done, notes)
    }

    fn trait_is_coinductive(&self, def_id: TraitId) -> bool {
        is_coinductive(&self.declarations, def_id)
    }

    ghost lawful = { solver-laws };
}
