//! Handlers: the rules of goals, for the frames that evaluate them.

ghost use Rattle.type_terms.specs.Growth.{GrewOrFull};
ghost use Rattle.std.specs.Prelude.{◌≡◌, List, IfOk, OnOk};
ghost use Rattle.type_terms.specs.Promised.Handles.{Entry};
ghost use Rattle.infer_table.specs.declared.certainty.TypingMode.{TypingMode};
ghost use Rattle.infer_table.specs.Canonical.{CanonicalForm};
ghost use Rattle.infer_table.specs.Goals.{GoalHeld};
ghost use Rattle.goal_evaluator.specs.Promises.{DefiniteYesFollows, AnswerCoversGoal, IsBounded, KeepsNumber, IgnoresFinishedOnce};
ghost use Rattle.goal_evaluator.specs.Readings.{IsOfTrait, ConsideredHeld, HandlerStepHeld};
ghost use Rattle.goal_evaluator.specs.Tables.{frame_tables};
ghost use Rattle.goal_evaluator.specs.StepReadings.{HasHistory, IsNextAfter};
ghost use Rattle.goal_frames.specs.Fitting.{ConsideredFits, StepFits};
ghost use Rattle.goal_frames.specs.Meanings.{HandlerMeaning, StayNotes, goal_meaning};
ghost use Rattle.goal_frames.specs.HandlerPrograms.{HandlerIsLawful, HandlersArePrograms};
ghost use Rattle.goal_frames.specs.Steps.{StepsFall};

use goal_evaluator::{Considered, HandlerStep};
use infer_table::input::CanonicalInput;
use std::alloc::Global;
use term_folds::predicate::TraitRef;
use type_terms::interner::Interner;
use type_terms::{Fault, TraitId};

/// The rules of goals, as frames use them: one candidate after another, and then the result. rustc has methods of `EvalCtxt` and
/// `SolverDelegate` instead.
///
/// `meaning` gives what a handler means for each goal. All that is proved of frames rests on `lawful`: a candidate whose
/// equations hold is a rule, the candidates cover each solution, and the result is a merge of their responses.
pub trait GoalHandler {
    /// The meaning of the handler's goals, and the declarations that its handles represent.
    ghost meaning: { HandlerMeaning Self };

    /// The next request of the goal's frame after these candidates, the oldest first, or a fault.
    ///
    /// It depends only on the goal, its typing mode and the candidates. A candidate's terms contain only the goal's variables and
    /// its own. The values of a response contain only its own variables.
    ///
    /// A frame keeps `notes` for its handler: the handler may leave there what it has found, so as not to find it again for the
    /// next candidate. They are empty at first. Whatever true notes it gets, the request is the same.
    fn step(
        &self,
        alloc: Global,
        cx: &mut Interner,
        goal: &CanonicalInput,
        done: &[Considered],
        notes: &mut Vec<TraitRef>,
    ) -> Result<HandlerStep, Fault>
        requires ready { meaning.IsReady self.now cx.old.entries }
        requires goal { GoalHeld cx.old.entries goal.now.goal }
        requires done { ConsideredHeld cx.old.entries done.now }
        requires fits { ConsideredFits cx.old.entries done.now }
        requires history { HasHistory cx.old.entries (goal_meaning meaning self.now cx.old.entries goal.now) done.now }
        requires notes { StayNotes meaning self.now cx.old.entries notes.old.items }
        // `Full` is returned only if some kind of term has reached the interner's limit.
        ensures terms { GrewOrFull cx.old cx.new result }
        ensures held { IfOk result (HandlerStepHeld cx.new.entries) }
        ensures fits { IfOk result (StepFits goal.now.variables.items cx.new.entries) }
        ensures notes { OnOk result (StayNotes meaning self.now cx.new.entries notes.new.items) }

        // It is the next request after each history that the candidates show.
        ensures next { IfOk result (IsNextAfter cx.old.entries (goal_meaning meaning self.now cx.old.entries goal.now) done.now cx.new.entries) };

    /// Whether the trait is coinductive: a goal of it may be a premise of its own proof.
    fn trait_is_coinductive(&self, def_id: TraitId) -> bool
        ensures { (es : List Entry) (mode : TypingMode) (goal : CanonicalForm) → IsOfTrait def_id.index goal
            → result ≡ (meaning.goals.handled (meaning.world self.now es) mode goal).coinductive };

    ghost lawful: { HandlerIsLawful meaning };
}

/// The promises about frames hold of a handler's frames, and each step decreases the number of remaining steps.
pub fn frames_keep_promises<H: GoalHandler>()
    ensures yes { (m : H.meaning.goals.World) (mode : TypingMode) (goal : CanonicalForm)
        → DefiniteYesFollows frame_tables (H.meaning.goals.handled m mode goal) }
    ensures covers { (m : H.meaning.goals.World) (mode : TypingMode) (goal : CanonicalForm)
        → AnswerCoversGoal frame_tables (H.meaning.goals.handled m mode goal) }
    ensures bounded { (m : H.meaning.goals.World) (mode : TypingMode) (goal : CanonicalForm) → IsBounded frame_tables (H.meaning.goals.handled m mode goal) }
    ensures number { (m : H.meaning.goals.World) (mode : TypingMode) (goal : CanonicalForm) → KeepsNumber frame_tables (H.meaning.goals.handled m mode goal) }
    ensures ignores { (m : H.meaning.goals.World) (mode : TypingMode) (goal : CanonicalForm)
        → IgnoresFinishedOnce frame_tables (H.meaning.goals.handled m mode goal) }
    ensures steps { (m : H.meaning.goals.World) (mode : TypingMode) (goal : CanonicalForm) → StepsFall (H.meaning.goals.handled m mode goal) }
{}

/// A handler's goals are lawful programs for a search. So the search's results with their frames are correct, given these
/// programs' results for cycles and for goals that exceed a limit.
pub fn handlers_are_programs<H: GoalHandler>()
    ensures { HandlersArePrograms H.meaning.goals }
{}
