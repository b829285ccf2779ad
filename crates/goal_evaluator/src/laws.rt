//! Laws of evaluations. The tables of frames are lawful tables, so what is proved of frames holds over them. The evaluation in
//! code does what is proved of those tables: its rounds and candidates have the same nested goals and results.

ghost use Rattle.goal_evaluator.specs.FrameTables.{InstanceOfQuestion};
ghost use Rattle.goal_evaluator.specs.Equations.{EquationsNarrow, EquationsKeep, EquationsStayMade};
ghost use Rattle.goal_evaluator.specs.Table.{IsTable};
ghost use Rattle.goal_evaluator.specs.Tables.{frame_tables};
ghost use Rattle.goal_evaluator.specs.Candidates.{CandidatesAreOne};
ghost use Rattle.goal_evaluator.specs.RoundLaws.{RoundsAreOne, RoundsEndAlike};
ghost use Rattle.goal_evaluator.specs.AnswerLaws.{AnswersAreWellFormed, AnswersAnswerTheirGoals};

// ---- the tables of frames, as terms, and the values that they allow

/// If a table allows terms for the leaves of a nested goal, the canonical goal has an instance by these terms. It is the nested
/// goal's instance.
pub fn question_laws()
    ensures { InstanceOfQuestion }
{}

/// If a table with equations holds for some terms, the table and all equations hold for them. Conversely, if these hold, and
/// different placeholders have different values, the equations have a solution and the resulting table holds. The resulting
/// table is that of `InferCtxt::eq`.
pub fn equation_laws()
    ensures narrows { EquationsNarrow }
    ensures keeps { EquationsKeep }
    ensures made { EquationsStayMade }
{}

// ---- what frames and evaluations preserve

/// The tables of frames are lawful.
///
/// * Operations preserve that a table is made of terms.
/// * An instance of a canonical goal is an instance of the goal.
/// * Equations, responses and constraints never allow new values. They lose no values that satisfy them and give different
///   placeholders different terms.
/// * A response agrees with all that its table allows. If it has no values, the goal's variables are free.
/// * No operation makes terms wider than its inputs.
pub fn tables_are_lawful()
    ensures { IsTable frame_tables }
{}

/// The responses of tables made of terms are well-formed: each value is a term of its kind over the response's own variables.
/// Each response also fits the goal of its table: it has a value for each of the goal's variables, of the variable's kind.
pub fn answers_are_well_formed()
    ensures well_formed { AnswersAreWellFormed }
    ensures own_goal { AnswersAnswerTheirGoals }
{}

/// The rounds of an evaluation (`EvalCtxt::try_evaluate_added_goals`) do to a table what rounds over the tables of frames do to a
/// frame's table with the same content. So if the contents and the goals are the same and the responses are well-formed, both
/// wait for the same nested goal, or both fail, or both end with the same content, remaining goals and certainty. The responses
/// need not fit their goals: one that does not fit changes neither table.
pub fn rounds_are_one()
    ensures steps { RoundsAreOne }
    ensures ends { RoundsEndAlike }
{}

/// The evaluation of a candidate in code (`crate::trial::evaluate_candidate`) has the same nested goals and result as the
/// candidate over the tables of frames. If the responses fit their goals, both wait for the same nested goal, or both fail, or
/// both end with the same response. The candidate's terms contain only the goal's variables and its own.
pub fn candidates_are_one()
    ensures { CandidatesAreOne }
{}
