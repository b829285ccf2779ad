//! Laws of texts without a fault: what a crate sees of them is declared well, so the solver can decide goals by it.

ghost use Rattle.std.specs.Prelude.{ℕ, List, Ok};
ghost use Rattle.declarations.specs.Applied.{HaveBounds};
ghost use Rattle.text_language.specs.Promised.Declarations.{Declarations};
ghost use Rattle.text_language.specs.Text.{TextGives};
ghost use Rattle.text_lowering.specs.Seen.{BeginDeclared, LaterBeginDeclared};
ghost use Rattle.text_lowering.specs.TextLaws.{TextsAreDeclaredWell};
ghost use Rattle.text_lowering.specs.QuestionVariables.{RefutationsHaveVariablesAlone};
ghost use Rattle.text_lowering.specs.Ready.{OfTexts, FieldsSpeak, HeadersTell, ImplsSpeak};

// ---- impls

/// In a text without a fault, the self type of each impl is a parameter, or begins with no variable or placeholder. So each of its views
/// can be lowered.
pub fn impls_begin_declared()
    ensures { (bytes : List ℕ) (d : Declarations) → TextGives bytes (Ok d) → BeginDeclared d }
{}

/// The same holds for each impl that a later version adds.
pub fn later_impls_begin_declared()
    ensures { (bytes : List ℕ) (d : Declarations) → TextGives bytes (Ok d) → LaterBeginDeclared d }
{}

// ---- what a crate sees of a text

/// Each crate of a text without a fault sees declarations by which goals can be decided. Their terms hold the item's own parameters, and
/// nothing that a binder binds. The where-clauses of an impl hold only parameters of its header. Bounds lead to traits that were declared
/// before. A number stands for one struct.
pub fn texts_are_declared_well()
    ensures { TextsAreDeclaredWell }
{}

/// The fields of each struct that a crate sees in a text without a fault hold the struct's own parameters alone, each by its number and its
/// kind.
pub fn fields_speak_of_parameters()
    ensures { OfTexts FieldsSpeak }
{}

/// The header of each impl that a crate sees in a text without a fault determines the kinds of the impl's parameters. The header and the
/// where-clauses hold these parameters alone.
pub fn impls_speak_of_parameters()
    ensures kinds { OfTexts HeadersTell }
    ensures speaks { OfTexts ImplsSpeak }
{}

/// Each bound of a trait that a crate sees in a text without a fault has an argument of its kind for each parameter of the bound's trait,
/// holds the trait's own parameters alone, and names an earlier trait.
pub fn bounds_are_applied()
    ensures { OfTexts HaveBounds }
{}

/// The trait reference of each `refute` query of a text without a fault holds no parameter, and no inference variable but those of the
/// query.
pub fn refutations_have_variables_alone()
    ensures { RefutationsHaveVariablesAlone }
{}
