//! The meaning of a text, as definitions and laws without code to run: how a line is written, what it mentions,
//! declares or asks, which fault it has, and how types, values and answers are printed.
//!
//! `specs/` defines each of these twice. The short definition, in `specs/Promised`, is what `run` promises. The long
//! one follows how the reader and the printer work, and these are proved against it. Some functions here prove
//! examples, by the long definitions. The others prove that the two definitions agree.
#![tactic(auto)]

ghost use Rattle.text_language.specs.Worked.{EachFault, GenericImpl, TwoKinds, TwoBounds, ManyBounds, BoundLifetimes, CoreIsCore, CoreIsRead, Depths, EmptyText, FinePoints, OrphanHeader, Printed, SectionFaults, TwoSections, ValuesPrinted, ItemsOfVectors, TypeFaults};
ghost use Rattle.text_language.specs.Agreement.{PlainLinesHaveTheirFaults, PlainLinesLackTypes, PlainLinesStandForThemselves, TextsSayWhatTheyGive, ValuesArePrintedAlike};

/// A text for each fault that a line can have.
pub fn worked_faults()
    ensures { EachFault }
{}

/// Texts with sections of later versions: what they declare, and a text for each fault of a section.
pub fn worked_sections()
    ensures faults { SectionFaults }
    ensures declared { TwoSections }
{}

/// Texts with fine points: which names are in use, which fault has the smaller number, how deep a type is, and how many
/// bounds a query has.
pub fn worked_fine_points()
    ensures points { FinePoints }
    ensures depths { Depths }
    ensures bounds { ManyBounds }
{}

/// What some texts declare and ask.
pub fn worked_declarations()
    ensures generic_impl { GenericImpl }
    ensures two_kinds { TwoKinds }
    ensures two_bounds { TwoBounds }
    ensures bound_lifetimes { BoundLifetimes }
    ensures orphan { OrphanHeader }
    ensures empty { EmptyText }
{}

/// The lines of `core` declare `core`: its traits, its struct and its 39 impls. Without lifetimes it is the crate whose
/// rules are read.
pub fn core_is_read()
    ensures read { CoreIsRead }
    ensures erased { CoreIsCore }
{}

/// Examples of printed types and lines.
pub fn worked_output()
    ensures printed { Printed }
    ensures values { ValuesPrinted }
{}

/// Texts with types of traits: what they declare and ask, and a text for each fault of such types.
pub fn worked_types()
    ensures declared { ItemsOfVectors }
    ensures faults { TypeFaults }
{}

/// A text has the meaning that the long definitions give.
pub fn texts_say_what_they_give()
    ensures { TextsSayWhatTheyGive }
{}

/// A line without types is written as before, and stands for itself. Only an impl that lacks types has a fault as a written line. Its
/// fault is the smaller of both.
pub fn plain_lines_stand_for_themselves()
    ensures stand { PlainLinesStandForThemselves }
    ensures lack { PlainLinesLackTypes }
    ensures faults { PlainLinesHaveTheirFaults }
{}

/// The values of an answer are printed as the long definitions give them.
pub fn values_are_printed_alike()
    ensures { ValuesArePrintedAlike }
{}
