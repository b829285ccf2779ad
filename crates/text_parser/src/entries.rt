//! The types and trait references of a line, by numbers alone.
ghost use Rattle.std.specs.Prelude.{◌≡◌, ◌∷◌, map, IfOk};
ghost use Rattle.text_lines.specs.Views.{params_in, statement_of};
ghost use Rattle.text_parser.specs.Declaring.{IsRead, IsJudged};
ghost use Rattle.text_tables.specs.Made.{AreMade, ReferenceMade, ReferencesMade, is_type};
ghost use Rattle.text_tables.specs.Numbered.{IsFew};
ghost use Rattle.text_tables.specs.Tables.{declared, IsConsistent};
ghost use Rattle.text_tables.specs.TermCells.{trees_of};
ghost use Rattle.text_tables.specs.Views.{cells_of, reference_of};
ghost use Rattle.text_parser.specs.Entries.{OfRead, AreFields, AreBoundsOfLine, IsMain, AreClauses, IsStruct, IsTrait, IsImpl, IsAsking, IsQuestionEntry};
ghost use Rattle.text_parser.specs.Sights.{IsSightOfRead, sight_of};

use crate::line_tables::LineTables;
use crate::numbering::Numbering;
use crate::params::{named_params, named_variables};
use crate::parts::{bound_cells, clause_cells, clauses_cells, field_cells};
use crate::so_far::SoFar;
use std::alloc::{AllocError, Global};
use text_lines::{LineRead, Param};
use text_names::{LineFound, each_once};
use text_tables::{Asked, ENTRY_LIMIT, QuestionEntry, ReferenceCells, Tables, TermCell};

/// The header and the where-clauses of an impl's line, as the tables store them.
#[derive(Drop)]
pub(crate) struct ImplReferences {
    pub header: ReferenceCells,
    pub clauses: Vec<ReferenceCells>,
}

/// What the names of a line are looked up in.
fn names_of<'w, 's, 'a>(
    tables: &'w Tables,
    alloc: Global,
    read: &'s LineRead<'a>,
) -> Result<LineTables<'w, 's, 'a>, AllocError>
    requires agrees { IsConsistent tables.now }
    requires few { IsFew (declared tables.now) ENTRY_LIMIT }
    requires read { IsRead read.now }
    ensures { IfOk result (λ names. IsSightOfRead (declared tables.now) read.now (sight_of names)) }
{
    LineTables::new(alloc, SoFar::new(tables), &read.statement)
}

/// The fields of a struct that a line declares, of which this was found.
pub(crate) fn struct_fields<'a>(
    tables: &Tables,
    alloc: Global,
    read: &LineRead<'a>,
    found: &LineFound<'a>,
) -> Result<Vec<TermCell>, AllocError>
    requires judged { IsJudged tables.now read.now found.now }
    requires line { IsStruct (statement_of read.now.statement) }
    ensures made { IfOk result (λ cs. AreMade is_type cs.items) }
    ensures are { IfOk result (λ cs. OfRead read.now (λ l. AreFields (declared tables.now) l (trees_of (cells_of cs.items)))) }
{
    let names = names_of(tables, alloc, read)?;
    field_cells(
        &names,
        alloc,
        Numbering::Item { first: 0 },
        &found.others.parts,
    )
}

/// The supertraits of a trait that a line declares, for its Self.
pub(crate) fn trait_bounds<'a>(
    tables: &Tables,
    alloc: Global,
    read: &LineRead<'a>,
    found: &LineFound<'a>,
) -> Result<Vec<ReferenceCells>, AllocError>
    requires judged { IsJudged tables.now read.now found.now }
    requires line { IsTrait (statement_of read.now.statement) }
    ensures made { IfOk result (λ rs. ReferencesMade rs.items) }
    ensures are { IfOk result (λ rs. OfRead read.now (λ l. AreBoundsOfLine (declared tables.now) l (map reference_of rs.items))) }
{
    let names = names_of(tables, alloc, read)?;
    bound_cells(&names, alloc, &found.others.parts)
}

/// The header and the where-clauses of an impl that a line declares. In the line the trait of the header comes first, and its self type
/// next.
pub(crate) fn impl_references<'a>(
    tables: &Tables,
    alloc: Global,
    read: &LineRead<'a>,
    found: &LineFound<'a>,
) -> Result<ImplReferences, AllocError>
    requires judged { IsJudged tables.now read.now found.now }
    requires line { IsImpl (statement_of read.now.statement) }
    ensures header_made { IfOk result (λ r. ReferenceMade r.header) }
    ensures header { IfOk result (λ r. OfRead read.now (λ l. IsMain (declared tables.now) l (reference_of r.header))) }
    ensures clauses_made { IfOk result (λ r. ReferencesMade r.clauses.items) }
    ensures clauses { IfOk result (λ r. OfRead read.now (λ l. AreClauses (declared tables.now) l (map reference_of r.clauses.items))) }
{
    let names = names_of(tables, alloc, read)?;
    let [bound, subject, clauses @ ..] = found.others.parts.as_slice() else {
        unreachable!()
    };
    let numbering = Numbering::Item { first: 0 };
    let reference = clause_cells(&names, alloc, numbering, subject, bound)?;
    let references = clauses_cells(&names, alloc, numbering, clauses)?;
    Ok(ImplReferences {
        header: reference,
        clauses: references,
    })
}

/// The query of a line, with each of its variables once, in the order of first occurrence.
pub(crate) fn question_entry<'a>(
    tables: &Tables,
    alloc: Global,
    read: &LineRead<'a>,
    found: &LineFound<'a>,
    asked_how: Asked,
    params: &[Param<'_>],
) -> Result<QuestionEntry, AllocError>
    requires judged { IsJudged tables.now read.now found.now }
    requires line { IsAsking (declared tables.now) (statement_of read.now.statement) asked_how (params_in params.now) }
    ensures how { IfOk result (λ q. q.asked_how ≡ asked_how) }
    ensures asked_made { IfOk result (λ q. ReferencesMade (q.asked ∷ q.further.items)) }
    ensures clauses_made { IfOk result (λ q. ReferencesMade q.clauses.items) }
    ensures entry { IfOk result (λ q. IsQuestionEntry (declared tables.now) (params_in params.now) read.now q) }
{
    let names = names_of(tables, alloc, read)?;
    let [subject, bound, others @ ..] = found.asked.parts.as_slice() else {
        unreachable!()
    };
    let firsts = each_once(alloc, &found.asked.variables)?;
    let variables = firsts.as_slice();
    let numbering = Numbering::Question { variables };
    let reference = clause_cells(&names, alloc, numbering, subject, bound)?;
    let further = clauses_cells(&names, alloc, numbering, others)?;
    let references = clauses_cells(&names, alloc, numbering, &found.others.parts)?;
    let named = named_params(alloc, params)?;
    let unknowns = named_variables(alloc, variables)?;
    Ok(QuestionEntry {
        asked_how,
        params: named,
        asked: reference,
        further,
        clauses: references,
        variables: unknowns,
    })
}
