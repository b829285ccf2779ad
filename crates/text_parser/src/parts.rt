//! The types, bounds and where-clauses of a line, as cells. Their names were looked up when the line was judged.
ghost use Rattle.std.specs.Prelude.{◌≡◌, ◌∷◌, [], IfOk, OnOk};
ghost use Rattle.type_terms.specs.Promised.Label.{of_type, param};
ghost use Rattle.type_terms.specs.Promised.Trees.{leaf};
ghost use Rattle.text_language.specs.Lowering.{Meanings};
ghost use Rattle.text_names.specs.Machine.{Sight};
ghost use Rattle.text_tables.specs.Made.{type_part};
ghost use Rattle.text_parser.specs.Keeping.{PutsTrees};
ghost use Rattle.text_parser.specs.Kept.{HasSmallNumbers, MeansFields, MeansClause, MeansClauses, MeansBounds, KeepsType, MeansBound, MeansReference};
ghost use Rattle.text_parser.specs.Numbering.{IsNumbersOf};

use crate::keep::push_cells;
use crate::numbering::{Numbering, Numbers};
use crate::small::trait_id;
use std::alloc::{AllocError, Global};
use text_names::{Names, ResolvedPart};
use text_tables::{ReferenceCells, TermCell};

/// Self of a trait, which is its parameter 0.
fn self_cells(alloc: Global) -> Result<Vec<TermCell>, AllocError>
    ensures { IfOk result (λ cells. PutsTrees cells.items (leaf (param of_type 0) ∷ []) (type_part ∷ [])) }
{
    let mut cells = Vec::new(alloc);
    cells.push(TermCell::Param(0))?;
    Ok(cells)
}

/// Appends the cells of a type.
fn push_type<'a>(
    numbers: &Numbers<'_, 'a>,
    part: &ResolvedPart<'a>,
    kept: &mut Vec<TermCell>,
) -> Result<(), AllocError>
    ensures { OnOk result ((v : Sight) (e : Meanings) → IsNumbersOf numbers.now e → KeepsType v e part.now kept.old.items kept.new.items) }
{
    push_cells(numbers, &part.cells, kept)?;
    Ok(())
}

/// A bound of the self type that these cells are.
fn with_self<'a>(
    numbers: &Numbers<'_, 'a>,
    bound: &ResolvedPart<'a>,
    subject: Vec<TermCell>,
) -> Result<ReferenceCells, AllocError>
    ensures { IfOk result (λ r. (v : Sight) (e : Meanings) → IsNumbersOf numbers.now e → MeansBound v e bound.now subject.items r) }
{
    let mut args = subject;
    push_cells(numbers, &bound.cells, &mut args)?;
    Ok(ReferenceCells {
        trait_id: trait_id(bound.trait_number),
        args,
    })
}

fn reference<'a>(
    numbers: &Numbers<'_, 'a>,
    alloc: Global,
    subject: &ResolvedPart<'a>,
    bound: &ResolvedPart<'a>,
) -> Result<ReferenceCells, AllocError>
    ensures { IfOk result (λ r. (v : Sight) (e : Meanings) → IsNumbersOf numbers.now e → MeansReference v e subject.now bound.now r) }
{
    let count = subject.cells.len().saturating_add(bound.cells.len());
    let mut own = Vec::with_capacity(alloc, count)?;
    push_type(numbers, subject, &mut own)?;
    let made = with_self(numbers, bound, own)?;
    Ok(made)
}

/// The fields of a struct, one type after the other. The names must be those of the line.
///
/// Fails only if memory is refused.
pub fn field_cells<'a, N: Names>(
    names: &N,
    alloc: Global,
    numbering: Numbering<'_, 'a>,
    fields: &[ResolvedPart<'a>],
) -> Result<Vec<TermCell>, AllocError>
    requires { HasSmallNumbers (N.sight names.now) numbering }
    ensures { IfOk result (λ kept. MeansFields (N.sight names.now) numbering.entry fields.now kept.items) }
{
    let numbers = Numbers::of(names, numbering);
    let mut kept = Vec::new(alloc);
    for field in fields {
        push_type(&numbers, field, &mut kept)?;
    }
    Ok(kept)
}

/// A where-clause, the header of an impl, or a bound of a query: the trait's number, with its arguments after Self. rustc: `TraitRef`.
///
/// Fails only if memory is refused.
pub fn clause_cells<'a, N: Names>(
    names: &N,
    alloc: Global,
    numbering: Numbering<'_, 'a>,
    subject: &ResolvedPart<'a>,
    bound: &ResolvedPart<'a>,
) -> Result<ReferenceCells, AllocError>
    requires { HasSmallNumbers (N.sight names.now) numbering }
    ensures { IfOk result (λ r. MeansClause (N.sight names.now) numbering.entry subject.now bound.now r) }
{
    let numbers = Numbers::of(names, numbering);
    let made = reference(&numbers, alloc, subject, bound)?;
    Ok(made)
}

/// Where-clauses or bounds of a query, one after the other. The parts are the subject and then the bound of each.
///
/// Fails only if memory is refused.
pub fn clauses_cells<'a, N: Names>(
    names: &N,
    alloc: Global,
    numbering: Numbering<'_, 'a>,
    parts: &[ResolvedPart<'a>],
) -> Result<Vec<ReferenceCells>, AllocError>
    requires { HasSmallNumbers (N.sight names.now) numbering }
    ensures { IfOk result (λ rs. MeansClauses (N.sight names.now) numbering.entry parts.now rs.items) }
{
    let numbers = Numbers::of(names, numbering);
    let mut references = Vec::with_capacity(alloc, parts.len() / 2)?;
    let mut rest = parts;
    while let [subject, bound, others @ ..] = rest {
        let made = reference(&numbers, alloc, subject, bound)?;
        references.push(made)?;
        rest = others;
    }
    Ok(references)
}

/// The supertraits of a trait, for its Self.
///
/// Fails only if memory is refused.
pub fn bound_cells<'a, N: Names>(
    names: &N,
    alloc: Global,
    bounds: &[ResolvedPart<'a>],
) -> Result<Vec<ReferenceCells>, AllocError>
    requires { HasSmallNumbers (N.sight names.now) (Numbering.Item 1) }
    ensures { IfOk result (λ rs. MeansBounds (N.sight names.now) bounds.now rs.items) }
{
    let numbers = Numbers::of(names, Numbering::Item { first: 1 });
    let mut references = Vec::new(alloc);
    for bound in bounds {
        let made = with_self(&numbers, bound, self_cells(alloc)?)?;
        references.push(made)?;
    }
    Ok(references)
}
