//! The types and bounds of a line of any kind.
ghost use Rattle.std.specs.Prelude.{◌≡◌, ◌∷◌, ◌++◌, map, IfOk};
ghost use Rattle.std.specs.List.{flat_map};
ghost use Rattle.text_lines.specs.LineParts.{type_place, bound_place, clause_places, places_in};
ghost use Rattle.text_lines.specs.Views.{statement_of};

use crate::statement::{ClauseSpans, Span, Statement};
use std::alloc::{AllocError, Global};

/// A type or a bound of a line, by its span.
#[derive(Clone, Copy)]
pub enum LinePart {
    Type(Span),
    Bound(Span),
}

fn type_parts(alloc: Global, spans: &[Span]) -> Result<Vec<LinePart>, AllocError>
    ensures { IfOk result (λ v. v.items ≡ map type_place spans.now) }
{
    spans
        .iter()
        .map(|span| LinePart::Type(*span))
        .collect(alloc)
}

fn bound_parts(alloc: Global, spans: &[Span]) -> Result<Vec<LinePart>, AllocError>
    ensures { IfOk result (λ v. v.items ≡ map bound_place spans.now) }
{
    spans
        .iter()
        .map(|span| LinePart::Bound(*span))
        .collect(alloc)
}

/// Appends the parts of the clauses.
fn push_clauses(parts: &mut Vec<LinePart>, clauses: &[ClauseSpans]) -> Result<(), AllocError>
    ensures { IfOk result (λ u. parts.new.items ≡ parts.old.items ++ flat_map clause_places clauses.now) }
{
    let mut rest = clauses;
    while let [clause, others @ ..] = rest {
        parts.push(LinePart::Type(clause.subject))?;
        parts.push(LinePart::Bound(clause.bound))?;
        rest = others;
    }
    Ok(())
}

/// The parts of the header or of the first queried bound, those of the further bounds, and those of the clauses.
fn clause_parts(
    alloc: Global,
    first: LinePart,
    second: LinePart,
    further: &[ClauseSpans],
    clauses: &[ClauseSpans],
) -> Result<Vec<LinePart>, AllocError>
    ensures { IfOk result (λ v. v.items ≡ first ∷ second ∷ (flat_map clause_places further.now ++ flat_map clause_places clauses.now)) }
{
    let count = further.len().saturating_add(clauses.len());
    let mut parts = Vec::with_capacity(alloc, count.saturating_mul(2).saturating_add(2))?;
    parts.push(first)?;
    parts.push(second)?;
    push_clauses(&mut parts, further)?;
    push_clauses(&mut parts, clauses)?;
    Ok(parts)
}

impl<'a> Statement<'a> {
    /// The types and bounds of the line, in the order of the text. Fails only if memory is refused.
    pub fn parts(&self, alloc: Global) -> Result<Vec<LinePart>, AllocError>
        ensures { IfOk result (λ v. v.items ≡ places_in (statement_of self.now)) }
    {
        match self {
            Statement::Crate { .. } | Statement::Later { .. } | Statement::Supers { .. } => {
                Ok(Vec::new(alloc))
            }
            Statement::Struct { fields, .. } => type_parts(alloc, fields),
            Statement::Trait { bounds, .. } => bound_parts(alloc, bounds),
            Statement::Impl {
                header,
                clauses,
                ..
            } => clause_parts(
                alloc,
                LinePart::Bound(header.bound),
                LinePart::Type(header.subject),
                &[],
                clauses,
            ),
            Statement::Prove {
                asked,
                further,
                clauses,
                ..
            } => clause_parts(
                alloc,
                LinePart::Type(asked.subject),
                LinePart::Bound(asked.bound),
                further,
                clauses,
            ),
            Statement::Refute { asked, further, .. } => clause_parts(
                alloc,
                LinePart::Type(asked.subject),
                LinePart::Bound(asked.bound),
                &[],
                further,
            ),
        }
    }
}
