//! What is found of the types and bounds of a line.
ghost use Rattle.std.specs.Prelude.{◌≡◌, ◌||◌, ◌++◌, [], ◌∷◌, ℕ, List, false, map, take, nat_lt, IfOk, OnOk};
ghost use Rattle.text_lines.specs.Cells as cell;
ghost use Rattle.text_lines.specs.TypeViews.{cells_in};
ghost use Rattle.text_lines.specs.LineParts.{LinePart};
ghost use Rattle.text_names.specs.Machine.{Sight, either};
ghost use Rattle.text_names.specs.Views.{variable_in};
ghost use Rattle.text_names.specs.Found.{IsFound, FindsParts, AddsPart};

use crate::findings::Findings;
use crate::looked_up::Names;
use crate::resolve::{Resolved, ResolvedBound, resolve_bound, resolve_type};
use crate::resolved::{ResolvedCell, Variable};
use std::alloc::{AllocError, Global};
use text_lines::{Cell, LinePart};

/// A type or a bound of a line, with numbers for names.
#[derive(Drop)]
pub struct ResolvedPart<'a> {
    /// The number of a bound's trait. It is 0 for a type, and if the bound's name is no trait.
    pub trait_number: usize,
    /// Its cells, with numbers for names. For a bound, those of its arguments.
    pub cells: Vec<ResolvedCell<'a>>,
}

/// What was found of types and bounds that follow one another.
#[derive(Drop)]
pub struct PartsFound<'a> {
    /// What is wrong with what they use.
    pub faults: Findings,
    /// Their variables, in the order in which they are written.
    pub variables: Vec<Variable<'a>>,
    /// Whether too many types are nested.
    pub is_deep: bool,
    /// Each of them with its names looked up, so that no later step looks one up again.
    pub parts: Vec<ResolvedPart<'a>>,
}

/// The cells before this index.
pub(crate) fn cells_to<'c, 'a>(cells: &'c [Cell<'a>], end: usize) -> &'c [Cell<'a>]
    ensures { result.now ≡ take end cells.now }
{
    &cells[..end.min(cells.len())]
}

impl<'a> PartsFound<'a> {
    /// What is found of no types, with room for this many.
    fn nothing(alloc: Global, count: usize) -> Result<Self, AllocError>
        ensures { IfOk result (λ found. (v : Sight) → IsFound v [] found) }
    {
        Ok(PartsFound {
            faults: Findings::NONE,
            variables: Vec::new(alloc),
            is_deep: false,
            parts: Vec::with_capacity(alloc, count)?,
        })
    }

    /// Adds what was found of one more. For a bound, with the number of its trait.
    fn join(&mut self, found: Resolved<'a>, trait_number: usize) -> Result<(), AllocError>
        ensures faults { OnOk result (self.new.faults ≡ either self.old.faults found.entry.faults) }
        ensures variables { OnOk result (map variable_in self.new.variables.items
            ≡ map variable_in self.old.variables.items ++ map variable_in found.entry.variables.items) }
        ensures deep { OnOk result (self.new.is_deep ≡ (self.old.is_deep || found.entry.is_deep)) }
        ensures parts { OnOk result (self.new.parts.items ≡ self.old.parts.items ++ record { trait_number = trait_number; cells = found.entry.cells } ∷ []) }
    {
        let Resolved {
            faults,
            variables,
            is_deep,
            cells,
        } = found;
        self.faults = self.faults.either(faults);
        self.is_deep = self.is_deep || is_deep;
        self.variables.extend_from_slice(&variables)?;
        self.parts.push(ResolvedPart {
            trait_number,
            cells,
        })?;
        Ok(())
    }

    /// Adds what is found of one more.
    fn add<N: Names>(
        &mut self,
        names: &N,
        alloc: Global,
        cells: &[Cell<'a>],
        part: LinePart,
    ) -> Result<(), AllocError>
        ensures { OnOk result (AddsPart (N.sight names.now) (cells_in cells.now) part self.old self.new) }
    {
        match part {
            LinePart::Type(span) => {
                let found = resolve_type(names, alloc, cells_to(cells, span.end))?;
                self.join(found, 0)?;
            }
            LinePart::Bound(span) => {
                let found = resolve_bound(names, alloc, cells_to(cells, span.end))?;
                let ResolvedBound {
                    trait_number,
                    resolved,
                } = found;
                self.join(resolved, trait_number)?;
            }
        }
        Ok(())
    }
}

/// What is found of types and bounds of a line, which are among its cells. Fails only if memory is refused.
pub fn find_parts<'a, N: Names>(
    names: &N,
    alloc: Global,
    cells: &[Cell<'a>],
    parts: &[LinePart],
) -> Result<PartsFound<'a>, AllocError>
    ensures { IfOk result (λ found. FindsParts (N.sight names.now) (cells_in cells.now) parts.now found) }
{
    let mut found = PartsFound::nothing(alloc, parts.len())?;
    for part in parts {
        found.add(names, alloc, cells, *part)?;
    }
    Ok(found)
}
