//! A cursor that visits the cells of a line from the last to the first.
ghost use Rattle.std.specs.Prelude.{◌≡◌, ◌+◌, ◌^◌, ◌<◌, ◌≤◌, List, [], ◌∷◌, length, map, min, reverse, MatchOption, IfOk};
ghost use Rattle.text_lines.specs.Cells as cell;
ghost use Rattle.text_lines.specs.TokenViews.{text_of};
ghost use Rattle.text_lines.specs.TypeViews.{cell_of};
ghost use Rattle.text_lines.specs.Back.{begins};

use crate::cell::Cell;
use std::alloc::{AllocError, Global};
use std::marker::Model;

/// Visits the cells of a line from the last to the first. In contracts it is the list of those that are not visited yet, in this order.
#[derive(Drop)]
pub struct CellCursor<'c, 'a> {
    cells: &'c [Cell<'a>],
    at: usize,
}

impl<'c, 'a> Model for CellCursor<'c, 'a> {
    ghost use Rattle.std.specs.Prelude.{List, ◌≤◌, length};
    ghost use Rattle.text_lines.specs.Cells.{Cell};
    ghost use Rattle.text_lines.specs.TypeViews.{cells_before};

    ghost Value = { List Cell };

    ghost view = { λ r. cells_before r.cells.now r.at };

    ghost invariant = { λ r. r.at ≤ length r.cells.now };
}

/// The index from which cells are inside this one, if this many cells are before it. `None` if only the part directly before it is inside.
fn inside_from(last: Cell<'_>, before: usize) -> Option<usize>
    ensures { (r : List cell.Cell) → before ≡ length r
        → MatchOption result (begins (cell_of last.entry ∷ r) ≡ begins r) (λ start. begins (cell_of last.entry ∷ r) ≡ min start (length r)) }
{
    match last {
        Cell::Reference { .. } => None,
        Cell::Pointer { .. } => None,
        Cell::Slice => None,
        Cell::Array(_) => None,
        Cell::Named { start, .. } => Some(start),
        Cell::Tuple { start } => Some(start),
        Cell::Fn { start, .. } => Some(start),
        Cell::FnTo { start, .. } => Some(start),
        Cell::Bound { start, .. } => Some(start),
        Cell::Dyn { start } => Some(start),
        _ => Some(before),
    }
}

impl<'c, 'a> CellCursor<'c, 'a> {
    ghost use Rattle.text_lines.specs.TypeViews.{cells_in};
    ghost use Rattle.text_lines.specs.Back.{down_to, count_above, names_between};
    ghost use Rattle.text_lines.specs.CellSteps.{TakesPart, TakesNamed};

    /// All cells of the line.
    pub fn new(cells: &'c [Cell<'a>]) -> Self
        ensures { result ≡ reverse (cells_in cells.now) }
    {
        CellCursor {
            cells,
            at: cells.len(),
        }
    }

    /// How many are left.
    pub fn len(&self) -> usize
        ensures { result ≡ length self.now }
    {
        self.at
    }

    /// Takes the last cell.
    pub fn next(&mut self) -> Option<Cell<'a>>
        ensures cell { MatchOption result (self.old ≡ []) (λ c. self.old ≡ cell_of c ∷ self.new) }
        ensures room { length self.new + 1 < 2 ^ 64 }
    {
        if self.at > 0 {
            self.at -= 1;
            let cell = self.cells[self.at];
            Some(cell)
        } else {
            None
        }
    }

    /// Takes the last cell if it is a name with arguments, and returns where these begin.
    pub fn next_named(&mut self) -> Option<(&'a [u8], usize)>
        ensures { TakesNamed result self.old self.new }
    {
        match self.next() {
            Some(Cell::Named { name, start }) => Some((name, start)),
            _ => None,
        }
    }

    /// Keeps only the cells before this index.
    pub fn down_to(&mut self, start: usize)
        ensures { self.new ≡ down_to start self.old }
    {
        if start < self.at {
            self.at = start;
        }
    }

    /// The same cells, to look ahead.
    pub fn fork(&self) -> CellCursor<'c, 'a>
        ensures { result ≡ self.now }
    {
        CellCursor {
            cells: self.cells,
            at: self.at,
        }
    }

    /// The index where the last cell begins, with what is inside it.
    fn begins(&self) -> usize
        ensures { result ≡ begins self.now }
    {
        let mut rest = self.fork();
        while let Some(cell) = rest.next() {
            if let Some(start) = inside_from(cell, rest.len()) {
                return start.min(rest.len());
            }
        }
        0
    }

    /// Takes the last cell, with what is inside it.
    pub fn next_part(&mut self) -> Option<Cell<'a>>
        ensures { TakesPart result self.old self.new }
    {
        let start = self.begins();
        let cell = self.next();
        self.down_to(start);
        cell
    }

    /// How many parts there are from this index on, without those inside them.
    pub fn count_above(&self, start: usize) -> usize
        ensures { result ≡ count_above start self.now }
    {
        let end = self.len();
        let mut rest = self.fork();
        let mut count = 0;
        while rest.len() > start {
            let _ = rest.next_part();
            count += 1;
        }
        let _ = end;
        count
    }

    /// The names of the binder between these indices.
    pub fn names_between(
        &self,
        alloc: Global,
        start: usize,
        inner: usize,
    ) -> Result<Vec<&'a [u8]>, AllocError>
        ensures { IfOk result (λ v. map text_of v.items ≡ names_between start inner self.now) }
    {
        let mut rest = self.fork();
        rest.down_to(inner);
        let mut names = Vec::new(alloc);
        while rest.len() > start {
            if let Some(Cell::Binder(name)) = rest.next() {
                names.push(name)?;
            }
        }
        names.reverse();
        Ok(names)
    }
}
