//! The state of reading a line, and the names, types and bounds that it reads.
ghost use Rattle.text_lines.specs.TokenViews.{text_of};
ghost use Rattle.text_lines.specs.Parts.{name_at, type_at, bound_at};
ghost use Rattle.text_lines.specs.Steps.{Reads};

use crate::cell::Cell;
use crate::cursor::Cursor;
use crate::line_error::LineError;
use crate::statement::Span;
use crate::type_machine::{TypeRead, read_type};
use std::alloc::Global;
use std::mem;

/// The state of reading a line: the remaining tokens, and the cells of the types read so far.
#[derive(Drop)]
pub(crate) struct Reader<'t, 'a> {
    pub alloc: Global,
    pub cursor: Cursor<'t, 'a>,
    pub cells: Vec<Cell<'a>>,
}

impl<'t, 'a> Reader<'t, 'a> {
    /// Reads a name.
    #[tactic(auto, unfolding(crate::specs::Parts::name_at))]
    pub fn name(&mut self) -> Result<&'a [u8], LineError>
        ensures { Reads text_of result name_at self.old self.new }
    {
        self.cursor.name()
    }

    /// Reads a type, and appends its cells. The span is that of these cells.
    #[tactic(auto, unfolding(crate::specs::Parts::type_at))]
    pub fn read_type(&mut self) -> Result<Span, LineError>
        ensures { Reads (λ s. s) result type_at self.old self.new }
    {
        let start = self.cells.len();
        let before = mem::replace(&mut self.cells, Vec::new(self.alloc));
        let TypeRead { cells, left } = read_type(self.alloc, self.cursor.rest(), before)?;
        let end = cells.len();
        self.cells = cells;
        self.cursor = left;
        Ok(Span { start, end })
    }

    /// Reads a bound: a trait's name and its arguments.
    #[tactic(auto, unfolding(crate::specs::Parts::bound_at))]
    pub fn bound(&mut self) -> Result<Span, LineError>
        ensures { Reads (λ s. s) result bound_at self.old self.new }
    {
        if self.cursor.is_name() {
            self.read_type()
        } else {
            Err(LineError::Syntax)
        }
    }
}
