//! `struct NAME<...>(TYPE, ...)`
ghost use Rattle.text_lines.specs.Marks.{after_comma};
ghost use Rattle.text_lines.specs.Parts.{type_at, fields_at, struct_at, parts_between};
ghost use Rattle.text_lines.specs.Steps.{Reads};
ghost use Rattle.text_lines.specs.Views.{statement_of};

use crate::line_error::LineError;
use crate::reader::Reader;
use crate::statement::{Span, Statement};

impl<'t, 'a> Reader<'t, 'a> {
    /// Types, separated by commas.
    fn types(&mut self) -> Result<Vec<Span>, LineError>
        ensures { Reads (λ v. v.items) result (parts_between type_at after_comma) self.old self.new }
    {
        let mut types = Vec::new(self.alloc);
        'types: loop {
            let span = self.read_type()?;
            types.push(span)?;
            if !self.cursor.take_comma() {
                return Ok(types);
            }
        }
    }

    /// The types between `(` and `)`, or none.
    #[tactic(auto, unfolding(crate::specs::Parts::fields_at))]
    fn fields(&mut self) -> Result<Vec<Span>, LineError>
        ensures { Reads (λ v. v.items) result fields_at self.old self.new }
    {
        if !self.cursor.take_open_round() {
            return Ok(Vec::new(self.alloc));
        }
        let fields = self.types()?;
        self.cursor.expect_close_round()?;
        Ok(fields)
    }

    /// The rest of the line after `struct`.
    #[tactic(auto, unfolding(crate::specs::Parts::struct_at))]
    pub(crate) fn struct_line(&mut self, is_fundamental: bool) -> Result<Statement<'a>, LineError>
        ensures { Reads statement_of result (struct_at is_fundamental) self.old self.new }
    {
        let name = self.name()?;
        let params = self.params()?;
        let fields = self.fields()?;
        Ok(Statement::Struct {
            is_fundamental,
            name,
            params,
            fields,
        })
    }
}
