//! `crate NAME uses NAME, NAME, ...`, `later NAME` and `supers in NAME`
ghost use Rattle.text_lines.specs.Marks.{after_comma};
ghost use Rattle.text_lines.specs.Parts.{name_at, uses_at, crate_at, later_at, supers_at, parts_between};
ghost use Rattle.text_lines.specs.Steps.{Reads};
ghost use Rattle.text_lines.specs.Views.{texts_in, statement_of};

use crate::line_error::LineError;
use crate::reader::Reader;
use crate::statement::Statement;

impl<'t, 'a> Reader<'t, 'a> {
    /// Names, separated by commas.
    fn names(&mut self) -> Result<Vec<&'a [u8]>, LineError>
        ensures { Reads (λ v. texts_in v.items) result (parts_between name_at after_comma) self.old self.new }
    {
        let mut names = Vec::new(self.alloc);
        'names: loop {
            let name = self.name()?;
            names.push(name)?;
            if !self.cursor.take_comma() {
                return Ok(names);
            }
        }
    }

    /// The names after `uses`, or none.
    #[tactic(auto, unfolding(crate::specs::Parts::uses_at))]
    fn uses(&mut self) -> Result<Vec<&'a [u8]>, LineError>
        ensures { Reads (λ v. texts_in v.items) result uses_at self.old self.new }
    {
        if self.cursor.take_uses() {
            self.names()
        } else {
            Ok(Vec::new(self.alloc))
        }
    }

    /// The rest of the line after `crate`.
    #[tactic(auto, unfolding(crate::specs::Parts::crate_at))]
    pub(crate) fn crate_line(&mut self) -> Result<Statement<'a>, LineError>
        ensures { Reads statement_of result crate_at self.old self.new }
    {
        let name = self.name()?;
        let uses = self.uses()?;
        Ok(Statement::Crate { name, uses })
    }

    /// The rest of the line after `later`.
    #[tactic(auto, unfolding(crate::specs::Parts::later_at))]
    pub(crate) fn later_line(&mut self) -> Result<Statement<'a>, LineError>
        ensures { Reads statement_of result later_at self.old self.new }
    {
        let crate_name = self.name()?;
        Ok(Statement::Later { crate_name })
    }

    /// The rest of the line after `supers`.
    #[tactic(auto, unfolding(crate::specs::Parts::supers_at))]
    pub(crate) fn supers_line(&mut self) -> Result<Statement<'a>, LineError>
        ensures { Reads statement_of result supers_at self.old self.new }
    {
        self.cursor.expect_in()?;
        let crate_name = self.name()?;
        Ok(Statement::Supers { crate_name })
    }
}
