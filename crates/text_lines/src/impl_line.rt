//! `impl<...> BOUND for TYPE where TYPE: BOUND, ...`
ghost use Rattle.text_lines.specs.Parts.{header_at, impl_at};
ghost use Rattle.text_lines.specs.Steps.{Reads};
ghost use Rattle.text_lines.specs.Views.{statement_of};

use crate::line_error::LineError;
use crate::reader::Reader;
use crate::statement::{ClauseSpans, Statement};

impl<'t, 'a> Reader<'t, 'a> {
    /// `bound for type`
    #[tactic(auto, unfolding(crate::specs::Parts::header_at))]
    fn header(&mut self) -> Result<ClauseSpans, LineError>
        ensures { Reads (λ k. k) result header_at self.old self.new }
    {
        let bound = self.bound()?;
        self.cursor.expect_for()?;
        let subject = self.read_type()?;
        Ok(ClauseSpans { subject, bound })
    }

    /// The rest of the line after `impl`.
    #[tactic(auto, unfolding(crate::specs::Parts::impl_at))]
    pub(crate) fn impl_line(&mut self) -> Result<Statement<'a>, LineError>
        ensures { Reads statement_of result impl_at self.old self.new }
    {
        let params = self.params()?;
        let header = self.header()?;
        let clauses = self.where_clauses()?;
        Ok(Statement::Impl {
            params,
            header,
            clauses,
        })
    }
}
