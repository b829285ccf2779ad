//! `prove in CRATE<...> TYPE: BOUND, ... where ...`, and `refute in CRATE<...> TYPE: BOUND, ...`
ghost use Rattle.text_lines.specs.Parts.{prove_at, refute_at};
ghost use Rattle.text_lines.specs.Steps.{Reads};
ghost use Rattle.text_lines.specs.Views.{statement_of};

use crate::line_error::LineError;
use crate::reader::Reader;
use crate::statement::Statement;

impl<'t, 'a> Reader<'t, 'a> {
    /// The rest of the line after `prove`.
    #[tactic(auto, unfolding(crate::specs::Parts::prove_at))]
    pub(crate) fn prove_line(&mut self) -> Result<Statement<'a>, LineError>
        ensures { Reads statement_of result prove_at self.old self.new }
    {
        self.cursor.expect_in()?;
        let crate_name = self.name()?;
        let params = self.params()?;
        let asked = self.clause()?;
        let further = self.further_clauses()?;
        let clauses = self.where_clauses()?;
        Ok(Statement::Prove {
            crate_name,
            params,
            asked,
            further,
            clauses,
        })
    }

    /// The rest of the line after `refute`.
    #[tactic(auto, unfolding(crate::specs::Parts::refute_at))]
    pub(crate) fn refute_line(&mut self) -> Result<Statement<'a>, LineError>
        ensures { Reads statement_of result refute_at self.old self.new }
    {
        self.cursor.expect_in()?;
        let crate_name = self.name()?;
        let params = self.params()?;
        let asked = self.clause()?;
        let further = self.further_clauses()?;
        Ok(Statement::Refute {
            crate_name,
            params,
            asked,
            further,
        })
    }
}
