//! Clauses, the `where` part of a line, and the bounds of a query.
ghost use Rattle.text_lines.specs.Marks.{after_comma};
ghost use Rattle.text_lines.specs.Parts.{clause_at, further_at, where_at, parts_between};
ghost use Rattle.text_lines.specs.Steps.{Reads};

use crate::line_error::LineError;
use crate::reader::Reader;
use crate::statement::ClauseSpans;

impl<'t, 'a> Reader<'t, 'a> {
    /// `type: bound`
    #[tactic(auto, unfolding(crate::specs::Parts::clause_at))]
    pub(crate) fn clause(&mut self) -> Result<ClauseSpans, LineError>
        ensures { Reads (λ k. k) result clause_at self.old self.new }
    {
        let subject = self.read_type()?;
        self.cursor.expect_colon()?;
        let bound = self.bound()?;
        Ok(ClauseSpans { subject, bound })
    }

    /// Clauses, separated by commas.
    fn clauses(&mut self) -> Result<Vec<ClauseSpans>, LineError>
        ensures { Reads (λ v. v.items) result (parts_between clause_at after_comma) self.old self.new }
    {
        let mut clauses = Vec::new(self.alloc);
        'clauses: loop {
            let clause = self.clause()?;
            clauses.push(clause)?;
            if !self.cursor.take_comma() {
                return Ok(clauses);
            }
        }
    }

    /// The bounds of a query after its first, each after a comma.
    #[tactic(auto, unfolding(crate::specs::Parts::further_at))]
    pub(crate) fn further_clauses(&mut self) -> Result<Vec<ClauseSpans>, LineError>
        ensures { Reads (λ v. v.items) result further_at self.old self.new }
    {
        if self.cursor.take_comma() {
            self.clauses()
        } else {
            Ok(Vec::new(self.alloc))
        }
    }

    /// The clauses after `where`, or none.
    #[tactic(auto, unfolding(crate::specs::Parts::where_at))]
    pub(crate) fn where_clauses(&mut self) -> Result<Vec<ClauseSpans>, LineError>
        ensures { Reads (λ v. v.items) result where_at self.old self.new }
    {
        if self.cursor.take_where() {
            self.clauses()
        } else {
            Ok(Vec::new(self.alloc))
        }
    }
}
