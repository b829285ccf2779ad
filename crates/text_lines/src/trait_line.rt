//! `trait NAME<...>: BOUND + ...`
ghost use Rattle.text_lines.specs.Marks.{after_plus};
ghost use Rattle.text_lines.specs.Parts.{bound_at, bounds_at, trait_at, parts_between};
ghost use Rattle.text_lines.specs.Steps.{Reads};
ghost use Rattle.text_lines.specs.Views.{statement_of};

use crate::line_error::LineError;
use crate::reader::Reader;
use crate::statement::{Span, Statement};

impl<'t, 'a> Reader<'t, 'a> {
    /// Bounds, separated by `+`.
    fn bound_list(&mut self) -> Result<Vec<Span>, LineError>
        ensures { Reads (λ v. v.items) result (parts_between bound_at after_plus) self.old self.new }
    {
        let mut bounds = Vec::new(self.alloc);
        'bounds: loop {
            let bound = self.bound()?;
            bounds.push(bound)?;
            if !self.cursor.take_plus() {
                return Ok(bounds);
            }
        }
    }

    /// The bounds after `:`, or none.
    #[tactic(auto, unfolding(crate::specs::Parts::bounds_at))]
    fn bounds(&mut self) -> Result<Vec<Span>, LineError>
        ensures { Reads (λ v. v.items) result bounds_at self.old self.new }
    {
        if self.cursor.take_colon() {
            self.bound_list()
        } else {
            Ok(Vec::new(self.alloc))
        }
    }

    /// The rest of the line after `trait`.
    #[tactic(auto, unfolding(crate::specs::Parts::trait_at))]
    pub(crate) fn trait_line(
        &mut self,
        is_fundamental: bool,
        is_auto: bool,
    ) -> Result<Statement<'a>, LineError>
        ensures { Reads statement_of result (trait_at is_fundamental is_auto) self.old self.new }
    {
        let name = self.name()?;
        let params = self.params()?;
        let bounds = self.bounds()?;
        Ok(Statement::Trait {
            is_fundamental,
            is_auto,
            name,
            params,
            bounds,
        })
    }
}
