//! Declared parameters.
ghost use Rattle.std.specs.Prelude.{◌≡◌};
ghost use Rattle.text_lines.specs.Marks.{after_comma};
ghost use Rattle.text_lines.specs.Parts.{param_at, params_at, is_ordered_from, parts_between};
ghost use Rattle.text_lines.specs.Steps.{Reads};
ghost use Rattle.text_lines.specs.Views.{param_of, params_in};

use crate::line_error::LineError;
use crate::reader::Reader;
use crate::statement::Param;
use crate::token::{Keyword, Token};

/// Lifetimes come first, then types, then constants.
fn is_ordered(params: &[Param<'_>]) -> bool
    ensures { result ≡ is_ordered_from 0 (params_in params.now) }
{
    let mut least = 0;
    let mut rest = params;
    while let [first, others @ ..] = rest {
        let rank = first.rank();
        if rank < least {
            return false;
        }
        least = rank;
        rest = others;
    }
    true
}

impl<'t, 'a> Reader<'t, 'a> {
    #[tactic(auto, unfolding(crate::specs::Parts::param_at))]
    fn param(&mut self) -> Result<Param<'a>, LineError>
        ensures { Reads param_of result param_at self.old self.new }
    {
        match self.cursor.next() {
            Some(Token::Lifetime(name)) => Ok(Param::Lifetime(name)),
            Some(Token::Name(name)) => Ok(Param::Type(name)),
            Some(Token::Keyword(Keyword::Const)) => {
                let name = self.cursor.name()?;
                Ok(Param::Const(name))
            }
            _ => Err(LineError::Syntax),
        }
    }

    /// Parameters in any order, separated by commas.
    fn param_list(&mut self) -> Result<Vec<Param<'a>>, LineError>
        ensures { Reads (λ v. params_in v.items) result (parts_between param_at after_comma) self.old self.new }
    {
        let mut params = Vec::new(self.alloc);
        'params: loop {
            let param = self.param()?;
            params.push(param)?;
            if !self.cursor.take_comma() {
                return Ok(params);
            }
        }
    }

    /// The parameters between `<` and `>`, or none. Fails if they are out of order.
    #[tactic(auto, unfolding(crate::specs::Parts::params_at))]
    pub(crate) fn params(&mut self) -> Result<Vec<Param<'a>>, LineError>
        ensures { Reads (λ v. params_in v.items) result params_at self.old self.new }
    {
        if !self.cursor.take_open_angle() {
            return Ok(Vec::new(self.alloc));
        }
        let params = self.param_list()?;
        self.cursor.expect_close_angle()?;
        if is_ordered(&params) {
            Ok(params)
        } else {
            Err(LineError::Syntax)
        }
    }
}
