//! The tokens of a line that are not read yet.
ghost use Rattle.std.specs.Prelude.{◌≡◌, [], ◌∷◌, MatchOption, drop, if◌then◌else◌};
ghost use Rattle.std.specs.Option.{option_map};
ghost use Rattle.text_language.specs.Words.{open_angle, close_round, plus, mut_word};
ghost use Rattle.text_language.specs.Tokens.{keyword, sign, arrow};
ghost use Rattle.text_lines.specs.TokenViews.{slice_tokens, text_of};
ghost use Rattle.text_lines.specs.Marks.{Passed, PassesMark, Takes, after_comma, after_colon, after_open_round, after_close_round, after_close_angle, after_uses, after_where, after_for, after_in, after_equals, after_semicolon, after_open_brace, after_close_brace, after_type, name_front, is_name, is_nil, is_equals, is_binding, taken, TookLone};
ghost use Rattle.text_lines.specs.TokenSteps.{Took, TookLifetime, NoAngle, NoRound, NoPlus, NoArrow, NoMut};

use crate::line_error::LineError;
use crate::token::{Keyword, Sign, Token};
use std::marker::Model;

/// The tokens of a line that are not read yet. In contracts a cursor is the list of these tokens.
#[derive(Drop)]
pub struct Cursor<'t, 'a> {
    tokens: &'t [Token<'a>],
    at: usize,
}

impl<'t, 'a> Model for Cursor<'t, 'a> {
    ghost use Rattle.std.specs.Prelude.{List, drop};
    ghost use Rattle.text_language.specs.Tokens.{Token};
    ghost use Rattle.text_lines.specs.TokenViews.{tokens_in};

    ghost Value = { List Token };

    ghost view = { λ c. tokens_in (drop c.at c.tokens.now) };
}

impl<'t, 'a> Cursor<'t, 'a> {
    ghost use Rattle.text_lines.specs.TokenViews.{token_of, tokens_in};

    /// A cursor at the start of a line.
    pub fn new(tokens: &'t [Token<'a>]) -> Self
        ensures { result ≡ tokens_in tokens.now }
    {
        Cursor { tokens, at: 0 }
    }

    /// The next token. It is not read.
    fn peek(&self) -> Option<Token<'a>>
        ensures { MatchOption result (self.now ≡ []) (λ t. self.now ≡ token_of t ∷ drop 1 self.now) }
    {
        if self.at < self.tokens.len() {
            Some(self.tokens[self.at])
        } else {
            None
        }
    }

    /// Reads the next token, if it is the one that is looked for. Returns whether it is.
    fn skip_if(&mut self, is_next: bool) -> bool
        ensures same { result ≡ is_next }
        ensures left { self.new ≡ (if is_next then drop 1 self.old else self.old) }
    {
        if is_next && self.at < self.tokens.len() {
            self.at += 1;
        }
        is_next
    }

    /// Reads the next token. Returns `None` after the last one.
    pub fn next(&mut self) -> Option<Token<'a>>
        ensures { MatchOption result (self.old ≡ []) (λ t. self.old ≡ token_of t ∷ self.new) }
    {
        let token = self.peek();
        self.skip_if(token.is_some());
        token
    }

    /// Reads `<`, if it is next.
    pub fn take_open_angle(&mut self) -> bool
        ensures { Took result (sign open_angle) NoAngle self.old self.new }
    {
        let is_next = matches!(self.peek(), Some(Token::Sign(Sign::OpenAngle)));
        self.skip_if(is_next)
    }

    /// Reads `)`, if it is next.
    pub fn take_close_round(&mut self) -> bool
        ensures { Took result (sign close_round) NoRound self.old self.new }
    {
        let is_next = matches!(self.peek(), Some(Token::Sign(Sign::CloseRound)));
        self.skip_if(is_next)
    }

    /// Reads `+`, if it is next.
    pub fn take_plus(&mut self) -> bool
        ensures { Took result (sign plus) NoPlus self.old self.new }
    {
        let is_next = matches!(self.peek(), Some(Token::Sign(Sign::Plus)));
        self.skip_if(is_next)
    }

    /// Reads `->`, if it is next.
    pub fn take_arrow(&mut self) -> bool
        ensures { Took result arrow NoArrow self.old self.new }
    {
        let is_next = matches!(self.peek(), Some(Token::Arrow));
        self.skip_if(is_next)
    }

    /// Reads `mut`, if it is next.
    pub fn take_mut(&mut self) -> bool
        ensures { Took result (keyword mut_word) NoMut self.old self.new }
    {
        let is_next = matches!(self.peek(), Some(Token::Keyword(Keyword::Mut)));
        self.skip_if(is_next)
    }

    /// Reads a lifetime, if one is next.
    pub fn take_lifetime(&mut self) -> Option<&'a [u8]>
        ensures { TookLifetime (option_map text_of result) self.old self.new }
    {
        match self.peek() {
            Some(Token::Lifetime(name)) => {
                self.skip_if(true);
                Some(name)
            }
            _ => None,
        }
    }

    /// A separate cursor over the remaining tokens.
    pub fn rest(&self) -> Self
        ensures { result ≡ self.now }
    {
        Cursor {
            tokens: self.tokens,
            at: self.at,
        }
    }

    /// Whether all tokens are read.
    pub fn is_empty(&self) -> bool
        ensures { result ≡ is_nil self.now }
    {
        self.at >= self.tokens.len()
    }

    /// Whether the next token is a name. It is not read.
    pub fn is_name(&self) -> bool
        ensures { result ≡ is_name self.now }
    {
        matches!(self.peek(), Some(Token::Name(_)))
    }

    /// Reads `,`, if it is next.
    pub fn take_comma(&mut self) -> bool
        ensures { Passed result (after_comma self.old) self.old self.new }
    {
        let is_next = matches!(self.peek(), Some(Token::Sign(Sign::Comma)));
        self.skip_if(is_next)
    }

    /// Reads `:`, if it is next.
    pub fn take_colon(&mut self) -> bool
        ensures { Passed result (after_colon self.old) self.old self.new }
    {
        let is_next = matches!(self.peek(), Some(Token::Sign(Sign::Colon)));
        self.skip_if(is_next)
    }

    /// Reads `(`, if it is next.
    pub fn take_open_round(&mut self) -> bool
        ensures { Passed result (after_open_round self.old) self.old self.new }
    {
        let is_next = matches!(self.peek(), Some(Token::Sign(Sign::OpenRound)));
        self.skip_if(is_next)
    }

    /// Reads `uses`, if it is next.
    pub fn take_uses(&mut self) -> bool
        ensures { Passed result (after_uses self.old) self.old self.new }
    {
        let is_next = matches!(self.peek(), Some(Token::Keyword(Keyword::Uses)));
        self.skip_if(is_next)
    }

    /// Reads `where`, if it is next.
    pub fn take_where(&mut self) -> bool
        ensures { Passed result (after_where self.old) self.old self.new }
    {
        let is_next = matches!(self.peek(), Some(Token::Keyword(Keyword::Where)));
        self.skip_if(is_next)
    }

    /// Reads a name. Fails unless it is next.
    pub fn name(&mut self) -> Result<&'a [u8], LineError>
        ensures { Takes text_of result (name_front self.old) self.new }
    {
        match self.next() {
            Some(Token::Name(name)) => Ok(name),
            _ => Err(LineError::Syntax),
        }
    }

    /// Reads `:`. Fails unless it is next.
    pub fn expect_colon(&mut self) -> Result<(), LineError>
        ensures { PassesMark result (after_colon self.old) self.new }
    {
        match self.next() {
            Some(Token::Sign(Sign::Colon)) => Ok(()),
            _ => Err(LineError::Syntax),
        }
    }

    /// Reads `)`. Fails unless it is next.
    pub fn expect_close_round(&mut self) -> Result<(), LineError>
        ensures { PassesMark result (after_close_round self.old) self.new }
    {
        match self.next() {
            Some(Token::Sign(Sign::CloseRound)) => Ok(()),
            _ => Err(LineError::Syntax),
        }
    }

    /// Reads `>`. Fails unless it is next.
    pub fn expect_close_angle(&mut self) -> Result<(), LineError>
        ensures { PassesMark result (after_close_angle self.old) self.new }
    {
        match self.next() {
            Some(Token::Sign(Sign::CloseAngle)) => Ok(()),
            _ => Err(LineError::Syntax),
        }
    }

    /// Reads `for`. Fails unless it is next.
    pub fn expect_for(&mut self) -> Result<(), LineError>
        ensures { PassesMark result (after_for self.old) self.new }
    {
        match self.next() {
            Some(Token::Keyword(Keyword::For)) => Ok(()),
            _ => Err(LineError::Syntax),
        }
    }

    /// Reads `in`. Fails unless it is next.
    pub fn expect_in(&mut self) -> Result<(), LineError>
        ensures { PassesMark result (after_in self.old) self.new }
    {
        match self.next() {
            Some(Token::Keyword(Keyword::In)) => Ok(()),
            _ => Err(LineError::Syntax),
        }
    }

    /// The tokens that are not read.
    #[tactic(auto, using(crate::proofs::Ends::unread_is))]
    fn unread(&self) -> &'t [Token<'a>]
        ensures { tokens_in result.now ≡ self.now }
    {
        self.tokens.split_at(self.at.min(self.tokens.len())).1
    }

    /// The tokens that are not read here, up to those that are not read at the later cursor.
    #[tactic(auto, using(crate::proofs::Ends::before_is))]
    pub fn before(&self, later: &Cursor<'t, 'a>) -> &'t [Token<'a>]
        ensures { tokens_in result.now ≡ taken self.now later.now }
    {
        let rest = self.unread();
        let count = rest.len().saturating_sub(later.unread().len());
        rest.split_at(count).0
    }

    /// Reads a lifetime or a number, if one is next.
    pub fn take_lone(&mut self) -> Option<&'t [Token<'a>]>
        ensures { TookLone (option_map slice_tokens result) self.old self.new }
    {
        let first = self.rest();
        match self.peek() {
            Some(Token::Lifetime(_)) | Some(Token::Number(_)) => {
                self.skip_if(true);
                Some(first.before(self))
            }
            _ => None,
        }
    }

    /// Whether `=` is next. It is not read.
    fn is_equals(&self) -> bool
        ensures { result ≡ is_equals self.now }
    {
        matches!(self.peek(), Some(Token::Sign(Sign::Equals)))
    }

    /// Whether a name and `=` are next. They are not read.
    pub fn is_binding(&self) -> bool
        ensures { result ≡ is_binding self.now }
    {
        let mut later = self.rest();
        match later.next() {
            Some(Token::Name(_)) => later.is_equals(),
            _ => false,
        }
    }

    /// Reads `{`, if it is next.
    pub fn take_open_brace(&mut self) -> bool
        ensures { Passed result (after_open_brace self.old) self.old self.new }
    {
        let is_next = matches!(self.peek(), Some(Token::Sign(Sign::OpenBrace)));
        self.skip_if(is_next)
    }

    /// Reads `type`, if it is next.
    pub fn take_type(&mut self) -> bool
        ensures { Passed result (after_type self.old) self.old self.new }
    {
        let is_next = matches!(self.peek(), Some(Token::Keyword(Keyword::Type)));
        self.skip_if(is_next)
    }

    /// Reads `=`. Fails unless it is next.
    pub fn expect_equals(&mut self) -> Result<(), LineError>
        ensures { PassesMark result (after_equals self.old) self.new }
    {
        match self.next() {
            Some(Token::Sign(Sign::Equals)) => Ok(()),
            _ => Err(LineError::Syntax),
        }
    }

    /// Reads `;`. Fails unless it is next.
    pub fn expect_semicolon(&mut self) -> Result<(), LineError>
        ensures { PassesMark result (after_semicolon self.old) self.new }
    {
        match self.next() {
            Some(Token::Sign(Sign::Semicolon)) => Ok(()),
            _ => Err(LineError::Syntax),
        }
    }

    /// Reads `}`. Fails unless it is next.
    pub fn expect_close_brace(&mut self) -> Result<(), LineError>
        ensures { PassesMark result (after_close_brace self.old) self.new }
    {
        match self.next() {
            Some(Token::Sign(Sign::CloseBrace)) => Ok(()),
            _ => Err(LineError::Syntax),
        }
    }

    /// Reads `type`. Fails unless it is next.
    pub fn expect_type(&mut self) -> Result<(), LineError>
        ensures { PassesMark result (after_type self.old) self.new }
    {
        match self.next() {
            Some(Token::Keyword(Keyword::Type)) => Ok(()),
            _ => Err(LineError::Syntax),
        }
    }
}
