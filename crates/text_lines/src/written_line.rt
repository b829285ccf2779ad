//! Lines with types: traits that have some, impls that give them, and bounds that say what they are. The parts of such a line are its
//! tokens, of which the lines for which it stands are made.
ghost use Rattle.std.specs.Prelude.{◌≡◌, false};
ghost use Rattle.text_lines.specs.TokenViews.{slice_tokens, text_of, tokens_in};
ghost use Rattle.text_lines.specs.Marks.{after_comma, after_plus, after_semicolon, after_type};
ghost use Rattle.text_lines.specs.Parts.{before_mark, name_at, parts_between};
ghost use Rattle.text_lines.specs.Steps.{Reads, GivesAlone};
ghost use Rattle.text_lines.specs.Views.{texts_in};
ghost use Rattle.text_lines.specs.WrittenParts.{type_tokens_at, argument_at, binding_at, entry_at, is_sorted_after, is_all_arguments, entries_at, bound_tokens_at, clause_tokens_at, plain_tokens_at, header_tokens_at, bounds_tokens_at, further_tokens_at, where_tokens_at, types_at, given_at, trait_tokens_at, impl_tokens_at, prove_tokens_at, refute_tokens_at, auto_tokens, fundamental_tokens, written_at, written_in};
ghost use Rattle.text_lines.specs.WrittenViews.{binding_of, bindings_in, entry_of, entries_in, bound_of, bounds_in, clause_of, clauses_in, written_of};

use crate::cursor::Cursor;
use crate::line_error::LineError;
use crate::reader::Reader;
use crate::statement::Param;
use crate::token::{Keyword, Token};
use crate::type_machine::{TypeRead, read_type};
use std::alloc::Global;
use std::mem;

/// What is said of a type of a trait: `NAME = TYPE`.
#[derive(Clone, Copy)]
pub(crate) struct Binding<'t, 'a> {
    pub name: &'a [u8],
    pub value: &'t [Token<'a>],
}

/// An argument of a bound, or what the bound says of a type.
#[derive(Clone, Copy)]
pub(crate) enum Entry<'t, 'a> {
    Argument(&'t [Token<'a>]),
    Binding(Binding<'t, 'a>),
}

/// A trait's name with arguments, and then with what is said of its types.
#[derive(Drop)]
pub(crate) struct BoundRead<'t, 'a> {
    pub name: &'a [u8],
    pub entries: Vec<Entry<'t, 'a>>,
}

/// `type: bound`, or `bound for type` in an impl.
#[derive(Drop)]
pub(crate) struct ClauseRead<'t, 'a> {
    pub subject: &'t [Token<'a>],
    pub bound: BoundRead<'t, 'a>,
}

/// A line of a kind that can have types.
#[derive(Drop)]
pub(crate) enum WrittenRead<'t, 'a> {
    /// `trait NAME<...>: BOUND + ... { type NAME; ... }`
    Trait {
        is_fundamental: bool,
        is_auto: bool,
        name: &'a [u8],
        params: Vec<Param<'a>>,
        bounds: Vec<BoundRead<'t, 'a>>,
        types: Vec<&'a [u8]>,
    },
    /// `impl<...> BOUND for TYPE where TYPE: BOUND, ... { type NAME = TYPE; ... }`
    Impl {
        params: Vec<Param<'a>>,
        header: ClauseRead<'t, 'a>,
        clauses: Vec<ClauseRead<'t, 'a>>,
        given: Vec<Binding<'t, 'a>>,
    },
    /// `prove in CRATE<...> TYPE: BOUND, ... where TYPE: BOUND, ...`
    Prove {
        crate_name: &'a [u8],
        params: Vec<Param<'a>>,
        asked: ClauseRead<'t, 'a>,
        further: Vec<ClauseRead<'t, 'a>>,
        clauses: Vec<ClauseRead<'t, 'a>>,
    },
    /// `refute in CRATE<...> TYPE: BOUND, ...`
    Refute {
        crate_name: &'a [u8],
        params: Vec<Param<'a>>,
        asked: ClauseRead<'t, 'a>,
        further: Vec<ClauseRead<'t, 'a>>,
    },
}

/// Whether arguments precede what is said of types.
fn is_sorted(entries: &[Entry<'_, '_>]) -> bool
    ensures { result ≡ is_sorted_after false (entries_in entries.now) }
{
    let mut after_binding = false;
    let mut rest = entries;
    while let [first, others @ ..] = rest {
        match first {
            Entry::Argument(_) => {
                if after_binding {
                    return false;
                }
            }
            Entry::Binding(_) => after_binding = true,
        }
        rest = others;
    }
    true
}

/// Whether nothing is said of types.
pub(crate) fn is_all_arguments(entries: &[Entry<'_, '_>]) -> bool
    ensures { result ≡ is_all_arguments (entries_in entries.now) }
{
    let mut rest = entries;
    while let [first, others @ ..] = rest {
        match first {
            Entry::Argument(_) => rest = others,
            Entry::Binding(_) => return false,
        }
    }
    true
}

impl<'t, 'a> Reader<'t, 'a> {
    /// Reads a type. Its cells are of no use here.
    #[tactic(auto, unfolding(crate::specs::WrittenParts::type_tokens_at))]
    fn type_tokens(&mut self) -> Result<&'t [Token<'a>], LineError>
        ensures { Reads slice_tokens result type_tokens_at self.old self.new }
    {
        let before = mem::replace(&mut self.cells, Vec::new(self.alloc));
        let TypeRead { cells, left } = read_type(self.alloc, self.cursor.rest(), before)?;
        let taken = self.cursor.before(&left);
        self.cells = cells;
        self.cursor = left;
        Ok(taken)
    }

    /// Reads an argument: a lifetime, a number or a type.
    #[tactic(auto, unfolding(crate::specs::WrittenParts::argument_at))]
    fn argument(&mut self) -> Result<&'t [Token<'a>], LineError>
        ensures { Reads slice_tokens result argument_at self.old self.new }
    {
        match self.cursor.take_lone() {
            Some(tokens) => Ok(tokens),
            None => self.type_tokens(),
        }
    }

    /// `NAME = TYPE`
    #[tactic(auto, unfolding(crate::specs::WrittenParts::binding_at))]
    fn binding(&mut self) -> Result<Binding<'t, 'a>, LineError>
        ensures { Reads binding_of result binding_at self.old self.new }
    {
        let name = self.name()?;
        self.cursor.expect_equals()?;
        let value = self.type_tokens()?;
        Ok(Binding { name, value })
    }

    #[tactic(auto, unfolding(crate::specs::WrittenParts::entry_at))]
    fn entry(&mut self) -> Result<Entry<'t, 'a>, LineError>
        ensures { Reads entry_of result entry_at self.old self.new }
    {
        if self.cursor.is_binding() {
            let binding = self.binding()?;
            Ok(Entry::Binding(binding))
        } else {
            let tokens = self.argument()?;
            Ok(Entry::Argument(tokens))
        }
    }

    /// Entries in any order, separated by commas.
    fn entry_list(&mut self) -> Result<Vec<Entry<'t, 'a>>, LineError>
        ensures { Reads (λ v. entries_in v.items) result (parts_between entry_at after_comma) self.old self.new }
    {
        let mut entries = Vec::new(self.alloc);
        'entries: loop {
            let entry = self.entry()?;
            entries.push(entry)?;
            if !self.cursor.take_comma() {
                return Ok(entries);
            }
        }
    }

    /// The entries between `<` and `>`, or none. Fails if they are out of order.
    #[tactic(auto, unfolding(crate::specs::WrittenParts::entries_at))]
    fn entries(&mut self) -> Result<Vec<Entry<'t, 'a>>, LineError>
        ensures { Reads (λ v. entries_in v.items) result entries_at self.old self.new }
    {
        if !self.cursor.take_open_angle() {
            return Ok(Vec::new(self.alloc));
        }
        let entries = self.entry_list()?;
        self.cursor.expect_close_angle()?;
        if is_sorted(&entries) {
            Ok(entries)
        } else {
            Err(LineError::Syntax)
        }
    }

    #[tactic(auto, unfolding(crate::specs::WrittenParts::bound_tokens_at))]
    fn bound_tokens(&mut self) -> Result<BoundRead<'t, 'a>, LineError>
        ensures { Reads bound_of result bound_tokens_at self.old self.new }
    {
        let name = self.name()?;
        let entries = self.entries()?;
        Ok(BoundRead { name, entries })
    }

    /// `type: bound`
    #[tactic(auto, unfolding(crate::specs::WrittenParts::clause_tokens_at))]
    fn clause_tokens(&mut self) -> Result<ClauseRead<'t, 'a>, LineError>
        ensures { Reads clause_of result clause_tokens_at self.old self.new }
    {
        let subject = self.type_tokens()?;
        self.cursor.expect_colon()?;
        let bound = self.bound_tokens()?;
        Ok(ClauseRead { subject, bound })
    }

    /// A bound that says nothing of types.
    #[tactic(auto, unfolding(crate::specs::WrittenParts::plain_tokens_at))]
    fn plain_tokens(&mut self) -> Result<BoundRead<'t, 'a>, LineError>
        ensures { Reads bound_of result plain_tokens_at self.old self.new }
    {
        let bound = self.bound_tokens()?;
        if is_all_arguments(&bound.entries) {
            Ok(bound)
        } else {
            Err(LineError::Syntax)
        }
    }

    /// `bound for type`
    #[tactic(auto, unfolding(crate::specs::WrittenParts::header_tokens_at))]
    fn header_tokens(&mut self) -> Result<ClauseRead<'t, 'a>, LineError>
        ensures { Reads clause_of result header_tokens_at self.old self.new }
    {
        let bound = self.plain_tokens()?;
        self.cursor.expect_for()?;
        let subject = self.type_tokens()?;
        Ok(ClauseRead { subject, bound })
    }

    /// Bounds, separated by `+`.
    fn bound_tokens_list(&mut self) -> Result<Vec<BoundRead<'t, 'a>>, LineError>
        ensures { Reads (λ v. bounds_in v.items) result (parts_between bound_tokens_at after_plus) self.old self.new }
    {
        let mut bounds = Vec::new(self.alloc);
        'bounds: loop {
            let bound = self.bound_tokens()?;
            bounds.push(bound)?;
            if !self.cursor.take_plus() {
                return Ok(bounds);
            }
        }
    }

    /// The bounds after `:`, or none.
    #[tactic(auto, unfolding(crate::specs::WrittenParts::bounds_tokens_at))]
    fn bounds_tokens(&mut self) -> Result<Vec<BoundRead<'t, 'a>>, LineError>
        ensures { Reads (λ v. bounds_in v.items) result bounds_tokens_at self.old self.new }
    {
        if self.cursor.take_colon() {
            self.bound_tokens_list()
        } else {
            Ok(Vec::new(self.alloc))
        }
    }

    /// Clauses, separated by commas.
    fn clause_tokens_list(&mut self) -> Result<Vec<ClauseRead<'t, 'a>>, LineError>
        ensures { Reads (λ v. clauses_in v.items) result (parts_between clause_tokens_at after_comma) self.old self.new }
    {
        let mut clauses = Vec::new(self.alloc);
        'clauses: loop {
            let clause = self.clause_tokens()?;
            clauses.push(clause)?;
            if !self.cursor.take_comma() {
                return Ok(clauses);
            }
        }
    }

    /// The bounds of a query after its first, each after a comma.
    #[tactic(auto, unfolding(crate::specs::WrittenParts::further_tokens_at))]
    fn further_tokens(&mut self) -> Result<Vec<ClauseRead<'t, 'a>>, LineError>
        ensures { Reads (λ v. clauses_in v.items) result further_tokens_at self.old self.new }
    {
        if self.cursor.take_comma() {
            self.clause_tokens_list()
        } else {
            Ok(Vec::new(self.alloc))
        }
    }

    /// The clauses after `where`, or none.
    #[tactic(auto, unfolding(crate::specs::WrittenParts::where_tokens_at))]
    fn where_tokens(&mut self) -> Result<Vec<ClauseRead<'t, 'a>>, LineError>
        ensures { Reads (λ v. clauses_in v.items) result where_tokens_at self.old self.new }
    {
        if self.cursor.take_where() {
            self.clause_tokens_list()
        } else {
            Ok(Vec::new(self.alloc))
        }
    }

    /// `NAME;`
    fn ended_name(&mut self) -> Result<&'a [u8], LineError>
        ensures { Reads text_of result (before_mark name_at after_semicolon) self.old self.new }
    {
        let name = self.name()?;
        self.cursor.expect_semicolon()?;
        Ok(name)
    }

    /// `NAME = TYPE;`
    fn ended_binding(&mut self) -> Result<Binding<'t, 'a>, LineError>
        ensures { Reads binding_of result (before_mark binding_at after_semicolon) self.old self.new }
    {
        let binding = self.binding()?;
        self.cursor.expect_semicolon()?;
        Ok(binding)
    }

    /// Names, each ended by `;`, with `type` between each two.
    fn type_list(&mut self) -> Result<Vec<&'a [u8]>, LineError>
        ensures { Reads (λ v. texts_in v.items) result (parts_between (before_mark name_at after_semicolon) after_type) self.old self.new }
    {
        let mut types = Vec::new(self.alloc);
        'types: loop {
            let name = self.ended_name()?;
            types.push(name)?;
            if !self.cursor.take_type() {
                return Ok(types);
            }
        }
    }

    /// Types that are given, each ended by `;`, with `type` between each two.
    fn given_list(&mut self) -> Result<Vec<Binding<'t, 'a>>, LineError>
        ensures { Reads (λ v. bindings_in v.items) result (parts_between (before_mark binding_at after_semicolon) after_type) self.old self.new }
    {
        let mut given = Vec::new(self.alloc);
        'given: loop {
            let binding = self.ended_binding()?;
            given.push(binding)?;
            if !self.cursor.take_type() {
                return Ok(given);
            }
        }
    }

    /// `{ type NAME; ... }`, or nothing.
    #[tactic(auto, unfolding(crate::specs::WrittenParts::types_at))]
    fn types_tokens(&mut self) -> Result<Vec<&'a [u8]>, LineError>
        ensures { Reads (λ v. texts_in v.items) result types_at self.old self.new }
    {
        if !self.cursor.take_open_brace() {
            return Ok(Vec::new(self.alloc));
        }
        self.cursor.expect_type()?;
        let types = self.type_list()?;
        self.cursor.expect_close_brace()?;
        Ok(types)
    }

    /// `{ type NAME = TYPE; ... }`, or nothing.
    #[tactic(auto, unfolding(crate::specs::WrittenParts::given_at))]
    fn given_tokens(&mut self) -> Result<Vec<Binding<'t, 'a>>, LineError>
        ensures { Reads (λ v. bindings_in v.items) result given_at self.old self.new }
    {
        if !self.cursor.take_open_brace() {
            return Ok(Vec::new(self.alloc));
        }
        self.cursor.expect_type()?;
        let given = self.given_list()?;
        self.cursor.expect_close_brace()?;
        Ok(given)
    }

    /// The rest of the line after `trait`.
    #[tactic(auto, unfolding(crate::specs::WrittenParts::trait_tokens_at))]
    fn trait_tokens(
        &mut self,
        is_fundamental: bool,
        is_auto: bool,
    ) -> Result<WrittenRead<'t, 'a>, LineError>
        ensures { Reads written_of result (trait_tokens_at is_fundamental is_auto) self.old self.new }
    {
        let name = self.name()?;
        let params = self.params()?;
        let bounds = self.bounds_tokens()?;
        let types = self.types_tokens()?;
        Ok(WrittenRead::Trait {
            is_fundamental,
            is_auto,
            name,
            params,
            bounds,
            types,
        })
    }

    /// The rest of the line after `impl`.
    #[tactic(auto, unfolding(crate::specs::WrittenParts::impl_tokens_at))]
    fn impl_tokens(&mut self) -> Result<WrittenRead<'t, 'a>, LineError>
        ensures { Reads written_of result impl_tokens_at self.old self.new }
    {
        let params = self.params()?;
        let header = self.header_tokens()?;
        let clauses = self.where_tokens()?;
        let given = self.given_tokens()?;
        Ok(WrittenRead::Impl {
            params,
            header,
            clauses,
            given,
        })
    }

    /// The rest of the line after `prove`.
    #[tactic(auto, unfolding(crate::specs::WrittenParts::prove_tokens_at))]
    fn prove_tokens(&mut self) -> Result<WrittenRead<'t, 'a>, LineError>
        ensures { Reads written_of result prove_tokens_at self.old self.new }
    {
        self.cursor.expect_in()?;
        let crate_name = self.name()?;
        let params = self.params()?;
        let asked = self.clause_tokens()?;
        let further = self.further_tokens()?;
        let clauses = self.where_tokens()?;
        Ok(WrittenRead::Prove {
            crate_name,
            params,
            asked,
            further,
            clauses,
        })
    }

    /// The rest of the line after `refute`.
    #[tactic(auto, unfolding(crate::specs::WrittenParts::refute_tokens_at))]
    fn refute_tokens(&mut self) -> Result<WrittenRead<'t, 'a>, LineError>
        ensures { Reads written_of result refute_tokens_at self.old self.new }
    {
        self.cursor.expect_in()?;
        let crate_name = self.name()?;
        let params = self.params()?;
        let asked = self.clause_tokens()?;
        let further = self.further_tokens()?;
        Ok(WrittenRead::Refute {
            crate_name,
            params,
            asked,
            further,
        })
    }

    /// The rest of the line after `auto`.
    fn auto_tokens(&mut self, is_fundamental: bool) -> Result<WrittenRead<'t, 'a>, LineError>
        ensures { Reads written_of result (λ p. auto_tokens is_fundamental p.0 p.1) self.old self.new }
    {
        match self.cursor.next() {
            Some(Token::Keyword(Keyword::Trait)) => self.trait_tokens(is_fundamental, true),
            _ => Err(LineError::Syntax),
        }
    }

    /// The rest of the line after `fundamental`.
    fn fundamental_tokens(&mut self) -> Result<WrittenRead<'t, 'a>, LineError>
        ensures { Reads written_of result (λ p. fundamental_tokens p.0 p.1) self.old self.new }
    {
        match self.cursor.next() {
            Some(Token::Keyword(Keyword::Trait)) => self.trait_tokens(true, false),
            Some(Token::Keyword(Keyword::Auto)) => self.auto_tokens(true),
            _ => Err(LineError::Syntax),
        }
    }

    #[tactic(auto, unfolding(crate::specs::WrittenParts::written_at))]
    fn written(&mut self) -> Result<WrittenRead<'t, 'a>, LineError>
        ensures { Reads written_of result written_at self.old self.new }
    {
        match self.cursor.next() {
            Some(Token::Keyword(Keyword::Fundamental)) => self.fundamental_tokens(),
            Some(Token::Keyword(Keyword::Trait)) => self.trait_tokens(false, false),
            Some(Token::Keyword(Keyword::Auto)) => self.auto_tokens(false),
            Some(Token::Keyword(Keyword::Impl)) => self.impl_tokens(),
            Some(Token::Keyword(Keyword::Prove)) => self.prove_tokens(),
            Some(Token::Keyword(Keyword::Refute)) => self.refute_tokens(),
            _ => Err(LineError::Syntax),
        }
    }
}

/// The parts of the line with types that these tokens spell. Fails with `Syntax` if they spell no line, or one that can have no types.
#[tactic(auto, unfolding(crate::specs::WrittenParts::written_in))]
pub(crate) fn read_written<'t, 'a>(
    alloc: Global,
    tokens: &'t [Token<'a>],
) -> Result<WrittenRead<'t, 'a>, LineError>
    ensures { GivesAlone written_of result (written_in (tokens_in tokens.now)) }
{
    let mut reader = Reader {
        alloc,
        cursor: Cursor::new(tokens),
        cells: Vec::new(alloc),
    };
    let written = reader.written()?;
    if !reader.cursor.is_empty() {
        return Err(LineError::Syntax);
    }
    Ok(written)
}
