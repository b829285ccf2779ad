//! The reader of types: a stack of open parts, and the cells read so far.
ghost use Rattle.std.specs.Prelude.{◌≡◌, ◌<◌, ◌∷◌, ◌++◌, [], length, OnOk, IfOk, IfErr, IsErrOf, MatchOption};
ghost use Rattle.std.specs.Option.{option_map};
ghost use Rattle.text_language.specs.Tokens.{keyword, sign};
ghost use Rattle.text_lines.specs.TokenViews.{keyword_of, sign_of, text_of, token_of};
ghost use Rattle.text_lines.specs.TypeViews.{cell_of, cells_in, open_of, opens_in, length_of};
ghost use Rattle.text_lines.specs.Laws.{SpellsType, ReadsType, IfSpelled};
ghost use Rattle.text_lines.specs.TypeReading.{type_read, GivesType};

use crate::cell::{Cell, Length, Next, Open};
use crate::cursor::Cursor;
use crate::line_error::LineError;
use crate::token::{Keyword, Sign, Token};
use std::alloc::{AllocError, Global};

#[derive(Drop)]
pub(crate) struct Reader<'t, 'a> {
    cursor: Cursor<'t, 'a>,
    stack: Vec<Open<'a>>,
    cells: Vec<Cell<'a>>,
}

impl<'t, 'a> Reader<'t, 'a> {
    ghost use Rattle.text_lines.specs.Cells.{binder_onto};
    ghost use Rattle.text_lines.specs.TypeSteps.{ReaderSteps, Binds, BindsNext, Turns, ReaderEnds, state_in, begun};
    ghost use Rattle.text_lines.specs.Machine.{item_end, bound_end, args_end, bound_args_end, arg_end, name_step, bound_step, reference_step, ampersand_step, star_step, tuple_step, inputs_end, inputs_step, fn_step, length_end, length_step, brackets_end, second_step, tuple_end, items_end, input_end, binder_at, first_binder, more_binder, bound_fn, bound_item, open_step, item_step, close_step, step, opening, closing};

    /// Appends a cell.
    fn add_cell(&mut self, cell: Cell<'a>) -> Result<(), LineError>
        ensures cells { IfOk result (λ _. cells_in self.new.cells.items ≡ cells_in self.old.cells.items ++ cell_of cell.entry ∷ []) }
        ensures memory { IfErr result (λ e. e ≡ LineError.Memory) }
        ensures stack { self.new.stack ≡ self.old.stack }
        ensures left { self.new.cursor ≡ self.old.cursor }
    {
        self.cells.push(cell)?;
        Ok(())
    }

    /// Appends a cell, with which a type ends.
    fn push_cell(&mut self, cell: Cell<'a>) -> Result<Next, LineError>
        ensures { ReaderSteps result (λ s out ts. closing s (out ++ cell_of cell.entry ∷ []) ts) self.old self.new }
    {
        self.add_cell(cell)?;
        Ok(Next::Closing)
    }

    /// Opens a part. A type inside it is read next.
    fn push_open(&mut self, part: Open<'a>) -> Result<Next, LineError>
        ensures { ReaderSteps result (λ s out ts. opening (open_of part.entry ∷ s) out ts) self.old self.new }
    {
        self.stack.push(part)?;
        Ok(Next::Opening)
    }

    /// Reads the next token. Returns `None` after the last one.
    fn next(&mut self) -> Option<Token<'a>>
        ensures left { MatchOption result (self.old.cursor ≡ []) (λ t. self.old.cursor ≡ token_of t ∷ self.new.cursor) }
        ensures cells { self.new.cells ≡ self.old.cells }
        ensures stack { self.new.stack ≡ self.old.stack }
    {
        self.cursor.next()
    }

    fn pop_open(&mut self) -> Option<Open<'a>>
        ensures stack { MatchOption result (opens_in self.old.stack.items ≡ [])
            (λ o. opens_in self.old.stack.items ≡ open_of o ∷ opens_in self.new.stack.items) }
        ensures cells { self.new.cells ≡ self.old.cells }
        ensures left { self.new.cursor ≡ self.old.cursor }
    {
        self.stack.pop()
    }

    /// After an item of the `dyn` that began at `start`.
    fn item_end(&mut self, start: usize) -> Result<Next, LineError>
        ensures { ReaderSteps result (λ s out ts. item_end s out start ts) self.old self.new }
    {
        if self.cursor.take_plus() {
            return Ok(Next::Item(start));
        }
        self.push_cell(Cell::Dyn { start })
    }

    /// After a bound of a `dyn`.
    fn bound_end(
        &mut self,
        dyn_start: usize,
        start: usize,
        inner: usize,
        name: &'a [u8],
    ) -> Result<Next, LineError>
        ensures { ReaderSteps result (λ s out ts. bound_end s out dyn_start start inner name.now ts) self.old self.new }
    {
        self.add_cell(Cell::Bound { name, start, inner })?;
        self.item_end(dyn_start)
    }

    /// After an argument of a type.
    fn args_end(&mut self, name: &'a [u8], start: usize) -> Result<Next, LineError>
        ensures { ReaderSteps result (λ s out ts. args_end s out name.now start ts) self.old self.new }
    {
        match self.next() {
            Some(Token::Sign(Sign::Comma)) => self.push_open(Open::Args { name, start }),
            Some(Token::Sign(Sign::CloseAngle)) => self.push_cell(Cell::Named { name, start }),
            _ => Err(LineError::Syntax),
        }
    }

    /// After an argument of a bound of a `dyn`.
    fn bound_args_end(
        &mut self,
        dyn_start: usize,
        start: usize,
        inner: usize,
        name: &'a [u8],
    ) -> Result<Next, LineError>
        ensures { ReaderSteps result (λ s out ts. bound_args_end s out dyn_start start inner name.now ts) self.old self.new }
    {
        match self.next() {
            Some(Token::Sign(Sign::Comma)) => {
                self.push_open(Open::Bound {
                    dyn_start,
                    start,
                    inner,
                    name,
                })
            }
            Some(Token::Sign(Sign::CloseAngle)) => self.bound_end(dyn_start, start, inner, name),
            _ => Err(LineError::Syntax),
        }
    }

    /// After a lifetime or a number in the position of a type. It must be an argument.
    fn arg_end(&mut self) -> Result<Next, LineError>
        ensures { ReaderSteps result arg_end self.old self.new }
    {
        match self.pop_open() {
            Some(Open::Args { name, start }) => self.args_end(name, start),
            Some(
                Open::Bound {
                    dyn_start,
                    start,
                    inner,
                    name,
                },
            ) => self.bound_args_end(dyn_start, start, inner, name),
            _ => Err(LineError::Syntax),
        }
    }

    /// After the name of a type.
    fn name_step(&mut self, name: &'a [u8]) -> Result<Next, LineError>
        ensures { ReaderSteps result (λ s out ts. name_step s out name.now ts) self.old self.new }
    {
        let start = self.cells.len();
        if self.cursor.take_open_angle() {
            return self.push_open(Open::Args { name, start });
        }
        self.push_cell(Cell::Named { name, start })
    }

    /// After the name of a bound of a `dyn`.
    fn bound_step(
        &mut self,
        dyn_start: usize,
        start: usize,
        name: &'a [u8],
    ) -> Result<Next, LineError>
        ensures { ReaderSteps result (λ s out ts. bound_step s out dyn_start start name.now ts) self.old self.new }
    {
        let inner = self.cells.len();
        if self.cursor.take_open_angle() {
            return self.push_open(Open::Bound {
                dyn_start,
                start,
                inner,
                name,
            });
        }
        self.bound_end(dyn_start, start, inner, name)
    }

    /// After `&` and its lifetime.
    fn reference_step(&mut self, lifetime: Option<&'a [u8]>) -> Result<Next, LineError>
        ensures { ReaderSteps result (λ s out ts. reference_step s out (option_map text_of lifetime.entry) ts) self.old self.new }
    {
        let is_mut = self.cursor.take_mut();
        self.push_open(Open::Reference { lifetime, is_mut })
    }

    /// After `&`.
    fn ampersand_step(&mut self) -> Result<Next, LineError>
        ensures { ReaderSteps result ampersand_step self.old self.new }
    {
        let lifetime = self.cursor.take_lifetime();
        self.reference_step(lifetime)
    }

    /// After `*`.
    fn star_step(&mut self) -> Result<Next, LineError>
        ensures { ReaderSteps result star_step self.old self.new }
    {
        match self.next() {
            Some(Token::Keyword(Keyword::Const)) => self.push_open(Open::Pointer { is_mut: false }),
            Some(Token::Keyword(Keyword::Mut)) => self.push_open(Open::Pointer { is_mut: true }),
            _ => Err(LineError::Syntax),
        }
    }

    /// After the `(` of a tuple.
    fn tuple_step(&mut self) -> Result<Next, LineError>
        ensures { ReaderSteps result tuple_step self.old self.new }
    {
        let start = self.cells.len();
        if self.cursor.take_close_round() {
            return self.push_cell(Cell::Tuple { start });
        }
        self.push_open(Open::Tuple { start })
    }

    /// After the `)` of a `fn`.
    fn inputs_end(&mut self, start: usize, inner: usize) -> Result<Next, LineError>
        ensures { ReaderSteps result (λ s out ts. inputs_end s out start inner ts) self.old self.new }
    {
        if self.cursor.take_arrow() {
            return self.push_open(Open::Output { start, inner });
        }
        self.push_cell(Cell::Fn { start, inner })
    }

    /// After the `(` of a `fn`.
    fn inputs_step(&mut self, start: usize) -> Result<Next, LineError>
        ensures { ReaderSteps result (λ s out ts. inputs_step s out start ts) self.old self.new }
    {
        let inner = self.cells.len();
        if self.cursor.take_close_round() {
            return self.inputs_end(start, inner);
        }
        self.push_open(Open::Inputs { start, inner })
    }

    /// After `fn`. The binder that precedes it began at `start`.
    fn fn_step(&mut self, start: usize) -> Result<Next, LineError>
        ensures { ReaderSteps result (λ s out ts. fn_step s out start ts) self.old self.new }
    {
        match self.next() {
            Some(Token::Sign(Sign::OpenRound)) => self.inputs_step(start),
            _ => Err(LineError::Syntax),
        }
    }

    /// After the length of an array.
    fn length_end(&mut self, length: Length<'a>) -> Result<Next, LineError>
        ensures { ReaderSteps result (λ s out ts. length_end s out (length_of length.entry) ts) self.old self.new }
    {
        match self.next() {
            Some(Token::Sign(Sign::CloseSquare)) => self.push_cell(Cell::Array(length)),
            _ => Err(LineError::Syntax),
        }
    }

    /// After the `;` of an array.
    fn length_step(&mut self) -> Result<Next, LineError>
        ensures { ReaderSteps result length_step self.old self.new }
    {
        match self.next() {
            Some(Token::Number(number)) => self.length_end(Length::Number(number)),
            Some(Token::Name(name)) => self.length_end(Length::Name(name)),
            Some(Token::Variable(name)) => self.length_end(Length::Variable(name)),
            _ => Err(LineError::Syntax),
        }
    }

    /// After the type between brackets.
    fn brackets_end(&mut self) -> Result<Next, LineError>
        ensures { ReaderSteps result brackets_end self.old self.new }
    {
        match self.next() {
            Some(Token::Sign(Sign::CloseSquare)) => self.push_cell(Cell::Slice),
            Some(Token::Sign(Sign::Semicolon)) => self.length_step(),
            _ => Err(LineError::Syntax),
        }
    }

    /// After the first comma of a tuple.
    fn second_step(&mut self, start: usize) -> Result<Next, LineError>
        ensures { ReaderSteps result (λ s out ts. second_step s out start ts) self.old self.new }
    {
        if self.cursor.take_close_round() {
            return self.push_cell(Cell::Tuple { start });
        }
        self.push_open(Open::Items { start })
    }

    /// After the first item of a tuple.
    fn tuple_end(&mut self, start: usize) -> Result<Next, LineError>
        ensures { ReaderSteps result (λ s out ts. tuple_end s out start ts) self.old self.new }
    {
        match self.next() {
            Some(Token::Sign(Sign::Comma)) => self.second_step(start),
            _ => Err(LineError::Syntax),
        }
    }

    /// After a further item of a tuple.
    fn items_end(&mut self, start: usize) -> Result<Next, LineError>
        ensures { ReaderSteps result (λ s out ts. items_end s out start ts) self.old self.new }
    {
        match self.next() {
            Some(Token::Sign(Sign::Comma)) => self.push_open(Open::Items { start }),
            Some(Token::Sign(Sign::CloseRound)) => self.push_cell(Cell::Tuple { start }),
            _ => Err(LineError::Syntax),
        }
    }

    /// After an input of a `fn`.
    fn input_end(&mut self, start: usize, inner: usize) -> Result<Next, LineError>
        ensures { ReaderSteps result (λ s out ts. input_end s out start inner ts) self.old self.new }
    {
        match self.next() {
            Some(Token::Sign(Sign::Comma)) => self.push_open(Open::Inputs { start, inner }),
            Some(Token::Sign(Sign::CloseRound)) => self.inputs_end(start, inner),
            _ => Err(LineError::Syntax),
        }
    }

    /// The next name of a binder, or its end.
    fn binder_step(&mut self) -> Result<bool, LineError>
        ensures binds { BindsNext result (more_binder self.old.cursor) more_binder
            (cells_in self.old.cells.items) (cells_in self.new.cells.items) self.new.cursor }
        ensures shorter { IfOk result (λ _. length self.new.cursor < length self.old.cursor) }
        ensures stack { self.new.stack ≡ self.old.stack }
    {
        match self.next() {
            Some(Token::Sign(Sign::CloseAngle)) => Ok(false),
            Some(Token::Sign(Sign::Comma)) => match self.next() {
                Some(Token::Lifetime(name)) => {
                    self.add_cell(Cell::Binder(name))?;
                    Ok(true)
                }
                _ => Err(LineError::Syntax),
            },
            _ => Err(LineError::Syntax),
        }
    }

    /// The names of a binder, after `for`.
    fn binder(&mut self) -> Result<(), LineError>
        ensures binds { Binds result (binder_at self.old.cursor)
            (λ b. binder_onto b (cells_in self.old.cells.items)) (cells_in self.new.cells.items) self.new.cursor }
        ensures stack { self.new.stack ≡ self.old.stack }
    {
        match self.next() {
            Some(Token::Sign(Sign::OpenAngle)) => self.first_binder(),
            _ => Err(LineError::Syntax),
        }
    }

    fn first_binder(&mut self) -> Result<(), LineError>
        ensures binds { Binds result (first_binder self.old.cursor)
            (λ b. binder_onto b (cells_in self.old.cells.items)) (cells_in self.new.cells.items) self.new.cursor }
        ensures stack { self.new.stack ≡ self.old.stack }
    {
        match self.next() {
            Some(Token::Lifetime(name)) => {
                self.add_cell(Cell::Binder(name))?;
                self.more_binder()
            }
            _ => Err(LineError::Syntax),
        }
    }

    fn more_binder(&mut self) -> Result<(), LineError>
        ensures binds { Binds result (more_binder self.old.cursor)
            (λ b. binder_onto b (cells_in self.old.cells.items)) (cells_in self.new.cells.items) self.new.cursor }
        ensures stack { self.new.stack ≡ self.old.stack }
    {
        while self.binder_step()? {}
        Ok(())
    }

    /// After `for`: a `fn`.
    fn bound_fn(&mut self) -> Result<Next, LineError>
        ensures { ReaderSteps result (λ s out ts. bound_fn s out (binder_at ts)) self.old self.new }
    {
        let start = self.cells.len();
        self.binder()?;
        match self.next() {
            Some(Token::Keyword(Keyword::Fn)) => self.fn_step(start),
            _ => Err(LineError::Syntax),
        }
    }

    /// After `for`: a bound of a `dyn`.
    fn bound_item(&mut self, dyn_start: usize) -> Result<Next, LineError>
        ensures { ReaderSteps result (λ s out ts. bound_item s out dyn_start (binder_at ts)) self.old self.new }
    {
        let start = self.cells.len();
        self.binder()?;
        match self.next() {
            Some(Token::Name(name)) => self.bound_step(dyn_start, start, name),
            _ => Err(LineError::Syntax),
        }
    }

    /// A lifetime or a number, which must be an argument.
    fn argument(&mut self, cell: Cell<'a>) -> Result<Next, LineError>
        ensures { ReaderSteps result (λ s out ts. arg_end s (out ++ cell_of cell.entry ∷ []) ts) self.old self.new }
    {
        self.add_cell(cell)?;
        self.arg_end()
    }

    /// After the sign that begins a type.
    fn sign_step(&mut self, first: Sign) -> Result<Next, LineError>
        ensures { ReaderSteps result (λ s out ts. open_step s out (sign (sign_of first) ∷ ts)) self.old self.new }
    {
        match first {
            Sign::Exclamation => self.push_cell(Cell::Never),
            Sign::Ampersand => self.ampersand_step(),
            Sign::Star => self.star_step(),
            Sign::OpenSquare => self.push_open(Open::Brackets),
            Sign::OpenRound => self.tuple_step(),
            _ => Err(LineError::Syntax),
        }
    }

    /// After the keyword that begins a type.
    fn keyword_step(&mut self, first: Keyword) -> Result<Next, LineError>
        ensures { ReaderSteps result (λ s out ts. open_step s out (keyword (keyword_of first) ∷ ts)) self.old self.new }
    {
        let start = self.cells.len();
        match first {
            Keyword::For => self.bound_fn(),
            Keyword::Fn => self.fn_step(start),
            Keyword::Dyn => Ok(Next::Item(start)),
            _ => Err(LineError::Syntax),
        }
    }

    /// The first token of a type.
    fn open_step(&mut self) -> Result<Next, LineError>
        ensures { ReaderSteps result open_step self.old self.new }
    {
        match self.next() {
            Some(Token::Primitive(primitive)) => self.push_cell(Cell::Primitive(primitive)),
            Some(Token::Variable(name)) => self.push_cell(Cell::Variable(name)),
            Some(Token::Name(name)) => self.name_step(name),
            Some(Token::Lifetime(name)) => self.argument(Cell::Lifetime(name)),
            Some(Token::Number(number)) => self.argument(Cell::Number(number)),
            Some(Token::Sign(first)) => self.sign_step(first),
            Some(Token::Keyword(first)) => self.keyword_step(first),
            _ => Err(LineError::Syntax),
        }
    }

    /// An item of the `dyn` that began at `dyn_start`.
    fn item_step(&mut self, dyn_start: usize) -> Result<Next, LineError>
        ensures { ReaderSteps result (λ s out ts. item_step s out dyn_start ts) self.old self.new }
    {
        let start = self.cells.len();
        match self.next() {
            Some(Token::Lifetime(name)) => {
                self.add_cell(Cell::Lifetime(name))?;
                self.item_end(dyn_start)
            }
            Some(Token::Name(name)) => self.bound_step(dyn_start, start, name),
            Some(Token::Keyword(Keyword::For)) => self.bound_item(dyn_start),
            _ => Err(LineError::Syntax),
        }
    }

    /// After a type inside this part, which was on top of the stack.
    fn close_step(&mut self, part: Open<'a>) -> Result<Next, LineError>
        ensures { ReaderSteps result (λ s out ts. close_step (open_of part.entry ∷ s) out ts) self.old self.new }
    {
        match part {
            Open::Args { name, start } => self.args_end(name, start),
            Open::Bound {
                dyn_start,
                start,
                inner,
                name,
            } => self.bound_args_end(dyn_start, start, inner, name),
            Open::Reference { lifetime, is_mut } => self.push_cell(Cell::Reference {
                lifetime,
                is_mut,
            }),
            Open::Pointer { is_mut } => self.push_cell(Cell::Pointer { is_mut }),
            Open::Brackets => self.brackets_end(),
            Open::Tuple { start } => self.tuple_end(start),
            Open::Items { start } => self.items_end(start),
            Open::Inputs { start, inner } => self.input_end(start, inner),
            Open::Output { start, inner } => self.push_cell(Cell::FnTo { start, inner }),
        }
    }

    /// One step. Returns `None` after the last type.
    fn turn(&mut self, next: Next) -> Result<Option<Next>, LineError>
        ensures { Turns result (step (state_in next self.old)) self.new }
    {
        match next {
            Next::Opening => Ok(Some(self.open_step()?)),
            Next::Item(start) => Ok(Some(self.item_step(start)?)),
            Next::Closing => match self.pop_open() {
                None => Ok(None),
                Some(part) => Ok(Some(self.close_step(part)?)),
            },
        }
    }

    /// Reads the rest of a type.
    fn run(&mut self) -> Result<(), LineError>
        ensures { ReaderEnds result (begun self.old) (cells_in self.new.cells.items) self.new.cursor }
    {
        let mut next = Some(Next::Opening);
        while let Some(now) = next {
            next = self.turn(now)?;
        }
        Ok(())
    }
}

/// A type that was read.
#[derive(Drop)]
pub struct TypeRead<'t, 'a> {
    /// The given cells, and then those of the type.
    pub cells: Vec<Cell<'a>>,
    /// The tokens after the type.
    pub left: Cursor<'t, 'a>,
}

/// Reads the type at the front of the tokens, and appends its cells. It reads as far as a type can extend: a `<` after its last name, a
/// `+` after an item of its last `dyn` and a `->` after its last `fn` belong to it. It does not recurse, however deep the type is.
///
/// Fails with `Syntax` if no type is at the front, and with `Memory` if memory is refused. Cursor and cells are dropped then.
pub fn read_type<'t, 'a>(
    alloc: Global,
    cursor: Cursor<'t, 'a>,
    cells: Vec<Cell<'a>>,
) -> Result<TypeRead<'t, 'a>, LineError>
    // If a type is returned, the tokens spell it.
    ensures found { IfOk result (λ r. SpellsType cursor.entry (cells_in cells.entry.items) (cells_in r.cells.items) r.left) }
    // If the tokens spell a type, it is returned, unless memory is refused.
    ensures only { IfSpelled cursor.entry (λ t rest. IfOk result (λ r. ReadsType t (cells_in cells.entry.items) (cells_in r.cells.items) rest r.left)) }
    // The error is `Syntax` only if the tokens spell no type.
    ensures refused { IsErrOf result LineError.Syntax → IfSpelled cursor.entry (λ t rest. ⊥) }
    // All of this in one clause: the function of the definitions gives the result.
    ensures reads { GivesType result (type_read (cells_in cells.entry.items) cursor.entry) }
{
    let mut reader = Reader {
        cursor,
        stack: Vec::new(alloc),
        cells,
    };
    reader.run()?;
    let Reader {
        cursor: left,
        stack: _,
        cells,
    } = reader;
    Ok(TypeRead { cells, left })
}
