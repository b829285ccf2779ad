//! Where the structs, the impls and the queries of a text are.

ghost use Rattle.std.specs.Prelude.{◌≡◌, ◌∷◌, ◌++◌, [], IfSome, OnOk};
ghost use Rattle.explain_texts.specs.ItemLines.{AddsImplLine, line_numbers, question_numbers};

use explain_diagnostics::{
    LineParts, Place, SourceFile, Span, bounds_of_question, on_line, parts_of_impl, text_of,
    token_places,
};
use explain_sessions::text_lines::{Keyword, LineError, Statement, Token, is_overlong, read_typed};
use messages::whole_line;
use std::alloc::{AllocError, Global};
use text_parser::{LineForm, line_form};

/// The line of an impl, counted from 1, with its parts. The line of an impl that gives types stands for an impl of the trait, and for one of
/// the companion of each type that it gives.
#[derive(Drop)]
pub struct ImplLine {
    pub line: u32,
    /// A where-clause that binds types stands for several, and is there once for each.
    pub parts: LineParts,
    /// What this impl gives, if it is that of a companion: `Item = u8`.
    pub(crate) given: Option<Place>,
}

impl ImplLine {
    /// The span of its header.
    pub fn header(&self) -> Span
        ensures { result.line ≡ self.now.line }
    {
        on_line(self.line, self.parts.header)
    }

    /// The span of its where-clause with this number, counted from 0.
    pub fn clause(&self, number: usize) -> Option<Span>
        ensures { IfSome result (λ s. s.line ≡ self.now.line) }
    {
        let place = self.parts.clauses.get(number)?;
        Some(on_line(self.line, *place))
    }
}

/// The line of a query, counted from 1, with its bounds. One that binds several types stands for several, and is there once for each.
#[derive(Drop)]
pub struct QuestionLine {
    pub line: u32,
    bounds: Vec<Place>,
}

impl QuestionLine {
    /// The span of its bound with this number, counted from 0.
    pub fn bound(&self, number: usize) -> Option<Span>
        ensures { IfSome result (λ s. s.line ≡ self.now.line) }
    {
        let place = self.bounds.get(number)?;
        Some(on_line(self.line, *place))
    }
}

/// Where the structs, the impls and the queries of a text are, in order.
pub struct ItemLines {
    /// The lines of structs.
    pub(crate) structs: Vec<Span>,
    /// The impls of crates.
    pub impls: Vec<ImplLine>,
    /// The impls of sections, which belong to no crate.
    added: Vec<ImplLine>,
    /// For each section, how many impls of sections come before it.
    sections: Vec<usize>,
    /// The lines of queries.
    pub questions: Vec<QuestionLine>,
    /// Whether a section is open.
    in_section: bool,
}

// Hand-written so that the prover sees one drop call: docs/PROVING.md#drop.
impl Drop for ItemLines {
    fn drop(self) {
        let ItemLines {
            structs: _,
            impls: _,
            added: _,
            sections: _,
            questions: _,
            in_section: _,
        } = self;
    }
}

/// How many types a part of a line binds. Each binding has one `=`, and nothing else has.
fn binding_count(line: &[u8], place: Place) -> usize {
    text_of(line, place)
        .iter()
        .filter(|byte| **byte == b'=')
        .count()
}

/// The where-clauses, each as often as it stands for one: for its bound, and for each type that it binds.
fn clause_places(alloc: Global, line: &[u8], written: &[Place]) -> Result<Vec<Place>, AllocError> {
    let mut places = Vec::new(alloc);
    for place in written {
        for _ in 0..=binding_count(line, *place) {
            places.push(*place)?;
        }
    }
    Ok(places)
}

/// The bounds of a query, each as often as it stands for one: for each type that it binds, or for itself.
fn asked_places(alloc: Global, line: &[u8]) -> Result<Vec<Place>, AllocError> {
    let written = bounds_of_question(alloc, line)?;
    let mut places = Vec::new(alloc);
    for place in &written {
        for _ in 0..binding_count(line, *place).max(1) {
            places.push(*place)?;
        }
    }
    Ok(places)
}

/// A line up to the types of a trait or an impl.
fn before_types(line: &[u8]) -> &[u8] {
    let end = line.iter().take_while(|byte| **byte != b'{').count();
    line.get(..end).unwrap_or(line)
}

/// A part that goes on to the end of a token.
fn with_token(part: Option<Place>, token: Place) -> Place {
    Place {
        start: part.unwrap_or(token).start,
        end: token.end,
    }
}

/// What the line of an impl gives, each between `type` and `;`.
fn given_places(alloc: Global, line: &[u8]) -> Result<Vec<Place>, AllocError> {
    let mut places = Vec::new(alloc);
    let mut part = None;
    let mut is_given = false;
    let mut depth = 0usize;
    let tokens = token_places(alloc, line)?;
    for token in &tokens {
        match text_of(line, *token) {
            b"type" => is_given = true,
            b";" if depth == 0 => {
                if let Some(place) = part {
                    places.push(place)?;
                }
                part = None;
                is_given = false;
            }
            text => {
                match text {
                    b"[" => depth = depth.saturating_add(1),
                    b"]" => depth = depth.saturating_sub(1),
                    _ => {}
                }
                if is_given {
                    part = Some(with_token(part, *token));
                }
            }
        }
    }
    Ok(places)
}

/// The parts of the line of an impl as they are written. If they are not found, each is the whole line.
fn written_parts(alloc: Global, line: &[u8]) -> Result<LineParts, AllocError> {
    match parts_of_impl(alloc, before_types(line))? {
        Some(parts) => Ok(parts),
        None => Ok(LineParts {
            header: whole_line(line),
            bound: whole_line(line),
            subject: whole_line(line),
            clauses: Vec::new(alloc),
        }),
    }
}

/// The parts of the line of an impl. A where-clause that stands for several is there once for each.
fn impl_parts(alloc: Global, line: &[u8]) -> Result<LineParts, AllocError> {
    let mut parts = written_parts(alloc, line)?;
    parts.clauses = clause_places(alloc, line, &parts.clauses)?;
    Ok(parts)
}

impl ItemLines {
    /// Adds the line of an impl, of a companion if it gives something.
    fn add_impl(
        &mut self,
        alloc: Global,
        number: u32,
        line: &[u8],
        given: Option<Place>,
    ) -> Result<(), AllocError>
        ensures { OnOk result (AddsImplLine self.old self.new number) }
    {
        let parts = impl_parts(alloc, line)?;
        let found = ImplLine {
            line: number,
            parts,
            given,
        };
        if self.in_section {
            self.added.push(found)?;
        } else {
            self.impls.push(found)?;
        }
        Ok(())
    }

    /// Adds the line of an impl for each impl for which it stands.
    fn add_impls(&mut self, alloc: Global, number: u32, line: &[u8]) -> Result<(), AllocError> {
        self.add_impl(alloc, number, line, None)?;
        let given = given_places(alloc, line)?;
        for place in &given {
            self.add_impl(alloc, number, line, Some(*place))?;
        }
        Ok(())
    }

    /// Adds the line of a query.
    fn add_question(&mut self, alloc: Global, number: u32, line: &[u8]) -> Result<(), AllocError>
        ensures { OnOk result (question_numbers self.new.questions.items ≡ question_numbers self.old.questions.items ++ number ∷ []) }
    {
        let bounds = asked_places(alloc, line)?;
        self.questions.push(QuestionLine {
            line: number,
            bounds,
        })?;
        Ok(())
    }

    /// Adds the line of a struct.
    fn add_struct(&mut self, number: u32, line: &[u8]) -> Result<(), AllocError>
        ensures { OnOk result (line_numbers self.new.structs.items ≡ line_numbers self.old.structs.items ++ number ∷ []) }
    {
        self.structs.push(on_line(number, whole_line(line)))?;
        Ok(())
    }

    /// Begins a section.
    fn begin_section(&mut self) -> Result<(), AllocError> {
        self.in_section = true;
        self.sections.push(self.added.len())?;
        Ok(())
    }

    /// Adds a line, with what it says.
    fn add(
        &mut self,
        alloc: Global,
        number: u32,
        line: &[u8],
        statement: &Statement<'_>,
    ) -> Result<(), AllocError> {
        match statement {
            Statement::Crate { .. } => {
                self.in_section = false;
                Ok(())
            }
            Statement::Struct { .. } => self.add_struct(number, line),
            Statement::Later { .. } => self.begin_section(),
            Statement::Impl { .. } => self.add_impl(alloc, number, line, None),
            Statement::Prove { .. } => self.add_question(alloc, number, line),
            Statement::Refute { .. } => self.add_question(alloc, number, line),
            _ => Ok(()),
        }
    }

    /// Adds a line with types, if the grammar has it and it stands for no more than it may.
    fn add_typed(
        &mut self,
        alloc: Global,
        number: u32,
        line: &[u8],
        found: &[Token<'_>],
    ) -> Result<(), AllocError> {
        match read_typed(alloc, found) {
            Err(LineError::Memory) => Err(AllocError),
            Err(LineError::Syntax) => Ok(()),
            Ok(typed) => {
                if is_overlong(line) || typed.has_many_types() {
                    Ok(())
                } else if typed.is_query() {
                    self.add_question(alloc, number, line)
                } else if matches!(found.first(), Some(Token::Keyword(Keyword::Impl))) {
                    self.add_impls(alloc, number, line)
                } else {
                    Ok(())
                }
            }
        }
    }

    /// The line of an impl of a section. Sections count from 0, impls from 1.
    pub fn added_impl(&self, section: u32, number: u32) -> Option<&ImplLine> {
        let before = self.sections.get(section as usize)?;
        let place = (number as usize).checked_sub(1)?;
        self.added.get(before.saturating_add(place))
    }
}

/// Where the structs, the impls and the queries of a text are. Fails only if memory is refused.
pub fn item_lines(alloc: Global, file: &SourceFile<'_>) -> Result<ItemLines, AllocError> {
    let mut found = ItemLines {
        structs: Vec::new(alloc),
        impls: Vec::new(alloc),
        added: Vec::new(alloc),
        sections: Vec::new(alloc),
        questions: Vec::new(alloc),
        in_section: false,
    };
    let count = u32::try_from(file.count_lines()).unwrap_or(0);
    for before in 0..count {
        let number = before + 1;
        let line = file.line(number);
        match line_form(alloc, line)? {
            LineForm::Read(read) => found.add(alloc, number, line, &read.statement)?,
            LineForm::Typed(tokens) => found.add_typed(alloc, number, line, &tokens)?,
            LineForm::OtherByte | LineForm::Blank | LineForm::Unwritten => {}
        }
    }
    Ok(found)
}
