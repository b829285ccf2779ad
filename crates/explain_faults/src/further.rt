//! The faulty lines of a text after its first one.
//!
//! Each is found as if the faulty lines above it were blank. A fault that may come from a faulty line above, which declared nothing, is not
//! reported.

ghost use Rattle.std.specs.Prelude.{Err, IfOk, IfSome};
ghost use Rattle.text_language.specs.Text.{TextGives};
ghost use Rattle.text_names.specs.FaultNumbers.{fault_number};

use crate::faults::{lines_above, tell_fault};
use crate::grammar::{Word, read_words};
use crate::offending::{Faulty, reading};
use crate::similar::similar_word;
use explain_diagnostics::{Diagnostic, SourceFile, text_of, token_places};
use messages::{Piece, sentence_text, with_two};
use std::alloc::{AllocError, Global};
use text_names::FaultKind;
use text_parser::{TEXT_LIMIT, TextError, TextFault, parse};
use text_tables::Workspace;

/// How many faulty lines after the first one are read at most.
const FAULTS: usize = 100;

/// How many bytes are parsed at most to find them. Each is found by parsing the text once more.
const BYTES: usize = 1_000_000;

/// A faulty line after the first one.
pub struct FurtherFault {
    /// Its fault as the answer would have it: `line 7: fault 5`.
    pub answer: String,
    pub told: Diagnostic,
}

// Hand-written so that the prover sees one drop call: docs/PROVING.md#drop.
impl Drop for FurtherFault {
    fn drop(self) {
        let FurtherFault { answer: _, told: _ } = self;
    }
}

/// A name in a faulty line.
#[derive(Clone, Copy)]
struct Mention<'t> {
    name: &'t [u8],
    /// Whether the line declares it.
    is_own: bool,
}

/// A text without its faulty lines so far.
struct FaultlessText<'t> {
    file: &'t SourceFile<'t>,
    /// The text with these lines blank.
    text: Vec<u8>,
    /// The names in these lines.
    mentioned: Vec<Mention<'t>>,
    /// Whether one of these lines has too many tokens, so that its names are not known.
    is_vague: bool,
    /// Whether one of these lines passes a limit.
    has_limit: bool,
}

// Hand-written so that the prover sees one drop call: docs/PROVING.md#drop.
impl Drop for FaultlessText<'_> {
    fn drop(self) {
        let FaultlessText {
            file: _,
            text: _,
            mentioned: _,
            is_vague: _,
            has_limit: _,
        } = self;
    }
}

/// The fault of a text, if it has one. Fails only if memory is refused.
fn find_fault(alloc: Global, text: &[u8]) -> Result<Option<TextFault>, AllocError>
    ensures { IfOk result (λ found. IfSome found (λ f. TextGives text.now (Err (f.line, fault_number f.kind)))) }
{
    match parse(alloc, text) {
        Ok(_) => Ok(None),
        Err(TextError::Text(fault)) => Ok(Some(fault)),
        Err(TextError::Memory) => Err(AllocError),
    }
}

/// Whether a faulty line may begin a crate or a section: its first word is `crate` or `later`, or similar to one of them.
fn begins_block(alloc: Global, line: &[u8]) -> Result<bool, AllocError> {
    let places = token_places(alloc, line)?;
    let Some(first) = places.first() else {
        return Ok(false);
    };
    let begins = match similar_word(alloc, text_of(line, *first))? {
        Some(word) => word.bytes == b"crate".as_slice() || word.bytes == b"later".as_slice(),
        None => false,
    };
    Ok(begins)
}

impl<'t> FaultlessText<'t> {
    /// Remembers the names in a line.
    fn mention(&mut self, alloc: Global, line: &'t [u8]) -> Result<(), AllocError> {
        let read = read_words(alloc, line)?;
        self.is_vague = self.is_vague || read.words.is_empty();
        for word in &read.words {
            if word.class == b'@' && !word.is_type_name() {
                let is_own = word.used_as == "@own";
                self.mentioned.push(Mention {
                    name: word.text,
                    is_own,
                })?;
            }
        }
        Ok(())
    }

    /// Makes a line blank, and remembers its names.
    fn leave_out(&mut self, alloc: Global, number: u32) -> Result<(), AllocError> {
        let line = self.file.line(number);
        let start = self.file.line_start(number);
        let end = start.saturating_add(line.len());
        for at in start..end {
            if let Some(byte) = self.text.get_mut(at) {
                *byte = b' ';
            }
        }
        self.mention(alloc, line)
    }

    /// Leaves out the items of a crate or of a section whose first line is faulty. Lines that the grammar does not have stay.
    fn leave_items_out(&mut self, alloc: Global, first: u32) -> Result<(), AllocError> {
        let count = u32::try_from(self.file.count_lines()).unwrap_or(0);
        for before in first..count {
            let number = before.saturating_add(1);
            if let Some(read) = reading(alloc, self.file.line(number))? {
                if read.is_beginning() {
                    break;
                }
                if read.is_item() {
                    self.leave_out(alloc, number)?;
                }
            }
        }
        Ok(())
    }

    /// Leaves out a faulty line. If it begins a crate or a section, also the items of that.
    fn leave_fault_out(&mut self, alloc: Global, fault: TextFault) -> Result<(), AllocError> {
        self.has_limit = self.has_limit || fault.kind == FaultKind::Limit;
        self.leave_out(alloc, fault.line)?;
        if begins_block(alloc, self.file.line(fault.line))? {
            self.leave_items_out(alloc, fault.line)?;
        }
        Ok(())
    }

    /// Whether a line that is left out may declare a name. It does not declare a known one unless that is its own.
    fn may_declare(&self, name: &[u8], is_known: bool) -> bool {
        for mention in &self.mentioned {
            if mention.name == name && (mention.is_own || !is_known) {
                return true;
            }
        }
        self.is_vague
    }

    /// Whether a line uses a name that a line that is left out may declare.
    fn is_doubtful(&self, line: Faulty<'_>) -> bool {
        for word in line.words {
            if word.uses()
                && line.declaring(word.text).is_none()
                && self.may_declare(word.text, line.workspace.known(word.text).is_some())
            {
                return true;
            }
        }
        false
    }

    /// Whether a fault does not come from the lines that are left out. `above` is what the lines above it give.
    fn is_independent(
        &self,
        fault: TextFault,
        words: &[Word<'_>],
        above: Option<&Workspace>,
    ) -> bool {
        match fault.kind {
            FaultKind::OtherByte | FaultKind::Syntax | FaultKind::Taken => return true,
            FaultKind::Misplaced => return false,
            FaultKind::Limit if self.has_limit => return false,
            _ => {}
        }
        let Some(workspace) = above else {
            return false;
        };
        !self.is_doubtful(Faulty {
            file: self.file,
            number: fault.line,
            words,
            workspace,
        })
    }

    /// Explains a fault, unless it may come from the lines that are left out.
    fn tell(
        &self,
        alloc: Global,
        fault: TextFault,
        found: &mut Vec<FurtherFault>,
    ) -> Result<(), AllocError> {
        let read = read_words(alloc, self.file.line(fault.line))?;
        let above = lines_above(alloc, &self.text, self.file, fault)?;
        if self.is_independent(fault, &read.words, above.as_ref()) {
            let told = tell_fault(alloc, &self.text, self.file, fault, above.as_ref())?;
            let answer = answer_of(alloc, fault)?;
            found.push(FurtherFault { answer, told })?;
        }
        Ok(())
    }
}

/// A fault as the answer would have it.
fn answer_of(alloc: Global, fault: TextFault) -> Result<String, AllocError> {
    let line = Piece::Number(fault.line as usize);
    let number = Piece::Number(fault.kind.number() as usize);
    sentence_text(alloc, with_two("line {}: fault {}", line, number))
}

/// A text of which no line is left out.
fn whole_text<'t>(
    alloc: Global,
    text: &[u8],
    file: &'t SourceFile<'t>,
) -> Result<FaultlessText<'t>, AllocError> {
    Ok(FaultlessText {
        file,
        text: text.to_vec(alloc)?,
        mentioned: Vec::new(alloc),
        is_vague: false,
        has_limit: false,
    })
}

/// How many faulty lines of a text are read at most, after the first one.
fn fault_limit(bytes: usize) -> usize {
    if bytes > TEXT_LIMIT {
        0
    } else {
        (BYTES / bytes.max(1)).min(FAULTS)
    }
}

/// Finds the faulty lines of a text after the first one, in order. Each has its fault if the faulty lines above it are left out, with the
/// items of a crate or a section that one of them begins. One that may come from these is not among them, and no misplaced item is.
///
/// The first 100 are read, and fewer of a text longer than 10,000 bytes. What was found before memory is refused stays.
pub fn further_faults(
    alloc: Global,
    text: &[u8],
    file: &SourceFile<'_>,
    first: TextFault,
    found: &mut Vec<FurtherFault>,
) -> Result<(), AllocError> {
    let mut left = whole_text(alloc, text, file)?;
    let mut fault = first;
    for _ in 0..fault_limit(text.len()) {
        left.leave_fault_out(alloc, fault)?;
        match find_fault(alloc, &left.text)? {
            None => break,
            Some(next) => fault = next,
        }
        left.tell(alloc, fault, found)?;
    }
    Ok(())
}
