//! What a text expects of its answers.
//!
//! After a line `// expect: WORDS` the next line has an answer that begins with these words. Any other answer is the best of its kind.

ghost use Rattle.std.specs.Prelude.{◌≡◌, ◌≤◌, ◌<◌, true, false, length, IfNone, IfSome, OnSome};
ghost use Rattle.command_line.specs.Expected.{HaveOutput, is_as_expected, may_follow};

use crate::shown::ShownBytes;
use std::fmt;

/// An answer that is not the expected one, or an expectation of no answer. It is printed as a message.
#[derive(Clone, Copy)]
pub enum Surprise<'t> {
    /// No line that has an answer comes after the expectation.
    Unused,
    Differs {
        /// What is answered: the words before the colon.
        subject: &'t [u8],
        expected: &'t [u8],
        found: &'t [u8],
    },
}

impl fmt::Display for Surprise<'_> {
    fn fmt<W: fmt::Write>(&self, f: &mut fmt::Formatter<W>) -> fmt::Result {
        match *self {
            Surprise::Unused => {
                f.write_str("`// expect:` stands before no line that has an answer")
            }
            Surprise::Differs {
                subject,
                expected,
                found,
            } => write!(
                f,
                "{}: expected `{}`, found `{}`",
                ShownBytes(subject),
                ShownBytes(expected),
                ShownBytes(found)
            ),
        }
    }
}

/// The lines whose answers are in one part of the output.
#[derive(Clone, Copy, PartialEq, Eq)]
enum Part {
    Crates,
    Checks,
    Questions,
}

/// The first line of a text, without its end, and what comes after it.
fn first_line(text: &[u8]) -> (&[u8], &[u8])
    ensures { 1 ≤ length text.now → length result.1.now < length text.now }
{
    match text.iter().position(|byte| *byte == b'\n') {
        Some(end) => (&text[..end], &text[end + 1..]),
        None => (text, &[]),
    }
}

/// What comes after the spaces at the beginning.
fn after_spaces(text: &[u8]) -> &[u8] {
    match text.iter().position(|byte| *byte != b' ') {
        Some(start) => &text[start..],
        None => &[],
    }
}

/// What a line says that it expects: `// expect: WORDS`.
fn expectation(line: &[u8]) -> Option<&[u8]> {
    let comment = after_spaces(line).strip_prefix(b"//")?;
    let words = after_spaces(comment).strip_prefix(b"expect:")?;
    Some(words.trim_ascii())
}

/// Where the answer to a line is, and what it is if nothing else is expected. A line of the output has the same first word. `None` if a line
/// has no answer.
fn answered(line: &[u8]) -> Option<(Part, &'static [u8])> {
    let start = line.trim_ascii_start();
    let word = match start.iter().position(|byte| byte.is_ascii_whitespace()) {
        Some(end) => &start[..end],
        None => start,
    };
    match word {
        b"crate" => Some((Part::Crates, b"accepted".as_slice())),
        b"later" => Some((Part::Checks, b"compatible".as_slice())),
        b"supers" => Some((Part::Checks, b"held".as_slice())),
        b"prove" => Some((Part::Questions, b"yes".as_slice())),
        b"refute" => Some((Part::Questions, b"no".as_slice())),
        _ => None,
    }
}

/// Whether this may come after the expected words: nothing, the value of another variable, or other words if no value is expected.
fn may_follow(expected: &[u8], rest: &[u8]) -> bool
    ensures { result ≡ may_follow expected.now rest.now }
{
    rest.is_empty()
        || rest.starts_with(b", ?")
        || rest.starts_with(b" ") && !expected.contains(&b'?')
}

/// Whether an answer is the expected one. Words may follow it, but they end no value of a variable.
fn is_expected(expected: &[u8], found: &[u8]) -> bool
    ensures { result ≡ is_as_expected expected.now found.now }
{
    !expected.is_empty()
        && found.starts_with(expected)
        && may_follow(expected, &found[expected.len()..])
}

/// The answers of one part, in their order.
#[derive(Clone, Copy)]
struct Answers<'t> {
    part: Part,
    /// The lines of the output that are left.
    left: &'t [u8],
}

impl<'t> Answers<'t> {
    fn of(part: Part, output: &'t [u8]) -> Answers<'t>
        ensures part { result.part ≡ part }
        ensures left { result.left.now ≡ output.now }
    {
        Answers { part, left: output }
    }

    /// The next answer.
    fn next(&mut self) -> Option<&'t [u8]> {
        'left: while !self.left.is_empty() {
            let (line, rest) = first_line(self.left);
            self.left = rest;
            match answered(line) {
                Some((part, _)) if part == self.part => return Some(line),
                _ => {}
            }
        }
        None
    }
}

/// What is found of an answer, if it is not the expected one.
fn judge<'t>(subject: &'t [u8], expected: &'t [u8], found: &'t [u8]) -> Option<Surprise<'t>>
    ensures none { IfNone result (is_as_expected expected.now found.now ≡ true) }
    ensures some { OnSome result (is_as_expected expected.now found.now ≡ false) }
{
    if is_expected(expected, found) {
        return None;
    }
    Some(Surprise::Differs {
        subject,
        expected,
        found,
    })
}

/// What is answered by a line of the output, and the answer: the words before `: ` and after it.
fn parts_of(answer: &[u8]) -> (&[u8], &[u8]) {
    match answer.iter().position(|byte| *byte == b':') {
        Some(end) => (&answer[..end], after_spaces(&answer[end + 1..])),
        None => (answer, &[]),
    }
}

/// Goes through the lines of a text that has no fault, and through its answers.
#[derive(Drop)]
pub struct Expectations<'t> {
    /// The lines that are left.
    text: &'t [u8],
    /// The number of the last line that was read.
    line: usize,
    /// What it expects of the next one.
    expected: Option<&'t [u8]>,
    crates: Answers<'t>,
    checks: Answers<'t>,
    questions: Answers<'t>,
    /// Whether something was found that is not as expected.
    pub is_refused: bool,
}

impl<'t> Expectations<'t> {
    /// Nothing is read yet of a text and the lines of its output.
    pub fn new(text: &'t [u8], output: &'t [u8]) -> Expectations<'t>
        ensures refused { result.is_refused ≡ false }
        ensures text { result.text.now ≡ text.now }
        ensures output { HaveOutput result output.now }
    {
        Expectations {
            text,
            line: 0,
            expected: None,
            crates: Answers::of(Part::Crates, output),
            checks: Answers::of(Part::Checks, output),
            questions: Answers::of(Part::Questions, output),
            is_refused: false,
        }
    }

    /// The next answer of a part.
    fn next_answer(&mut self, part: Part) -> Option<&'t [u8]>
        ensures text { self.new.text ≡ self.old.text }
        ensures line { self.new.line ≡ self.old.line }
        ensures refused { self.new.is_refused ≡ self.old.is_refused }
    {
        match part {
            Part::Crates => self.crates.next(),
            Part::Checks => self.checks.next(),
            Part::Questions => self.questions.next(),
        }
    }

    /// Reads a line: what is found, and the number of the line that it is found of.
    fn read(&mut self, line: &'t [u8]) -> Option<(usize, Surprise<'t>)>
        ensures text { self.new.text ≡ self.old.text }
        ensures counted { self.old.line ≤ self.new.line }
        ensures found { IfSome result (λ p. p.0 ≤ self.new.line) }
        ensures refused { self.new.is_refused ≡ self.old.is_refused }
    {
        let before = self.line;
        let expected = self.expected;
        self.line = before.saturating_add(1);
        self.expected = expectation(line);
        let Some((part, best)) = answered(line) else {
            return match expected {
                Some(_) => Some((before, Surprise::Unused)),
                None => None,
            };
        };
        let (subject, found) = parts_of(self.next_answer(part)?);
        let surprise = judge(subject, expected.unwrap_or(best), found)?;
        Some((self.line, surprise))
    }

    /// The next line of which something is found that is not as expected, by its number from 1. `None` at the end of the text.
    pub fn next(&mut self) -> Option<(usize, Surprise<'t>)>
        ensures counted { self.old.line ≤ self.new.line }
        ensures found { IfSome result (λ p. p.0 ≤ self.new.line) }
        ensures some { OnSome result (self.new.is_refused ≡ true) }
        ensures none { IfNone result (self.new.is_refused ≡ self.old.is_refused) }
        ensures read { IfNone result (length self.new.text.now ≡ 0) }
    {
        'text: while !self.text.is_empty() {
            let (line, rest) = first_line(self.text);
            self.text = rest;
            let found = self.read(line);
            if found.is_some() {
                self.is_refused = true;
                return found;
            }
        }
        if self.expected.take().is_none() {
            return None;
        }
        self.is_refused = true;
        Some((self.line, Surprise::Unused))
    }
}
