//! Diagnostics that are being written.

ghost use Rattle.std.specs.Prelude.{◌≡◌, [], false, true, string_bytes, IfNone, IfOk, IfSome, OnOk, OnSome};
ghost use Rattle.std.specs.declared.result.Result.TheVariants.{Ok};
ghost use Rattle.explain_diagnostics.specs.declared.diagnostic.Level.TheVariants.{Help, Note};
ghost use Rattle.messages.specs.Told.{AddsChild, AddsMark, AddsRow, ChangesLast, KeepsMessage, marked_more, saying_more, told_row};
ghost use Rattle.messages.specs.Written.{sentence_text};

use crate::sentences::{Piece, Sentence, impl_line_in, plain, sentence_text, with_one};
use explain_diagnostics::{Diagnostic, ErrCode, Level, ProofRow, Span, SpanLabel, Subdiagnostic};
use std::alloc::{AllocError, Global};

/// A diagnostic that is being written. It remembers that a request for memory was refused, and adds nothing from then on. So a caller does
/// not check each call, and asks once, in `finish`.
pub struct Telling {
    alloc: Global,
    told: Diagnostic,
    is_refused: bool,
}

// Hand-written so that the prover sees one drop call: docs/PROVING.md#drop.
impl Drop for Telling {
    fn drop(self) {
        let Telling {
            alloc: _,
            told: _,
            is_refused: _,
        } = self;
    }
}

impl Telling {
    /// Begins with a message without a span.
    pub fn begin(
        alloc: Global,
        level: Level,
        code: Option<ErrCode>,
        message: Sentence<'_>,
    ) -> Telling
        ensures level { result.told.level ≡ level }
        ensures code { result.told.code ≡ code }
        ensures marks { result.told.spans.items ≡ [] }
        ensures rest { (result.told.proof.items ≡ []) × (result.told.children.items ≡ []) }
        ensures text { result.is_refused ≡ false → string_bytes result.told.message ≡ sentence_text message.entry }
    {
        let (message, is_refused) = match sentence_text(alloc, message) {
            Ok(message) => (message, false),
            Err(_) => (String::new(alloc), true),
        };
        Telling {
            alloc,
            told: Diagnostic::new(alloc, level, code, message),
            is_refused,
        }
    }

    /// The diagnostic as it was written, if no request for memory was refused.
    pub fn finish(self) -> Result<Diagnostic, AllocError>
        ensures whole { IfOk result (λ d. d ≡ self.told) }
        ensures granted { OnOk result (self.is_refused ≡ false) }
    {
        let Telling {
            alloc: _,
            told,
            is_refused,
        } = self;
        if is_refused {
            Err(AllocError)
        } else {
            Ok(told)
        }
    }

    /// The allocator, for other requests.
    pub fn alloc(&self) -> Global {
        self.alloc
    }

    /// The value of another request. If it was refused, this is remembered.
    pub fn granted<T>(&mut self, asked: Result<T, AllocError>) -> Option<T>
        ensures value { IfSome result (λ given. asked ≡ Ok given) }
        ensures refused { IfNone result (self.new.is_refused ≡ true) }
        ensures stays { self.new.is_refused ≡ false → self.old.is_refused ≡ false }
        ensures told { self.new.told ≡ self.old.told }
    {
        match asked {
            Ok(given) => Some(given),
            Err(_) => {
                self.is_refused = true;
                None
            }
        }
    }

    /// A sentence as text, if no request was refused.
    fn sentence_text(&mut self, sentence: Sentence<'_>) -> Option<String>
        ensures text { IfSome result (λ t. string_bytes t ≡ sentence_text sentence.entry) }
        ensures refused { IfNone result (self.new.is_refused ≡ true) }
        ensures stays { OnSome result (self.old.is_refused ≡ false) }
        ensures told { self.new.told ≡ self.old.told }
    {
        if self.is_refused {
            return None;
        }
        let asked = sentence_text(self.alloc, sentence);
        self.granted(asked)
    }

    /// Adds a mark with a label to the message.
    fn add_mark(&mut self, span: Span, is_primary: bool, label: Sentence<'_>)
        ensures told { self.new.is_refused ≡ false → AddsMark self.old.told self.new.told span is_primary (sentence_text label.entry) }
        ensures stays { self.new.is_refused ≡ false → self.old.is_refused ≡ false }
    {
        if let Some(label) = self.sentence_text(label) {
            let mark = SpanLabel {
                span,
                is_primary,
                label,
            };
            self.is_refused = self.told.spans.push(mark).is_err();
        }
    }

    /// Marks what the message is about, with a label.
    pub fn mark(&mut self, span: Span, label: Sentence<'_>)
        ensures told { self.new.is_refused ≡ false → AddsMark self.old.told self.new.told span true (sentence_text label.entry) }
        ensures stays { self.new.is_refused ≡ false → self.old.is_refused ≡ false }
    {
        self.add_mark(span, true, label);
    }

    /// Marks another part, with a label.
    pub fn mark_beside(&mut self, span: Span, label: Sentence<'_>)
        ensures told { self.new.is_refused ≡ false → AddsMark self.old.told self.new.told span false (sentence_text label.entry) }
        ensures stays { self.new.is_refused ≡ false → self.old.is_refused ≡ false }
    {
        self.add_mark(span, false, label);
    }

    /// Adds a child without a span.
    fn add_child(&mut self, level: Level, message: Sentence<'_>)
        ensures told { self.new.is_refused ≡ false → AddsChild self.old.told self.new.told level (sentence_text message.entry) }
        ensures message { KeepsMessage self.old self.new }
    {
        if let Some(message) = self.sentence_text(message) {
            let child = Subdiagnostic::new(self.alloc, level, message);
            self.is_refused = self.told.children.push(child).is_err();
        }
    }

    /// Adds a note without a span.
    pub fn note(&mut self, message: Sentence<'_>)
        ensures told { self.new.is_refused ≡ false → AddsChild self.old.told self.new.told Note (sentence_text message.entry) }
        ensures message { KeepsMessage self.old self.new }
    {
        self.add_child(Level::Note, message);
    }

    /// Adds a help without a span.
    pub fn help(&mut self, message: Sentence<'_>)
        ensures told { self.new.is_refused ≡ false → AddsChild self.old.told self.new.told Help (sentence_text message.entry) }
        ensures message { KeepsMessage self.old self.new }
    {
        self.add_child(Level::Help, message);
    }

    /// Adds a mark with a label to the last child.
    fn mark_last(&mut self, span: Span, is_primary: bool, label: Sentence<'_>)
        ensures told { self.new.is_refused ≡ false → ChangesLast self.old.told self.new.told (marked_more span is_primary (sentence_text label.entry)) }
        ensures message { KeepsMessage self.old self.new }
    {
        if let Some(label) = self.sentence_text(label) {
            if let Some(child) = self.told.children.last_mut() {
                let mark = SpanLabel {
                    span,
                    is_primary,
                    label,
                };
                self.is_refused = child.spans.push(mark).is_err();
            }
        }
    }

    /// Marks what the last child is about, without a label.
    pub fn mark_child(&mut self, span: Span)
        ensures told { self.new.is_refused ≡ false → ChangesLast self.old.told self.new.told (marked_more span true []) }
        ensures message { KeepsMessage self.old self.new }
    {
        self.mark_last(span, true, plain(""));
    }

    /// Marks another part in the last child, with a label.
    pub fn mark_child_beside(&mut self, span: Span, label: Sentence<'_>)
        ensures told { self.new.is_refused ≡ false → ChangesLast self.old.told self.new.told (marked_more span false (sentence_text label.entry)) }
        ensures message { KeepsMessage self.old self.new }
    {
        self.mark_last(span, false, label);
    }

    /// Appends to the message of the last child.
    pub fn extend_child(&mut self, more: Sentence<'_>)
        ensures told { self.new.is_refused ≡ false → ChangesLast self.old.told self.new.told (saying_more (sentence_text more.entry)) }
        ensures message { KeepsMessage self.old self.new }
    {
        if let Some(more) = self.sentence_text(more) {
            if let Some(child) = self.told.children.last_mut() {
                self.is_refused = child.message.push_str(more.as_str()).is_err();
            }
        }
    }

    /// Adds a row of a proof: what holds, how deep it is below the first row, and why it holds.
    pub fn row(&mut self, depth: usize, goal: Piece<'_>, reason: Sentence<'_>)
        ensures told { self.new.is_refused ≡ false → AddsRow self.old.told self.new.told (told_row depth goal.entry reason.entry) }
        ensures message { KeepsMessage self.old self.new }
    {
        let impl_line = impl_line_in(reason);
        let goal = self.sentence_text(with_one("{}", goal));
        let reason = self.sentence_text(reason);
        if let (Some(goal), Some(reason)) = (goal, reason) {
            let row = ProofRow {
                depth,
                goal,
                reason,
                impl_line,
            };
            self.is_refused = self.told.proof.push(row).is_err();
        }
    }
}
