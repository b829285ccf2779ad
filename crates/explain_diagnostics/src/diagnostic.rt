//! Diagnostics as data: a message, where it belongs, and what follows it.

ghost use Rattle.std.specs.Prelude.{◌≡◌, true, false, []};
ghost use Rattle.explain_diagnostics.specs.Names.{code_name, level_name};

use crate::span::Span;
use std::alloc::Global;

/// How severe a message is. rustc: `Level`.
#[derive(Clone, Copy, PartialEq, Eq)]
pub enum Level {
    Error,
    Note,
    Help,
}

/// A code of rustc that names the rule by which something is refused. `rustc --explain CODE` describes it.
#[derive(Clone, Copy)]
pub enum ErrCode {
    /// An impl of a foreign trait for foreign types.
    E0117,
    /// Two impls that apply to one type.
    E0119,
    /// A parameter of an impl that is not constrained.
    E0207,
    /// A parameter that comes before the first local type.
    E0210,
    /// The depth limit was reached.
    E0275,
    /// A bound that was not proved.
    E0277,
    /// More than one candidate, or a type that is a variable.
    E0283,
    /// A cycle among supertraits.
    E0391,
}

/// A label for a part of the text. rustc: `SpanLabel`.
pub struct SpanLabel {
    pub span: Span,
    /// Whether the message is about this part. It is marked with `^`, and other parts with `-`.
    pub is_primary: bool,
    /// The text after the mark, which may be empty.
    pub label: String,
}

/// What follows a message: a note, or a help. A help advises and claims nothing. rustc: `Subdiag`.
pub struct Subdiagnostic {
    pub level: Level,
    pub message: String,
    pub spans: Vec<SpanLabel>,
}

/// A row of a proof: what holds, how deep it is below the first row, and why it holds.
pub struct ProofRow {
    pub depth: usize,
    pub goal: String,
    pub reason: String,
    /// The line of the impl by which it holds, if it is one of the text.
    pub impl_line: Option<u32>,
}

/// The explanation of a line of the output.
pub struct Diagnostic {
    pub level: Level,
    pub code: Option<ErrCode>,
    pub message: String,
    pub spans: Vec<SpanLabel>,
    /// Empty if no proof is displayed.
    pub proof: Vec<ProofRow>,
    pub children: Vec<Subdiagnostic>,
}

// Hand-written so that the prover sees one drop call: docs/PROVING.md#drop.
impl Drop for SpanLabel {
    fn drop(self) {
        let SpanLabel {
            span: _,
            is_primary: _,
            label: _,
        } = self;
    }
}

impl Drop for Subdiagnostic {
    fn drop(self) {
        let Subdiagnostic {
            level: _,
            message: _,
            spans: _,
        } = self;
    }
}

impl Drop for ProofRow {
    fn drop(self) {
        let ProofRow {
            depth: _,
            goal: _,
            reason: _,
            impl_line: _,
        } = self;
    }
}

impl Drop for Diagnostic {
    fn drop(self) {
        let Diagnostic {
            level: _,
            code: _,
            message: _,
            spans: _,
            proof: _,
            children: _,
        } = self;
    }
}

impl SpanLabel {
    /// A label for what the message is about.
    pub fn primary(span: Span, label: String) -> SpanLabel
        ensures primary { result.is_primary ≡ true }
        ensures span { result.span ≡ span }
        ensures label { result.label ≡ label }
    {
        SpanLabel {
            span,
            is_primary: true,
            label,
        }
    }

    /// A label for another part.
    pub fn secondary(span: Span, label: String) -> SpanLabel
        ensures secondary { result.is_primary ≡ false }
        ensures span { result.span ≡ span }
        ensures label { result.label ≡ label }
    {
        SpanLabel {
            span,
            is_primary: false,
            label,
        }
    }
}

impl Subdiagnostic {
    /// A message without a span.
    pub fn new(alloc: Global, level: Level, message: String) -> Subdiagnostic
        ensures level { result.level ≡ level }
        ensures message { result.message ≡ message }
        ensures spans { result.spans.items ≡ [] }
    {
        Subdiagnostic {
            level,
            message,
            spans: Vec::new(alloc),
        }
    }
}

impl Diagnostic {
    /// A message without spans, proof and children. The caller adds these to its fields.
    pub fn new(alloc: Global, level: Level, code: Option<ErrCode>, message: String) -> Diagnostic
        ensures level { result.level ≡ level }
        ensures code { result.code ≡ code }
        ensures message { result.message ≡ message }
        ensures spans { result.spans.items ≡ [] }
        ensures proof { result.proof.items ≡ [] }
        ensures children { result.children.items ≡ [] }
    {
        Diagnostic {
            level,
            code,
            message,
            spans: Vec::new(alloc),
            proof: Vec::new(alloc),
            children: Vec::new(alloc),
        }
    }
}

impl Level {
    /// The word that rustc prints.
    pub(crate) fn name(self) -> &'static str
        ensures { result.now ≡ level_name self }
    {
        match self {
            Level::Error => "error",
            Level::Note => "note",
            Level::Help => "help",
        }
    }
}

impl ErrCode {
    /// The code as rustc prints it.
    pub fn name(self) -> &'static str
        ensures { result.now ≡ code_name self }
    {
        match self {
            ErrCode::E0117 => "E0117",
            ErrCode::E0119 => "E0119",
            ErrCode::E0207 => "E0207",
            ErrCode::E0210 => "E0210",
            ErrCode::E0275 => "E0275",
            ErrCode::E0277 => "E0277",
            ErrCode::E0283 => "E0283",
            ErrCode::E0391 => "E0391",
        }
    }
}
