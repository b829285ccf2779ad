//! What the arguments ask for.

ghost use Rattle.std.specs.Prelude.{◌≤◌, length};

/// When there are colours. rustc: `--color`.
#[derive(Clone, Copy, PartialEq, Eq)]
pub enum ColorConfig {
    /// On a terminal, unless the environment says that there are none.
    Auto,
    Always,
    Never,
}

/// In which form answers are given.
#[derive(Clone, Copy, PartialEq, Eq)]
pub enum How {
    /// The lines alone.
    Plain,
    /// Each line with its explanation.
    Explained,
    /// The same as JSON, one object per line.
    Json,
    /// The proofs alone, as a picture for the command `dot`.
    Dot,
}

/// What is answered.
#[derive(Clone, Copy)]
pub enum Asked<'w> {
    /// Each text.
    Texts,
    /// Each text, and the exit status says if each answer is the expected one.
    Checks,
    /// Lines of standard input, after the one text: a bound alone in this crate.
    Lines(Option<&'w str>),
}

/// A call for answers.
#[derive(Drop)]
pub struct Request<'w> {
    /// The depth limit.
    pub depth: u32,
    pub how: How,
    pub color: ColorConfig,
    pub asked: Asked<'w>,
    /// The name of the text in messages, if it is not that of its file.
    pub title: Option<&'w str>,
    /// The files in front of each text, in their order.
    pub fronts: Vec<&'w str>,
    /// The files of the texts, in their order. `-` is standard input.
    pub texts: Vec<&'w str>,
    ghost deep: { 1 ≤ depth },
    ghost limited: { depth ≤ 255 },
    ghost some_text: { 1 ≤ length texts.items },
}

/// What the arguments ask for.
#[derive(Drop)]
pub enum Command<'w> {
    Help,
    Version,
    Answer(Request<'w>),
}
