//! The arguments, one after the other.

ghost use Rattle.std.specs.Prelude.{◌≡◌, ◌≤◌, length, OnOk};
ghost use Rattle.command_line.specs.declared.words.Refusal.TheVariants.{Memory};

use crate::depths::parse_depth;
use crate::mistake::Mistake;
use crate::request::{Asked, ColorConfig, Command, How, Request};
use std::alloc::{AllocError, Global};

/// Why arguments give no command.
#[derive(Clone, Copy)]
pub enum Refusal<'w> {
    Mistake(Mistake<'w>),
    /// A request for memory was refused.
    Memory,
}

impl<'w> From<Mistake<'w>> for Refusal<'w> {
    fn from(mistake: Mistake<'w>) -> Refusal<'w> {
        Refusal::Mistake(mistake)
    }
}

impl From<AllocError> for Refusal<'_> {
    ghost from_gives = { λ _ refusal. refusal ≡ Memory };

    fn from(_refused: AllocError) -> Self {
        Refusal::Memory
    }
}

/// The depth limit if there is no argument for it: rustc's `recursion_limit`.
const DEPTH: u32 = 128;

/// An option with a value.
#[derive(Clone, Copy)]
enum Valued {
    Color,
    File,
    Proof,
    With,
}

impl Valued {
    fn name(self) -> &'static str {
        match self {
            Valued::Color => "--color",
            Valued::File => "--file",
            Valued::Proof => "--proof",
            Valued::With => "--with",
        }
    }

    fn of_name(name: &str) -> Option<Valued> {
        match name {
            "--color" => Some(Valued::Color),
            "--file" => Some(Valued::File),
            "--proof" => Some(Valued::Proof),
            "--with" => Some(Valued::With),
            _ => None,
        }
    }
}

/// What the next argument is.
#[derive(Clone, Copy)]
enum Awaits {
    Word,
    Value(Valued),
    /// A file, after `--`.
    File,
}

/// Whether further arguments matter.
enum Next {
    More,
    Help,
    Version,
}

/// The arguments read so far.
#[derive(Drop)]
struct Reading<'w> {
    awaits: Awaits,
    depth: u32,
    has_depth: bool,
    explains: bool,
    is_json: bool,
    is_dot: bool,
    color: Option<ColorConfig>,
    is_check: bool,
    asks: bool,
    title: Option<&'w str>,
    /// Whether standard input was named.
    has_input: bool,
    fronts: Vec<&'w str>,
    texts: Vec<&'w str>,
    ghost deep: { 1 ≤ depth },
    ghost limited: { depth ≤ 255 },
}

/// Whether an argument has only digits.
fn is_number(word: &str) -> bool {
    word.as_bytes().iter().all(|byte| byte.is_ascii_digit())
}

impl<'w> Reading<'w> {
    fn new(alloc: Global) -> Reading<'w> {
        Reading {
            awaits: Awaits::Word,
            depth: DEPTH,
            has_depth: false,
            explains: false,
            is_json: false,
            is_dot: false,
            color: None,
            is_check: false,
            asks: false,
            title: None,
            has_input: false,
            fronts: Vec::new(alloc),
            texts: Vec::new(alloc),
        }
    }

    /// Fails if an argument cannot name a file. Standard input is read at most once.
    fn take_name(&mut self, word: &str) -> Result<(), Mistake<'w>> {
        if word.is_empty() {
            return Err(Mistake::EmptyName);
        }
        if word == "-" {
            if self.has_input {
                return Err(Mistake::InputTwice);
            }
            self.has_input = true;
        }
        Ok(())
    }

    /// Reads the depth limit, before all files, or a file.
    fn take_operand(&mut self, word: &'w str) -> Result<(), Refusal<'w>> {
        self.take_name(word)?;
        if !self.has_depth && self.texts.is_empty() && is_number(word) {
            let Some(depth) = parse_depth(word.as_bytes()) else {
                return Err(Refusal::Mistake(Mistake::NoDepth(word)));
            };
            self.depth = depth;
            self.has_depth = true;
            return Ok(());
        }
        self.texts.push(word).map_err(AllocError::from)?;
        Ok(())
    }

    /// Reads the value of an option.
    fn take_value(&mut self, option: Valued, word: &'w str) -> Result<(), Refusal<'w>> {
        match (option, word) {
            (Valued::Color, "auto") => self.color = Some(ColorConfig::Auto),
            (Valued::Color, "always") => self.color = Some(ColorConfig::Always),
            (Valued::Color, "never") => self.color = Some(ColorConfig::Never),
            (Valued::Color, _) => return Err(Refusal::Mistake(Mistake::NoColor(word))),
            (Valued::File, _) => self.title = Some(word),
            (Valued::Proof, "dot") => {
                self.is_dot = true;
                self.explains = true;
            }
            (Valued::Proof, _) => return Err(Refusal::Mistake(Mistake::NoPicture(word))),
            (Valued::With, _) => {
                self.take_name(word)?;
                self.fronts.push(word).map_err(AllocError::from)?;
            }
        }
        Ok(())
    }

    /// Reads an argument that is no value of an option.
    fn take_word(&mut self, word: &'w str) -> Result<Next, Refusal<'w>> {
        if let Some((name, value)) = word.split_once('=') {
            if let Some(option) = Valued::of_name(name) {
                self.take_value(option, value)?;
                return Ok(Next::More);
            }
        }
        if let Some(option) = Valued::of_name(word) {
            self.awaits = Awaits::Value(option);
            return Ok(Next::More);
        }
        match word {
            "--help" | "-h" => return Ok(Next::Help),
            "--version" | "-V" => return Ok(Next::Version),
            "--explain" => self.explains = true,
            "--json" => self.is_json = true,
            "--check" => self.is_check = true,
            "--ask" => self.asks = true,
            "--" => self.awaits = Awaits::File,
            _ => {
                if word.len() > 1 && word.as_bytes().starts_with(b"-") {
                    return Err(Refusal::Mistake(Mistake::NoOption(word)));
                }
                self.take_operand(word)?;
            }
        }
        Ok(Next::More)
    }

    /// Reads the next argument.
    fn take(&mut self, word: &'w str) -> Result<Next, Refusal<'w>> {
        match self.awaits {
            Awaits::Word => self.take_word(word),
            Awaits::Value(option) => {
                self.awaits = Awaits::Word;
                self.take_value(option, word)?;
                Ok(Next::More)
            }
            Awaits::File => {
                self.take_name(word)?;
                self.texts.push(word).map_err(AllocError::from)?;
                Ok(Next::More)
            }
        }
    }

    /// In which form answers are given.
    fn how(&self) -> How {
        if self.is_dot {
            How::Dot
        } else if self.is_json {
            How::Json
        } else if self.explains {
            How::Explained
        } else {
            How::Plain
        }
    }

    /// Fails if options do not go together.
    fn judge_options(&self) -> Result<(), Mistake<'w>> {
        if let Awaits::Value(option) = self.awaits {
            return Err(Mistake::NeedsValue(option.name()));
        }
        if !self.explains && self.is_json {
            return Err(Mistake::NeedsExplain("--json"));
        }
        if !self.explains && self.color.is_some() {
            return Err(Mistake::NeedsExplain("--color"));
        }
        Ok(())
    }

    /// Fails if options do not go with several texts.
    fn judge_count(&self) -> Result<(), Mistake<'w>> {
        let count = self.texts.len();
        if count <= 1 {
            return Ok(());
        }
        if self.is_dot {
            return Err(Mistake::OneText("--proof", count));
        }
        if self.is_json {
            return Err(Mistake::OneText("--json", count));
        }
        if self.title.is_some() {
            return Err(Mistake::OneTitle(count));
        }
        Ok(())
    }

    /// Takes the crate of `--ask`, which comes after its text.
    fn take_asked(&mut self) -> Result<Asked<'w>, Mistake<'w>>
        ensures { OnOk result (1 ≤ length self.new.texts.items) }
    {
        if self.is_dot || self.is_check {
            return Err(Mistake::AskWhole);
        }
        if self.has_input {
            return Err(Mistake::AskInput);
        }
        match self.texts.len() {
            0 => Err(Mistake::AskNothing),
            1 => Ok(Asked::Lines(None)),
            2 => Ok(Asked::Lines(self.texts.pop())),
            count => Err(Mistake::AskMany(count)),
        }
    }

    /// Without a file the text is on standard input. `at_terminal` says that nobody sends one there.
    fn take_texts(&mut self, at_terminal: bool) -> Result<Asked<'w>, Refusal<'w>>
        ensures { OnOk result (1 ≤ length self.new.texts.items) }
    {
        self.judge_count()?;
        if self.texts.is_empty() {
            if at_terminal {
                return Err(Refusal::Mistake(Mistake::NoText));
            }
            self.take_name("-")?;
            self.texts.push("-").map_err(AllocError::from)?;
        }
        Ok(if self.is_check {
            Asked::Checks
        } else {
            Asked::Texts
        })
    }

    /// What all arguments together ask for.
    fn ended(mut self, at_terminal: bool) -> Result<Request<'w>, Refusal<'w>> {
        self.judge_options()?;
        let asked = if self.asks {
            self.take_asked()?
        } else {
            self.take_texts(at_terminal)?
        };
        let how = self.how();
        let Reading {
            awaits: _,
            depth,
            has_depth: _,
            explains: _,
            is_json: _,
            is_dot: _,
            color,
            is_check: _,
            asks: _,
            title,
            has_input: _,
            fronts,
            texts,
        } = self;
        Ok(Request {
            depth,
            how,
            color: color.unwrap_or(ColorConfig::Auto),
            asked,
            title,
            fronts,
            texts,
        })
    }
}

/// What the arguments after the program's name ask for. `at_terminal` says whether standard input is a terminal: then a call without
/// arguments has no text.
pub fn read_words<'w>(
    alloc: Global,
    words: &'w [String],
    at_terminal: bool,
) -> Result<Command<'w>, Refusal<'w>> {
    let mut reading = Reading::new(alloc);
    for word in words {
        match reading.take(word.as_str())? {
            Next::More => {}
            Next::Help => return Ok(Command::Help),
            Next::Version => return Ok(Command::Version),
        }
    }
    let request = reading.ended(words.is_empty() && at_terminal)?;
    Ok(Command::Answer(request))
}
