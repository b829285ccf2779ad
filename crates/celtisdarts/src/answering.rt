//! The answers to texts, one after the other.

ghost use Rattle.std.specs.Prelude.{◌≡◌, ℕ, List, false, true, IfOk};
ghost use Rattle.coherence.specs.Promised.Told.{IsToldText, TellsAll};

use crate::asking::answer_lines;
use crate::ending::{DONE, Ending, Failure, worse};
use crate::printed::Kept;
use crate::reasons::answer_kept;
use crate::saying::{say, say_of, say_unread, say_unwritten, say_why};
use crate::texts::Whole;
use coherence::{Limits, RunFault, Status, run};
use command_line::{Asked, ColorConfig, Expectations, How, Input, Output, Request, Unread};
use explain_texts::explain_diagnostics::own_line;
use std::alloc::Global;
use std::env;
use std::fs::File;
use std::io::{IsTerminal, Read, Stdout, Write};

/// How many handles of each kind a session holds at most.
const HANDLES: u32 = 16_777_216;

/// How each text of a call is answered.
#[derive(Clone, Copy)]
pub(crate) struct Call<'w> {
    pub request: &'w Request<'w>,
    limits: Limits,
    has_colors: bool,
    /// The files in front of each text.
    fronts: &'w Whole<'w>,
}

impl<'w> Call<'w> {
    /// A text that is kept in memory, as the call asks for it.
    pub(crate) fn kept(self, whole: &'w Whole<'w>) -> Kept<'w> {
        Kept {
            text: &whole.text,
            parts: &whole.parts,
            limits: self.limits,
            how: self.request.how,
            has_colors: self.has_colors,
            is_asked: false,
        }
    }

    fn is_check(self) -> bool
        ensures { result ≡ true → self.entry.request.now.asked ≡ Asked.Checks }
    {
        matches!(self.request.asked, Asked::Checks)
    }

    /// Whether lines alone are asked for.
    fn is_plain(self) -> bool {
        self.request.how == How::Plain && !self.is_check()
    }
}

/// Whether the environment allows colours on a terminal.
fn allows_colors(rt: &HostRuntime) -> bool {
    let is_forbidden = match env::var(rt, "NO_COLOR") {
        Ok(value) => !value.is_empty(),
        Err(_) => false,
    };
    if is_forbidden {
        return false;
    }
    match env::var(rt, "TERM") {
        Ok(value) => !value.is_empty() && value.as_str() != "dumb",
        Err(_) => false,
    }
}

/// Whether explanations have colours.
fn has_colors(rt: &HostRuntime, request: &Request<'_>) -> bool {
    match request.color {
        ColorConfig::Always => true,
        ColorConfig::Never => false,
        ColorConfig::Auto => rt.stdout().is_terminal() && allows_colors(rt),
    }
}

/// Answers a text with its lines alone: each is written when it is ready.
fn answer_plain<W: Write>(alloc: Global, writer: &mut W, kept: Kept<'_>) -> Result<Ending, RunFault>
    ensures told { IfOk result
        (λ ending. TellsAll kept.entry.limits.depth kept.entry.text.now ending.status (W.contents writer.old) (W.contents writer.new)) }
    ensures refused { IfOk result (λ ending. ending.is_refused ≡ false) }
{
    let mut reader = kept.text;
    let status = run(alloc, &mut reader, writer, kept.limits)?;
    Ok(Ending {
        status,
        is_refused: false,
    })
}

/// Says what is not as a text expects it, by the lines of its files. Returns whether something is.
fn report<E: Write>(errors: &mut E, kept: Kept<'_>, lines: &[u8]) -> bool {
    let mut expectations = Expectations::new(kept.text, lines);
    for _line in 0..kept.text.len().saturating_add(1) {
        let Some((line, surprise)) = expectations.next() else {
            break;
        };
        let own = own_line(kept.parts, u32::try_from(line).unwrap_or(u32::MAX));
        let name = command_line::Shown(own.name);
        let number = own.number;
        let _said = writeln!(errors, "{name}:{number}: {surprise}");
    }
    expectations.is_refused
}

/// Answers a text, as the call asks for it. With files in front of it, the line of a fault is that of its file.
fn answer_text<W: Write, E: Write>(
    alloc: Global,
    call: Call<'_>,
    kept: Kept<'_>,
    writer: &mut W,
    errors: &mut E,
) -> Result<Ending, RunFault>
    ensures status { IfOk result
        (λ ending. (lines : List ℕ) × IsToldText kept.entry.limits.depth kept.entry.text.now ending.status lines) }
    ensures refused { IfOk result
        (λ ending. ending.is_refused ≡ true → (call.entry.request.now.asked ≡ Asked.Checks) × (ending.status ≡ Status.Done)) }
{
    if call.is_plain() && kept.parts.len() == 1 {
        return answer_plain(alloc, writer, kept);
    }
    let mut lines = Vec::new(alloc);
    let status = answer_kept(alloc, writer, kept, &mut lines)?;
    let is_refused = call.is_check() && status == Status::Done && report(errors, kept, &lines);
    Ok(Ending { status, is_refused })
}

/// Says what is to be said of an answer.
fn say_ended<W: Write>(
    rt: &HostRuntime,
    call: Call<'_>,
    name: &str,
    text: &[u8],
    output: &Output<W>,
    ended: Result<Ending, RunFault>,
) {
    match ended {
        Err(fault) => say_why(rt, name, fault, output.failure),
        Ok(ending) => {
            if ending.status == Status::TextFault {
                if text.contains(&0) {
                    say_of(rt, name, "is no text: it has a byte 0");
                } else if call.is_plain() {
                    say_of(rt, name, "--explain has the reason");
                }
            }
        }
    }
}

/// Says that a text is read from a terminal, if it is.
fn say_typed(rt: &HostRuntime) {
    if rt.stdin().is_terminal() {
        say(
            rt,
            "reading the text from the terminal, until Ctrl-D on a line by itself",
        );
    }
}

/// Appends what a reader gives to a text, and says why if that fails.
fn push_read<'w, R: Read>(
    rt: &HostRuntime,
    whole: &mut Whole<'w>,
    name: &str,
    title: &'w str,
    reader: R,
) -> Result<(), Failure>
where
    R: Drop,
{
    let mut input = Input::new(reader);
    match whole.push(rt.alloc(), title, &mut input) {
        Ok(()) => Ok(()),
        Err(fault) => {
            let reason = match fault {
                RunFault::Read => input.failure.unwrap_or(Unread::Other),
                _ => Unread::Memory,
            };
            say_unread(rt, name, reason);
            Err(Failure::Run(fault))
        }
    }
}

/// Appends the file of this name to a text, under a title. `-` is standard input.
fn push_named<'w>(
    rt: &HostRuntime,
    whole: &mut Whole<'w>,
    name: &str,
    title: &'w str,
) -> Result<(), Failure> {
    if name == "-" {
        say_typed(rt);
        return push_read(rt, whole, name, title, rt.stdin());
    }
    match File::open(rt, name) {
        Ok(file) => push_read(rt, whole, name, title, file),
        Err(error) => {
            say_unread(rt, name, Unread::of_error(&error));
            Err(Failure::Run(RunFault::Read))
        }
    }
}

/// The files in front of each text.
fn read_fronts<'w>(rt: &HostRuntime, request: &Request<'w>) -> Result<Whole<'w>, Failure> {
    let mut fronts = Whole::new(rt.alloc());
    for name in &request.fronts {
        push_named(rt, &mut fronts, *name, *name)?;
    }
    Ok(fronts)
}

/// The text of this name, after the files in front of it. `-` is standard input.
fn read_whole<'w>(rt: &HostRuntime, call: Call<'w>, name: &'w str) -> Result<Whole<'w>, Failure> {
    let Ok(mut whole) = call.fronts.copied(rt.alloc()) else {
        say_unread(rt, name, Unread::Memory);
        return Err(Failure::Run(RunFault::Memory));
    };
    push_named(rt, &mut whole, name, call.request.title.unwrap_or(name))?;
    Ok(whole)
}

/// Answers the text of this name, and says why if there is no whole answer.
fn answer_named(
    rt: &HostRuntime,
    call: Call<'_>,
    name: &str,
    output: &mut Output<Stdout>,
) -> Result<Ending, Failure> {
    let whole = read_whole(rt, call, name)?;
    let kept = call.kept(&whole);
    let ended = answer_text(rt.alloc(), call, kept, output, &mut rt.stderr());
    say_ended(rt, call, name, kept.text, output, ended);
    ended.map_err(Failure::Run)
}

/// Answers a text, below its name if there are several.
fn answer_headed(
    rt: &HostRuntime,
    call: Call<'_>,
    name: &str,
    output: &mut Output<Stdout>,
) -> Result<Ending, Failure> {
    if call.request.texts.len() > 1 {
        let heading = command_line::Shown(name);
        if writeln!(output, "== {heading}").is_err() {
            say_unwritten(rt, output.failure);
            return Err(Failure::Run(RunFault::Write));
        }
    }
    answer_named(rt, call, name, output)
}

/// Answers each text. After an output that failed nothing more is answered.
fn answer_all(rt: &HostRuntime, call: Call<'_>) -> Result<Ending, Failure> {
    let mut output = Output::new(rt.stdout());
    let mut worst = Ok(DONE);
    for name in &call.request.texts {
        let ended = answer_headed(rt, call, *name, &mut output);
        worst = worse(worst, ended);
        if let Err(Failure::Run(RunFault::Write)) = ended {
            break;
        }
    }
    worst
}

/// Answers lines of standard input after the text of this name.
fn answer_after(
    rt: &HostRuntime,
    call: Call<'_>,
    name: &str,
    asker: Option<&str>,
) -> Result<Ending, Failure> {
    let mut whole = read_whole(rt, call, name)?;
    if whole.end_line().is_err() {
        say_unread(rt, name, Unread::Memory);
        return Err(Failure::Run(RunFault::Memory));
    }
    let kept = call.kept(&whole);
    answer_lines(rt, kept, name, asker)
}

/// Answers lines of standard input after the one text.
fn answer_asked(rt: &HostRuntime, call: Call<'_>, asker: Option<&str>) -> Result<Ending, Failure> {
    match call.request.texts.first() {
        Some(name) => answer_after(rt, call, *name, asker),
        None => Err(Failure::Words),
    }
}

/// Answers what a request names.
pub fn answer_request(rt: &HostRuntime, request: &Request<'_>) -> Result<Ending, Failure> {
    let Some(limits) = Limits::new(request.depth, HANDLES) else {
        return Err(Failure::Words);
    };
    let fronts = read_fronts(rt, request)?;
    let call = Call {
        request,
        limits,
        has_colors: has_colors(rt, request),
        fronts: &fronts,
    };
    match request.asked {
        Asked::Texts | Asked::Checks => answer_all(rt, call),
        Asked::Lines(asker) => answer_asked(rt, call, asker),
    }
}
