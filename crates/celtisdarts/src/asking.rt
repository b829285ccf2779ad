//! The answers to lines of standard input, each at once, as if it followed the text.

use crate::ending::{DONE, Ending, Failure};
use crate::printed::Kept;
use crate::reasons::answer_kept;
use crate::saying::{say_of, say_unwritten};
use coherence::{RunFault, Status};
use command_line::{How, Output, query_of};
use std::alloc::{AllocError, Global};
use std::io;
use std::io::{BufRead, IsTerminal, Lock, Write};

/// What can be asked.
const FORMS: &str =
    "prove in CRATE TYPE: TRAIT     whether the crate sees a proof: yes, maybe or unproved; `?x` in TYPE and TRAIT is a variable
.. TYPE: TRAIT, TYPE: TRAIT      several at once, with the same values for their variables
.. <T> T: TRAIT where T: OTHER   with parameters behind the crate's name, and with where-clauses
refute in CRATE TYPE: TRAIT    whether no crate that may be linked can give one: no or open
";

/// The last of the forms.
const LAST_FORM: &str =
    "// ..                          a comment; `?` lists this, and Ctrl-D ends\n";

/// Why a line has no answer if a run stopped.
const NO_ANSWER: &str = "no answer: memory or a table ran out";

/// The text that is asked, and the crate for a bound alone.
#[derive(Clone, Copy)]
struct Asking<'a> {
    alloc: Global,
    text: Kept<'a>,
    asker: Option<&'a str>,
}

impl Asking<'_> {
    /// Writes why a line has no answer.
    fn write_unanswered<W: Write>(self, writer: &mut W, message: &str) -> io::Result<()> {
        if self.text.how == How::Json {
            return writeln!(
                writer,
                "{{\"$message_type\":\"unanswered\",\"answer\":\"\",\"message\":\"{message}\",\"parts\":{{\"answered\":\"nothing\"}}}}"
            );
        }
        writeln!(writer, "{message}")
    }

    fn write_forms<W: Write>(self, writer: &mut W) -> io::Result<()> {
        writer.write_all(FORMS.as_bytes())?;
        if let Some(name) = self.asker {
            writeln!(
                writer,
                "prove .., refute .., or TYPE: TRAIT alone: in the crate {name}"
            )?;
        }
        writer.write_all(LAST_FORM.as_bytes())
    }

    /// Answers a query after the text.
    fn answer<W: Write>(self, writer: &mut W, query: &[u8]) -> Result<Status, RunFault> {
        let mut text = Vec::from_slice(self.alloc, self.text.text)?;
        text.extend_from_slice(query)?;
        text.push(b'\n').map_err(AllocError::from)?;
        let kept = Kept {
            text: &text,
            is_asked: true,
            ..self.text
        };
        let mut lines = Vec::new(self.alloc);
        answer_kept(self.alloc, writer, kept, &mut lines)
    }

    /// Answers a line. An empty line and a comment have no answer.
    fn answer_line<W: Write>(self, writer: &mut W, line: &[u8]) -> io::Result<()> {
        let words = line.trim_ascii();
        if words.is_empty() || words.starts_with(b"//") {
            return Ok(());
        }
        if words == b"?".as_slice() && self.text.how != How::Json {
            return self.write_forms(writer);
        }
        let answered = match query_of(self.alloc, line, self.asker) {
            Ok(Some(query)) => self.answer(writer, &query),
            Ok(None) => return self.write_unanswered(writer, "asks nothing"),
            Err(_) => Err(RunFault::Memory),
        };
        match answered {
            Ok(_) => Ok(()),
            Err(RunFault::Write) => Err(io::Error::from(io::ErrorKind::WriteZero)),
            Err(_) => self.write_unanswered(writer, NO_ANSWER),
        }
    }

    /// Reads lines and answers them, until they end, each after a prompt.
    fn answer_all<R: BufRead, W: Write>(
        self,
        reader: &mut R,
        writer: &mut W,
        prompt: &str,
    ) -> io::Result<()> {
        for _line in 0..u64::MAX {
            writer.write_all(prompt.as_bytes())?;
            let mut line = Vec::new(self.alloc);
            if reader.read_until(b'\n', &mut line)? == 0 {
                break;
            }
            if line.last() == Some(&b'\n') {
                let _end = line.pop();
            }
            self.answer_line(writer, &line)?;
        }
        if prompt.is_empty() {
            Ok(())
        } else {
            writer.write_all(b"\n")
        }
    }
}

/// Whether a text can be asked. If it has a fault, that is written.
fn answer_first<W: Write>(
    alloc: Global,
    writer: &mut W,
    text: Kept<'_>,
) -> Result<Status, RunFault> {
    let mut told = Vec::new(alloc);
    let mut lines = Vec::new(alloc);
    let status = answer_kept(alloc, &mut told, text, &mut lines)?;
    if status == Status::TextFault && writer.write_all(&told).is_err() {
        return Err(RunFault::Write);
    }
    Ok(status)
}

/// Answers the lines of standard input after a text, whose file has this name, for a crate if one is named.
pub(crate) fn answer_lines(
    rt: &HostRuntime,
    text: Kept<'_>,
    name: &str,
    asker: Option<&str>,
) -> Result<Ending, Failure> {
    let mut output = Output::new(rt.stdout());
    match answer_first(rt.alloc(), &mut output, text) {
        Ok(Status::Done) => {}
        Ok(status) => {
            if text.how == How::Plain {
                say_of(rt, name, "--explain has the reason");
            }
            return Ok(Ending {
                status,
                is_refused: false,
            });
        }
        Err(RunFault::Write) => {
            say_unwritten(rt, output.failure);
            return Err(Failure::Run(RunFault::Write));
        }
        Err(fault) => {
            say_of(rt, name, NO_ANSWER);
            return Err(Failure::Run(fault));
        }
    }
    let asking = Asking {
        alloc: rt.alloc(),
        text,
        asker,
    };
    let is_typed = rt.stdin().is_terminal() && rt.stdout().is_terminal();
    let (greeting, prompt) = if is_typed {
        ("`?` lists what can be asked, and Ctrl-D ends.\n", "> ")
    } else {
        ("", "")
    };
    let mut reader = rt.stdin().lock();
    let mut asked = output.write_all(greeting.as_bytes());
    if asked.is_ok() {
        asked = asking.answer_all(&mut reader, &mut output, prompt);
    }
    match asked {
        Ok(()) => Ok(DONE),
        Err(_) => {
            say_unwritten(rt, output.failure);
            Err(Failure::Run(RunFault::Write))
        }
    }
}
