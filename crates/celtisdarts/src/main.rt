//! Answers texts, of files or of standard input, and explains the answers. `--help` lists its arguments.
//!
//! The exit statuses:
//!
//! - 0: the answers were written.
//! - 1: the text has a fault.
//! - 2: the arguments are wrong.
//! - 3: reading, writing or memory failed, or a table was full, before all answers were written.
//! - 4: with `--check`, some answer is not the expected one.
//!
//! Of several texts it is the greatest.
#![tactic(auto)]

mod answering;
mod asking;
mod breaking;
mod checks;
mod conflicts;
mod ending;
mod explaining;
mod lines;
mod overlaps;
mod picture;
mod places;
mod printed;
mod proofs;
mod questions;
mod reasons;
mod saying;
mod spending;
mod supertraits;
mod texts;

use crate::answering::answer_request;
use crate::ending::{DONE, Ending, Failure, exit_status};
use crate::saying::{say, say_unwritten};
use coherence::RunFault;
use command_line::{Command, HELP, Output, Refusal, read_words};
use std::alloc::{AllocError, Global};
use std::io::{IsTerminal, Write};
use std::process::ExitCode;
use std::{env, io};

/// What `--version` prints. The bindings have the same number.
const VERSION: &str = "celtisdarts 0.1.0\n";

/// The arguments that are left, in a vector.
fn keep_words(alloc: Global, args: env::Args) -> Result<Vec<String>, AllocError> {
    let mut words = Vec::new(alloc);
    for word in args {
        words.push(word)?;
    }
    Ok(words)
}

/// Says that memory was refused before any text was read.
fn refuse_memory(rt: &HostRuntime) -> Failure {
    say(rt, "out of memory");
    Failure::Run(RunFault::Memory)
}

/// The arguments after the program's name.
fn arguments(rt: &HostRuntime) -> Result<Vec<String>, Failure> {
    match env::args(rt) {
        Err(error) => {
            if error.kind() == io::ErrorKind::OutOfMemory {
                return Err(refuse_memory(rt));
            }
            say(
                rt,
                "an argument is not UTF-8 (a file with such a name can be standard input)",
            );
            Err(Failure::Words)
        }
        Ok(mut args) => {
            let _program = args.next();
            keep_words(rt.alloc(), args).map_err(|_| refuse_memory(rt))
        }
    }
}

/// Prints a text.
fn print(rt: &HostRuntime, text: &str) -> Result<Ending, Failure> {
    let mut output = Output::new(rt.stdout());
    match output.write_all(text.as_bytes()) {
        Ok(()) => Ok(DONE),
        Err(_) => {
            say_unwritten(rt, output.failure);
            Err(Failure::Run(RunFault::Write))
        }
    }
}

/// Does what the arguments ask for.
fn answer(rt: &HostRuntime) -> Result<Ending, Failure> {
    let words = arguments(rt)?;
    match read_words(rt.alloc(), &words, rt.stdin().is_terminal()) {
        Ok(Command::Help) => print(rt, HELP),
        Ok(Command::Version) => print(rt, VERSION),
        Ok(Command::Answer(request)) => answer_request(rt, &request),
        Err(Refusal::Memory) => Err(refuse_memory(rt)),
        Err(Refusal::Mistake(mistake)) => {
            let _said = eprintln!(rt; "celtisdarts: {mistake} (--help lists the options)");
            Err(Failure::Words)
        }
    }
}

fn main(rt: HostRuntime) -> ExitCode {
    ExitCode::from(exit_status(answer(&rt)))
}
