//! How the program ends.

ghost use Rattle.std.specs.Prelude.{◌≡◌, max};
ghost use Rattle.celtisdarts.specs.ExitStatus.{exit_status};

use coherence::{RunFault, Status};

/// Why there is no output, or not all of it.
#[derive(Clone, Copy)]
pub enum Failure {
    /// The arguments are wrong.
    Words,
    /// The run stopped, or a request for memory was refused before it.
    Run(RunFault),
}

/// How the answers are.
#[derive(Clone, Copy)]
pub struct Ending {
    pub status: Status,
    /// Whether `--check` is given, and some answer is not the expected one.
    pub is_refused: bool,
}

/// All was written, and nothing is wrong with it.
pub const DONE: Ending = Ending {
    status: Status::Done,
    is_refused: false,
};

/// The exit status for how the program ended.
pub fn exit_status(ending: Result<Ending, Failure>) -> u8
    ensures { result ≡ exit_status ending }
{
    match ending {
        Ok(ending) => match ending.status {
            Status::TextFault => 1,
            Status::Done => { if ending.is_refused { 4 } else { 0 } }
        },
        Err(Failure::Words) => 2,
        Err(Failure::Run(_)) => 3,
    }
}

/// The ending of two texts: the one with the greater exit status.
pub fn worse(
    one: Result<Ending, Failure>,
    other: Result<Ending, Failure>,
) -> Result<Ending, Failure>
    ensures { exit_status result ≡ max (exit_status one) (exit_status other) }
{
    if exit_status(one) < exit_status(other) {
        other
    } else {
        one
    }
}
