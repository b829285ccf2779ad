//! Messages on standard error.

use coherence::RunFault;
use command_line::{Shown, Unread, Unwritten};

/// Says a sentence.
pub fn say(rt: &HostRuntime, text: &str) {
    let _said = eprintln!(rt; "celtisdarts: {text}");
}

/// The name of a file in messages.
fn label_of(name: &str) -> Shown<'_> {
    Shown(if name == "-" { "standard input" } else { name })
}

/// Says something of a file.
pub fn say_of(rt: &HostRuntime, name: &str, text: &str) {
    let label = label_of(name);
    let _said = eprintln!(rt; "celtisdarts: {label}: {text}");
}

/// Says why a file cannot be read.
pub fn say_unread(rt: &HostRuntime, name: &str, reason: Unread) {
    let label = label_of(name);
    let is_number = name.as_bytes().iter().all(|byte| byte.is_ascii_digit());
    let hint = if is_number && reason == Unread::Missing {
        " (the depth comes before all files)"
    } else {
        ""
    };
    let _said = eprintln!(rt; "celtisdarts: {label}: {reason}{hint}");
}

/// Says that standard output failed. A pipe that nobody reads gets no message.
pub fn say_unwritten(rt: &HostRuntime, reason: Option<Unwritten>) {
    if reason != Some(Unwritten::NoReader) {
        say(rt, "standard output could not be written");
    }
}

/// Says why a text has no whole answer.
pub fn say_why(rt: &HostRuntime, name: &str, fault: RunFault, unwritten: Option<Unwritten>) {
    let label = label_of(name);
    match (fault, unwritten) {
        (RunFault::Write, Some(Unwritten::NoReader)) => {}
        (RunFault::Write, Some(Unwritten::Closed)) => {
            let _said = eprintln!(rt;
                "celtisdarts: {label}: no whole answer: standard output is closed"
            );
        }
        (RunFault::Write, _) => {
            let _said = eprintln!(rt;
                "celtisdarts: {label}: no whole answer: standard output could not be written"
            );
        }
        _ => {
            let _said = eprintln!(rt; "celtisdarts: {label}: no whole answer: {fault}");
        }
    }
}
