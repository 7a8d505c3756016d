//! What a program says beside what it makes: answers to calls for help, and hints.
use crate::input::{Noticed, Unopened};
use crate::line::Misuse;
use crate::{VERSION, trace_hint};
use std::alloc::AllocError;
use std::io;
use trace_text::Refusal;

/// What came of an answer.
#[derive(Clone, Copy, Drop)]
pub enum Told {
    Written,
    NotWritten,
    /// Memory was refused.
    NoMemory,
}

fn outcome(written: io::Result<()>) -> Told {
    match written {
        Ok(()) => Told::Written,
        Err(_) => Told::NotWritten,
    }
}

/// Writes a program's help on standard output.
pub fn tell_help(rt: &HostRuntime, help: Result<String, AllocError>) -> Told {
    match help {
        Ok(text) => outcome(rt.print(text.as_str())),
        Err(_) => Told::NoMemory,
    }
}

/// Writes a program's name and version on standard output.
pub fn tell_version(rt: &HostRuntime, name: &str) -> Told {
    outcome(println!(rt; "{name} {VERSION}"))
}

/// A hint on standard error, behind the line that says how the program ended.
pub fn hint(rt: &HostRuntime, text: &str) {
    let _ = eprintln!(rt; "  hint: {text}");
}

/// Names the word that nothing takes, and shows the usage.
pub fn hint_misuse(rt: &HostRuntime, misuse: &Misuse, usage: &str) {
    let (word, expected) = (misuse.word, misuse.expected);
    let _ = match misuse.found {
        Some("") => eprintln!(rt; "  hint: {word}: expected {expected}, found nothing"),
        Some(found) => eprintln!(rt; "  hint: {word}: expected {expected}, found {found}"),
        None => eprintln!(rt; "  hint: {word}: expected {expected}"),
    };
    let _ = rt.eprint(usage);
}

/// Names the file that isn't opened, and the cause.
pub fn hint_unopened(rt: &HostRuntime, path: &str, cause: &Unopened) {
    let cause = cause.text();
    let _ = eprintln!(rt; "  hint: {path}: {cause}");
}

/// What a trace's line should have been, or how the whole input is mended.
pub fn hint_refused(rt: &HostRuntime, kind: Refusal, noticed: &Noticed) {
    hint(rt, noticed.cure().unwrap_or(trace_hint(kind)));
}
