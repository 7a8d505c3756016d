//! The program `am32trace`: the script of a flight, as a trace for `am32sim`.
#![tactic(auto)]

mod help;

use am32trace::{ScriptWords, Status, trace_main};
use command_line::{
    Answer, FileSource, NoWords, Noticed, Told, Unread, answer_to, hint, hint_misuse,
    hint_unopened, open, read_line, tell_help, tell_version, words_of,
};
use esc_base::{OutSink, Source};
use help::{USAGE, help_text};
use std::cell::Cell;
use std::io;
use std::process::ExitCode;
use trace_tools::PipeEnd;

/// Says on standard error how the program ended.
fn tell(rt: &HostRuntime, status: &Status) {
    let _ = match status {
        Status::Done => Ok(()),
        Status::Refused { line, expected } => {
            let text = expected.text();
            eprintln!(rt; "am32trace: line {line}: expected {text}")
        }
        Status::Usage => eprintln!(rt; "am32trace: usage"),
        Status::ReadFault => eprintln!(rt; "am32trace: read fault"),
        Status::WriteFault => eprintln!(rt; "am32trace: write fault"),
        Status::NoMemory => eprintln!(rt; "am32trace: no memory"),
    };
}

fn ended(rt: &HostRuntime, status: Status) -> Status {
    tell(rt, &status);
    status
}

/// Writes the trace of the script that the source gives.
fn write_trace<S: Source>(rt: &HostRuntime, src: &mut S) -> Status {
    let is_gone = Cell::new(false);
    let mut out = OutSink::new(PipeEnd::new(io::writer(rt), &is_gone));
    let mut status = trace_main(&ScriptWords {}, src, &mut out);
    if out.flush().is_err() {
        status = Status::WriteFault;
    }
    // Where the reader has gone there is nothing to complain about; the exit status tells it all the same.
    if status != Status::WriteFault || !is_gone.get() {
        tell(rt, &status);
    }
    status
}

/// The trace of the script in a file, or on standard input.
fn trace(rt: &HostRuntime, path: Option<&str>) -> Status {
    let noticed = Cell::new(Noticed::nothing());
    let input = match open(rt, path, &noticed) {
        Ok(input) => input,
        Err(cause) => {
            let status = ended(rt, Status::ReadFault);
            hint_unopened(rt, path.unwrap_or("-"), &cause);
            return status;
        }
    };
    let status = write_trace(rt, &mut FileSource::new(input));
    if let Status::Refused { line: 1, .. } = status
        && noticed.get().has_mark
        && let Some(cure) = noticed.get().cure()
    {
        hint(rt, cure);
    }
    status
}

fn ended_by(told: Told) -> Status {
    match told {
        Told::Written => Status::Done,
        Told::NotWritten => Status::WriteFault,
        Told::NoMemory => Status::NoMemory,
    }
}

fn command(rt: &HostRuntime) -> Status {
    let words = match words_of(rt) {
        Ok(words) => words,
        Err(NoWords::NotText) => return ended(rt, Status::Usage),
        Err(NoWords::NoMemory) => return ended(rt, Status::NoMemory),
    };
    match answer_to(words.as_slice()) {
        Some(Answer::Help) => return ended_by(tell_help(rt, help_text(rt.alloc()))),
        Some(Answer::Version) => return ended_by(tell_version(rt, "am32trace")),
        None => {}
    }
    match read_line(rt.alloc(), words.as_slice(), &[]) {
        Ok(line) => trace(rt, line.operand().map(|operand| operand.word)),
        Err(Unread::Misused(misuse)) => {
            let status = ended(rt, Status::Usage);
            hint_misuse(rt, &misuse, USAGE);
            status
        }
        Err(Unread::NoMemory) => ended(rt, Status::NoMemory),
    }
}

fn main(rt: HostRuntime) -> ExitCode {
    ExitCode::from(command(&rt).exit_number())
}
