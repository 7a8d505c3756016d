//! The program `am32wave`: a journal of `am32sim` as a wave, a page, a still picture, or in words.
#![tactic(auto)]

mod help;
mod options;

use am32wave::{Refusal, Status, Stretch, View, status_text, traced_main, wave_main};
use command_line::{
    Answer, FileSource, Misuse, NoWords, Noticed, Told, Unopened, Unread, answer_to, hint,
    hint_misuse, hint_refused, hint_unopened, open, read_line, tell_help, tell_version, words_of,
};
use esc_base::{OutSink, Sink, Source};
use help::{USAGE, help_text};
use options::{RULES, Wish, wish_of};
use std::cell::Cell;
use std::io;
use std::process::ExitCode;
use trace_tools::PipeEnd;

fn ended(rt: &HostRuntime, status: Status) -> Status {
    let _ = rt.eprint(status_text(&status).as_str());
    status
}

fn misused(rt: &HostRuntime, misuse: &Misuse) -> Status {
    let status = ended(rt, Status::Usage);
    hint_misuse(rt, misuse, USAGE);
    status
}

/// What a line of a journal should have been, or how the whole input is mended.
fn journal_hint(kind: Refusal, noticed: &Noticed) -> &'static str {
    if let Some(cure) = noticed.cure() {
        return cure;
    }
    match kind {
        Refusal::NotANote => "expected a line of a journal that am32sim wrote",
        Refusal::TimeBack => "expected a time not below that of the line before",
        Refusal::NoEnd => "expected a line feed behind the last line",
        Refusal::TooMany => "expected at most 4294967295 lines",
    }
}

/// What was noticed of the two inputs.
#[derive(Drop)]
struct Notices {
    journal: Cell<Noticed>,
    trace: Cell<Noticed>,
    /// Why the trace's file isn't opened.
    unopened: Cell<Option<Unopened>>,
}

/// A stretch of a journal and of the trace in a file.
fn show_traced<S: Source, K: Sink>(
    rt: &HostRuntime,
    path: &str,
    (view, stretch): (View, Stretch),
    notices: &Notices,
    src: &mut S,
    out: &mut K,
) -> Status {
    match open(rt, Some(path), &notices.trace) {
        Ok(trace) => traced_main(view, stretch, src, &mut FileSource::new(trace), out),
        Err(cause) => {
            notices.unopened.set(Some(cause));
            Status::TraceFault
        }
    }
}

/// Shows the journal that the source gives.
fn show<S: Source>(rt: &HostRuntime, wish: &Wish, notices: &Notices, src: &mut S) -> Status {
    let is_gone = Cell::new(false);
    let mut out = OutSink::new(PipeEnd::new(io::writer(rt), &is_gone));
    let mut status = match *wish {
        Wish::Journal(form) => wave_main(Some(form), src, &mut out),
        Wish::Traced {
            path,
            view,
            stretch,
        } => show_traced(rt, path, (view, stretch), notices, src, &mut out),
    };
    if out.flush().is_err() {
        status = Status::WriteFault;
    }
    // Where the reader has gone there is nothing to complain about; the exit status tells it all the same.
    if status != Status::WriteFault || !is_gone.get() {
        let _ = rt.eprint(status_text(&status).as_str());
    }
    status
}

/// Shows the journal in a file, or on standard input.
fn show_file(rt: &HostRuntime, wish: &Wish, path: Option<&str>) -> Status {
    let notices = Notices {
        journal: Cell::new(Noticed::nothing()),
        trace: Cell::new(Noticed::nothing()),
        unopened: Cell::new(None),
    };
    let input = match open(rt, path, &notices.journal) {
        Ok(input) => input,
        Err(cause) => {
            let status = ended(rt, Status::ReadFault);
            hint_unopened(rt, path.unwrap_or("-"), &cause);
            return status;
        }
    };
    let status = show(rt, wish, &notices, &mut FileSource::new(input));
    match status {
        Status::Refused { kind, .. } => hint(rt, journal_hint(kind, &notices.journal.get())),
        Status::TraceRefused { kind, .. } => hint_refused(rt, kind, &notices.trace.get()),
        _ => {}
    }
    if let Wish::Traced { path: trace, .. } = *wish
        && let Some(cause) = notices.unopened.get()
    {
        hint_unopened(rt, trace, &cause);
    }
    status
}

fn ended_by(told: Told) -> Status {
    match told {
        Told::Written => Status::Done,
        Told::NotWritten => Status::WriteFault,
        Told::NoMemory => Status::NoMemory,
    }
}

fn command(rt: &HostRuntime) -> Status {
    let words = match words_of(rt) {
        Ok(words) => words,
        Err(NoWords::NotText) => return ended(rt, Status::Usage),
        Err(NoWords::NoMemory) => return ended(rt, Status::NoMemory),
    };
    match answer_to(words.as_slice()) {
        Some(Answer::Help) => return ended_by(tell_help(rt, help_text(rt.alloc()))),
        Some(Answer::Version) => return ended_by(tell_version(rt, "am32wave")),
        None => {}
    }
    let line = match read_line(rt.alloc(), words.as_slice(), &RULES) {
        Ok(line) => line,
        Err(Unread::Misused(misuse)) => return misused(rt, &misuse),
        Err(Unread::NoMemory) => return ended(rt, Status::NoMemory),
    };
    match wish_of(&line) {
        Ok(wish) => show_file(rt, &wish, line.operand().map(|operand| operand.word)),
        Err(misuse) => misused(rt, &misuse),
    }
}

fn main(rt: HostRuntime) -> ExitCode {
    ExitCode::from(command(&rt).exit_number())
}
