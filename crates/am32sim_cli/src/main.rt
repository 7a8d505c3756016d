//! The program `am32sim`: a motor speed controller's control core, run on a trace of outside events.
#![tactic(auto)]

mod help;
mod image;
mod misuse;

use am32sim::{Status, Words, sim_main, status_text};
use command_line::{
    Answer, CommandLine, FileSource, Misuse, NoWords, Noticed, Told, Unread, answer_to,
    hint_misuse, hint_refused, hint_unopened, open, read_line, tell_help, tell_version, words_of,
};
use esc_base::{FileFlash, OutSink, Source};
use help::{USAGE, help_text};
use image::hint_image;
use misuse::{RULES, wrong_command, wrong_option};
use std::cell::Cell;
use std::io;
use std::process::ExitCode;
use trace_runner::Room;
use trace_tools::PipeEnd;

fn ended(rt: &HostRuntime, status: Status) -> Status {
    let _ = rt.eprint(status_text(&status).as_str());
    status
}

fn misused(rt: &HostRuntime, misuse: &Misuse) -> Status {
    let status = ended(rt, Status::Usage);
    hint_misuse(rt, misuse, USAGE);
    status
}

/// The words of a command without the file's.
fn command_words(rt: &HostRuntime, words: &[String], file: Option<usize>) -> Option<Words> {
    let mut command = Words::new(rt.alloc());
    for (place, word) in words.iter().enumerate() {
        if Some(place) != file && command.push(word.as_str()).is_err() {
            return None;
        }
    }
    Some(command)
}

/// Runs a command. Where its words name no image, the flash is blank memory of its own.
fn run<S: Source>(rt: &HostRuntime, words: &Words, src: &mut S) -> Status {
    let Ok(mut flash) = FileFlash::new(rt, rt.alloc()) else {
        return ended(rt, Status::NoMemory);
    };
    let Ok(room) = Room::new(rt.alloc()) else {
        return ended(rt, Status::NoMemory);
    };
    let is_gone = Cell::new(false);
    let mut out = OutSink::new(PipeEnd::new(io::writer(rt), &is_gone));
    let mut status = sim_main(words, src, &mut out, &mut flash, room);
    if out.flush().is_err() {
        status = Status::WriteFault;
    }
    // Where the reader has gone there is nothing to complain about; the exit status tells it all the same.
    if status != Status::WriteFault || !is_gone.get() {
        let _ = rt.eprint(status_text(&status).as_str());
    }
    status
}

/// Runs a command on the trace in a file, or on standard input.
fn run_on(rt: &HostRuntime, words: &Words, line: &CommandLine) -> Status {
    let path = line.operand().map(|operand| operand.word);
    let noticed = Cell::new(Noticed::nothing());
    let input = match open(rt, path, &noticed) {
        Ok(input) => input,
        Err(cause) => {
            let status = ended(rt, Status::ReadFault);
            hint_unopened(rt, path.unwrap_or("-"), &cause);
            return status;
        }
    };
    let status = run(rt, words, &mut FileSource::new(input));
    match status {
        Status::Refused { kind, .. } => hint_refused(rt, kind, &noticed.get()),
        Status::AttachFault => hint_image(rt, line.value("--flash")),
        Status::Usage => {
            let _ = rt.eprint(USAGE);
        }
        _ => {}
    }
    status
}

fn command(rt: &HostRuntime, words: &[String]) -> Status {
    let first = words.first().map(|word| word.as_str());
    if let Some(misuse) = wrong_command(first) {
        return misused(rt, &misuse);
    }
    let line = match read_line(rt.alloc(), words.get(1..).unwrap_or(&[]), &RULES) {
        Ok(line) => line,
        Err(Unread::Misused(misuse)) => return misused(rt, &misuse),
        Err(Unread::NoMemory) => return ended(rt, Status::NoMemory),
    };
    if let Some(misuse) = wrong_option(first, &line) {
        return misused(rt, &misuse);
    }
    let file = line
        .operand()
        .map(|operand| operand.place.saturating_add(1));
    match command_words(rt, words, file) {
        Some(command) => run_on(rt, &command, &line),
        None => ended(rt, Status::NoMemory),
    }
}

fn ended_by(told: Told) -> Status {
    match told {
        Told::Written => Status::Done,
        Told::NotWritten => Status::WriteFault,
        Told::NoMemory => Status::NoMemory,
    }
}

fn answer(rt: &HostRuntime) -> Status {
    let words = match words_of(rt) {
        Ok(words) => words,
        Err(NoWords::NotText) => return ended(rt, Status::Usage),
        Err(NoWords::NoMemory) => return ended(rt, Status::NoMemory),
    };
    match answer_to(words.as_slice()) {
        Some(Answer::Help) => ended_by(tell_help(rt, help_text(rt.alloc()))),
        Some(Answer::Version) => ended_by(tell_version(rt, "am32sim")),
        None => command(rt, words.as_slice()),
    }
}

fn main(rt: HostRuntime) -> ExitCode {
    ExitCode::from(answer(&rt).exit_number())
}
