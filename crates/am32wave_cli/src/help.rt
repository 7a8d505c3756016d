//! The program's help, laid out by clap.
use clap::Command;
use command_line::{help_file, help_flag, help_help, help_option, help_version};
use std::alloc::{AllocError, Global};

const STATUSES: &str = "\
Each option at most once, as --name value or --name=value.

Exit status: 0 done, 1 a faulty line of the journal or the trace, 2 usage, 3 read fault, 4 write fault, 5 no memory.
Journals are described in docs/JOURNAL.md, traces in docs/TRACE.md, and what is written in docs/WAVE.md.";

/// The form that is written, and the stretch of the run.
fn forms<'a>(alloc: Global, command: Command<'a>) -> Result<Command<'a>, AllocError> {
    command
        .arg(help_option(
            alloc,
            "trace",
            "FILE",
            "Shows the signal line and the comparator of the journal's trace too",
        ))?
        .arg(help_flag(alloc, "html", "Writes a page for a browser instead"))?
        .arg(help_flag(
            alloc,
            "svg",
            "Writes a still picture instead, of a stretch with an end",
        ))?
        .arg(help_option(
            alloc,
            "from",
            "TIME",
            "Shows the run from this time on: a number and us, ms or s, or ticks as 1200t",
        ))?
        .arg(help_option(
            alloc,
            "to",
            "TIME",
            "Shows the run to this time and not further",
        ))?
        .arg(help_flag(
            alloc,
            "explain",
            "Writes the journal in words instead, with a summary at the end",
        ))
}

/// The whole help.
pub fn help_text(alloc: Global) -> Result<String, AllocError> {
    let command = Command::new(alloc, "am32wave")
        .about("Reads a journal and writes it as a value change dump (VCD) on standard output.")
        .disable_help_flag(true)
        .disable_version_flag(true);
    forms(alloc, command)?
        .arg(help_file(alloc, "The journal; - or nothing is standard input"))?
        .arg(help_help(alloc))?
        .arg(help_version(alloc))?
        .after_help(STATUSES)
        .render_help()
}

/// What is said behind a usage error.
pub const USAGE: &str = "\
usage: am32wave [--html] [--trace FILE] [--from TIME] [--to TIME] [FILE]
       am32wave --svg [--trace FILE] [--from TIME] --to TIME [FILE]
       am32wave --explain [FILE]
am32wave --help says more.
";
