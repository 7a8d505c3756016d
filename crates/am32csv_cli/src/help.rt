//! The program's help, laid out by clap.
use clap::Command;
use command_line::{help_file, help_flag, help_help, help_option, help_version};
use std::alloc::{AllocError, Global};

const STATUSES: &str = "\
Each option at most once, as --name value or --name=value.

Exit status: 0 done, 1 a row of the capture can't be read, 2 usage, 3 read fault, 4 write fault, 5 no memory.
What was written before a fault stands. Captures are described in docs/CAPTURE.md, traces in docs/TRACE.md.";

/// The whole help.
pub fn help_text(alloc: Global) -> Result<String, AllocError> {
    Command::new(alloc, "am32csv")
        .about("Reads a logic analyser's CSV and writes its trace on standard output.")
        .disable_help_flag(true)
        .disable_version_flag(true)
        .arg(help_option(
            alloc,
            "rate",
            "HERTZ",
            "The times are numbers of samples at this rate, 1 to 4294967295; else they are seconds",
        ))?
        .arg(help_option(
            alloc,
            "time",
            "COLUMN",
            "The column of the times, from 1; 0 numbers the rows; else 1",
        ))?
        .arg(help_option(
            alloc,
            "level",
            "COLUMN",
            "The column of the level, from 1; else 2",
        ))?
        .arg(help_flag(
            alloc,
            "drop-replies",
            "Leaves the controller's own replies out of a bidirectional capture",
        ))?
        .arg(help_file(alloc, "The capture; - or nothing is standard input"))?
        .arg(help_help(alloc))?
        .arg(help_version(alloc))?
        .after_help(STATUSES)
        .render_help()
}

/// What is said behind a usage error.
pub const USAGE: &str = "\
usage: am32csv [--rate HERTZ] [--time COLUMN] [--level COLUMN] [--drop-replies] [FILE]
am32csv --help says more.
";
