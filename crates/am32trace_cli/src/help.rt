//! The program's help, laid out by clap.
use clap::Command;
use command_line::{help_file, help_help, help_version};
use std::alloc::{AllocError, Global};

const STATUSES: &str = "\
Exit status: 0 done, 1 a line of the script can't be followed, 2 usage, 3 read fault, 4 write fault, 5 no memory.
What was written before a fault stands. Scripts are described in docs/SCRIPT.md, traces in docs/TRACE.md.";

/// The whole help.
pub fn help_text(alloc: Global) -> Result<String, AllocError> {
    Command::new(alloc, "am32trace")
        .about("Reads the script of a flight and writes its trace on standard output.")
        .disable_help_flag(true)
        .disable_version_flag(true)
        .arg(help_file(alloc, "The script; - or nothing is standard input"))?
        .arg(help_help(alloc))?
        .arg(help_version(alloc))?
        .after_help(STATUSES)
        .render_help()
}

/// What is said behind a usage error.
pub const USAGE: &str = "\
usage: am32trace [FILE]
am32trace --help says more.
";
