//! The program's help, laid out by clap.
use clap::{Arg, Command};
use command_line::{help_file, help_help, help_option, help_version};
use std::alloc::{AllocError, Global};

const STATUSES: &str = "\
Each option at most once, as --name value or --name=value.

Exit status: 0 done, 1 a faulty line of the trace, 2 usage, 3 read fault, 4 write fault, 5 no memory, 6 flash fault.
The trace is described in docs/TRACE.md, the journal in docs/JOURNAL.md, and the image in docs/SETTINGS.md.";

fn image<'a>(alloc: Global) -> Arg<'a> {
    help_option(
        alloc,
        "flash",
        "IMAGE",
        "A file of 32768 bytes that holds the flash, 1 to 255 bytes of path; else the flash is blank memory",
    )
}

/// What the program is and what its commands are.
fn program_help(alloc: Global) -> Result<String, AllocError> {
    Command::new(alloc, "am32sim")
        .about("A motor speed controller's control core, run on a trace of outside events.")
        .disable_help_flag(true)
        .disable_version_flag(true)
        .disable_help_subcommand(true)
        .subcommand(Command::new(alloc, "run").about(
            "Runs the core on a trace and writes its journal",
        ))?
        .subcommand(Command::new(alloc, "show").about("Writes the settings that a flash holds"))?
        .arg(help_help(alloc))?
        .arg(help_version(alloc))?
        .render_help()
}

fn run_help(alloc: Global) -> Result<String, AllocError> {
    Command::new(alloc, "am32sim run")
        .about("Reads a trace and writes its journal on standard output.")
        .disable_help_flag(true)
        .arg(help_option(
            alloc,
            "cost",
            "TICKS",
            "Ticks from one step of the core to the next, 1 to 16; else 2",
        ))?
        .arg(help_option(
            alloc,
            "nest",
            "NEST",
            "7: each higher handler may interrupt a lower one; 1: none but MAIN is interrupted; else 7",
        ))?
        .arg(image(alloc))?
        .arg(help_file(alloc, "The trace; - or nothing is standard input"))?
        .render_help()
}

fn show_help(alloc: Global) -> Result<String, AllocError> {
    Command::new(alloc, "am32sim show")
        .about("Reads nothing, and writes the settings on standard output.")
        .disable_help_flag(true)
        .arg(image(alloc))?
        .after_help(STATUSES)
        .render_help()
}

/// The whole help: the commands, their options, what they read and write, the exit statuses, and where the formats are described.
pub fn help_text(alloc: Global) -> Result<String, AllocError> {
    let mut text = program_help(alloc)?;
    text.push_str("\n")?;
    text.push_str(run_help(alloc)?.as_str())?;
    text.push_str("\n")?;
    text.push_str(show_help(alloc)?.as_str())?;
    Ok(text)
}

/// What is said behind a usage error.
pub const USAGE: &str = "\
usage: am32sim run [--cost TICKS] [--nest 1|7] [--flash IMAGE] [FILE]
       am32sim show [--flash IMAGE]
am32sim --help says more.
";
