//! The parts of a program's help, which clap lays out. It reads no words.
use clap::{Arg, ArgAction};
use std::alloc::Global;

/// `--name <VALUE>`, with what it says.
pub fn help_option<'a>(alloc: Global, name: &'a str, value: &'a str, help: &'a str) -> Arg<'a> {
    Arg::new(alloc, name)
        .long(name)
        .value_name(value)
        .help(help)
        .action(ArgAction::Set)
}

/// `--name`, with what it says.
pub fn help_flag<'a>(alloc: Global, name: &'a str, help: &'a str) -> Arg<'a> {
    Arg::new(alloc, name)
        .long(name)
        .help(help)
        .action(ArgAction::SetTrue)
}

/// The file that a program reads.
pub fn help_file<'a>(alloc: Global, help: &'a str) -> Arg<'a> {
    Arg::new(alloc, "FILE").value_name("FILE").help(help)
}

/// `-h` and `--help`.
pub fn help_help<'a>(alloc: Global) -> Arg<'a> {
    help_flag(alloc, "help", "Prints this text").short('h')
}

/// `-V` and `--version`.
pub fn help_version<'a>(alloc: Global) -> Arg<'a> {
    help_flag(alloc, "version", "Prints the version").short('V')
}
