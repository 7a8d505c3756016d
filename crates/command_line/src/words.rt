//! The words of a command line, and those that ask for help.
use std::{env, io};

/// Why there are no words.
#[derive(Clone, Copy, Drop)]
pub enum NoWords {
    /// One of them isn't text.
    NotText,
    /// Memory was refused.
    NoMemory,
}

/// The words behind the program's name.
pub fn words_of(rt: &HostRuntime) -> Result<Vec<String>, NoWords> {
    let args = match env::args(rt) {
        Ok(args) => args,
        Err(e) if e.kind() == io::ErrorKind::InvalidData => return Err(NoWords::NotText),
        Err(_) => return Err(NoWords::NoMemory),
    };
    match args.skip(1).collect::<Vec<String>>(rt.alloc()) {
        Ok(words) => Ok(words),
        Err(_) => Err(NoWords::NoMemory),
    }
}

/// What is answered before anything else.
#[derive(Clone, Copy, Drop)]
pub enum Answer {
    Help,
    Version,
}

/// Whether these words ask for help or for the version: by `--help`, `-h`, `--version` or `-V` anywhere, or by `help` in
/// front.
pub fn answer_to(words: &[String]) -> Option<Answer> {
    if let Some(first) = words.first()
        && first.as_str() == "help"
    {
        return Some(Answer::Help);
    }
    for word in words {
        match word.as_str() {
            "--help" | "-h" => return Some(Answer::Help),
            "--version" | "-V" => return Some(Answer::Version),
            _ => {}
        }
    }
    None
}
