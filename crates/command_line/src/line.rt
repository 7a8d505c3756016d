//! The options and the operand of a command line.
use std::alloc::Global;

/// An option that a program takes.
#[derive(Clone, Copy, Drop)]
pub struct Rule {
    /// Its name, with the two dashes.
    pub name: &'static str,
    /// Whether a value belongs to it.
    pub has_value: bool,
}

/// A word of a command line that nothing takes, what was expected there, and the value that was found, where it is the value.
#[derive(Clone, Copy, Drop)]
pub struct Misuse<'a> {
    pub word: &'a str,
    pub expected: &'static str,
    pub found: Option<&'a str>,
}

/// Why a command line isn't read.
#[derive(Clone, Copy, Drop)]
pub enum Unread<'a> {
    Misused(Misuse<'a>),
    /// Memory was refused.
    NoMemory,
}

/// An option that was given, with its value; a flag's value is empty.
#[derive(Clone, Copy, Drop)]
struct Given<'a> {
    name: &'static str,
    value: &'a str,
}

/// The word that is no option, and its place among the words, from 0.
#[derive(Clone, Copy, Drop)]
pub struct Operand<'a> {
    pub word: &'a str,
    pub place: usize,
}

/// The options that were given, each at most once, and the one word that is none and no option's value.
#[derive(Drop)]
pub struct CommandLine<'a> {
    given: Vec<Given<'a>>,
    operand: Option<Operand<'a>>,
    /// An option whose value is the next word.
    pending: Option<Rule>,
}

impl<'a> CommandLine<'a> {
    /// The value of an option, where it was given; a flag's is empty.
    pub fn value(&self, name: &str) -> Option<&'a str> {
        for given in self.given.as_slice() {
            if given.name == name {
                return Some(given.value);
            }
        }
        None
    }

    pub fn has(&self, name: &str) -> bool {
        self.value(name).is_some()
    }

    /// The word that is no option and no option's value.
    pub fn operand(&self) -> Option<Operand<'a>> {
        self.operand
    }

    fn take(&mut self, place: usize, word: &'a str, rules: &[Rule]) -> Result<(), Unread<'a>> {
        if let Some(rule) = self.pending {
            self.pending = None;
            return self.add(rule.name, word);
        }
        if word == "-" || !word.starts_with('-') {
            return self.take_operand(place, word);
        }
        let (name, value) = match word.split_once('=') {
            Some((name, value)) => (name, Some(value)),
            None => (word, None),
        };
        let Some(rule) = rule_of(name, rules) else {
            return misused(word, "an option of this command");
        };
        if self.has(rule.name) {
            return misused(word, "an option once");
        }
        match value {
            Some(value) if rule.has_value => self.add(rule.name, value),
            Some(_) => misused(word, "no value for this option"),
            None if rule.has_value => {
                self.pending = Some(rule);
                Ok(())
            }
            None => self.add(rule.name, ""),
        }
    }

    fn add(&mut self, name: &'static str, value: &'a str) -> Result<(), Unread<'a>> {
        match self.given.push(Given { name, value }) {
            Ok(()) => Ok(()),
            Err(_) => Err(Unread::NoMemory),
        }
    }

    fn take_operand(&mut self, place: usize, word: &'a str) -> Result<(), Unread<'a>> {
        if self.operand.is_some() {
            return misused(word, "one file");
        }
        self.operand = Some(Operand { word, place });
        Ok(())
    }
}

fn misused<'a>(word: &'a str, expected: &'static str) -> Result<(), Unread<'a>> {
    Err(Unread::Misused(Misuse {
        word,
        expected,
        found: None,
    }))
}

fn rule_of(name: &str, rules: &[Rule]) -> Option<Rule> {
    for rule in rules {
        if rule.name == name {
            return Some(*rule);
        }
    }
    None
}

/// Reads words as options, `--name value` or `--name=value`, and at most one operand.
pub fn read_line<'a>(
    alloc: Global,
    words: &'a [String],
    rules: &[Rule],
) -> Result<CommandLine<'a>, Unread<'a>> {
    let mut line = CommandLine {
        given: Vec::new(alloc),
        operand: None,
        pending: None,
    };
    for (place, word) in words.iter().enumerate() {
        line.take(place, word.as_str(), rules)?;
    }
    if let Some(rule) = line.pending {
        return Err(Unread::Misused(Misuse {
            word: rule.name,
            expected: "a value",
            found: None,
        }));
    }
    Ok(line)
}
