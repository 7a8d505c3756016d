//! Which word is wrong where the words are no command with its options.
use command_line::{CommandLine, Misuse, Rule};
use trace_text::number_in;

pub static RULES: [Rule; 3] = [
    Rule {
        name: "--cost",
        has_value: true,
    },
    Rule {
        name: "--nest",
        has_value: true,
    },
    Rule {
        name: "--flash",
        has_value: true,
    },
];

fn wrong<'a>(word: &'a str, expected: &'static str, found: Option<&'a str>) -> Option<Misuse<'a>> {
    Some(Misuse {
        word,
        expected,
        found,
    })
}

/// The first word, where it is no command.
pub fn wrong_command<'a>(first: Option<&'a str>) -> Option<Misuse<'a>> {
    match first {
        None => wrong("no words", "run or show", None),
        Some("run" | "show") => None,
        Some(word) => wrong(word, "run or show", None),
    }
}

fn wrong_cost<'a>(line: &CommandLine<'a>) -> Option<Misuse<'a>> {
    let value = line.value("--cost")?;
    match number_in(value.as_bytes(), 1, 16) {
        Some(_) => None,
        None => wrong("--cost", "1 to 16", Some(value)),
    }
}

fn wrong_nest<'a>(line: &CommandLine<'a>) -> Option<Misuse<'a>> {
    match line.value("--nest")? {
        "1" | "7" => None,
        value => wrong("--nest", "1 or 7", Some(value)),
    }
}

fn wrong_image<'a>(line: &CommandLine<'a>) -> Option<Misuse<'a>> {
    let value = line.value("--flash")?;
    if value.is_empty() || value.len() > 255 || value.starts_with('-') {
        return wrong(
            "--flash",
            "a path of 1 to 255 bytes that begins with no dash",
            Some(value),
        );
    }
    None
}

/// An option of `run` that `show` doesn't take, or a file.
fn wrong_show<'a>(line: &CommandLine<'a>) -> Option<Misuse<'a>> {
    if line.has("--cost") {
        return wrong("--cost", "an option of show", None);
    }
    if line.has("--nest") {
        return wrong("--nest", "an option of show", None);
    }
    match line.operand() {
        Some(operand) => wrong(operand.word, "no file, as show reads none", None),
        None => None,
    }
}

/// The first option whose value is wrong, or that the command doesn't take.
pub fn wrong_option<'a>(first: Option<&str>, line: &CommandLine<'a>) -> Option<Misuse<'a>> {
    if first == Some("show")
        && let Some(misuse) = wrong_show(line)
    {
        return Some(misuse);
    }
    if let Some(misuse) = wrong_cost(line) {
        return Some(misuse);
    }
    if let Some(misuse) = wrong_nest(line) {
        return Some(misuse);
    }
    wrong_image(line)
}
