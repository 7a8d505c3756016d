//! What the options ask for.
use am32wave::{Form, Stretch, View};
use command_line::{CommandLine, Misuse, Rule};
use trace_tools::duration_in;

pub static RULES: [Rule; 6] = [
    Rule {
        name: "--trace",
        has_value: true,
    },
    Rule {
        name: "--from",
        has_value: true,
    },
    Rule {
        name: "--to",
        has_value: true,
    },
    Rule {
        name: "--html",
        has_value: false,
    },
    Rule {
        name: "--svg",
        has_value: false,
    },
    Rule {
        name: "--explain",
        has_value: false,
    },
];

/// What is to be shown.
#[derive(Clone, Copy, Drop)]
pub enum Wish<'a> {
    /// The journal alone.
    Journal(Form),
    /// A stretch of the journal and of the trace in this file.
    Traced {
        path: &'a str,
        view: View,
        stretch: Stretch,
    },
}

fn misuse<'a>(word: &'a str, expected: &'static str) -> Misuse<'a> {
    Misuse {
        word,
        expected,
        found: None,
    }
}

/// The tick that an option names, or this one where it wasn't given.
fn tick_in<'a>(
    line: &CommandLine<'a>,
    name: &'static str,
    not_given: u32,
) -> Result<u32, Misuse<'a>> {
    let Some(word) = line.value(name) else {
        return Ok(not_given);
    };
    if let Some(ticks) = duration_in(word.as_bytes())
        && let Ok(tick) = u32::try_from(ticks)
    {
        return Ok(tick);
    }
    Err(Misuse {
        word: name,
        expected: "a number and us, ms or s, or ticks as 1200t, below 2^32 ticks",
        found: Some(word),
    })
}

fn stretch_in<'a>(line: &CommandLine<'a>) -> Result<Stretch, Misuse<'a>> {
    let from = tick_in(line, "--from", Stretch::WHOLE.from)?;
    let to = tick_in(line, "--to", Stretch::WHOLE.to)?;
    Ok(Stretch { from, to })
}

/// A still picture is of a stretch with an end.
fn view_in<'a>(line: &CommandLine<'a>) -> Result<View, Misuse<'a>> {
    match (line.has("--html"), line.has("--svg")) {
        (false, false) => Ok(View::Wave),
        (true, false) => Ok(View::Page),
        (false, true) if line.has("--to") => Ok(View::Still),
        (false, true) => Err(misuse("--svg", "--to beside it")),
        (true, true) => Err(misuse("--svg", "no --html beside it")),
    }
}

/// The first option given that words don't have: another form, a trace or a stretch.
fn beside_words<'a>(line: &CommandLine<'a>) -> Option<&'static str> {
    if line.has("--html") {
        Some("no --html beside it")
    } else if line.has("--svg") {
        Some("no --svg beside it")
    } else if line.has("--trace") {
        Some("no --trace beside it")
    } else if line.has("--from") {
        Some("no --from beside it")
    } else if line.has("--to") {
        Some("no --to beside it")
    } else {
        None
    }
}

/// The wish that the options name.
pub fn wish_of<'a>(line: &CommandLine<'a>) -> Result<Wish<'a>, Misuse<'a>> {
    if line.has("--explain") {
        return match beside_words(line) {
            None => Ok(Wish::Journal(Form::Words)),
            Some(expected) => Err(misuse("--explain", expected)),
        };
    }
    let view = view_in(line)?;
    let stretch = stretch_in(line)?;
    match line.value("--trace") {
        None => Ok(Wish::Journal(Form::Drawn(view, stretch))),
        Some(path) => Ok(Wish::Traced {
            path,
            view,
            stretch,
        }),
    }
}
