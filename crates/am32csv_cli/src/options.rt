//! How the options say that the rows are read.
use am32csv::{Clock, Layout, Rate};
use command_line::{CommandLine, Misuse, Rule};
use trace_text::number_in;

pub static RULES: [Rule; 4] = [
    Rule {
        name: "--rate",
        has_value: true,
    },
    Rule {
        name: "--time",
        has_value: true,
    },
    Rule {
        name: "--level",
        has_value: true,
    },
    Rule {
        name: "--drop-replies",
        has_value: false,
    },
];

/// The number that an option's value is, or another one where the option isn't given.
fn number<'a>(
    line: &CommandLine<'a>,
    option: &'static str,
    range: (u32, u32, &'static str),
    other: u32,
) -> Result<u32, Misuse<'a>> {
    let (least, most, expected) = range;
    let Some(value) = line.value(option) else {
        return Ok(other);
    };
    match number_in(value.as_bytes(), least, most) {
        Some(number) => Ok(number),
        None => Err(Misuse {
            word: option,
            expected,
            found: Some(value),
        }),
    }
}

fn clock<'a>(line: &CommandLine<'a>) -> Result<Clock, Misuse<'a>> {
    if !line.has("--rate") {
        return Ok(Clock::Seconds);
    }
    let range = (1, u32::MAX, "1 to 4294967295 samples a second");
    let hertz = number(line, "--rate", range, 1)?.max(1);
    Ok(Clock::Samples(Rate { hertz }))
}

/// The layout that the options name.
pub fn layout_of<'a>(line: &CommandLine<'a>) -> Result<Layout, Misuse<'a>> {
    let layout = Layout {
        clock: clock(line)?,
        time: number(line, "--time", (0, 1000, "a column, 0 to 1000"), 1)?,
        level: number(line, "--level", (1, 1000, "a column, 1 to 1000"), 2)?,
        drops_replies: line.has("--drop-replies"),
    };
    // Rows are numbered only where a number is a sample's.
    if layout.time == 0 && layout.clock == Clock::Seconds {
        return Err(Misuse {
            word: "--time",
            expected: "a --rate too, where rows are numbered",
            found: Some("0"),
        });
    }
    Ok(layout)
}
