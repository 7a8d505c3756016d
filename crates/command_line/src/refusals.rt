//! What the lines of a trace are, for hints.
use trace_text::Refusal;

/// What was expected where a line of a trace is refused.
pub fn trace_hint(kind: Refusal) -> &'static str {
    match kind {
        Refusal::TooLong => "expected at most 40 bytes in a line",
        Refusal::BadTime => "expected a time in ticks of 48 MHz, and a blank behind it",
        Refusal::TimeBack => "expected a time not below that of the line before",
        Refusal::TooLate => "expected a time of at most 1073741824 ticks, which are 22.37 s",
        Refusal::BadKind => "expected E, C, S, J or END behind the time",
        Refusal::BadValue => {
            "expected 0 or 1 behind E and C, two hexadecimal digits behind S, 1 to 16777216 behind J"
        }
        Refusal::Trailing => "expected the end of the line",
        Refusal::TooClose => "expected 20000 ticks or more since the serial byte before",
        Refusal::NoEnd => "expected a last line TIME END, with its line feed",
        Refusal::AfterEnd => "expected nothing behind the line with END",
        Refusal::TooMany => "expected at most 16777216 lines",
    }
}
