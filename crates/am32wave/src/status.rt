ghost use Rattle.std.specs.Prelude.{◌≡◌, ◌≤◌, ◌++◌, length, codes, decimal};
ghost use Rattle.am32wave.specs.Status.{status_bytes, refusal_name, trace_refusal_name, exit_number};

use crate::journal::Refusal;
use arrayvec::ArrayString;
use itoa::Buffer;

/// The line on standard error.
type Line = ArrayString<64>;

/// How the program ended.
#[derive(Clone, Copy, Debug, PartialEq, Eq, Drop)]
pub enum Status {
    /// The whole journal was read and shown.
    Done,
    /// The journal's first faulty line, counted from 1, and what is wrong with it.
    Refused {
        line: u64,
        kind: Refusal,
    },
    /// The trace's first faulty line, counted from 1, and what is wrong with it.
    TraceRefused {
        line: u64,
        kind: trace_text::Refusal,
    },
    /// The words aren't the program's.
    Usage,
    /// The journal's source failed.
    ReadFault,
    /// The trace's source failed.
    TraceFault,
    /// The sink failed.
    WriteFault,
    /// Memory was refused.
    NoMemory,
}

impl Status {
    /// The exit status of the program, 0 to 5.
    pub fn exit_number(&self) -> u8
        ensures { result ≡ exit_number self.now }
    {
        match self {
            Status::Done => 0,
            Status::Refused { .. } | Status::TraceRefused { .. } => 1,
            Status::Usage => 2,
            Status::ReadFault | Status::TraceFault => 3,
            Status::WriteFault => 4,
            Status::NoMemory => 5,
        }
    }
}

fn name_of(kind: Refusal) -> &'static str
    ensures name { result.now ≡ refusal_name kind }
    ensures short { length result.now ≤ 8 }
{
    match kind {
        Refusal::NotANote => "NotANote",
        Refusal::TimeBack => "TimeBack",
        Refusal::NoEnd => "NoEnd",
        Refusal::TooMany => "TooMany",
    }
}

fn trace_name_of(kind: trace_text::Refusal) -> &'static str
    ensures name { result.now ≡ trace_refusal_name kind }
    ensures short { length result.now ≤ 8 }
{
    match kind {
        trace_text::Refusal::TooLong => "TooLong",
        trace_text::Refusal::BadTime => "BadTime",
        trace_text::Refusal::TimeBack => "TimeBack",
        trace_text::Refusal::TooLate => "TooLate",
        trace_text::Refusal::BadKind => "BadKind",
        trace_text::Refusal::BadValue => "BadValue",
        trace_text::Refusal::Trailing => "Trailing",
        trace_text::Refusal::TooClose => "TooClose",
        trace_text::Refusal::NoEnd => "NoEnd",
        trace_text::Refusal::AfterEnd => "AfterEnd",
        trace_text::Refusal::TooMany => "TooMany",
    }
}

/// The line of a refusal in the text that `what` says, with its name.
fn line_text(what: &str, line: u64, name: &str) -> Line
    requires what { length what.now ≤ 22 }
    requires name { length name.now ≤ 8 }
    ensures { result.bytes ≡ what.now ++ decimal line ++ codes ": " ++ name.now ++ codes "\n" }
{
    let mut digits = Buffer::new();
    let mut text = Line::new();
    text.push_str(what);
    text.push_str(digits.format(line));
    text.push_str(": ");
    text.push_str(name);
    text.push_str("\n");
    text
}

fn text_of(bytes: &str) -> Line
    requires { length bytes.now ≤ 64 }
    ensures { result.bytes ≡ bytes.now }
{
    let mut text = Line::new();
    text.push_str(bytes);
    text
}

/// The line that the program prints on standard error, with its line feed; nothing after `Done`.
pub fn status_text(status: &Status) -> Line
    ensures { result.bytes ≡ status_bytes status.now }
{
    match *status {
        Status::Done => Line::new(),
        Status::Refused { line, kind } => line_text("am32wave: line ", line, name_of(kind)),
        Status::TraceRefused { line, kind } => {
            line_text("am32wave: trace line ", line, trace_name_of(kind))
        }
        Status::Usage => text_of("am32wave: usage\n"),
        Status::ReadFault => text_of("am32wave: read fault\n"),
        Status::TraceFault => text_of("am32wave: trace: read fault\n"),
        Status::WriteFault => text_of("am32wave: write fault\n"),
        Status::NoMemory => text_of("am32wave: no memory\n"),
    }
}
