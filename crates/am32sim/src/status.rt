ghost use Rattle.std.specs.Prelude.{◌≡◌, ◌≤◌, length};
ghost use Rattle.am32sim.specs.Status.{status_bytes, refusal_name, exit_number};
ghost use Rattle.am32sim.specs.declared.status.Status.TheVariants.{Refused as IsRefused};

use arrayvec::ArrayString;
use itoa::Buffer;
use trace_text::Refusal;

/// The line on standard error.
type Line = ArrayString<64>;

/// How a command ended.
#[derive(Clone, Copy, Debug, PartialEq, Eq, Drop)]
pub enum Status {
    /// The job is done.
    Done,
    /// The trace's first faulty line, counted from 1, and what is wrong with it.
    Refused { line: u64, kind: Refusal },
    /// The words aren't a command.
    Usage,
    /// The source failed.
    ReadFault,
    /// The sink failed.
    WriteFault,
    /// Memory was refused.
    NoMemory,
    /// The flash failed while it was attached or the settings were loaded.
    AttachFault,
}

impl Status {
    /// The exit status of the program, 0 to 6.
    pub fn exit_number(&self) -> u8
        ensures { result ≡ exit_number self.now }
    {
        match self {
            Status::Done => 0,
            Status::Refused { .. } => 1,
            Status::Usage => 2,
            Status::ReadFault => 3,
            Status::WriteFault => 4,
            Status::NoMemory => 5,
            Status::AttachFault => 6,
        }
    }
}

fn name_of(kind: Refusal) -> &'static str
    ensures name { result.now ≡ refusal_name kind }
    ensures short { length result.now ≤ 8 }
{
    match kind {
        Refusal::TooLong => "TooLong",
        Refusal::BadTime => "BadTime",
        Refusal::TimeBack => "TimeBack",
        Refusal::TooLate => "TooLate",
        Refusal::BadKind => "BadKind",
        Refusal::BadValue => "BadValue",
        Refusal::Trailing => "Trailing",
        Refusal::TooClose => "TooClose",
        Refusal::NoEnd => "NoEnd",
        Refusal::AfterEnd => "AfterEnd",
        Refusal::TooMany => "TooMany",
    }
}

fn refusal_text(line: u64, kind: Refusal) -> Line
    ensures { result.bytes ≡ status_bytes (IsRefused line kind) }
{
    let mut digits = Buffer::new();
    let mut text = Line::new();
    text.push_str("am32sim: line ");
    text.push_str(digits.format(line));
    text.push_str(": ");
    text.push_str(name_of(kind));
    text.push_str("\n");
    text
}

fn text_of(bytes: &str) -> Line
    requires { length bytes.now ≤ 64 }
    ensures { result.bytes ≡ bytes.now }
{
    let mut text = Line::new();
    text.push_str(bytes);
    text
}

/// The line that the program prints on standard error, with its line feed; nothing after `Done`.
pub fn status_text(status: &Status) -> Line
    ensures { result.bytes ≡ status_bytes status.now }
{
    match *status {
        Status::Done => Line::new(),
        Status::Refused { line, kind } => refusal_text(line, kind),
        Status::Usage => text_of("am32sim: usage\n"),
        Status::ReadFault => text_of("am32sim: read fault\n"),
        Status::WriteFault => text_of("am32sim: write fault\n"),
        Status::NoMemory => text_of("am32sim: no memory\n"),
        Status::AttachFault => text_of("am32sim: flash fault\n"),
    }
}
