use crate::expected::Expected;

/// How the program ended.
#[derive(Clone, Copy, Debug, PartialEq, Eq, Drop)]
pub enum Status {
    /// The whole script was followed.
    Done,
    /// A script's line, counted from 1, and what it should have had.
    Refused { line: u32, expected: Expected },
    /// The words aren't a use of the program.
    Usage,
    /// The source failed.
    ReadFault,
    /// The sink failed.
    WriteFault,
    /// Memory was refused.
    NoMemory,
}

impl Status {
    /// The exit status of the program, 0 to 5.
    pub fn exit_number(&self) -> u8 {
        match self {
            Status::Done => 0,
            Status::Refused { .. } => 1,
            Status::Usage => 2,
            Status::ReadFault => 3,
            Status::WriteFault => 4,
            Status::NoMemory => 5,
        }
    }
}
