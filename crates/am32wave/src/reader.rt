ghost use Rattle.std.specs.Prelude.{◌≤◌};

use esc_base::Tick;
use trace_text::Held;

/// Reads a journal from a source, in constant memory.
#[derive(Drop)]
pub struct Journal {
    /// Bytes that the source gave and that weren't read.
    pub held: Held,
    /// How many lines were read.
    pub line: u64,
    /// The time of the newest note; 0 before the first.
    pub time: Tick,
    ghost few: { line ≤ 4294967295 },
}
