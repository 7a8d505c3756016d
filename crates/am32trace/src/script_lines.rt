use arrayvec::ArrayVec;
use trace_text::Held;

/// The lines of a script, one at a time.
#[derive(Drop)]
pub struct ScriptLines {
    pub held: Held,
    /// The line that was read, without its line feed.
    pub line: ArrayVec<u8, 1200>,
    /// Whether the source had no more bytes.
    pub has_ended: bool,
}
