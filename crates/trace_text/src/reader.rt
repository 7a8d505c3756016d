use crate::Place;
use crate::piece::Held;

/// Reads a trace from a source, line by line, in constant memory.
#[derive(Drop)]
pub struct Lines {
    pub(crate) held: Held,
    pub(crate) place: Place,
}
