//! What a frame carries, what may be wrong with it, and a frame on its way.
ghost use Rattle.std.specs.Prelude.{◌≤◌, ◌+◌, ◌*◌};

use esc_base::{Frame, Mode, Tick};

/// A frame's value and telemetry request.
#[derive(Clone, Copy, Debug, PartialEq, Eq, Drop)]
pub struct Payload {
    pub frame: Frame,
    ghost small: { frame.value ≤ 2047 },
}

/// What is wrong with a frame that is sent.
#[derive(Clone, Copy, Debug, PartialEq, Eq, Drop)]
pub struct Spoil {
    /// The bits of the word that are sent wrongly.
    pub flipped: u16,
    /// The bit, from 0, whose pulse is too wide.
    pub wide: Option<u32>,
    /// How many of the 32 edges are sent.
    pub edges: usize,
    ghost some: { 1 ≤ edges },
}

/// What is left of a frame on the line.
#[derive(Clone, Copy, Debug, PartialEq, Eq, Drop)]
pub struct FrameOut {
    pub mode: Mode,
    /// When the next bit begins, or the one that has begun.
    pub begins: Tick,
    pub word: u16,
    /// The bits that are left.
    pub left: u32,
    /// Whether the first of them has begun.
    pub has_begun: bool,
    /// The bit, from 0, whose pulse is too wide.
    pub wide: Option<u32>,
    /// The most edges that are left.
    pub edges: usize,
    ghost bits: { left ≤ 16 },
    ghost early: { begins.0 + 160 * left ≤ 2147483648 },
}
