//! The edges of a frame, one after the other.
ghost use Rattle.std.specs.Prelude.{◌≡◌, ◌≤◌, ◌<◌, ◌-◌, ◌+◌, ◌*◌, drop, slice_get, All};
ghost use Rattle.edge_capture.specs.Modes.{numbers};
ghost use Rattle.dshot_frame.specs.Sent.{active_width, HasFrames};
ghost use Rattle.am32trace.specs.Frames.{width_of};

use crate::frame_out::{FrameOut, Payload, Spoil};
use dshot_frame::encode;
use edge_capture::mode_numbers;
use esc_base::{Edge, Mode, Tick};

/// The bits of a frame, each with two edges.
const BITS: u32 = 16;

/// For how many ticks a bit is active: three eighths of it for a zero, three quarters for a one.
fn active_width(bit: u32, is_one: bool) -> u32
    requires { bit ≤ 160 }
    ensures exact { result ≡ active_width bit is_one }
    ensures most { result ≤ 160 }
{
    if is_one { 3 * bit / 4 } else { 3 * bit / 8 }
}

impl FrameOut {
    ghost use Rattle.am32trace.specs.Frames.{rest_of, first_edge, IsBefore, IsSent, IsSpoilt};

    /// A frame as it should be, from `start` on.
    pub fn whole(mode: Mode, start: Tick, payload: Payload) -> FrameOut
        requires { start.0 ≤ 1073741824 }
        ensures sent { HasFrames mode → IsSent mode start.0 payload.frame (rest_of result) }
        ensures begins { slice_get (rest_of result) 0 ≡ Some (first_edge mode start) }
        ensures within { All (IsBefore (start.0 + 16 * (numbers mode).bit)) (rest_of result) }
    {
        FrameOut {
            mode,
            begins: start,
            word: encode(payload.frame, mode_numbers(mode).inverted),
            left: BITS,
            has_begun: false,
            wide: None,
            edges: 32,
        }
    }

    /// A frame with something wrong, from `start` on.
    pub fn spoiled(mode: Mode, start: Tick, payload: Payload, spoil: Spoil) -> FrameOut
        requires { start.0 ≤ 1073741824 }
        ensures spoilt { HasFrames mode → IsSpoilt mode start.0 payload.frame spoil (rest_of result) }
        ensures begins { slice_get (rest_of result) 0 ≡ Some (first_edge mode start) }
        ensures within { All (IsBefore (start.0 + 16 * (numbers mode).bit)) (rest_of result) }
    {
        let word = encode(payload.frame, mode_numbers(mode).inverted);
        FrameOut {
            mode,
            begins: start,
            word: word ^ spoil.flipped,
            left: BITS,
            has_begun: false,
            wide: spoil.wide,
            edges: spoil.edges,
        }
    }

    /// For how many ticks the first bit that is left is active.
    fn width(&self) -> u32
        requires { 0 < self.now.left }
        ensures exact { result ≡ width_of (numbers self.now.mode).bit self.now.wide (self.now.left - 1) self.now.word }
        ensures most { result ≤ 160 }
    {
        let bit = mode_numbers(self.mode).bit;
        if self.wide == Some(BITS - self.left) {
            return bit.saturating_sub(2);
        }
        active_width(bit, self.word >> (self.left - 1) & 1 == 1)
    }

    /// The next edge, if there is one more.
    pub fn next(&self) -> Option<Edge>
        ensures { result ≡ slice_get (rest_of self.now) 0 }
    {
        if self.left == 0 || self.edges == 0 {
            return None;
        }
        let inverted = mode_numbers(self.mode).inverted;
        if self.has_begun {
            Some(Edge {
                t: Tick(self.begins.0 + u64::from(self.width())),
                level: inverted,
            })
        } else {
            Some(Edge {
                t: self.begins,
                level: !inverted,
            })
        }
    }

    /// The frame once its next edge was sent.
    pub fn after(self) -> FrameOut
        ensures { rest_of result ≡ drop 1 (rest_of self) }
    {
        if self.left == 0 {
            return self;
        }
        let edges = self.edges.saturating_sub(1);
        if !self.has_begun {
            return FrameOut {
                mode: self.mode,
                begins: self.begins,
                word: self.word,
                left: self.left,
                has_begun: true,
                wide: self.wide,
                edges,
            };
        }
        FrameOut {
            mode: self.mode,
            begins: Tick(self.begins.0 + u64::from(mode_numbers(self.mode).bit)),
            word: self.word,
            left: self.left - 1,
            has_begun: false,
            wide: self.wide,
            edges,
        }
    }
}
