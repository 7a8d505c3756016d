ghost use Rattle.std.specs.Prelude.{◌≡◌, ◌≤◌, ◌/◌, ℕ, List};
ghost use Rattle.esc_base.specs.declared.signal.Edge.{Edge};
ghost use Rattle.esc_base.specs.declared.signal.Mode.{Mode};
ghost use Rattle.esc_base.specs.declared.signal.Verdict.TheVariants.{Good};
ghost use Rattle.edge_capture.specs.Modes.{numbers};
ghost use Rattle.dshot_frame.specs.Verdict.{verdict_of};
ghost use Rattle.dshot_frame.specs.Sent.{HasFrames, IsMoved, sent};

use crate::checksum::checksum;
use edge_capture::mode_numbers;
use esc_base::{Frame, Mode};

/// The word of 16 bits for a frame with a value of at most 2047, in a normal or an inverted mode. Its exact edges,
/// sent at any tick, are read as this frame.
pub fn encode(frame: Frame, inverted: bool) -> u16
    requires { frame.value ≤ 2047 }
    ensures { (m : Mode) (s : ℕ) → HasFrames m → (numbers m).inverted ≡ inverted →
        verdict_of m (sent m s result) ≡ Good frame }
{
    let upper = frame.value << 1 | u16::from(frame.telemetry);
    upper << 4 | checksum(upper, inverted)
}

/// The ticks by which each edge of a frame may come early or late without a change of its verdict: a sixteenth of a
/// bit, 10 or 5, and 0 in a mode without frames.
pub fn jitter_limit(mode: Mode) -> u32
    ensures sixteenth { result ≡ (numbers mode).bit / 16 }
    ensures harmless { (s word : ℕ) (moved : List Edge) → HasFrames mode → IsMoved result (sent mode s word) moved →
        verdict_of mode moved ≡ verdict_of mode (sent mode s word) }
{
    mode_numbers(mode).bit / 16
}
