ghost use Rattle.std.specs.Prelude.{◌≡◌};
ghost use Rattle.esc_base.specs.Range.{HasSmallValue};
ghost use Rattle.input_detect.specs.Detect.{IsFoundMode};
ghost use Rattle.input_detect.specs.Judge.{judged, by_verdict, by_detection, IsJudged};

use crate::{Seen, detect};
use dshot_frame::verdict;
use edge_capture::Burst;
use esc_base::{Frame, Mode, Verdict, Why};
use servo_input::{InputKind, Servo, pulse};

/// What the edges of a window are.
#[derive(Clone, Copy, Debug, PartialEq, Eq, Drop)]
pub enum Judgement {
    Good(Frame),
    Bad(Why),
    /// The window was one of detection, and this mode was detected.
    Found(Mode),
    /// The window was one of detection, and nothing was detected.
    Nothing,
}

/// Judges the edges of a window that was open in a mode, where these inputs are allowed, with this range of servo pulses.
/// Where the mode isn't known it is detected.
pub fn judge(window: Mode, burst: &Burst, allowed: InputKind, servo: &Servo) -> Judgement
    ensures judged { result ≡ judged window burst.now allowed servo.now }
    ensures numbers { IsJudged result }
{
    match window {
        Mode::Unknown => by_detection(detect(burst, allowed, servo)),
        Mode::Servo => by_verdict(pulse(burst, servo)),
        Mode::D300 | Mode::D600 | Mode::D300Inv | Mode::D600Inv => {
            by_verdict(verdict(window, burst))
        }
    }
}

fn by_verdict(answer: Verdict) -> Judgement
    requires { HasSmallValue answer }
    ensures judged { result ≡ by_verdict answer }
    ensures numbers { IsJudged result }
{
    match answer {
        Verdict::Good(frame) => Judgement::Good(frame),
        Verdict::Bad(why) => Judgement::Bad(why),
    }
}

fn by_detection(seen: Seen) -> Judgement
    requires { IsFoundMode seen }
    ensures judged { result ≡ by_detection seen }
    ensures numbers { IsJudged result }
{
    match seen {
        Seen::Found(mode) => Judgement::Found(mode),
        Seen::None => Judgement::Nothing,
    }
}
