ghost use Rattle.std.specs.Prelude.{◌≡◌, ◌&&◌, true};
ghost use Rattle.esc_base.specs.declared.signal.Mode.{Mode};
ghost use Rattle.input_detect.specs.Detect.{fits, allows, detect_of, IsFoundMode};

use dshot_frame::verdict;
use edge_capture::Burst;
use esc_base::{Mode, Verdict};
use servo_input::{InputKind, Servo, pulse};

/// What detection makes of a burst.
#[derive(Clone, Copy, Debug, PartialEq, Eq, Drop)]
pub enum Seen {
    /// The signal is in this mode.
    Found(Mode),
    /// The burst is good in no mode that was tried.
    None,
}

/// The order in which modes are tried.
const MODES: [Mode; 5] = [
    Mode::D300,
    Mode::D600,
    Mode::D300Inv,
    Mode::D600Inv,
    Mode::Servo,
];

/// The signal mode of a burst that was heard in a window with no mode yet: the first mode that the settings allow and
/// in which the burst is good. The burst isn't taken for a frame.
pub fn detect(burst: &Burst, input: InputKind, servo: &Servo) -> Seen
    ensures detected { result ≡ detect_of burst.now input servo.now }
    ensures mode { IsFoundMode result }
{
    for mode in MODES {
        if is_answer(mode, burst, input, servo) {
            return Seen::Found(mode);
        }
    }
    Seen::None
}

// Whether the settings allow a mode in which the burst is good.
fn is_answer(mode: Mode, burst: &Burst, input: InputKind, servo: &Servo) -> bool
    ensures { result ≡ (allows input mode && fits mode burst.now servo.now) }
{
    is_allowed(input, mode) && is_good_in(mode, burst, servo)
}

// Whether the settings allow a mode.
fn is_allowed(input: InputKind, mode: Mode) -> bool
    ensures { result ≡ allows input mode }
{
    match input {
        InputKind::Any => true,
        InputKind::DShot => mode != Mode::Servo,
        InputKind::Servo => mode == Mode::Servo,
    }
}

/// Whether a burst is good in a mode. No burst is good in two modes, so the order in which they are tried decides
/// nothing.
pub fn is_good_in(mode: Mode, burst: &Burst, servo: &Servo) -> bool
    ensures good { result ≡ fits mode burst.now servo.now }
    ensures exclusive { (other : Mode) → result ≡ true → fits other burst.now servo.now ≡ true → other ≡ mode }
{
    let verdict = match mode {
        Mode::Unknown => return false,
        Mode::Servo => pulse(burst, servo),
        Mode::D300 | Mode::D600 | Mode::D300Inv | Mode::D600Inv => verdict(mode, burst),
    };
    matches!(verdict, Verdict::Good(_))
}
