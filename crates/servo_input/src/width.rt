ghost use Rattle.std.specs.Prelude.{◌≡◌, ◌≤◌};
ghost use Rattle.esc_base.specs.Range.{HasSmallValue};
ghost use Rattle.servo_input.specs.Pulse.{is_servo_width, servo_value, pulse_of};

use crate::Servo;
use edge_capture::Burst;
use esc_base::{Frame, Verdict, Why};

/// The ticks of a microsecond.
const TICKS_PER_US: u64 = 48;

/// What the edges of a window are as a servo pulse: a rising edge and, 800 to 2200 whole microseconds later, a
/// falling one. The first fault is told: there aren't two edges, the first one falls, the width is out of range.
pub fn pulse(burst: &Burst, servo: &Servo) -> Verdict
    ensures judged { result ≡ pulse_of burst.now servo.now }
    ensures value { HasSmallValue result }
{
    if burst.len() != 2 {
        return Verdict::Bad(Why::Count);
    }
    let rise = burst.at(0);
    if !rise.level {
        return Verdict::Bad(Why::Polarity);
    }
    let width_us = (burst.at(1).t.0 - rise.t.0) / TICKS_PER_US;
    if !is_pulse(width_us) {
        return Verdict::Bad(Why::Width);
    }
    Verdict::Good(Frame {
        value: value_of(width_us as u32, servo),
        telemetry: false,
    })
}

fn is_pulse(width_us: u64) -> bool
    ensures { result ≡ is_servo_width width_us }
{
    800 <= width_us && width_us <= 2200
}

/// The throttle value of a pulse of this width in microseconds: 0 up to the low end of the range, 2047 from its high
/// end on, and evenly from 48 on between them, rounded down.
pub fn value_of(width_us: u32, servo: &Servo) -> u16
    ensures value { result ≡ servo_value width_us servo.now }
    ensures most { result ≤ 2047 }
{
    let low = u32::from(servo.low_us);
    let high = u32::from(servo.high_us);
    if width_us <= low {
        0
    } else if width_us >= high {
        2047
    } else {
        (48 + (width_us - low) * 1999 / (high - low)) as u16
    }
}
