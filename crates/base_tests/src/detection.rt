use dshot_frame::encode;
use edge_capture::{Burst, Edge};
use esc_base::{Frame, Mode, Tick};
use input_detect::{Judgement, Seen, detect, is_good_in, judge};
use servo_input::{InputKind, Servo};
use std::process::Abort;

const RANGE: Servo = Servo {
    low_us: 1006,
    high_us: 2006,
};

fn add(burst: &mut Burst, t: u64, level: bool) {
    let n = burst.len();
    if n < 32 && t < 1 << 31 && (n == 0 || burst.at(n - 1).t.0 <= t) {
        burst.push(Edge { t: Tick(t), level });
    }
}

// A frame with value 1046 and bits of this many ticks: a one is active for three quarters of its bit.
fn frame(bit: u32, inverted: bool) -> Burst {
    let word = encode(
        Frame {
            value: 1046,
            telemetry: false,
        },
        inverted,
    );
    let mut burst = Burst::new();
    for i in 0..16u32 {
        let start = 10000 + u64::from(bit) * u64::from(i);
        let eighths = if word >> (15 - i) & 1 == 1 { 6 } else { 3 };
        add(&mut burst, start, !inverted);
        add(&mut burst, start + u64::from(bit) * eighths / 8, inverted);
    }
    burst
}

fn is_seen(rt: &impl Abort, burst: &Burst, any: Seen, dshot: Seen, servo: Seen) {
    assert_eq!(rt; detect(burst, InputKind::Any, &RANGE), any);
    assert_eq!(rt; detect(burst, InputKind::DShot, &RANGE), dshot);
    assert_eq!(rt; detect(burst, InputKind::Servo, &RANGE), servo);
}

#[test]
fn frames_are_seen(rt: HostRuntime) {
    for (bit, inverted, mode) in [
        (160, false, Mode::D300),
        (80, false, Mode::D600),
        (160, true, Mode::D300Inv),
        (80, true, Mode::D600Inv),
    ] {
        let burst = frame(bit, inverted);
        is_seen(
            &rt,
            &burst,
            Seen::Found(mode),
            Seen::Found(mode),
            Seen::None,
        );
        assert!(rt; is_good_in(mode, &burst, &RANGE));
        let good = Judgement::Good(Frame {
            value: 1046,
            telemetry: false,
        });
        assert_eq!(rt; judge(mode, &burst, InputKind::Any, &RANGE), good);
    }
    is_seen(&rt, &frame(120, false), Seen::None, Seen::None, Seen::None);
}

#[test]
fn pulses_are_seen(rt: HostRuntime) {
    let mut pulse = Burst::new();
    add(&mut pulse, 10000, true);
    add(&mut pulse, 10000 + 1500 * 48, false);
    is_seen(
        &rt,
        &pulse,
        Seen::Found(Mode::Servo),
        Seen::None,
        Seen::Found(Mode::Servo),
    );
    is_seen(&rt, &Burst::new(), Seen::None, Seen::None, Seen::None);
}
