use edge_capture::{Burst, Edge};
use esc_base::{Frame, Tick, Verdict, Why};
use servo_input::{InputKind, Servo, pulse, value_of};

const RANGE: Servo = Servo {
    low_us: 1006,
    high_us: 2006,
};

fn add(burst: &mut Burst, t: u64, level: bool) {
    let n = burst.len();
    if n < 32 && t < 1 << 31 && (n == 0 || burst.at(n - 1).t.0 <= t) {
        burst.push(Edge { t: Tick(t), level });
    }
}

// The verdict on a pulse that is high, or low, for so many ticks.
fn judged(ticks: u32, high: bool) -> Verdict {
    let mut burst = Burst::new();
    add(&mut burst, 10000, high);
    add(&mut burst, 10000 + ticks as u64, !high);
    pulse(&burst, &RANGE)
}

fn good(value: u16) -> Verdict {
    Verdict::Good(Frame {
        value,
        telemetry: false,
    })
}

#[test]
fn widths(rt: HostRuntime) {
    for (us, want) in [
        (799, Verdict::Bad(Why::Width)),
        (800, good(0)),
        (1006, good(0)),
        (1007, good(49)),
        (1506, good(1047)),
        (2005, good(2045)),
        (2006, good(2047)),
        (2200, good(2047)),
        (2201, Verdict::Bad(Why::Width)),
    ] {
        let ticks: u32 = us * 48;
        assert_eq!(rt; judged(ticks, true), want);
        assert_eq!(rt; judged(ticks + 47, true), want);
    }
    assert_eq!(rt; value_of(1506, &RANGE), 1047);
}

#[test]
fn other_bursts(rt: HostRuntime) {
    assert_eq!(rt; judged(48000, false), Verdict::Bad(Why::Polarity));
    let mut burst = Burst::new();
    add(&mut burst, 10000, true);
    assert_eq!(rt; pulse(&burst, &RANGE), Verdict::Bad(Why::Count));
    assert!(rt; InputKind::Any != InputKind::Servo);
}
