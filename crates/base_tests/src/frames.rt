use dshot_frame::{encode, jitter_limit, verdict};
use edge_capture::{Burst, Edge};
use esc_base::{Frame, Mode, Tick, Verdict, Why};

// How a sender times its bits: the active part of a zero and of a one, and the distance of two bit starts. One bit
// has an active part and a distance to the next one of its own.
#[derive(Clone, Copy)]
struct Sender {
    zero: u64,
    one: u64,
    apart: u64,
    odd_bit: usize,
    odd_width: u64,
    odd_apart: u64,
}

const EXACT: Sender = Sender {
    zero: 30,
    one: 60,
    apart: 80,
    odd_bit: 16,
    odd_width: 0,
    odd_apart: 0,
};

fn steady(zero: u64, one: u64, apart: u64) -> Sender {
    Sender {
        zero,
        one,
        apart,
        ..EXACT
    }
}

// All exact, but for one bit.
fn odd(odd_bit: usize, odd_width: u64, odd_apart: u64) -> Sender {
    Sender {
        odd_bit,
        odd_width,
        odd_apart,
        ..EXACT
    }
}

fn add(burst: &mut Burst, t: u64, level: bool) {
    let n = burst.len();
    if n < 32 && t < 1 << 31 && (n == 0 || burst.at(n - 1).t.0 <= t) {
        burst.push(Edge { t: Tick(t), level });
    }
}

fn sent(word: u16, inverted: bool, sender: Sender) -> Burst {
    let mut burst = Burst::new();
    let mut start: u64 = 10000;
    for bit in 0..16usize {
        let is_one = word >> (15 - bit) & 1 == 1;
        let (width, apart) = if bit == sender.odd_bit {
            (sender.odd_width, sender.odd_apart)
        } else {
            (if is_one { sender.one } else { sender.zero }, sender.apart)
        };
        add(&mut burst, start, !inverted);
        add(&mut burst, start.saturating_add(width), inverted);
        start = start.saturating_add(apart);
    }
    burst
}

fn reads(word: u16, sender: Sender) -> Verdict {
    verdict(Mode::D600, &sent(word, false, sender))
}

const GOOD: Verdict = Verdict::Good(Frame {
    value: 1046,
    telemetry: false,
});

#[test]
fn tolerances(rt: HostRuntime) {
    assert_eq!(rt; reads(0x82C6, EXACT), GOOD);
    assert_eq!(rt; reads(0x82C7, EXACT), Verdict::Bad(Why::Check));
    assert_eq!(rt; reads(0x82C6, steady(40, 41, 80)), GOOD);
    let last_one_is_short = Sender {
        odd_bit: 14,
        odd_width: 40,
        odd_apart: 80,
        ..steady(40, 41, 80)
    };
    assert_eq!(rt; reads(0x82C6, last_one_is_short), Verdict::Bad(Why::Check));
    for (sender, want) in [
        (odd(1, 9, 80), Verdict::Bad(Why::Width)),
        (odd(1, 10, 80), GOOD),
        (odd(0, 75, 80), GOOD),
        (odd(0, 76, 80), Verdict::Bad(Why::Width)),
        (odd(3, 30, 59), Verdict::Bad(Why::Width)),
        (odd(3, 30, 60), GOOD),
        (odd(3, 30, 100), GOOD),
        (odd(3, 30, 101), Verdict::Bad(Why::Width)),
        (steady(30, 60, 70), GOOD),
        (steady(30, 60, 90), GOOD),
    ] {
        assert_eq!(rt; reads(0x82C6, sender), want);
    }
}

#[test]
fn spans(rt: HostRuntime) {
    let short = Sender {
        odd_bit: 3,
        odd_width: 30,
        odd_apart: 69,
        ..steady(30, 60, 70)
    };
    let long = Sender {
        odd_bit: 3,
        odd_width: 30,
        odd_apart: 91,
        ..steady(30, 60, 90)
    };
    assert_eq!(rt; reads(0x82C6, short), Verdict::Bad(Why::Span));
    assert_eq!(rt; reads(0x82C6, long), Verdict::Bad(Why::Span));
}

#[test]
fn modes(rt: HostRuntime) {
    let twice = steady(60, 120, 160);
    assert_eq!(rt; verdict(Mode::D300, &sent(0x82C6, false, twice)), GOOD);
    assert_eq!(rt; verdict(Mode::D600Inv, &sent(0x82C9, true, EXACT)), GOOD);
    assert_eq!(rt;
        verdict(Mode::D600Inv, &sent(0x82C8, true, EXACT)),
        Verdict::Bad(Why::Check)
    );
    assert_eq!(rt; verdict(Mode::D300Inv, &sent(0x82C9, true, twice)), GOOD);
    assert_eq!(rt;
        verdict(Mode::D600, &sent(0x82C9, true, EXACT)),
        Verdict::Bad(Why::Polarity)
    );
    assert_eq!(rt; jitter_limit(Mode::D300), 10);
    assert_eq!(rt; jitter_limit(Mode::D600Inv), 5);
}

#[test]
fn too_few_edges(rt: HostRuntime) {
    let whole = sent(0x82C6, false, EXACT);
    let mut burst = Burst::new();
    for i in 0..31 {
        if i < whole.len() {
            add(&mut burst, whole.at(i).t.0, whole.at(i).level);
        }
    }
    assert_eq!(rt; verdict(Mode::D600, &burst), Verdict::Bad(Why::Count));
}

#[test]
fn words(rt: HostRuntime) {
    for (value, telemetry, word, inverted) in [
        (0, false, 0x0000, 0x000F),
        (48, false, 0x0606, 0x0609),
        (12, false, 0x0189, 0x0186),
        (21, true, 0x02B9, 0x02B6),
        (1046, false, 0x82C6, 0x82C9),
        (2047, true, 0xFFFF, 0xFFF0),
    ] {
        assert_eq!(rt; encode(Frame { value, telemetry }, false), word);
        assert_eq!(rt; encode(Frame { value, telemetry }, true), inverted);
    }
}
