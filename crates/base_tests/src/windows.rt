ghost use Rattle.std.specs.Prelude.{◌≡◌, ◌<◌, ◌≤◌, ◌+◌, ◌*◌, ◌^◌};
ghost use Rattle.edge_capture.specs.Edges.{last_at};

use edge_capture::{Burst, Capture, Edge, Heard, mode_numbers};
use esc_base::{Mode, Tick};
use std::process::Abort;

// Hands in this many edges, 40 ticks apart, the first at 10000 and rising.
fn square(capture: &mut Capture, count: u64)
    requires few { count ≤ 40 }
    requires early { last_at capture.old.edges ≤ 10000 }
{
    for i in 0..count {
        capture.edge(Tick(10000 + 40 * i), i % 2 == 0);
    }
}

// A window that has heard so many edges from 10000 on, the last at `last`, closes at `closes`.
fn closes_at(rt: &impl Abort, mode: Mode, count: u64, last: u64, closes: u64)
    requires few { count ≤ 40 }
    requires small { closes < 2 ^ 30 }
    requires later { 0 < closes }
{
    let mut capture = Capture::new();
    capture.arm(mode, Tick(9999));
    square(&mut capture, count);
    let heard = capture.burst().len();
    assert!(rt; heard > 0);
    assert_eq!(rt; capture.burst().at(heard - 1).t, Tick(last));
    assert!(rt; !capture.closed(Tick(closes - 1)));
    assert!(rt; capture.closed(Tick(closes)));
    assert_eq!(rt; capture.idle_at().is_none(), last == closes);
}

#[test]
fn windows_close(rt: HostRuntime) {
    closes_at(&rt, Mode::Unknown, 1, 10000, 130000);
    closes_at(&rt, Mode::Unknown, 2, 10040, 14040);
    closes_at(&rt, Mode::Unknown, 3, 10080, 130080);
    closes_at(&rt, Mode::D300, 31, 11200, 11520);
    closes_at(&rt, Mode::D300Inv, 4, 10120, 10440);
    // 31 edges of a frame at 600,000 bits a second
    closes_at(&rt, Mode::D600, 31, 11200, 11360);
    closes_at(&rt, Mode::D600Inv, 2, 10040, 10200);
    closes_at(&rt, Mode::D600, 40, 11240, 11240);
    closes_at(&rt, Mode::Servo, 1, 10000, 130000);
    closes_at(&rt, Mode::Servo, 3, 10040, 10040);
}

#[test]
fn falling_edge_first(rt: HostRuntime) {
    let mut capture = Capture::new();
    capture.arm(Mode::Unknown, Tick(0));
    assert_eq!(rt; capture.edge(Tick(100), false), Heard::Taken);
    assert_eq!(rt; capture.idle_at(), Some(Tick(4100)));
}

#[test]
fn edges_heard(rt: HostRuntime) {
    let mut capture = Capture::new();
    assert_eq!(rt; capture.edge(Tick(4), true), Heard::Unheard);
    capture.arm(Mode::Servo, Tick(5));
    assert_eq!(rt; capture.edge(Tick(5), true), Heard::Unheard);
    assert_eq!(rt; capture.edge(Tick(6), false), Heard::Unheard);
    assert_eq!(rt; capture.edge(Tick(7), true), Heard::Taken);
    assert_eq!(rt; capture.idle_at(), Some(Tick(120007)));
    assert_eq!(rt; capture.edge(Tick(120007), false), Heard::Unheard);
}

#[test]
fn bursts_keep_edges(rt: HostRuntime) {
    let edge = Edge {
        t: Tick(3),
        level: true,
    };
    let mut burst = Burst::new();
    assert!(rt; burst.is_empty());
    burst.push(edge);
    assert_eq!(rt; burst.len(), 1);
    assert_eq!(rt; burst.at(0), edge);
    burst.clear();
    assert!(rt; burst.is_empty());
    assert_eq!(rt; mode_numbers(Mode::D300Inv).bit, 160);
}
