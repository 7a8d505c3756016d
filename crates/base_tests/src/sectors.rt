use commutation::{Timing, pair, sector_next};
use esc_base::{Leg, Sector, Tick};

#[test]
fn pairs(rt: HostRuntime) {
    for (s, high, low) in [
        (1, Leg::A, Leg::B),
        (2, Leg::C, Leg::B),
        (3, Leg::C, Leg::A),
        (4, Leg::B, Leg::A),
        (5, Leg::B, Leg::C),
        (6, Leg::A, Leg::C),
    ] {
        let legs = pair(Sector(s));
        assert_eq!(rt; legs.0, high);
        assert_eq!(rt; legs.1, low);
    }
}

#[test]
fn order_of_sectors(rt: HostRuntime) {
    for (s, forward, reverse) in [(1, 2, 6), (2, 3, 1), (5, 6, 4), (6, 1, 5)] {
        assert_eq!(rt; sector_next(Sector(s), true), Sector(forward));
        assert_eq!(rt; sector_next(Sector(s), false), Sector(reverse));
    }
}

#[test]
fn first_crossings(rt: HostRuntime) {
    let mut timing = Timing::new(1);
    timing.restart();
    assert_eq!(rt; timing.wait(), 9000);
    timing.crossing(Tick(50000));
    assert_eq!(rt; timing.interval(), 24000);
    timing.crossing(Tick(70000));
    assert_eq!(rt; timing.interval(), 23000);
}

#[test]
fn shortest_interval(rt: HostRuntime) {
    let mut timing = Timing::new(3);
    for k in 0u64..20 {
        timing.crossing(Tick(50000 + 100 * k));
    }
    assert_eq!(rt; timing.interval(), 1200);
    timing.crossing(Tick(52000));
    assert_eq!(rt; timing.interval(), 1200);
    assert_eq!(rt; timing.wait(), 150);
}

#[test]
fn six_gaps(rt: HostRuntime) {
    let mut timing = Timing::new(0);
    for k in 0u64..6 {
        timing.gap(Tick(8000 * k));
    }
    assert_eq!(rt; timing.period_us(), None);
    assert_eq!(rt; timing.six(), 0);
    timing.gap(Tick(48000));
    assert_eq!(rt; timing.period_us(), Some(1000));
    assert_eq!(rt; timing.six(), 48000);
}
