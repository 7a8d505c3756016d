use esc_base::{Sector, Tick};
use zero_cross::{Crossing, Next, Phase};

/// A sector 1 of a forward drive that began at 1000, with a filter that ends at 7124.
fn filtering(rt: &impl std::process::Abort) -> Crossing {
    let mut crossing = Crossing::new();
    assert_eq!(rt; crossing.phase(), Phase::Off);
    let end = crossing.begin(Sector(1), true, Tick(1000), 24000);
    assert_eq!(rt; end, Tick(7000));
    assert_eq!(rt; crossing.phase(), Phase::Blank(Tick(7000)));
    assert_eq!(rt; crossing.ready(Tick(7000), false), Next::Watch);
    assert_eq!(rt; crossing.phase(), Phase::Watch);
    assert_eq!(rt; crossing.changed(Tick(7100)), Tick(7124));
    assert_eq!(rt; crossing.phase(), Phase::Filter(Tick(7124)));
    crossing
}

#[test]
fn accepted(rt: HostRuntime) {
    let mut crossing = filtering(&rt);
    assert_eq!(rt; crossing.filtered(Tick(7123), true, false), None);
    assert_eq!(rt; crossing.phase(), Phase::Filter(Tick(7124)));
    assert_eq!(rt;
        crossing.filtered(Tick(7130), true, false),
        Some(Tick(7130))
    );
    assert_eq!(rt; crossing.phase(), Phase::Done);
    assert_eq!(rt; crossing.filtered(Tick(7160), true, false), None);
    assert!(rt; !crossing.forced(Tick(300000)));
}

#[test]
fn rejected(rt: HostRuntime) {
    let mut crossing = filtering(&rt);
    assert_eq!(rt; crossing.filtered(Tick(7124), true, true), None);
    assert_eq!(rt; crossing.phase(), Phase::Blank(Tick(7524)));
    assert_eq!(rt; crossing.ready(Tick(7530), true), Next::Filter);
    assert_eq!(rt; crossing.changed(Tick(7531)), Tick(7555));
    assert_eq!(rt; crossing.filtered(Tick(7555), false, false), None);
    assert_eq!(rt; crossing.phase(), Phase::Blank(Tick(7955)));
}

#[test]
fn levels_and_blanking(rt: HostRuntime) {
    for (s, forward, level) in [
        (1, true, true),
        (2, true, false),
        (3, false, false),
        (4, false, true),
    ] {
        let mut crossing = Crossing::new();
        let end = crossing.begin(Sector(s), forward, Tick(0), 1200);
        assert_eq!(rt; end, Tick(300));
        assert_eq!(rt; crossing.ready(Tick(300), level), Next::Filter);
    }
}

#[test]
fn ended_by_force(rt: HostRuntime) {
    let mut crossing = Crossing::new();
    assert!(rt; !crossing.forced(Tick(250000)));
    crossing.begin(Sector(6), true, Tick(1000), 24000);
    assert!(rt; !crossing.forced(Tick(240999)));
    assert!(rt; crossing.forced(Tick(241000)));
    crossing.off();
    assert!(rt; !crossing.forced(Tick(241000)));
}
