//! The registers: what is read, what becomes due, and when.
ghost use Rattle.std.specs.Prelude.{◌≤◌, ◌<◌, ◌^◌};

use esc_base::{Arrived, GateWord, Kind, Tick};
use std::process::Abort;
use timer_regs::{KindSet, Reg, Regs};

#[test]
fn control_tick_comes_due(rt: HostRuntime) {
    let mut regs = Regs::new();
    assert_eq!(rt; regs.now(), Tick(0));
    assert_eq!(rt; regs.due(), KindSet::none());
    assert_eq!(rt; regs.next_due(), Some(Tick(2400)));
    regs.advance(Tick(2400));
    assert!(rt; regs.due().has(Kind::Tick));
    assert_eq!(rt; regs.next_due(), None);
    regs.entered(Kind::Tick);
    assert!(rt; regs.due().has(Kind::Tick));
    assert_eq!(rt; regs.read(Reg::TickState), 1);
    assert_eq!(rt; regs.due(), KindSet::none());
    assert_eq!(rt; regs.next_due(), Some(Tick(4800)));
    assert_eq!(rt; regs.accesses(), 1);
}

#[test]
fn window_is_captured(rt: HostRuntime) {
    let mut regs = Regs::new();
    regs.write(Reg::CapArm, 2);
    regs.advance(Tick(100));
    regs.edge(true);
    regs.edge(true);
    assert_eq!(rt; regs.next_due(), Some(Tick(260)));
    regs.advance(Tick(259));
    assert_eq!(rt; regs.read(Reg::CapState), 0);
    regs.advance(Tick(260));
    assert!(rt; regs.due().has(Kind::Cap));
    regs.entered(Kind::Cap);
    assert_eq!(rt; regs.due(), KindSet::none());
    assert_eq!(rt; regs.read(Reg::CapState), 1);
    assert_eq!(rt; regs.read(Reg::CapEdge(0)), 2_147_483_748);
    assert_eq!(rt; regs.read(Reg::CapEdge(1)), 0);
}

#[test]
fn window_timer_waits_for_rest(rt: HostRuntime) {
    let mut regs = Regs::new();
    regs.advance(Tick(500));
    regs.edge(true);
    regs.write(Reg::CapAt, 600);
    assert_eq!(rt; regs.next_due(), Some(Tick(700)));
    regs.advance(Tick(699));
    regs.edge(false);
    assert_eq!(rt; regs.next_due(), Some(Tick(899)));
    regs.advance(Tick(899));
    regs.edge(true);
    assert!(rt; regs.due().has(Kind::Cap));
}

#[test]
fn window_timer_and_mask(rt: HostRuntime) {
    let mut regs = Regs::new();
    regs.write(Reg::CapAt, 600);
    assert_eq!(rt; regs.next_due(), Some(Tick(600)));
    regs.advance(Tick(600));
    assert_eq!(rt; regs.due(), KindSet::only(Kind::Cap));
    regs.entered(Kind::Cap);
    assert_eq!(rt; regs.due(), KindSet::none());
    regs.write(Reg::Mask, 1);
    assert!(rt; regs.masked());
    assert_eq!(rt; regs.gates().hi, 0);
    regs.comp(true);
    regs.trip();
    assert_eq!(rt; regs.serial(7), Arrived::Kept);
    assert_eq!(rt; regs.accesses(), 2);
}

#[test]
fn switches_and_sector(rt: HostRuntime) {
    let mut regs = Regs::new();
    regs.write(Reg::GhSet, 5);
    regs.write(Reg::GlSet, 2);
    assert_eq!(rt; regs.gates(), GateWord { hi: 5, lo: 2 });
    regs.write(Reg::GhClr, 4);
    regs.write(Reg::GlClr, 7);
    assert_eq!(rt; regs.gates(), GateWord { hi: 1, lo: 0 });
    assert_eq!(rt; regs.read(Reg::Sector), 0);
    regs.write(Reg::Sector, 3);
    assert_eq!(rt; regs.read(Reg::Sector), 3);
}

#[test]
fn pwm_events(rt: HostRuntime) {
    let mut regs = Regs::new();
    regs.write(Reg::Duty, 300);
    assert_eq!(rt; regs.due(), KindSet::only(Kind::Pwm));
    regs.entered(Kind::Pwm);
    assert_eq!(rt; regs.next_due(), Some(Tick(300)));
    regs.advance(Tick(299));
    assert_eq!(rt; regs.due(), KindSet::none());
    regs.advance(Tick(300));
    assert!(rt; regs.due().has(Kind::Pwm));
    regs.entered(Kind::Pwm);
    assert_eq!(rt; regs.next_due(), Some(Tick(2000)));
    regs.advance(Tick(2299));
    assert_eq!(rt; regs.read(Reg::PwmPos), 299);
    assert!(rt; regs.due().has(Kind::Pwm));
    regs.write(Reg::Duty, 0);
    assert_eq!(rt; regs.due(), KindSet::none());
    assert_eq!(rt; regs.next_due(), Some(Tick(2400)));
}

#[test]
fn commutation_timer_and_stuck_mark(rt: HostRuntime) {
    let mut regs = Regs::new();
    regs.write(Reg::CommAt, 500);
    assert_eq!(rt; regs.next_due(), Some(Tick(500)));
    regs.advance(Tick(499));
    assert_eq!(rt; regs.due(), KindSet::none());
    regs.advance(Tick(500));
    assert_eq!(rt; regs.due(), KindSet::only(Kind::Comm));
    regs.entered(Kind::Comm);
    assert_eq!(rt; regs.due(), KindSet::none());
    regs.write(Reg::CommAt, 400);
    assert!(rt; regs.due().has(Kind::Comm));
    regs.write(Reg::Stuck, 1);
    assert_eq!(rt; regs.read(Reg::TickState), 0x4000_0000);
    regs.write(Reg::DriveOff, 0);
    assert_eq!(rt; regs.due(), KindSet::none());
    assert_eq!(rt; regs.read(Reg::TickState), 0);
}

#[test]
fn comparator_asks_for_a_crossing(rt: HostRuntime) {
    let mut regs = Regs::new();
    regs.comp(false);
    assert_eq!(rt; regs.read(Reg::CmpState), 0);
    regs.comp(true);
    assert_eq!(rt; regs.read(Reg::CmpState), 3);
    assert_eq!(rt; regs.due(), KindSet::none());
    regs.write(Reg::CmpAck, 0);
    assert_eq!(rt; regs.read(Reg::CmpState), 1);
    regs.comp(false);
    regs.comp(true);
    assert_eq!(rt; regs.read(Reg::CmpState), 3);
    regs.write(Reg::CmpEn, 1);
    assert_eq!(rt; regs.read(Reg::CmpState), 1);
    assert_eq!(rt; regs.due(), KindSet::none());
    regs.comp(true);
    assert_eq!(rt; regs.due(), KindSet::none());
    regs.comp(false);
    assert_eq!(rt; regs.read(Reg::CmpState), 2);
    assert_eq!(rt; regs.due(), KindSet::only(Kind::Cmp));
    regs.entered(Kind::Cmp);
    assert_eq!(rt; regs.due(), KindSet::none());
    assert_eq!(rt; regs.read(Reg::CmpState), 2);
}

#[test]
fn crossing_timer(rt: HostRuntime) {
    let mut regs = Regs::new();
    regs.write(Reg::CmpEn, 1);
    regs.write(Reg::CmpAt, 500);
    regs.comp(true);
    assert_eq!(rt; regs.due(), KindSet::none());
    assert_eq!(rt; regs.next_due(), Some(Tick(500)));
    regs.advance(Tick(499));
    assert_eq!(rt; regs.due(), KindSet::none());
    regs.advance(Tick(500));
    assert_eq!(rt; regs.due(), KindSet::only(Kind::Cmp));
    assert_eq!(rt; regs.next_due(), Some(Tick(2400)));
    regs.write(Reg::CmpEn, 1);
    assert_eq!(rt; regs.due(), KindSet::only(Kind::Cmp));
    regs.entered(Kind::Cmp);
    regs.comp(false);
    assert_eq!(rt; regs.due(), KindSet::none());
    regs.write(Reg::CmpEn, 1);
    regs.write(Reg::CmpAt, 500);
    regs.write(Reg::DriveOff, 1);
    regs.comp(true);
    assert_eq!(rt; regs.due(), KindSet::none());
    assert_eq!(rt; regs.next_due(), Some(Tick(2400)));
    regs.write(Reg::CmpEn, 0);
    regs.comp(false);
    assert_eq!(rt; regs.due(), KindSet::none());
}

#[test]
fn period_of_the_drive(rt: HostRuntime) {
    let mut regs = Regs::new();
    assert_eq!(rt; regs.read(Reg::Period), 0);
    regs.write(Reg::Period, 48000);
    assert_eq!(rt; regs.read(Reg::Period), 48000);
    regs.write(Reg::DriveOff, 1);
    assert_eq!(rt; regs.read(Reg::Period), 0);
}

/// A window in this mode hears one edge at tick 100. The reply that is loaded at the second tick ends at the last one.
fn reply_ends(rt: &impl Abort, mode: u32, at: u64, end: u32)
    requires mode { mode ≤ 5 }
    requires later { 100 ≤ at }
    requires small { at < 2 ^ 31 }
{
    let mut regs = Regs::new();
    assert_eq!(rt; regs.read(Reg::Reply), 0);
    regs.write(Reg::CapArm, mode);
    regs.advance(Tick(100));
    regs.edge(true);
    regs.advance(Tick(at));
    regs.write(Reg::Reply, 1);
    assert_eq!(rt; regs.read(Reg::Reply), end);
}

#[test]
fn replies_end(rt: HostRuntime) {
    reply_ends(&rt, 4, 300, 1540 + 21 * 64);
    reply_ends(&rt, 3, 300, 1540 + 21 * 128);
    reply_ends(&rt, 4, 2000, 2001 + 21 * 64);
    let mut regs = Regs::new();
    regs.write(Reg::Reply, 1);
    assert_eq!(rt; regs.read(Reg::Reply), 1 + 21 * 128);
}
