ghost use Rattle.std.specs.Prelude.{◌≡◌, ◌<◌};

use arming::{Control, Marks, on_ticks};
use bitflags::Flags;
use dshot_commands::Act;
use esc_base::{Cause, Mode};

/// Feeds equal frames, and answers how many of them made a command act.
fn acted(control: &mut Control, value: u16, frames: u8) -> u8
    requires { value < 2048 }
    ensures { control.new.number ≡ control.old.number }
{
    let mut acts = 0;
    for _ in 0..frames {
        if control.frame(value).is_some() && acts < 255 {
            acts += 1;
        }
    }
    acts
}

/// Armed at control tick 5000, with demand 0.
fn armed(rt: &impl std::process::Abort) -> Control
    ensures { result.number ≡ 5000 }
{
    let mut control = Control::new();
    control.found(Mode::D600Inv);
    acted(&mut control, 0, 30);
    assert!(rt; !control.tick(4999, Marks::empty()).armed_now);
    assert!(rt; control.tick(5000, Marks::empty()).armed_now);
    control
}

#[test]
fn throttle_gives_ticks(rt: HostRuntime) {
    assert_eq!(rt; on_ticks(48), 100);
    assert_eq!(rt; on_ticks(49), 100);
    assert_eq!(rt; on_ticks(1046), 998);
    assert_eq!(rt; on_ticks(2047), 1900);
}

#[test]
fn arms_after_thirty_zero_frames(rt: HostRuntime) {
    let mut control = Control::new();
    acted(&mut control, 0, 29);
    assert!(rt; !control.tick(5000, Marks::empty()).armed_now);
    acted(&mut control, 0, 1);
    assert!(rt; !control.tick(5001, Marks::SESSION).armed_now);
    assert!(rt; !control.tick(5002, Marks::FUSE).armed_now);
    assert_eq!(rt; control.tick(5003, Marks::STUCK).lost, Some(Cause::Stuck));
    acted(&mut control, 0, 30);
    assert!(rt; !control.tick(10002, Marks::empty()).armed_now);
    assert!(rt; control.tick(10003, Marks::empty()).armed_now);
    assert!(rt; control.armed());
    assert_eq!(rt; control.number(), 10003);
}

#[test]
fn throttle_before_arming_gives_no_demand(rt: HostRuntime) {
    let mut control = Control::new();
    acted(&mut control, 1046, 40);
    let ticked = control.tick(9999, Marks::empty());
    assert_eq!(rt; ticked.demand, 0);
    assert!(rt; !control.armed());
}

#[test]
fn demand_ramps_up(rt: HostRuntime) {
    let mut control = armed(&rt);
    control.frame(1046);
    for n in 5001..5050u32 {
        let ticked = control.tick(n, Marks::empty());
        assert_eq!(rt; ticked.demand as u32, 20 * (n - 5000));
        assert_eq!(rt; ticked.start, n == 5001);
    }
    assert_eq!(rt; control.tick(5050, Marks::empty()).demand, 998);
    assert_eq!(rt; control.tick(5051, Marks::empty()).demand, 998);
    assert_eq!(rt; control.demand(), 998);
    control.frame(0);
    assert_eq!(rt; control.tick(5052, Marks::empty()).demand, 0);
    assert_eq!(rt; control.tick(5053, Marks::FUSE).lost, Some(Cause::Fuse));
    assert_eq!(rt; control.mode(), Mode::D600Inv);
}

#[test]
fn silence_times_out(rt: HostRuntime) {
    let mut control = armed(&rt);
    control.frame(1046);
    assert_eq!(rt; control.tick(14999, Marks::empty()).lost, None);
    let ticked = control.tick(15000, Marks::empty());
    assert_eq!(rt; ticked.lost, Some(Cause::Timeout));
    assert_eq!(rt; ticked.demand, 0);
    assert_eq!(rt; control.mode(), Mode::Unknown);
    control.found(Mode::Servo);
    assert_eq!(rt; control.tick(24999, Marks::empty()).lost, None);
    assert_eq!(rt;
        control.tick(25000, Marks::empty()).lost,
        Some(Cause::Timeout)
    );
    assert_eq!(rt; control.mode(), Mode::Unknown);
}

#[test]
fn commands_act_while_still(rt: HostRuntime) {
    let mut control = armed(&rt);
    assert_eq!(rt; acted(&mut control, 21, 5), 0);
    assert_eq!(rt; acted(&mut control, 20, 1), 0);
    assert_eq!(rt; acted(&mut control, 21, 5), 0);
    assert_eq!(rt; control.frame(21), Some(Act::Spin(1)));
    assert_eq!(rt; acted(&mut control, 21, 1), 0);
    assert_eq!(rt; control.frame(3), Some(Act::Beacon(3)));
    control.frame(100);
    control.tick(5001, Marks::empty());
    assert_eq!(rt; acted(&mut control, 12, 7), 0);
    assert_eq!(rt; acted(&mut Control::new(), 1, 7), 0);
}
