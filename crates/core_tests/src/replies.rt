//! Replies to inverted frames.
ghost use Rattle.std.specs.Prelude.{◌≡◌, ◌≤◌, true, false};
ghost use Rattle.interrupt_machine.specs.Turn.{IsHeld};

use crate::steps::{follow, new_core, pulse};
use esc_base::{Kind, MemFlash, Mode, Note, Tick};
use esc_core::Core;
use interrupt_machine::{Machine, Nest};
use std::process::Abort;
use std::test::Fail;
use timer_regs::{Reg, Regs};

/// A window is open in a mode, and the newest six gaps have this sum.
fn listening(mut core: Core, mode: Mode, gaps: u32) -> (Core, Regs)
    ensures count { result.1.accesses ≤ 2 }
    ensures mask { result.1.masked ≡ false }
{
    core.listening.window = mode;
    let mut regs = Regs::new();
    regs.edge(true);
    regs.write(Reg::CapArm, mode.number() as u32);
    regs.write(Reg::Period, gaps);
    (core, regs)
}

/// An inverted frame begins at tick 10000, with so many ticks a bit: a one is low for 3/4 of its bit, a zero for half as long.
fn send(rt: &impl Abort, regs: &mut Regs, bit: u64, word: u16) {
    assert!(rt; bit < 1000);
    for i in 0..16u64 {
        let is_one = (word >> (15 - i)) & 1 == 1;
        let zero = bit / 8 * 3;
        pulse(
            rt,
            regs,
            false,
            10000 + i * bit,
            if is_one { 2 * zero } else { zero },
        );
    }
}

/// CAP is entered at now, and reads a frame's 32 edges.
fn reads(rt: &impl Abort, machine: &mut Machine<Core>, regs: &mut Regs, flash: &mut MemFlash)
    requires { regs.old.masked ≡ true → IsHeld machine.old.firmware.hold machine.old.open_kinds }
    ensures mask { regs.new.masked ≡ true → IsHeld machine.new.firmware.hold machine.new.open_kinds }
{
    let mut rows = [None; 34];
    rows[0] = Some(Note::Enter {
        t: regs.now(),
        k: 3,
    });
    follow(rt, machine, regs, flash, &rows);
}

/// CAP reads the frame 0x82C9, and answers it with a period and the levels that tell it, from a tick on.
fn answers(
    rt: &impl Abort,
    machine: &mut Machine<Core>,
    regs: &mut Regs,
    flash: &mut MemFlash,
    p: Option<u32>,
    s: Tick,
    b: u32,
)
    requires { regs.old.masked ≡ true → IsHeld machine.old.firmware.hold machine.old.open_kinds }
    ensures mask { regs.new.masked ≡ true → IsHeld machine.new.firmware.hold machine.new.open_kinds }
{
    let t = regs.now();
    reads(rt, machine, regs, flash);
    let rows = [
        Some(Note::Good { t, v: 1046, q: 0 }),
        Some(Note::Period { t, p }),
        Some(Note::Reply { t, s, b }),
        None,
        Some(Note::Leave { t, k: 3 }),
    ];
    follow(rt, machine, regs, flash, &rows);
}

/// The window timer is reached at the end of the reply and not before, and a window opens.
fn listens_after(
    rt: &impl Abort,
    machine: &mut Machine<Core>,
    regs: &mut Regs,
    flash: &mut MemFlash,
    end: u32,
    m: u8,
)
    requires { regs.old.masked ≡ true → IsHeld machine.old.firmware.hold machine.old.open_kinds }
{
    assert!(rt; regs.accesses() < 1000);
    assert_eq!(rt; regs.read(Reg::Reply), end);
    let t = Tick(end as u64);
    assert!(rt; regs.now().0 < t.0 && t.0 < 1000000);
    regs.advance(Tick(t.0 - 1));
    assert!(rt; !regs.due().has(Kind::Cap));
    regs.advance(t);
    let rows = [
        Some(Note::Enter { t, k: 3 }),
        Some(Note::Window { t, m }),
        Some(Note::Leave { t, k: 3 }),
    ];
    follow(rt, machine, regs, flash, &rows);
}

/// DShot600 while the motor turns: 48000 ticks for six gaps are 1000 microseconds. The last edge is at tick 11260, and each
/// bit of the reply lasts 64 ticks.
#[test]
fn a_reply_tells_the_period(rt: HostRuntime) -> Result<(), Fail> {
    let mut flash = MemFlash::new(rt.alloc())?;
    let (mut core, mut regs) = listening(new_core(rt.alloc())?, Mode::D600Inv, 48000);
    core.control.found(Mode::D600Inv);
    let mut machine = Machine::new(core, Nest::One);
    send(&rt, &mut regs, 80, 0x82C9);
    assert!(rt; !regs.masked());
    assert_eq!(rt; regs.now(), Tick(11260));
    answers(
        &rt,
        &mut machine,
        &mut regs,
        &mut flash,
        Some(1000),
        Tick(12700),
        0b0_11101_10101_01001_00101,
    );
    listens_after(&rt, &mut machine, &mut regs, &mut flash, 14044, 4);
    Ok(())
}

/// DShot300 while the motor stands. The last edge is at tick 12520, and each bit of the reply lasts 128 ticks.
#[test]
fn a_reply_tells_that_no_period_is_there(rt: HostRuntime) -> Result<(), Fail> {
    let mut flash = MemFlash::new(rt.alloc())?;
    let (mut core, mut regs) = listening(new_core(rt.alloc())?, Mode::D300Inv, 0);
    core.control.found(Mode::D300Inv);
    let mut machine = Machine::new(core, Nest::One);
    send(&rt, &mut regs, 160, 0x82C9);
    assert!(rt; !regs.masked());
    assert_eq!(rt; regs.now(), Tick(12520));
    answers(
        &rt,
        &mut machine,
        &mut regs,
        &mut flash,
        None,
        Tick(13960),
        0b0_01010_01010_01010_10001,
    );
    listens_after(&rt, &mut machine, &mut regs, &mut flash, 16648, 3);
    Ok(())
}

/// CAP comes more than 1440 ticks after the last edge: the reply starts at the next tick. Control has lost the mode meanwhile,
/// so the window that follows is in mode 0.
#[test]
fn a_late_reply_starts_at_once(rt: HostRuntime) -> Result<(), Fail> {
    let mut flash = MemFlash::new(rt.alloc())?;
    let (core, mut regs) = listening(new_core(rt.alloc())?, Mode::D600Inv, 0);
    let mut machine = Machine::new(core, Nest::One);
    send(&rt, &mut regs, 80, 0x82C9);
    assert!(rt; !regs.masked() && regs.now().0 < 20000);
    regs.advance(Tick(20000));
    answers(
        &rt,
        &mut machine,
        &mut regs,
        &mut flash,
        None,
        Tick(20001),
        0b0_01010_01010_01010_10001,
    );
    listens_after(&rt, &mut machine, &mut regs, &mut flash, 21345, 0);
    Ok(())
}

/// The last bit of the checksum is turned: no period is read, and no reply is loaded.
#[test]
fn a_damaged_frame_gets_no_reply(rt: HostRuntime) -> Result<(), Fail> {
    let mut flash = MemFlash::new(rt.alloc())?;
    let (core, mut regs) = listening(new_core(rt.alloc())?, Mode::D600Inv, 48000);
    let mut machine = Machine::new(core, Nest::One);
    send(&rt, &mut regs, 80, 0x82C8);
    assert!(rt; !regs.masked());
    let t = regs.now();
    reads(&rt, &mut machine, &mut regs, &mut flash);
    let rows = [
        Some(Note::Bad { t, w: 5 }),
        None,
        Some(Note::Leave { t, k: 3 }),
    ];
    follow(&rt, &mut machine, &mut regs, &mut flash, &rows);
    assert!(rt; regs.accesses() < 1000);
    assert_eq!(rt; regs.read(Reg::Reply), 0);
    Ok(())
}
