//! The handlers' steps: a control tick, a first frame, a save.
ghost use Rattle.std.specs.Prelude.{◌≡◌, true};
ghost use Rattle.interrupt_machine.specs.Turn.{IsHeld};

use esc_base::{FlashOp, MemFlash, Note, Tick};
use esc_core::Core;
use fourway_packet::Packets;
use interrupt_machine::{Machine, Nest, Notes};
use settings_block::{default_block, read_block, write_block};
use std::alloc::Global;
use std::process::Abort;
use std::test::Fail;
use timer_regs::{Reg, Regs};

/// The core of a blank flash.
pub(crate) fn new_core(alloc: Global) -> Result<Core, Fail> {
    let settings = read_block(&default_block())?;
    Ok(Core::new(settings, Packets::new(alloc)?))
}

/// Makes a step for each row, and checks its first note.
pub(crate) fn follow(
    rt: &impl Abort,
    machine: &mut Machine<Core>,
    regs: &mut Regs,
    flash: &mut MemFlash,
    rows: &[Option<Note>],
)
    requires { regs.old.masked ≡ true → IsHeld machine.old.firmware.hold machine.old.open_kinds }
    ensures mask { regs.new.masked ≡ true → IsHeld machine.new.firmware.hold machine.new.open_kinds }
{
    let mut notes = Notes::new();
    for row in rows {
        assert!(rt; !machine.idle(regs));
        assert!(rt; regs.accesses() < 1000);
        machine.step_into(regs, flash, &mut notes);
        assert_eq!(rt; notes.as_slice().first().copied(), *row);
    }
}

#[test]
fn a_control_tick(rt: HostRuntime) -> Result<(), Fail> {
    let mut flash = MemFlash::new(rt.alloc())?;
    let mut regs = Regs::new();
    let mut machine = Machine::new(new_core(rt.alloc())?, Nest::One);
    let t = Tick(2400);
    regs.advance(t);
    follow(
        &rt,
        &mut machine,
        &mut regs,
        &mut flash,
        &[Some(Note::Enter { t, k: 2 }), None],
    );
    assert!(rt; regs.masked());
    let number = Note::Control {
        t,
        n: 1,
        s: 0,
        d: 0,
    };
    follow(&rt, &mut machine, &mut regs, &mut flash, &[Some(number)]);
    assert!(rt; regs.masked());
    follow(&rt, &mut machine, &mut regs, &mut flash, &[None; 5]);
    assert!(rt; !regs.masked());
    follow(
        &rt,
        &mut machine,
        &mut regs,
        &mut flash,
        &[Some(Note::Leave { t, k: 2 })],
    );
    assert!(rt; machine.idle(&regs));
    Ok(())
}

/// The line has a level for so many ticks, from a tick on.
pub(crate) fn pulse(rt: &impl Abort, regs: &mut Regs, level: bool, at: u64, width: u64)
    ensures mask { regs.new.masked ≡ regs.old.masked }
{
    assert!(rt; at < 1000000 && width < 1000);
    assert!(rt; regs.now().0 <= at);
    regs.advance(Tick(at));
    regs.edge(level);
    regs.advance(Tick(at + width));
    regs.edge(!level);
}

/// The frame of value 1046 at tick 10000: each bit is 80 ticks, a zero is high for 30 of them and a one for 60.
#[test]
fn a_first_frame(rt: HostRuntime) -> Result<(), Fail> {
    let mut flash = MemFlash::new(rt.alloc())?;
    let mut regs = Regs::new();
    let mut machine = Machine::new(new_core(rt.alloc())?, Nest::One);
    regs.write(Reg::CapArm, 0);
    let widths = [
        60, 30, 30, 30, 30, 30, 60, 30, 60, 60, 30, 30, 30, 60, 60, 30,
    ];
    let mut at = 10000;
    for width in widths.as_slice() {
        pulse(&rt, &mut regs, true, at, *width);
        assert!(rt; at < 100000);
        at += 80;
    }
    assert!(rt; !regs.masked());
    let t = regs.now();
    assert_eq!(rt; t, Tick(11230));
    let mut reads = [None; 34];
    reads[0] = Some(Note::Enter { t, k: 3 });
    follow(&rt, &mut machine, &mut regs, &mut flash, &reads);
    follow(
        &rt,
        &mut machine,
        &mut regs,
        &mut flash,
        &[
            Some(Note::Detected { t, m: 2 }),
            Some(Note::Window { t, m: 2 }),
            Some(Note::Leave { t, k: 3 }),
        ],
    );
    Ok(())
}

/// A save is asked for: MAIN is entered, saves in its first step with result `r`, and returns in the second.
fn saves(rt: &impl Abort, mut core: Core, flash: &mut MemFlash, r: u8) {
    let mut regs = Regs::new();
    core.orders.save_asked = true;
    let mut machine = Machine::new(core, Nest::One);
    assert!(rt; !regs.masked());
    let t = Tick(0);
    let rows = [
        Some(Note::Enter { t, k: 0 }),
        Some(Note::Saved { t, r }),
        Some(Note::Leave { t, k: 0 }),
    ];
    follow(rt, &mut machine, &mut regs, flash, &rows);
    assert!(rt; machine.idle(&regs));
}

#[test]
fn main_saves_the_settings(rt: HostRuntime) -> Result<(), Fail> {
    let mut flash = MemFlash::new(rt.alloc())?;
    let mut settings = read_block(&default_block())?;
    settings.direction = 1;
    for op in [FlashOp::Erase, FlashOp::Program] {
        flash.fail(op, 1)?;
        let core = Core::new(settings, Packets::new(rt.alloc())?);
        saves(&rt, core, &mut flash, 1);
    }
    let core = Core::new(settings, Packets::new(rt.alloc())?);
    saves(&rt, core, &mut flash, 0);
    let block = write_block(&settings);
    assert_eq!(rt; flash.bytes().get(0x7C00..0x7C30), Some(block.0.as_slice()));
    Ok(())
}
