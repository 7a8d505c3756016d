//! The search for a sector's zero crossing.
ghost use Rattle.std.specs.Prelude.{◌≡◌, ◌<◌, ◌≤◌, true, false};
ghost use Rattle.interrupt_machine.specs.Turn.{IsHeld};

use crate::steps::{follow, new_core};
use esc_base::{Kind, MemFlash, Note, Sector, Tick};
use esc_core::Core;
use interrupt_machine::{Machine, Nest, Notes};
use std::process::Abort;
use std::test::Fail;
use timer_regs::{Reg, Regs};

/// In sector 1 of a forward drive from tick 4 on, whose blanking ends at tick 304 and whose
/// forced change is due at tick `change`. The level after its crossing is 1.
fn searching(mut core: Core, change: u32) -> (Machine<Core>, Regs)
    ensures count { result.1.accesses ≤ 10 }
    ensures now { result.1.time ≡ 4 }
    ensures mask { result.1.masked ≡ false }
{
    core.drive.turned = true;
    core.drive.change = change;
    let _ = core.drive.crossing.begin(Sector(1), true, Tick(4), 1200);
    let mut regs = Regs::new();
    regs.advance(Tick(4));
    regs.write(Reg::Sector, 1);
    regs.write(Reg::CommAt, 240004);
    regs.write(Reg::CmpAt, 304);
    (Machine::new(core, Nest::Full), regs)
}

/// CMP is entered at now, makes steps without a note, and returns.
fn looks(
    rt: &impl Abort,
    machine: &mut Machine<Core>,
    regs: &mut Regs,
    flash: &mut MemFlash,
    quiet: &[Option<Note>],
)
    requires { regs.old.masked ≡ true → IsHeld machine.old.firmware.hold machine.old.open_kinds }
    ensures mask { regs.new.masked ≡ true → IsHeld machine.new.firmware.hold machine.new.open_kinds }
{
    let t = regs.now();
    follow(rt, machine, regs, flash, &[Some(Note::Enter { t, k: 4 })]);
    follow(rt, machine, regs, flash, quiet);
    follow(rt, machine, regs, flash, &[Some(Note::Leave { t, k: 4 })]);
}

/// Time goes on to a tick at which CMP becomes due.
fn waits(rt: &impl Abort, machine: &Machine<Core>, regs: &mut Regs, due: u64)
    ensures mask { regs.new.masked ≡ regs.old.masked }
{
    assert!(rt; regs.now().0 < due && due < 1000000);
    regs.advance(Tick(due - 1));
    assert!(rt; machine.idle(regs));
    regs.advance(Tick(due));
    assert!(rt; regs.due().has(Kind::Cmp));
}

/// The expected level is there at the end of blanking, at tick 304, and 24 ticks later: the crossing is accepted. With an
/// interval of 24000 and advance 1 the next sector change is due 9000 ticks after it.
#[test]
fn a_crossing_is_accepted(rt: HostRuntime) -> Result<(), Fail> {
    let mut flash = MemFlash::new(rt.alloc())?;
    let (mut machine, mut regs) = searching(new_core(rt.alloc())?, 240004);
    regs.advance(Tick(200));
    regs.comp(true);
    waits(&rt, &machine, &mut regs, 304);
    looks(&rt, &mut machine, &mut regs, &mut flash, &[None; 6]);
    waits(&rt, &machine, &mut regs, 328);
    let t = Tick(328);
    let rows = [
        Some(Note::Enter { t, k: 4 }),
        None,
        Some(Note::Cross { t }),
        None,
        None,
        Some(Note::Leave { t, k: 4 }),
    ];
    follow(&rt, &mut machine, &mut regs, &mut flash, &rows);
    assert_eq!(rt; regs.now(), t);
    regs.advance(Tick(9327));
    assert!(rt; !regs.due().has(Kind::Comm));
    regs.advance(Tick(9328));
    assert!(rt; regs.due().has(Kind::Comm));
    Ok(())
}

/// The comparator chatters while the filter stands: it is rejected, and 400 ticks of blanking follow.
#[test]
fn a_chatter_is_no_crossing(rt: HostRuntime) -> Result<(), Fail> {
    let mut flash = MemFlash::new(rt.alloc())?;
    let (mut machine, mut regs) = searching(new_core(rt.alloc())?, 240004);
    regs.comp(true);
    waits(&rt, &machine, &mut regs, 304);
    looks(&rt, &mut machine, &mut regs, &mut flash, &[None; 6]);
    regs.comp(false);
    regs.comp(true);
    waits(&rt, &machine, &mut regs, 328);
    looks(&rt, &mut machine, &mut regs, &mut flash, &[None; 4]);
    waits(&rt, &machine, &mut regs, 728);
    looks(&rt, &mut machine, &mut regs, &mut flash, &[None; 6]);
    waits(&rt, &machine, &mut regs, 752);
    Ok(())
}

/// The level is 0 at the end of blanking. Its next change, at tick 400, begins a filter.
#[test]
fn a_change_is_waited_for(rt: HostRuntime) -> Result<(), Fail> {
    let mut flash = MemFlash::new(rt.alloc())?;
    let (mut machine, mut regs) = searching(new_core(rt.alloc())?, 240004);
    waits(&rt, &machine, &mut regs, 304);
    looks(&rt, &mut machine, &mut regs, &mut flash, &[None; 4]);
    assert_eq!(rt; regs.now(), Tick(304));
    regs.advance(Tick(400));
    assert!(rt; machine.idle(&regs));
    regs.comp(true);
    assert!(rt; regs.due().has(Kind::Cmp));
    looks(&rt, &mut machine, &mut regs, &mut flash, &[None; 5]);
    waits(&rt, &machine, &mut regs, 424);
    Ok(())
}

/// COMM changes the sector while CMP is open: CMP goes on with the new sector, whose blanking of 6000 ticks isn't over, and
/// writes nothing. The new sector's blanking ends at tick 6304.
#[test]
fn the_sector_changes_under_cmp(rt: HostRuntime) -> Result<(), Fail> {
    let mut flash = MemFlash::new(rt.alloc())?;
    let (mut machine, mut regs) = searching(new_core(rt.alloc())?, 304);
    waits(&rt, &machine, &mut regs, 304);
    let t = Tick(304);
    follow(
        &rt,
        &mut machine,
        &mut regs,
        &mut flash,
        &[Some(Note::Enter { t, k: 4 })],
    );
    assert!(rt; regs.accesses() < 1000 && regs.now().0 == 304);
    regs.write(Reg::CommAt, 304);
    let rows = [
        Some(Note::Enter { t, k: 6 }),
        None,
        None,
        None,
        Some(Note::Step { t, s: 2 }),
        Some(Note::Gate { t, hi: 0, lo: 2 }),
        None,
        None,
        None,
        None,
        None,
        Some(Note::Leave { t, k: 6 }),
        None,
        None,
        None,
        Some(Note::Leave { t, k: 4 }),
    ];
    follow(&rt, &mut machine, &mut regs, &mut flash, &rows);
    assert_eq!(rt; regs.now(), t);
    regs.advance(Tick(6303));
    assert!(rt; !regs.due().has(Kind::Cmp));
    regs.advance(Tick(6304));
    assert!(rt; regs.due().has(Kind::Cmp));
    Ok(())
}

/// The comparator has its other level from now on, where that is so.
fn changes(regs: &mut Regs, is_change: bool)
    ensures count { regs.new.accesses ≡ regs.old.accesses }
    ensures mask { regs.new.masked ≡ regs.old.masked }
{
    if is_change {
        regs.comp(true);
    }
}

/// How many crossings are noted up to tick 1000, where steps are so many ticks apart and the comparator changes at a tick,
/// before a step at that tick. Each of them stands 24 ticks after the change or later.
fn crossings_after(
    rt: &impl Abort,
    machine: &mut Machine<Core>,
    regs: &mut Regs,
    flash: &mut MemFlash,
    cost: u64,
    change: u64,
) -> u32
    requires mask { regs.old.masked ≡ true → IsHeld machine.old.firmware.hold machine.old.open_kinds }
    requires cost { cost ≤ 16 }
    requires change { change < 1000 }
{
    let mut notes = Notes::new();
    let mut count = 0u32;
    let mut next = 0u64;
    for t in 304u64..1000 {
        assert!(rt; regs.accesses() < 1000 && regs.now().0 <= t);
        regs.advance(Tick(t));
        changes(regs, t == change);
        if t < next || machine.idle(regs) {
            continue;
        }
        machine.step_into(regs, flash, &mut notes);
        next = t + cost;
        if notes.as_slice().contains(&Note::Cross { t: Tick(t) }) {
            assert!(rt; change + 24 <= t);
            count = count.saturating_add(1);
        }
    }
    count
}

/// CMP is entered at the end of blanking, at tick 304. The comparator changes at the entry or up to 12 ticks after it, between
/// any two of CMP's steps, and its crossing is accepted all the same.
#[test]
fn no_change_at_the_end_of_blanking_is_lost(rt: HostRuntime) -> Result<(), Fail> {
    let mut flash = MemFlash::new(rt.alloc())?;
    for cost in [1u64, 2, 16] {
        for delay in 0u64..13 {
            let (mut machine, mut regs) = searching(new_core(rt.alloc())?, 240004);
            let change = 304 + delay;
            let count = crossings_after(&rt, &mut machine, &mut regs, &mut flash, cost, change);
            assert_eq!(rt; count, 1, "cost {cost}, {delay} ticks after the entry");
        }
    }
    Ok(())
}
