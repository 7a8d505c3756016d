//! Drives: their start, their switches, and their end.
ghost use Rattle.std.specs.Prelude.{◌≡◌, ◌≤◌, true};
ghost use Rattle.interrupt_machine.specs.Turn.{IsHeld};

use crate::steps::{follow, new_core};
use arming::{Control, Marks};
use bitflags::Flags;
use esc_base::{GateWord, MemFlash, Note, Sector, Tick};
use esc_core::Core;
use gate_driver::{AllOff, ToSector};
use interrupt_machine::{Machine, Nest, Notes};
use std::process::Abort;
use std::test::Fail;
use timer_regs::{Reg, Regs};

const A: u8 = 1;

const B: u8 = 2;

const C: u8 = 4;

/// The pairs of sectors 1 to 6: the high switch and the low one.
const PAIRS: [(u8, u8); 6] = [(A, B), (C, B), (C, A), (B, A), (B, C), (A, C)];

/// Armed by control tick 5000, with throttle 1046 since.
fn arm(control: &mut Control) {
    for _ in 0..30 {
        let _ = control.frame(0);
    }
    if control.number() < 5000 {
        let _ = control.tick(5000, Marks::empty());
    }
    let _ = control.frame(1046);
}

/// Control tick 5001 is the first one with a demand, 20 ticks: it starts the drive. COMM comes before any chop, and takes
/// sector 1; at 400 ticks in the period the high switch stays off, and so it does in the chop.
#[test]
fn a_drive_starts(rt: HostRuntime) -> Result<(), Fail> {
    let mut flash = MemFlash::new(rt.alloc())?;
    let mut regs = Regs::new();
    let mut core = new_core(rt.alloc())?;
    arm(&mut core.control);
    let mut machine = Machine::new(core, Nest::Full);
    let t = Tick(5001 * 2400);
    regs.advance(t);
    let number = Note::Control {
        t,
        n: 5001,
        s: 0,
        d: 20,
    };
    let rows = [
        Some(Note::Enter { t, k: 2 }),
        None,
        Some(number),
        None,
        None,
        None,
        Some(Note::Enter { t, k: 6 }),
        None,
        None,
        None,
        Some(Note::Step { t, s: 1 }),
        Some(Note::Gate { t, hi: 0, lo: B }),
        None,
        None,
        None,
        None,
        None,
        Some(Note::Leave { t, k: 6 }),
        Some(Note::Enter { t, k: 5 }),
        None,
        None,
        None,
        None,
        None,
        None,
        Some(Note::Leave { t, k: 5 }),
        Some(Note::Leave { t, k: 2 }),
    ];
    follow(&rt, &mut machine, &mut regs, &mut flash, &rows);
    assert!(rt; machine.idle(&regs));
    Ok(())
}

/// Driven in a sector from tick 4 on, with the pair on and a chop asked for: the first 500 ticks of a period are on.
fn driven(mut core: Core, s: u8) -> (Core, Regs)
    requires first { 1 ≤ s }
    requires last { s ≤ 6 }
    ensures count { result.1.accesses ≤ 10 }
    ensures now { result.1.time ≡ 4 }
{
    core.drive.turn = ToSector::new(Sector(s));
    core.drive.turned = true;
    let (high, low) = PAIRS[s as usize - 1];
    let mut regs = Regs::new();
    regs.advance(Tick(4));
    regs.write(Reg::Sector, s as u32);
    regs.write(Reg::GhSet, high as u32);
    regs.write(Reg::GlSet, low as u32);
    regs.write(Reg::Duty, 500);
    (core, regs)
}

/// A leg seen from outside: when each of its switches last went off.
#[derive(Drop)]
struct LegSeen {
    bit: u8,
    high_off: Option<Tick>,
    low_off: Option<Tick>,
}

impl LegSeen {
    fn new(bit: u8) -> LegSeen {
        LegSeen {
            bit,
            high_off: None,
            low_off: None,
        }
    }

    /// A switch that turns on finds the other one of its leg off for 48 ticks.
    fn goes(&mut self, rt: &impl Abort, t: Tick, before: GateWord, after: GateWord) {
        if before.hi & self.bit != 0 && after.hi & self.bit == 0 {
            self.high_off = Some(t);
        }
        if before.lo & self.bit != 0 && after.lo & self.bit == 0 {
            self.low_off = Some(t);
        }
        if after.hi & self.bit != 0 && before.hi & self.bit == 0 {
            assert!(rt; has_passed(self.low_off, t));
        }
        if after.lo & self.bit != 0 && before.lo & self.bit == 0 {
            assert!(rt; has_passed(self.high_off, t));
        }
        assert_eq!(rt; after.hi & after.lo & self.bit, 0);
    }
}

fn has_passed(off: Option<Tick>, t: Tick) -> bool {
    match off {
        Some(at) => at.0.saturating_add(48) <= t.0,
        None => true,
    }
}

/// The gates seen from outside, by the notes alone.
#[derive(Drop)]
struct Seen {
    sector: u8,
    word: GateWord,
    a: LegSeen,
    b: LegSeen,
    c: LegSeen,
}

impl Seen {
    /// The pair of a sector is on.
    fn new(sector: u8, word: GateWord) -> Seen {
        Seen {
            sector,
            word,
            a: LegSeen::new(A),
            b: LegSeen::new(B),
            c: LegSeen::new(C),
        }
    }

    fn all(&mut self, rt: &impl Abort, notes: &[Note]) {
        for note in notes {
            self.note(rt, *note);
        }
    }

    fn note(&mut self, rt: &impl Abort, note: Note) {
        match note {
            Note::Step { s, .. } => self.sector = s,
            Note::Gate { t, hi, lo } => self.goes(rt, t, GateWord { hi, lo }),
            _ => {}
        }
    }

    /// Each switch that is on is in the pair of the newest sector.
    fn goes(&mut self, rt: &impl Abort, t: Tick, after: GateWord) {
        assert!(rt; 1 <= self.sector && self.sector <= 6);
        let (high, low) = PAIRS[self.sector as usize - 1];
        assert_eq!(rt; (after.hi | high, after.lo | low), (high, low));
        self.a.goes(rt, t, self.word, after);
        self.b.goes(rt, t, self.word, after);
        self.c.goes(rt, t, self.word, after);
        self.word = after;
    }
}

/// Makes steps, two ticks apart, until nothing is left to do.
fn settle(
    rt: &impl Abort,
    machine: &mut Machine<Core>,
    regs: &mut Regs,
    flash: &mut MemFlash,
    seen: &mut Seen,
)
    requires { regs.old.masked ≡ true → IsHeld machine.old.firmware.hold machine.old.open_kinds }
{
    let mut notes = Notes::new();
    for _ in 0..60 {
        if machine.idle(regs) {
            return;
        }
        assert!(rt; regs.accesses() < 1000 && regs.now().0 < 1000000);
        machine.step_into(regs, flash, &mut notes);
        seen.all(rt, notes.as_slice());
        regs.advance(Tick(regs.now().0 + 2));
    }
    assert!(rt; false, "it goes on");
}

/// COMM becomes due at the entry of PWM, at each of its steps, and after its return. Either goes first: at the end the
/// pair of the next sector is on.
#[test]
fn comm_is_due_at_each_step_of_a_chop(rt: HostRuntime) -> Result<(), Fail> {
    let mut flash = MemFlash::new(rt.alloc())?;
    for s in 1u8..7 {
        for wait in 0u32..9 {
            let (mut core, mut regs) = driven(new_core(rt.alloc())?, s);
            core.drive.change = 4 + 2 * wait;
            regs.write(Reg::CommAt, 4 + 2 * wait);
            let mut seen = Seen::new(s, regs.gates());
            let mut machine = Machine::new(core, Nest::Full);
            assert!(rt; !regs.masked());
            settle(&rt, &mut machine, &mut regs, &mut flash, &mut seen);
            let next = if s == 6 { 1 } else { s + 1 };
            assert_eq!(rt; seen.sector, next, "sector {s}, wait {wait}");
            let (hi, lo) = PAIRS[next as usize - 1];
            assert_eq!(rt; seen.word, GateWord { hi, lo }, "sector {s}, wait {wait}");
        }
    }
    Ok(())
}

/// The high switch of leg A goes off at tick 100. At tick 110 the sector changes from 2 to 3, whose low switch is that of
/// leg A: it turns on at tick 148, in an activation of COMM without a sector change.
#[test]
fn a_low_switch_is_postponed(rt: HostRuntime) -> Result<(), Fail> {
    let mut flash = MemFlash::new(rt.alloc())?;
    let mut core = new_core(rt.alloc())?;
    let mut regs = Regs::new();
    regs.write(Reg::GhSet, A as u32);
    regs.advance(Tick(100));
    let mut off = AllOff::new();
    let _ = off.step(&mut core.drive.gates, &mut regs);
    let t = Tick(110);
    regs.advance(t);
    regs.write(Reg::Sector, 2);
    regs.write(Reg::GlSet, B as u32);
    regs.write(Reg::CommAt, 110);
    let mut machine = Machine::new(core, Nest::Full);
    let rows = [
        Some(Note::Enter { t, k: 6 }),
        None,
        None,
        Some(Note::Gate { t, hi: 0, lo: 0 }),
        Some(Note::Step { t, s: 3 }),
        None,
        None,
        None,
        None,
        Some(Note::Leave { t, k: 6 }),
    ];
    assert!(rt; !regs.masked());
    follow(&rt, &mut machine, &mut regs, &mut flash, &rows);
    assert_eq!(rt; regs.now(), t);
    regs.advance(Tick(147));
    assert!(rt; machine.idle(&regs));
    let t = Tick(148);
    regs.advance(t);
    let rows = [
        Some(Note::Enter { t, k: 6 }),
        None,
        Some(Note::Gate { t, hi: 0, lo: A }),
        None,
        Some(Note::Leave { t, k: 6 }),
    ];
    follow(&rt, &mut machine, &mut regs, &mut flash, &rows);
    assert!(rt; machine.idle(&regs));
    Ok(())
}

/// COMM is entered at tick 10, and the sector change is due at tick 1000 alone.
#[test]
fn comm_finds_nothing_to_do(rt: HostRuntime) -> Result<(), Fail> {
    let mut flash = MemFlash::new(rt.alloc())?;
    let mut core = new_core(rt.alloc())?;
    core.drive.change = 1000;
    let mut regs = Regs::new();
    let t = Tick(10);
    regs.write(Reg::CommAt, 10);
    regs.advance(t);
    let mut machine = Machine::new(core, Nest::Full);
    let rows = [
        Some(Note::Enter { t, k: 6 }),
        None,
        None,
        Some(Note::Leave { t, k: 6 }),
    ];
    assert!(rt; !regs.masked());
    follow(&rt, &mut machine, &mut regs, &mut flash, &rows);
    assert_eq!(rt; regs.now(), t);
    regs.advance(Tick(999));
    assert!(rt; machine.idle(&regs));
    regs.advance(Tick(1000));
    assert!(rt; !machine.idle(&regs));
    Ok(())
}

/// The stuck mark is set by the 60th forced sector change in a row, and not by the 59th.
#[test]
fn sixty_forced_changes_are_stuck(rt: HostRuntime) -> Result<(), Fail> {
    let mut flash = MemFlash::new(rt.alloc())?;
    for (forced, is_stuck) in [(58u8, false), (59, true)] {
        let (mut core, mut regs) = driven(new_core(rt.alloc())?, 1);
        core.drive.forced = forced;
        regs.write(Reg::CommAt, 4);
        let mut machine = Machine::new(core, Nest::Full);
        assert!(rt; !regs.masked());
        let mut seen = Seen::new(1, regs.gates());
        settle(&rt, &mut machine, &mut regs, &mut flash, &mut seen);
        assert_eq!(rt; seen.sector, 2);
        assert!(rt; regs.accesses() < 1000);
        assert_eq!(rt; regs.read(Reg::TickState) >= 0x4000_0000, is_stuck);
    }
    Ok(())
}

/// A control tick with demand 0 while switches are on. COMM becomes due under the mask, and doesn't come any more.
#[test]
fn all_is_off_before_the_mask_falls(rt: HostRuntime) -> Result<(), Fail> {
    let mut flash = MemFlash::new(rt.alloc())?;
    let mut regs = Regs::new();
    let mut machine = Machine::new(new_core(rt.alloc())?, Nest::Full);
    let t = Tick(2400);
    regs.write(Reg::GhSet, A as u32);
    regs.write(Reg::GlSet, B as u32);
    regs.advance(t);
    assert!(rt; !regs.masked());
    let rows = [Some(Note::Enter { t, k: 2 }), None];
    follow(&rt, &mut machine, &mut regs, &mut flash, &rows);
    assert!(rt; regs.accesses() < 1000);
    regs.write(Reg::CommAt, 2400);
    let number = Note::Control {
        t,
        n: 1,
        s: 0,
        d: 0,
    };
    let rows = [
        Some(number),
        Some(Note::Gate { t, hi: 0, lo: B }),
        Some(Note::Gate { t, hi: 0, lo: 0 }),
        None,
        None,
        None,
        Some(Note::Leave { t, k: 2 }),
    ];
    follow(&rt, &mut machine, &mut regs, &mut flash, &rows);
    assert!(rt; machine.idle(&regs));
    Ok(())
}
