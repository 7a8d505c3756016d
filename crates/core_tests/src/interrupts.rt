//! Which kind enters when, and what a step notes.
ghost use Rattle.std.specs.Prelude.{◌≡◌, ◌≤◌, ℕ, true, slice_index};
ghost use Rattle.esc_base.specs.Numbers.{kind_number};
ghost use Rattle.interrupt_machine.specs.Turn.{IsHeld};

use esc_base::{FlashDev, Kind, MemFlash, Note, Tick};
use interrupt_machine::{Did, Firmware, Machine, Nest, Notes, Own};
use std::process::Abort;
use std::test::Fail;
use timer_regs::{Reg, Regs};

/// MAIN raises the mask in the first of its four steps and lowers it in the third. The other kinds make two steps; in
/// the first one TICK reads its number.
#[derive(Drop)]
struct Script {
    /// The steps that each kind's activation can still make.
    left: [u8; 7],
    /// The steps for which the mask can still stand.
    hold: u8,
    waits: bool,
    ghost short: { hold ≤ 8 },
}

impl Firmware for Script {
    ghost came = { λ before kind after. Unit {0} };

    ghost made = { λ before bank flash kind did after bank' flash'. Unit {0} };

    ghost left = { λ s kind. slice_index s.left (kind_number kind) };

    ghost hold = { λ s. s.hold };

    ghost waits = { λ s. s.waits };

    fn enter(&mut self, kind: Kind) {
        self.left[kind.number() as usize] = if kind == Kind::Main { 4 } else { 2 };
        if kind == Kind::Main {
            self.waits = false;
        }
    }

    fn step<D: FlashDev>(&mut self, kind: Kind, regs: &mut Regs, _dev: &mut D) -> Did {
        let at = kind.number() as usize;
        self.left[at] -= 1;
        if self.left[at] == 0 {
            regs.write(Reg::Mask, 0);
            return Did::Return(Own::One(Note::Armed { t: regs.now() }));
        }
        if kind == Kind::Tick && !regs.masked() {
            regs.read(Reg::TickState);
            return Did::More(Own::None);
        }
        if !regs.masked() {
            self.hold = if kind == Kind::Main { 3 } else { 1 };
        }
        self.hold -= 1;
        regs.write(Reg::Mask, if self.hold == 0 { 0 } else { 1 });
        Did::More(Own::None)
    }

    fn waiting(&self) -> bool {
        self.waits
    }
}

fn waiting_main() -> Script {
    Script {
        left: [0; 7],
        hold: 0,
        waits: true,
    }
}

/// What a step came to.
#[derive(Clone, Copy, Debug, PartialEq, Eq, Drop)]
enum Came {
    /// The kind with this number was entered.
    Entered(u8),
    /// The innermost handler made a step.
    Stepped,
    /// The kind with this number returned.
    Returned(u8),
}

fn outcome_of(notes: &Notes) -> Came {
    match notes.as_slice().last() {
        Some(Note::Enter { k, .. }) => Came::Entered(*k),
        Some(Note::Leave { k, .. }) => Came::Returned(*k),
        _ => Came::Stepped,
    }
}

/// Makes a step for each row, and checks what it came to.
fn follow(
    rt: &impl Abort,
    machine: &mut Machine<Script>,
    regs: &mut Regs,
    flash: &mut MemFlash,
    rows: &[Came],
)
    requires { regs.old.masked ≡ true → IsHeld machine.old.firmware.hold machine.old.open_kinds }
    ensures mask { regs.new.masked ≡ true → IsHeld machine.new.firmware.hold machine.new.open_kinds }
{
    let mut notes = Notes::new();
    for row in rows {
        assert!(rt; !machine.idle(regs));
        assert!(rt; regs.accesses() < 100);
        machine.step_into(regs, flash, &mut notes);
        assert_eq!(rt; outcome_of(&notes), *row);
    }
}

const MAIN: u8 = 0;

const TICK: u8 = 2;

const CAP: u8 = 3;

/// MAIN is interrupted by CAP and TICK, which come due while it holds the mask. CAP comes due again after the first
/// step of TICK.
fn interrupted(rt: &impl Abort, nest: Nest, flash: &mut MemFlash, rest: &[Came]) {
    let mut regs = Regs::new();
    let mut machine = Machine::new(waiting_main(), nest);
    follow(
        rt,
        &mut machine,
        &mut regs,
        flash,
        &[Came::Entered(MAIN), Came::Stepped],
    );
    assert!(rt; regs.masked());
    assert!(rt; regs.now().0 < 2400);
    machine.pass(&mut regs, Tick(2400));
    assert!(rt; regs.accesses() < 100);
    regs.write(Reg::CapAt, 2400);
    let held = [Came::Stepped, Came::Stepped];
    follow(rt, &mut machine, &mut regs, flash, &held);
    assert!(rt; !regs.masked());
    let entries = [
        Came::Entered(CAP),
        Came::Stepped,
        Came::Returned(CAP),
        Came::Entered(TICK),
        Came::Stepped,
    ];
    follow(rt, &mut machine, &mut regs, flash, &entries);
    assert_eq!(rt; machine.depth(), 2);
    assert!(rt; !regs.masked());
    assert!(rt; regs.accesses() < 100);
    regs.write(Reg::CapAt, 2400);
    follow(rt, &mut machine, &mut regs, flash, rest);
    assert!(rt; machine.idle(&regs));
    assert!(rt; !machine.firmware().waits);
}

#[test]
fn kinds_enter_between_steps(rt: HostRuntime) -> Result<(), Fail> {
    let mut flash = MemFlash::new(rt.alloc())?;
    let rest = [
        Came::Entered(CAP),
        Came::Stepped,
        Came::Returned(CAP),
        Came::Returned(TICK),
        Came::Returned(MAIN),
    ];
    interrupted(&rt, Nest::Full, &mut flash, &rest);
    Ok(())
}

#[test]
fn kinds_enter_above_main_alone(rt: HostRuntime) -> Result<(), Fail> {
    let mut flash = MemFlash::new(rt.alloc())?;
    let rest = [
        Came::Returned(TICK),
        Came::Entered(CAP),
        Came::Stepped,
        Came::Returned(CAP),
        Came::Returned(MAIN),
    ];
    interrupted(&rt, Nest::One, &mut flash, &rest);
    Ok(())
}

#[test]
fn notes_of_steps(rt: HostRuntime) -> Result<(), Fail> {
    let mut flash = MemFlash::new(rt.alloc())?;
    let mut regs = Regs::new();
    let mut machine = Machine::new(waiting_main(), Nest::Full);
    assert!(rt; !machine.idle(&regs));
    let entry = machine.step(&mut regs, &mut flash);
    let t = Tick(0);
    assert_eq!(rt; entry.as_slice(), [Note::Enter { t, k: MAIN }].as_slice());
    follow(
        &rt,
        &mut machine,
        &mut regs,
        &mut flash,
        &[Came::Stepped, Came::Stepped, Came::Stepped],
    );
    assert!(rt; !machine.idle(&regs));
    assert!(rt; regs.accesses() < 100);
    let last = machine.step(&mut regs, &mut flash);
    assert_eq!(rt;
        last.as_slice(),
        [Note::Armed { t }, Note::Leave { t, k: MAIN }].as_slice()
    );
    Ok(())
}
