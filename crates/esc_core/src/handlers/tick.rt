//! TICK: a control tick, each 2400 ticks of 48 MHz.
ghost use Rattle.std.specs.Prelude.{◌≡◌, ◌<◌, ◌≤◌, ◌^◌, [], ◌∷◌, All, ℕ};
ghost use Rattle.std.specs.Option.{option_to_list};
ghost use Rattle.esc_base.specs.Range.{InRange};
ghost use Rattle.interrupt_machine.specs.Did.{notes_of};
ghost use Rattle.esc_core.specs.Stepped.{IsStepped};
ghost use Rattle.arming.specs.Decide.{bits_of};
ghost use Rattle.esc_core.specs.Tick.{tick_step, off_step, number_in, marks_in, after_number, after_off, outcome_note};

use crate::notes::{no_note, note_and};
use crate::{Core, TickAt};
use arming::{Marks, Ticked};
use bitflags::Flags;
use esc_base::{Note, Tick};
use gate_driver::{AllOff, Progress};
use interrupt_machine::Did;
use timer_regs::{Reg, Regs};

/// The stuck mark in the control tick's state.
const STUCK: u32 = 0x4000_0000;

impl Core {
    pub(crate) fn tick_step(&mut self, regs: &mut Regs) -> Did
        requires count { regs.old.accesses < 2 ^ 63 }
        ensures step { IsStepped regs.old (tick_step self.old.tick_at self.old regs.old) result self.new regs.new }
        ensures in_range { All InRange (notes_of result) }
    {
        match self.tick_at {
            TickAt::Raise => {
                regs.write(Reg::Mask, 1);
                self.hold = 8;
                self.tick_at = TickAt::Read;
                Did::More(no_note())
            }
            TickAt::Read => self.ask_control(regs),
            TickAt::Off(off) => self.turn_off(off, regs),
            TickAt::DutyOff => {
                regs.write(Reg::Duty, 0);
                self.tick_at = TickAt::DriveOff;
                Did::More(no_note())
            }
            TickAt::DriveOff => {
                regs.write(Reg::DriveOff, 1);
                self.drive.postponed = false;
                self.tick_at = TickAt::Lower;
                Did::More(no_note())
            }
            TickAt::DutyOn(start) => {
                regs.write(Reg::Duty, self.control.demand() as u32);
                self.tick_at = if start { TickAt::Start } else { TickAt::Lower };
                Did::More(no_note())
            }
            TickAt::Start => {
                regs.write(Reg::CommAt, regs.now().0 as u32);
                self.tick_at = TickAt::Lower;
                Did::More(no_note())
            }
            TickAt::Lower => {
                regs.write(Reg::Mask, 0);
                self.tick_at = TickAt::Back;
                Did::More(no_note())
            }
            TickAt::Back | TickAt::Shut => {
                self.tick_at = TickAt::Shut;
                Did::Return(no_note())
            }
        }
    }

    fn ask_control(&mut self, regs: &mut Regs) -> Did
        requires count { regs.old.accesses < 2 ^ 63 }
        ensures step { IsStepped regs.old (tick_step TickAt.Read self.old regs.old) result self.new regs.new }
        ensures in_range { All InRange (notes_of result) }
    {
        let state = regs.read(Reg::TickState);
        let n = number(state);
        if n <= self.control.number() {
            self.tick_at = TickAt::Lower;
            return Did::More(no_note());
        }
        let marks = marks(state, self.serial.is_active());
        let answer = self.control.tick(n, marks);
        let t = regs.now();
        self.drive.answered(answer.start, answer.demand == 0, t);
        self.tick_at = after_number(answer);
        let control = Note::Control {
            t,
            n,
            s: marks.bits(),
            d: answer.demand,
        };
        Did::More(note_and(control, outcome(t, answer)))
    }

    fn turn_off(&mut self, off: AllOff, regs: &mut Regs) -> Did
        requires count { regs.old.accesses < 2 ^ 63 }
        ensures step { IsStepped regs.old (tick_step (TickAt.Off off) self.old regs.old) result self.new regs.new }
        ensures in_range { All InRange (notes_of result) }
    {
        let mut next = off;
        let progress = next.step(&mut self.drive.gates, regs);
        self.tick_at = after_off(progress, next);
        Did::More(no_note())
    }
}

/// The control tick's number, without its marks.
fn number(state: u32) -> u32
    ensures { result ≡ number_in state }
{
    if state < STUCK { state } else { state - STUCK }
}

fn marks(state: u32, is_session: bool) -> Marks
    ensures marks { bits_of result ≡ marks_in state is_session }
    ensures most { bits_of result ≤ 7 }
{
    match (state < STUCK, is_session) {
        (true, false) => Marks::empty(),
        (true, true) => Marks::SESSION,
        (false, false) => Marks::STUCK,
        (false, true) => Marks::STUCK.union(Marks::SESSION),
    }
}

fn after_number(answer: Ticked) -> TickAt
    ensures { result ≡ after_number answer }
{
    if answer.demand == 0 {
        TickAt::Off(AllOff::new())
    } else {
        TickAt::DutyOn(answer.start)
    }
}

fn after_off(progress: Progress, off: AllOff) -> TickAt
    ensures { result ≡ after_off progress off }
{
    match progress {
        Progress::Done => TickAt::DutyOff,
        Progress::More | Progress::Later(_) => TickAt::Off(off),
    }
}

fn outcome(t: Tick, answer: Ticked) -> Option<Note>
    ensures { option_to_list result ≡ outcome_note t.0 answer.lost answer.armed_now }
{
    match answer.lost {
        Some(cause) => Some(Note::Lost {
            t,
            c: cause.number(),
        }),
        None if answer.armed_now => Some(Note::Armed { t }),
        None => None,
    }
}
