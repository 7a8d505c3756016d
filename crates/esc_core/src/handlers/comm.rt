//! COMM: the sector changes, or a postponed low switch turns on.
ghost use Rattle.std.specs.Prelude.{◌≡◌, ◌<◌, ◌≤◌, ◌^◌, All, true, false};
ghost use Rattle.esc_base.specs.Range.{InRange};
ghost use Rattle.interrupt_machine.specs.Did.{notes_of};
ghost use Rattle.commutation.specs.Sectors.{next_sector};
ghost use Rattle.gate_driver.specs.Change.{IsSector};
ghost use Rattle.esc_core.specs.Stepped.{IsStepped};
ghost use Rattle.esc_core.specs.Comm.{comm_step, decide_step, turn_step, resumed_step, after_arm as after_arm_of, after_ask, is_later as is_later_of};

use crate::drive::STUCK_ROW;
use crate::notes::{no_note, one_note};
use crate::{CommAt, Core};
use commutation::sector_next;
use esc_base::{Note, Sector};
use gate_driver::{ChangeAt, Progress, ToSector};
use interrupt_machine::Did;
use timer_regs::{Reg, Regs};

impl Core {
    pub(crate) fn comm_step(&mut self, regs: &mut Regs) -> Did
        requires count { regs.old.accesses < 2 ^ 63 }
        ensures step { IsStepped regs.old (comm_step self.old.comm_at self.old regs.old) result self.new regs.new }
        ensures in_range { All InRange (notes_of result) }
    {
        match self.comm_at {
            CommAt::Decide => self.decide(regs),
            CommAt::Turn => self.change_sector(regs),
            CommAt::Low => self.turn_low_on(regs),
            CommAt::Blank => {
                self.drive.arm_crossing(regs);
                self.comm_at = CommAt::Period;
                Did::More(no_note())
            }
            CommAt::Period => {
                regs.write(Reg::Period, self.drive.timing.six());
                self.comm_at = CommAt::Arm;
                Did::More(no_note())
            }
            CommAt::Arm => {
                regs.write(Reg::CommAt, self.drive.due_at());
                self.comm_at = after_arm(self.drive.forced);
                Did::More(no_note())
            }
            CommAt::Stick => {
                regs.write(Reg::Stuck, 1);
                self.comm_at = CommAt::Back;
                Did::More(no_note())
            }
            CommAt::Back | CommAt::Shut => {
                self.comm_at = CommAt::Shut;
                Did::Return(no_note())
            }
        }
    }

    /// COMM decides in this step what it does, by whether the sector change is due. No handler enters from here to its
    /// return, so the direction is that of the sector change.
    fn decide(&mut self, regs: &mut Regs) -> Did
        requires count { regs.old.accesses < 2 ^ 63 }
        ensures step { IsStepped regs.old (decide_step self.old regs.old) result self.new regs.new }
        ensures in_range { All InRange (notes_of result) }
    {
        if self.drive.change as u64 <= regs.now().0 {
            let present = regs.read(Reg::Sector);
            let to = sector_after(present, self.orders.is_forward());
            self.drive.turn = ToSector::new(to);
            self.drive.postponed = false;
            self.comm_at = CommAt::Turn;
            return Did::More(no_note());
        }
        self.comm_at = if self.drive.postponed {
            CommAt::Low
        } else {
            CommAt::Arm
        };
        Did::More(no_note())
    }

    fn change_sector(&mut self, regs: &mut Regs) -> Did
        requires count { regs.old.accesses < 2 ^ 63 }
        ensures step { IsStepped regs.old (turn_step self.old.drive.turn.at self.old regs.old) result self.new regs.new }
        ensures in_range { All InRange (notes_of result) }
    {
        let at = self.drive.turn.at();
        let progress = self.drive.turn.step(&mut self.drive.gates, regs);
        self.comm_at = after_ask(progress);
        match at {
            ChangeAt::SetSector => {
                let t = regs.now();
                self.drive.turned_at(t);
                self.drive.search(self.orders.is_forward(), t);
                let s = self.drive.turn.to().0;
                Did::More(one_note(Note::Step { t, s }))
            }
            ChangeAt::Low => {
                self.drive.postponed = is_later(progress);
                Did::More(no_note())
            }
            _ => Did::More(no_note()),
        }
    }

    /// Asks for the postponed low switch again.
    fn turn_low_on(&mut self, regs: &mut Regs) -> Did
        requires count { regs.old.accesses < 2 ^ 63 }
        ensures step { IsStepped regs.old (resumed_step self.old regs.old) result self.new regs.new }
        ensures in_range { All InRange (notes_of result) }
    {
        let progress = self.drive.turn.step(&mut self.drive.gates, regs);
        self.drive.postponed = is_later(progress);
        self.comm_at = CommAt::Arm;
        Did::More(no_note())
    }
}

/// The sector after the present one, 0 to 6. The first of all is 1.
fn sector_after(present: u32, forward: bool) -> Sector
    requires { present ≤ 6 }
    ensures next { result.0 ≡ next_sector present forward }
    ensures range { IsSector result.0 }
{
    if present == 0 {
        Sector(1)
    } else {
        sector_next(Sector(present as u8), forward)
    }
}

/// Where a switch has to wait the rest of the change is left out: COMM asks for the low one again, and PWM for the high one.
fn after_ask(progress: Progress) -> CommAt
    ensures { result ≡ after_ask progress }
{
    match progress {
        Progress::More => CommAt::Turn,
        Progress::Done | Progress::Later(_) => CommAt::Blank,
    }
}

fn is_later(progress: Progress) -> bool
    ensures { result ≡ is_later_of progress }
{
    match progress {
        Progress::Later(_) => true,
        _ => false,
    }
}

fn after_arm(forced: u8) -> CommAt
    ensures { result ≡ after_arm_of forced }
{
    if forced >= STUCK_ROW {
        CommAt::Stick
    } else {
        CommAt::Back
    }
}
