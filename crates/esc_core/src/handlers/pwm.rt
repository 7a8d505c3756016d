//! PWM: the high switch of the pair goes on or off, at each edge of the duty.
ghost use Rattle.std.specs.Prelude.{◌≡◌, ◌<◌, ◌^◌, All, true, false};
ghost use Rattle.esc_base.specs.Range.{InRange};
ghost use Rattle.interrupt_machine.specs.Did.{notes_of};
ghost use Rattle.esc_core.specs.Stepped.{IsStepped};
ghost use Rattle.esc_core.specs.Pwm.{pwm_step, hold_after, place_after};

use crate::notes::no_note;
use crate::{Core, PwmAt};
use gate_driver::{Chop, Progress};
use interrupt_machine::Did;
use timer_regs::Regs;

impl Core {
    pub(crate) fn pwm_step(&mut self, regs: &mut Regs) -> Did
        requires count { regs.old.accesses < 2 ^ 63 }
        ensures step { IsStepped regs.old (pwm_step self.old.pwm_at self.old regs.old) result self.new regs.new }
        ensures in_range { All InRange (notes_of result) }
    {
        match self.pwm_at {
            PwmAt::Run(chop) => self.chop(chop, regs),
            PwmAt::Back | PwmAt::Shut => {
                self.pwm_at = PwmAt::Shut;
                Did::Return(no_note())
            }
        }
    }

    fn chop(&mut self, chop: Chop, regs: &mut Regs) -> Did
        requires count { regs.old.accesses < 2 ^ 63 }
        ensures step { IsStepped regs.old (pwm_step (PwmAt.Run chop) self.old regs.old) result self.new regs.new }
        ensures in_range { All InRange (notes_of result) }
    {
        let mut next = chop;
        let progress = next.step(&mut self.drive.gates, regs);
        self.hold = hold_after(chop, self.hold);
        self.pwm_at = place_after(progress, next);
        Did::More(no_note())
    }
}

/// The first step raises the mask.
fn hold_after(chop: Chop, hold: u8) -> u8
    ensures { result ≡ hold_after chop hold }
{
    match chop {
        Chop::Raise => 8,
        _ => hold,
    }
}

fn place_after(progress: Progress, chop: Chop) -> PwmAt
    ensures { result ≡ place_after progress chop }
{
    match progress {
        Progress::Done => PwmAt::Back,
        Progress::More | Progress::Later(_) => PwmAt::Run(chop),
    }
}
