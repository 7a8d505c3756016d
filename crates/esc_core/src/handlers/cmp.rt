//! CMP: the search for the sector's zero crossing goes on, as its timer was reached or the comparator changed.
ghost use Rattle.std.specs.Prelude.{◌≡◌, ◌<◌, ◌≤◌, ◌^◌, All, true};
ghost use Rattle.esc_base.specs.Range.{InRange};
ghost use Rattle.timer_regs.specs.Effects.{after_read};
ghost use Rattle.timer_regs.specs.declared.regs.Reg.TheVariants.{CmpState};
ghost use Rattle.interrupt_machine.specs.Did.{notes_of};
ghost use Rattle.zero_cross.specs.declared.phase.Phase.TheVariants as phases;
ghost use Rattle.zero_cross.specs.Kept.{is_expected, is_clean, is_over};
ghost use Rattle.esc_core.specs.Stepped.{IsStepped};
ghost use Rattle.esc_core.specs.Cmp.{cmp_step, look_step, read_step, judged_step, ack_step, is_blanked as is_blanked_at, may_filter as may_filter_at};

use crate::notes::{no_note, one_note};
use crate::{CmpAt, Core};
use esc_base::{Note, Tick};
use interrupt_machine::Did;
use timer_regs::{Reg, Regs};
use zero_cross::{Next, Phase};

impl Core {
    pub(crate) fn cmp_step(&mut self, regs: &mut Regs) -> Did
        requires count { regs.old.accesses < 2 ^ 63 }
        ensures step { IsStepped regs.old (cmp_step self.old.cmp_at self.old regs.old) result self.new regs.new }
        ensures in_range { All InRange (notes_of result) }
    {
        match self.cmp_at {
            CmpAt::Raise => {
                regs.write(Reg::Mask, 1);
                self.hold = 8;
                self.cmp_at = CmpAt::Look;
                Did::More(no_note())
            }
            CmpAt::Look => self.look(regs),
            CmpAt::Read => self.end_blanking(regs),
            CmpAt::Ack => self.begin_filter(regs),
            CmpAt::Arm => {
                self.drive.arm_crossing(regs);
                self.cmp_at = CmpAt::Lower;
                Did::More(no_note())
            }
            CmpAt::Commute => {
                regs.write(Reg::CommAt, self.drive.due_at());
                self.cmp_at = CmpAt::Lower;
                Did::More(no_note())
            }
            CmpAt::Lower => {
                regs.write(Reg::Mask, 0);
                self.cmp_at = CmpAt::Back;
                Did::More(no_note())
            }
            CmpAt::Back | CmpAt::Shut => {
                self.cmp_at = CmpAt::Shut;
                Did::Return(no_note())
            }
        }
    }

    /// CMP decides in this step what it does, since a sector change or the end of the drive may have come since its entry.
    fn look(&mut self, regs: &mut Regs) -> Did
        requires count { regs.old.accesses < 2 ^ 63 }
        ensures step { IsStepped regs.old (look_step self.old.drive.crossing.phase self.old regs.old) result self.new regs.new }
        ensures in_range { All InRange (notes_of result) }
    {
        let now = regs.now();
        match self.drive.crossing.phase() {
            Phase::Blank(end) if end.0 <= now.0 => {
                regs.write(Reg::CmpEn, 1);
                self.cmp_at = CmpAt::Read;
                Did::More(no_note())
            }
            Phase::Filter(end) if end.0 <= now.0 => self.judge_filter(regs),
            Phase::Watch => {
                self.cmp_at = CmpAt::Ack;
                Did::More(no_note())
            }
            _ => {
                self.cmp_at = CmpAt::Lower;
                Did::More(no_note())
            }
        }
    }

    /// A change of the comparator since the step before asks for CMP again, so none is lost between that step and this one.
    fn end_blanking(&mut self, regs: &mut Regs) -> Did
        requires count { regs.old.accesses < 2 ^ 63 }
        ensures step { IsStepped regs.old (read_step (is_blanked_at self.old.drive.crossing.phase regs.old.time) self.old regs.old) result self.new regs.new }
        ensures in_range { All InRange (notes_of result) }
    {
        let now = regs.now();
        if !is_blanked(self.drive.crossing.phase(), now) {
            self.cmp_at = CmpAt::Lower;
            return Did::More(no_note());
        }
        let (level, _) = comparator(regs);
        self.cmp_at = match self.drive.crossing.ready(now, level) {
            Next::Filter => CmpAt::Ack,
            Next::Watch => CmpAt::Lower,
        };
        Did::More(no_note())
    }

    fn judge_filter(&mut self, regs: &mut Regs) -> Did
        requires count { regs.old.accesses < 2 ^ 63 }
        requires over { is_over self.old.drive.crossing.phase regs.old.time ≡ true }
        ensures step { IsStepped regs.old (judged_step (is_clean self.old.drive.crossing regs.old.comp regs.old.comp_changed) self.old regs.old)
            result self.new regs.new }
        ensures in_range { All InRange (notes_of result) }
    {
        let t = regs.now();
        let (level, changed) = comparator(regs);
        if self.drive.crossing.filtered(t, level, changed).is_none() {
            self.cmp_at = CmpAt::Arm;
            return Did::More(no_note());
        }
        self.drive.crossed_at(t);
        self.cmp_at = CmpAt::Commute;
        Did::More(one_note(Note::Cross { t }))
    }

    fn begin_filter(&mut self, regs: &mut Regs) -> Did
        requires count { regs.old.accesses < 2 ^ 63 }
        ensures step { IsStepped regs.old (ack_step (may_filter_at self.old.drive.crossing.phase regs.old.time) self.old regs.old) result self.new regs.new }
        ensures in_range { All InRange (notes_of result) }
    {
        let now = regs.now();
        if !may_filter(self.drive.crossing.phase(), now) {
            self.cmp_at = CmpAt::Lower;
            return Did::More(no_note());
        }
        let _ = self.drive.crossing.changed(now);
        regs.write(Reg::CmpAck, 0);
        self.cmp_at = CmpAt::Arm;
        Did::More(no_note())
    }
}

/// The comparator's level, and whether it changed since that was last cleared.
fn comparator(regs: &mut Regs) -> (bool, bool)
    requires count { regs.old.accesses < 2 ^ 63 }
    ensures level { result.0 ≡ regs.old.comp }
    ensures changed { result.1 ≡ regs.old.comp_changed }
    ensures regs { regs.new ≡ after_read regs.old CmpState }
{
    let state = regs.read(Reg::CmpState);
    (state % 2 == 1, state >= 2)
}

fn is_blanked(phase: Phase, now: Tick) -> bool
    ensures { result ≡ is_blanked_at phase now.0 }
{
    match phase {
        Phase::Blank(end) => end.0 <= now.0,
        _ => false,
    }
}

fn may_filter(phase: Phase, now: Tick) -> bool
    ensures { result ≡ may_filter_at phase now.0 }
{
    match phase {
        Phase::Blank(end) => end.0 <= now.0,
        Phase::Watch => true,
        _ => false,
    }
}
