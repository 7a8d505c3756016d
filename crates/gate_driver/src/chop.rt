//! Chopping: the pair's high switch is on for the first ticks of each period of pulse width modulation.
ghost use Rattle.std.specs.Prelude.{◌≡◌, ◌+◌, ◌<◌, ◌≤◌, ◌^◌, List, false, Option};
ghost use Rattle.esc_base.specs.declared.gate.Leg.{Leg as ALeg};
ghost use Rattle.esc_base.specs.declared.note.Note.{Note};
ghost use Rattle.esc_base.specs.Legs.{IsApart};
ghost use Rattle.gate_driver.specs.Gated.{gates_after};
ghost use Rattle.gate_driver.specs.DeadSafe.{IsTied};
ghost use Rattle.gate_driver.specs.Acted.{IsActed, KeepsDeadTime, IsSaid, Spends};
ghost use Rattle.gate_driver.specs.Chop.{chop_step, chop_left, chopped_leg as leg_chopped, is_write, HasChopped};

use crate::gates::mask;
use crate::{Gates, Progress};
use commutation::pair;
use esc_base::{Leg, Sector};
use timer_regs::{Reg, Regs};

/// Chops once, under the interrupt mask, so that position, duty and sector are still as they were read when the switch
/// is written. Each place is named by the step that comes next.
#[derive(Clone, Copy, Drop)]
pub enum Chop {
    /// Raises the mask.
    Raise,
    /// Reads the position in the period of pulse width modulation, 0 to 1999.
    Position,
    /// Reads the duty, to compare it with the position.
    Duty(u32),
    /// Reads the sector; carries whether the position is below the duty.
    Sector(bool),
    /// Turns this leg's high switch on, or all high switches off.
    Write(Option<Leg>),
    /// Lowers the mask.
    Lower,
    /// It is done.
    Over,
}

impl Chop {
    pub fn new() -> Chop
        ensures { result ≡ Chop.Raise }
    {
        Chop::Raise
    }

    /// One step of six. Where the high switch may not turn on yet the fifth one answers `Later`, makes no access, and
    /// the program goes on without it: the next PWM event asks again.
    pub fn step(&mut self, gates: &mut Gates, regs: &mut Regs) -> Progress
        requires { regs.old.accesses < 2 ^ 63 }
        ensures step { IsActed regs.old (chop_step self.old gates.old regs.old) result self.new gates.new regs.new }
        ensures chops { (leg : Option ALeg) → self.old ≡ Chop.Write leg → HasChopped leg gates.old regs.old regs.new }
        ensures quiet { is_write self.old ≡ false → regs.new.hi ≡ regs.old.hi }
        ensures low_stays { regs.new.lo ≡ regs.old.lo }
        ensures spends { Spends (chop_left self.old) result (chop_left self.new) }
        ensures off_times { gates.new ≡ gates_after gates.old regs.old regs.new }
        ensures one_access { regs.new.accesses ≤ regs.old.accesses + 1 }
        ensures no_time { regs.new.time ≡ regs.old.time }
        ensures dead_time { IsApart regs.old.hi regs.old.lo → KeepsDeadTime regs.old gates.new regs.new }
        ensures dead_safe { (back : List Note) → IsTied gates.old regs.old.hi regs.old.lo back → IsApart regs.old.hi regs.old.lo →
            IsSaid back gates.new regs.new }
    {
        self.act(gates, regs)
    }

    fn act(&mut self, gates: &mut Gates, regs: &mut Regs) -> Progress
        requires { regs.old.accesses < 2 ^ 63 }
        ensures { IsActed regs.old (chop_step self.old gates.old regs.old) result self.new gates.new regs.new }
    {
        match *self {
            Chop::Raise => {
                regs.write(Reg::Mask, 1);
                *self = Chop::Position;
                Progress::More
            }
            Chop::Position => {
                *self = Chop::Duty(regs.read(Reg::PwmPos));
                Progress::More
            }
            Chop::Duty(position) => {
                *self = Chop::Sector(position < regs.read(Reg::Duty));
                Progress::More
            }
            Chop::Sector(below) => {
                *self = Chop::Write(chopped_leg(below, regs.read(Reg::Sector)));
                Progress::More
            }
            Chop::Write(leg) => {
                *self = Chop::Lower;
                write(leg, gates, regs)
            }
            Chop::Lower => {
                regs.write(Reg::Mask, 0);
                *self = Chop::Over;
                Progress::Done
            }
            Chop::Over => Progress::Done,
        }
    }
}

/// The high switch of a sector's pair where the position is below the duty. Sector 0 has no pair.
fn chopped_leg(below: bool, sector: u32) -> Option<Leg>
    requires { sector ≤ 6 }
    ensures { result ≡ leg_chopped below sector }
{
    if below && sector != 0 {
        Some(pair(Sector(sector as u8)).0)
    } else {
        None
    }
}

fn write(leg: Option<Leg>, gates: &mut Gates, regs: &mut Regs) -> Progress
    requires { regs.old.accesses < 2 ^ 63 }
    ensures { IsActed regs.old (chop_step (Chop.Write leg) gates.old regs.old) result Chop.Lower gates.new regs.new }
{
    let Some(leg) = leg else {
        gates.write(regs, Reg::GhClr, 7);
        return Progress::More;
    };
    if let Some(from) = gates.high_wait(regs, leg) {
        return Progress::Later(from);
    }
    gates.write(regs, Reg::GhSet, mask(leg) as u32);
    Progress::More
}
