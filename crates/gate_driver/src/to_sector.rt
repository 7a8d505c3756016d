//! A change of sector.
ghost use Rattle.std.specs.Prelude.{◌≡◌, ◌+◌, ◌<◌, ◌≤◌, ◌^◌, List};
ghost use Rattle.esc_base.specs.declared.note.Note.{Note};
ghost use Rattle.esc_base.specs.declared.tick.Tick.{Tick as ATick};
ghost use Rattle.esc_base.specs.Legs.{IsApart};
ghost use Rattle.commutation.specs.Sectors.{high_of, low_of};
ghost use Rattle.gate_driver.specs.Gated.{gates_after, high_wait as wait_of_high, low_wait as wait_of_low};
ghost use Rattle.gate_driver.specs.DeadSafe.{IsTied};
ghost use Rattle.gate_driver.specs.Acted.{IsActed, KeepsDeadTime, IsSaid, Spends};
ghost use Rattle.gate_driver.specs.Change.{change_to, change_step, change_left, low_step, high_step, IsSector, HasChanged};

use crate::gates::mask;
use crate::{Gates, Progress};
use commutation::pair;
use esc_base::{Leg, Sector};
use std::marker::Model;
use timer_regs::{Reg, Regs};

/// Where a change of sector stands, named by the step that comes next.
#[derive(Clone, Copy, Debug, PartialEq, Eq, Drop)]
pub enum ChangeAt {
    /// Turns off the high switches that aren't in the new pair.
    ClearHigh,
    /// Turns off the low switches that aren't in the new pair.
    ClearLow,
    /// Sets the sector.
    SetSector,
    /// Turns the pair's low switch on.
    Low,
    /// Reads the position in the period of pulse width modulation, 0 to 1999.
    Position,
    /// Reads the duty, to compare it with the position.
    Duty(u32),
    /// Turns the pair's high switch on.
    High,
    /// It is done.
    Over,
}

/// Changes to a sector.
#[derive(Drop)]
pub struct ToSector {
    to: Sector,
    at: ChangeAt,
}

impl Model for ToSector {
    ghost use Rattle.gate_driver.specs.Change.{Change, IsSector};

    ghost Value = { Change };

    ghost view = { λ c. record { to = c.to.0; at = c.at } };

    ghost invariant = { λ c. IsSector c.to.0 };

    ghost inverse = { λ c. record { to = record { 0 = c.to }; at = c.at } };
}

impl ToSector {
    /// A change to a sector, 1 to 6.
    pub fn new(to: Sector) -> ToSector
        requires { IsSector to.0 }
        ensures { result ≡ change_to to.0 }
    {
        ToSector {
            to,
            at: ChangeAt::ClearHigh,
        }
    }

    /// The sector that is changed to, 1 to 6.
    pub fn to(&self) -> Sector
        ensures sector { result.0 ≡ self.now.to }
        ensures range { IsSector self.now.to }
    {
        self.to
    }

    /// The step that comes next.
    pub fn at(&self) -> ChangeAt
        ensures { result ≡ self.now.at }
    {
        self.at
    }

    /// One step of at most seven, waits not counted. Where a switch may not turn on yet the step answers `Later` and
    /// makes no access, and the next step asks again.
    pub fn step(&mut self, gates: &mut Gates, regs: &mut Regs) -> Progress
        requires { regs.old.accesses < 2 ^ 63 }
        ensures step { IsActed regs.old (change_step self.old gates.old regs.old) result self.new gates.new regs.new }
        ensures same_sector { self.new.to ≡ self.old.to }
        ensures changes { HasChanged self.old.at self.old.to gates.old regs.old regs.new }
        ensures waits { (t : ATick) → result ≡ Progress.Later t → (self.new ≡ self.old) × (regs.new ≡ regs.old) }
        ensures spends { Spends (change_left self.old.at) result (change_left self.new.at) }
        ensures off_times { gates.new ≡ gates_after gates.old regs.old regs.new }
        ensures one_access { regs.new.accesses ≤ regs.old.accesses + 1 }
        ensures no_time { regs.new.time ≡ regs.old.time }
        ensures dead_time { IsApart regs.old.hi regs.old.lo → KeepsDeadTime regs.old gates.new regs.new }
        ensures dead_safe { (back : List Note) → IsTied gates.old regs.old.hi regs.old.lo back → IsApart regs.old.hi regs.old.lo →
            IsSaid back gates.new regs.new }
    {
        self.act(gates, regs)
    }

    fn act(&mut self, gates: &mut Gates, regs: &mut Regs) -> Progress
        requires { regs.old.accesses < 2 ^ 63 }
        ensures { IsActed regs.old (change_step self.old gates.old regs.old) result self.new gates.new regs.new }
    {
        let (high, low) = pair(self.to);
        match self.at {
            ChangeAt::ClearHigh => {
                gates.write(regs, Reg::GhClr, 7 - mask(high) as u32);
                self.go_on(ChangeAt::ClearLow)
            }
            ChangeAt::ClearLow => {
                gates.write(regs, Reg::GlClr, 7 - mask(low) as u32);
                self.go_on(ChangeAt::SetSector)
            }
            ChangeAt::SetSector => {
                regs.write(Reg::Sector, self.to.0 as u32);
                self.go_on(ChangeAt::Low)
            }
            ChangeAt::Low => self.turn_low_on(low, gates, regs),
            ChangeAt::Position => {
                let position = regs.read(Reg::PwmPos);
                self.go_on(ChangeAt::Duty(position))
            }
            ChangeAt::Duty(position) => {
                if position < regs.read(Reg::Duty) {
                    self.go_on(ChangeAt::High)
                } else {
                    self.end()
                }
            }
            ChangeAt::High => self.turn_high_on(high, gates, regs),
            ChangeAt::Over => Progress::Done,
        }
    }

    fn turn_low_on(&mut self, low: Leg, gates: &mut Gates, regs: &mut Regs) -> Progress
        requires count { regs.old.accesses < 2 ^ 63 }
        requires pair { low ≡ low_of self.old.to }
        ensures { IsActed regs.old (low_step (wait_of_low gates.old regs.old (low_of self.old.to)) self.old gates.old regs.old)
            result self.new gates.new regs.new }
    {
        if let Some(from) = gates.low_wait(regs, low) {
            return Progress::Later(from);
        }
        gates.write(regs, Reg::GlSet, mask(low) as u32);
        self.go_on(ChangeAt::Position)
    }

    fn turn_high_on(&mut self, high: Leg, gates: &mut Gates, regs: &mut Regs) -> Progress
        requires count { regs.old.accesses < 2 ^ 63 }
        requires pair { high ≡ high_of self.old.to }
        ensures { IsActed regs.old (high_step (wait_of_high gates.old regs.old (high_of self.old.to)) self.old gates.old regs.old)
            result self.new gates.new regs.new }
    {
        if let Some(from) = gates.high_wait(regs, high) {
            return Progress::Later(from);
        }
        gates.write(regs, Reg::GhSet, mask(high) as u32);
        self.end()
    }

    fn go_on(&mut self, at: ChangeAt) -> Progress
        ensures place { self.new ≡ record self.old { at = at } }
        ensures more { result ≡ Progress.More }
    {
        self.at = at;
        Progress::More
    }

    fn end(&mut self) -> Progress
        ensures place { self.new ≡ record self.old { at = ChangeAt.Over } }
        ensures done { result ≡ Progress.Done }
    {
        self.at = ChangeAt::Over;
        Progress::Done
    }
}
