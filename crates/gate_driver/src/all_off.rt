//! All switches off.
ghost use Rattle.std.specs.Prelude.{◌≡◌, ◌+◌, ◌<◌, ◌≤◌, ◌^◌, List};
ghost use Rattle.esc_base.specs.declared.note.Note.{Note};
ghost use Rattle.esc_base.specs.Legs.{IsApart};
ghost use Rattle.gate_driver.specs.Gated.{gates_after};
ghost use Rattle.gate_driver.specs.DeadSafe.{IsTied};
ghost use Rattle.gate_driver.specs.Acted.{IsActed, KeepsDeadTime, IsSaid, Spends};
ghost use Rattle.gate_driver.specs.AllOff.{all_off_step, all_off_left};

use crate::{Gates, Progress};
use timer_regs::{Reg, Regs};

/// Turns all switches off, named by the step that comes next.
#[derive(Clone, Copy, Drop)]
pub enum AllOff {
    /// Turns the high switches off.
    High,
    /// Turns the low switches off.
    Low,
    /// It is done.
    Over,
}

impl AllOff {
    pub fn new() -> AllOff
        ensures { result ≡ AllOff.High }
    {
        AllOff::High
    }

    /// One step of two, each of which writes a register.
    pub fn step(&mut self, gates: &mut Gates, regs: &mut Regs) -> Progress
        requires { regs.old.accesses < 2 ^ 63 }
        ensures step { IsActed regs.old (all_off_step self.old gates.old regs.old) result self.new gates.new regs.new }
        ensures high_off { self.old ≡ AllOff.High → regs.new.hi ≡ 0 }
        ensures low_off { self.old ≡ AllOff.Low → regs.new.lo ≡ 0 }
        ensures spends { Spends (all_off_left self.old) result (all_off_left self.new) }
        ensures off_times { gates.new ≡ gates_after gates.old regs.old regs.new }
        ensures one_access { regs.new.accesses ≤ regs.old.accesses + 1 }
        ensures no_time { regs.new.time ≡ regs.old.time }
        ensures dead_time { IsApart regs.old.hi regs.old.lo → KeepsDeadTime regs.old gates.new regs.new }
        ensures dead_safe { (back : List Note) → IsTied gates.old regs.old.hi regs.old.lo back → IsApart regs.old.hi regs.old.lo →
            IsSaid back gates.new regs.new }
    {
        self.act(gates, regs)
    }

    fn act(&mut self, gates: &mut Gates, regs: &mut Regs) -> Progress
        requires { regs.old.accesses < 2 ^ 63 }
        ensures { IsActed regs.old (all_off_step self.old gates.old regs.old) result self.new gates.new regs.new }
    {
        match self {
            AllOff::High => {
                gates.write(regs, Reg::GhClr, 7);
                *self = AllOff::Low;
                Progress::More
            }
            AllOff::Low => {
                gates.write(regs, Reg::GlClr, 7);
                *self = AllOff::Over;
                Progress::Done
            }
            AllOff::Over => Progress::Done,
        }
    }
}
