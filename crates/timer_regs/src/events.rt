//! What time, an entry and the outside do to the registers.
ghost use Rattle.std.specs.Prelude.{◌≡◌, ◌<◌, ◌≤◌, ◌^◌, ℕ, true, if◌then◌else◌};
ghost use Rattle.esc_base.specs.declared.kind.Kind.{Kind};
ghost use Rattle.esc_base.specs.declared.event.Arrived.TheVariants as arrived;
ghost use Rattle.timer_regs.specs.Uart.{is_full};
ghost use Rattle.timer_regs.specs.Effects.{advanced, after_line, after_comp, after_serial, is_due, after_entry};

use crate::Regs;
use crate::timers::{is_reached, next_edge, put_off};
use esc_base::{Arrived, Kind, Tick};

impl Regs {
    /// Time goes on to a tick that isn't before now, and the hardware does what falls into it: timers are
    /// reached, a PWM event sets its flag, and a window closes by its idle limit.
    pub fn advance(&mut self, to: Tick)
        requires later { self.old.time ≤ to.0 }
        requires small { to.0 < 2 ^ 31 }
        ensures regs { self.new ≡ advanced self.old to.0 }
        ensures due { (k : Kind) → is_due self.old k ≡ true → is_due self.new k ≡ true }
    {
        self.time = to;
        if is_reached(self.pwm_edge, to) {
            self.flag = true;
            self.pwm_edge = next_edge(self.duty, to);
        }
    }

    /// A kind is entered: what made it due is cleared. A closed window counts as taken and stays readable; the
    /// control tick is due until its number is read.
    pub fn entered(&mut self, kind: Kind)
        ensures { self.new ≡ after_entry self.old kind }
    {
        match kind {
            Kind::Cap => {
                self.taken = self.taken || self.window.closed(self.time);
                self.timer = None;
            }
            Kind::Cmp => self.comparator.rest(),
            Kind::Pwm => self.flag = false,
            Kind::Comm => self.comm = None,
            _ => {}
        }
    }

    /// The signal line has a level from now on. An equal level again has no effect. A change puts off the
    /// window timer, where it is armed and not reached, until the line has rested for 200 ticks.
    pub fn edge(&mut self, level: bool)
        ensures { self.new ≡ after_line self.old level }
    {
        if level != self.level {
            self.level = level;
            self.window.edge(self.time, level);
            self.timer = put_off(self.timer, self.time);
            self.changed = Some(self.time);
        }
    }

    /// The comparator has a level from now on. An equal level again has no effect.
    pub fn comp(&mut self, level: bool)
        ensures { self.new ≡ after_comp self.old level }
    {
        self.comparator.set(level);
    }

    /// A watcher of the gates trips. No register shows it yet.
    pub fn trip(&mut self)
        ensures { self.new ≡ self.old }
    {}

    /// A serial byte arrives, at now. It is lost exactly where one waits in the receive register.
    pub fn serial(&mut self, byte: u8) -> Arrived
        ensures lost { result ≡ (if is_full self.old.receive then Arrived.Lost else Arrived.Kept) }
        ensures regs { self.new ≡ after_serial self.old byte }
    {
        self.uart.arrive(self.time, byte)
    }
}
