//! When a kind becomes due next, by time alone.
ghost use Rattle.std.specs.Prelude.{◌≡◌};
ghost use Rattle.esc_base.specs.declared.kind.Kind.TheVariants as kinds;
ghost use Rattle.timer_regs.specs.NextDue.{tick_of, IsFirstDue, IsNextDue};

use crate::Regs;
use crate::timers::{CONTROL_PERIOD, sooner};
use esc_base::Tick;

impl Regs {
    /// The earliest later tick at which a kind that isn't due now becomes due by time alone. `None` exactly
    /// where there is no such tick.
    pub fn next_due(&self) -> Option<Tick>
        ensures { IsNextDue self.now (tick_of result) }
    {
        let lower = sooner(self.next_tick(), self.next_cap());
        let middle = sooner(lower, self.next_cmp());
        let upper = sooner(self.next_pwm(), self.next_comm());
        let top = sooner(upper, self.next_uart());
        sooner(middle, top)
    }

    fn next_tick(&self) -> Option<Tick>
        ensures { IsFirstDue self.now kinds.Tick (tick_of result) }
    {
        if self.tick_due() {
            return None;
        }
        Some(Tick((self.number_read as u64 + 1) * CONTROL_PERIOD))
    }

    fn next_cap(&self) -> Option<Tick>
        ensures { IsFirstDue self.now kinds.Cap (tick_of result) }
    {
        if self.cap_due() {
            return None;
        }
        let closes = if self.taken {
            None
        } else {
            self.window.idle_at()
        };
        sooner(closes, self.timer)
    }

    fn next_cmp(&self) -> Option<Tick>
        ensures { IsFirstDue self.now kinds.Cmp (tick_of result) }
    {
        if self.cmp_due() {
            None
        } else {
            self.comparator.timer
        }
    }

    fn next_pwm(&self) -> Option<Tick>
        ensures { IsFirstDue self.now kinds.Pwm (tick_of result) }
    {
        if self.flag { None } else { self.pwm_edge }
    }

    fn next_comm(&self) -> Option<Tick>
        ensures { IsFirstDue self.now kinds.Comm (tick_of result) }
    {
        if self.comm_due() { None } else { self.comm }
    }

    fn next_uart(&self) -> Option<Tick>
        ensures { IsFirstDue self.now kinds.Uart (tick_of result) }
    {
        if self.uart_due() || !self.uart.sends {
            None
        } else {
            Some(self.uart.idle_from)
        }
    }
}
