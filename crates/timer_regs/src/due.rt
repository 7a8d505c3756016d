//! Which interrupt kinds are due.
ghost use Rattle.std.specs.Prelude.{◌≡◌, ℕ};
ghost use Rattle.esc_base.specs.declared.kind.Kind.{Kind};
ghost use Rattle.esc_base.specs.declared.kind.Kind.TheVariants as kinds;
ghost use Rattle.esc_base.specs.Times.{is_reached as reached};
ghost use Rattle.timer_regs.specs.Kinds.{has_kind};
ghost use Rattle.timer_regs.specs.Effects.{advanced, is_due};
ghost use Rattle.timer_regs.specs.NextDue.{tick_of};

use crate::timers::{CONTROL_PERIOD, is_reached, sooner};
use crate::{KindSet, Regs};
use esc_base::{Kind, Tick};

impl Regs {
    /// The kinds that are due, without MAIN, which only the firmware knows of.
    pub fn due(&self) -> KindSet
        ensures { (k : Kind) → has_kind result k ≡ is_due self.now k }
    {
        KindSet::none()
            .with(Kind::Tick, self.tick_due())
            .with(Kind::Cap, self.cap_due())
            .with(Kind::Cmp, self.cmp_due())
            .with(Kind::Pwm, self.pwm_due())
            .with(Kind::Comm, self.comm_due())
            .with(Kind::Uart, self.uart_due())
    }

    /// Whether a kind is due. MAIN, which only the firmware knows of, isn't.
    pub fn is_due(&self, kind: Kind) -> bool
        ensures { result ≡ is_due self.now kind }
    {
        match kind {
            Kind::Tick => self.tick_due(),
            Kind::Cap => self.cap_due(),
            Kind::Cmp => self.cmp_due(),
            Kind::Pwm => self.flag,
            Kind::Comm => self.comm_due(),
            Kind::Uart => self.uart_due(),
            Kind::Main => false,
        }
    }

    /// The tick from which on CAP is due, if only time goes on; it may have passed. `None` where CAP never is.
    pub fn cap_due_from(&self) -> Option<Tick>
        ensures { (t : ℕ) → is_due (advanced self.now t) kinds.Cap ≡ reached (tick_of result) t }
    {
        let closes = if self.taken {
            None
        } else {
            self.window.closes_at()
        };
        sooner(closes, self.timer)
    }

    pub(crate) fn tick_due(&self) -> bool
        ensures { result ≡ is_due self.now kinds.Tick }
    {
        (self.number_read as u64 + 1) * CONTROL_PERIOD <= self.time.0
    }

    pub(crate) fn cap_due(&self) -> bool
        ensures { result ≡ is_due self.now kinds.Cap }
    {
        (self.window.closed(self.time) && !self.taken) || is_reached(self.timer, self.time)
    }

    pub(crate) fn cmp_due(&self) -> bool
        ensures { result ≡ is_due self.now kinds.Cmp }
    {
        self.comparator.due(self.time)
    }

    pub(crate) fn pwm_due(&self) -> bool
        ensures { result ≡ is_due self.now kinds.Pwm }
    {
        self.flag
    }

    pub(crate) fn comm_due(&self) -> bool
        ensures { result ≡ is_due self.now kinds.Comm }
    {
        is_reached(self.comm, self.time)
    }

    pub(crate) fn uart_due(&self) -> bool
        ensures { result ≡ is_due self.now kinds.Uart }
    {
        self.uart.due(self.time)
    }
}
