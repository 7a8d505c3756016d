//! The comparator of the leg that isn't driven, and the crossing timer.
ghost use Rattle.std.specs.Prelude.{◌≡◌, ◌≤◌, ◌+◌, ◌*◌, ◌&&◌, ◌||◌, if◌then◌else◌, not, true, false, None, Some};
ghost use Rattle.esc_base.specs.Numbers.{bit_of};
ghost use Rattle.esc_base.specs.Times.{is_reached};
ghost use Rattle.esc_base.specs.Trace.{differ};
ghost use Rattle.timer_regs.specs.NextDue.{tick_of};

use esc_base::Tick;

/// The comparator of the leg that isn't driven, and the crossing timer.
#[derive(Drop)]
pub(crate) struct Comparator {
    pub(crate) level: bool,
    /// The level changed since this was last cleared.
    pub(crate) changed: bool,
    /// A change asks for CMP.
    pub(crate) enabled: bool,
    pub(crate) timer: Option<Tick>,
}

impl Comparator {
    pub(crate) fn new() -> Comparator
        ensures { result ≡ record { level = false; changed = false; enabled = false; timer = None } }
    {
        Comparator {
            level: false,
            changed: false,
            enabled: false,
            timer: None,
        }
    }

    /// Its level in bit 0, and whether it changed in bit 1.
    pub(crate) fn state(&self) -> u32
        ensures state { result ≡ 2 * bit_of self.now.changed + bit_of self.now.level }
        ensures small { result ≤ 3 }
    {
        2 * self.changed as u32 + self.level as u32
    }

    /// Whether CMP is due: the timer is reached, or a change asks for it.
    pub(crate) fn due(&self, now: Tick) -> bool
        ensures { result ≡ (is_reached (tick_of self.now.timer) now.0 || (self.now.enabled && self.now.changed)) }
    {
        let asks = self.enabled && self.changed;
        match self.timer {
            Some(at) => at.0 <= now.0 || asks,
            None => asks,
        }
    }

    /// The change that stands is forgotten, and the next one asks for CMP.
    pub(crate) fn enable(&mut self, on: bool)
        ensures { self.new ≡ record self.old { changed = self.old.changed && not on; enabled = self.old.enabled || on } }
    {
        self.changed = self.changed && !on;
        self.enabled = self.enabled || on;
    }

    /// Arms the timer for a tick. No change asks for CMP meanwhile.
    pub(crate) fn arm(&mut self, at: Tick)
        ensures { self.new ≡ record self.old { enabled = false; timer = Some at } }
    {
        self.enabled = false;
        self.timer = Some(at);
    }

    /// Neither the timer nor a change asks for CMP.
    pub(crate) fn rest(&mut self)
        ensures { self.new ≡ record self.old { enabled = false; timer = None } }
    {
        self.enabled = false;
        self.timer = None;
    }

    /// The level from now on. An equal one again has no effect.
    pub(crate) fn set(&mut self, level: bool)
        ensures { self.new ≡ (if differ self.old.level level then record self.old { level = level; changed = true } else self.old) }
    {
        if level != self.level {
            self.level = level;
            self.changed = true;
        }
    }
}
