//! What is kept of the drive between steps.
ghost use Rattle.std.specs.Prelude.{◌≡◌, ◌+◌, ◌<◌, ◌≤◌, ◌^◌, bit_or};
ghost use Rattle.commutation.specs.Sectors.{low_of};
ghost use Rattle.esc_core.specs.Drive.{first_drive, started, answered as answered_at, after_turn, searching, after_cross, arms, due_at as due_of};
ghost use Rattle.timer_regs.specs.Access.{accessed};
ghost use Rattle.zero_cross.specs.Kept.{until};

use commutation::{Timing, pair};
use esc_base::{Sector, Tick};
use gate_driver::{Gates, ToSector};
use timer_regs::{Reg, Regs};
use zero_cross::Crossing;

/// The longest time from a sector change to the next one.
const FORCED_LIMIT: u32 = 240_000;

/// So many forced sector changes in a row are a motor that doesn't turn.
pub(crate) const STUCK_ROW: u8 = 60;

/// The gates, the newest change of sector, and when the next one is due.
#[derive(Drop)]
pub struct Drive {
    /// When each switch last went off.
    pub gates: Gates,
    /// The interval between crossings, and the wait to the next sector change.
    pub timing: Timing,
    /// The search for the sector's zero crossing.
    pub crossing: Crossing,
    /// The newest change of sector. Where its low switch is postponed it stands at that step.
    pub turn: ToSector,
    /// The tick of 48 MHz from which on the next sector change is due.
    pub change: u32,
    /// The low switch of the newest sector is postponed for the dead time.
    pub postponed: bool,
    /// The sector has changed in this drive, and no crossing was accepted since: the next change is forced.
    pub turned: bool,
    /// How many forced sector changes stand in a row, at most 60.
    pub forced: u8,
}

impl Drive {
    /// All switches off, and no sector yet. `advance` is in eighths of the interval, and counts as 3 where it is more.
    pub(crate) fn new(advance: u8) -> Drive
        ensures { result ≡ first_drive advance }
    {
        Drive {
            gates: Gates::new(),
            timing: Timing::new(advance.min(3)),
            crossing: Crossing::new(),
            turn: ToSector::new(Sector(1)),
            change: 0,
            postponed: false,
            turned: false,
            forced: 0,
        }
    }

    /// A drive starts, and its first sector change is due at once.
    pub(crate) fn start(&mut self, now: Tick)
        requires { now.0 < 2 ^ 31 }
        ensures { self.new ≡ started self.old now.0 }
    {
        self.timing.restart();
        self.change = now.0 as u32;
        self.turned = false;
        self.forced = 0;
    }

    /// Control has answered: a drive may start, and the search ends with a demand of 0.
    pub(crate) fn answered(&mut self, starts: bool, ends: bool, now: Tick)
        requires { now.0 < 2 ^ 31 }
        ensures { self.new ≡ answered_at starts ends now.0 self.old }
    {
        if starts {
            self.start(now);
        }
        if ends {
            self.crossing.off();
        }
    }

    /// The sector has changed, and the next change is forced where no crossing comes. It was forced itself but as the
    /// first one of its drive.
    pub(crate) fn turned_at(&mut self, now: Tick)
        requires { now.0 < 2 ^ 31 }
        ensures { self.new ≡ after_turn self.old now.0 }
    {
        self.timing.gap(now);
        self.change = now.0 as u32 + FORCED_LIMIT;
        if self.turned {
            self.forced = self.forced.saturating_add(1).min(STUCK_ROW);
        }
        self.turned = true;
    }

    /// The search for the new sector's crossing begins.
    pub(crate) fn search(&mut self, forward: bool, now: Tick)
        requires { now.0 < 2 ^ 31 }
        ensures { self.new ≡ searching self.old forward now.0 }
    {
        let to = self.turn.to();
        let interval = self.timing.interval();
        let _ = self.crossing.begin(to, forward, now, interval);
    }

    /// The sector's crossing was accepted at `z`. The next sector change comes the wait later.
    pub(crate) fn crossed_at(&mut self, z: Tick)
        requires { z.0 < 2 ^ 31 }
        ensures { self.new ≡ after_cross self.old z.0 }
    {
        self.timing.crossing(z);
        self.change = z.0 as u32 + self.timing.wait();
        self.turned = false;
        self.forced = 0;
    }

    /// Arms the crossing timer for the tick for which the search waits.
    pub(crate) fn arm_crossing(&self, regs: &mut Regs)
        requires count { regs.old.accesses < 2 ^ 63 }
        ensures { regs.new ≡ accessed regs.old (arms (until self.now.crossing.phase)) }
    {
        if let Some(at) = self.crossing.until() {
            regs.write(Reg::CmpAt, at.0 as u32);
        }
    }

    /// When COMM is due next: at the next sector change, or when the postponed low switch may turn on, if that is earlier.
    pub(crate) fn due_at(&self) -> u32
        ensures { result ≡ due_of self.now }
    {
        let change = self.change;
        if !self.postponed {
            return change;
        }
        let free = self.gates.high_free(pair(self.turn.to()).1);
        (change as u64).min(free.0) as u32
    }
}
