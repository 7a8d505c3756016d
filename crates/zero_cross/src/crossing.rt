//! The search for a sector's zero crossing, and how each look at the comparator changes it.
ghost use Rattle.std.specs.Prelude.{◌≡◌, ◌≤◌, ◌<◌, ◌+◌, ◌^◌, ℕ, Bool, IfSome};
ghost use Rattle.zero_cross.specs.Sector.{blanking_of};
ghost use Rattle.zero_cross.specs.Kept.{accepted, after_begin, after_changed, after_filtered, after_off, after_ready, fresh, is_forced, next_of, until, MayFilter, IsBlanked};
ghost use Rattle.zero_cross.specs.Late.{FiltersFrom, IsRead, StandsUpTo};

use crate::{Next, Phase};
use esc_base::{Sector, Tick};
use std::marker::Model;

/// The least blanking after a sector change, in ticks.
const LEAST_BLANKING: u64 = 300;

/// How long the expected level has to stand, in ticks.
const FILTER: u64 = 24;

/// Blanking after a filter that was rejected, in ticks.
const REJECTED: u64 = 400;

/// How long a sector may go on without a crossing, in ticks, before it is ended by force.
const LONGEST_SECTOR: u64 = 240_000;

/// The search for a sector's zero crossing.
///
/// Contracts see its phase, the expected level of the comparator, and the tick at which the sector began.
#[derive(Drop)]
pub struct Crossing {
    phase: Phase,
    expects: bool,
    begun: Tick,
}

impl Model for Crossing {
    ghost use Rattle.std.specs.Prelude.{◌<◌, ◌^◌, IfSome};
    ghost use Rattle.zero_cross.specs.Kept.{Kept, until};

    ghost Value = { Kept };

    ghost view = { λ c. record { phase = c.phase; expects = c.expects; begun = c.begun.0 } };

    ghost invariant = { λ c. IfSome (until c.phase) (λ end. end.0 < 2 ^ 32) };
}

impl Crossing {
    /// No sector has begun, so nothing is looked for.
    pub fn new() -> Crossing
        ensures { result ≡ fresh }
    {
        Crossing {
            phase: Phase::Off,
            expects: false,
            begun: Tick(0),
        }
    }

    /// The drive ends: nothing is looked for until a sector begins.
    pub fn off(&mut self)
        ensures { self.new ≡ after_off self.old }
    {
        self.phase = Phase::Off;
    }

    /// Sector `s` begins at `t`, below 2^31, with this interval between crossings. Answers the end of blanking, which
    /// lasts for a quarter of the interval, and for 300 ticks at least. The expected level is 1 in odd sectors of a
    /// forward drive, and in even ones of a reverse drive.
    pub fn begin(&mut self, s: Sector, forward: bool, t: Tick, interval: u32) -> Tick
        requires { t.0 < 2 ^ 31 }
        ensures blanked { result.0 ≡ t.0 + blanking_of interval }
        ensures kept { self.new ≡ after_begin s.0 forward t.0 interval }
        ensures late { (now : ℕ) → FiltersFrom result.0 now self.new.phase }
    {
        let end = Tick(t.0 + (u64::from(interval) / 4).max(LEAST_BLANKING));
        self.phase = Phase::Blank(end);
        self.expects = (s.0 % 2 == 1) == forward;
        self.begun = t;
        end
    }

    /// Blanking is over at `t`, and the comparator has this level. Where it is the expected one the caller calls
    /// `changed` next.
    pub fn ready(&mut self, t: Tick, level: bool) -> Next
        requires { IsBlanked self.old.phase t.0 }
        ensures next { result ≡ next_of self.old level }
        ensures kept { self.new ≡ after_ready self.old level }
        ensures late { (from now : ℕ) → now ≤ t.0 → FiltersFrom from now self.old.phase →
            FiltersFrom from t.0 self.new.phase }
    {
        if level == self.expects {
            Next::Filter
        } else {
            self.phase = Phase::Watch;
            Next::Watch
        }
    }

    /// A filter begins at `t`, below 2^31: the comparator changed, or has the expected level as blanking ends. Answers
    /// the filter's end, 24 ticks later.
    pub fn changed(&mut self, t: Tick) -> Tick
        requires small { t.0 < 2 ^ 31 }
        requires open { MayFilter self.old.phase t.0 }
        ensures end { result.0 ≡ t.0 + 24 }
        ensures kept { self.new ≡ after_changed self.old t.0 }
        ensures late { (from now : ℕ) → now ≤ t.0 → FiltersFrom from now self.old.phase →
            FiltersFrom from t.0 self.new.phase }
    {
        let end = Tick(t.0 + FILTER);
        self.phase = Phase::Filter(end);
        end
    }

    /// Judges the filter at `t`, below 2^31, by the comparator's level and whether it changed since the filter began.
    /// Answers the crossing where the filter's time is over and the expected level stood throughout; a filter whose
    /// time is over is else rejected, and 400 ticks of blanking follow. Where no filter stands or its time isn't over,
    /// nothing changes.
    pub fn filtered(&mut self, t: Tick, level: bool, changed: bool) -> Option<Tick>
        requires { t.0 < 2 ^ 31 }
        ensures accepted { result ≡ accepted self.old t level changed }
        ensures kept { self.new ≡ after_filtered self.old t.0 level changed }
        ensures past_blanking { (from now : ℕ) → FiltersFrom from now self.old.phase →
            IfSome result (λ z. from + 24 ≤ z.0) }
        ensures late { (from now : ℕ) → now ≤ t.0 → FiltersFrom from now self.old.phase →
            FiltersFrom from t.0 self.new.phase }
        ensures steady { (comp : ℕ → Bool) → IsRead comp self.old.phase t.0 level changed →
            IfSome result (λ z. StandsUpTo comp self.old.expects z.0) }
    {
        match self.phase {
            Phase::Filter(end) if end.0 <= t.0 => {
                if level == self.expects && !changed {
                    self.phase = Phase::Done;
                    Some(t)
                } else {
                    self.phase = Phase::Blank(Tick(t.0 + REJECTED));
                    None
                }
            }
            _ => None,
        }
    }

    /// Whether the sector is to be ended by force at `t`: it has no crossing yet, and began 240,000 ticks ago or
    /// earlier.
    pub fn forced(&self, t: Tick) -> bool
        ensures { result ≡ is_forced self.now t.0 }
    {
        match self.phase {
            Phase::Off | Phase::Done => false,
            _ => t.0.saturating_sub(self.begun.0) >= LONGEST_SECTOR,
        }
    }

    /// The tick for which the search waits: the end of blanking, or of a filter. None while it waits for a change of the
    /// comparator, or for nothing.
    pub fn until(&self) -> Option<Tick>
        ensures until { result ≡ until self.now.phase }
        ensures small { IfSome result (λ end. end.0 < 2 ^ 32) }
    {
        match self.phase {
            Phase::Blank(end) | Phase::Filter(end) => Some(end),
            _ => None,
        }
    }

    /// How far the search has come.
    pub fn phase(&self) -> Phase
        ensures { result ≡ self.now.phase }
    {
        self.phase
    }
}
