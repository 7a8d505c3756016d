//! The timing of sector changes, by the zero crossings and by the changes themselves.
ghost use Rattle.std.specs.Prelude.{◌≡◌, ◌≤◌, ◌<◌, ◌^◌, ◌∷◌, [], ◌↔◌, ℕ, true, false, sum, length, List, IsNone};
ghost use Rattle.esc_base.specs.declared.tick.Tick.{Tick};
ghost use Rattle.esc_base.specs.declared.note.Note.{Note};
ghost use Rattle.esc_base.specs.declared.note.Note.TheVariants as note;
ghost use Rattle.commutation.specs.Pace.{wait_of};
ghost use Rattle.commutation.specs.Kept.{after_crossing, after_gap, after_restart, fresh};
ghost use Rattle.commutation.specs.Turns.{gaps_of, period_of, six_of, IsFalling};
ghost use Rattle.commutation.specs.Drive.{interval_at, period_at, rests_at, starts, turns_at, wait_at, Timed};

use esc_base::Tick;
use std::marker::Model;

/// The interval at the start of a drive, in ticks.
const FIRST_INTERVAL: u32 = 24_000;

/// The least interval, in ticks.
const SHORTEST: u64 = 1_200;

/// The greatest interval, in ticks.
const LONGEST: u64 = 240_000;

/// How many sector changes bound the six gaps of an electrical period.
const TURNS: usize = 7;

/// The ticks of a microsecond.
const TICKS_PER_US: u32 = 48;

/// How fast the motor turns: the interval between crossings, from which the wait to the next sector change follows,
/// and the newest sector changes, from which the electrical period follows.
///
/// Contracts see the advance, the interval with the newest crossing, and the ticks of the newest sector changes since
/// the restart, seven at most and the newest first; and say that these are what a journal's notes tell (`Timed`).
#[derive(Drop)]
pub struct Timing {
    advance: u8,
    interval: u32,
    last: Option<Tick>,
    turns: [u32; TURNS],
    turn_count: usize,
}

impl Model for Timing {
    ghost use Rattle.std.specs.Prelude.{◌≤◌, take};
    ghost use Rattle.commutation.specs.Kept.{Kept};

    ghost Value = { Kept };

    ghost view = { λ c. record { advance = c.advance; pace = record { interval = c.interval; last = c.last }; turns = take c.turn_count c.turns } };

    ghost invariant = { λ c. (c.advance ≤ 3) × ((1200 ≤ c.interval) × ((c.interval ≤ 240000) × (c.turn_count ≤ 7))) };
}

impl Timing {
    /// The timing at the start of a drive: the interval is 24,000, there are no crossings and no gaps. `advance`, 0 to
    /// 3, is by how many eighths of the interval each sector change comes earlier.
    pub fn new(advance: u8) -> Timing
        requires { advance ≤ 3 }
        ensures kept { result ≡ fresh advance }
        ensures timed { Timed result [] }
    {
        Timing {
            advance,
            interval: FIRST_INTERVAL,
            last: None,
            turns: [0; TURNS],
            turn_count: 0,
        }
    }

    /// A drive starts: crossings and gaps are forgotten, and the interval is 24,000 again. The advance stays.
    pub fn restart(&mut self)
        ensures kept { self.new ≡ after_restart self.old }
        ensures timed { (t : Tick) (n s d : ℕ) (back : List Note) → starts d back ≡ true →
            Timed self.new (note.Control t n s d ∷ back) }
    {
        self.interval = FIRST_INTERVAL;
        self.last = None;
        self.turn_count = 0;
    }

    /// A zero crossing at `z`, below 2^31, was accepted. Its gap is the time since the crossing before, or at the first
    /// one the interval itself. The interval moves to it by a quarter, and stays from 1,200 to 240,000.
    pub fn crossing(&mut self, z: Tick)
        requires { z.0 < 2 ^ 31 }
        ensures kept { self.new ≡ after_crossing self.old z }
        ensures timed { (back : List Note) → Timed self.old back → Timed self.new (note.Cross z ∷ back) }
    {
        let interval = u64::from(self.interval);
        let gap = match self.last {
            Some(last) => z.0.saturating_sub(last.0),
            None => interval,
        };
        self.interval = ((3 * interval + gap) / 4).clamp(SHORTEST, LONGEST) as u32;
        self.last = Some(z);
    }

    /// The sector changed at `q`, below 2^31. The first change after a restart makes no gap.
    pub fn gap(&mut self, q: Tick)
        requires { q.0 < 2 ^ 31 }
        ensures kept { self.new ≡ after_gap self.old q.0 }
        ensures timed { (s : ℕ) (back : List Note) → Timed self.old back → Timed self.new (note.Step q s ∷ back) }
    {
        self.turns.rotate_right(1);
        self.turns[0] = q.0 as u32;
        self.turn_count = (self.turn_count + 1).min(TURNS);
    }

    /// The time between two crossings, 1,200 to 240,000.
    pub fn interval(&self) -> u32
        ensures interval { result ≡ self.now.pace.interval }
        ensures timed { (back : List Note) → Timed self.now back → result ≡ interval_at back }
        ensures least { 1200 ≤ result }
        ensures most { result ≤ 240000 }
    {
        self.interval
    }

    /// The time from a crossing to the sector change: half the interval less an eighth of it for each step of advance,
    /// 150 to 120,000.
    pub fn wait(&self) -> u32
        ensures wait { result ≡ wait_of self.now.advance self.now.pace.interval }
        ensures timed { (back : List Note) → Timed self.now back → result ≡ wait_at self.now.advance back }
        ensures least { 150 ≤ result }
        ensures most { result ≤ 120000 }
    {
        let ahead = self.interval * u32::from(self.advance) / 8;
        self.interval / 2 - ahead
    }

    /// The electrical period in whole microseconds, which is the time of six gaps; none with fewer of them since the
    /// restart.
    pub fn period_us(&self) -> Option<u32>
        ensures period { result ≡ period_of self.now.turns }
        ensures few { IsNone result ↔ (length self.now.turns < 7) }
        ensures timed { (back : List Note) → Timed self.now back → rests_at back ≡ false → result ≡ period_at back }
    {
        if self.turn_count == TURNS {
            Some(self.six() / TICKS_PER_US)
        } else {
            None
        }
    }

    /// The sum of the newest six gaps, or 0 with fewer of them since the restart.
    pub fn six(&self) -> u32
        ensures six { result ≡ six_of self.now.turns }
        ensures sum { length self.now.turns ≡ 7 → IsFalling self.now.turns → result ≡ sum (gaps_of self.now.turns) }
        ensures timed { (back : List Note) → Timed self.now back → result ≡ six_of (turns_at back) }
    {
        if self.turn_count == TURNS {
            self.turns[0].saturating_sub(self.turns[TURNS - 1])
        } else {
            0
        }
    }
}
