//! What the motor's comparator does.

use esc_base::Tick;

/// Changes at a beat.
#[derive(Clone, Copy, Debug, PartialEq, Eq, Drop)]
pub struct Beat {
    /// From one change to the next, in ticks.
    pub every: u64,
    /// How often the level goes back and forth again at a change.
    pub bounces: u64,
    /// The ticks from one of these edges to the next.
    pub apart: u64,
}

/// The next edge of a comparator that changes.
#[derive(Clone, Copy, Debug, PartialEq, Eq, Drop)]
struct Changing {
    beat: Beat,
    /// When the level changes next.
    next: Tick,
    /// The edges that this change still has, behind that one.
    left: u64,
}

/// A comparator's level, and what it does.
#[derive(Clone, Copy, Debug, PartialEq, Eq, Drop)]
pub struct Comparator {
    level: bool,
    changing: Option<Changing>,
}

impl Comparator {
    /// Low, and constant.
    pub fn new() -> Comparator {
        Comparator {
            level: false,
            changing: None,
        }
    }

    /// Constant from here on.
    pub fn hold(&mut self, level: bool) {
        self.level = level;
        self.changing = None;
    }

    /// Changes at a beat, first at `t`.
    pub fn change(&mut self, t: Tick, beat: Beat) {
        self.changing = Some(Changing {
            beat,
            next: t,
            left: beat.bounces.saturating_mul(2),
        });
    }

    /// The tick and the level of the next change, if there is one.
    pub fn next(&self) -> Option<(Tick, bool)> {
        self.changing.map(|changing| (changing.next, !self.level))
    }

    /// Goes on once the next change was made.
    pub fn advance(&mut self) {
        let Some(changing) = self.changing else {
            return;
        };
        let Changing { beat, next, left } = changing;
        self.level = !self.level;
        let changing = if left > 0 {
            Changing {
                beat,
                next: Tick(next.0.saturating_add(beat.apart)),
                left: left - 1,
            }
        } else {
            let bounces = beat.bounces.saturating_mul(2);
            let since = bounces.saturating_mul(beat.apart);
            Changing {
                beat,
                next: Tick(next.0.saturating_add(beat.every.saturating_sub(since))),
                left: bounces,
            }
        };
        self.changing = Some(changing);
    }
}
