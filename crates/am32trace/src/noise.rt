//! Noise on the signal line.
ghost use Rattle.std.specs.Prelude.{◌≡◌, ◌≤◌, ◌+◌, IfSome};

use esc_base::{Edge, Tick};

/// Edges at irregular distances.
#[derive(Clone, Copy, Debug, PartialEq, Eq, Drop)]
pub struct Noise {
    /// The next edge.
    pub next: Edge,
    /// No edge stands behind this tick.
    pub until: Tick,
    /// The level at which the line rests afterwards.
    pub rest: bool,
    seed: u32,
}

impl Noise {
    /// Noise from `t` on for so many ticks.
    pub fn new(t: Tick, ticks: u64, rest: bool) -> Noise
        requires early { t.0 ≤ 1073741824 }
        requires short { ticks ≤ 4294967296 }
        ensures until { result.until.0 ≡ t.0 + ticks }
        ensures next { result.next.t.0 ≡ t.0 }
    {
        Noise {
            next: Edge { t, level: !rest },
            until: Tick(t.0.saturating_add(ticks)),
            rest,
            seed: (t.0 & 0xFFFF) as u32,
        }
    }

    /// The noise behind its next edge, until the line rests again: the distance to the edge after that is 24 to 279 ticks.
    pub fn after(self) -> Option<Noise>
        requires { self.next.t.0 ≤ self.until.0 }
        ensures until { IfSome result (λ n. n.until ≡ self.until) }
        ensures next { IfSome result (λ n. n.next.t.0 ≤ n.until.0) }
    {
        if self.next.level == self.rest && self.next.t.0 >= self.until.0 {
            return None;
        }
        let seed = self.seed.wrapping_mul(1664525).wrapping_add(1013904223);
        let apart = u64::from(24 + (seed >> 24));
        let t = self
            .next
            .t
            .0
            .saturating_add(apart)
            .min(self.until.0)
            .max(self.next.t.0);
        Some(Noise {
            next: Edge {
                t: Tick(t),
                level: !self.next.level,
            },
            seed,
            ..self
        })
    }
}
