ghost use Rattle.std.specs.Prelude.{◌≡◌, ◌≤◌, not};
ghost use Rattle.commutation.specs.Sectors.{high_of, low_of, next_sector, KeepsALeg};

use esc_base::{Leg, Sector};

/// The two legs that sector `s`, 1 to 6, drives: the one that is chopped to the supply, and the one to ground.
pub fn pair(s: Sector) -> (Leg, Leg)
    requires first { 1 ≤ s.0 }
    requires last { s.0 ≤ 6 }
    ensures high { result.0 ≡ high_of s.0 }
    ensures low { result.1 ≡ low_of s.0 }
{
    match s.0 {
        1 => (Leg::A, Leg::B),
        2 => (Leg::C, Leg::B),
        3 => (Leg::C, Leg::A),
        4 => (Leg::B, Leg::A),
        5 => (Leg::B, Leg::C),
        _ => (Leg::A, Leg::C),
    }
}

/// The sector after `s`, 1 to 6: forward they go 1 to 6 and begin again, in reverse the other way.
pub fn sector_next(s: Sector, forward: bool) -> Sector
    requires first { 1 ≤ s.0 }
    requires last { s.0 ≤ 6 }
    ensures next { result.0 ≡ next_sector s.0 forward }
    ensures from_1 { 1 ≤ result.0 }
    ensures to_6 { result.0 ≤ 6 }
    ensures keeps_a_leg { KeepsALeg s.0 result.0 }
    ensures leads_back { next_sector result.0 (not forward) ≡ s.0 }
{
    match (forward, s.0) {
        (true, 6) => Sector(1),
        (true, n) => Sector(n + 1),
        (false, 1) => Sector(6),
        (false, n) => Sector(n - 1),
    }
}
