ghost use Rattle.std.specs.Prelude.{◌≡◌, ◌<◌, ◌≤◌, ◌+◌, ◌^◌, ◌++◌, ◌&&◌, ◌==◌, not, ℕ, Bool, List, [], ◌∷◌, length, true, false};
ghost use Rattle.std.specs.List.{All};
ghost use Rattle.esc_base.specs.declared.signal.Edge.{Edge};
ghost use Rattle.esc_base.specs.Times.{is_reached};
ghost use Rattle.edge_capture.specs.Edges.{last_at, Rising};
ghost use Rattle.edge_capture.specs.Burst.{close_of, is_closed, comes_early, wait};
ghost use Rattle.edge_capture.specs.Modes.{limit, may_be_high as is_high};
ghost use Rattle.edge_capture.specs.Window.{Window, unarmed, opened_in, window_hears, after_edge, window_closed, idle_at, number_of, IsHanded};
ghost use Rattle.edge_capture.specs.Heard.{heard_of};

use crate::{Burst, mode_numbers};
use esc_base::{Edge, Mode, Tick};
use std::marker::Model;

/// Whether a window hears an edge.
#[derive(Clone, Copy, Debug, PartialEq, Eq, Drop)]
pub enum Heard {
    /// The edge is one more of the window's burst.
    Taken,
    /// The edge changes nothing of the window.
    Unheard,
}

/// One window on the signal line: it opens in a mode at a tick, hears edges, and closes.
#[derive(Drop)]
pub struct Capture {
    armed: bool,
    mode: Mode,
    opened: Tick,
    burst: Burst,
    // when it closes, if it hears no further edge; kept, since it is asked for far more often than an edge is heard
    closes: Option<Tick>,
}

impl Model for Capture {
    ghost use Rattle.std.specs.Prelude.{◌≡◌, ◌≤◌, length};
    ghost use Rattle.edge_capture.specs.Window.{Window, number_of};
    ghost use Rattle.edge_capture.specs.Modes.{most};
    ghost use Rattle.edge_capture.specs.Burst.{close_of};

    ghost Value = { Window };

    ghost view = { λ c. record { armed = c.armed; mode = c.mode; opened = c.opened.0; edges = c.burst } };

    ghost invariant = { λ c. (length c.burst ≤ most c.mode) × (number_of c.closes ≡ close_of c.mode c.burst) };
}

fn may_be_high(burst: &Burst) -> bool
    ensures { result ≡ is_high burst.now }
{
    burst.len() % 2 == 1 && burst.at(burst.len() - 1).level
}

fn idle_limit(mode: Mode, burst: &Burst) -> u64
    ensures limit { result ≡ limit mode burst.now }
    ensures small { result ≤ 120000 }
{
    let numbers = mode_numbers(mode);
    if may_be_high(burst) {
        numbers.idle_while_high as u64
    } else {
        numbers.idle as u64
    }
}

fn wait_for(mode: Mode, burst: &Burst) -> u64
    ensures wait { result ≡ wait mode burst.now }
    ensures small { result ≤ 120000 }
{
    if burst.len() < mode_numbers(mode).most_edges {
        idle_limit(mode, burst)
    } else {
        0
    }
}

// The tick at which a window that has heard these edges, the last of them at `last`, closes.
fn closing_tick(mode: Mode, burst: &Burst, last: Tick) -> Tick
    requires some { 0 < length burst.now }
    requires last { last.0 ≡ last_at burst.now }
    requires small { last.0 < 2 ^ 31 }
    ensures { Some result.0 ≡ close_of mode burst.now }
{
    Tick(last.0 + wait_for(mode, burst))
}

impl Capture {
    /// No window: it hears nothing.
    pub fn new() -> Capture
        ensures { result ≡ unarmed }
    {
        Capture {
            armed: false,
            mode: Mode::Unknown,
            opened: Tick(0),
            burst: Burst::new(),
            closes: None,
        }
    }

    /// Opens a window in a mode at the tick `at`, with no edges. It hears only edges after that tick.
    pub fn arm(&mut self, mode: Mode, at: Tick)
        ensures window { self.new ≡ opened_in mode at.0 }
        ensures burst { (handed : List Edge) → All (λ e. e.t.0 ≤ at.0) handed → IsHanded self.new handed }
    {
        self.armed = true;
        self.mode = mode;
        self.opened = at;
        self.burst.clear();
        self.closes = None;
    }

    /// The signal line changes to a level at tick `t`, below 2^31 and not before the last heard edge.
    pub fn edge(&mut self, t: Tick, level: bool) -> Heard
        requires small { t.0 < 2 ^ 31 }
        requires later { last_at self.old.edges ≤ t.0 }
        ensures heard { result ≡ heard_of (window_hears self.old (record { t = t; level = level })) }
        ensures window { self.new ≡ after_edge self.old (record { t = t; level = level }) }
        ensures burst { (handed : List Edge) → Rising 0 (handed ++ record { t = t; level = level } ∷ []) → IsHanded self.old handed
            → IsHanded self.new (handed ++ record { t = t; level = level } ∷ []) }
        ensures later { last_at self.new.edges ≤ t.0 }
    {
        let edge = Edge { t, level };
        if self.hears(edge) {
            self.burst.push(edge);
            self.closes = Some(closing_tick(self.mode, &self.burst, t));
            Heard::Taken
        } else {
            Heard::Unheard
        }
    }

    fn hears(&self, edge: Edge) -> bool
        ensures { result ≡ window_hears self.now edge }
    {
        self.armed && self.opened.0 < edge.t.0 && !self.is_over(edge.t) && !self.is_early(edge)
    }

    // It has heard the last edge allowed by this tick, or the idle limit has passed.
    fn is_over(&self, t: Tick) -> bool
        ensures { result ≡ is_closed self.now.mode self.now.edges t.0 }
    {
        match self.closes {
            Some(at) => at.0 <= t.0,
            None => false,
        }
    }

    // A falling edge before the first rising one, in a mode that waits for that.
    fn is_early(&self, edge: Edge) -> bool
        ensures { result ≡ comes_early self.now.mode self.now.edges edge }
    {
        self.burst.is_empty() && !mode_numbers(self.mode).falling_first && !edge.level
    }

    /// The tick at which the idle limit closes the window, if it hears no further edge. None where it
    /// isn't armed, has no edge or has heard the last edge allowed.
    pub fn idle_at(&self) -> Option<Tick>
        ensures idle { result ≡ idle_at self.now }
    {
        if !self.armed || self.burst.len() >= mode_numbers(self.mode).most_edges {
            return None;
        }
        self.closes
    }

    /// The tick from which on the window is closed, if it hears no further edge. None where it isn't armed or has no edge.
    pub fn closes_at(&self) -> Option<Tick>
        ensures { (t : ℕ) → window_closed self.now t ≡ is_reached (number_of result) t }
    {
        if self.armed { self.closes } else { None }
    }

    /// Whether the window is closed at this tick: it has heard the last edge allowed, or the idle limit
    /// has passed since the last heard edge.
    pub fn closed(&self, t: Tick) -> bool
        ensures closed { result ≡ window_closed self.now t.0 }
        ensures settled { (handed : List Edge) (e : Edge) → IsHanded self.now handed → result ≡ true → t.0 ≤ e.t.0 → IsHanded self.now (handed ++ e ∷ []) }
    {
        self.armed && self.is_over(t)
    }

    /// The mode in which the window opened.
    pub fn mode(&self) -> Mode
        ensures { result ≡ self.now.mode }
    {
        self.mode
    }

    /// The edges that the window has heard.
    pub fn burst(&self) -> &Burst
        ensures edges { result.now ≡ self.now.edges }
    {
        &self.burst
    }
}
