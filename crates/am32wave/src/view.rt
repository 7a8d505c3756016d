//! What a picture of a run shows, and how.
ghost use Rattle.std.specs.Prelude.{◌≡◌};
ghost use Rattle.am32wave.specs.Stretch.{is_within, enters};

use esc_base::Tick;

/// How a run is drawn.
#[derive(Clone, Copy, Debug, PartialEq, Eq, Drop)]
pub enum View {
    /// As a value change dump.
    Wave,
    /// As a page for a browser.
    Page,
    /// As a still picture, an SVG.
    Still,
}

/// A stretch of a run: its first and its last tick, in ticks of 48 MHz. Nothing is in one that ends before it begins.
#[derive(Clone, Copy, Debug, PartialEq, Eq, Drop)]
pub struct Stretch {
    pub from: u32,
    pub to: u32,
}

impl Stretch {
    /// The whole run.
    pub const WHOLE: Stretch = Stretch {
        from: 0,
        to: u32::MAX,
    };

    /// Whether a tick is in it.
    pub fn contains(&self, t: Tick) -> bool
        ensures { result ≡ is_within self.now t.0 }
    {
        u64::from(self.from) <= t.0 && t.0 <= u64::from(self.to)
    }

    /// Whether it begins behind the one tick, and not behind the other.
    pub fn begins_between(&self, before: Tick, t: Tick) -> bool
        ensures { result ≡ enters self.now before.0 t.0 }
    {
        let from = u64::from(self.from);
        before.0 < from && from <= t.0
    }
}

/// A picture that is asked for.
#[derive(Clone, Copy, Debug, PartialEq, Eq, Drop)]
pub struct Plan {
    pub view: View,
    pub stretch: Stretch,
    /// Whether a trace gives the levels outside the controller.
    pub is_traced: bool,
}
