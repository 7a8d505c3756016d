//! A stretch of a run as a still picture.
ghost use Rattle.std.specs.Prelude.{◌≡◌, ◌≤◌, All};
ghost use Rattle.esc_base.specs.Range.{IsWord};
ghost use Rattle.am32wave.specs.Pieces.{text, time_text, piece_text, Fits};
ghost use Rattle.am32wave.specs.Still.{row, span, place, painted, still_head};

use crate::pieces::Piece;
use crate::view::Stretch;
use crate::wire::Wire;
use esc_base::{Kind, Leg, Tick};

/// What stands before the time at which the stretch begins: the style, the shapes and the names of the rows.
pub const STILL_HEAD: &str =
    r##"<svg xmlns="http://www.w3.org/2000/svg" viewBox="0 0 960 460" width="960" font-family="monospace" font-size="12">
<style>
svg { --paper: #fff; --ink: #333; --dim: #888; background: var(--paper); fill: var(--ink); stroke: none }
@media (prefers-color-scheme: dark) { svg { --paper: #14171a; --ink: #ddd; --dim: #888 } }
.p { fill: var(--paper) } use { stroke: #808080; fill: none; stroke-width: 1.3 } .g { stroke: var(--dim); stroke-dasharray: 1 4 }
use[y="20"], use[y="40"] { stroke: #0b8296 } use[y="60"], use[y="80"] { stroke: #a9760b } use[y="100"] { stroke: #2f9e44 }
use[y="120"], use[y="160"], use[y="200"] { stroke: #d9730d } use[y="140"], use[y="180"], use[y="220"] { stroke: #3b82c4 }
use[y="240"], use[y="260"] { stroke: #9b59b6 } svg svg text { transform: translate(4px, 14px) } .m { text-anchor: middle } .e { text-anchor: end }
</style>
<defs>
<g id="h"><rect class="p" y="1" width="101%" height="18" stroke="none"/><path d="M0 16V4"/><line x2="101%" y1="4" y2="4"/></g>
<g id="l"><rect class="p" y="1" width="101%" height="18" stroke="none"/><path d="M0 4V16"/><line x2="101%" y1="16" y2="16"/></g>
<g id="b"><rect class="p" y="1" width="101%" height="18" stroke="none"/><rect y="3.5" width="101%" height="13"/></g>
</defs>
<rect class="p" width="960" height="460"/>
<text class="e" x="122" y="34">signal_line</text>
<text class="e" x="122" y="54">window</text>
<text class="e" x="122" y="74">armed</text>
<text class="e" x="122" y="94">demand</text>
<text class="e" x="122" y="114">comparator</text>
<text class="e" x="122" y="134">high_a</text>
<text class="e" x="122" y="154">low_a</text>
<text class="e" x="122" y="174">high_b</text>
<text class="e" x="122" y="194">low_b</text>
<text class="e" x="122" y="214">high_c</text>
<text class="e" x="122" y="234">low_c</text>
<text class="e" x="122" y="254">sector</text>
<text class="e" x="122" y="274">crossings</text>
<text class="e" x="122" y="294">handler_main</text>
<text class="e" x="122" y="314">handler_uart</text>
<text class="e" x="122" y="334">handler_tick</text>
<text class="e" x="122" y="354">handler_cap</text>
<text class="e" x="122" y="374">handler_cmp</text>
<text class="e" x="122" y="394">handler_pwm</text>
<text class="e" x="122" y="414">handler_comm</text>
<text class="s" x="130" y="14">"##;

/// What stands before the times below the rows.
pub const BEFORE_QUARTER: &str = r##"</text>
<text class="s" x="130" y="448">0</text>
<text class="m" x="332" y="448">"##;

pub const BEFORE_HALF: &str = r##"</text>
<text class="m" x="535" y="448">"##;

pub const BEFORE_THREE_QUARTERS: &str = r##"</text>
<text class="m" x="737" y="448">"##;

pub const BEFORE_SPAN: &str = r##"</text>
<text class="e" x="940" y="448">"##;

/// What stands before the changes: the lines of the quarters, and each row low.
pub const BEFORE_ROWS: &str = r##"</text>
<svg x="130" y="0" width="810" height="430" fill="inherit">
<use href="#l" x="-1%" y="20"/>
<use href="#l" x="-1%" y="40"/>
<use href="#l" x="-1%" y="60"/>
<use href="#l" x="-1%" y="100"/>
<use href="#l" x="-1%" y="120"/>
<use href="#l" x="-1%" y="140"/>
<use href="#l" x="-1%" y="160"/>
<use href="#l" x="-1%" y="180"/>
<use href="#l" x="-1%" y="200"/>
<use href="#l" x="-1%" y="220"/>
<use href="#l" x="-1%" y="280"/>
<use href="#l" x="-1%" y="300"/>
<use href="#l" x="-1%" y="320"/>
<use href="#l" x="-1%" y="340"/>
<use href="#l" x="-1%" y="360"/>
<use href="#l" x="-1%" y="380"/>
<use href="#l" x="-1%" y="400"/>
<line class="g" x1="25%" x2="25%" y1="20" y2="430"/>
<line class="g" x1="50%" x2="50%" y1="20" y2="430"/>
<line class="g" x1="75%" x2="75%" y1="20" y2="430"/>
"##;

/// What stands behind the changes.
pub const STILL_END: &str = r##"</svg>
</svg>
"##;

/// The row in which a wire is painted, from 1; 0 for none.
fn row(wire: Wire) -> u32
    ensures row { result ≡ row wire }
    ensures few { result ≤ 20 }
{
    match wire {
        Wire::Line => 1,
        Wire::Window => 2,
        Wire::Armed => 3,
        Wire::Demand => 4,
        Wire::Comparator => 5,
        Wire::High(Leg::A) => 6,
        Wire::Low(Leg::A) => 7,
        Wire::High(Leg::B) => 8,
        Wire::Low(Leg::B) => 9,
        Wire::High(Leg::C) => 10,
        Wire::Low(Leg::C) => 11,
        Wire::Sector => 12,
        Wire::Crossings => 13,
        Wire::Open(Kind::Main) => 14,
        Wire::Open(Kind::Uart) => 15,
        Wire::Open(Kind::Tick) => 16,
        Wire::Open(Kind::Cap) => 17,
        Wire::Open(Kind::Cmp) => 18,
        Wire::Open(Kind::Pwm) => 19,
        Wire::Open(Kind::Comm) => 20,
        _ => 0,
    }
}

/// The ticks across the picture.
fn span(stretch: &Stretch) -> u32
    ensures { result ≡ span stretch.now }
{
    stretch.to.saturating_sub(stretch.from).max(1)
}

/// Where a tick stands, in thousandths of a percent of the span.
fn place(stretch: &Stretch, t: Tick) -> u32
    requires { IsWord t.0 }
    ensures { result ≡ place stretch.now t.0 }
{
    let behind = t.0.saturating_sub(u64::from(stretch.from));
    (behind * 100_000 / u64::from(span(stretch))).min(100_000) as u32
}

/// The new value of a wire at a tick.
pub fn painted(stretch: &Stretch, t: Tick, wire: Wire, value: u32) -> Piece
    requires { IsWord t.0 }
    ensures text { piece_text result ≡ painted stretch.now t.0 wire value }
    ensures fits { Fits result }
{
    let row = row(wire);
    if row == 0 {
        return Piece::Text("");
    }
    let x = place(stretch, t);
    let y = 20 * row;
    if wire.width() == 1 {
        Piece::Level { x, y, value }
    } else {
        Piece::Box { x, y, value }
    }
}

fn time(ticks: u32) -> Piece
    ensures text { piece_text result ≡ time_text ticks }
    ensures fits { Fits result }
{
    Piece::Time(Tick(u64::from(ticks)))
}

/// What stands before the changes.
pub fn still_head(stretch: &Stretch) -> [Piece; 11]
    ensures text { text result ≡ still_head stretch.now }
    ensures fits { All Fits result }
{
    let span = span(stretch);
    [
        Piece::Text(STILL_HEAD),
        time(stretch.from),
        Piece::Text(BEFORE_QUARTER),
        time(span / 4),
        Piece::Text(BEFORE_HALF),
        time(span / 2),
        Piece::Text(BEFORE_THREE_QUARTERS),
        time(span / 4 * 3),
        Piece::Text(BEFORE_SPAN),
        time(span),
        Piece::Text(BEFORE_ROWS),
    ]
}
