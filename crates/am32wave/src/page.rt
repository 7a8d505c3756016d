//! A run as a page for a browser: its fixed parts, and the lines of its data.
ghost use Rattle.std.specs.Prelude.{◌≡◌, ◌≤◌, ◌+◌, ◌++◌, ◌∷◌, [], All};
ghost use Rattle.arrayvec.specs.ArrayVec.{array_vec_len};
ghost use Rattle.esc_base.specs.Range.{IsWord};
ghost use Rattle.esc_base.specs.Trace.{tick_of};
ghost use Rattle.trace_text.specs.Text.{event_bytes, level_number};
ghost use Rattle.am32wave.specs.Moments.{MomentFits};
ghost use Rattle.am32wave.specs.Page.{moment_line, page_end, page_head, stretch_line};
ghost use Rattle.am32wave.specs.Pieces.{text, Fits};

use crate::moment::{Moment, tick_of};
use crate::picture::bit;
use crate::pieces::{Page, Piece, push_all};
use crate::script::{BEFORE_DATA, PAGE_END, PAGE_HEAD, SCRIPT};
use crate::view::Stretch;
use esc_base::Event;

/// An event's line of a trace.
fn event_line(event: &Event) -> [Piece; 4]
    requires { IsWord (tick_of event.now) }
    ensures fits { All Fits result }
    ensures text { text result ≡ event_bytes event.now }
{
    let tick = Piece::Number(tick_of(event).0 as u32);
    let end = Piece::Text("\n");
    match *event {
        Event::Edge { level, .. } => [tick, Piece::Text(" E "), level_digit(level), end],
        Event::Comp { level, .. } => [tick, Piece::Text(" C "), level_digit(level), end],
        Event::Serial { byte, .. } => [tick, Piece::Text(" S "), Piece::Byte(byte), end],
        Event::Stall { n, .. } => [tick, Piece::Text(" J "), Piece::Number(n), end],
    }
}

fn level_digit(level: bool) -> Piece
    ensures { result ≡ Piece.Number (level_number level) }
{
    Piece::Number(bit(level))
}

/// The line of a note or of an event.
pub fn push_moment_line(moment: &Moment, page: &mut Page)
    requires moment { MomentFits moment.now }
    requires room { array_vec_len page.old ≤ 80 }
    requires fits { All Fits page.old.items }
    ensures text { text page.new.items ≡ text page.old.items ++ moment_line moment.now }
    ensures fits { All Fits page.new.items }
    ensures len { array_vec_len page.new ≤ array_vec_len page.old + 4 }
{
    match moment {
        Moment::Note(note) => page.push(Piece::Note(*note)),
        Moment::Event(event) => push_all(&event_line(event), page),
    }
}

/// The first line of the data.
fn stretch_line(stretch: &Stretch) -> [Piece; 5]
    ensures fits { All Fits result }
    ensures text { text result ≡ stretch_line stretch.now }
{
    [
        Piece::Text("stretch "),
        Piece::Number(stretch.from),
        Piece::Text(" "),
        Piece::Number(stretch.to),
        Piece::Text("\n"),
    ]
}

/// What stands before the first moment: the page's head and its script, and the first line of the data.
pub fn push_page_head(stretch: &Stretch, page: &mut Page)
    requires empty { page.old.items ≡ [] }
    ensures text { text page.new.items ≡ page_head ++ stretch_line stretch.now }
    ensures fits { All Fits page.new.items }
{
    page.push(Piece::Text(PAGE_HEAD));
    page.push(Piece::Text(SCRIPT));
    page.push(Piece::Text(BEFORE_DATA));
    push_all(&stretch_line(stretch), page);
}

/// What stands behind the data.
pub fn push_page_end(page: &mut Page)
    requires room { array_vec_len page.old ≤ 80 }
    requires fits { All Fits page.old.items }
    ensures text { text page.new.items ≡ text page.old.items ++ page_end }
    ensures fits { All Fits page.new.items }
{
    page.push(Piece::Text(PAGE_END));
}
