//! How many notes of each sort a journal has.
ghost use Rattle.std.specs.Prelude.{◌≡◌, [], All};
ghost use Rattle.am32wave.specs.Pieces.{text, Fits};
ghost use Rattle.am32wave.specs.Tally.{tally, more, with_tally, frames, bad_frames, detections_and_armings, losses, commutations, summary};

use crate::pieces::{Page, Piece, push_all};
use esc_base::Note;

/// The counts of a summary. A journal has fewer than 2^32 notes.
#[derive(Clone, Copy, Drop)]
pub struct Tally {
    pub good: u32,
    pub bad_count: u32,
    pub bad_polarity: u32,
    pub bad_span: u32,
    pub bad_width: u32,
    pub bad_check: u32,
    pub detected: u32,
    pub nothing: u32,
    pub armed: u32,
    pub timeout: u32,
    pub stuck: u32,
    pub fuse: u32,
    pub commutations: u32,
    pub crossings: u32,
}

/// With one more, where it is so.
fn more(count: u32, is_so: bool) -> u32
    ensures { result ≡ more count is_so }
{
    if is_so { count.wrapping_add(1) } else { count }
}

impl Tally {
    /// Of no note.
    pub fn new() -> Tally
        ensures { result ≡ tally [] }
    {
        Tally {
            good: 0,
            bad_count: 0,
            bad_polarity: 0,
            bad_span: 0,
            bad_width: 0,
            bad_check: 0,
            detected: 0,
            nothing: 0,
            armed: 0,
            timeout: 0,
            stuck: 0,
            fuse: 0,
            commutations: 0,
            crossings: 0,
        }
    }

    /// With a note more.
    pub fn after(self, note: &Note) -> Tally
        ensures { result ≡ with_tally self note.now }
    {
        Tally {
            good: more(self.good, matches!(*note, Note::Good { .. })),
            bad_count: more(self.bad_count, matches!(*note, Note::Bad { w: 1, .. })),
            bad_polarity: more(self.bad_polarity, matches!(*note, Note::Bad { w: 2, .. })),
            bad_span: more(self.bad_span, matches!(*note, Note::Bad { w: 3, .. })),
            bad_width: more(self.bad_width, matches!(*note, Note::Bad { w: 4, .. })),
            bad_check: more(self.bad_check, matches!(*note, Note::Bad { w: 5, .. })),
            detected: more(self.detected, matches!(*note, Note::Detected { .. })),
            nothing: more(self.nothing, matches!(*note, Note::Nothing { .. })),
            armed: more(self.armed, matches!(*note, Note::Armed { .. })),
            timeout: more(self.timeout, matches!(*note, Note::Lost { c: 0, .. })),
            stuck: more(self.stuck, matches!(*note, Note::Lost { c: 1, .. })),
            fuse: more(self.fuse, matches!(*note, Note::Lost { c: 2, .. })),
            commutations: more(self.commutations, matches!(*note, Note::Step { .. })),
            crossings: more(self.crossings, matches!(*note, Note::Cross { .. })),
        }
    }

    /// Good frames, and bad ones by the number of edges and the polarity.
    fn frames(&self) -> [Piece; 6]
        ensures text { text result ≡ frames self.now }
        ensures fits { All Fits result }
    {
        [
            Piece::Text("good frames "),
            Piece::Number(self.good),
            Piece::Text("\nbad frames: number of edges "),
            Piece::Number(self.bad_count),
            Piece::Text(", polarity "),
            Piece::Number(self.bad_polarity),
        ]
    }

    /// Bad frames by the span, the width of a bit and the checksum.
    fn bad_frames(&self) -> [Piece; 6]
        ensures text { text result ≡ bad_frames self.now }
        ensures fits { All Fits result }
    {
        [
            Piece::Text(", span "),
            Piece::Number(self.bad_span),
            Piece::Text(", width of a bit "),
            Piece::Number(self.bad_width),
            Piece::Text(", checksum "),
            Piece::Number(self.bad_check),
        ]
    }

    fn detections_and_armings(&self) -> [Piece; 6]
        ensures text { text result ≡ detections_and_armings self.now }
        ensures fits { All Fits result }
    {
        [
            Piece::Text("\ndetected "),
            Piece::Number(self.detected),
            Piece::Text(", nothing "),
            Piece::Number(self.nothing),
            Piece::Text("\narmed "),
            Piece::Number(self.armed),
        ]
    }

    fn losses(&self) -> [Piece; 6]
        ensures text { text result ≡ losses self.now }
        ensures fits { All Fits result }
    {
        [
            Piece::Text("\nlost: timeout "),
            Piece::Number(self.timeout),
            Piece::Text(", stuck "),
            Piece::Number(self.stuck),
            Piece::Text(", fuse "),
            Piece::Number(self.fuse),
        ]
    }

    fn commutations(&self) -> [Piece; 5]
        ensures text { text result ≡ commutations self.now }
        ensures fits { All Fits result }
    {
        [
            Piece::Text("\ncommutations "),
            Piece::Number(self.commutations),
            Piece::Text("\ncrossings "),
            Piece::Number(self.crossings),
            Piece::Text("\n"),
        ]
    }

    /// The summary that stands at the end.
    pub fn summary(&self, page: &mut Page)
        requires empty { page.old.items ≡ [] }
        ensures text { text page.new.items ≡ summary self.now }
        ensures fits { All Fits page.new.items }
    {
        push_all(&self.frames(), page);
        push_all(&self.bad_frames(), page);
        push_all(&self.detections_and_armings(), page);
        push_all(&self.losses(), page);
        push_all(&self.commutations(), page);
    }
}
