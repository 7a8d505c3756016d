//! A journal in words, a line for each note, and a summary.
ghost use Rattle.std.specs.Prelude.{◌≡◌, ◌≤◌, ◌+◌, ◌∷◌, ◌++◌, [], List, All};
ghost use Rattle.esc_base.specs.declared.note.Note.{Note as ANote};
ghost use Rattle.esc_base.specs.Range.{InRange};
ghost use Rattle.am32wave.specs.Pieces.{text, Fits};
ghost use Rattle.am32wave.specs.Tally.{tally, summary};
ghost use Rattle.am32wave.specs.Explained.{indent, line};
ghost use Rattle.am32wave.specs.After.{IsToldAfter as IsAfter};

use crate::journal::time_of;
use crate::picture::Handlers;
use crate::pieces::{Page, Piece, push_all};
use crate::sentence::sentence;
use crate::tally::Tally;
use esc_base::Note;

/// Two blanks for each handler that is open round a line, 0 to 7.
fn indent(depth: u32) -> &'static str
    requires { depth ≤ 7 }
    ensures { result.now ≡ indent depth }
{
    match depth {
        0 => "",
        1 => "  ",
        2 => "    ",
        3 => "      ",
        4 => "        ",
        5 => "          ",
        6 => "            ",
        _ => "              ",
    }
}

/// A journal that is told in words, after some notes.
#[derive(Clone, Copy, Drop)]
pub struct Explanation {
    handlers: Handlers,
    tally: Tally,
}

impl Explanation {
    /// Before the first note.
    pub fn new() -> Explanation
        ensures { IsAfter result [] }
    {
        Explanation {
            handlers: Handlers::new(),
            tally: Tally::new(),
        }
    }

    /// A note's line: its time, and what it says, further in by the handlers that are open round it.
    pub fn add(&mut self, note: &Note) -> Page
        requires { InRange note.now }
        ensures fits { All Fits result.items }
        ensures line { (notes : List ANote) → IsAfter self.old notes → text result.items ≡ line notes note.now }
        ensures goes_on { (notes : List ANote) → IsAfter self.old notes → IsAfter self.new (notes ++ note.now ∷ []) }
    {
        let after = self.handlers.after(note);
        let depth = self.handlers.count().min(after.count());
        let mut page = Page::new();
        page.push(Piece::Time(time_of(note)));
        page.push(Piece::Text("  "));
        page.push(Piece::Text(indent(depth)));
        push_all(&sentence(note), &mut page);
        page.push(Piece::Text("\n"));
        self.handlers = after;
        self.tally = self.tally.after(note);
        page
    }

    /// The summary.
    pub fn end(&self) -> Page
        ensures fits { All Fits result.items }
        ensures summary { (notes : List ANote) → IsAfter self.now notes → text result.items ≡ summary (tally notes) }
    {
        let mut page = Page::new();
        self.tally.summary(&mut page);
        page
    }
}
