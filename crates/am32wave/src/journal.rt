//! A journal, read note by note from a source.
ghost use Rattle.esc_base.specs.Journal.{time_of};
ghost use Rattle.std.specs.Prelude.{◌≡◌, ◌≤◌, ◌+◌, [], ℕ, List, Option, IfOk, IfErr};
ghost use Rattle.esc_base.specs.Outside.{Rose};
ghost use Rattle.am32wave.specs.Reading.{IsEnded, Stops, Says, OnFault};

use crate::reader::Journal;
use esc_base::{Note, Source, Tick};
use trace_text::{Held, note_read};

/// The most bytes of a note's line, without its line feed.
const LONGEST_LINE: usize = 45;

/// The most lines of a journal, 2^32 - 1. A run makes fewer.
const MOST_LINES: u64 = 4294967295;

/// Why a line isn't read.
#[derive(Clone, Copy, Debug, PartialEq, Eq, Drop)]
pub enum Refusal {
    /// It is the line of no note.
    NotANote,
    /// The note's time is below that of the note before.
    TimeBack,
    /// The journal ends inside the line.
    NoEnd,
    /// It is line 4294967296.
    TooMany,
}

/// What one call of the reader gives.
#[derive(Clone, Copy, Debug, PartialEq, Eq, Drop)]
pub enum Item {
    /// The note of the next line.
    Note(Note),
    /// The journal ends behind the line before.
    End,
    /// The source failed.
    Fault,
    /// The first faulty line.
    Refused(Refusal),
}

/// When a note was made.
pub fn time_of(note: &Note) -> Tick
    ensures { result.0 ≡ time_of note.now }
{
    match *note {
        Note::Up { t, .. }
        | Note::Enter { t, .. }
        | Note::Leave { t, .. }
        | Note::Gate { t, .. }
        | Note::Window { t, .. }
        | Note::Good { t, .. }
        | Note::Detected { t, .. }
        | Note::Nothing { t }
        | Note::Bad { t, .. }
        | Note::Control { t, .. }
        | Note::Armed { t }
        | Note::Lost { t, .. }
        | Note::Command { t, .. }
        | Note::Saved { t, .. }
        | Note::Step { t, .. }
        | Note::Cross { t }
        | Note::Period { t, .. }
        | Note::Reply { t, .. }
        | Note::Packet { t, .. }
        | Note::Sent { t, .. }
        | Note::Dropped { t, .. }
        | Note::Watched { t, .. } => t,
    }
}

impl Journal {
    ghost use Rattle.trace_text.specs.Ahead.{unread, ahead};

    /// A reader before the first line.
    pub fn new() -> Journal
        ensures unread { unread result.held ≡ [] }
        ensures line { result.line ≡ 0 }
        ensures time { result.time.0 ≡ 0 }
    {
        Journal {
            held: Held::new(),
            line: 0,
            time: Tick(0),
        }
    }

    /// How many lines were read.
    pub fn line(&self) -> u64
        ensures line { result ≡ self.now.line }
        ensures few { result ≤ 4294967295 }
    {
        self.line
    }

    /// The length of the next line, which is then held with its line feed.
    fn find_line<S: Source>(&mut self, src: &mut S) -> Result<usize, Item>
        ensures ahead { ahead self.new.held (S.left src.new) ≡ ahead self.old.held (S.left src.old) }
        ensures line { self.new.line ≡ self.old.line }
        ensures time { self.new.time ≡ self.old.time }
        ensures found { IfOk result (λ n. IsEnded n (unread self.new.held)) }
        ensures stops { IfErr result (λ item. Stops item self.old.line self.old.time.0 (ahead self.old.held (S.left src.old)) (S.left src.new)) }
        ensures no_fewer { S.faults src.old ≤ S.faults src.new }
        ensures fault { IfErr result (λ item. OnFault item (Rose (S.faults src.old) (S.faults src.new))) }
    {
        loop {
            if let Some(n) = self.held.line_feed(LONGEST_LINE + 1) {
                return Ok(n);
            }
            if self.held.len() > LONGEST_LINE {
                return Err(Item::Refused(Refusal::NotANote));
            }
            match self.held.fill(src) {
                Err(_) => return Err(Item::Fault),
                Ok(false) if self.held.len() == 0 => return Err(Item::End),
                Ok(false) => return Err(Item::Refused(Refusal::NoEnd)),
                Ok(true) => {}
            }
        }
    }

    /// Reads the line of `n` bytes that is held with its line feed.
    fn read_line(&mut self, n: usize) -> Item
        requires { IsEnded n (unread self.old.held) }
        ensures says { (left : Option (List ℕ)) → Says result self.old self.new (ahead self.old.held left) (ahead self.new.held left) left }
        ensures no_fault { OnFault result ⊥ }
    {
        let Some(note) = note_read(self.held.front(n + 1)) else {
            return Item::Refused(Refusal::NotANote);
        };
        let time = time_of(&note);
        if time.0 < self.time.0 {
            return Item::Refused(Refusal::TimeBack);
        }
        if self.line == MOST_LINES {
            return Item::Refused(Refusal::TooMany);
        }
        self.held.skip(n + 1);
        self.line += 1;
        self.time = time;
        Item::Note(note)
    }

    /// The next line's note, the end of the journal, or why there is none.
    pub fn next<S: Source>(&mut self, src: &mut S) -> Item
        ensures says { Says result self.old self.new (ahead self.old.held (S.left src.old)) (ahead self.new.held (S.left src.new)) (S.left src.new) }
        ensures no_fewer { S.faults src.old ≤ S.faults src.new }
        ensures fault { OnFault result (Rose (S.faults src.old) (S.faults src.new)) }
    {
        match self.find_line(src) {
            Ok(n) => self.read_line(n),
            Err(item) => item,
        }
    }
}
