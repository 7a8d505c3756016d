ghost use Rattle.std.specs.Prelude.{◌≡◌, ◌≤◌, ◌<◌, ◌+◌, ◌∷◌, ◌++◌, [], ℕ, List, Option, Some, None, IfSome, IfNone, IfOk, IfErr, Ok};
ghost use Rattle.std.specs.Io.KnownBytes.{prepend_known};
ghost use Rattle.esc_base.specs.Outside.{Rose};
ghost use Rattle.esc_base.specs.declared.event.Event.{Event as AnEvent};
ghost use Rattle.trace_text.specs.Line.{said, after_event};
ghost use Rattle.trace_text.specs.Read.{Read, Trace, TakenEvents};
ghost use Rattle.trace_text.specs.Read.{Refused as IsRefused};
ghost use Rattle.trace_text.specs.Ahead.{unread, place, ahead, HasRead, NoEvent, Follows, InTime, IfEvent, IfEnd, OnFault, OnStop, IfRefused, lines_looked_at, IsLine, NoLineFeed, next_line, Answers, AnswersWhole, SourceEnded};
ghost use Rattle.trace_text.specs.declared.parse.Entry.TheVariants.{End as IsEnd};
ghost use Rattle.trace_text.specs.declared.item.Item.TheVariants.{Event as IsEvent};

use crate::parse::Entry;
use crate::piece::Held;
use crate::{Item, Lines, Place, Refusal};
use esc_base::{Event, Source, Tick};

/// The most bytes of a line, without its line feed.
const LONGEST_LINE: usize = 40;

/// The most lines of a trace.
const MOST_LINES: u64 = 16777216;

impl Lines {
    /// A reader before the first line.
    pub fn new() -> Lines
        ensures begins { (left : Option (List ℕ)) → HasRead result left left [] }
        ensures line { (place result).line ≡ 0 }
        ensures time { (place result).time.0 ≡ 0 }
        ensures serial { (place result).serial ≡ None }
    {
        Lines {
            held: Held::new(),
            place: Place {
                line: 0,
                time: Tick(0),
                serial: None,
            },
        }
    }

    /// The number of the line that was last looked at, from 1; 0 before the first.
    pub fn line(&self) -> u64
        ensures { result ≡ (place self.now).line }
    {
        self.place.line
    }

    /// The length of the next line, 0 to 40, which is then held whole with its line feed.
    fn find_line<S: Source>(&mut self, src: &mut S) -> Result<usize, Item>
        requires { (place self.old).line < 16777216 }
        ensures ahead { ahead self.new.held (S.left src.new) ≡ ahead self.old.held (S.left src.old) }
        ensures found { IfOk result (λ n. IsLine n (unread self.new.held)) }
        ensures answers { IfErr result (λ item. Answers (place self.old) (ahead self.old.held (S.left src.old)) item
            (next_line (place self.old)) (ahead self.new.held (S.left src.new))) }
        ensures no_event { IfErr result (λ item. OnStop item (NoEvent (place self.old) (ahead self.old.held (S.left src.old)) (S.left src.new))) }
        ensures place { place self.new ≡ place self.old }
        ensures end { IfErr result (SourceEnded (S.left src.new)) }
        ensures fault { IfErr result (λ item. OnFault item (Rose (S.faults src.old) (S.faults src.new))) }
        ensures no_fewer { S.faults src.old ≤ S.faults src.new }
    {
        loop {
            if let Some(n) = self.held.line_feed(LONGEST_LINE + 1) {
                return Ok(n);
            }
            if self.held.len() > LONGEST_LINE {
                return Err(Item::Refused(Refusal::TooLong));
            }
            match self.held.fill(src) {
                Err(_) => return Err(Item::Fault),
                Ok(false) => return Err(Item::Refused(Refusal::NoEnd)),
                Ok(true) => {}
            }
        }
    }

    /// Refuses a line after the last one that a trace may have.
    fn past_last<S: Source>(&mut self, src: &mut S) -> Item
        requires { (place self.old).line ≡ 16777216 }
        ensures answers { Answers (place self.old) (ahead self.old.held (S.left src.old)) result (place self.new) (ahead self.new.held (S.left src.new)) }
        ensures no_line { IfEvent result (λ e. ⊥) }
        ensures no_event { OnStop result (NoEvent (place self.old) (ahead self.old.held (S.left src.old)) (S.left src.new)) }
        ensures end { SourceEnded (S.left src.new) result }
        ensures fault { OnFault result (Rose (S.faults src.old) (S.faults src.new)) }
        ensures no_fewer { S.faults src.old ≤ S.faults src.new }
    {
        self.place.line += 1;
        match self.held.has_more(src) {
            Err(_) => Item::Fault,
            Ok(true) => Item::Refused(Refusal::TooMany),
            Ok(false) => Item::Refused(Refusal::NoEnd),
        }
    }

    /// Looks whether anything follows the END line.
    fn read_end<S: Source>(&mut self, t: Tick, src: &mut S) -> Item
        requires few { (place self.old).line < 16777216 }
        requires in_time { InTime (place self.old) t.0 }
        ensures answers { (line : List ℕ) → NoLineFeed line → said (place self.old) line ≡ Ok (IsEnd t) →
            AnswersWhole (place self.old) line (ahead self.old.held (S.left src.old)) result (place self.new) (ahead self.new.held (S.left src.new)) }
        ensures no_event { (line : List ℕ) → NoLineFeed line → said (place self.old) line ≡ Ok (IsEnd t) →
            OnStop result (NoEvent (place self.old) (prepend_known (line ++ 10 ∷ []) (ahead self.old.held (S.left src.old))) (S.left src.new)) }
        ensures end { SourceEnded (S.left src.new) result }
        ensures fault { OnFault result (Rose (S.faults src.old) (S.faults src.new)) }
        ensures no_fewer { S.faults src.old ≤ S.faults src.new }
    {
        self.place.line += 1;
        match self.held.has_more(src) {
            Err(_) => Item::Fault,
            Ok(false) => Item::End(t),
            Ok(true) => {
                self.place.line += 1;
                Item::Refused(Refusal::AfterEnd)
            }
        }
    }

    /// Reads the line of `n` bytes that is held with its line feed.
    fn read_line<S: Source>(&mut self, n: usize, src: &mut S) -> Item
        requires few { (place self.old).line < 16777216 }
        requires found { IsLine n (unread self.old.held) }
        ensures answers { Answers (place self.old) (ahead self.old.held (S.left src.old)) result (place self.new) (ahead self.new.held (S.left src.new)) }
        ensures no_event { OnStop result (NoEvent (place self.old) (ahead self.old.held (S.left src.old)) (S.left src.new)) }
        ensures end { SourceEnded (S.left src.new) result }
        ensures fault { OnFault result (Rose (S.faults src.old) (S.faults src.new)) }
        ensures no_fewer { S.faults src.old ≤ S.faults src.new }
    {
        let entry = match self.place.parse(self.held.front(n)) {
            Ok(entry) => entry,
            Err(kind) => {
                self.place.line += 1;
                return Item::Refused(kind);
            }
        };
        self.held.skip(n + 1);
        match entry {
            Entry::Event(event) => {
                self.place = self.place.after(&event);
                Item::Event(event)
            }
            Entry::End(t) => self.read_end(t, src),
        }
    }

    /// Reads the next line, where it is held whole and is plain.
    fn read_plain(&mut self) -> Option<Event>
        requires few { (place self.old).line < 16777216 }
        ensures answers { IfSome result (λ e. (left : Option (List ℕ)) →
            Answers (place self.old) (ahead self.old.held left) (IsEvent e) (place self.new) (ahead self.new.held left)) }
        ensures kept { IfNone result (self.new ≡ self.old) }
    {
        let (event, len) = self.place.plain_event(self.held.all())?;
        self.held.skip(len + 1);
        self.place = self.place.after(&event);
        Some(event)
    }

    /// The next line's event, the end of the trace, or why there is none. After `End`, `Fault` or `Refused` the
    /// reader isn't called again.
    pub fn next<S: Source>(&mut self, src: &mut S) -> Item
        requires { (place self.old).line ≤ 16777216 }

        // The events so far are those of the lines that were read, whether the source tells what is left or not.
        ensures event { IfEvent result (λ e. (first : Option (List ℕ)) (events : List AnEvent) → HasRead self.old first (S.left src.old) events →
            HasRead self.new first (S.left src.new) (events ++ e ∷ [])) }

        // At the end and at a fault no event more is in the bytes that were taken.
        ensures taken { OnStop result ((first : Option (List ℕ)) (events : List AnEvent) → HasRead self.old first (S.left src.old) events →
            TakenEvents first (S.left src.new) events) }

        // Where the source tells what is left, the last answer is what the whole text says.
        ensures end { IfEnd result (λ t. (text : List ℕ) (events : List AnEvent) → HasRead self.old (Some text) (S.left src.old) events →
            Read text ≡ Trace events t.0) }
        ensures refused { IfRefused result (λ kind. (text : List ℕ) (events : List AnEvent) → HasRead self.old (Some text) (S.left src.old) events →
            Read text ≡ IsRefused events (place self.new).line kind) }
        ensures no_end { SourceEnded (S.left src.new) result }

        // In any case.
        ensures follows { IfEvent result (λ e. Follows (place self.old) e) }
        ensures goes_on { IfEvent result (λ e. place self.new ≡ after_event (place self.old) e) }
        ensures few { IfEvent result (λ e. (place self.new).line ≤ 16777216) }
        ensures in_time { IfEnd result (λ t. InTime (place self.old) t.0) }
        ensures line { (place self.new).line ≡ (place self.old).line + lines_looked_at result }
        ensures fault { OnFault result (Rose (S.faults src.old) (S.faults src.new)) }
        ensures no_fewer { S.faults src.old ≤ S.faults src.new }
    {
        if self.place.line == MOST_LINES {
            return self.past_last(src);
        }
        if let Some(event) = self.read_plain() {
            return Item::Event(event);
        }
        match self.find_line(src) {
            Ok(n) => self.read_line(n, src),
            Err(item) => {
                self.place.line += 1;
                item
            }
        }
    }
}
