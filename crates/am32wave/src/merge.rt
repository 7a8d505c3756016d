//! A journal and its trace, put in the order of their times.
ghost use Rattle.std.specs.Prelude.{◌≡◌, ◌≢◌, ◌≤◌, ◌<◌, [], ℕ, List, Option, IfOk, IfErr, IfSome};
ghost use Rattle.esc_base.specs.Outside.{Rose};
ghost use Rattle.esc_base.specs.declared.event.Event.{Event as AnEvent};
ghost use Rattle.esc_base.specs.declared.note.Note.{Note as ANote};
ghost use Rattle.am32wave.specs.declared.moment.Moment.{Moment as AMoment};
ghost use Rattle.am32wave.specs.Merged.{IsNextNote, IsNextEvent, NotesStop, EventsStop, Merged, MergeSays, to_come};
ghost use Rattle.am32wave.specs.Next.{IsNoteKnown, IsEventKnown, notes_to_come, events_to_come};
ghost use Rattle.am32wave.specs.Shown.{OnReadFault, OnTraceFault, OnWriteFault};
ghost use Rattle.trace_text.specs.Ahead.{place};

use crate::ahead::{EventsAhead, Merge, NotesAhead};
use crate::journal::{Item, time_of};
use crate::moment::{Moment, tick_of};
use crate::next::{NextEvent, NextNote};
use crate::reader::Journal;
use crate::status::Status;
use esc_base::Source;
use trace_text::{Item as TraceItem, Lines};

impl NotesAhead {
    /// Reads the next note, where it wasn't read yet.
    fn read_on<S: Source>(&mut self, src: &mut S) -> Result<(), Status>
        ensures goes_on { IfOk result (λ done. (first : Option (List ℕ)) (notes : List ANote) (t : ℕ) →
            IsNextNote self.old.next self.old.journal first (S.left src.old) notes t →
            IsNextNote self.new.next self.new.journal first (S.left src.new) notes t) }
        ensures known { IfOk result (λ done. IsNoteKnown self.new.next) }
        ensures to_come { IfOk result (λ done. notes_to_come self.new.next self.new.journal.line ≤ notes_to_come self.old.next self.old.journal.line) }
        ensures stops { IfErr result (λ s. (first : Option (List ℕ)) (notes : List ANote) (t : ℕ) →
            IsNextNote self.old.next self.old.journal first (S.left src.old) notes t → NotesStop s first (S.left src.new) notes) }
        ensures no_fewer { S.faults src.old ≤ S.faults src.new }
        ensures read_fault { IfErr result (λ s. OnReadFault s (Rose (S.faults src.old) (S.faults src.new))) }
        ensures no_other_fault { IfErr result (λ s. (s ≢ Status.TraceFault) × (s ≢ Status.WriteFault)) }
        ensures not_done { IfErr result (λ s. s ≢ Status.Done) }
    {
        let NextNote::Unread = self.next else {
            return Ok(());
        };
        match self.journal.next(src) {
            Item::Note(note) => {
                self.next = NextNote::Is(note);
                Ok(())
            }
            Item::End => {
                self.next = NextNote::End;
                Ok(())
            }
            Item::Fault => Err(Status::ReadFault),
            Item::Refused(kind) => {
                let line = self.journal.line() + 1;
                Err(Status::Refused { line, kind })
            }
        }
    }
}

impl EventsAhead {
    /// Reads the next event, where it wasn't read yet. After an error the trace isn't read further.
    fn read_on<T: Source>(&mut self, trace: &mut T) -> Result<(), Status>
        ensures goes_on { IfOk result (λ done. (first : Option (List ℕ)) (events : List AnEvent) (t : ℕ) →
            IsNextEvent self.old.next self.old.lines first (T.left trace.old) events t →
            IsNextEvent self.new.next self.new.lines first (T.left trace.new) events t) }
        ensures known { IfOk result (λ done. IsEventKnown self.new.next) }
        ensures to_come { IfOk result (λ done. events_to_come self.new.next (place self.new.lines).line ≤ events_to_come self.old.next
            (place self.old.lines).line) }
        ensures stops { IfErr result (λ s. (first : Option (List ℕ)) (events : List AnEvent) (t : ℕ) →
            IsNextEvent self.old.next self.old.lines first (T.left trace.old) events t → EventsStop s first (T.left trace.new) events) }
        ensures no_fewer { T.faults trace.old ≤ T.faults trace.new }
        ensures trace_fault { IfErr result (λ s. OnTraceFault s (Rose (T.faults trace.old) (T.faults trace.new))) }
        ensures no_other_fault { IfErr result (λ s. (s ≢ Status.ReadFault) × (s ≢ Status.WriteFault)) }
        ensures not_done { IfErr result (λ s. s ≢ Status.Done) }
    {
        let NextEvent::Unread = self.next else {
            return Ok(());
        };
        self.next = NextEvent::End;
        match self.lines.next(trace) {
            TraceItem::Event(event) => {
                self.next = NextEvent::Is(event);
                Ok(())
            }
            TraceItem::End(_) => Ok(()),
            TraceItem::Fault => Err(Status::TraceFault),
            TraceItem::Refused(kind) => {
                let line = self.lines.line();
                Err(Status::TraceRefused { line, kind })
            }
        }
    }
}

impl Merge {
    /// Before the first note and the first event.
    pub fn new() -> Merge
        ensures { (notes_left events_left : Option (List ℕ)) → Merged result notes_left notes_left events_left events_left [] }
    {
        Merge {
            notes: NotesAhead {
                journal: Journal::new(),
                next: NextNote::Unread,
            },
            events: EventsAhead {
                lines: Lines::new(),
                next: NextEvent::Unread,
            },
        }
    }

    /// Takes the earlier one of the note and the event that come next; of two at one tick the event. `None` at both ends.
    fn take(&mut self) -> Option<Moment>
        requires note { IsNoteKnown self.old.notes.next }
        requires event { IsEventKnown self.old.events.next }
        ensures says { (notes_first notes_left events_first events_left : Option (List ℕ)) (moments : List AMoment) →
            Merged self.old notes_first notes_left events_first events_left moments →
            MergeSays (Ok result) self.new notes_first notes_left events_first events_left moments }
        ensures to_come { IfSome result (λ x. to_come self.new < to_come self.old) }
    {
        match (self.notes.next, self.events.next) {
            (NextNote::Is(note), NextEvent::Is(event)) => {
                if time_of(&note).0 < tick_of(&event).0 {
                    self.notes.next = NextNote::Unread;
                    Some(Moment::Note(note))
                } else {
                    self.events.next = NextEvent::Unread;
                    Some(Moment::Event(event))
                }
            }
            (NextNote::Is(note), NextEvent::End) => {
                self.notes.next = NextNote::Unread;
                Some(Moment::Note(note))
            }
            (NextNote::End, NextEvent::Is(event)) => {
                self.events.next = NextEvent::Unread;
                Some(Moment::Event(event))
            }
            (NextNote::End, NextEvent::End) => None,
            (NextNote::Unread, _) => None,
            (_, NextEvent::Unread) => None,
        }
    }

    /// The next moment, `None` where both journal and trace are at their ends, or why one of them isn't read further.
    pub fn next<S: Source, T: Source>(
        &mut self,
        src: &mut S,
        trace: &mut T,
    ) -> Result<Option<Moment>, Status>
        ensures says { (notes_first events_first : Option (List ℕ)) (moments : List AMoment) →
            Merged self.old notes_first (S.left src.old) events_first (T.left trace.old) moments →
            MergeSays result self.new notes_first (S.left src.new) events_first (T.left trace.new) moments }
        ensures to_come { IfOk result (λ o. IfSome o (λ x. to_come self.new < to_come self.old)) }
        ensures no_fewer { S.faults src.old ≤ S.faults src.new }
        ensures no_fewer_of_trace { T.faults trace.old ≤ T.faults trace.new }
        ensures read_fault { IfErr result (λ s. OnReadFault s (Rose (S.faults src.old) (S.faults src.new))) }
        ensures trace_fault { IfErr result (λ s. OnTraceFault s (Rose (T.faults trace.old) (T.faults trace.new))) }
        ensures no_write_fault { IfErr result (λ s. s ≢ Status.WriteFault) }
        ensures not_done { IfErr result (λ s. s ≢ Status.Done) }
    {
        if let Err(status) = self.notes.read_on(src) {
            return Err(status);
        }
        if let Err(status) = self.events.read_on(trace) {
            return Err(status);
        }
        Ok(self.take())
    }
}
