ghost use Rattle.std.specs.Prelude.{◌≡◌, ◌≤◌, ◌<◌, ◌+◌, ◌++◌, ◌∷◌, [], ℕ, List, Option, OnOk, OnErr, IfErr, IfNone, IfSome};
ghost use Rattle.std.specs.Io.KnownBytes.{append_known};
ghost use Rattle.esc_base.specs.Outside.{Rose, AppendsFront};
ghost use Rattle.esc_base.specs.declared.event.Event.{Event as AnEvent};
ghost use Rattle.esc_base.specs.Trace.{tick_of};
ghost use Rattle.trace_text.specs.Line.{after_event, soon_after};
ghost use Rattle.trace_text.specs.Text.{event_bytes};
ghost use Rattle.trace_text.specs.Ahead.{Follows, InTime};
ghost use Rattle.trace_tools.specs.Unwritten.{IsUnfit, IsCause, IsEndCause};
ghost use Rattle.trace_tools.specs.Written.{HasWritten, IsTrace, IsByte};

use crate::end_line::end_text;
use crate::number::LAST_TICK;
use crate::{Unwritten, Writer};
use esc_base::{Event, Sink, Tick};
use trace_text::{Place, event_text};

/// The most lines of events, so that the END line is at most line 16777216.
const MOST_EVENTS: u64 = 16777215;

/// The shortest distance of two serial bytes, in ticks.
const SERIAL_GAP: u64 = 20000;

/// The greatest number of ticks that a stall takes.
const LONGEST_STALL: u32 = 16777216;

/// The tick of an event.
pub fn tick_of(event: &Event) -> Tick
    ensures { result.0 ≡ tick_of event.now }
{
    match *event {
        Event::Edge { t, level: _ }
        | Event::Comp { t, level: _ }
        | Event::Serial { t, byte: _ }
        | Event::Stall { t, n: _ } => t,
    }
}

impl Writer {
    /// A writer before the first line.
    pub fn new() -> Writer
        ensures begins { (now : Option (List ℕ)) → HasWritten result now now [] }
        ensures time { result.place.time.0 ≡ 0 }
    {
        Writer {
            place: Place {
                line: 0,
                time: Tick(0),
                serial: None,
            },
        }
    }

    /// Why an event isn't one that may follow here.
    fn misfit(&self, event: &Event) -> Option<Unwritten>
        ensures follows { IfNone result (Follows self.now.place event.now) }
        ensures byte { IfNone result (IsByte event.now) }
        ensures room { IfNone result (self.now.place.line < 16777215) }
        ensures why { IfSome result (IsUnfit self.now.place event.now) }
    {
        let t = tick_of(event);
        if self.place.line >= MOST_EVENTS {
            return Some(Unwritten::TooMany);
        }
        if t.0 < self.place.time.0 {
            return Some(Unwritten::TimeBack);
        }
        if t.0 > LAST_TICK {
            return Some(Unwritten::TooLate);
        }
        match *event {
            Event::Edge { t: _, level: _ } | Event::Comp { t: _, level: _ } => None,
            Event::Serial { t, byte: _byte } => {
                if self.is_close(t) {
                    Some(Unwritten::TooClose)
                } else {
                    None
                }
            }
            Event::Stall { t: _, n } => {
                if n < 1 || n > LONGEST_STALL {
                    Some(Unwritten::BadStall)
                } else {
                    None
                }
            }
        }
    }

    /// Whether a serial byte at `t` comes too soon after the one before.
    fn is_close(&self, t: Tick) -> bool
        ensures { result ≡ soon_after self.now.place.serial t }
    {
        match self.place.serial {
            Some(before) => t.0.saturating_sub(before.0) < SERIAL_GAP,
            None => false,
        }
    }

    /// Writes an event's line, or answers why not; then the writer is as before.
    pub fn put<K: Sink>(&mut self, event: &Event, out: &mut K) -> Result<(), Unwritten>
        ensures ok { OnOk result ((first : Option (List ℕ)) (events : List AnEvent) → HasWritten self.old first (K.given out.old) events
            → HasWritten self.new first (K.given out.new) (events ++ event.now ∷ [])) }
        ensures line { OnOk result (self.new.place.line ≡ self.old.place.line + 1) }
        ensures same { OnErr result (self.new ≡ self.old) }
        ensures why { IfErr result (IsCause (Rose (K.faults out.old) (K.faults out.new)) self.old.place event.now) }
    {
        if let Some(why) = self.misfit(event) {
            return Err(why);
        }
        match out.put(event_text(event).as_bytes()) {
            Ok(()) => {
                self.place = self.place.after(event);
                Ok(())
            }
            Err(_) => Err(Unwritten::Sink),
        }
    }

    /// Writes the END line, or answers why not.
    pub fn end<K: Sink>(&self, t: Tick, out: &mut K) -> Result<(), Unwritten>
        ensures ok { OnOk result ((first : Option (List ℕ)) (events : List AnEvent) → HasWritten self.now first (K.given out.old) events
            → IsTrace first (K.given out.new) events t.0) }
        ensures why { IfErr result (IsEndCause (Rose (K.faults out.old) (K.faults out.new)) self.now.place t.0) }
    {
        if t.0 < self.place.time.0 {
            return Err(Unwritten::TimeBack);
        }
        if t.0 > LAST_TICK {
            return Err(Unwritten::TooLate);
        }
        match out.put(end_text(t).as_bytes()) {
            Ok(()) => Ok(()),
            Err(_) => Err(Unwritten::Sink),
        }
    }
}
