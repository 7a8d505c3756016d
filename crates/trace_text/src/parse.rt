ghost use Rattle.std.specs.Prelude.{◌≡◌, ◌≤◌, ◌<◌, ◌∷◌, ℕ, List, length, true, false, Some, IfOk, IfErr, IfSome};
ghost use Rattle.esc_base.specs.Trace.{tick_of};
ghost use Rattle.trace_text.specs.Line.{is_decimal, number, kind_of, is_end_kind, event_of, said, said_in, after_event, too_close, fields};
ghost use Rattle.trace_text.specs.Ahead.{InTime, StallFits};

use crate::field::{byte, decimal_of, level, number_in, split_field};
use crate::{Place, Refusal};
use esc_base::{Event, Tick};

/// The greatest time of a trace, in ticks of 48 MHz.
pub const LAST_TICK: u64 = 1073741824;

/// The shortest distance of two serial bytes, in ticks.
const SERIAL_GAP: u64 = 20000;

/// The greatest number of ticks that a stall takes.
const LONGEST_STALL: u32 = 16777216;

/// What a line's second field asks for.
#[derive(Clone, Copy, Drop)]
pub enum LineKind {
    Edge,
    Comp,
    Serial,
    Stall,
    End,
}

/// What a good line says.
#[derive(Clone, Copy, Drop)]
pub enum Entry {
    Event(Event),
    End(Tick),
}

/// The kind that a name stands for.
pub fn kind_named(name: &[u8]) -> Option<LineKind>
    ensures { result ≡ kind_of name.now }
{
    match name {
        [b'E'] => Some(LineKind::Edge),
        [b'C'] => Some(LineKind::Comp),
        [b'S'] => Some(LineKind::Serial),
        [b'J'] => Some(LineKind::Stall),
        [b'E', b'N', b'D'] => Some(LineKind::End),
        _ => None,
    }
}

/// The event of a kind that a value says.
pub fn event(kind: LineKind, t: Tick, value: &[u8]) -> Option<Event>
    ensures event { result ≡ event_of kind t value.now }
    ensures tick { IfSome result (λ e. tick_of e ≡ t.0) }
    ensures stall { IfSome result StallFits }
{
    match kind {
        LineKind::Edge => Some(Event::Edge {
            t,
            level: level(value)?,
        }),
        LineKind::Comp => Some(Event::Comp {
            t,
            level: level(value)?,
        }),
        LineKind::Serial => Some(Event::Serial {
            t,
            byte: byte(value)?,
        }),
        LineKind::Stall => Some(Event::Stall {
            t,
            n: number_in(value, 1, LONGEST_STALL)?,
        }),
        LineKind::End => None,
    }
}

impl Place {
    ghost use Rattle.trace_text.specs.Ahead.{EntryFits, IsOfLine};

    /// What a line without its line feed says here.
    pub fn parse(&self, line: &[u8]) -> Result<Entry, Refusal>
        requires short { length line.now ≤ 40 }
        requires few { self.now.line < 16777216 }
        ensures said { result ≡ said self.now line.now }
        ensures fits { IfOk result (EntryFits self.now) }
        ensures refused { IfErr result IsOfLine }
    {
        let (time, rest) = split_field(line);
        let Some(rest) = rest else {
            return Err(Refusal::BadTime);
        };
        let Some(t) = decimal_of(time) else {
            return Err(Refusal::BadTime);
        };
        if t < self.time.0 {
            return Err(Refusal::TimeBack);
        }
        if t > LAST_TICK {
            return Err(Refusal::TooLate);
        }
        self.parse_rest(Tick(t), rest)
    }

    /// The kind and the value, after a good time.
    fn parse_rest(&self, t: Tick, rest: &[u8]) -> Result<Entry, Refusal>
        requires in_time { InTime self.now t.0 }
        ensures said { (time : List ℕ) → is_decimal time ≡ true → number time ≡ t.0 → result ≡ said_in self.now (time ∷ fields rest.now) }
        ensures fits { IfOk result (EntryFits self.now) }
        ensures refused { IfErr result IsOfLine }
    {
        let (name, value) = split_field(rest);
        let Some(kind) = kind_named(name) else {
            return Err(Refusal::BadKind);
        };
        match (kind, value) {
            (LineKind::End, None) => Ok(Entry::End(t)),
            (LineKind::End, Some(_)) => Err(Refusal::Trailing),
            (_, None) => Err(Refusal::BadValue),
            (_, Some(value)) => self.parse_value(kind, t, value),
        }
    }

    /// The value of a kind other than END.
    fn parse_value(&self, kind: LineKind, t: Tick, rest: &[u8]) -> Result<Entry, Refusal>
        requires in_time { InTime self.now t.0 }
        requires not_end { is_end_kind (Some kind) ≡ false }
        ensures said { (time name : List ℕ) → is_decimal time ≡ true → number time ≡ t.0 → kind_of name ≡ Some kind →
            result ≡ said_in self.now (time ∷ name ∷ fields rest.now) }
        ensures fits { IfOk result (EntryFits self.now) }
        ensures refused { IfErr result IsOfLine }
    {
        let (value, more) = split_field(rest);
        let Some(event) = event(kind, t, value) else {
            return Err(Refusal::BadValue);
        };
        if more.is_some() {
            return Err(Refusal::Trailing);
        }
        if self.is_too_close(&event) {
            return Err(Refusal::TooClose);
        }
        Ok(Entry::Event(event))
    }

    /// Whether it is a serial byte too soon after the one before.
    fn is_too_close(&self, event: &Event) -> bool
        ensures { result ≡ too_close self.now (Some event.now) }
    {
        match (*event, self.serial) {
            (Event::Serial { t, byte: _ }, Some(before)) => t.0.saturating_sub(before.0)
                < SERIAL_GAP,
            _ => false,
        }
    }

    /// Remembers one more event.
    pub fn after(&self, event: &Event) -> Place
        requires { self.now.line < 16777216 }
        ensures { result ≡ after_event self.now event.now }
    {
        let line = self.line + 1;
        let (time, serial) = match *event {
            Event::Serial { t, byte: _ } => (t, Some(t)),
            Event::Edge { t, level: _ } | Event::Comp { t, level: _ } | Event::Stall { t, n: _ } =>
                (t, self.serial),
        };
        Place { line, time, serial }
    }
}
