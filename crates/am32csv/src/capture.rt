//! A capture, row by row.
ghost use Rattle.std.specs.Prelude.{◌≡◌, false, [], ℕ, List, Option, Some, None, IfOk, OnOk};
ghost use Rattle.esc_base.specs.declared.event.Event.{Event as AnEvent};
ghost use Rattle.trace_tools.specs.Written.{HasWritten, IsTrace};
ghost use Rattle.am32csv.specs.Captured.{Keeps, GoesOn, Ends};
ghost use Rattle.am32csv.specs.Rows.{IsTickOf, WritesRow, with_level, zeroth};

use crate::expected::Expected;
use crate::layout::Layout;
use crate::replies::Replies;
use esc_base::{Event, Sink, Tick};
use trace_tools::{LAST_TICK, Unwritten, Writer};

/// For so many ticks the trace goes on behind the last row, so that the last window closes: a millisecond.
const REST: u64 = 48000;

/// Why a row isn't taken.
#[derive(Clone, Copy, Debug, PartialEq, Eq, Drop)]
pub enum Fault {
    /// The row should have had something else.
    Expected(Expected),
    /// The sink failed.
    Sink,
}

/// How far a capture was read.
#[derive(Debug, Drop)]
pub struct Capture {
    layout: Layout,
    writer: Writer,
    replies: Replies,
    /// The time of the first row.
    first: Option<i64>,
    /// The tick of the newest row.
    newest: u64,
    /// The level of the newest row.
    level: bool,
    /// The level of the trace.
    written: bool,
}

fn fault_of(why: Unwritten) -> Fault {
    match why {
        Unwritten::Sink => Fault::Sink,
        Unwritten::TimeBack | Unwritten::TooClose | Unwritten::BadStall => Fault::Expected(
            Expected::LaterTime,
        ),
        Unwritten::TooLate => Fault::Expected(Expected::EarlierTime),
        Unwritten::TooMany => Fault::Expected(Expected::FewerEdges),
    }
}

impl Capture {
    /// No row was read.
    pub fn new(layout: Layout) -> Capture
        ensures keeps { (given : Option (List ℕ)) → Keeps result given given }
        ensures begins { (given : Option (List ℕ)) → HasWritten result.writer given given [] }
        ensures low { result.written ≡ false }
        ensures no_row { result.first ≡ None }
        ensures layout { result.layout ≡ layout }
    {
        Capture {
            layout,
            writer: Writer::new(),
            replies: Replies::new(),
            first: None,
            newest: 0,
            level: false,
            written: false,
        }
    }

    /// Whether a row was taken.
    pub fn has_rows(&self) -> bool {
        self.first.is_some()
    }

    /// The tick of a time, where the first row's is 0.
    fn tick(&self, stamp: i64) -> Result<u64, Fault>
        ensures { IfOk result (λ t. IsTickOf self.now.layout.clock (zeroth self.now stamp) stamp t) }
    {
        let first = self.first.unwrap_or(stamp);
        let Some(parts) = stamp.checked_sub(first) else {
            return Err(Fault::Expected(Expected::EarlierTime));
        };
        let Ok(parts) = u64::try_from(parts) else {
            return Err(Fault::Expected(Expected::LaterTime));
        };
        match self.layout.clock.tick(parts) {
            Some(t) if t < self.newest => Err(Fault::Expected(Expected::LaterTime)),
            Some(t) => Ok(t),
            None => Err(Fault::Expected(Expected::EarlierTime)),
        }
    }

    /// Keeps a row's time and level, and answers whether it is an edge of a reply. The first row's level is how the line rests,
    /// and no edge of a burst.
    fn is_of_reply(&mut self, stamp: i64, t: u64, level: bool) -> bool
        ensures writer { self.new.writer ≡ self.old.writer }
        ensures written { self.new.written ≡ self.old.written }
        ensures first { self.new.first ≡ Some (zeroth self.old stamp) }
        ensures layout { self.new.layout ≡ self.old.layout }
    {
        let is_first = self.first.is_none();
        if is_first {
            self.first = Some(stamp);
        }
        self.newest = t;
        let changes = self.level != level;
        self.level = level;
        changes && !is_first && self.replies.has(t)
    }

    /// Takes a row's time and level.
    pub fn row<K: Sink>(&mut self, stamp: i64, level: bool, out: &mut K) -> Result<(), Fault>
        ensures goes_on { OnOk result (GoesOn self.old (K.given out.old) self.new (K.given out.new)) }
        ensures level { self.old.layout.drops_replies ≡ false → OnOk result (self.new.written ≡ level) }
        ensures writes { self.old.layout.drops_replies ≡ false → OnOk result (WritesRow self.old (K.given out.old) stamp level self.new (K.given out.new)) }
        ensures first { OnOk result (self.new.first ≡ Some (zeroth self.old stamp)) }
        ensures layout { self.new.layout ≡ self.old.layout }
    {
        let t = self.tick(stamp)?;
        if t > LAST_TICK {
            return Err(Fault::Expected(Expected::EarlierTime));
        }
        if self.is_of_reply(stamp, t, level) && self.layout.drops_replies {
            return Ok(());
        }
        self.write(Tick(t), level, out)
    }

    /// Writes a level, where the trace doesn't have it already.
    fn write<K: Sink>(&mut self, t: Tick, level: bool, out: &mut K) -> Result<(), Fault>
        ensures goes_on { OnOk result (GoesOn self.old (K.given out.old) self.new (K.given out.new)) }
        ensures level { OnOk result (self.new.written ≡ level) }
        ensures writes { OnOk result ((first : Option (List ℕ)) (events : List AnEvent) → HasWritten self.old.writer first (K.given out.old) events →
            HasWritten self.new.writer first (K.given out.new) (with_level events self.old.written t level)) }
        ensures first { self.new.first ≡ self.old.first }
        ensures layout { self.new.layout ≡ self.old.layout }
    {
        if level == self.written {
            return Ok(());
        }
        match self.writer.put(&Event::Edge { t, level }, out) {
            Ok(()) => {
                self.written = level;
                Ok(())
            }
            Err(why) => Err(fault_of(why)),
        }
    }

    /// Ends the trace, a millisecond behind the last row.
    pub fn end<K: Sink>(&self, out: &mut K) -> Result<(), Fault>
        ensures ends { OnOk result (Ends self.now (K.given out.old) (K.given out.new)) }
        ensures whole { OnOk result ((first : Option (List ℕ)) (events : List AnEvent) → HasWritten self.now.writer first (K.given out.old) events →
            (end : ℕ) × IsTrace first (K.given out.new) events end) }
    {
        let end = self.newest.saturating_add(REST).min(LAST_TICK);
        match self.writer.end(Tick(end), out) {
            Ok(()) => Ok(()),
            Err(why) => Err(fault_of(why)),
        }
    }
}
