//! A flight: the sender, the comparator and the serial line, whose events are written in the order of their times.
ghost use Rattle.std.specs.Prelude.{◌≡◌, ◌≤◌, ◌<◌, ◌+◌, ◌⊎◌, ◌∷◌, [], ℕ, true, List, Option, OnOk, IfSome, IfNone};
ghost use Rattle.esc_base.specs.Trace.{tick_of};
ghost use Rattle.am32trace.specs.Asked.{LevelAt, at_rest, no_signal, fresh, says, due_of, due_before, moved_on, due_by, sender_by};
ghost use Rattle.am32trace.specs.Asked.{told, at_once, IsRate, IsSoundAction};
ghost use Rattle.am32trace.specs.Line.{next_edge, sender_of, IsShort, IsWell};
ghost use Rattle.am32trace.specs.Flown.{edges_in, event_of, due_with, sender_with, IsPlanned, NoneBefore, NotLater, IsReached};
ghost use Rattle.am32trace.specs.Flown.{Writes, Keeps, GoesOn, Ends, Sets};

use crate::action::Action;
use crate::comparator::Comparator;
use crate::expected::Expected;
use crate::frame_out::{Payload, Spoil};
use crate::serial_line::SerialLine;
use crate::signal_line::{Message, SignalLine};
use arrayvec::ArrayVec;
use esc_base::{Edge, Event, Mode, Sink, Tick};
use trace_tools::{LAST_TICK, Unwritten, Writer};

/// Why a line can't be followed.
#[derive(Clone, Copy, Debug, PartialEq, Eq, Drop)]
pub enum Fault {
    /// The line should have had something else.
    Expected(Expected),
    /// The sink failed.
    Sink,
}

/// An event that is planned, by where it comes from.
#[derive(Clone, Copy, Debug, PartialEq, Eq, Drop)]
pub enum Planned {
    Signal(Edge),
    Comparator { t: Tick, level: bool },
    Serial { t: Tick, byte: u8 },
}

/// What goes on at once, and the writer of its events.
#[derive(Debug, Drop)]
pub struct Flight {
    signal: SignalLine,
    comparator: Comparator,
    serial: SerialLine,
    writer: Writer,
    /// The time of the newest line of the script.
    reached: Tick,
    /// Whether a line with a time was there.
    has_begun: bool,
}

fn fault_of(why: Unwritten) -> Fault {
    match why {
        Unwritten::Sink => Fault::Sink,
        Unwritten::TimeBack => Fault::Expected(Expected::LaterTime),
        Unwritten::TooLate => Fault::Expected(Expected::EarlierTime),
        Unwritten::TooClose => Fault::Expected(Expected::QuietSerial),
        Unwritten::BadStall => Fault::Expected(Expected::Stall),
        Unwritten::TooMany => Fault::Expected(Expected::FewerEvents),
    }
}

impl Planned {
    fn event(self) -> Event
        ensures { result ≡ event_of self }
    {
        match self {
            Planned::Signal(Edge { t, level }) => Event::Edge { t, level },
            Planned::Comparator { t, level } => Event::Comp { t, level },
            Planned::Serial { t, byte } => Event::Serial { t, byte },
        }
    }

    fn t(self) -> Tick
        ensures { result.0 ≡ tick_of (event_of self) }
    {
        match self {
            Planned::Signal(edge) => edge.t,
            Planned::Comparator { t, level: _ } => t,
            Planned::Serial { t, byte: _ } => t,
        }
    }
}

/// The one that comes first; the first argument where both come at once.
fn earlier(first: Option<Planned>, second: Option<Planned>) -> Option<Planned>
    ensures one { (result ≡ first) ⊎ (result ≡ second) }
    ensures first { NotLater result first }
    ensures second { NotLater result second }
{
    match (first, second) {
        (Some(a), Some(b)) => { if b.t() < a.t() { second } else { first } }
        (None, _) => second,
        (Some(_), None) => first,
    }
}

impl Flight {
    /// A flight without a signal.
    pub fn new() -> Flight
        ensures keeps { (given : Option (List ℕ)) → Keeps result given given [] }
        ensures well { IsWell result.signal }
        ensures sender { sender_of result.signal ≡ no_signal }
    {
        Flight {
            signal: SignalLine::new(Mode::Unknown, 1),
            comparator: Comparator::new(),
            serial: SerialLine::new(),
            writer: Writer::new(),
            reached: Tick(0),
            has_begun: false,
        }
    }

    /// Sets the signal, whose line goes to its resting level.
    pub fn set_signal<K: Sink>(&mut self, mode: Mode, period: u64, out: &mut K) -> Result<(), Fault>
        requires { IsRate mode period }
        ensures { OnOk result (GoesOn self.old (K.given out.old) self.new (K.given out.new) (at_rest mode) (fresh mode period)) }
    {
        if self.has_begun || self.signal.mode != Mode::Unknown || !self.signal.is_quiet() {
            return Err(Fault::Expected(Expected::SignalAbove));
        }
        self.signal = SignalLine::new(mode, period);
        if self.signal.rest() {
            return self.put_level(Tick(0), true, out);
        }
        Ok(())
    }

    fn put<K: Sink>(&mut self, event: Event, out: &mut K) -> Result<(), Fault>
        ensures ok { OnOk result (Writes self.old.writer (K.given out.old) event self.new.writer (K.given out.new)) }
        ensures line { OnOk result (self.new.writer.place.line ≡ self.old.writer.place.line + 1) }
        ensures same { self.new.signal ≡ self.old.signal }
    {
        match self.writer.put(&event, out) {
            Ok(()) => Ok(()),
            Err(why) => Err(fault_of(why)),
        }
    }

    /// Writes a level of the signal line, on which nothing is.
    fn put_level<K: Sink>(&mut self, t: Tick, level: bool, out: &mut K) -> Result<(), Fault>
        requires { IsWell self.old.signal }
        ensures { OnOk result (GoesOn self.old (K.given out.old) self.new (K.given out.new) (LevelAt t.0 level ∷ []) (sender_of self.old.signal)) }
    {
        if !self.signal.is_quiet() {
            return Err(Fault::Expected(Expected::QuietLine));
        }
        self.put(Event::Edge { t, level }, out)?;
        Ok(())
    }

    /// Writes an event that isn't the signal line's.
    fn put_other<K: Sink>(&mut self, event: Event, out: &mut K) -> Result<(), Fault>
        requires other { edges_in (event ∷ []) ≡ [] }
        requires well { IsWell self.old.signal }
        ensures { OnOk result (GoesOn self.old (K.given out.old) self.new (K.given out.new) [] (sender_of self.old.signal)) }
    {
        self.put(event, out)?;
        Ok(())
    }

    /// The next event that is planned.
    fn next(&self) -> Option<Planned>
        ensures planned { IfSome result (IsPlanned self.now.signal) }
        ensures first { NoneBefore result (next_edge self.now.signal) }
    {
        let edge = self.signal.next().map(|edge| Planned::Signal(edge));
        let change = self
            .comparator
            .next()
            .map(|(t, level)| Planned::Comparator { t, level });
        let byte = self
            .serial
            .next()
            .map(|(t, byte)| Planned::Serial { t, byte });
        earlier(earlier(edge, change), byte)
    }

    /// The next event that is planned, if it comes before `t`.
    fn next_before(&self, t: Tick) -> Option<Planned>
        ensures planned { IfSome result (IsPlanned self.now.signal) }
        ensures early { IfSome result (λ p. tick_of (event_of p) < t.0) }
        ensures reached { IfNone result (IsReached t.0 (next_edge self.now.signal)) }
    {
        let Some(planned) = self.next() else {
            return None;
        };
        if planned.t() < t { Some(planned) } else { None }
    }

    /// Writes the next event, which is planned.
    fn step<K: Sink>(&mut self, planned: Planned, out: &mut K) -> Result<(), Fault>
        requires planned { IsPlanned self.old.signal planned }
        requires early { tick_of (event_of planned) ≤ 1073741824 }
        requires well { IsWell self.old.signal }
        ensures ok { OnOk result (GoesOn self.old (K.given out.old) self.new (K.given out.new)
            (due_with self.old.signal planned) (sender_with self.old.signal planned)) }
        ensures line { OnOk result (self.new.writer.place.line ≡ self.old.writer.place.line + 1) }
    {
        self.put(planned.event(), out)?;
        match planned {
            Planned::Signal(edge) => self.signal.advance(edge),
            Planned::Comparator { t: _, level: _ } => self.comparator.advance(),
            Planned::Serial { t: _, byte: _ } => self.serial.advance(),
        }
        Ok(())
    }

    /// Writes the events before `t`.
    fn run_until<K: Sink>(&mut self, t: Tick, out: &mut K) -> Result<(), Fault>
        requires early { t.0 ≤ 1073741824 }
        requires well { IsWell self.old.signal }
        ensures goes_on { OnOk result (GoesOn self.old (K.given out.old) self.new (K.given out.new)
            (due_before (sender_of self.old.signal) t.0) (moved_on (sender_of self.old.signal) t.0)) }
        ensures reached { OnOk result (IsReached t.0 (next_edge self.new.signal)) }
    {
        while let Some(planned) = self.next_before(t) {
            self.step(planned, out)?;
        }
        Ok(())
    }

    /// Writes all up to the time of a line.
    fn reach<K: Sink>(&mut self, t: Tick, out: &mut K) -> Result<(), Fault>
        requires { IsWell self.old.signal }
        ensures goes_on { OnOk result (GoesOn self.old (K.given out.old) self.new (K.given out.new)
            (due_before (sender_of self.old.signal) t.0) (moved_on (sender_of self.old.signal) t.0)) }
        ensures early { OnOk result (t.0 ≤ 1073741824) }
        ensures reached { OnOk result (IsReached t.0 (next_edge self.new.signal)) }
    {
        if t < self.reached {
            return Err(Fault::Expected(Expected::LaterTime));
        }
        if t.0 > LAST_TICK {
            return Err(Fault::Expected(Expected::EarlierTime));
        }
        self.has_begun = true;
        self.reached = t;
        self.run_until(t, out)
    }

    /// Writes all up to a line's time, and then does what the line says.
    pub fn act<K: Sink>(&mut self, t: Tick, action: Action, out: &mut K) -> Result<(), Fault>
        requires sound { IsSoundAction action }
        requires well { IsWell self.old.signal }
        ensures { OnOk result (GoesOn self.old (K.given out.old) self.new (K.given out.new)
            (due_by (sender_of self.old.signal) t.0 action) (sender_by (sender_of self.old.signal) t.0 action)) }
    {
        self.reach(t, out)?;
        match action {
            Action::Line(level) => self.put_level(t, level, out),
            Action::Hold(level) => {
                self.comparator.hold(level);
                self.put_other(Event::Comp { t, level }, out)
            }
            Action::Stall(n) => self.put_other(Event::Stall { t, n }, out),
            action => match self.set(t, action) {
                Ok(()) => Ok(()),
                Err(expected) => Err(Fault::Expected(expected)),
            },
        }
    }

    /// Writes all up to a time, and ends the trace.
    pub fn end<K: Sink>(&mut self, t: Tick, out: &mut K) -> Result<(), Fault>
        requires { IsWell self.old.signal }
        ensures { OnOk result (Ends self.old (K.given out.old) (K.given out.new) (due_before (sender_of self.old.signal) t.0) t.0) }
    {
        self.reach(t, out)?;
        match self.writer.end(t, out) {
            Ok(()) => Ok(()),
            Err(why) => Err(fault_of(why)),
        }
    }

    /// What goes on from `t` on.
    fn set(&mut self, t: Tick, action: Action) -> Result<(), Expected>
        requires early { t.0 ≤ 1073741824 }
        requires sound { IsSoundAction action }
        requires well { IsWell self.old.signal }
        ensures { OnOk result (Sets self.old self.new (at_once self.old.signal.mode t.0 action) (told (sender_of self.old.signal) t.0 action)) }
    {
        match action {
            Action::Change(beat) => {
                self.comparator.change(t, beat);
                Ok(())
            }
            Action::Serial(bytes) => self.send_bytes(t, bytes),
            Action::Pulse(width) => self.repeat_pulse(t, width),
            Action::Off => {
                self.signal.stop();
                Ok(())
            }
            Action::Noise(ticks) => self.make_noise(t, ticks),
            action => self.set_frames(t, action),
        }
    }

    /// Sends bytes on the serial line from `t` on.
    fn send_bytes(&mut self, t: Tick, bytes: ArrayVec<u8, 263>) -> Result<(), Expected>
        requires { IsWell self.old.signal }
        ensures { OnOk result (Sets self.old self.new [] (sender_of self.old.signal)) }
    {
        if self.serial.next().is_some() {
            return Err(Expected::QuietSerial);
        }
        self.serial.send(t, bytes);
        Ok(())
    }

    /// Puts noise on the signal line.
    fn make_noise(&mut self, t: Tick, ticks: u64) -> Result<(), Expected>
        requires early { t.0 ≤ 1073741824 }
        requires short { ticks ≤ 4294967296 }
        requires well { IsWell self.old.signal }
        ensures { OnOk result (Sets self.old self.new [] (told (sender_of self.old.signal) t.0 (Action.Noise ticks))) }
    {
        if !self.signal.is_quiet() {
            return Err(Expected::QuietLine);
        }
        self.signal.make_noise(t, ticks);
        Ok(())
    }

    /// Sends a message again and again from `t` on.
    fn repeat(&mut self, t: Tick, message: Message) -> Result<(), Expected>
        requires early { t.0 ≤ 1073741824 }
        requires short { IsShort self.old.signal.period message }
        requires well { IsWell self.old.signal }
        ensures { OnOk result (Sets self.old self.new [] (says (sender_of self.old.signal) t.0 message)) }
    {
        if !self.signal.may_repeat() {
            return Err(Expected::QuietLine);
        }
        self.signal.repeat(t, message);
        Ok(())
    }

    /// Sends servo pulses from `t` on.
    fn repeat_pulse(&mut self, t: Tick, width: u64) -> Result<(), Expected>
        requires early { t.0 ≤ 1073741824 }
        requires short { width ≤ 115200 }
        requires well { IsWell self.old.signal }
        ensures { OnOk result (Sets self.old self.new [] (says (sender_of self.old.signal) t.0 (Message.Pulse width))) }
    {
        match self.signal.mode {
            Mode::Servo => self.repeat(t, Message::Pulse(width)),
            _ => Err(Expected::Pulses),
        }
    }

    /// What frames are sent from `t` on.
    fn set_frames(&mut self, t: Tick, action: Action) -> Result<(), Expected>
        requires early { t.0 ≤ 1073741824 }
        requires well { IsWell self.old.signal }
        ensures { OnOk result (Sets self.old self.new (at_once self.old.signal.mode t.0 action) (told (sender_of self.old.signal) t.0 action)) }
    {
        if !self.signal.has_frames() {
            return Err(Expected::Frames);
        }
        match action {
            Action::Send(payload) => self.repeat(t, Message::Frame(payload)),
            Action::Frame { payload, spoil } => self.send_frame(t, payload, spoil),
            Action::Spoil(spoil) => self.spoil_next(spoil),
            _ => Err(Expected::Action),
        }
    }

    /// Sends one frame at `t`.
    fn send_frame(
        &mut self,
        t: Tick,
        payload: Payload,
        spoil: Option<Spoil>,
    ) -> Result<(), Expected>
        requires early { t.0 ≤ 1073741824 }
        requires well { IsWell self.old.signal }
        ensures { OnOk result (Sets self.old self.new (due_of self.old.signal.mode (Message.Frame payload) spoil t.0 ∷ []) (sender_of self.old.signal)) }
    {
        if !self.signal.is_free() {
            return Err(Expected::FreeLine);
        }
        self.signal.send_frame(t, payload, spoil);
        Ok(())
    }

    /// Something is wrong with the next of the repeated frames.
    fn spoil_next(&mut self, spoil: Spoil) -> Result<(), Expected>
        requires { IsWell self.old.signal }
        ensures { OnOk result (Sets self.old self.new [] (told (sender_of self.old.signal) 0 (Action.Spoil spoil))) }
    {
        if !self.signal.repeats() {
            return Err(Expected::Sender);
        }
        self.signal.spoil_next(spoil);
        Ok(())
    }
}
