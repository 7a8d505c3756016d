//! What the sender does to the signal line.
ghost use Rattle.std.specs.Prelude.{◌≡◌, ◌≤◌, ◌<◌, ◌+◌, ◌*◌, ◌∷◌, [], ℕ, true, drop, slice_get, None, Some, All};
ghost use Rattle.edge_capture.specs.Modes.{numbers};
ghost use Rattle.am32trace.specs.Asked.{beat_from, fresh, says, with_repeated, with_spoil, due_of, delayed, IsRate};
ghost use Rattle.am32trace.specs.Line.{left_of, pending, next_edge, next_message, sender_of, sender_after, stepped, due_now, first_due};
ghost use Rattle.am32trace.specs.Line.{Adds, Begins, IsOn, IsMessage, IsShort, IsWell};
ghost use Rattle.am32trace.specs.Frames.{rest_of, first_edge, IsBefore};

use crate::frame_out::{FrameOut, Payload, Spoil};
use crate::noise::Noise;
use edge_capture::mode_numbers;
use esc_base::{Edge, Mode, Tick};

/// What is sent again and again.
#[derive(Clone, Copy, Debug, PartialEq, Eq, Drop)]
pub enum Message {
    Frame(Payload),
    /// A servo pulse of so many ticks.
    Pulse(u64),
}

/// What is on the line, and isn't over.
#[derive(Clone, Copy, Debug, PartialEq, Eq, Drop)]
pub enum Sending {
    Nothing,
    Frame(FrameOut),
    /// A pulse that has risen, and falls at this tick.
    Pulse(Tick),
    Noise(Noise),
}

/// A message, and when it is sent next.
#[derive(Clone, Copy, Debug, PartialEq, Eq, Drop)]
pub struct Repeated {
    pub message: Message,
    pub next: Tick,
}

/// A sender and its line.
#[derive(Clone, Copy, Debug, PartialEq, Eq, Drop)]
pub struct SignalLine {
    /// A DShot mode, the servo mode, or the unknown one, where there is no signal.
    pub mode: Mode,
    /// From one message's begin to the next one's, in ticks.
    pub period: u64,
    pub repeated: Option<Repeated>,
    /// What is wrong with the next frame.
    pub spoil: Option<Spoil>,
    pub sending: Sending,
}

impl SignalLine {
    /// A line on which nothing is sent yet.
    pub fn new(mode: Mode, period: u64) -> SignalLine
        requires { IsRate mode period }
        ensures pending { pending result ≡ [] }
        ensures sender { sender_of result ≡ fresh mode period }
        ensures well { IsWell result }
    {
        SignalLine {
            mode,
            period,
            repeated: None,
            spoil: None,
            sending: Sending::Nothing,
        }
    }

    /// The level at which the line rests.
    pub fn rest(&self) -> bool
        ensures { result ≡ (numbers self.now.mode).inverted }
    {
        mode_numbers(self.mode).inverted
    }

    /// Whether frames are sent on it.
    pub fn has_frames(&self) -> bool {
        mode_numbers(self.mode).bit > 0
    }

    /// Whether something is sent again and again.
    pub fn repeats(&self) -> bool {
        self.repeated.is_some()
    }

    /// Whether nothing is on the line.
    pub fn is_quiet(&self) -> bool
        ensures { result ≡ true → self.now.sending ≡ Sending.Nothing }
    {
        match self.sending {
            Sending::Nothing => true,
            Sending::Frame(_) | Sending::Pulse(_) | Sending::Noise(_) => false,
        }
    }

    /// Whether nothing is on the line, nor will be.
    pub fn is_free(&self) -> bool
        ensures quiet { result ≡ true → self.now.sending ≡ Sending.Nothing }
        ensures alone { result ≡ true → self.now.repeated ≡ None }
    {
        match self.repeated {
            Some(_) => false,
            None => self.is_quiet(),
        }
    }

    /// Whether a message may be repeated from here on.
    pub fn may_repeat(&self) -> bool
        ensures { result ≡ true → self.now.repeated ≡ None → self.now.sending ≡ Sending.Nothing }
    {
        match self.repeated {
            Some(_) => true,
            None => self.is_quiet(),
        }
    }

    /// From `t` on this message is sent. If one is sent already, the new one follows at the same beat.
    pub fn repeat(&mut self, t: Tick, message: Message)
        requires early { t.0 ≤ 1073741824 }
        requires short { IsShort self.old.period message }
        requires free { self.old.repeated ≡ None → self.old.sending ≡ Sending.Nothing }
        requires well { IsWell self.old }
        ensures pending { pending self.new ≡ pending self.old }
        ensures sender { sender_of self.new ≡ says (sender_of self.old) t.0 message }
        ensures well { IsWell self.new }
    {
        let next = match self.repeated {
            Some(before) => before.next,
            None => t,
        };
        self.repeated = Some(Repeated { message, next });
    }

    /// No message begins any more.
    pub fn stop(&mut self)
        requires well { IsWell self.old }
        ensures pending { pending self.new ≡ pending self.old }
        ensures sender { sender_of self.new ≡ with_repeated (sender_of self.old) None }
        ensures well { IsWell self.new }
    {
        self.repeated = None;
    }

    /// Something is wrong with the next frame.
    pub fn spoil_next(&mut self, spoil: Spoil)
        requires well { IsWell self.old }
        ensures pending { pending self.new ≡ pending self.old }
        ensures sender { sender_of self.new ≡ with_spoil (sender_of self.old) (Some spoil) }
        ensures well { IsWell self.new }
    {
        self.spoil = Some(spoil);
    }

    /// Puts one frame on the line.
    pub fn send_frame(&mut self, t: Tick, payload: Payload, spoil: Option<Spoil>)
        requires early { t.0 ≤ 1073741824 }
        requires quiet { self.old.sending ≡ Sending.Nothing }
        requires alone { self.old.repeated ≡ None }
        requires well { IsWell self.old }
        ensures begins { Begins (pending self.old) (pending self.new) (due_of self.old.mode (Message.Frame payload) spoil t.0 ∷ []) }
        ensures sender { sender_of self.new ≡ sender_of self.old }
        ensures well { IsWell self.new }
    {
        self.sending = Sending::Frame(frame_at(self.mode, t, payload, spoil));
    }

    /// Puts noise on the line.
    pub fn make_noise(&mut self, t: Tick, ticks: u64)
        requires early { t.0 ≤ 1073741824 }
        requires short { ticks ≤ 4294967296 }
        requires quiet { self.old.sending ≡ Sending.Nothing }
        requires well { IsWell self.old }
        ensures pending { pending self.new ≡ pending self.old }
        ensures sender { sender_of self.new ≡ with_repeated (sender_of self.old) (delayed self.old.period (t.0 + ticks) self.old.repeated) }
        ensures well { IsWell self.new }
    {
        self.sending = Sending::Noise(Noise::new(t, ticks, self.rest()));
    }

    /// The next edge, if there is one.
    pub fn next(&self) -> Option<Edge>
        ensures { result ≡ next_edge self.now }
    {
        match self.sending {
            Sending::Nothing => match self.repeated {
                Some(repeated) => Some(Edge {
                    t: repeated.next,
                    level: !self.rest(),
                }),
                None => None,
            },
            Sending::Frame(frame) => frame.next(),
            Sending::Pulse(t) => Some(Edge { t, level: false }),
            Sending::Noise(noise) => Some(noise.next),
        }
    }

    /// Goes on once the next edge was sent.
    pub fn advance(&mut self, edge: Edge)
        requires next { next_edge self.old ≡ Some edge }
        requires early { edge.t.0 ≤ 1073741824 }
        requires well { IsWell self.old }
        ensures adds { Adds edge (pending self.old) (pending self.new) (due_now self.old) }
        ensures sender { sender_of self.new ≡ sender_after self.old }
        ensures well { IsWell self.new }
    {
        match self.sending {
            Sending::Nothing => self.begin(edge),
            Sending::Frame(frame) => self.sending = after_edge(frame),
            Sending::Pulse(_) => self.sending = Sending::Nothing,
            Sending::Noise(noise) => self.after_noise(noise),
        }
    }

    /// Goes on once the first edge of the next message was sent.
    fn begin(&mut self, edge: Edge)
        requires quiet { self.old.sending ≡ Sending.Nothing }
        requires next { next_message self.old.mode self.old.repeated ≡ Some edge }
        requires early { edge.t.0 ≤ 1073741824 }
        requires well { IsWell self.old }
        ensures adds { Adds edge [] (pending self.new) (first_due self.old.mode self.old.spoil self.old.repeated) }
        ensures sender { sender_of self.new ≡ stepped (sender_of self.old) }
        ensures well { IsWell self.new }
    {
        let Some(repeated) = self.repeated else {
            return;
        };
        let spoil = self.spoil;
        self.spoil = None;
        self.repeated = Some(Repeated {
            message: repeated.message,
            next: Tick(repeated.next.0.saturating_add(self.period)),
        });
        self.sending = first_sent(self.mode, repeated.next, repeated.message, spoil);
    }

    /// Goes on once the next edge of noise was sent.
    fn after_noise(&mut self, noise: Noise)
        requires noise { self.old.sending ≡ Sending.Noise noise }
        requires well { IsWell self.old }
        ensures pending { pending self.new ≡ [] }
        ensures sender { sender_of self.new ≡ sender_of self.old }
        ensures well { IsWell self.new }
    {
        match noise.after() {
            Some(noise) => self.sending = Sending::Noise(noise),
            None => self.end_noise(noise.until),
        }
    }

    /// Nothing is on the line any more, and the messages that would have begun before `t` are left out.
    fn end_noise(&mut self, t: Tick)
        requires early { t.0 ≤ 8589934592 }
        requires noise { pending self.old ≡ [] }
        requires well { IsWell self.old }
        ensures pending { pending self.new ≡ [] }
        ensures sender { sender_of self.new ≡ with_repeated (sender_of self.old) (delayed self.old.period t.0 self.old.repeated) }
        ensures well { IsWell self.new }
    {
        if let Some(repeated) = self.repeated {
            self.repeated = Some(Repeated {
                message: repeated.message,
                next: beat_from(self.period, repeated.next, t),
            });
        }
        self.sending = Sending::Nothing;
    }
}

/// The first time of a beat that isn't before `t`.
fn beat_from(period: u64, first: Tick, t: Tick) -> Tick
    requires positive { 0 < period }
    requires most { period ≤ 4294967296 }
    requires first { first.0 ≤ 17179869184 }
    requires early { t.0 ≤ 8589934592 }
    ensures { result.0 ≡ beat_from period first.0 t.0 }
{
    let left_out = t.0.saturating_sub(first.0).div_ceil(period);
    Tick(first.0.saturating_add(left_out.saturating_mul(period)))
}

/// What is on the line behind the first edge of a message.
fn first_sent(mode: Mode, t: Tick, message: Message, spoil: Option<Spoil>) -> Sending
    requires early { t.0 ≤ 1073741824 }
    requires short { IsShort 4294967296 message }
    ensures adds { Adds (first_edge mode t) [] (left_of result) (due_of mode message spoil t.0 ∷ []) }
    ensures within { (period : ℕ) → 16 * (numbers mode).bit ≤ period → IsShort period message → All (IsBefore (t.0 + period)) (left_of result) }
    ensures on { IsOn result }
    ensures message { IsMessage result }
{
    match message {
        Message::Frame(payload) => after_edge(frame_at(mode, t, payload, spoil)),
        Message::Pulse(width) => Sending::Pulse(Tick(t.0.saturating_add(width))),
    }
}

/// A frame that begins at `start`, as it should be or not.
fn frame_at(mode: Mode, start: Tick, payload: Payload, spoil: Option<Spoil>) -> FrameOut
    requires { start.0 ≤ 1073741824 }
    ensures begins { slice_get (rest_of result) 0 ≡ Some (first_edge mode start) }
    ensures sent { Begins [] (rest_of result) (due_of mode (Message.Frame payload) spoil start.0 ∷ []) }
    ensures within { All (IsBefore (start.0 + 16 * (numbers mode).bit)) (rest_of result) }
{
    match spoil {
        Some(spoil) => FrameOut::spoiled(mode, start, payload, spoil),
        None => FrameOut::whole(mode, start, payload),
    }
}

/// A frame once its next edge was sent.
fn after_edge(frame: FrameOut) -> Sending
    ensures left { left_of result ≡ drop 1 (rest_of frame) }
    ensures on { IsOn result }
    ensures message { IsMessage result }
{
    let frame = frame.after();
    match frame.next() {
        Some(_) => Sending::Frame(frame),
        None => Sending::Nothing,
    }
}
