//! What the wires show after the notes so far.
ghost use Rattle.std.specs.Prelude.{◌≡◌, []};
ghost use Rattle.esc_base.specs.Numbers.{bit_of};
ghost use Rattle.esc_base.specs.Range.{InRange};
ghost use Rattle.am32wave.specs.Picture.{drive, with_drive, control, with_control, signal, with_signal, handlers, with_handlers, with_open, is_open, depth, picture, with_note};

use esc_base::{Kind, Note};

/// What is so as 1, and what isn't as 0.
pub fn bit(is_so: bool) -> u32
    ensures { result ≡ bit_of is_so }
{
    if is_so { 1 } else { 0 }
}

/// The motor's side.
#[derive(Clone, Copy, Drop)]
pub struct Drive {
    /// The high switches that are on, bit 0 for leg A.
    pub high: u8,
    /// The low switches that are on.
    pub low: u8,
    /// The sector, 1 to 6; 0 before the first.
    pub sector: u8,
    /// How many zero crossings were accepted, as a number of 32 bits.
    pub crossings: u32,
    /// The newest electrical period that was read, in microseconds; 0 for none.
    pub period: u32,
}

impl Drive {
    fn new() -> Drive
        ensures { result ≡ drive [] }
    {
        Drive {
            high: 0,
            low: 0,
            sector: 0,
            crossings: 0,
            period: 0,
        }
    }

    fn after(self, note: &Note) -> Drive
        ensures { result ≡ with_drive self note.now }
    {
        match *note {
            Note::Gate { hi, lo, .. } => Drive {
                high: hi,
                low: lo,
                ..self
            },
            Note::Step { s, .. } => Drive { sector: s, ..self },
            Note::Cross { .. } => Drive {
                crossings: self.crossings.wrapping_add(1),
                ..self
            },
            Note::Period { p, .. } => Drive {
                period: p.unwrap_or(0),
                ..self
            },
            _ => self,
        }
    }
}

/// What control does.
#[derive(Clone, Copy, Drop)]
pub struct Control {
    pub armed: bool,
    /// The newest control tick's demand, 0 to 1900 ticks of a period of 2000.
    pub demand: u16,
    /// The newest control tick's marks: 1 stuck, 2 fuse, 4 session, added.
    pub marks: u8,
    /// 1 more than the newest loss's cause; 0 where control armed since, and before the first loss.
    pub cause: u8,
    /// The newest command that acts.
    pub command: u8,
    /// How many losses, acting commands and saves there were, as numbers of 32 bits.
    pub losses: u32,
    pub commands: u32,
    pub saves: u32,
}

impl Control {
    fn new() -> Control
        ensures { result ≡ control [] }
    {
        Control {
            armed: false,
            demand: 0,
            marks: 0,
            cause: 0,
            command: 0,
            losses: 0,
            commands: 0,
            saves: 0,
        }
    }

    fn after(self, note: &Note) -> Control
        requires { InRange note.now }
        ensures { result ≡ with_control self note.now }
    {
        match *note {
            Note::Control { s, d, .. } => Control {
                marks: s,
                demand: d,
                ..self
            },
            Note::Armed { .. } => Control {
                armed: true,
                cause: 0,
                ..self
            },
            Note::Lost { c, .. } => Control {
                armed: false,
                cause: c + 1,
                losses: self.losses.wrapping_add(1),
                ..self
            },
            Note::Command { c, .. } => Control {
                command: c,
                commands: self.commands.wrapping_add(1),
                ..self
            },
            Note::Saved { .. } => Control {
                saves: self.saves.wrapping_add(1),
                ..self
            },
            _ => self,
        }
    }
}

/// The newest window on the signal line.
#[derive(Clone, Copy, PartialEq, Eq, Drop)]
pub enum Heard {
    /// There was no window yet.
    Nowhere,
    /// It is open.
    Open,
    /// It was a good frame.
    Good,
    /// A mode was detected in it.
    Detected,
    /// Nothing was detected in it.
    Nothing,
    /// It was bad; the number is that of the `Why`.
    Bad(u8),
}

/// The signal line's side.
#[derive(Clone, Copy, Drop)]
pub struct Signal {
    pub heard: Heard,
    /// The mode of the newest window, or the one that was detected in it.
    pub mode: u8,
    /// The newest good frame's value.
    pub value: u16,
    /// Its telemetry bit.
    pub telemetry: u8,
    /// The newest reply's 21 bits, the first one highest.
    pub reply: u32,
    /// How many replies were loaded, as a number of 32 bits.
    pub replies: u32,
}

impl Signal {
    fn new() -> Signal
        ensures { result ≡ signal [] }
    {
        Signal {
            heard: Heard::Nowhere,
            mode: 0,
            value: 0,
            telemetry: 0,
            reply: 0,
            replies: 0,
        }
    }

    fn after(self, note: &Note) -> Signal
        ensures { result ≡ with_signal self note.now }
    {
        match *note {
            Note::Window { m, .. } => Signal {
                heard: Heard::Open,
                mode: m,
                ..self
            },
            Note::Good { v, q, .. } => Signal {
                heard: Heard::Good,
                value: v,
                telemetry: q,
                ..self
            },
            Note::Detected { m, .. } => Signal {
                heard: Heard::Detected,
                mode: m,
                ..self
            },
            Note::Nothing { .. } => Signal {
                heard: Heard::Nothing,
                ..self
            },
            Note::Bad { w, .. } => Signal {
                heard: Heard::Bad(w),
                ..self
            },
            Note::Reply { b, .. } => Signal {
                reply: b,
                replies: self.replies.wrapping_add(1),
                ..self
            },
            _ => self,
        }
    }
}

/// Which handlers are open.
#[derive(Clone, Copy, Drop)]
pub struct Handlers {
    pub main: bool,
    pub uart: bool,
    pub tick: bool,
    pub cap: bool,
    pub cmp: bool,
    pub pwm: bool,
    pub comm: bool,
}

impl Handlers {
    /// None is open.
    pub fn new() -> Handlers
        ensures { result ≡ handlers [] }
    {
        Handlers {
            main: false,
            uart: false,
            tick: false,
            cap: false,
            cmp: false,
            pwm: false,
            comm: false,
        }
    }

    /// Whether the handler of a kind is open.
    pub fn is_open(&self, kind: Kind) -> bool
        ensures { result ≡ is_open self.now kind }
    {
        match kind {
            Kind::Main => self.main,
            Kind::Uart => self.uart,
            Kind::Tick => self.tick,
            Kind::Cap => self.cap,
            Kind::Cmp => self.cmp,
            Kind::Pwm => self.pwm,
            Kind::Comm => self.comm,
        }
    }

    /// How many are open, 0 to 7.
    pub fn count(&self) -> u32
        ensures { result ≡ depth self.now }
    {
        bit(self.main)
            + bit(self.uart)
            + bit(self.tick)
            + bit(self.cap)
            + bit(self.cmp)
            + bit(self.pwm)
            + bit(self.comm)
    }

    /// With a note more.
    pub fn after(self, note: &Note) -> Handlers
        ensures { result ≡ with_handlers self note.now }
    {
        match *note {
            Note::Enter { k, .. } => self.with(k, true),
            Note::Leave { k, .. } => self.with(k, false),
            _ => self,
        }
    }

    /// With the handler of the kind with this number open, or not.
    fn with(self, k: u8, is_open: bool) -> Handlers
        ensures { result ≡ with_open self k is_open }
    {
        Handlers {
            main: if k == 0 { is_open } else { self.main },
            uart: if k == 1 { is_open } else { self.uart },
            tick: if k == 2 { is_open } else { self.tick },
            cap: if k == 3 { is_open } else { self.cap },
            cmp: if k == 4 { is_open } else { self.cmp },
            pwm: if k == 5 { is_open } else { self.pwm },
            comm: if k == 6 { is_open } else { self.comm },
        }
    }
}

/// What the notes so far say.
#[derive(Clone, Copy, Drop)]
pub struct Picture {
    pub drive: Drive,
    pub control: Control,
    pub signal: Signal,
    pub handlers: Handlers,
}

impl Picture {
    /// What stands before the first note.
    pub fn new() -> Picture
        ensures { result ≡ picture [] }
    {
        Picture {
            drive: Drive::new(),
            control: Control::new(),
            signal: Signal::new(),
            handlers: Handlers::new(),
        }
    }

    /// With a note more.
    pub fn after(&self, note: &Note) -> Picture
        requires { InRange note.now }
        ensures { result ≡ with_note self.now note.now }
    {
        Picture {
            drive: self.drive.after(note),
            control: self.control.after(note),
            signal: self.signal.after(note),
            handlers: self.handlers.after(note),
        }
    }
}
