//! The wires of a wave: their names, widths and values.
ghost use Rattle.std.specs.Prelude.{◌≡◌, ◌≤◌, length};
ghost use Rattle.esc_base.specs.Legs.{is_on};
ghost use Rattle.am32wave.specs.Wires.{handler_name, name, width, reason, value, wires_of};

use crate::picture::{Heard, bit};
use crate::scene::Scene;
use esc_base::{Kind, Leg};

/// A wire of the wave, of one bit or more.
#[derive(Clone, Copy, Drop)]
pub enum Wire {
    /// The switch to the supply of a leg is on.
    High(Leg),
    /// The switch to ground of a leg is on.
    Low(Leg),
    Sector,
    Crossings,
    Period,
    Armed,
    Demand,
    Stuck,
    Fuse,
    Session,
    Cause,
    Losses,
    /// A window is open.
    Window,
    Mode,
    Good,
    Detected,
    Nothing,
    Bad,
    Value,
    Telemetry,
    Command,
    Commands,
    Saves,
    Reply,
    Replies,
    /// The handler of a kind is open.
    Open(Kind),
    /// The signal line is high. The trace gives it.
    Line,
    /// The comparator is high. The trace gives it.
    Comparator,
}

/// All wires, in the order in which they are declared and in which their changes stand. The trace gives the last two.
const WIRES: [Wire; 38] = [
    Wire::High(Leg::A),
    Wire::High(Leg::B),
    Wire::High(Leg::C),
    Wire::Low(Leg::A),
    Wire::Low(Leg::B),
    Wire::Low(Leg::C),
    Wire::Sector,
    Wire::Crossings,
    Wire::Period,
    Wire::Armed,
    Wire::Demand,
    Wire::Stuck,
    Wire::Fuse,
    Wire::Session,
    Wire::Cause,
    Wire::Losses,
    Wire::Window,
    Wire::Mode,
    Wire::Good,
    Wire::Detected,
    Wire::Nothing,
    Wire::Bad,
    Wire::Value,
    Wire::Telemetry,
    Wire::Command,
    Wire::Commands,
    Wire::Saves,
    Wire::Reply,
    Wire::Replies,
    Wire::Open(Kind::Main),
    Wire::Open(Kind::Uart),
    Wire::Open(Kind::Tick),
    Wire::Open(Kind::Cap),
    Wire::Open(Kind::Cmp),
    Wire::Open(Kind::Pwm),
    Wire::Open(Kind::Comm),
    Wire::Line,
    Wire::Comparator,
];

/// The wires of a journal, with the two that a trace gives or without them.
pub fn wires_of(is_traced: bool) -> &'static [Wire]
    ensures wires { result.now ≡ wires_of is_traced }
    ensures few { length result.now ≤ 38 }
{
    if is_traced { &WIRES } else { &WIRES[..36] }
}

/// Whether a leg's switch is on in a word of switches.
fn is_on(word: u8, leg: Leg) -> bool
    ensures { result ≡ is_on word leg }
{
    let mask = match leg {
        Leg::A => 1,
        Leg::B => 2,
        Leg::C => 4,
    };
    word & mask != 0
}

impl Wire {
    /// The name that a viewer shows.
    pub fn name(self) -> &'static str
        ensures name { result.now ≡ name self }
        ensures short { length result.now ≤ 16 }
    {
        match self {
            Wire::High(Leg::A) => "high_a",
            Wire::High(Leg::B) => "high_b",
            Wire::High(Leg::C) => "high_c",
            Wire::Low(Leg::A) => "low_a",
            Wire::Low(Leg::B) => "low_b",
            Wire::Low(Leg::C) => "low_c",
            Wire::Sector => "sector",
            Wire::Crossings => "crossings",
            Wire::Period => "period_us",
            Wire::Armed => "armed",
            Wire::Demand => "demand",
            Wire::Stuck => "stuck",
            Wire::Fuse => "fuse",
            Wire::Session => "session",
            Wire::Cause => "lost_cause",
            Wire::Losses => "losses",
            Wire::Window => "window",
            Wire::Mode => "mode",
            Wire::Good => "good",
            Wire::Detected => "detected",
            Wire::Nothing => "nothing",
            Wire::Bad => "bad",
            Wire::Value => "frame_value",
            Wire::Telemetry => "telemetry",
            Wire::Command => "command",
            Wire::Commands => "commands",
            Wire::Saves => "saves",
            Wire::Reply => "reply",
            Wire::Replies => "replies",
            Wire::Open(kind) => handler_name(kind),
            Wire::Line => "signal_line",
            Wire::Comparator => "comparator",
        }
    }

    /// How many bits it has, 1 to 32.
    pub fn width(self) -> u32
        ensures width { result ≡ width self }
        ensures most { result ≤ 32 }
    {
        match self {
            Wire::Sector | Wire::Mode | Wire::Bad => 3,
            Wire::Cause => 2,
            Wire::Command => 6,
            Wire::Demand | Wire::Value => 11,
            Wire::Reply => 21,
            Wire::Crossings
            | Wire::Period
            | Wire::Losses
            | Wire::Commands
            | Wire::Saves
            | Wire::Replies => 32,
            _ => 1,
        }
    }

    /// What it shows.
    pub fn value(self, scene: &Scene) -> u32
        ensures { result ≡ value self scene.now }
    {
        match self {
            Wire::High(leg) => bit(is_on(scene.picture.drive.high, leg)),
            Wire::Low(leg) => bit(is_on(scene.picture.drive.low, leg)),
            Wire::Sector => u32::from(scene.picture.drive.sector),
            Wire::Crossings => scene.picture.drive.crossings,
            Wire::Period => scene.picture.drive.period,
            Wire::Armed => bit(scene.picture.control.armed),
            Wire::Demand => u32::from(scene.picture.control.demand),
            Wire::Stuck => u32::from(scene.picture.control.marks % 2),
            Wire::Fuse => u32::from(scene.picture.control.marks / 2 % 2),
            Wire::Session => u32::from(scene.picture.control.marks / 4 % 2),
            Wire::Cause => u32::from(scene.picture.control.cause),
            Wire::Losses => scene.picture.control.losses,
            Wire::Window => bit(scene.picture.signal.heard == Heard::Open),
            Wire::Mode => u32::from(scene.picture.signal.mode),
            Wire::Good => bit(scene.picture.signal.heard == Heard::Good),
            Wire::Detected => bit(scene.picture.signal.heard == Heard::Detected),
            Wire::Nothing => bit(scene.picture.signal.heard == Heard::Nothing),
            Wire::Bad => reason(scene.picture.signal.heard),
            Wire::Value => u32::from(scene.picture.signal.value),
            Wire::Telemetry => u32::from(scene.picture.signal.telemetry),
            Wire::Command => u32::from(scene.picture.control.command),
            Wire::Commands => scene.picture.control.commands,
            Wire::Saves => scene.picture.control.saves,
            Wire::Reply => scene.picture.signal.reply,
            Wire::Replies => scene.picture.signal.replies,
            Wire::Open(kind) => bit(scene.picture.handlers.is_open(kind)),
            Wire::Line => bit(scene.levels.line),
            Wire::Comparator => bit(scene.levels.comparator),
        }
    }
}

/// Why a window was bad, by its number; 0 for one that wasn't.
fn reason(heard: Heard) -> u32
    ensures { result ≡ reason heard }
{
    match heard {
        Heard::Bad(why) => u32::from(why),
        _ => 0,
    }
}

fn handler_name(kind: Kind) -> &'static str
    ensures name { result.now ≡ handler_name kind }
    ensures short { length result.now ≤ 16 }
{
    match kind {
        Kind::Main => "handler_main",
        Kind::Uart => "handler_uart",
        Kind::Tick => "handler_tick",
        Kind::Cap => "handler_cap",
        Kind::Cmp => "handler_cmp",
        Kind::Pwm => "handler_pwm",
        Kind::Comm => "handler_comm",
    }
}
