//! Where each open activation stands, and what the core keeps.
use crate::{Drive, Listening, Orders, Serial};
use arming::Control;
use gate_driver::{AllOff, Chop};
use std::marker::Model;

/// Where an open CAP stands. Each place is named by the step that comes next.
#[derive(Clone, Copy, Drop)]
pub enum CapAt {
    Shut,
    /// Reads how many edges there are, or opens a window where the window timer was set.
    Start,
    /// Reads one edge of so many.
    Copy(u8),
    /// Judges the edges.
    Judge,
    /// Opens the next window.
    Open,
    /// Reads the electrical period, for the reply to an inverted frame.
    Period,
    /// Loads the reply that tells this period, in microseconds.
    Reply(Option<u32>),
    /// Sets the window timer for this tick.
    Pause(u32),
    Back,
}

/// Where an open TICK stands.
#[derive(Clone, Copy, Drop)]
pub enum TickAt {
    Shut,
    /// Raises the mask.
    Raise,
    /// Reads the control tick's number, and asks control.
    Read,
    /// Turns all switches off.
    Off(AllOff),
    /// Sets the duty to 0.
    DutyOff,
    /// Disarms the drive's timers.
    DriveOff,
    /// Sets the duty to the demand; it may be the start of a drive.
    DutyOn(bool),
    /// Makes COMM due at once.
    Start,
    /// Lowers the mask.
    Lower,
    Back,
}

/// Where an open PWM stands.
#[derive(Clone, Copy, Drop)]
pub enum PwmAt {
    Shut,
    /// Makes a step of chopping.
    Run(Chop),
    Back,
}

/// Where an open COMM stands.
#[derive(Clone, Copy, Drop)]
pub enum CommAt {
    Shut,
    /// Decides between a sector change, for which it reads the sector, and a postponed low switch.
    Decide,
    /// Makes a step of the sector change.
    Turn,
    /// Turns the postponed low switch on.
    Low,
    /// Arms the crossing timer for the end of blanking.
    Blank,
    /// Writes the time of the newest six gaps.
    Period,
    /// Arms the commutation timer.
    Arm,
    /// Sets the stuck mark.
    Stick,
    Back,
}

/// Where an open CMP stands.
#[derive(Clone, Copy, Drop)]
pub enum CmpAt {
    Shut,
    /// Raises the mask.
    Raise,
    /// Decides by the phase of the search. Where blanking is over the comparator's next change asks for CMP; where a filter is
    /// over the comparator is read.
    Look,
    /// Reads the comparator as blanking is over.
    Read,
    /// Clears the comparator's changed bit: a filter begins.
    Ack,
    /// Arms the crossing timer for the end of the filter, or of blanking.
    Arm,
    /// Arms the commutation timer, as a crossing was accepted.
    Commute,
    /// Lowers the mask.
    Lower,
    Back,
}

/// Where an open MAIN stands.
#[derive(Clone, Copy, Drop)]
pub enum MainAt {
    Shut,
    /// Does what waits.
    Work,
    Back,
}

/// Where an open UART stands.
#[derive(Clone, Copy, Drop)]
pub enum UartAt {
    Shut,
    /// Reads whether a byte waits.
    Look,
    /// Reads when it arrived.
    Time,
    /// Reads the byte that arrived at this tick, and pushes it.
    Data(u32),
    Back,
}

/// The handlers of the seven kinds, and what they share.
#[derive(Drop)]
pub struct Core {
    pub(crate) cap_at: CapAt,
    pub(crate) tick_at: TickAt,
    pub(crate) main_at: MainAt,
    pub(crate) uart_at: UartAt,
    pub(crate) cmp_at: CmpAt,
    pub(crate) pwm_at: PwmAt,
    pub(crate) comm_at: CommAt,
    /// For how many steps the mask can still stand.
    pub(crate) hold: u8,
    /// What CAP keeps of its windows.
    pub listening: Listening,
    /// What control ticks and frames have come to.
    pub control: Control,
    /// What commands have asked for.
    pub orders: Orders,
    /// What is kept of the drive.
    pub drive: Drive,
    pub(crate) serial: Serial,
}

impl Model for Core {
    ghost use Rattle.std.specs.Prelude.{◌≤◌};
    ghost use Rattle.esc_core.specs.Brain.{Brain};

    ghost Value = { Brain };

    ghost view = { λ c. record {
      cap_at = c.cap_at;
      tick_at = c.tick_at;
      main_at = c.main_at;
      uart_at = c.uart_at;
      cmp_at = c.cmp_at;
      pwm_at = c.pwm_at;
      comm_at = c.comm_at;
      hold = c.hold;
      window = c.listening.window;
      burst = c.listening.burst;
      paused = c.listening.paused;
      control = c.control;
      orders = c.orders;
      drive = c.drive;
      line = c.serial;
    } };

    ghost invariant = { λ c. c.hold ≤ 8 };
}
