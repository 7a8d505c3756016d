//! Reads and writes of registers: one access each.
ghost use Rattle.std.specs.Prelude.{◌≡◌, ◌<◌, ◌≤◌, ◌^◌, bit_or, None, false};
ghost use Rattle.esc_base.specs.Numbers.{mode_of};
ghost use Rattle.timer_regs.specs.Effects.{counted, read_value, IsSmall, after_read, IsRange, written, edges_read, edge_read, shown_edge, number_at, tick_state as tick_state_of, without as word_without};

use crate::reply::end_of_reply;
use crate::timers::{CONTROL_PERIOD, PWM_PERIOD, later, next_edge, resting_from};
use crate::uart::BYTE_TIME;
use crate::{Reg, Regs};
use edge_capture::Edge;
use esc_base::{Mode, Tick};

impl Regs {
    /// Reads a register, at now: one access. A register that takes writes alone, or that has no effect yet, reads
    /// as 0.
    pub fn read(&mut self, r: Reg) -> u32
        requires { self.old.accesses < 2 ^ 63 }
        ensures value { result ≡ read_value self.old r }
        ensures small { IsSmall r result }
        ensures regs { self.new ≡ after_read self.old r }
    {
        self.count();
        match r {
            Reg::CapState => self.closed_len(),
            Reg::CapEdge(i) => self.closed_edge(i),
            Reg::TickState => self.tick_state(),
            Reg::Duty => self.duty as u32,
            Reg::PwmPos => (self.time.0 % PWM_PERIOD) as u32,
            Reg::Sector => self.sector as u32,
            Reg::CmpState => self.comparator.state(),
            Reg::Reply => self.reply_end,
            Reg::Period => self.period,
            Reg::UartState => self.uart.state(self.time),
            Reg::UartTime => self.uart.arrived_at(),
            Reg::UartData => self.uart.take(),
            _ => 0,
        }
    }

    /// Writes a register, at now: one access. `v` is in the register's range (`IsRange`). A write to a register
    /// that is read alone, or that has no effect yet, is counted and nothing more.
    pub fn write(&mut self, r: Reg, v: u32)
        requires count { self.old.accesses < 2 ^ 63 }
        requires range { IsRange r v }
        ensures { self.new ≡ written self.old r v }
    {
        self.count();
        match r {
            Reg::GhSet => self.gates.hi = with(self.gates.hi, v),
            Reg::GlSet => self.gates.lo = with(self.gates.lo, v),
            Reg::GhClr => self.gates.hi = without(self.gates.hi, v),
            Reg::GlClr => self.gates.lo = without(self.gates.lo, v),
            Reg::Mask => self.masked = v == 1,
            Reg::Duty => {
                self.duty = v as u16;
                self.flag = v > 0;
                self.pwm_edge = next_edge(self.duty, self.time);
            }
            Reg::Sector => self.sector = v as u8,
            Reg::CommAt => self.comm = Some(Tick(v as u64)),
            Reg::DriveOff => self.drive_off(),
            Reg::Stuck => self.stuck = self.stuck || v == 1,
            Reg::CapArm => {
                self.window.arm(mode_numbered(v), self.time);
                self.taken = false;
            }
            Reg::CapAt => self.timer = Some(later(Tick(v as u64), resting_from(self.changed))),
            Reg::CmpAck => self.comparator.changed = false,
            Reg::CmpEn => self.comparator.enable(v == 1),
            Reg::CmpAt => self.comparator.arm(Tick(v as u64)),
            Reg::Reply => self.reply_end = end_of_reply(&self.window, self.time),
            Reg::Period => self.period = v,
            Reg::Txd => self.uart.idle_from = Tick(self.time.0 + BYTE_TIME),
            Reg::TxOn => self.uart.sends = v == 1,
            _ => {}
        }
    }

    fn count(&mut self)
        requires { self.old.accesses < 2 ^ 63 }
        ensures { self.new ≡ counted self.old }
    {
        self.accesses += 1;
    }

    /// No timer of the drive and no change of the comparator makes a kind due, and what the drive was is forgotten.
    fn drive_off(&mut self)
        ensures { self.new ≡ record self.old { comm = None; crossing = None; comp_enabled = false; stuck = false; period = 0 } }
    {
        self.comm = None;
        self.comparator.rest();
        self.stuck = false;
        self.period = 0;
    }

    fn tick_state(&mut self) -> u32
        ensures value { result ≡ tick_state_of self.old }
        ensures small { result < 2 ^ 31 }
        ensures regs { self.new ≡ record self.old { number_read = number_at self.old.time } }
    {
        let number = (self.time.0 / CONTROL_PERIOD) as u32;
        self.number_read = number;
        if self.stuck {
            number + 0x4000_0000
        } else {
            number
        }
    }

    fn closed_len(&self) -> u32
        ensures len { result ≡ edges_read self.now }
        ensures most { result ≤ 32 }
    {
        if self.window.closed(self.time) {
            self.window.burst().len() as u32
        } else {
            0
        }
    }

    fn closed_edge(&self, i: u8) -> u32
        ensures { result ≡ edge_read self.now i }
    {
        if (i as u32) < self.closed_len() {
            shown(self.window.burst().at(i as usize))
        } else {
            0
        }
    }
}

/// A word of switches with these on too.
fn with(word: u8, on: u32) -> u8
    requires word { word ≤ 7 }
    requires on { on ≤ 7 }
    ensures value { result ≡ bit_or word on }
    ensures small { result ≤ 7 }
{
    word | on as u8
}

/// A word of switches with these off.
fn without(word: u8, off: u32) -> u8
    requires word { word ≤ 7 }
    requires off { off ≤ 7 }
    ensures value { result ≡ word_without word off }
    ensures small { result ≤ 7 }
{
    word & (7 - off as u8)
}

fn shown(edge: Edge) -> u32
    requires { edge.t.0 < 2 ^ 31 }
    ensures { result ≡ shown_edge edge }
{
    let at = edge.t.0 as u32;
    if edge.level { at + 0x8000_0000 } else { at }
}

fn mode_numbered(v: u32) -> Mode
    ensures { result ≡ mode_of v }
{
    match v {
        1 => Mode::D300,
        2 => Mode::D600,
        3 => Mode::D300Inv,
        4 => Mode::D600Inv,
        5 => Mode::Servo,
        _ => Mode::Unknown,
    }
}
