//! The registers, and what is seen of them without an access.
ghost use Rattle.std.specs.Prelude.{◌≡◌, ◌≤◌};
ghost use Rattle.timer_regs.specs.Sound.{IsSound};
ghost use Rattle.timer_regs.specs.Effects.{reset};

use crate::comparator::Comparator;
use crate::uart::Uart;
use edge_capture::Capture;
use esc_base::{GateWord, Tick};
use std::marker::Model;

/// A register. Times in registers are ticks of 48 MHz; a word of switches has bit 0 for leg A, bit 1 for
/// leg B and bit 2 for leg C.
#[derive(Clone, Copy, Drop)]
pub enum Reg {
    /// Turns on the high switches whose bits are set.
    GhSet,
    /// Turns on the low switches whose bits are set.
    GlSet,
    /// Turns off the high switches whose bits are set.
    GhClr,
    /// Turns off the low switches whose bits are set.
    GlClr,
    /// 1 raises the interrupt mask, 0 lowers it.
    Mask,
    /// The duty of the high switch, 0 to 1900 ticks. A write of one above 0 is a PWM event; a write of 0 clears
    /// the PWM flag.
    Duty,
    /// The place in the PWM period of 2000 ticks. Periods begin at the multiples of 2000.
    PwmPos,
    /// The present sector, 1 to 6, or 0 before the first.
    Sector,
    /// Arms the commutation timer for that tick.
    CommAt,
    /// Disarms the commutation and crossing timers, disables comparator interrupts, clears the stuck mark, and sets the period to 0.
    DriveOff,
    /// 1 sets the stuck mark.
    Stuck,
    /// The comparator's level in bit 0, and in bit 1 whether it changed since that was last cleared.
    CmpState,
    /// Clears the comparator's changed bit.
    CmpAck,
    /// 1 clears the changed bit and enables comparator interrupts: a change makes CMP due from then on.
    CmpEn,
    /// Arms the crossing timer for that tick, and disables comparator interrupts.
    CmpAt,
    /// The number of edges of the closed window, or 0 where none is closed.
    CapState,
    /// The tick of the edge at this place of the closed window, plus 2^31 where the edge rises; 0 where the
    /// window isn't closed or has no such edge.
    CapEdge(u8),
    /// Opens a window at now, in the mode with the number that is written, 0 to 5.
    CapArm,
    /// Arms the window timer for that tick, or for the end of the line's rest of 200 ticks, if that is later.
    CapAt,
    /// The end tick of the last reply, 0 before any. A write loads 21 line bits, each of 64 ticks where the last window was in the
    /// mode D600Inv, else of 128. The reply starts 1440 ticks after that window's last edge, and at the next tick at the earliest.
    Reply,
    /// The sum of six gaps of sectors in ticks, 0 for none.
    Period,
    /// The number of the control tick, which then counts as read, plus 2^30 with the stuck mark. Control ticks
    /// are 2400 ticks apart.
    TickState,
    /// Bit 0: a received byte waits. Bit 1: the transmitter is idle.
    UartState,
    /// The tick at which the waiting byte arrived.
    UartTime,
    /// The waiting byte, which is then taken.
    UartData,
    /// Starts to send a byte.
    Txd,
    /// 1 says that bytes are to be sent, 0 that none is.
    TxOn,
}

/// The registers, at a present tick.
#[derive(Drop)]
pub struct Regs {
    pub(crate) time: Tick,
    pub(crate) accesses: u64,
    pub(crate) masked: bool,
    pub(crate) gates: GateWord,
    pub(crate) duty: u16,
    pub(crate) flag: bool,
    /// The next PWM event, while the duty is above 0.
    pub(crate) pwm_edge: Option<Tick>,
    pub(crate) sector: u8,
    pub(crate) comm: Option<Tick>,
    pub(crate) stuck: bool,
    pub(crate) level: bool,
    pub(crate) window: Capture,
    pub(crate) taken: bool,
    pub(crate) timer: Option<Tick>,
    /// The newest change of the signal line.
    pub(crate) changed: Option<Tick>,
    pub(crate) comparator: Comparator,
    /// The sum of six gaps of sectors, 0 for none.
    pub(crate) period: u32,
    /// The tick at which the last reply ends, 0 before any.
    pub(crate) reply_end: u32,
    pub(crate) uart: Uart,
    pub(crate) number_read: u32,
}

impl Model for Regs {
    ghost use Rattle.timer_regs.specs.Bank.{Bank};
    ghost use Rattle.timer_regs.specs.Sound.{IsKept};
    ghost use Rattle.timer_regs.specs.NextDue.{tick_of};

    ghost Value = { Bank };

    ghost view = { λ r. record {
      time = r.time.0;
      accesses = r.accesses;
      masked = r.masked;
      hi = r.gates.hi;
      lo = r.gates.lo;
      duty = r.duty;
      flag = r.flag;
      sector = r.sector;
      comm = tick_of r.comm;
      stuck = r.stuck;
      level = r.level;
      window = r.window;
      taken = r.taken;
      timer = tick_of r.timer;
      changed = tick_of r.changed;
      comp = r.comparator.level;
      comp_changed = r.comparator.changed;
      comp_enabled = r.comparator.enabled;
      crossing = tick_of r.comparator.timer;
      period = r.period;
      reply_end = r.reply_end;
      receive = r.uart.receive;
      idle_from = r.uart.idle_from.0;
      sends = r.uart.sends;
      number_read = r.number_read;
    } };

    ghost invariant = { λ r. IsKept (record {
      time = r.time.0;
      accesses = r.accesses;
      masked = r.masked;
      hi = r.gates.hi;
      lo = r.gates.lo;
      duty = r.duty;
      flag = r.flag;
      sector = r.sector;
      comm = tick_of r.comm;
      stuck = r.stuck;
      level = r.level;
      window = r.window;
      taken = r.taken;
      timer = tick_of r.timer;
      changed = tick_of r.changed;
      comp = r.comparator.level;
      comp_changed = r.comparator.changed;
      comp_enabled = r.comparator.enabled;
      crossing = tick_of r.comparator.timer;
      period = r.period;
      reply_end = r.reply_end;
      receive = r.uart.receive;
      idle_from = r.uart.idle_from.0;
      sends = r.uart.sends;
      number_read = r.number_read;
    }) (tick_of r.pwm_edge) };
}

impl Regs {
    /// The registers at tick 0: all gates off, nothing armed, the mask down.
    pub fn new() -> Regs
        ensures { result ≡ reset }
    {
        Regs {
            time: Tick(0),
            accesses: 0,
            masked: false,
            gates: GateWord { hi: 0, lo: 0 },
            duty: 0,
            flag: false,
            pwm_edge: None,
            sector: 0,
            comm: None,
            stuck: false,
            level: false,
            window: Capture::new(),
            taken: false,
            timer: None,
            changed: None,
            comparator: Comparator::new(),
            period: 0,
            reply_end: 0,
            uart: Uart::new(),
            number_read: 0,
        }
    }

    /// The present tick, below 2^31. This isn't an access.
    pub fn now(&self) -> Tick
        ensures now { result.0 ≡ self.now.time }
        ensures sound { IsSound self.now }
    {
        self.time
    }

    /// How many reads and writes there were.
    pub fn accesses(&self) -> u64
        ensures { result ≡ self.now.accesses }
    {
        self.accesses
    }

    /// The switches that are on.
    pub fn gates(&self) -> GateWord
        ensures high { result.hi ≡ self.now.hi }
        ensures low { result.lo ≡ self.now.lo }
        ensures high_legs { result.hi ≤ 7 }
        ensures low_legs { result.lo ≤ 7 }
    {
        self.gates
    }

    /// Whether the interrupt mask is up.
    pub fn masked(&self) -> bool
        ensures { result ≡ self.now.masked }
    {
        self.masked
    }
}
