//! The core as the machine's firmware.
ghost use Rattle.std.specs.Prelude.{◌≡◌, ◌<◌, ◌≤◌, ◌^◌, ◌-◌, ℕ, true, false, All, if◌then◌else◌};
ghost use Rattle.esc_base.specs.Flash.{Told};
ghost use Rattle.esc_base.specs.Range.{InRange};
ghost use Rattle.interrupt_machine.specs.Did.{notes_of};
ghost use Rattle.esc_core.specs.Calls.{IsMade};
ghost use Rattle.esc_core.specs.Firmware.{core_step, entered_core, left_of, need_of, tick_need, pwm_need, cmp_need, is_stray, counted_down, shut, kind_step, kind_asked, core_asked, waits_of, new_core};

use crate::notes::no_note;
use crate::{
    CapAt, CmpAt, CommAt, Core, Drive, Listening, MainAt, Orders, PwmAt, Serial, TickAt, UartAt,
};
use arming::Control;
use esc_base::{FlashDev, Kind};
use fourway_packet::Packets;
use gate_driver::{AllOff, Chop};
use interrupt_machine::{Did, Firmware};
use settings_block::Settings;
use timer_regs::{Reg, Regs};

impl Core {
    /// No handler is open, nothing is detected, control isn't armed, and no command has acted.
    pub fn new(settings: Settings, packets: Packets) -> Core
        ensures { result ≡ new_core settings packets }
    {
        Core {
            cap_at: CapAt::Shut,
            tick_at: TickAt::Shut,
            main_at: MainAt::Shut,
            uart_at: UartAt::Shut,
            cmp_at: CmpAt::Shut,
            pwm_at: PwmAt::Shut,
            comm_at: CommAt::Shut,
            hold: 0,
            listening: Listening::new(),
            control: Control::new(),
            drive: Drive::new(settings.advance),
            orders: Orders::new(settings),
            serial: Serial::new(packets),
        }
    }

    fn need(&self, kind: Kind) -> u8
        ensures { result ≡ need_of self.now kind }
    {
        match kind {
            Kind::Tick => tick_need(self.tick_at),
            Kind::Pwm => pwm_need(self.pwm_at),
            Kind::Cmp => cmp_need(self.cmp_at),
            _ => 9,
        }
    }

    fn shut(&mut self, kind: Kind)
        ensures { self.new ≡ shut self.old kind }
    {
        match kind {
            Kind::Main => self.main_at = MainAt::Shut,
            Kind::Uart => self.uart_at = UartAt::Shut,
            Kind::Tick => self.tick_at = TickAt::Shut,
            Kind::Cap => self.cap_at = CapAt::Shut,
            Kind::Cmp => self.cmp_at = CmpAt::Shut,
            Kind::Pwm => self.pwm_at = PwmAt::Shut,
            Kind::Comm => self.comm_at = CommAt::Shut,
        }
    }

    fn kind_step<D: FlashDev>(&mut self, kind: Kind, regs: &mut Regs, dev: &mut D) -> Did
        requires count { regs.old.accesses < 2 ^ 63 }
        ensures made { IsMade (λ answers. kind_step kind answers self.old regs.old) (kind_asked kind self.old)
            regs.old (D.told dev.old) result self.new regs.new (D.told dev.new) }
        ensures in_range { All InRange (notes_of result) }
    {
        match kind {
            Kind::Tick => self.tick_step(regs),
            Kind::Cap => self.cap_step(regs),
            Kind::Main => self.main_step(regs, dev),
            Kind::Pwm => self.pwm_step(regs),
            Kind::Comm => self.comm_step(regs),
            Kind::Cmp => self.cmp_step(regs),
            Kind::Uart => self.uart_step(regs),
        }
    }

    fn is_stray(&self, kind: Kind, regs: &Regs) -> bool
        ensures { result ≡ is_stray kind self.now regs.now }
    {
        regs.masked() && self.need(kind) > self.hold
    }

    fn count_down(&mut self, regs: &Regs)
        ensures { self.new ≡ counted_down self.old regs.now }
    {
        if regs.masked() {
            self.hold = self.hold.saturating_sub(1);
        }
    }

    fn core_step<D: FlashDev>(&mut self, kind: Kind, regs: &mut Regs, dev: &mut D) -> Did
        requires count { regs.old.accesses < 2 ^ 63 }
        ensures made { IsMade (λ answers. core_step kind answers self.old regs.old) (core_asked kind self.old regs.old)
            regs.old (D.told dev.old) result self.new regs.new (D.told dev.new) }
        ensures in_range { All InRange (notes_of result) }
    {
        if self.is_stray(kind, regs) {
            regs.write(Reg::Mask, 0);
            self.shut(kind);
            return Did::Return(no_note());
        }
        self.count_down(regs);
        self.kind_step(kind, regs, dev)
    }
}

/// For how many steps the mask stands from a place on, with the one that lowers it; 9 where it never stands.
fn tick_need(at: TickAt) -> u8
    ensures { result ≡ tick_need at }
{
    match at {
        TickAt::Read => 7,
        TickAt::Off(AllOff::High) => 6,
        TickAt::Off(AllOff::Low) => 5,
        TickAt::Off(AllOff::Over) => 4,
        TickAt::DutyOff => 3,
        TickAt::DriveOff => 2,
        TickAt::DutyOn(_) => 3,
        TickAt::Start => 2,
        TickAt::Lower => 1,
        TickAt::Shut | TickAt::Raise | TickAt::Back => 9,
    }
}

/// The same of PWM.
fn pwm_need(at: PwmAt) -> u8
    ensures { result ≡ pwm_need at }
{
    match at {
        PwmAt::Run(Chop::Position) => 5,
        PwmAt::Run(Chop::Duty(_)) => 4,
        PwmAt::Run(Chop::Sector(_)) => 3,
        PwmAt::Run(Chop::Write(_)) => 2,
        PwmAt::Run(Chop::Lower) => 1,
        PwmAt::Run(Chop::Raise | Chop::Over) | PwmAt::Shut | PwmAt::Back => 9,
    }
}

/// The same of CMP.
fn cmp_need(at: CmpAt) -> u8
    ensures { result ≡ cmp_need at }
{
    match at {
        CmpAt::Look => 5,
        CmpAt::Read => 4,
        CmpAt::Ack => 3,
        CmpAt::Arm | CmpAt::Commute => 2,
        CmpAt::Lower => 1,
        CmpAt::Shut | CmpAt::Raise | CmpAt::Back => 9,
    }
}

impl Firmware for Core {
    ghost came = { λ c k d. d ≡ entered_core c k };

    ghost made = { λ c b flash k did d a flash'. IsMade (λ answers. core_step k answers c b) (core_asked k c b) b flash did d a flash' };

    ghost left = { left_of };

    ghost hold = { λ c. c.hold };

    ghost waits = { waits_of };

    fn enter(&mut self, kind: Kind) {
        match kind {
            Kind::Main => self.main_at = MainAt::Work,
            Kind::Uart => self.uart_at = UartAt::Look,
            Kind::Tick => self.tick_at = TickAt::Raise,
            Kind::Cap => self.cap_at = CapAt::Start,
            Kind::Cmp => self.cmp_at = CmpAt::Raise,
            Kind::Pwm => self.pwm_at = PwmAt::Run(Chop::new()),
            Kind::Comm => self.comm_at = CommAt::Decide,
        }
    }

    fn step<D: FlashDev>(&mut self, kind: Kind, regs: &mut Regs, dev: &mut D) -> Did {
        // The bounds on the mask rest on this field's invariant.
        let _ = &self.hold;
        self.core_step(kind, regs, dev)
    }

    fn waiting(&self) -> bool {
        self.orders.save_asked || self.serial.waits()
    }
}
