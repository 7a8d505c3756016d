//! When each switch last went off.
ghost use Rattle.std.specs.Prelude.{◌≡◌, ◌<◌, ◌^◌};
ghost use Rattle.esc_base.specs.Legs.{mask_of};
ghost use Rattle.timer_regs.specs.Effects.{written, IsRange};
ghost use Rattle.timer_regs.specs.NextDue.{tick_of};
ghost use Rattle.gate_driver.specs.Gated.{never_off, no_legs, offs, at_leg, gates_after, went_off as goes_off, free_after as freed, wait_of as wait_for, high_wait as wait_of_high, low_wait as wait_of_low};

use esc_base::{GateWord, Leg, Tick};
use std::marker::Model;
use timer_regs::{Reg, Regs};

/// The dead time: a switch turns on only where the other one of its leg has been off for these 48 ticks, a microsecond.
const DEAD_TIME: u64 = 48;

/// For each leg the tick from which on the switch of one side no longer keeps that of the other side off.
#[derive(Drop)]
struct FreeFrom {
    a: Tick,
    b: Tick,
    c: Tick,
}

impl Model for FreeFrom {
    ghost use Rattle.gate_driver.specs.Gated.{Legs};

    ghost Value = { Legs };

    ghost view = { λ f. record { a = f.a.0; b = f.b.0; c = f.c.0 } };
}

impl FreeFrom {
    fn never() -> FreeFrom
        ensures { result ≡ no_legs }
    {
        FreeFrom {
            a: Tick(0),
            b: Tick(0),
            c: Tick(0),
        }
    }

    fn of(&self, leg: Leg) -> Tick
        ensures { result.0 ≡ at_leg self.now leg }
    {
        match leg {
            Leg::A => self.a,
            Leg::B => self.b,
            Leg::C => self.c,
        }
    }

    /// A word of switches became another one, at now: notes those that went off.
    fn note(&mut self, before: u8, after: u8, now: Tick)
        requires { now.0 < 2 ^ 31 }
        ensures { self.new ≡ offs self.old before after now.0 }
    {
        self.a = free_after(before, after, Leg::A, now, self.a);
        self.b = free_after(before, after, Leg::B, now, self.b);
        self.c = free_after(before, after, Leg::C, now, self.c);
    }
}

/// When each switch last went off. At first all are off, and never were on.
#[derive(Drop)]
pub struct Gates {
    high: FreeFrom,
    low: FreeFrom,
}

impl Model for Gates {
    ghost use Rattle.gate_driver.specs.Gated.{Gated};

    ghost Value = { Gated };

    ghost view = { λ g. record { hi_free = g.high; lo_free = g.low } };
}

impl Gates {
    pub fn new() -> Gates
        ensures { result ≡ never_off }
    {
        Gates {
            high: FreeFrom::never(),
            low: FreeFrom::never(),
        }
    }

    /// The tick from which on the high switch of a leg no longer keeps the low one off: 48 after it last went off,
    /// 0 if it never did.
    pub fn high_free(&self, leg: Leg) -> Tick
        ensures { result.0 ≡ at_leg self.now.hi_free leg }
    {
        self.high.of(leg)
    }

    /// The tick from which on the low switch of a leg no longer keeps the high one off: 48 after it last went off,
    /// 0 if it never did.
    pub fn low_free(&self, leg: Leg) -> Tick
        ensures { result.0 ≡ at_leg self.now.lo_free leg }
    {
        self.low.of(leg)
    }

    /// The tick from which on the high switch of a leg may turn on, or `None` where it may now.
    pub fn high_wait(&self, regs: &Regs, leg: Leg) -> Option<Tick>
        ensures { tick_of result ≡ wait_of_high self.now regs.now leg }
    {
        wait_of(regs.gates().lo, self.low.of(leg), leg, regs.now())
    }

    /// The tick from which on the low switch of a leg may turn on, or `None` where it may now.
    pub fn low_wait(&self, regs: &Regs, leg: Leg) -> Option<Tick>
        ensures { tick_of result ≡ wait_of_low self.now regs.now leg }
    {
        wait_of(regs.gates().hi, self.high.of(leg), leg, regs.now())
    }

    /// Writes a register of the gates, and notes the switches that went off.
    pub(crate) fn write(&mut self, regs: &mut Regs, r: Reg, v: u32)
        requires count { regs.old.accesses < 2 ^ 63 }
        requires range { IsRange r v }
        ensures regs { regs.new ≡ written regs.old r v }
        ensures gates { self.new ≡ gates_after self.old regs.old (written regs.old r v) }
    {
        let now = regs.now();
        let before = regs.gates();
        regs.write(r, v);
        let after = regs.gates();
        self.note(before, after, now);
    }

    fn note(&mut self, before: GateWord, after: GateWord, now: Tick)
        requires { now.0 < 2 ^ 31 }
        ensures { self.new ≡ record { hi_free = offs self.old.hi_free before.hi after.hi now.0; lo_free = offs self.old.lo_free before.lo after.lo now.0 } }
    {
        self.high.note(before.hi, after.hi, now);
        self.low.note(before.lo, after.lo, now);
    }
}

/// A leg's bit in a word of switches.
pub(crate) fn mask(leg: Leg) -> u8
    ensures value { result ≡ mask_of leg }
    ensures small { result < 8 }
{
    match leg {
        Leg::A => 1,
        Leg::B => 2,
        Leg::C => 4,
    }
}

fn went_off(before: u8, after: u8, leg: Leg) -> bool
    ensures { result ≡ goes_off before after leg }
{
    let bit = mask(leg);
    before & bit != 0 && after & bit == 0
}

fn free_after(before: u8, after: u8, leg: Leg, now: Tick, free: Tick) -> Tick
    requires { now.0 < 2 ^ 31 }
    ensures { result.0 ≡ freed before after leg now.0 free.0 }
{
    if went_off(before, after, leg) {
        Tick(now.0 + DEAD_TIME)
    } else {
        free
    }
}

/// When a leg's switch may turn on: `other` is the word of the other side's switches, and `free` the tick from which on
/// the leg's one no longer keeps this one off.
fn wait_of(other: u8, free: Tick, leg: Leg, now: Tick) -> Option<Tick>
    requires { now.0 < 2 ^ 31 }
    ensures { tick_of result ≡ wait_for other free.0 leg now.0 }
{
    if other & mask(leg) != 0 {
        Some(Tick(now.0 + DEAD_TIME))
    } else if now.0 < free.0 {
        Some(free)
    } else {
        None
    }
}
