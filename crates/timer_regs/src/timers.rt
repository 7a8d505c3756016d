//! Timers, and the events of pulse width modulation.
ghost use Rattle.std.specs.Prelude.{◌≡◌, ◌<◌, ◌≤◌, ◌^◌, max};
ghost use Rattle.esc_base.specs.Times.{is_reached as reached, most_duty};
ghost use Rattle.timer_regs.specs.Rest.{rests_from, put_off as put_off_at};
ghost use Rattle.timer_regs.specs.Pwm.{edge_after};
ghost use Rattle.timer_regs.specs.NextDue.{tick_of, sooner as sooner_of};

use esc_base::Tick;

/// How long the line has to rest, in ticks, before the window timer is reached: longer than any gap between two edges of a
/// good frame.
const REST: u64 = 200;

/// Control ticks are so many ticks apart.
pub(crate) const CONTROL_PERIOD: u64 = 2400;

/// And so are the starts of periods of pulse width modulation.
pub(crate) const PWM_PERIOD: u64 = 2000;

pub(crate) fn is_reached(timer: Option<Tick>, now: Tick) -> bool
    ensures { result ≡ reached (tick_of timer) now.0 }
{
    match timer {
        Some(at) => at.0 <= now.0,
        None => false,
    }
}

pub(crate) fn later(a: Tick, b: Tick) -> Tick
    ensures { result.0 ≡ max a.0 b.0 }
{
    if a.0 < b.0 { b } else { a }
}

pub(crate) fn sooner(a: Option<Tick>, b: Option<Tick>) -> Option<Tick>
    ensures { tick_of result ≡ sooner_of (tick_of a) (tick_of b) }
{
    match (a, b) {
        (Some(x), Some(y)) => Some(if y.0 < x.0 { y } else { x }),
        (None, other) => other,
        (some, None) => some,
    }
}

/// The tick from which on the line has rested since its newest change.
pub(crate) fn resting_from(changed: Option<Tick>) -> Tick
    requires { rests_from (tick_of changed) < 2 ^ 32 }
    ensures { result.0 ≡ rests_from (tick_of changed) }
{
    match changed {
        Some(at) => Tick(at.0 + REST),
        None => Tick(0),
    }
}

/// What a change of the line at `now` leaves of the window timer. What was reached stays reached.
pub(crate) fn put_off(timer: Option<Tick>, now: Tick) -> Option<Tick>
    requires { now.0 < 2 ^ 31 }
    ensures { tick_of result ≡ put_off_at (tick_of timer) now.0 }
{
    match timer {
        Some(at) if now.0 < at.0 => Some(later(at, Tick(now.0 + REST))),
        other => other,
    }
}

/// The first PWM event after a tick: the end of the duty in its period, or the start of the next one.
pub(crate) fn next_edge(duty: u16, after: Tick) -> Option<Tick>
    requires duty { duty ≤ most_duty }
    requires small { after.0 < 2 ^ 31 }
    ensures { tick_of result ≡ edge_after duty after.0 }
{
    if duty == 0 {
        return None;
    }
    let position = after.0 % PWM_PERIOD;
    let duty = duty as u64;
    let from_start = if position < duty { duty } else { PWM_PERIOD };
    Some(Tick(after.0 - position + from_start))
}
