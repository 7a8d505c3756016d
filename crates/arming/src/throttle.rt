ghost use Rattle.std.specs.Prelude.{◌≡◌, ◌≤◌};
ghost use Rattle.arming.specs.Throttle.{on_of};

/// How long the high switch is on in a PWM period of 2000 ticks of 48 MHz, for the throttle value of
/// a frame, 48 to 2047: 100 to 1900 ticks.
pub fn on_ticks(value: u16) -> u16
    requires is_throttle { 48 ≤ value }
    requires is_value { value ≤ 2047 }
    ensures value { result ≡ on_of value }
    ensures least { 100 ≤ result }
    ensures most { result ≤ 1900 }
{
    (100 + (value - 48) as u32 * 1800 / 1999) as u16
}
