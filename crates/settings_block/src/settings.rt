//! The settings in memory.
ghost use Rattle.std.specs.Prelude.{◌≡◌, ◌+◌, ◌*◌, ◌<◌};
ghost use Rattle.dshot_commands.specs.Act.{IsInRange as IsAct};
ghost use Rattle.settings_block.specs.Settings.{applied, servo_of, IsInRange};

use dshot_commands::Act;
use esc_base::Block48;
use servo_input::{InputKind, Servo};

/// The settings, with the bytes of the block that they were read from.
#[derive(Clone, Copy, Debug, PartialEq, Eq, Drop)]
pub struct Settings {
    /// Which way the motor turns, 0 or 1.
    pub direction: u8,
    /// Whether throttle has a forward and a reverse half.
    pub three_d: bool,
    /// Whether the other switch of the chopping leg is on while its high switch is off.
    pub complementary: bool,
    /// The advance level of the commutation, 0 to 3.
    pub advance: u8,
    /// The magnetic poles of the motor, even, 2 to 64.
    pub poles: u8,
    /// The low end of servo pulses: b stands for 2 b + 750 microseconds, 750 to 1260.
    pub low: u8,
    /// The high end of servo pulses: b stands for 2 b + 1750 microseconds, 1750 to 2260.
    pub high: u8,
    /// The middle of servo pulses: b stands for b + 1374 microseconds, 1374 to 1629.
    pub neutral: u8,
    /// The dead band round the middle, 0 to 100 microseconds.
    pub dead_band: u8,
    /// The inputs that are allowed.
    pub input: InputKind,
    /// The block's other bytes, which are kept as they are, each at its offset.
    pub rest: Block48,
}

/// The range of servo pulses, in microseconds.
pub fn servo_of(s: &Settings) -> Servo
    ensures low { result.low_us ≡ 2 * s.now.low + 750 }
    ensures high { result.high_us ≡ 2 * s.now.high + 1750 }
    ensures servo { result ≡ servo_of s.now }
{
    Servo {
        low_us: 2 * s.low as u16 + 750,
        high_us: 2 * s.high as u16 + 1750,
    }
}

/// What a command changes of the settings: the direction and 3D. All else stays.
pub fn apply(s: &mut Settings, act: Act)
    requires { IsAct act }
    ensures applied { s.new ≡ applied s.old act }
    ensures in_range { IsInRange s.old → IsInRange s.new }
{
    match act {
        Act::Direction(direction) => s.direction = direction,
        Act::ThreeD(is_on) => s.three_d = is_on,
        Act::Beacon(_) | Act::Save | Act::Extended(_) | Act::Spin(_) => {}
    }
}
