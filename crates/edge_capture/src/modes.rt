ghost use Rattle.std.specs.Prelude.{◌≡◌, ◌≤◌};
ghost use Rattle.edge_capture.specs.Modes.{numbers, dshot as dshot_numbers};

use esc_base::Mode;

/// What sets a signal mode apart. Times are ticks of 48 MHz.
#[derive(Clone, Copy, Drop)]
pub struct ModeNumbers {
    /// The length of a frame's bit, 160 or 80; 0 in a mode without frames.
    pub bit: u32,
    /// Whether a bit's active level is low.
    pub inverted: bool,
    /// How long a window waits for a further edge where a pulse may be high: after an odd number of heard
    /// edges, the last of which rises.
    pub idle_while_high: u32,
    /// How long it waits elsewhere.
    pub idle: u32,
    /// The number of heard edges with which a window closes at once, 2 or 32.
    pub most_edges: usize,
    /// Whether a window hears falling edges before its first rising one.
    pub falling_first: bool,
}

/// The numbers of a mode: DShot sends 300,000 or 600,000 bits a second, 16 bits a frame, and a servo
/// pulse is one rising and one falling edge.
pub fn mode_numbers(mode: Mode) -> ModeNumbers
    ensures table { result ≡ numbers mode }
    ensures room { result.most_edges ≤ 32 }
    ensures high { result.idle_while_high ≤ 120000 }
    ensures elsewhere { result.idle ≤ 120000 }
{
    match mode {
        Mode::Unknown => ModeNumbers {
            bit: 0,
            inverted: false,
            idle_while_high: 120000,
            idle: 4000,
            most_edges: 32,
            falling_first: true,
        },
        Mode::D300 => dshot(160, false),
        Mode::D600 => dshot(80, false),
        Mode::D300Inv => dshot(160, true),
        Mode::D600Inv => dshot(80, true),
        Mode::Servo => ModeNumbers {
            bit: 0,
            inverted: false,
            idle_while_high: 120000,
            idle: 120000,
            most_edges: 2,
            falling_first: false,
        },
    }
}

// A mode of DShot frames, in which a rest of two bits ends a frame.
fn dshot(bit: u32, inverted: bool) -> ModeNumbers
    requires { bit ≤ 160 }
    ensures { result ≡ dshot_numbers bit inverted }
{
    ModeNumbers {
        bit,
        inverted,
        idle_while_high: 2 * bit,
        idle: 2 * bit,
        most_edges: 32,
        falling_first: true,
    }
}
