ghost use Rattle.std.specs.Prelude.{◌≡◌};
ghost use Rattle.dshot_commands.specs.Act.{IsInRange as IsAct};
ghost use Rattle.esc_core.specs.Orders.{first_orders, obeyed, is_forward as turns_forward};

use dshot_commands::Act;
use settings_block::{Settings, apply};

/// The settings, and what commands have asked for since the start.
#[derive(Clone, Copy, Drop)]
pub struct Orders {
    /// Those in memory. A save writes them as they are when it is made.
    pub settings: Settings,
    /// The spin, 0 normal or 1 reversed. It isn't saved.
    pub spin: u8,
    /// Extended telemetry is asked for. It changes nothing yet.
    pub extended: bool,
    /// A save is asked for, and wasn't made since.
    pub save_asked: bool,
}

impl Orders {
    /// No command has acted.
    pub fn new(settings: Settings) -> Orders
        ensures { result ≡ first_orders settings }
    {
        Orders {
            settings,
            spin: 0,
            extended: false,
            save_asked: false,
        }
    }

    /// Whether sectors go forward: the direction of the settings and the spin are equal.
    pub fn is_forward(&self) -> bool
        ensures { result ≡ turns_forward self.now }
    {
        self.settings.direction == self.spin
    }

    /// A command acts. A save that is asked for while one waits is joined with it.
    pub(crate) fn obey(&mut self, act: Act)
        requires { IsAct act }
        ensures { self.new ≡ obeyed self.old act }
    {
        match act {
            Act::Beacon(_) => {}
            Act::Direction(_) | Act::ThreeD(_) => apply(&mut self.settings, act),
            Act::Save => self.save_asked = true,
            Act::Extended(is_on) => self.extended = is_on,
            Act::Spin(side) => self.spin = side,
        }
    }
}
