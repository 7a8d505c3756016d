ghost use Rattle.std.specs.Prelude.{◌≡◌};
ghost use Rattle.esc_base.specs.Numbers.{kind_number};

/// The seven interrupt kinds, from the lowest priority to the highest.
#[derive(Clone, Copy, Debug, PartialEq, Eq, Drop)]
pub enum Kind {
    /// Saves the settings and answers serial packets.
    Main,
    /// Takes a received serial byte, or sends one.
    Uart,
    /// The control tick.
    Tick,
    /// Judges a captured window of the signal line.
    Cap,
    /// The comparator: blanking, filter and zero crossing.
    Cmp,
    /// Chops the high switch.
    Pwm,
    /// Changes the sector.
    Comm,
}

impl Default for Kind {
    fn default() -> Self {
        Kind::Main
    }
}

impl Kind {
    /// The priority, 0 to 6, which is also the number that a journal's line shows.
    pub fn number(self) -> u8
        ensures { result ≡ kind_number self }
    {
        match self {
            Kind::Main => 0,
            Kind::Uart => 1,
            Kind::Tick => 2,
            Kind::Cap => 3,
            Kind::Cmp => 4,
            Kind::Pwm => 5,
            Kind::Comm => 6,
        }
    }
}
