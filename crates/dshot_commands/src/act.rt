//! What a command asks for.
ghost use Rattle.std.specs.Prelude.{◌≡◌, Some, IfSome};
ghost use Rattle.dshot_commands.specs.Act.{act_of, acting, frames_needed, number_of, IsInRange};

/// What a special command asks for, by the public DShot description.
#[derive(Clone, Copy, Debug, PartialEq, Eq, Drop)]
pub enum Act {
    /// Commands 1 to 5: the beacon with that number, 1 to 5.
    Beacon(u8),
    /// Commands 7 and 8: spin direction 1 and 2, kept as 0 and 1.
    Direction(u8),
    /// Commands 9 and 10: 3D mode off and on.
    ThreeD(bool),
    /// Command 12: save the settings.
    Save,
    /// Commands 13 and 14: extended telemetry on and off.
    Extended(bool),
    /// Commands 20 and 21: spin normal and reversed, kept as 0 and 1.
    Spin(u8),
}

impl Act {
    /// The number of the command that asks for this, 1 to 21.
    pub fn number(&self) -> u8
        ensures number { result ≡ number_of self.now }
        ensures inverse { IsInRange self.now → act_of result ≡ Some self.now }
    {
        match self {
            Act::Beacon(beacon) => *beacon,
            Act::Direction(0) => 7,
            Act::Direction(_) => 8,
            Act::ThreeD(false) => 9,
            Act::ThreeD(true) => 10,
            Act::Save => 12,
            Act::Extended(true) => 13,
            Act::Extended(false) => 14,
            Act::Spin(0) => 20,
            Act::Spin(_) => 21,
        }
    }

    /// What the command does at this frame, counted from 1 among the equal still frames in a row, or `None` where it doesn't act.
    pub(crate) fn after(frames: u8, number: u16) -> Option<Act>
        ensures act { result ≡ acting frames number }
        ensures number { IfSome result (λ act. number_of act ≡ number) }
        ensures in_range { IfSome result IsInRange }
    {
        let act = Act::of_number(number)?;
        if frames == act.frames_needed() {
            Some(act)
        } else {
            None
        }
    }

    /// What the command with this number asks for, or `None` where it never acts.
    fn of_number(number: u16) -> Option<Act>
        ensures { result ≡ act_of number }
    {
        match number {
            1..=5 => Some(Act::Beacon(number as u8)),
            7 => Some(Act::Direction(0)),
            8 => Some(Act::Direction(1)),
            9 => Some(Act::ThreeD(false)),
            10 => Some(Act::ThreeD(true)),
            12 => Some(Act::Save),
            13 => Some(Act::Extended(true)),
            14 => Some(Act::Extended(false)),
            20 => Some(Act::Spin(0)),
            21 => Some(Act::Spin(1)),
            _ => None,
        }
    }

    /// The frame, among the equal still frames in a row, at which it acts.
    fn frames_needed(&self) -> u8
        ensures { result ≡ frames_needed self.now }
    {
        match self {
            Act::Beacon(_) => 1,
            _ => 6,
        }
    }
}
