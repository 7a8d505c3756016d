//! Where the fields of the block stand, what they may hold, and what they hold by default.
ghost use Rattle.std.specs.Prelude.{◌≡◌, ◌<◌};
ghost use Rattle.settings_block.specs.Field.{allows, marker_row, version_row, direction_row, three_d_row, complementary_row, advance_row, poles_row, low_row, high_row, neutral_row, dead_band_row, input_row};

/// A field of one byte: `least` to `most`, in steps from 0 on.
#[derive(Clone, Copy, Drop)]
pub(crate) struct Field {
    pub offset: u8,
    pub least: u8,
    pub most: u8,
    pub step: u8,
    pub default: u8,
}

/// The byte that says that there is a block.
pub(crate) const MARKER: Field = Field {
    offset: 0,
    least: 1,
    most: 1,
    step: 1,
    default: 1,
};

/// The block's version.
pub(crate) const VERSION: Field = Field {
    offset: 1,
    least: 1,
    most: 1,
    step: 1,
    default: 1,
};

/// Which way the motor turns.
pub(crate) const DIRECTION: Field = Field {
    offset: 17,
    least: 0,
    most: 1,
    step: 1,
    default: 0,
};

/// Whether throttle has a forward and a reverse half.
pub(crate) const THREE_D: Field = Field {
    offset: 18,
    least: 0,
    most: 1,
    step: 1,
    default: 0,
};

/// Whether the other switch of the chopping leg is on while its high switch is off.
pub(crate) const COMPLEMENTARY: Field = Field {
    offset: 20,
    least: 0,
    most: 1,
    step: 1,
    default: 0,
};

/// The advance level of the commutation.
pub(crate) const ADVANCE: Field = Field {
    offset: 23,
    least: 0,
    most: 3,
    step: 1,
    default: 1,
};

/// The magnetic poles of the motor, an even number.
pub(crate) const POLES: Field = Field {
    offset: 27,
    least: 2,
    most: 64,
    step: 2,
    default: 14,
};

/// The low end of servo pulses: b stands for 2 b + 750 microseconds.
pub(crate) const LOW: Field = Field {
    offset: 32,
    least: 0,
    most: 255,
    step: 1,
    default: 128,
};

/// The high end of servo pulses: b stands for 2 b + 1750 microseconds.
pub(crate) const HIGH: Field = Field {
    offset: 33,
    least: 0,
    most: 255,
    step: 1,
    default: 128,
};

/// The middle of servo pulses: b stands for b + 1374 microseconds.
pub(crate) const NEUTRAL: Field = Field {
    offset: 34,
    least: 0,
    most: 255,
    step: 1,
    default: 128,
};

/// The dead band round the middle, in microseconds.
pub(crate) const DEAD_BAND: Field = Field {
    offset: 35,
    least: 0,
    most: 100,
    step: 1,
    default: 50,
};

/// The inputs that are allowed: 0 any, 1 DShot, 2 servo.
pub(crate) const INPUT: Field = Field {
    offset: 46,
    least: 0,
    most: 2,
    step: 1,
    default: 0,
};

impl Field {
    /// Whether the field may hold this byte.
    pub(crate) fn allows(&self, byte: u8) -> bool
        requires { 0 < self.now.step }
        ensures { result ≡ allows self.now byte }
    {
        self.least <= byte && byte <= self.most && byte % self.step == 0
    }
}

/// Each field has the table's row.
pub(crate) fn rows()
    ensures marker { MARKER ≡ marker_row }
    ensures version { VERSION ≡ version_row }
    ensures direction { DIRECTION ≡ direction_row }
    ensures three_d { THREE_D ≡ three_d_row }
    ensures complementary { COMPLEMENTARY ≡ complementary_row }
    ensures advance { ADVANCE ≡ advance_row }
    ensures poles { POLES ≡ poles_row }
    ensures low { LOW ≡ low_row }
    ensures high { HIGH ≡ high_row }
    ensures neutral { NEUTRAL ≡ neutral_row }
    ensures dead_band { DEAD_BAND ≡ dead_band_row }
    ensures input { INPUT ≡ input_row }
{}
