ghost use Rattle.std.specs.Prelude.{⊤, [], ◌∷◌, codes};

use bitflags::{Flag, Flags, bitflag_items};

/// The marks of a control tick.
#[derive(Clone, Copy, Debug, PartialEq, Eq)]
pub struct Marks(u8);

bitflag_items! {
    impl Marks: u8 {
        /// Sixty forced sector changes stood in a row: the motor doesn't turn.
        const STUCK = 1;
        /// A watcher of the gates has tripped.
        const FUSE = 2;
        /// A four-way session is active.
        const SESSION = 4;
    }
}

impl Flags for Marks {
    type Bits = u8;

    ghost exact = { ⊤ };

    ghost table = { (codes "STUCK", 1) ∷ (codes "FUSE", 2) ∷ (codes "SESSION", 4) ∷ [] };

    ghost set_of = { λ marks. marks.0 };

    fn flags<'a>() -> &'a [Flag<Marks>] {
        Marks::FLAGS
    }

    fn bits(&self) -> u8 {
        self.0
    }

    fn from_bits_retain(bits: u8) -> Marks {
        Marks(bits)
    }
}
