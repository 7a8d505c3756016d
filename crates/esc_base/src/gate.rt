/// A half-bridge of the motor's three.
#[derive(Clone, Copy, Debug, PartialEq, Eq, Drop)]
pub enum Leg {
    A,
    B,
    C,
}

/// The switches that are on: bit 0 is leg A, bit 1 leg B, bit 2 leg C.
#[derive(Clone, Copy, Debug, PartialEq, Eq, Drop)]
pub struct GateWord {
    /// The switches to the supply, 0 to 7.
    pub hi: u8,
    /// The switches to ground, 0 to 7.
    pub lo: u8,
}

/// One of the six steps of a commutation, 1 to 6.
#[derive(Clone, Copy, Debug, PartialEq, Eq, Drop)]
pub struct Sector(pub u8);

/// The bytes of a settings block.
#[derive(Clone, Copy, Debug, PartialEq, Eq, Drop)]
pub struct Block48(pub [u8; 48]);
