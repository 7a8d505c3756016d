/// A moment, in ticks of 48 MHz: 48 ticks are one microsecond.
#[derive(Clone, Copy, Debug, PartialEq, Eq, PartialOrd, Ord, Drop)]
pub struct Tick(pub u64);
