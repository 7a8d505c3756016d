//! The gates of the three half-bridges, and the programs that switch them: all off, a change of sector, and chopping.
//! Each program makes at most one access to the registers a step, and never turns a switch on whose leg's other switch
//! is on or went off within the dead time, 48 ticks of 48 MHz.
#![tactic(auto)]

mod all_off;
mod chop;
mod gates;
mod progress;
mod to_sector;

pub use all_off::AllOff;
pub use chop::Chop;
pub use gates::Gates;
pub use progress::Progress;
pub use to_sector::{ChangeAt, ToSector};
