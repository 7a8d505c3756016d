//! The zero crossing of a sector, found from the comparator of the leg that isn't driven.
//!
//! After a sector change the comparator says nothing of use for a while: that is blanking. Then a crossing is looked
//! for, and taken once the comparator has had the sector's expected level, without a change, for the length of a
//! filter. A sector that goes on for too long without one is ended by force. Times are in ticks of 48 MHz.
#![tactic(auto)]

mod crossing;
mod phase;

pub use crossing::Crossing;
pub use phase::{Next, Phase};
