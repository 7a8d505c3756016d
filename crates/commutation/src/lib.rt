//! Commutation: which legs each of the six sectors drives, in which order the sectors come, and when the next one is
//! due after a zero crossing.
//!
//! Times are in ticks of 48 MHz.
#![tactic(auto)]

mod sectors;
mod timing;

pub use sectors::{pair, sector_next};
pub use timing::Timing;
