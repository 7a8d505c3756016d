//! The interrupt machine, for any firmware: in each step a higher interrupt kind that is due enters, or else the innermost
//! open handler makes one step of its own.
#![tactic(auto)]

mod firmware;
mod machine;
mod nest;
mod notes;
mod stack;

pub use firmware::{Did, Firmware, Own};
pub use machine::Machine;
pub use nest::Nest;
pub use notes::Notes;
