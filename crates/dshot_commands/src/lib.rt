//! The special commands of a DShot frame: which of them act, and after how many equal frames.
//!
//! A throttle value from 1 to 47 is a command. The numbers and what they ask for are those of the
//! public DShot description; how often a command has to be repeated is this project's own rule.
#![tactic(auto)]

mod act;
mod repeats;

pub use act::Act;
pub use repeats::Repeats;
