//! A run of the core on a trace of outside events: time, the step cost and stalls, the events, and the journal's lines.
#![tactic(auto)]

mod lines;
mod room;
mod runner;
mod start;
mod state;

pub use room::Room;
pub use state::{RunConfig, Runner, WriteFault};
