//! Servo pulses: the verdict on a burst of two edges, and the throttle value of a pulse's width.
#![tactic(auto)]

mod servo;
mod width;

pub use servo::{InputKind, Servo};
pub use width::{pulse, value_of};
