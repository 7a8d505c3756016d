//! The capture of one window: which edges of the signal line it hears, and when it closes.
#![tactic(auto)]

mod burst;
mod capture;
mod modes;

pub use burst::Burst;
pub use capture::{Capture, Heard};
pub use esc_base::Edge;
pub use modes::{ModeNumbers, mode_numbers};
