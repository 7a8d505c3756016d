//! The steps of each interrupt handler, one register access a step.
mod cap;
mod cmp;
mod comm;
mod main;
mod pwm;
mod tick;
mod uart;

pub use cap::Listening;
