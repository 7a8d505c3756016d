//! The registers of the controller: its capture, its timers, its interrupt mask, and which interrupt
//! kinds are due.
#![tactic(auto)]

mod access;
mod comparator;
mod due;
mod events;
mod kinds;
mod next_due;
mod regs;
mod reply;
mod timers;
mod uart;

pub use kinds::KindSet;
pub use regs::{Reg, Regs};
