//! The control core: what each activation of an interrupt handler does, one register access a step.
#![tactic(auto)]

mod drive;
mod firmware;
mod handlers;
mod notes;
mod orders;
mod reply;
mod serial;
mod state;

pub use drive::Drive;
pub use handlers::Listening;
pub use orders::Orders;
pub use serial::Serial;
pub use state::{CapAt, CmpAt, CommAt, Core, MainAt, PwmAt, TickAt, UartAt};
