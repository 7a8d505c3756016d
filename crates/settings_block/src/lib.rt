//! The settings and their block of 48 bytes at the front of the flash's last page.
#![tactic(auto)]

mod block;
mod field;
mod settings;
mod stored;

pub use block::{BlockFault, default_block, read_block, write_block};
pub use settings::{Settings, apply, servo_of};
pub use stored::{FlashFault, Loaded, load, save};
