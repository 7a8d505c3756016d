//! Packets of the four-way protocol, by which a configurator reads and writes the controller's flash: they are cut
//! from the serial bytes, checked, and answered.
//!
//! A request is 0x2F, command, address, length, parameters, CRC, and its reply 0x2E, command, address, length,
//! parameters, acknowledgement, CRC. Addresses and CRCs have two bytes, the high one first. Length 0 stands for 256
//! parameters, and there is always one. The CRC covers all bytes before it.
#![tactic(auto)]

mod ack;
mod admitted;
mod answering;
mod command;
mod crc;
mod flash;
mod packet;
mod packets;
mod params;
mod part;
mod reply;

pub use ack::Ack;
pub use answering::{Session, answer};
pub use command::Command;
pub use crc::crc16;
pub use packet::Packet;
pub use packets::{Packets, Received};
pub use params::Params;
pub use reply::{Reply, reply_bytes};
