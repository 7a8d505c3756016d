//! Replies of bidirectional DShot: an electrical period as 21 bits of the signal line.
//!
//! A period in microseconds becomes twelve bits, `eeemmmmmmmmm`, which with a check nibble are a word of 16. Each
//! nibble becomes a group of five bits (GCR, group coded recording), and the line changes where a GCR bit is 1. This
//! is the reply of the public DShot description.
#![tactic(auto)]

mod groups;
mod line;
mod period;
mod reply;

pub use groups::gcr;
pub use line::{line_bits, unline};
pub use period::payload;
pub use reply::reply_bits;
