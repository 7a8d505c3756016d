//! DShot frames: the verdict on a burst of edges, and the word of a frame.
//!
//! A frame is 16 bits, most significant first: eleven of value, one that asks for telemetry, and four of checksum.
//! Each bit is an active part, long for a one and short for a zero, and a rest. An inverted frame is active low and
//! carries the complement of the checksum.
#![tactic(auto)]

mod checksum;
mod judge;
mod word;

pub use judge::verdict;
pub use word::{encode, jitter_limit};
