//! What the programs share: a standard output whose reader may go away; and for those that write traces a writer whose traces the
//! simulator's reader accepts, the words of a line, and times with units.
#![tactic(auto)]

mod end_line;
mod number;
mod pipe;
mod put;
mod words;
mod writer;

pub use number::{Decimal, LAST_TICK, decimal_in, duration_in, power_of_ten};
pub use pipe::PipeEnd;
pub use put::tick_of;
pub use words::Words;
pub use writer::{Unwritten, Writer};
