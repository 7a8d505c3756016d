//! What a burst of edges is: in a window whose mode is known a frame or a pulse, else a signal mode that is detected.
#![tactic(auto)]

mod search;
mod window;

pub use search::{Seen, detect, is_good_in};
pub use window::{Judgement, judge};
