//! The laws of a journal. What they are stands in `specs`; the functions here do nothing: their contracts show what the laws
//! refuse, and that they don't refuse all.
#![tactic(auto)]

mod drive_laws;
mod log_laws;
mod shown;
mod signal_laws;

pub use drive_laws::duty_is_kept;
pub use log_laws::log_is_fixed;
pub use shown::{
    activations_refuse, calls_begin, chopping_refuses, control_refuses, crossed_turns_refuse,
    crossings_refuse, drive_refuses, flash_refuses, gates_refuse, nesting_refuses, replies_refuse,
    reply_windows_refuse, searches_refuse, some_are_chopped, some_are_legal, some_are_replied,
    some_flashes_fit, some_windows_open, steps_refuse, turns_refuse, windows_refuse,
};
pub use signal_laws::{
    cap_opens_window, first_rested_tick, frame_is_replied, reply_has_frame, rest_calls_cap,
    sent_frame_is_read, whole_signal_is_heard,
};
