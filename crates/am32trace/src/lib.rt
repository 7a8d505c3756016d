//! The proved part of `am32trace`: the script of a flight, as a trace for `am32sim`.
#![tactic(auto)]

mod action;
mod comparator;
mod expected;
mod flight;
mod frame_edges;
mod frame_out;
mod grammar;
mod laws;
mod line_reader;
mod noise;
mod packet;
mod run;
mod script;
mod script_lines;
mod serial_line;
mod signal_line;
mod status;

pub use expected::Expected;
pub use grammar::{Grammar, ScriptWords};
pub use laws::messages_keep_the_beat;
pub use run::trace_main;
pub use status::Status;
