//! The proved part of `am32sim`: a motor speed controller's control core, run on a trace of outside events.
#![tactic(auto)]

mod options;
mod run;
mod show;
mod status;
mod words;

pub use options::{Command, Options};
pub use run::sim_main;
pub use status::{Status, status_text};
pub use words::{Asked, Words};
