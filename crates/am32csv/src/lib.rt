//! The proved part of `am32csv`: a logic analyser's capture of the signal line, as a trace for `am32sim`.
#![tactic(auto)]

mod capture;
mod clock;
mod expected;
mod layout;
mod replies;
mod run;
mod status;

pub use expected::Expected;
pub use layout::{Clock, Layout, Rate};
pub use run::csv_main;
pub use status::Status;
