//! The proved part of `am32wave`: a journal of `am32sim` as a wave, a page, a still picture, or in words.
#![tactic(auto)]

mod ahead;
mod drawing;
mod explain;
mod journal;
mod laws;
mod levels;
mod merge;
mod moment;
mod next;
mod page;
mod picture;
mod pieces;
mod reader;
mod run;
mod scene;
mod script;
mod sentence;
mod status;
mod still;
mod tally;
mod view;
mod wire;

pub use journal::Refusal;
pub use laws::{gates_follow_notes, levels_follow_events, page_has_no_markup, page_tells_journal};
pub use run::{Form, traced_main, wave_main};
pub use status::{Status, status_text};
pub use view::{Stretch, View};
