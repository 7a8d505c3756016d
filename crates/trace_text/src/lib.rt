//! Traces and journals as text: a reader of traces, line by line, and the lines of notes and events.
#![tactic(auto)]

mod event_line;
mod field;
mod held;
mod item;
mod laws;
mod lines;
mod note_back;
mod note_line;
mod note_parse;
mod parse;
mod piece;
mod plain;
mod reader;
mod write;

pub use event_line::event_text;
pub use field::number_in;
pub use item::{Item, Place, Refusal};
pub use laws::one_journal;
pub use note_back::note_read;
pub use note_line::{note_text, write_note};
pub use piece::Held;
pub use reader::Lines;
pub use write::Line;
