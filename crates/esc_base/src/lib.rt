//! The words that every layer speaks of: ticks, interrupt kinds, signal modes, notes of a journal, events of a
//! trace, and the traits through which a run reaches the outside.
#![tactic(auto)]

mod cells;
mod event;
mod file_flash;
mod flash;
mod gate;
mod kind;
mod memory;
mod note;
mod outside;
mod periods;
mod signal;
mod stdio;
mod tick;

pub use event::{Arrived, Event, Received};
pub use file_flash::FileFlash;
pub use flash::{FlashDev, FlashOp, MemFlash};
pub use gate::{Block48, GateWord, Leg, Sector};
pub use kind::Kind;
pub use memory::{MemSink, MemSource};
pub use note::{Cause, Note};
pub use outside::{Failed, NoMemory, Sink, Source, raised};
pub use periods::edges_are_counted;
pub use signal::{Edge, Frame, Mode, Verdict, Why};
pub use stdio::{InSource, OutSink};
pub use tick::Tick;
