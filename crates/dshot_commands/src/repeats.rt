//! How often a command has come in a row.
ghost use Rattle.std.specs.Prelude.{◌≡◌, ◌∷◌, [], List, IfSome};
ghost use Rattle.dshot_commands.specs.Act.{acting, number_of, IsInRange};
ghost use Rattle.dshot_commands.specs.Repeats.{is_command, no_run, run_after, run_back, Counts, Heard};

use crate::Act;
use std::marker::Model;

/// Counts how often the newest command has come in a row.
///
/// A frame is *still* where the motor is armed and its demand is 0. Only still frames with a command
/// count, and any other frame ends the run. Runs of more than six frames behave alike, and are kept
/// as seven.
#[derive(Drop)]
pub struct Repeats {
    command: u16,
    frames: u8,
}

impl Model for Repeats {
    ghost use Rattle.std.specs.Prelude.{◌≤◌};
    ghost use Rattle.dshot_commands.specs.Repeats.{Run};

    ghost Value = { Run };

    ghost view = { λ r. record { command = r.command; frames = r.frames } };

    ghost invariant = { λ r. r.frames ≤ 7 };
}

impl Repeats {
    /// No frame has come yet.
    pub fn new() -> Repeats
        ensures run { result ≡ no_run }
        ensures counts { Counts result [] }
    {
        Repeats {
            command: 0,
            frames: 0,
        }
    }

    /// Counts a good frame with this value, and answers what its command asks for where this frame makes it
    /// act: a beacon's first equal still frame in a row, another command's sixth.
    pub fn frame(&mut self, value: u16, still: bool) -> Option<Act>
        ensures run { self.new ≡ run_after self.old value still }
        ensures act { result ≡ acting self.new.frames value }

        // Over all frames so far: the command acts by the equal still frames in a row, up to this one.
        ensures counts { (frames : List Heard) → Counts self.old frames →
            Counts self.new (record { value = value; still = still } ∷ frames) }
        ensures acts { (frames : List Heard) → Counts self.old frames →
            result ≡ acting (run_back value (record { value = value; still = still } ∷ frames)) value }

        ensures number { IfSome result (λ act. number_of act ≡ value) }
        ensures in_range { IfSome result IsInRange }
    {
        self.count(value, still);
        Act::after(self.frames, value)
    }

    /// Ends the run.
    pub fn reset(&mut self)
        ensures run { self.new ≡ no_run }
        ensures counts { Counts self.new [] }
    {
        *self = Repeats::new();
    }

    fn count(&mut self, value: u16, still: bool)
        ensures { self.new ≡ run_after self.old value still }
    {
        if !still || !is_special(value) {
            self.reset();
        } else if self.command == value {
            self.frames = (self.frames + 1).min(7);
        } else {
            self.command = value;
            self.frames = 1;
        }
    }
}

/// Whether a frame's value is a command.
fn is_special(value: u16) -> bool
    ensures { result ≡ is_command value }
{
    matches!(value, 1..=47)
}
