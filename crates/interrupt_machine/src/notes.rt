ghost use Rattle.std.specs.Prelude.{◌≡◌, ◌<◌, ◌≤◌, ◌+◌, ◌∷◌, ◌++◌, [], length};

use esc_base::{Note, Tick};
use std::marker::Model;

/// The notes of one step, at most six; with a gate change, two of its own and a return it has four. A run makes millions of steps and
/// keeps one such list, so unlike a list of the library's it leaves its unused places as they are.
#[derive(Drop)]
pub struct Notes {
    places: [Note; 6],
    len: usize,
}

impl Model for Notes {
    ghost use Rattle.std.specs.Prelude.{◌≡◌, ◌≤◌, length, take};
    ghost use Rattle.esc_base.specs.declared.note.Note.{Note as ANote};
    ghost use Rattle.arrayvec.specs.ArrayVec.{ArrayVec};

    ghost Value = { ArrayVec ANote };

    ghost view = { λ n. record { items = take n.len n.places } };

    ghost invariant = { λ n. (n.len ≤ 6) × (length n.places ≡ 6) };
}

impl Notes {
    /// No note.
    pub fn new() -> Notes
        ensures { result.items ≡ [] }
    {
        Notes {
            places: [Note::Cross { t: Tick(0) }; 6],
            len: 0,
        }
    }

    /// The notes, in order.
    pub fn as_slice(&self) -> &[Note]
        ensures value { result.now ≡ self.now.items }
        ensures fits { length result.now ≤ 6 }
    {
        &self.places[..self.len]
    }

    /// Appends a note.
    pub fn push(&mut self, note: Note)
        requires { length self.old.items < 6 }
        ensures items { self.new.items ≡ self.old.items ++ note ∷ [] }
        ensures len { length self.new.items ≡ length self.old.items + 1 }
    {
        self.places[self.len] = note;
        self.len += 1;
    }

    /// Takes all notes away.
    pub fn clear(&mut self)
        ensures { self.new.items ≡ [] }
    {
        self.len = 0;
    }
}
