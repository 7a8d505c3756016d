//! The notes of a step.
ghost use Rattle.std.specs.Prelude.{◌≡◌, [], ◌∷◌, ◌++◌, List};
ghost use Rattle.std.specs.Option.{option_to_list};
ghost use Rattle.interrupt_machine.specs.Did.{notes_in};

use esc_base::Note;
use interrupt_machine::Own;

pub(crate) fn no_note() -> Own
    ensures { notes_in result ≡ [] }
{
    Own::None
}

pub(crate) fn one_note(note: Note) -> Own
    ensures { notes_in result ≡ note ∷ [] }
{
    Own::One(note)
}

pub(crate) fn note_and(note: Note, then: Option<Note>) -> Own
    ensures { notes_in result ≡ note ∷ option_to_list then }
{
    match then {
        None => Own::One(note),
        Some(second) => Own::Two(note, second),
    }
}
