ghost use Rattle.std.specs.Prelude.{◌≡◌, ◌∷◌, [], Some, IfSome, drop};
ghost use Rattle.esc_base.specs.Range.{InRange};
ghost use Rattle.esc_base.specs.declared.note.Note.{Note as ANote};
ghost use Rattle.trace_text.specs.Text.{note_bytes};
ghost use Rattle.trace_text.specs.NoteRead.{word_at, behind};

use crate::field::{number_in, split_field};
use crate::note_line::note_text;
use crate::note_parse::note;
use esc_base::{Note, Tick};

/// The next word, empty where there is none, and the rest after it, if there is one.
fn next_word(rest: Option<&[u8]>) -> (&[u8], Option<&[u8]>)
    ensures word { result.0.now ≡ word_at 0 (behind rest.entry) }
    ensures rest { behind result.1 ≡ drop 1 (behind rest.entry) }
{
    match rest {
        Some(rest) => split_field(rest),
        None => (&[], None),
    }
}

/// The one note in range that may have this line.
fn candidate(bytes: &[u8]) -> Option<Note>
    ensures in_range { IfSome result InRange }
    ensures every { (n : ANote) → InRange n → note_bytes n ≡ bytes.now → result ≡ Some n }
{
    if bytes.is_empty() {
        return None;
    }
    let (letter, rest) = next_word(Some(&bytes[..bytes.len() - 1]));
    if letter.len() != 1 {
        return None;
    }
    let (time, rest) = next_word(rest);
    let t = number_in(time, 0, u32::MAX)?;
    let (a, rest) = next_word(rest);
    let (b, rest) = next_word(rest);
    let (c, _) = next_word(rest);
    note(letter[0], Tick(u64::from(t)), a, b, c)
}

/// The note in range whose line this is, with its line feed; `None` exactly where it is the line of no note in range.
pub fn note_read(bytes: &[u8]) -> Option<Note>
    ensures found { IfSome result (λ n. InRange n × (note_bytes n ≡ bytes.now)) }
    ensures every { (n : ANote) → InRange n → note_bytes n ≡ bytes.now → result ≡ Some n }
{
    let note = candidate(bytes)?;
    if note_text(&note).as_bytes() == bytes {
        Some(note)
    } else {
        None
    }
}
