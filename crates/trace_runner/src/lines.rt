//! The lines of notes, each in one call of the sink.
ghost use Rattle.std.specs.Prelude.{◌≡◌, ◌≤◌, OnOk, OnErr, All};
ghost use Rattle.std.specs.Io.KnownBytes.{append_known};
ghost use Rattle.esc_base.specs.Outside.{Rose};
ghost use Rattle.esc_base.specs.Range.{InRange};
ghost use Rattle.trace_text.specs.Text.{Text};
ghost use Rattle.trace_runner.specs.Lines.{TookLines, BrokeLines};

use crate::WriteFault;
use esc_base::{Note, Sink};
use trace_text::{Line, write_note};

#[inline(always)]
fn put_all<K: Sink>(notes: &[Note], line: &mut Line, out: &mut K) -> Result<(), WriteFault>
    requires { All InRange notes.now }
    ensures took { OnOk result (TookLines K.took out.old notes.now out.new) }
    ensures given { OnOk result (K.given out.new ≡ append_known (K.given out.old) (Text notes.now)) }
    ensures broke { OnErr result (BrokeLines K.given K.took K.broke out.old notes.now out.new) }
    ensures no_fewer { K.faults out.old ≤ K.faults out.new }
    ensures failed { OnErr result (Rose (K.faults out.old) (K.faults out.new)) }
{
    for note in notes {
        write_note(line, note);
        out.put(line.as_bytes())?;
    }
    Ok(())
}

/// Writes the notes' lines, in a buffer that the caller keeps. Most steps have no note.
#[inline(always)]
pub(crate) fn put_notes<K: Sink>(
    notes: &[Note],
    line: &mut Line,
    out: &mut K,
) -> Result<(), WriteFault>
    requires { All InRange notes.now }
    ensures took { OnOk result (TookLines K.took out.old notes.now out.new) }
    ensures given { OnOk result (K.given out.new ≡ append_known (K.given out.old) (Text notes.now)) }
    ensures broke { OnErr result (BrokeLines K.given K.took K.broke out.old notes.now out.new) }
    ensures no_fewer { K.faults out.old ≤ K.faults out.new }
    ensures failed { OnErr result (Rose (K.faults out.old) (K.faults out.new)) }
{
    if notes.is_empty() {
        return Ok(());
    }
    put_all(notes, line, out)
}
