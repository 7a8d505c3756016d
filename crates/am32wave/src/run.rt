ghost use Rattle.std.specs.Prelude.{◌≡◌, ◌≢◌, ◌↔◌, ◌∷◌, ◌++◌, [], ℕ, List, All, Some, None, IfOk, OnErr};
ghost use Rattle.esc_base.specs.declared.note.Note.{Note as ANote};
ghost use Rattle.esc_base.specs.Outside.{Rose};
ghost use Rattle.esc_base.specs.Range.{InRange};
ghost use Rattle.esc_base.specs.declared.event.Event.{Event as AnEvent};
ghost use Rattle.trace_text.specs.Read.{Read, Trace};
ghost use Rattle.am32wave.specs.declared.run.Form.{Form as AForm};
ghost use Rattle.am32wave.specs.declared.view.Stretch.{Stretch as AStretch};
ghost use Rattle.am32wave.specs.declared.view.View.{View as AView};
ghost use Rattle.am32wave.specs.PageShown.{WrotePage};
ghost use Rattle.am32wave.specs.Pieces.{text, Fits};
ghost use Rattle.am32wave.specs.Merged.{TracedShown, IsTracedDoneOrFault, traced_plan};
ghost use Rattle.am32wave.specs.Shown.{form_of, FormFits, IsAfter, head_text, part_text, end_text, Shown, IsWriteFault, OnReadFault, OnTraceFault, OnWriteFault, IsDoneOrFault, IsJournal};

use crate::ahead::Merge;
use crate::drawing::Drawing;
use crate::explain::Explanation;
use crate::journal::Item;
use crate::moment::Moment;
use crate::pieces::{Page, put_pieces};
use crate::reader::Journal;
use crate::status::Status;
use crate::view::{Plan, Stretch, View};
use esc_base::{Failed, Note, Sink, Source};

/// How a journal is shown.
#[derive(Clone, Copy, Debug, PartialEq, Eq, Drop)]
pub enum Form {
    /// A stretch of it drawn.
    Drawn(View, Stretch),
    /// In words.
    Words,
}

/// What was shown so far.
#[derive(Clone, Copy, Drop)]
enum Report {
    Drawn(Drawing),
    Words(Explanation),
}

impl Report {
    fn new(form: Form) -> Report
        ensures form { form_of result ≡ form }
        ensures fits { FormFits form }
        ensures first { IsAfter result [] }
    {
        match form {
            Form::Drawn(view, stretch) => Report::Drawn(Drawing::new(Plan {
                view,
                stretch,
                is_traced: false,
            })),
            Form::Words => Report::Words(Explanation::new()),
        }
    }

    /// What stands before the first note's part.
    fn head(&self) -> Page
        requires { IsAfter self.now [] }
        ensures fits { All Fits result.items }
        ensures text { text result.items ≡ head_text (form_of self.now) }
    {
        match self {
            Report::Drawn(drawing) => drawing.head(),
            Report::Words(_) => Page::new(),
        }
    }

    /// A note's part.
    fn add(&mut self, note: &Note) -> Page
        requires { InRange note.now }
        ensures fits { All Fits result.items }
        ensures form { form_of self.new ≡ form_of self.old }
        ensures text { (notes : List ANote) → IsAfter self.old notes → text result.items ≡ part_text (form_of self.old) notes note.now }
        ensures goes_on { (notes : List ANote) → IsAfter self.old notes → IsAfter self.new (notes ++ note.now ∷ []) }
    {
        match self {
            Report::Drawn(drawing) => drawing.add(&Moment::Note(*note)),
            Report::Words(explanation) => explanation.add(note),
        }
    }

    /// What stands behind the last note's part.
    fn end(&self) -> Page
        ensures fits { All Fits result.items }
        ensures text { (notes : List ANote) → IsAfter self.now notes → text result.items ≡ end_text (form_of self.now) notes }
    {
        match self {
            Report::Drawn(drawing) => drawing.end(),
            Report::Words(explanation) => explanation.end(),
        }
    }
}

/// Reads a journal and writes it in this form. An `Err` is the sink's.
fn show<S: Source, K: Sink>(form: Form, src: &mut S, out: &mut K) -> Result<Status, Failed>
    ensures ok { IfOk result (λ s. Shown form s (S.left src.old) (S.left src.new) (K.given out.old) (K.given out.new)) }
    ensures fits { FormFits form }
    ensures read_fault { IfOk result (λ s. OnReadFault s (Rose (S.faults src.old) (S.faults src.new))) }
    ensures no_write_fault { IfOk result (λ s. OnWriteFault s ⊥) }
    ensures usage { IfOk result (λ s. s ≢ Status.Usage) }
    ensures err { OnErr result (IsWriteFault form (S.left src.old) (K.given out.old) (K.given out.new)) }
    ensures write_fault { OnErr result (Rose (K.faults out.old) (K.faults out.new)) }
{
    let mut journal = Journal::new();
    let mut report = Report::new(form);
    put_pieces(report.head().as_slice(), out)?;
    loop {
        match journal.next(src) {
            Item::Note(note) => put_pieces(report.add(&note).as_slice(), out)?,
            Item::End => {
                put_pieces(report.end().as_slice(), out)?;
                return Ok(Status::Done);
            }
            Item::Fault => return Ok(Status::ReadFault),
            Item::Refused(kind) => {
                let line = journal.line() + 1;
                return Ok(Status::Refused { line, kind });
            }
        }
    }
}

/// Reads a journal from `src` and writes it to `out` in the form that was asked for. It is handed no allocator, so it takes
/// no memory.
pub fn wave_main<S: Source, K: Sink>(asked: Option<Form>, src: &mut S, out: &mut K) -> Status
    // Words that ask for nothing are refused, and no others, before anything is read or written.
    ensures usage { (result ≡ Status.Usage) ↔ (asked ≡ None) }
    ensures untouched { asked ≡ None → (src.new ≡ src.old) × (out.new ≡ out.old) }

    // What was read and written, by the status, where source and sink tell their bytes.
    ensures shown { (form : AForm) → asked ≡ Some form → Shown form result (S.left src.old) (S.left src.new) (K.given out.old) (K.given out.new) }

    // A whole page has no markup in its data, and that of a whole run tells its notes.
    ensures page { (stretch : AStretch) → asked ≡ Some (AForm.Drawn AView.Page stretch) → result ≡ Status.Done →
        WrotePage stretch (S.left src.old) (K.given out.old) (K.given out.new) }

    // Each fault is the source's or the sink's own, and without one a journal is shown to its end.
    ensures read_fault { OnReadFault result (Rose (S.faults src.old) (S.faults src.new)) }
    ensures write_fault { OnWriteFault result (Rose (K.faults out.old) (K.faults out.new)) }
    ensures done { (form : AForm) → asked ≡ Some form → (journal : List ℕ) → S.left src.old ≡ Some journal → IsJournal journal → IsDoneOrFault result }
{
    let Some(form) = asked else {
        return Status::Usage;
    };
    match show(form, src, out) {
        Ok(status) => status,
        Err(_) => Status::WriteFault,
    }
}

/// Reads a journal and its trace and draws both. An `Err` is the sink's.
fn show_traced<S: Source, T: Source, K: Sink>(
    plan: Plan,
    src: &mut S,
    trace: &mut T,
    out: &mut K,
) -> Result<Status, Failed>
    ensures ok { IfOk result (λ s. TracedShown plan s (S.left src.old) (S.left src.new) (T.left trace.old) (T.left trace.new) (K.given out.old) (K.given out.new)) }
    ensures read_fault { IfOk result (λ s. OnReadFault s (Rose (S.faults src.old) (S.faults src.new))) }
    ensures trace_fault { IfOk result (λ s. OnTraceFault s (Rose (T.faults trace.old) (T.faults trace.new))) }
    ensures no_write_fault { IfOk result (λ s. s ≢ Status.WriteFault) }
    ensures err { OnErr result (TracedShown plan Status.WriteFault (S.left src.old) (S.left src.new) (T.left trace.old) (T.left trace.new)
        (K.given out.old) (K.given out.new)) }
    ensures write_fault { OnErr result (Rose (K.faults out.old) (K.faults out.new)) }
{
    let mut merge = Merge::new();
    let mut drawing = Drawing::new(plan);
    put_pieces(drawing.head().as_slice(), out)?;
    loop {
        match merge.next(src, trace) {
            Ok(Some(moment)) => put_pieces(drawing.add(&moment).as_slice(), out)?,
            Ok(None) => {
                put_pieces(drawing.end().as_slice(), out)?;
                return Ok(Status::Done);
            }
            Err(status) => return Ok(status),
        }
    }
}

/// Reads a journal from `src` and its trace from `trace`, and draws the stretch of both to `out` in this view. It is handed no
/// allocator, so it takes no memory.
pub fn traced_main<S: Source, T: Source, K: Sink>(
    view: View,
    stretch: Stretch,
    src: &mut S,
    trace: &mut T,
    out: &mut K,
) -> Status
    // What was read and written, by the status, where the sources and the sink tell their bytes.
    ensures shown { TracedShown (traced_plan view stretch) result (S.left src.old) (S.left src.new) (T.left trace.old) (T.left trace.new) (K.given out.old) (K.given out.new) }

    // Each fault is the source's or the sink's own, and without one a journal and a trace are shown to their ends.
    ensures read_fault { OnReadFault result (Rose (S.faults src.old) (S.faults src.new)) }
    ensures trace_fault { OnTraceFault result (Rose (T.faults trace.old) (T.faults trace.new)) }
    ensures write_fault { OnWriteFault result (Rose (K.faults out.old) (K.faults out.new)) }
    ensures done { (journal text : List ℕ) (events : List AnEvent) (end : ℕ) → S.left src.old ≡ Some journal → IsJournal journal →
        T.left trace.old ≡ Some text →
        Read text ≡ Trace events end → IsTracedDoneOrFault result }
{
    let plan = Plan {
        view,
        stretch,
        is_traced: true,
    };
    match show_traced(plan, src, trace, out) {
        Ok(status) => status,
        Err(_) => Status::WriteFault,
    }
}
