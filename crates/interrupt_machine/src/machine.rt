ghost use Rattle.std.specs.Prelude.{◌≡◌, ◌≢◌, ◌+◌, ◌<◌, ◌≤◌, ◌^◌, ◌++◌, ℕ, Bool, true, false, if◌then◌else◌, List, [], ◌∷◌, Option, Some, None, All, length};
ghost use Rattle.esc_base.specs.declared.kind.Kind.{Kind};
ghost use Rattle.esc_base.specs.Range.{InRange};
ghost use Rattle.esc_base.specs.Flash.{Told};
ghost use Rattle.interrupt_machine.specs.Did.{notes_in, notes_of};
ghost use Rattle.std.specs.List.{find};
ghost use Rattle.interrupt_machine.specs.Open.{innermost, is_open, due_now, highest, above_cap, up_to_cap, enters_above, next_entry, is_idle};
ghost use Rattle.interrupt_machine.specs.Response.{Moment, Passed, Responds};
ghost use Rattle.timer_regs.specs.Bank.{Bank};
ghost use Rattle.timer_regs.specs.Effects.{advanced};
ghost use Rattle.interrupt_machine.specs.Step.{MachineStepped};
ghost use Rattle.interrupt_machine.specs.Turn.{IsHeld, leave_note, gate_note};

use crate::stack::Stack;
use crate::{Did, Firmware, Nest, Notes, Own};
use esc_base::{FlashDev, GateWord, Kind, Note, Tick};
use std::marker::Model;
use timer_regs::Regs;

/// A firmware with its open handlers, which makes one step after the other.
///
/// A due kind that isn't open waits a bounded time: it is entered after at most 8 masked steps and one further step,
/// not counting entries and steps of higher kinds. With `Nest::One` only MAIN's own steps count, since an open handler
/// above MAIN goes on to its return before any kind enters. The clauses `response` promise this for a log of what happened:
/// `new` begins one, and each step, and each time that passes, adds to it what was open and due before and after.
#[derive(Drop)]
pub struct Machine<F: Firmware> {
    firmware: F,
    stack: Stack,
    nest: Nest,
}

impl<F: Firmware> Model for Machine<F> {
    ghost use Rattle.std.specs.Prelude.{◌≡◌, ◌<◌, true};
    ghost use Rattle.esc_base.specs.declared.kind.Kind.{Kind};
    ghost use Rattle.interrupt_machine.specs.Running.{Running};
    ghost use Rattle.interrupt_machine.specs.Open.{is_open};

    ghost Value = { Running F };

    ghost view = { λ m. record { firmware = m.firmware; open_kinds = m.stack; nest = m.nest } };

    ghost invariant = { λ m. (k : Kind) → is_open m.stack k ≡ true → 0 < F.left m.firmware k };
}

impl<F: Firmware> Machine<F> {
    /// The firmware with no handler open.
    pub fn new(firmware: F, nest: Nest) -> Machine<F>
        ensures firmware { result.firmware ≡ firmware }
        ensures none_open { result.open_kinds ≡ [] }
        ensures nest { result.nest ≡ nest }
        ensures response { (due : Kind → Bool) → Responds nest (F.hold firmware) false [] due [] }
    {
        Machine {
            firmware,
            stack: Stack::new(),
            nest,
        }
    }

    /// The firmware.
    pub fn firmware(&self) -> &F
        ensures { result.now ≡ self.now.firmware }
    {
        &self.firmware
    }

    /// How many handlers are open, 0 to 7. Each of them can still make a step of its own.
    pub fn depth(&self) -> usize
        ensures depth { result ≡ length self.now.open_kinds }
        ensures most { result ≤ 7 }
        ensures alive { (k : Kind) → is_open self.now.open_kinds k ≡ true → 0 < F.left self.now.firmware k }
    {
        self.stack.depth()
    }

    /// The highest due kind.
    fn due(&self, regs: &Regs) -> Option<Kind>
        ensures { result ≡ highest (due_now (F.waits self.now.firmware) regs.now) }
    {
        match due_above_cap(regs) {
            Some(kind) => Some(kind),
            None => self.due_up_to_cap(regs),
        }
    }

    /// The highest due kind of CAP and those below it.
    fn due_up_to_cap(&self, regs: &Regs) -> Option<Kind>
        ensures { result ≡ find (due_now (F.waits self.now.firmware) regs.now) up_to_cap }
    {
        if regs.is_due(Kind::Cap) {
            return Some(Kind::Cap);
        }
        if regs.is_due(Kind::Tick) {
            return Some(Kind::Tick);
        }
        if regs.is_due(Kind::Uart) {
            return Some(Kind::Uart);
        }
        if self.firmware.waiting() {
            return Some(Kind::Main);
        }
        None
    }

    /// Whether no handler is open and no kind is due.
    pub fn idle(&self, regs: &Regs) -> bool
        ensures { result ≡ is_idle self.now.open_kinds (due_now (F.waits self.now.firmware) regs.now) }
    {
        self.stack.depth() == 0 && self.due(regs).is_none()
    }

    /// Whether no handler is open and no kind is due, where the caller has asked already which kind enters.
    pub fn idle_with(&self, entry: Option<Kind>) -> bool
        ensures { (b : Bank) → (b.masked ≡ true → IsHeld (F.hold self.now.firmware) self.now.open_kinds)
            → entry ≡ (if b.masked then None else next_entry self.now.nest self.now.open_kinds (due_now (F.waits self.now.firmware) b))
            → result ≡ is_idle self.now.open_kinds (due_now (F.waits self.now.firmware) b) }
    {
        entry.is_none() && self.stack.depth() == 0
    }

    /// One step of the machine, at now, and its notes, at most six. The machine must not be idle. Where the mask is up, a
    /// handler is open and the firmware's `hold` isn't 0, and this is so again after the step.
    ///
    /// Where the mask is down and the highest due kind may enter, it is entered, with an I note, and the flash stays as it
    /// is. Else the innermost open handler makes a step of its own, with at most one access: a G note where the gates
    /// changed, then the handler's own notes, then an O note where it was the return.
    pub fn step<D: FlashDev>(&mut self, regs: &mut Regs, dev: &mut D) -> Notes
        requires busy { is_idle self.old.open_kinds (due_now (F.waits self.old.firmware) regs.old) ≡ false }
        requires mask { regs.old.masked ≡ true → IsHeld (F.hold self.old.firmware) self.old.open_kinds }
        requires count { regs.old.accesses < 2 ^ 63 }
        ensures { MachineStepped F.came F.made F.waits F.left F.hold self.old regs.old (D.told dev.old) result.items self.new regs.new (D.told dev.new) }
    {
        let mut notes = Notes::new();
        self.step_into(regs, dev, &mut notes);
        notes
    }

    /// As `step`, with the notes in a buffer that the caller keeps, since a run makes millions of steps.
    pub fn step_into<D: FlashDev>(&mut self, regs: &mut Regs, dev: &mut D, notes: &mut Notes)
        requires busy { is_idle self.old.open_kinds (due_now (F.waits self.old.firmware) regs.old) ≡ false }
        requires mask { regs.old.masked ≡ true → IsHeld (F.hold self.old.firmware) self.old.open_kinds }
        requires count { regs.old.accesses < 2 ^ 63 }
        ensures { MachineStepped F.came F.made F.waits F.left F.hold self.old regs.old (D.told dev.old) notes.new.items self.new regs.new (D.told dev.new) }
    {
        let entry = self.entry(regs);
        self.step_with(entry, regs, dev, notes);
    }

    /// As `step_into`, where the caller has asked already which kind enters.
    pub fn step_with<D: FlashDev>(
        &mut self,
        entry: Option<Kind>,
        regs: &mut Regs,
        dev: &mut D,
        notes: &mut Notes,
    )
        requires busy { is_idle self.old.open_kinds (due_now (F.waits self.old.firmware) regs.old) ≡ false }
        requires mask { regs.old.masked ≡ true → IsHeld (F.hold self.old.firmware) self.old.open_kinds }
        requires count { regs.old.accesses < 2 ^ 63 }
        requires entry { entry ≡ (if regs.old.masked then None
            else next_entry self.old.nest self.old.open_kinds (due_now (F.waits self.old.firmware) regs.old)) }
        ensures { MachineStepped F.came F.made F.waits F.left F.hold self.old regs.old (D.told dev.old) notes.new.items self.new regs.new (D.told dev.new) }
    {
        notes.clear();
        match entry {
            Some(kind) => self.enter(kind, regs, notes),
            None => self.own_step(regs, dev, notes),
        }
    }

    /// Lets time pass until a tick that isn't before now and is below 2^31. No step is made meanwhile.
    pub fn pass(&self, regs: &mut Regs, to: Tick)
        requires later { regs.old.time ≤ to.0 }
        requires small { to.0 < 2 ^ 31 }
        ensures regs { regs.new ≡ advanced regs.old to.0 }
        ensures response { (log : List Moment) →
            Responds self.now.nest (F.hold self.now.firmware) regs.old.masked self.now.open_kinds (due_now (F.waits self.now.firmware) regs.old) log →
            Responds self.now.nest (F.hold self.now.firmware) regs.new.masked self.now.open_kinds (due_now (F.waits self.now.firmware) regs.new)
            (log ++ Passed self.now.open_kinds (due_now (F.waits self.now.firmware) regs.old) (due_now (F.waits self.now.firmware) regs.new) ∷ []) }
    {
        regs.advance(to);
    }

    /// The kind that enters in a step at now, if one does.
    pub fn entry(&self, regs: &Regs) -> Option<Kind>
        ensures entry { result ≡ (if regs.now.masked then None
            else next_entry self.now.nest self.now.open_kinds (due_now (F.waits self.now.firmware) regs.now)) }
    {
        if regs.masked() {
            return None;
        }
        match due_above_cap(regs) {
            Some(kind) => self.entry_of(kind),
            None => self.entry_up_to_cap(regs),
        }
    }

    /// This kind, if it may enter.
    fn entry_of(&self, kind: Kind) -> Option<Kind>
        ensures { result ≡ enters_above self.now.nest (innermost self.now.open_kinds) (Some kind) }
    {
        if self.nest.lets_in(self.stack.innermost(), kind) {
            Some(kind)
        } else {
            None
        }
    }

    /// The kind that enters where none above CAP is due. Most steps of a run are CAP's own, and none of the kinds that are left
    /// enters above CAP: so they aren't asked for then.
    fn entry_up_to_cap(&self, regs: &Regs) -> Option<Kind>
        ensures { result ≡ enters_above self.now.nest (innermost self.now.open_kinds) (find (due_now (F.waits self.now.firmware) regs.now) up_to_cap) }
    {
        match self.stack.innermost() {
            Some(Kind::Cap) => None,
            _ => self.entry_of(self.due_up_to_cap(regs)?),
        }
    }

    /// Enters the highest due kind.
    fn enter(&mut self, kind: Kind, regs: &mut Regs, notes: &mut Notes)
        requires unmasked { regs.old.masked ≡ false }
        requires chosen { next_entry self.old.nest self.old.open_kinds (due_now (F.waits self.old.firmware) regs.old) ≡ Some kind }
        requires empty { notes.old.items ≡ [] }
        ensures { (flash : Told) → MachineStepped F.came F.made F.waits F.left F.hold self.old regs.old flash notes.new.items self.new regs.new flash }
    {
        notes.push(Note::Enter {
            t: regs.now(),
            k: kind.number(),
        });
        regs.entered(kind);
        self.firmware.enter(kind);
        self.stack.push(kind);
    }

    /// Lets the innermost open handler make a step of its own.
    fn own_step<D: FlashDev>(&mut self, regs: &mut Regs, dev: &mut D, notes: &mut Notes)
        requires none_enters { regs.old.masked ≡ false → next_entry self.old.nest self.old.open_kinds (due_now (F.waits self.old.firmware) regs.old) ≡ None }
        requires some_open { self.old.open_kinds ≢ [] }
        requires held { regs.old.masked ≡ true → 0 < F.hold self.old.firmware }
        requires count { regs.old.accesses < 2 ^ 63 }
        requires empty { notes.old.items ≡ [] }
        ensures { MachineStepped F.came F.made F.waits F.left F.hold self.old regs.old (D.told dev.old) notes.new.items self.new regs.new (D.told dev.new) }
    {
        let Some(kind) = self.stack.innermost() else {
            return;
        };
        let before = regs.gates();
        let did = self.firmware.step(kind, regs, dev);
        note_gates(notes, before, regs);
        note_own(notes, kind, &did, regs);
        if let Did::Return(_) = &did {
            self.stack.pop();
        }
    }
}

/// The highest due kind of those above CAP. A run asks this millions of times, so each kind has a line of its own, and no loop
/// goes over them.
fn due_above_cap(regs: &Regs) -> Option<Kind>
    ensures { (waits : Bool) → result ≡ find (due_now waits regs.now) above_cap }
{
    if regs.is_due(Kind::Comm) {
        return Some(Kind::Comm);
    }
    if regs.is_due(Kind::Pwm) {
        return Some(Kind::Pwm);
    }
    if regs.is_due(Kind::Cmp) {
        return Some(Kind::Cmp);
    }
    None
}

/// A G note, if the gate word isn't the one before.
fn note_gates(notes: &mut Notes, before: GateWord, regs: &Regs)
    requires empty { notes.old.items ≡ [] }
    ensures items { notes.new.items ≡ gate_note before.hi before.lo regs.now }
    ensures len { length notes.new.items ≤ 1 }
    ensures in_range { All InRange notes.new.items }
{
    let after = regs.gates();
    if after.hi != before.hi || after.lo != before.lo {
        notes.push(Note::Gate {
            t: regs.now(),
            hi: after.hi,
            lo: after.lo,
        });
    }
}

/// The handler's own notes, then an O note if it returned.
fn note_own(notes: &mut Notes, kind: Kind, did: &Did, regs: &Regs)
    requires room { length notes.old.items ≤ 1 }
    requires old_in_range { All InRange notes.old.items }
    requires own_in_range { All InRange (notes_of did.now) }
    ensures items { notes.new.items ≡ (notes.old.items ++ notes_of did.now) ++ leave_note regs.now kind did.now }
    ensures in_range { All InRange notes.new.items }
{
    append(notes, did.own());
    if let Did::Return(_) = did {
        notes.push(Note::Leave {
            t: regs.now(),
            k: kind.number(),
        });
    }
}

fn append(notes: &mut Notes, own: &Own)
    requires room { length notes.old.items ≤ 1 }
    ensures items { notes.new.items ≡ notes.old.items ++ notes_in own.now }
    ensures len { length notes.new.items ≤ length notes.old.items + 2 }
{
    match own {
        Own::None => {}
        Own::One(note) => notes.push(*note),
        Own::Two(first, second) => {
            notes.push(*first);
            notes.push(*second);
        }
    }
}
