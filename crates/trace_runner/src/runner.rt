//! All steps before an event's tick, the lines of their notes, and then the event.
ghost use Rattle.std.specs.Prelude.{◌≡◌, ◌<◌, ◌≤◌, ◌+◌, ◌++◌, ◌∷◌, [], ℕ, List, Some, None, if◌then◌else◌, OnOk, OnErr, true, false};
ghost use Rattle.esc_base.specs.declared.event.Event.{Event as AnEvent};
ghost use Rattle.esc_base.specs.Flash.{Told};
ghost use Rattle.esc_base.specs.Outside.{Rose};
ghost use Rattle.esc_base.specs.Trace.{tick_of as tick_of_event};
ghost use Rattle.trace_text.specs.Ahead.{StallFits};
ghost use Rattle.esc_base.specs.declared.kind.Kind.TheVariants as kinds;
ghost use Rattle.timer_regs.specs.Effects.{advanced, is_due};
ghost use Rattle.timer_regs.specs.NextDue.{tick_of as tick_of_due};
ghost use Rattle.interrupt_machine.specs.Open.{due_now, is_idle, next_entry};
ghost use Rattle.esc_core.specs.Firmware.{waits_of};
ghost use Rattle.esc_laws.specs.Steps.{Turned, journal};
ghost use Rattle.esc_laws.specs.Legal.{Legal};
ghost use Rattle.esc_laws.specs.Saves.{FlashFits};
ghost use Rattle.trace_runner.specs.Run.{Outset, Runs, StandsFor, StepBound, LeftBelow, GoesOn, BreaksOff, RunsOn, Kept, nest_of, cost_of, newest};

use crate::lines::put_notes;
use crate::{Runner, WriteFault};
use esc_base::{Event, FlashDev, Kind, Sink, Tick};
use timer_regs::Regs;

fn tick_of(e: Event) -> Tick
    ensures { result.0 ≡ tick_of_event e }
{
    match e {
        Event::Edge { t, .. } => t,
        Event::Comp { t, .. } => t,
        Event::Serial { t, .. } => t,
        Event::Stall { t, .. } => t,
    }
}

/// The tick before which nothing becomes due.
fn quiet_until(due: Option<Tick>) -> Tick
    ensures { (d : ℕ) → tick_of_due due ≡ Some d → result.0 ≤ d }
{
    match due {
        Some(due) => due,
        None => Tick(u64::MAX),
    }
}

/// The tick before which CAP isn't due while only time goes on.
fn cap_quiet_until(regs: &Regs) -> Tick
    ensures { (t : ℕ) → regs.now.time ≤ t → t < result.0 → is_due (advanced regs.now t) kinds.Cap ≡ false }
{
    quiet_until(regs.cap_due_from())
}

/// The tick before which a change of the comparator makes nothing due, 0 where CMP is due now: a change that doesn't ask for CMP
/// at once never does.
fn cmp_quiet_until(regs: &Regs) -> Tick
    ensures { 0 < result.0 → is_due regs.now kinds.Cmp ≡ false }
{
    if regs.is_due(Kind::Cmp) {
        Tick(0)
    } else {
        Tick(u64::MAX)
    }
}

impl Runner {
    /// Makes all steps before the event's tick, and then applies the event. Its tick, at most 1073741824, isn't before
    /// that of the last event.
    pub fn feed<K: Sink, D: FlashDev>(
        &mut self,
        e: Event,
        out: &mut K,
        dev: &mut D,
    ) -> Result<(), WriteFault>
        requires small { tick_of_event e ≤ 1073741824 }
        requires later { newest self.old ≤ tick_of_event e }
        requires stall { StallFits e }

        // If the runner matched a trace and the machine steps of a run before, it matches them with this event and the new
        // steps after, and the sink took these steps' lines; or it took some of them and refused one, all of notes before
        // the event's tick.
        ensures goes { OnOk result ((o : Outset) → GoesOn K.given K.took (StandsFor self.old o (D.told dev.old)) (StandsFor self.new o (D.told dev.new))
            (e ∷ []) out.old out.new) }
        ensures breaks { OnErr result ((o : Outset) → BreaksOff K.given K.took K.broke o.loaded (StandsFor self.old o (D.told dev.old))
            (LeftBelow o (D.told dev.new) (nest_of self.old) (cost_of self.old) (newest self.new)) out.old out.new) }
        ensures failed { OnErr result (Rose (K.faults out.old) (K.faults out.new)) }
        ensures no_fewer { K.faults out.old ≤ K.faults out.new }

        // What it stands for is a legal journal up to the event's tick, whose steps are by the cost apart, and the flash is
        // what its saves say.
        ensures legal { OnOk result ((o : Outset) (trace : List AnEvent) (steps : List Turned) → StandsFor self.new o (D.told dev.new) trace steps
            → Legal o.loaded (nest_of self.new) (cost_of self.new) trace (newest self.new) (journal o.loaded steps)) }
        ensures flash { OnOk result ((o : Outset) (trace : List AnEvent) (steps : List Turned) → StandsFor self.new o (D.told dev.new) trace steps
            → FlashFits o.loaded o.flash (D.told dev.new) (journal o.loaded steps)) }
        ensures apart { OnOk result ((o : Outset) (trace : List AnEvent) (steps : List Turned) → StandsFor self.new o (D.told dev.new) trace steps
            → StepBound (cost_of self.new) (newest self.new) steps) }

        ensures newest { newest self.new ≡ tick_of_event e }
        ensures nest { nest_of self.new ≡ nest_of self.old }
        ensures cost { cost_of self.new ≡ cost_of self.old }
    {
        self.run_to(tick_of(e), out, dev)?;
        self.apply(e);
        Ok(())
    }

    /// Makes all steps before the end of the trace, at most 1073741824 and not before the last event.
    pub fn end<K: Sink, D: FlashDev>(
        &mut self,
        t: Tick,
        out: &mut K,
        dev: &mut D,
    ) -> Result<(), WriteFault>
        requires small { t.0 ≤ 1073741824 }
        requires later { newest self.old ≤ t.0 }

        ensures goes { OnOk result ((o : Outset) → GoesOn K.given K.took (StandsFor self.old o (D.told dev.old))
            (StandsFor self.new o (D.told dev.new)) [] out.old out.new) }
        ensures breaks { OnErr result ((o : Outset) → BreaksOff K.given K.took K.broke o.loaded (StandsFor self.old o (D.told dev.old))
            (LeftBelow o (D.told dev.new) (nest_of self.old) (cost_of self.old) (newest self.new)) out.old out.new) }
        ensures failed { OnErr result (Rose (K.faults out.old) (K.faults out.new)) }
        ensures no_fewer { K.faults out.old ≤ K.faults out.new }

        ensures legal { OnOk result ((o : Outset) (trace : List AnEvent) (steps : List Turned) → StandsFor self.new o (D.told dev.new) trace steps
            → Legal o.loaded (nest_of self.new) (cost_of self.new) trace (newest self.new) (journal o.loaded steps)) }
        ensures flash { OnOk result ((o : Outset) (trace : List AnEvent) (steps : List Turned) → StandsFor self.new o (D.told dev.new) trace steps
            → FlashFits o.loaded o.flash (D.told dev.new) (journal o.loaded steps)) }
        ensures apart { OnOk result ((o : Outset) (trace : List AnEvent) (steps : List Turned) → StandsFor self.new o (D.told dev.new) trace steps
            → StepBound (cost_of self.new) (newest self.new) steps) }

        ensures newest { newest self.new ≡ t.0 }
        ensures nest { nest_of self.new ≡ nest_of self.old }
        ensures cost { cost_of self.new ≡ cost_of self.old }
    {
        self.run_to(t, out, dev)
    }

    /// Makes all steps at ticks below the limit. Mostly there is none, and then no loop is entered.
    #[inline(always)]
    fn run_to<K: Sink, D: FlashDev>(
        &mut self,
        limit: Tick,
        out: &mut K,
        dev: &mut D,
    ) -> Result<(), WriteFault>
        requires small { limit.0 ≤ 1073741824 }
        requires later { self.old.limit.0 ≤ limit.0 }
        ensures reached { OnOk result (self.new.limit.0 ≤ self.new.next.0) }
        ensures run { RunsOn K.given K.took K.broke K.faults self.old self.new (D.told dev.old) (D.told dev.new) result out.old out.new }
        ensures limit { self.new.limit ≡ limit }
        ensures nest { nest_of self.new ≡ nest_of self.old }
        ensures cost { cost_of self.new ≡ cost_of self.old }
    {
        self.approach(limit);
        if self.limit.0 <= self.next.0 {
            return Ok(());
        }
        self.run(out, dev)
    }

    /// Takes a limit, and lets idle time pass up to it where nothing becomes due before it.
    fn approach(&mut self, limit: Tick)
        requires small { limit.0 ≤ 1073741824 }
        requires later { self.old.limit.0 ≤ limit.0 }
        ensures runs { (o : Outset) (now : Told) (trace : List AnEvent) (steps : List Turned) → Runs self.old o now trace steps
            → Runs self.new o now trace steps }
        ensures limit { self.new.limit ≡ limit }
        ensures nest { nest_of self.new ≡ nest_of self.old }
        ensures cost { cost_of self.new ≡ cost_of self.old }
    {
        self.limit = limit;
        if self.next.0 < self.limit.0 && self.limit.0 <= self.quiet.0 {
            self.wait();
        }
    }

    /// Makes all steps at ticks below the limit, one after the other.
    fn run<K: Sink, D: FlashDev>(&mut self, out: &mut K, dev: &mut D) -> Result<(), WriteFault>
        ensures reached { OnOk result (self.new.limit.0 ≤ self.new.next.0) }
        ensures run { RunsOn K.given K.took K.broke K.faults self.old self.new (D.told dev.old) (D.told dev.new) result out.old out.new }
        ensures kept { Kept self.old self.new }
    {
        while self.next.0 < self.limit.0 {
            self.go_on(out, dev)?;
        }
        Ok(())
    }

    /// Makes the next step, or lets idle time pass.
    fn go_on<K: Sink, D: FlashDev>(&mut self, out: &mut K, dev: &mut D) -> Result<(), WriteFault>
        requires { self.old.next.0 < self.old.limit.0 }
        ensures later { OnOk result (self.old.next.0 < self.new.next.0) }
        ensures run { RunsOn K.given K.took K.broke K.faults self.old self.new (D.told dev.old) (D.told dev.new) result out.old out.new }
        ensures kept { Kept self.old self.new }
    {
        if self.limit.0 <= self.quiet.0 {
            self.wait();
            return Ok(());
        }
        self.pass();
        let entry = self.machine.entry(&self.regs);
        if self.machine.idle_with(entry) {
            self.jump();
            Ok(())
        } else {
            self.step(entry, out, dev)
        }
    }

    /// Time goes on to the tick of the next step.
    fn pass(&mut self)
        requires { self.old.next.0 < self.old.limit.0 }
        ensures now { self.new.regs.time ≡ self.new.next.0 }
        ensures runs { (o : Outset) (now : Told) (trace : List AnEvent) (steps : List Turned) → Runs self.old o now trace steps
            → Runs self.new o now trace steps }
        ensures next { self.new.next ≡ self.old.next }
        ensures quiet { self.new.quiet ≡ self.old.quiet }
        ensures kept { Kept self.old self.new }
    {
        self.regs.advance(self.next);
    }

    /// Idle time goes on to the limit, before which nothing becomes due.
    fn wait(&mut self)
        requires below { self.old.next.0 < self.old.limit.0 }
        requires quiet { self.old.limit.0 ≤ self.old.quiet.0 }
        ensures later { self.old.next.0 < self.new.next.0 }
        ensures runs { (o : Outset) (now : Told) (trace : List AnEvent) (steps : List Turned) → Runs self.old o now trace steps
            → Runs self.new o now trace steps }
        ensures kept { Kept self.old self.new }
    {
        self.pass();
        self.regs.advance(self.limit);
        self.next = self.limit;
    }

    /// Time goes on to the tick at which a kind becomes due, or to the limit.
    fn jump(&mut self)
        requires now { self.old.regs.time ≡ self.old.next.0 }
        requires idle { is_idle self.old.machine.open_kinds (due_now (waits_of self.old.machine.firmware) self.old.regs) ≡ true }
        requires below { self.old.next.0 < self.old.limit.0 }
        ensures later { self.old.next.0 < self.new.next.0 }
        ensures runs { (o : Outset) (now : Told) (trace : List AnEvent) (steps : List Turned) → Runs self.old o now trace steps
            → Runs self.new o now trace steps }
        ensures kept { Kept self.old self.new }
    {
        let next_due = self.regs.next_due();
        self.quiet = quiet_until(next_due);
        let to = match next_due {
            Some(due) if due.0 < self.limit.0 => due,
            _ => self.limit,
        };
        self.regs.advance(to);
        self.next = to;
    }

    /// Makes one step of the machine, at now, in which that kind enters, if one does, and writes the lines of its notes.
    fn step<K: Sink, D: FlashDev>(
        &mut self,
        entry: Option<Kind>,
        out: &mut K,
        dev: &mut D,
    ) -> Result<(), WriteFault>
        requires entry { entry ≡ (if self.old.regs.masked then None
            else next_entry self.old.machine.nest self.old.machine.open_kinds (due_now (waits_of self.old.machine.firmware) self.old.regs)) }
        requires now { self.old.regs.time ≡ self.old.next.0 }
        requires busy { is_idle self.old.machine.open_kinds (due_now (waits_of self.old.machine.firmware) self.old.regs) ≡ false }
        requires below { self.old.next.0 < self.old.limit.0 }
        ensures next { self.new.next.0 ≡ self.old.next.0 + self.old.cost }
        ensures run { RunsOn K.given K.took K.broke K.faults self.old self.new (D.told dev.old) (D.told dev.new) result out.old out.new }
        ensures kept { Kept self.old self.new }
    {
        self.quiet = Tick(0);
        self.machine
            .step_with(entry, &mut self.regs, dev, &mut self.notes);
        self.next = Tick(self.next.0 + self.cost as u64);
        put_notes(self.notes.as_slice(), &mut self.line, out)
    }

    /// Applies an event at the limit. An edge changes when CAP is due and no other kind, a change of the comparator whether CMP
    /// is due now and no other kind. A stall puts off the next step.
    fn apply(&mut self, e: Event)
        requires at { self.old.limit.0 ≡ tick_of_event e }
        requires reached { self.old.limit.0 ≤ self.old.next.0 }
        requires stall { StallFits e }
        ensures reached { self.new.limit.0 ≤ self.new.next.0 }
        ensures runs { (o : Outset) (now : Told) (trace : List AnEvent) (steps : List Turned) → Runs self.old o now trace steps
            → Runs self.new o now (trace ++ e ∷ []) steps }
        ensures kept { Kept self.old self.new }
    {
        self.regs.advance(self.limit);
        match e {
            Event::Edge { level, .. } => {
                self.regs.edge(level);
                self.quiet = Tick(self.quiet.0.min(cap_quiet_until(&self.regs).0));
            }
            Event::Comp { level, .. } => {
                self.regs.comp(level);
                self.quiet = Tick(self.quiet.0.min(cmp_quiet_until(&self.regs).0));
            }
            // No register takes a serial byte yet.
            Event::Serial { .. } => {}
            Event::Stall { t, n } => {
                self.next = Tick(self.next.0.max(t.0 + n as u64));
            }
        }
    }
}
