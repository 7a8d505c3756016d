ghost use Rattle.std.specs.Prelude.{◌≡◌, ◌≢◌, ◌+◌, ◌<◌, ◌≤◌, ◌^◌, ℕ, Bool, true, false, All};
ghost use Rattle.esc_base.specs.declared.kind.Kind.{Kind};
ghost use Rattle.esc_base.specs.Range.{InRange};
ghost use Rattle.esc_base.specs.Flash.{Told};
ghost use Rattle.timer_regs.specs.Bank.{Bank};
ghost use Rattle.interrupt_machine.specs.declared.firmware.Did.{Did};
ghost use Rattle.interrupt_machine.specs.Did.{IsMore, IsReturn, notes_in, notes_of, most, MakesOneAccess};

use esc_base::{FlashDev, Kind, Note};
use timer_regs::Regs;

/// The notes that a step gives of its own, in order. Most steps give none, so it is no list: a run makes millions of steps.
#[derive(Drop)]
pub enum Own {
    None,
    One(Note),
    Two(Note, Note),
}

/// What a step of a handler came to.
#[derive(Drop)]
pub enum Did {
    /// The activation goes on.
    More(Own),
    /// It was the activation's last step.
    Return(Own),
}

impl Did {
    /// The notes that the step gave of its own.
    pub fn own(&self) -> &Own
        ensures { notes_in result.now ≡ notes_of self.now }
    {
        match self {
            Did::More(own) | Did::Return(own) => own,
        }
    }
}

/// The handlers of the interrupt kinds. A kind is open at most once, so the firmware keeps the state of each open
/// activation by its kind.
pub trait Firmware: Drop {
    /// What an entry changes: the firmware before, the kind, the firmware after.
    ghost came: { Self → Kind → Self → Type 0 };

    /// What a step changes: the firmware, the registers and what the flash tells before, the kind, the answer, and these
    /// three after.
    ghost made: { Self → Bank → Told → Kind → Did → Self → Bank → Told → Type 0 };

    /// How many own steps a kind's open activation can still make.
    ghost left: { Self → Kind → ℕ };

    /// For how many steps the mask can still stand.
    ghost hold: { Self → ℕ };

    /// Whether MAIN is due.
    ghost waits: { Self → Bool };

    /// Opens an activation of this kind; those of the other kinds keep their own steps.
    fn enter(&mut self, kind: Kind)
        ensures came { came self.old kind self.new }
        ensures some { 1 ≤ left self.new kind }
        ensures most { left self.new kind ≤ most kind }
        ensures others { (k : Kind) → k ≢ kind → left self.new k ≡ left self.old k }
        ensures hold { hold self.new ≡ hold self.old };

    /// Makes one step of the innermost open activation, which is of this kind: at most one access to the registers.
    /// The mask stands for at most 8 steps in a row, and is down after a return. The flash is reached by steps alone.
    fn step<D: FlashDev>(&mut self, kind: Kind, regs: &mut Regs, dev: &mut D) -> Did
        requires open { 0 < left self.old kind }
        requires held { regs.old.masked ≡ true → 0 < hold self.old }
        requires count { regs.old.accesses < 2 ^ 63 }
        ensures made { made self.old regs.old (D.told dev.old) kind result self.new regs.new (D.told dev.new) }
        ensures less { left self.new kind < left self.old kind }
        ensures others { (k : Kind) → k ≢ kind → left self.new k ≡ left self.old k }
        ensures more { IsMore result → 0 < left self.new kind }
        ensures back { IsReturn result → regs.new.masked ≡ false }
        ensures mask_some { regs.new.masked ≡ true → 1 ≤ hold self.new }
        ensures mask_most { regs.new.masked ≡ true → hold self.new ≤ 8 }
        ensures mask_less { regs.old.masked ≡ true → regs.new.masked ≡ true → hold self.new < hold self.old }
        ensures access { MakesOneAccess regs.old regs.new }
        ensures in_range { All InRange (notes_of result) };

    /// Whether MAIN is due.
    fn waiting(&self) -> bool
        ensures { result ≡ waits self.now };
}
