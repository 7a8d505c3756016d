//! MAIN: what waits while no interrupt is due.
ghost use Rattle.std.specs.Prelude.{◌<◌, ◌^◌, [], ◌∷◌, All, IfSome};
ghost use Rattle.esc_base.specs.Range.{InRange};
ghost use Rattle.interrupt_machine.specs.Did.{notes_of};
ghost use Rattle.esc_core.specs.Background.{main_step, main_asked, answers_asked, saving_step, taking_step, Tells};
ghost use Rattle.settings_block.specs.Block.{block_of};
ghost use Rattle.fourway_packet.specs.Queue.{packet_taken};
ghost use Rattle.esc_core.specs.Calls.{Saves, answer_of, took_first, said_first, CallDid, IsMade};

use crate::notes::{no_note, one_note};
use crate::{Core, MainAt};
use esc_base::{FlashDev, Note};
use interrupt_machine::Did;
use settings_block::{Settings, save};
use timer_regs::{Reg, Regs};

impl Core {
    /// MAIN decides in this step what it does, since commands may act between its entry and this step.
    pub(crate) fn main_step<D: FlashDev>(&mut self, regs: &mut Regs, dev: &mut D) -> Did
        requires count { regs.old.accesses < 2 ^ 63 }
        ensures made { IsMade (λ answers. main_step answers self.old.main_at self.old regs.old) (main_asked self.old.main_at self.old)
            regs.old (D.told dev.old) result self.new regs.new (D.told dev.new) }
        ensures in_range { All InRange (notes_of result) }
    {
        match self.main_at {
            MainAt::Work => {
                self.main_at = MainAt::Back;
                if self.orders.save_asked {
                    self.save_settings(regs, dev)
                } else {
                    self.take_byte(regs, dev)
                }
            }
            MainAt::Back | MainAt::Shut => {
                self.main_at = MainAt::Shut;
                Did::Return(no_note())
            }
        }
    }

    /// Takes the oldest byte that waits, and answers the packet that it completes: then there are bytes to send.
    fn take_byte<D: FlashDev>(&mut self, regs: &mut Regs, dev: &mut D) -> Did
        requires count { regs.old.accesses < 2 ^ 63 }
        ensures made { IsMade (λ answers. taking_step (said_first answers) self.old regs.old)
            (λ answers. answers_asked (packet_taken self.old.line.packets) self.old.line.active self.old.control.armed)
            regs.old (D.told dev.old) result self.new regs.new (D.told dev.new) }
        ensures in_range { All InRange (notes_of result) }
    {
        let armed = self.control.armed();
        let answered = self.serial.take(armed, regs.now(), dev);
        tell(answered, regs)
    }

    /// Saves the settings as they stand now. Where the flash fails, those in memory stay as they are.
    fn save_settings<D: FlashDev>(&mut self, regs: &Regs, dev: &mut D) -> Did
        ensures made { IsMade (λ answers. saving_step (took_first answers) self.old regs.now) (λ answers. Saves (block_of self.old.orders.settings) ∷ [])
            regs.now (D.told dev.old) result self.new regs.now (D.told dev.new) }
        ensures in_range { All InRange (notes_of result) }
    {
        self.orders.save_asked = false;
        let saved = takes_block(dev, &self.orders.settings);
        Did::More(one_note(Note::Saved {
            t: regs.now(),
            r: !saved as u8,
        }))
    }
}

/// Whether the flash takes the settings' block.
fn takes_block<D: FlashDev>(dev: &mut D, settings: &Settings) -> bool
    ensures { CallDid (Saves (block_of settings.now)) (answer_of result) (D.told dev.old) (D.told dev.new) }
{
    match save(settings, dev) {
        Ok(()) => true,
        Err(_) => false,
    }
}

/// The end of the step that takes a byte: where a packet was answered, there are bytes to send.
fn tell(answered: Option<Note>, regs: &mut Regs) -> Did
    requires count { regs.old.accesses < 2 ^ 63 }
    ensures tells { Tells regs.old answered result regs.new }
    ensures in_range { IfSome answered InRange → All InRange (notes_of result) }
{
    match answered {
        Some(note) => {
            regs.write(Reg::TxOn, 1);
            Did::More(one_note(note))
        }
        None => Did::More(no_note()),
    }
}
