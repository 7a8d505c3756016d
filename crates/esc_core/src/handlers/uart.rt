//! UART: a serial byte waits.
ghost use Rattle.std.specs.Prelude.{◌≡◌, ◌<◌, ◌^◌, ◌==◌, All, length, true, false};
ghost use Rattle.esc_base.specs.Range.{InRange};
ghost use Rattle.timer_regs.specs.Uart.{is_full};
ghost use Rattle.interrupt_machine.specs.Did.{notes_of};
ghost use Rattle.esc_core.specs.Stepped.{IsStepped};
ghost use Rattle.esc_core.specs.Uart.{uart_step, see_step, push_step};

use crate::notes::{no_note, one_note};
use crate::{Core, UartAt};
use esc_base::{Arrived, Note, Tick};
use interrupt_machine::Did;
use timer_regs::{Reg, Regs};

impl Core {
    pub(crate) fn uart_step(&mut self, regs: &mut Regs) -> Did
        requires count { regs.old.accesses < 2 ^ 63 }
        ensures step { IsStepped regs.old (uart_step self.old.uart_at self.old regs.old) result self.new regs.new }
        ensures in_range { All InRange (notes_of result) }
    {
        match self.uart_at {
            UartAt::Look => {
                let waits = regs.read(Reg::UartState) % 2 == 1;
                self.uart_at = if waits { UartAt::Time } else { UartAt::Back };
                Did::More(no_note())
            }
            UartAt::Time => {
                self.uart_at = UartAt::Data(regs.read(Reg::UartTime));
                Did::More(no_note())
            }
            UartAt::Data(t) => self.push(t, regs),
            UartAt::Back | UartAt::Shut => {
                self.uart_at = UartAt::Shut;
                Did::Return(no_note())
            }
        }
    }

    /// Takes the byte, and pushes it in the same step.
    fn push(&mut self, t: u32, regs: &mut Regs) -> Did
        requires count { regs.old.accesses < 2 ^ 63 }
        ensures step { IsStepped regs.old (push_step (length self.old.line.packets.waiting == 512) t self.old regs.old) result self.new regs.new }
        ensures in_range { All InRange (notes_of result) }
    {
        let byte = regs.read(Reg::UartData) as u8;
        self.uart_at = UartAt::Back;
        match self.serial.push(Tick(t as u64), byte) {
            Arrived::Kept => Did::More(no_note()),
            Arrived::Lost => Did::More(one_note(Note::Dropped {
                t: regs.now(),
                xx: byte,
            })),
        }
    }
}
