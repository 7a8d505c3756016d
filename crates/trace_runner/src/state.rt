//! What a runner keeps between two calls.
ghost use Rattle.std.specs.Prelude.{◌≡◌, ◌+◌, ◌<◌, ◌≤◌, true};
ghost use Rattle.interrupt_machine.specs.Turn.{IsHeld};
ghost use Rattle.esc_core.specs.Firmware.{waits_of};
ghost use Rattle.trace_runner.specs.Quiet.{IsQuiet};

use esc_base::{Failed, Tick};
use esc_core::Core;
use interrupt_machine::{Machine, Nest, Notes};
use settings_block::BlockFault;
use thiserror::Error;
use timer_regs::Regs;
use trace_text::Line;

/// The sink has failed. The runner isn't used again.
#[derive(Clone, Copy, Debug, PartialEq, Eq, Drop, Error)]
#[error("the journal could not be written")]
pub struct WriteFault;

impl From<Failed> for WriteFault {
    fn from(_: Failed) -> Self {
        WriteFault
    }
}

/// How a run goes.
#[derive(Clone, Copy, Drop)]
pub struct RunConfig {
    /// The ticks from one step of the core to the next, 1 to 16.
    pub cost: u32,
    /// Which kinds may enter while a handler is open.
    pub nest: Nest,
}

/// A run: the machine with the core, the registers, and the tick of the next step.
#[derive(Drop)]
pub struct Runner {
    pub(crate) machine: Machine<Core>,
    pub(crate) regs: Regs,
    pub(crate) cost: u32,
    /// The tick of the next step; no step is due below it.
    pub(crate) next: Tick,
    /// The tick of the newest event. All steps stand below it.
    pub(crate) limit: Tick,
    /// Where `next` is below it, the core is idle, and nothing becomes due before it while only time goes on.
    pub(crate) quiet: Tick,
    /// What was wrong with the settings' block, for the first line.
    pub(crate) fault: Option<BlockFault>,
    /// The notes of one step, kept here since a run makes millions of steps.
    pub(crate) notes: Notes,
    /// The line of one note, kept here as well.
    pub(crate) line: Line,
    ghost held: { regs.masked ≡ true → IsHeld machine.firmware.hold machine.open_kinds },
    ghost count: { regs.accesses ≤ next.0 + 1 },
    ghost passed: { regs.time ≤ next.0 },
    ghost before: { regs.time ≤ limit.0 },
    ghost cost_some: { 1 ≤ cost },
    ghost cost_most: { cost ≤ 16 },
    ghost limit_small: { limit.0 ≤ 1073741824 },
    ghost waits: { next.0 < quiet.0 → IsQuiet machine.open_kinds (waits_of machine.firmware) regs quiet.0 },
    ghost next_small: { next.0 ≤ 1090519040 },
}
