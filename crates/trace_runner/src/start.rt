//! The start of a run, and its two first lines.
ghost use Rattle.std.specs.Prelude.{◌≡◌, ◌≤◌, OnOk, OnErr, []};
ghost use Rattle.std.specs.Io.KnownBytes.{append_known};
ghost use Rattle.esc_base.specs.Flash.{Told};
ghost use Rattle.esc_base.specs.Outside.{Rose};
ghost use Rattle.trace_text.specs.Text.{Text};
ghost use Rattle.esc_laws.specs.Saves.{FlashFits};
ghost use Rattle.esc_laws.specs.Steps.{first_notes, load_number, journal};
ghost use Rattle.esc_laws.specs.Legal.{Legal};
ghost use Rattle.trace_runner.specs.Lines.{TookLines, BrokeLines};
ghost use Rattle.trace_runner.specs.Run.{StandsFor, nest_of, cost_of, newest};

use crate::lines::put_notes;
use crate::{Room, RunConfig, Runner, WriteFault};
use esc_base::{Note, Sink, Tick};
use esc_core::Core;
use interrupt_machine::{Machine, Notes};
use settings_block::{BlockFault, Loaded};
use timer_regs::{Reg, Regs};
use trace_text::Line;

/// The number of a load's result in the first line.
fn load_number(fault: Option<BlockFault>) -> u8
    ensures { result ≡ load_number fault }
{
    match fault {
        None => 0,
        Some(BlockFault::Marker) => 1,
        Some(BlockFault::Version) => 2,
        Some(BlockFault::Range(_)) => 3,
    }
}

impl Runner {
    /// A run at tick 0 with the settings that were loaded: no handler is open, and the first window is open in the unknown
    /// mode.
    pub fn start(cfg: RunConfig, loaded: Loaded, room: Room) -> Runner
        requires some { 1 ≤ cfg.cost }
        requires most { cfg.cost ≤ 16 }
        ensures stands { (first : Told) → StandsFor result (record { loaded = loaded; flash = first }) first [] [] }
        ensures legal { Legal loaded (nest_of result) (cost_of result) [] 0 (journal loaded []) }
        ensures flash { (first : Told) → FlashFits loaded first first (journal loaded []) }
        ensures fault { result.fault ≡ loaded.fault }
        ensures nest { nest_of result ≡ cfg.nest }
        ensures cost { cost_of result ≡ cfg.cost }
        ensures newest { newest result ≡ 0 }
    {
        let mut regs = Regs::new();
        regs.write(Reg::CapArm, 0);
        Runner {
            machine: Machine::new(Core::new(loaded.settings, room.packets), cfg.nest),
            regs,
            cost: cfg.cost,
            next: Tick(0),
            limit: Tick(0),
            quiet: Tick(0),
            fault: loaded.fault,
            notes: Notes::new(),
            line: Line::new(),
        }
    }

    /// Writes the two first lines: the load of the settings, and the first window. It is called once, before all other calls.
    pub fn begin<K: Sink>(&mut self, out: &mut K) -> Result<(), WriteFault>
        ensures same { self.new ≡ self.old }
        ensures lines { OnOk result (TookLines K.took out.old (first_notes self.old.fault) out.new) }
        ensures given { OnOk result (K.given out.new ≡ append_known (K.given out.old) (Text (first_notes self.old.fault))) }
        ensures breaks { OnErr result (BrokeLines K.given K.took K.broke out.old (first_notes self.old.fault) out.new) }
        ensures no_fewer { K.faults out.old ≤ K.faults out.new }
        ensures failed { OnErr result (Rose (K.faults out.old) (K.faults out.new)) }
    {
        let settings = Note::Up {
            t: Tick(0),
            r: load_number(self.fault),
        };
        let window = Note::Window { t: Tick(0), m: 0 };
        put_notes(&[settings, window], &mut Line::new(), out)
    }
}
