ghost use Rattle.std.specs.Prelude.{◌≡◌, ◌↔◌, ◌⊎◌, ◌≤◌, ℕ, List, Some, None, IfOk, IfSome, IsNone, OnErr, option_map};
ghost use Rattle.std.specs.Io.KnownBytes.{IsAtEnd};
ghost use Rattle.esc_base.specs.declared.event.Event.{Event as AnEvent};
ghost use Rattle.esc_base.specs.Outside.{Rose};
ghost use Rattle.trace_text.specs.declared.item.Refusal.{Refusal as ARefusal};
ghost use Rattle.trace_text.specs.Read.{Read, Trace};
ghost use Rattle.trace_text.specs.Read.{Refused as RefusedBy};
ghost use Rattle.settings_block.specs.Stored.{IsLoaded};
ghost use Rattle.am32sim.specs.declared.options.Command.TheVariants.{Run as IsRun, Show as IsShow};
ghost use Rattle.am32sim.specs.Words.{Asked as Wanted, asked, image_of};
ghost use Rattle.am32sim.specs.Run.{Ran, RanFrom, Shown, IsOutset, IsUnattached, IsWriteFault, OnAttached, OnReadFault, OnWriteFault, OnAttachFault, OnNoEnd, IsFault};

use crate::options::Command;
use crate::show::show_text;
use crate::{Status, Words};
use esc_base::{FlashDev, Sink, Source};
use settings_block::{Loaded, load};
use trace_runner::{Room, RunConfig, Runner, WriteFault};
use trace_text::{Item, Lines};

/// Runs the core with the loaded settings on the trace that the source gives, and writes the journal. An `Err` is the
/// sink's.
fn run<S: Source, K: Sink, F: FlashDev>(
    cfg: RunConfig,
    loaded: Loaded,
    src: &mut S,
    out: &mut K,
    flash: &mut F,
    room: Room,
) -> Result<Status, WriteFault>
    requires some { 1 ≤ cfg.cost }
    requires most { cfg.cost ≤ 16 }
    ensures ok { IfOk result (λ s. RanFrom cfg (record { loaded = loaded; flash = F.told flash.old }) (F.told flash.new) s (S.left src.old) (S.left src.new)
        (K.given out.old) (K.given out.new)) }
    ensures read_fault { IfOk result (λ s. OnReadFault s (Rose (S.faults src.old) (S.faults src.new))) }
    ensures no_end { IfOk result (λ s. OnNoEnd s (IsAtEnd (S.left src.new))) }
    ensures taken { IfOk result (λ s. OnWriteFault s (Rose (K.faults out.old) (K.faults out.new))) }
    ensures err { OnErr result (IsWriteFault cfg (record { loaded = loaded; flash = F.told flash.old }) (F.told flash.new) (S.left src.old) (S.left src.new)
        (K.given out.old) (K.given out.new)) }
    ensures write_fault { OnErr result (Rose (K.faults out.old) (K.faults out.new)) }
{
    let mut runner = Runner::start(cfg, loaded, room);
    runner.begin(out)?;
    let mut lines = Lines::new();
    loop {
        match lines.next(src) {
            Item::Event(event) => runner.feed(event, out, flash)?,
            Item::End(t) => {
                runner.end(t, out, flash)?;
                return Ok(Status::Done);
            }
            Item::Fault => return Ok(Status::ReadFault),
            Item::Refused(kind) => {
                let line = lines.line();
                return Ok(Status::Refused { line, kind });
            }
        }
    }
}

/// Attaches the flash and loads the settings from it. `None` where either failed, and then it goes no further.
fn attach_and_load<F: FlashDev>(flash: &mut F, image: Option<&str>) -> Option<Loaded>
    ensures loaded { IfSome result (λ loaded. IsOutset (option_map (λ path. path.now) image.entry) (F.image flash.old (option_map (λ path. path.now) image.entry))
        (F.told flash.old) (record { loaded = loaded; flash = F.told flash.new })) }
    ensures bound { IfSome result (λ _. F.binds flash.old (option_map (λ path. path.now) image.entry)) }
    ensures failed { IsNone result → Rose (F.told flash.old).faults (F.told flash.new).faults }
    ensures kept { IsNone result → IsNone image.entry → (F.told flash.new).bytes ≡ (F.told flash.old).bytes }
    ensures only { IsNone result → ((F.told flash.new).bytes ≡ (F.told flash.old).bytes)
        ⊎ ((F.told flash.new).bytes ≡ F.image flash.old (option_map (λ path. path.now) image.entry)) }
{
    if flash.attach(image).is_err() {
        return None;
    }
    match load(flash) {
        Ok(loaded) => Some(loaded),
        Err(_) => None,
    }
}

/// Runs the command that the words name, `run` or `show`, as their options say. It attaches the flash and loads the settings
/// from it. `run` then reads a trace from `src` and writes its journal to `out`; `show` writes the settings. It is handed no
/// allocator, so it takes no memory.
pub fn sim_main<S: Source, K: Sink, F: FlashDev>(
    words: &Words,
    src: &mut S,
    out: &mut K,
    flash: &mut F,
    room: Room,
) -> Status
    // Words that ask for nothing are refused, and no others, before anything is read, written or loaded.
    ensures usage { (result ≡ Status.Usage) ↔ (asked words.now ≡ None) }
    ensures untouched { asked words.now ≡ None → (src.new ≡ src.old) × (out.new ≡ out.old) × (flash.new ≡ flash.old) }

    // What was read and written, by the status, and what the flash holds then, where source, sink and flash tell their
    // bytes. At a read and a write fault the events read are those of the whole lines among the bytes that were taken. Nothing
    // goes on where the flash didn't bind the image, and what goes on begins with the bytes that the flash holds once it has.
    ensures ran { (a : Wanted) → asked words.now ≡ Some a → a.command ≡ IsRun
        → Ran a result (F.image flash.old (image_of a)) (F.told flash.old) (F.told flash.new) (S.left src.old) (S.left src.new) (K.given out.old) (K.given out.new) }
    ensures shown { (a : Wanted) → asked words.now ≡ Some a → a.command ≡ IsShow
        → Shown a result (F.image flash.old (image_of a)) (F.told flash.old) (F.told flash.new) (K.given out.old) (K.given out.new) }
    ensures attached { (a : Wanted) → asked words.now ≡ Some a → OnAttached result (F.binds flash.old (image_of a)) }
    ensures show_reads_nothing { (a : Wanted) → asked words.now ≡ Some a → a.command ≡ IsShow → src.new ≡ src.old }

    // Each fault is the source's, the sink's or the flash's own, and without one the trace alone decides.
    ensures read_fault { OnReadFault result (Rose (S.faults src.old) (S.faults src.new)) }
    ensures write_fault { OnWriteFault result (Rose (K.faults out.old) (K.faults out.new)) }
    ensures attach_fault { OnAttachFault result (Rose (F.told flash.old).faults (F.told flash.new).faults) }
    ensures unread { OnAttachFault result ((src.new ≡ src.old) × (out.new ≡ out.old)) }
    ensures done { (a : Wanted) → asked words.now ≡ Some a → a.command ≡ IsRun → (text : List ℕ) (trace : List AnEvent) (end : ℕ) → S.left src.old ≡ Some text
        → Read text ≡ Trace trace end → IsFault result ⊎ (result ≡ Status.Done) }
    ensures refused { (a : Wanted) → asked words.now ≡ Some a → a.command ≡ IsRun → (text : List ℕ) (trace : List AnEvent) (line : ℕ) (kind : ARefusal)
        → S.left src.old ≡ Some text → Read text ≡ RefusedBy trace line kind → IsFault result ⊎ (result ≡ Status.Refused line kind) }
    ensures no_end { OnNoEnd result (IsAtEnd (S.left src.new)) }
{
    let Some(asked) = words.asked() else {
        return Status::Usage;
    };
    let Some(loaded) = attach_and_load(flash, asked.options.image) else {
        return Status::AttachFault;
    };
    match asked.command {
        Command::Run => match run(asked.config(), loaded, src, out, flash, room) {
            Ok(status) => status,
            Err(WriteFault) => Status::WriteFault,
        },
        Command::Show => match out.put(show_text(&loaded).as_bytes()) {
            Ok(()) => Status::Done,
            Err(_) => Status::WriteFault,
        },
    }
}
