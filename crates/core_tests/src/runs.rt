//! A run: the lines of its steps, and where it ends.
ghost use Rattle.std.specs.Prelude.{◌≡◌};
ghost use Rattle.esc_base.specs.Trace.{tick_of};
ghost use Rattle.trace_text.specs.Ahead.{StallFits};

use esc_base::{Event, MemFlash, MemSink, Tick};
use interrupt_machine::Nest;
use settings_block::{BlockFault, Loaded, default_block, load, read_block};
use std::alloc::Global;
use std::test::Fail;
use trace_runner::{Room, RunConfig, Runner, WriteFault};

/// A run to tick 5000 with an event at tick 2400.
fn run(
    loaded: Loaded,
    room: Room,
    event: Event,
    out: &mut MemSink,
    flash: &mut MemFlash,
) -> Result<(), WriteFault>
    requires at { tick_of event ≡ 2400 }
    requires stall { StallFits event }
{
    let mut runner = Runner::start(
        RunConfig {
            cost: 2,
            nest: Nest::One,
        },
        loaded,
        room,
    );
    runner.begin(out)?;
    runner.feed(event, out, flash)?;
    runner.end(Tick(5000), out, flash)
}

/// How such a run over a blank flash ends and what it writes, where the puts with these numbers fail.
fn ran(alloc: Global, event: Event, fails: &[u64]) -> Result<(Result<(), WriteFault>, String), Fail>
    requires at { tick_of event ≡ 2400 }
    requires stall { StallFits event }
{
    let mut out = MemSink::new(alloc, 1024, fails)?;
    let mut flash = MemFlash::new(alloc)?;
    let loaded = load(&mut flash)?;
    let answer = run(loaded, Room::new(alloc)?, event, &mut out, &mut flash);
    Ok((answer, String::from_utf8_lossy(alloc, out.given())?))
}

#[test]
fn a_control_tick_is_due_each_2400_ticks(rt: HostRuntime) -> Result<(), Fail> {
    let event = Event::Comp {
        t: Tick(2400),
        level: true,
    };
    let (answer, journal) = ran(rt.alloc(), event, &[])?;
    assert_eq!(rt; answer, Ok(()));
    assert_eq!(rt;
        journal.as_str(),
        "U 0 1\nW 0 0\nI 2400 2\nK 2404 1 0 0\nO 2416 2\nI 4800 2\nK 4804 2 0 0\nO 4816 2\n"
    );
    Ok(())
}

#[test]
fn a_stall_puts_off_the_step_at_its_tick(rt: HostRuntime) -> Result<(), Fail> {
    let event = Event::Stall {
        t: Tick(2400),
        n: 100,
    };
    let (answer, journal) = ran(rt.alloc(), event, &[])?;
    assert_eq!(rt; answer, Ok(()));
    assert_eq!(rt;
        journal.as_str(),
        "U 0 1\nW 0 0\nI 2500 2\nK 2504 1 0 0\nO 2516 2\nI 4800 2\nK 4804 2 0 0\nO 4816 2\n"
    );
    Ok(())
}

#[test]
fn a_line_that_fails_ends_the_run(rt: HostRuntime) -> Result<(), Fail> {
    let event = Event::Comp {
        t: Tick(2400),
        level: true,
    };
    let (answer, journal) = ran(rt.alloc(), event, &[4])?;
    assert_eq!(rt; answer, Err(WriteFault));
    assert_eq!(rt; journal.as_str(), "U 0 1\nW 0 0\nI 2400 2\n");
    Ok(())
}

#[test]
fn the_first_line_tells_what_was_loaded(rt: HostRuntime) -> Result<(), Fail> {
    for (fault, lines) in [
        (None, "U 0 0\nW 0 0\n"),
        (Some(BlockFault::Marker), "U 0 1\nW 0 0\n"),
        (Some(BlockFault::Version), "U 0 2\nW 0 0\n"),
        (Some(BlockFault::Range(27)), "U 0 3\nW 0 0\n"),
    ] {
        let mut out = MemSink::new(rt.alloc(), 1024, &[])?;
        let settings = read_block(&default_block())?;
        let mut runner = Runner::start(
            RunConfig {
                cost: 2,
                nest: Nest::One,
            },
            Loaded { settings, fault },
            Room::new(rt.alloc())?,
        );
        runner.begin(&mut out)?;
        assert_eq!(rt; out.given(), lines.as_bytes());
    }
    Ok(())
}
