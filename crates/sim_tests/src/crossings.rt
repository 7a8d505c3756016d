//! Zero crossings and the sectors that follow them.
use crate::drives::{journal_of, throttled};
use crate::runs::lines_of;
use std::alloc::Global;
use std::test::Fail;

/// The sectors and crossings of a drive whose first sector begins at 12004820, over these lines behind its throttle. The
/// settings' advance is 1.
fn turns(alloc: Global, lines: &str) -> Result<String, Fail> {
    let mut trace = throttled(alloc)?;
    trace.push_str(lines)?;
    let journal = journal_of(alloc, trace.as_str())?;
    lines_of(alloc, b"QZ", journal.as_str())
}

/// The comparator has each sector's expected level when blanking ends, a quarter of the interval after the sector's start.
/// CMP is entered there, begins the filter in its fourth step, is entered again 24 ticks after it, and accepts in its second
/// step: 36 ticks after the end of blanking. COMM is entered after the wait, three eighths of the interval, and sets the
/// sector in its fourth step. The intervals are 24000, 24000, 21761, 19731, 17892, 16225, 14714.
#[test]
fn each_sector_has_one_crossing(rt: HostRuntime) -> Result<(), Fail> {
    let found = turns(
        rt.alloc(),
        "12005000 C 1\n12021000 C 0\n12035000 C 1\n12047000 C 0\n12059000 C 1\n12070000 C 0\n12079000 END\n",
    )?;
    assert_eq!(rt;
        found.as_str(),
        "Q 12004820 1\nZ 12010856\nQ 12019864 2\nZ 12025900\nQ 12034068 3\nZ 12039544\n\
         Q 12046951 4\nZ 12051919\nQ 12058637 5\nZ 12063146\nQ 12069238 6\nZ 12073330\nQ 12078856 1\n"
    );
    Ok(())
}

/// The first crossing leaves the interval at 24000, so the wait is 9000. The comparator changes in sector 2 so that its
/// crossing comes 20000 ticks after the first one: the interval is 23000, the wait 8625 and the next blanking 5750.
#[test]
fn the_interval_follows_the_crossings(rt: HostRuntime) -> Result<(), Fail> {
    let found = turns(
        rt.alloc(),
        "12005000 C 1\n12030822 C 0\n12040000 C 1\n12045300 END\n",
    )?;
    assert_eq!(rt;
        found.as_str(),
        "Q 12004820 1\nZ 12010856\nQ 12019864 2\nZ 12030856\nQ 12039489 3\nZ 12045275\n"
    );
    Ok(())
}

/// The comparator changes every 20 ticks from before the end of blanking on, until after the end of blanking for the last
/// time: no level stands for 24 ticks.
#[test]
fn a_chattering_comparator_has_no_crossing(rt: HostRuntime) -> Result<(), Fail> {
    let mut lines = String::new(rt.alloc());
    for n in 0u64..1000 {
        let at = 12010000 + n * 20;
        let level = (n + 1) % 2;
        write!(&mut lines, "{at} C {level}\n")?;
    }
    lines.push_str("12030000 END\n")?;
    let found = turns(rt.alloc(), lines.as_str())?;
    assert_eq!(rt; found.as_str(), "Q 12004820 1\n");
    Ok(())
}

/// The level is there when blanking ends at 12010820. The filter begins at 12010828, and would be accepted at z = 12010856.
/// Both changes of a glitch stand before a step at its tick: the filter forgets one at its beginning, and is rejected by each
/// later one up to z. Then 400 ticks of blanking follow, and the next filter is accepted 36 ticks after them.
#[test]
fn a_glitch_within_the_filter_rejects_it(rt: HostRuntime) -> Result<(), Fail> {
    for (glitch, z) in [
        (12010828, 12010856),
        (12010829, 12011292),
        (12010832, 12011292),
        (12010833, 12011292),
        (12010855, 12011292),
        (12010856, 12011292),
        (12010857, 12010856),
    ] {
        let lines = format!(in rt.alloc();
            "12005000 C 1\n{glitch} C 0\n{glitch} C 1\n12011300 END\n"
        )?;
        let found = turns(rt.alloc(), lines.as_str())?;
        let expected = format!(in rt.alloc(); "Q 12004820 1\nZ {z}\n")?;
        assert_eq!(rt; found.as_str(), expected.as_str(), "at {glitch}");
    }
    Ok(())
}

/// A change to the expected level is accepted where it stands from the filter's beginning on. The comparator changes at
/// 12015000 while CMP waits for that: CMP is entered, and its third step begins the filter. A short change back at tick
/// 12015006, that of the step, is forgotten; one a tick later, 27 ticks before the crossing, isn't.
#[test]
fn a_change_of_the_comparator_calls_cmp(rt: HostRuntime) -> Result<(), Fail> {
    for (glitch, z) in [
        (12015006, 12015034),
        (12015007, 12015470),
        (12015010, 12015470),
    ] {
        let lines = format!(in rt.alloc();
            "12015000 C 1\n{glitch} C 0\n{glitch} C 1\n12015500 END\n"
        )?;
        let found = turns(rt.alloc(), lines.as_str())?;
        let expected = format!(in rt.alloc(); "Q 12004820 1\nZ {z}\n")?;
        assert_eq!(rt; found.as_str(), expected.as_str(), "at {glitch}");
    }
    Ok(())
}
