//! The start of a drive, its gates and its ends.
use crate::runs::{ZERO, lines_of, push_frames, ran};
use am32sim::Status;
use esc_base::MemFlash;
use std::alloc::Global;
use std::test::Fail;

/// A frame's word: throttle 1046.
const THROTTLE: u16 = 0x82C6;

/// A trace in which control arms at tick 12000004, and a frame with throttle ends at tick 12003760: the control tick at
/// 12004800 starts the drive.
pub(crate) fn throttled(alloc: Global) -> Result<String, Fail> {
    let mut trace = String::new(alloc);
    push_frames(&mut trace, 100, ZERO, 31)?;
    trace.push_str("80000 J 11920000\n")?;
    push_frames(&mut trace, 12002500, THROTTLE, 1)?;
    Ok(trace)
}

pub(crate) fn journal_of(alloc: Global, trace: &str) -> Result<String, Fail> {
    let mut flash = MemFlash::new(alloc)?;
    let (status, journal) = ran(alloc, &[trace], 4096, &[], &[], &mut flash)?;
    if status != Status::Done {
        return Ok(String::new(alloc));
    }
    Ok(journal)
}

/// The start's control tick is entered at 12004800 and makes COMM due in its fourth step, COMM is entered after its fifth
/// and sets the sector in its fourth. 240000 ticks later, at 12244820, another control tick is open; COMM is entered at the
/// second step after it, since PWM holds the mask.
#[test]
fn the_first_sector_is_1_and_the_next_is_forced(rt: HostRuntime) -> Result<(), Fail> {
    let mut trace = throttled(rt.alloc())?;
    trace.push_str("12006000 J 230000\n12250000 END\n")?;
    let journal = journal_of(rt.alloc(), trace.as_str())?;
    assert_eq!(rt;
        lines_of(rt.alloc(), b"Q", journal.as_str())?.as_str(),
        "Q 12004820 1\nQ 12244832 2\n"
    );
    Ok(())
}

fn count_lines(lines: &str) -> u32 {
    let mut count = 0u32;
    for _ in lines.split_inclusive('\n') {
        count = count.saturating_add(1);
    }
    count
}

/// Stalls stand over all of the 61 sectors but their first 200 ticks, so that the journal is short. In these the comparator
/// changes to the level that isn't expected, so no sector has a crossing; and control ticks let the demand grow to 998. The last
/// stall ends at 26410800: COMM sets the sector in its fourth step after its entry and the stuck mark in its twelfth, and returns;
/// PWM makes seven steps, and TICK asks control in its second one.
#[test]
fn sixty_forced_sectors_end_the_drive(rt: HostRuntime) -> Result<(), Fail> {
    let mut trace = throttled(rt.alloc())?;
    for n in 0u64..60 {
        let at = 12005000 + n * 240100;
        let changed = at + 240090;
        let level = (n + 1) % 2;
        write!(&mut trace, "{at} J 239900\n{changed} C {level}\n")?;
    }
    trace.push_str("26411000 END\n")?;
    let journal = journal_of(rt.alloc(), trace.as_str())?;
    let sectors = lines_of(rt.alloc(), b"Q", journal.as_str())?;
    assert_eq!(rt; count_lines(sectors.as_str()), 61);
    let control = lines_of(rt.alloc(), b"QKX", journal.as_str())?;
    assert!(rt;
        control
            .as_str()
            .ends_with("Q 26410808 1\nK 26410848 11004 1 0\nX 26410848 1\n"),
        "{control}"
    );
    Ok(())
}

/// Two stalls reach beyond half a second without a frame, while the motor is driven. At the end of the second one a sector change
/// is due, then a chop, and then the control tick: its low switch, that of leg A, goes off before it returns.
#[test]
fn a_timeout_turns_all_switches_off(rt: HostRuntime) -> Result<(), Fail> {
    let mut trace = throttled(rt.alloc())?;
    trace.push_str("12010000 J 12000000\n24010100 J 12100000\n36110200 END\n")?;
    let journal = journal_of(rt.alloc(), trace.as_str())?;
    let end = lines_of(rt.alloc(), b"GKXO", journal.as_str())?;
    assert!(rt;
        end.as_str().ends_with(
            "G 36110106 0 0\nG 36110110 0 1\nO 36110122 6\nO 36110138 5\nK 36110144 15045 0 0\nX 36110144 0\nG 36110148 0 0\nO 36110156 2\n"
        ),
        "{end}"
    );
    Ok(())
}
