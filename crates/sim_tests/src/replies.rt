//! Replies to bidirectional frames.
ghost use Rattle.std.specs.Prelude.{◌<◌, ◌^◌};

use crate::drives::journal_of;
use crate::runs::lines_of;
use std::alloc::Global;
use std::test::Fail;

/// The word of an inverted frame: the value 0.
const ZERO: u16 = 0x000F;

/// Throttle 1046.
const THROTTLE: u16 = 0x82C9;

/// The same with the last bit of its checksum turned.
const DAMAGED: u16 = 0x82C8;

/// Adds an inverted frame from a tick on, with so many ticks a bit: 80 of DShot600, 160 of DShot300. A zero is low for 3/8 of its
/// bit and a one for 3/4.
fn push_frame(trace: &mut String, at: u64, bit: u64, word: u16) -> Result<(), Fail>
    requires at { at < 2 ^ 40 }
    requires bit { bit < 2 ^ 10 }
{
    for n in 0..16u64 {
        let falls = at + n * bit;
        let one = (word >> (15 - n)) & 1;
        let rises = falls + bit / 8 * 3 * (1 + one as u64);
        write!(trace, "{falls} E 0\n{rises} E 1\n")?;
    }
    Ok(())
}

/// The lines of periods and replies, with a dot for the time of each.
fn replies(alloc: Global, journal: &str) -> Result<String, Fail> {
    let mut told = String::new(alloc);
    let lines = lines_of(alloc, b"VR", journal)?;
    for line in lines.as_str().split_inclusive('\n') {
        if let Some((letter, rest)) = line.split_once(' ')
            && let Some((_, fields)) = rest.split_once(' ')
        {
            write!(&mut told, "{letter} . {fields}")?;
        }
    }
    Ok(told)
}

/// A first frame at tick 10000 tells the mode, and the second one begins at tick 20000. Its last edge is at 22520 or 21260, or
/// at 21230 where its last bit is a zero. CAP is entered there, judges in its 34th step, and tells the period and loads the
/// reply in the two steps after it. The reply starts 1440 ticks after the last edge, and its 21 bits last 128 or 64 ticks each;
/// then CAP is entered again, and opens a window in its first step. A damaged frame has no reply: the next window is opened so
/// 600 ticks after its verdict.
#[test]
fn a_good_frame_is_answered_and_a_damaged_one_is_not(rt: HostRuntime) -> Result<(), Fail> {
    for (bit, word, lines) in [
        (
            160,
            THROTTLE,
            "W 0 0\nF 12588 D 3\nW 12590 3\nF 22588 G 1046 0\nV 22590 none\nR 22592 23960 001010010100101010001\nW 26650 3\n",
        ),
        (
            80,
            THROTTLE,
            "W 0 0\nF 11328 D 4\nW 11330 4\nF 21328 G 1046 0\nV 21330 none\nR 21332 22700 001010010100101010001\nW 24046 4\n",
        ),
        (
            80,
            DAMAGED,
            "W 0 0\nF 11328 D 4\nW 11330 4\nF 21298 B 5\nW 21900 4\n",
        ),
    ] {
        let mut trace = String::new(rt.alloc());
        trace.push_str("0 E 1\n")?;
        push_frame(&mut trace, 10000, bit, THROTTLE)?;
        push_frame(&mut trace, 20000, bit, word)?;
        trace.push_str("40000 END\n")?;
        let journal = journal_of(rt.alloc(), trace.as_str())?;
        let found = lines_of(rt.alloc(), b"WFVR", journal.as_str())?;
        assert_eq!(rt; found.as_str(), lines, "word {word:x}, {bit} ticks a bit");
    }
    Ok(())
}

/// Half a second passes in an open window without a frame, so control loses the mode. The frame that comes then is still one of
/// that window, and is answered; the window after it is one of no mode.
#[test]
fn a_frame_after_a_timeout_is_answered(rt: HostRuntime) -> Result<(), Fail> {
    let mut trace = String::new(rt.alloc());
    trace.push_str("0 E 1\n")?;
    push_frame(&mut trace, 10000, 80, ZERO)?;
    trace.push_str("12000 J 12000000\n12012100 J 12000000\n")?;
    push_frame(&mut trace, 24020000, 80, THROTTLE)?;
    trace.push_str("24030000 END\n")?;
    let journal = journal_of(rt.alloc(), trace.as_str())?;
    let found = lines_of(rt.alloc(), b"WFXVR", journal.as_str())?;
    assert_eq!(rt;
        found.as_str(),
        "W 0 0\nF 11328 D 4\nW 11330 4\nX 24012104 0\nF 24021328 G 1046 0\nV 24021330 none\nR 24021332 24022700 001010010100101010001\nW 24024046 0\n"
    );
    Ok(())
}

/// Control arms at tick 12000004, throttle starts the drive at 12004800, and the comparator changes in each sector: at first each
/// 19200 ticks, then sooner and sooner, and at last each 8000 ticks, until so are the sectors. There is no period before the
/// drive, none in its first sector, and at last 1000 microseconds. Their bits are those of the word 0x3F47, as 0xFFF0 has those
/// of none.
#[test]
fn six_gaps_of_8000_ticks_are_1000_microseconds(rt: HostRuntime) -> Result<(), Fail> {
    let mut trace = String::new(rt.alloc());
    trace.push_str("0 E 1\n")?;
    for n in 0..31u64 {
        push_frame(&mut trace, 100 + n * 4800, 80, ZERO)?;
    }
    trace.push_str("150000 J 11850000\n")?;
    push_frame(&mut trace, 12002500, 80, THROTTLE)?;
    push_frame(&mut trace, 12008000, 80, THROTTLE)?;
    let mut at = 12020000u64;
    let mut gap = 19200u64;
    for n in 0..50u64 {
        let level = (n + 1) % 2;
        write!(&mut trace, "{at} C {level}\n")?;
        assert!(rt; at < 13000000 && gap < 20000);
        at += gap;
        gap = (gap * 19 / 20).max(8000);
    }
    assert!(rt; at < 13000000);
    push_frame(&mut trace, at, 80, THROTTLE)?;
    let end = at + 4000;
    write!(&mut trace, "{end} END\n")?;
    let journal = journal_of(rt.alloc(), trace.as_str())?;
    let found = replies(rt.alloc(), journal.as_str())?;
    let start = at + 2700;
    let last = format!(in rt.alloc();
        "V . none\nR . 12005200 001010010100101010001\nV . none\nR . 12010700 001010010100101010001\nV . 1000\nR . {start} 011101101010100100101\n"
    )?;
    assert!(rt; found.as_str().ends_with(last.as_str()), "{found}");
    Ok(())
}
