//! Runs of whole traces: ticks, frames, refusals, faults, settings and saves.
ghost use Rattle.std.specs.Prelude.{◌<◌, ◌^◌};

use am32sim::{Status, Words, sim_main, status_text};
use esc_base::{Block48, FlashOp, MemFlash, MemSink, MemSource};
use settings_block::default_block;
use std::alloc::Global;
use std::test::Fail;
use trace_runner::Room;
use trace_text::Refusal;

/// How a run ends that reads the trace which these parts make, in pieces of so many bytes, and what it writes. The takes
/// and puts with these numbers fail.
pub(crate) fn ran(
    alloc: Global,
    parts: &[&str],
    piece: usize,
    takes: &[u64],
    puts: &[u64],
    flash: &mut MemFlash,
) -> Result<(Status, String), Fail> {
    let mut trace = String::new(alloc);
    for part in parts {
        trace.push_str(part)?;
    }
    let mut words = Words::new(alloc);
    words.push("run")?;
    let mut src = MemSource::new(alloc, trace.as_bytes(), piece.max(1), takes)?;
    let mut out = MemSink::new(alloc, 65536, puts)?;
    let status = sim_main(&words, &mut src, &mut out, flash, Room::new(alloc)?);
    Ok((status, String::from_utf8_lossy(alloc, out.given())?))
}

/// The journal's lines that begin with one of these letters.
pub(crate) fn lines_of(alloc: Global, letters: &[u8], journal: &str) -> Result<String, Fail> {
    let mut found = String::new(alloc);
    for line in journal.split_inclusive('\n') {
        if let Some(letter) = line.as_bytes().first()
            && letters.contains(letter)
        {
            found.push_str(line)?;
        }
    }
    Ok(found)
}

/// The default block with another byte at `at`.
fn block_with(at: u8, byte: u8) -> Block48 {
    let mut block = default_block();
    if at < 48 {
        block.0[at as usize] = byte;
    }
    block
}

const START: &str = "U 0 1\nW 0 0\n";

#[test]
fn a_run_has_its_control_ticks(rt: HostRuntime) -> Result<(), Fail> {
    for (trace, piece, rest) in [
        (
            "5000 END\n",
            1,
            "I 2400 2\nK 2404 1 0 0\nO 2416 2\nI 4800 2\nK 4804 2 0 0\nO 4816 2\n",
        ),
        ("2400 END\n", 4096, ""),
        ("2401 END\n", 7, "I 2400 2\n"),
        ("2400 J 100\n2505 END\n", 7, "I 2500 2\nK 2504 1 0 0\n"),
    ] {
        let mut flash = MemFlash::new(rt.alloc())?;
        let (status, journal) = ran(rt.alloc(), &[trace], piece, &[], &[], &mut flash)?;
        assert_eq!(rt; status, Status::Done, "at {trace}");
        assert_eq!(rt;
            journal.as_str().strip_prefix(START),
            Some(rest),
            "at {trace}"
        );
    }
    Ok(())
}

/// A frame of value 1046 from tick 10000 on, without its last edge: each bit is 80 ticks, a zero is high for 30 of
/// them and a one for 60.
const FRAME: &str =
    "10000 E 1\n10060 E 0\n10080 E 1\n10110 E 0\n10160 E 1\n10190 E 0\n10240 E 1\n10270 E 0\n10320 E 1\n10350 E 0\n\
    10400 E 1\n10430 E 0\n10480 E 1\n10540 E 0\n10560 E 1\n10590 E 0\n10640 E 1\n10700 E 0\n10720 E 1\n10780 E 0\n\
    10800 E 1\n10830 E 0\n10880 E 1\n10910 E 0\n10960 E 1\n10990 E 0\n11040 E 1\n11100 E 0\n11120 E 1\n11180 E 0\n\
    11200 E 1\n";

/// The lines of the first four control ticks.
const TICKS: &str =
    "I 2400 2\nK 2404 1 0 0\nO 2416 2\nI 4800 2\nK 4804 2 0 0\nO 4816 2\nI 7200 2\nK 7204 3 0 0\nO 7216 2\nI 9600 2\nK 9604 4 0 0\nO 9616 2\n";

/// CAP is entered where the window closes. It reads how many edges there are and each of them, and its next step tells
/// the mode.
#[test]
fn a_first_frame_tells_the_mode(rt: HostRuntime) -> Result<(), Fail> {
    for (end, piece, rest) in [
        (
            "11230 E 0\n11900 END\n",
            7,
            "I 11230 3\nF 11298 D 2\nW 11300 2\nO 11302 3\n",
        ),
        ("11230 E 0\n11298 END\n", 4096, "I 11230 3\n"),
        ("11230 END\n", 1, ""),
    ] {
        let mut flash = MemFlash::new(rt.alloc())?;
        let (status, journal) = ran(rt.alloc(), &[FRAME, end], piece, &[], &[], &mut flash)?;
        let mut whole = String::new(rt.alloc());
        whole.push_str(START)?;
        whole.push_str(TICKS)?;
        whole.push_str(rest)?;
        assert_eq!(rt; status, Status::Done, "at {end}");
        assert_eq!(rt; journal.as_str(), whole.as_str(), "at {end}");
    }
    Ok(())
}

#[test]
fn a_faulty_line_is_named(rt: HostRuntime) -> Result<(), Fail> {
    for (trace, line, kind) in [
        ("", 1, Refusal::NoEnd),
        ("0 END", 1, Refusal::NoEnd),
        ("0 END\nx", 2, Refusal::AfterEnd),
        ("0 E 1\n5 E 2\n", 2, Refusal::BadValue),
        ("5 E 1\n3 E 0\n", 2, Refusal::TimeBack),
        (
            "0 E 00000000000000000000000000000000000001",
            1,
            Refusal::TooLong,
        ),
    ] {
        let mut flash = MemFlash::new(rt.alloc())?;
        let (status, journal) = ran(rt.alloc(), &[trace], 7, &[], &[], &mut flash)?;
        assert_eq!(rt; status, Status::Refused { line, kind }, "at {trace}");
        assert_eq!(rt; journal.as_str(), START, "at {trace}");
    }
    Ok(())
}

#[test]
fn a_fault_ends_the_run(rt: HostRuntime) -> Result<(), Fail> {
    for (take, put, want, written) in [
        (0, 0, Status::Done, START),
        (1, 0, Status::ReadFault, START),
        (0, 1, Status::WriteFault, ""),
        (0, 2, Status::WriteFault, "U 0 1\n"),
    ] {
        let mut flash = MemFlash::new(rt.alloc())?;
        let (status, journal) = ran(rt.alloc(), &["0 END\n"], 7, &[take], &[put], &mut flash)?;
        assert_eq!(rt; status, want);
        assert_eq!(rt; journal.as_str(), written);
    }
    Ok(())
}

/// The first run fails before it reads or writes, so the second one reads the whole trace.
#[test]
fn a_flash_that_fails_leaves_the_trace_unread(rt: HostRuntime) -> Result<(), Fail> {
    for op in [FlashOp::Attach, FlashOp::Read] {
        let mut flash = MemFlash::new(rt.alloc())?;
        flash.fail(op, 1)?;
        let mut src = MemSource::new(rt.alloc(), b"0 END\n", 7, &[])?;
        let mut out = MemSink::new(rt.alloc(), 4096, &[])?;
        let mut words = Words::new(rt.alloc());
        words.push("run")?;
        let first = sim_main(
            &words,
            &mut src,
            &mut out,
            &mut flash,
            Room::new(rt.alloc())?,
        );
        assert_eq!(rt; first, Status::AttachFault, "{op:?}");
        assert!(rt; out.given().is_empty(), "{op:?}");
        let second = sim_main(
            &words,
            &mut src,
            &mut out,
            &mut flash,
            Room::new(rt.alloc())?,
        );
        assert_eq!(rt; second, Status::Done, "{op:?}");
        assert_eq!(rt; out.given(), START.as_bytes(), "{op:?}");
    }
    Ok(())
}

/// The first line's number, and what the first burst is.
#[test]
fn settings_come_from_the_flash(rt: HostRuntime) -> Result<(), Fail> {
    for (at, byte, lines) in [
        (46, 0, "U 0 0\nF 11298 D 2\n"),
        (46, 1, "U 0 0\nF 11298 D 2\n"),
        (46, 2, "U 0 0\nF 11298 N\n"),
        (0, 0, "U 0 1\nF 11298 D 2\n"),
        (1, 2, "U 0 2\nF 11298 D 2\n"),
        (27, 13, "U 0 3\nF 11298 D 2\n"),
    ] {
        let mut flash = MemFlash::new(rt.alloc())?;
        let block = block_with(at, byte);
        flash.set(0x7C00, &block.0);
        let trace = [FRAME, "11230 E 0\n11300 END\n"];
        let (status, journal) = ran(rt.alloc(), &trace, 4096, &[], &[], &mut flash)?;
        assert_eq!(rt; status, Status::Done, "byte {at} is {byte}");
        assert_eq!(rt;
            lines_of(rt.alloc(), b"UF", journal.as_str())?.as_str(),
            lines,
            "byte {at} is {byte}"
        );
    }
    Ok(())
}

/// A pulse of 1500 us, and one that these settings read as the least or the greatest value and the default ones don't:
/// of 1008 us, or of 1750 us.
#[test]
fn settings_say_what_servo_pulses_mean(rt: HostRuntime) -> Result<(), Fail> {
    for (at, byte, pulse, lines) in [
        (
            32,
            130,
            "200000 E 1\n248384 E 0\n248400 END\n",
            "U 0 0\nF 77008 D 5\nF 248392 G 0 0\n",
        ),
        (
            33,
            0,
            "200000 E 1\n284000 E 0\n284016 END\n",
            "U 0 0\nF 77008 D 5\nF 284008 G 2047 0\n",
        ),
        (46, 1, "77400 END\n", "U 0 0\nF 77008 N\n"),
    ] {
        let mut flash = MemFlash::new(rt.alloc())?;
        let block = block_with(at, byte);
        flash.set(0x7C00, &block.0);
        let trace = ["1000 E 1\n73000 E 0\n", pulse];
        let (status, journal) = ran(rt.alloc(), &trace, 4096, &[], &[], &mut flash)?;
        assert_eq!(rt; status, Status::Done, "byte {at} is {byte}");
        assert_eq!(rt;
            lines_of(rt.alloc(), b"UF", journal.as_str())?.as_str(),
            lines,
            "byte {at} is {byte}"
        );
    }
    Ok(())
}

/// Adds equal DShot600 frames from a tick on, one each 2400 ticks: each bit is 80 ticks, a zero is high for 30 of them and
/// a one for 60.
pub(crate) fn push_frames(
    trace: &mut String,
    first: u32,
    word: u16,
    count: u8,
) -> Result<(), Fail> {
    for n in 0..count {
        push_frame(trace, first as u64 + n as u64 * 2400, word)?;
    }
    Ok(())
}

fn push_frame(trace: &mut String, at: u64, word: u16) -> Result<(), Fail>
    requires { at < 2 ^ 40 }
{
    for bit in 0..16u16 {
        let rises = at + bit as u64 * 80;
        let one = word >> (15 - bit) & 1;
        let falls = rises + 30 + one as u64 * 30;
        write!(trace, "{rises} E 1\n{falls} E 0\n")?;
    }
    Ok(())
}

/// A frame's word: the value 0.
pub(crate) const ZERO: u16 = 0x0000;

/// Command 8: direction 1.
pub(crate) const DIRECTION: u16 = 0x0101;

/// Command 10: 3D on.
const THREE_D: u16 = 0x0145;

/// Command 12: a save.
pub(crate) const SAVE: u16 = 0x0189;

/// Command 13: extended telemetry on.
const EXTENDED: u16 = 0x01AB;

/// Command 21: the reversed spin.
const SPIN: u16 = 0x02A8;

/// A trace in which control arms at tick 12000004. Six frames of one word end near 12015760, and after a frame of value 0
/// six of another near 12032560.
pub(crate) fn two_commands(alloc: Global, first: u16, second: u16) -> Result<String, Fail> {
    let mut trace = String::new(alloc);
    push_frames(&mut trace, 100, ZERO, 31)?;
    trace.push_str("80000 J 11920000\n")?;
    push_frames(&mut trace, 12002500, first, 6)?;
    push_frames(&mut trace, 12016900, ZERO, 1)?;
    push_frames(&mut trace, 12019300, second, 6)?;
    trace.push_str("12033000 END\n")?;
    Ok(trace)
}

/// CAP judges 68 ticks after the sixth frame and returns 4 ticks later; then MAIN is entered, and saves in its first step.
#[test]
fn a_save_has_what_commands_changed(rt: HostRuntime) -> Result<(), Fail> {
    for (first, lines, at, byte) in [
        (
            DIRECTION,
            "M 12015828 8\nM 12032628 12\nP 12032636 0\n",
            17,
            1,
        ),
        (
            THREE_D,
            "M 12015828 10\nM 12032628 12\nP 12032636 0\n",
            18,
            1,
        ),
        (
            EXTENDED,
            "M 12015828 13\nM 12032628 12\nP 12032636 0\n",
            2,
            0,
        ),
        (SPIN, "M 12015798 21\nM 12032628 12\nP 12032636 0\n", 2, 0),
    ] {
        let mut flash = MemFlash::new(rt.alloc())?;
        let trace = two_commands(rt.alloc(), first, SAVE)?;
        let (status, journal) = ran(rt.alloc(), &[trace.as_str()], 7, &[], &[], &mut flash)?;
        assert_eq!(rt; status, Status::Done);
        assert_eq!(rt;
            lines_of(rt.alloc(), b"MP", journal.as_str())?.as_str(),
            lines
        );
        let block = block_with(at, byte);
        assert_eq!(rt;
            flash.bytes().get(0x7C00..0x7C30),
            Some(block.0.as_slice()),
            "byte {at}"
        );
    }
    Ok(())
}

#[test]
fn a_refused_save_is_told_and_can_be_asked_for_again(rt: HostRuntime) -> Result<(), Fail> {
    for op in [FlashOp::Erase, FlashOp::Program] {
        let mut flash = MemFlash::new(rt.alloc())?;
        flash.fail(op, 1)?;
        let trace = two_commands(rt.alloc(), SAVE, SAVE)?;
        let (status, journal) = ran(rt.alloc(), &[trace.as_str()], 4096, &[], &[], &mut flash)?;
        assert_eq!(rt; status, Status::Done, "{op:?}");
        assert_eq!(rt;
            lines_of(rt.alloc(), b"MP", journal.as_str())?.as_str(),
            "M 12015828 12\nP 12015836 1\nM 12032628 12\nP 12032636 0\n",
            "{op:?}"
        );
        let block = default_block();
        assert_eq!(rt;
            flash.bytes().get(0x7C00..0x7C30),
            Some(block.0.as_slice()),
            "{op:?}"
        );
    }
    Ok(())
}

#[test]
fn each_status_has_its_text(rt: HostRuntime) {
    let back = Status::Refused {
        line: 7,
        kind: Refusal::TimeBack,
    };
    for (status, number, text) in [
        (Status::Done, 0, ""),
        (back, 1, "am32sim: line 7: TimeBack\n"),
        (Status::Usage, 2, "am32sim: usage\n"),
        (Status::ReadFault, 3, "am32sim: read fault\n"),
        (Status::WriteFault, 4, "am32sim: write fault\n"),
        (Status::NoMemory, 5, "am32sim: no memory\n"),
        (Status::AttachFault, 6, "am32sim: flash fault\n"),
    ] {
        assert_eq!(rt; status.exit_number(), number);
        assert_eq!(rt; status_text(&status).as_str(), text);
    }
}
