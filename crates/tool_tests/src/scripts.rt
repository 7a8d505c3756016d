//! Scripts of flights, and their traces.
use am32trace::{Expected, ScriptWords, Status, trace_main};
use esc_base::{MemSink, MemSource};
use std::test::Fail;

fn refused(line: u32, expected: Expected) -> Status {
    Status::Refused { line, expected }
}

/// The status of a script, and what it wrote.
fn outcome(rt: &HostRuntime, script: &str, wanted: &str) -> Result<(Status, bool), Fail> {
    let mut src = MemSource::new(rt.alloc(), script.as_bytes(), 7, &[])?;
    let mut out = MemSink::new(rt.alloc(), 10000, &[])?;
    let status = trace_main(&ScriptWords {}, &mut src, &mut out);
    Ok((status, out.given() == wanted.as_bytes()))
}

/// Scripts, and what they write.
static SCRIPTS: [(&str, &str); 5] = [
    ("0us end", "0 END\n"),
    (
        "1us comparator high\n2us comparator every 1us\n4.5us end\n",
        "48 C 1\n96 C 0\n144 C 1\n192 C 0\n216 END\n",
    ),
    (
        "0t comparator every 100t bounce 1 3t\n107t end\n",
        "0 C 1\n3 C 0\n6 C 1\n100 C 0\n103 C 1\n106 C 0\n107 END\n",
    ),
    (
        "signal servo every 2.5ms\n1us pulse 1ms\n1200us off\n6ms end\n",
        "48 E 1\n48048 E 0\n288000 END\n",
    ),
    (
        "0us serial 2F aB\n1ms stall 1t\n2ms line high\n2ms end\n",
        "0 S 2f\n25000 S ab\n48000 J 1\n96000 E 1\n96000 END\n",
    ),
];

#[test]
fn scripts_write_these_traces(rt: HostRuntime) -> Result<(), Fail> {
    for (script, trace) in &SCRIPTS {
        let (status, same) = outcome(&rt, script, trace)?;
        assert_eq!(rt; status, Status::Done, "{script}");
        assert!(rt; same, "{script}");
    }
    Ok(())
}

/// The worked frame of docs/SIGNAL.md: value 1046 at tick 10000, word 82C6.
const FRAME: &str = "\
10000 E 1\n10060 E 0\n10080 E 1\n10110 E 0\n10160 E 1\n10190 E 0\n10240 E 1\n10270 E 0\n10320 E 1\n10350 E 0\n10400 E 1\n10430 E 0\n\
10480 E 1\n10540 E 0\n10560 E 1\n10590 E 0\n10640 E 1\n10700 E 0\n10720 E 1\n10780 E 0\n10800 E 1\n10830 E 0\n10880 E 1\n10910 E 0\n\
10960 E 1\n10990 E 0\n11040 E 1\n11100 E 0\n11120 E 1\n11180 E 0\n11200 E 1\n11230 E 0\n12000 END\n";

#[test]
fn a_frame_has_the_edges_of_its_word(rt: HostRuntime) -> Result<(), Fail> {
    for script in [
        "signal dshot600 every 1ms\n10000t frame 1046\n12000t end\n",
        "signal dshot600 every 1ms\n10000t throttle 1046\n11000t off\n12000t end\n",
    ] {
        let (status, same) = outcome(&rt, script, FRAME)?;
        assert_eq!(rt; status, Status::Done);
        assert!(rt; same, "{script}");
    }
    Ok(())
}

// Computed by hand for 2F 37 00 00 01 00: polynomial 0x1021, start 0, the most significant bit first.
#[test]
fn a_packet_has_its_length_and_crc(rt: HostRuntime) -> Result<(), Fail> {
    let script = "0us packet 37 0000 00\n10ms end\n";
    let trace =
        "0 S 2f\n25000 S 37\n50000 S 00\n75000 S 00\n100000 S 01\n125000 S 00\n150000 S a8\n175000 S 00\n480000 END\n";
    let (status, same) = outcome(&rt, script, trace)?;
    assert_eq!(rt; status, Status::Done);
    assert!(rt; same);
    Ok(())
}

static BAD: [(&str, u32, Expected); 32] = [
    ("", 1, Expected::End),
    ("1ms throttle 0\n", 1, Expected::Frames),
    ("0us end\n0us end\n", 2, Expected::NoLine),
    ("hello\n", 1, Expected::Directive),
    ("1 end\n", 1, Expected::Directive),
    ("1ms\n", 1, Expected::Action),
    ("1ms fly\n", 1, Expected::Action),
    ("1ms end now\n", 1, Expected::LineEnd),
    ("# one\n\n2ms line low\n1ms end\n", 4, Expected::LaterTime),
    ("22.37s end\n", 1, Expected::EarlierTime),
    ("signal dshot1200 every 1ms\n", 1, Expected::SignalKind),
    ("signal dshot600 1ms\n", 1, Expected::Every),
    ("signal dshot600 every 31us\n", 1, Expected::Rate),
    ("signal dshot600 every\n", 1, Expected::Duration),
    (
        "1ms line low\nsignal dshot600 every 1ms\n",
        2,
        Expected::SignalAbove,
    ),
    (
        "signal dshot600 every 1ms\n1ms throttle 47\n",
        2,
        Expected::Throttle,
    ),
    (
        "signal dshot600 every 1ms\n1ms throttle 2048\n",
        2,
        Expected::Throttle,
    ),
    (
        "signal dshot600 every 1ms\n1ms command 48\n",
        2,
        Expected::Command,
    ),
    (
        "signal dshot600 every 1ms\n1ms pulse 1ms\n",
        2,
        Expected::Pulses,
    ),
    (
        "signal servo every 3ms\n1ms pulse 2.5ms\n",
        2,
        Expected::Width,
    ),
    (
        "signal dshot600 every 1ms\n1ms frame x\n",
        2,
        Expected::Value,
    ),
    (
        "signal dshot600 every 1ms\n1ms frame 0 flop\n",
        2,
        Expected::FrameWord,
    ),
    (
        "signal dshot600 every 1ms\n1ms frame 0 flip 16\n",
        2,
        Expected::Bit,
    ),
    (
        "signal dshot600 every 1ms\n1ms frame 0 cut 32\n",
        2,
        Expected::Edges,
    ),
    (
        "signal dshot600 every 1ms\n1ms flip 0\n",
        2,
        Expected::Sender,
    ),
    (
        "signal dshot600 every 1ms\n1ms throttle 0\n2ms frame 0\n",
        3,
        Expected::FreeLine,
    ),
    ("1ms line up\n", 1, Expected::Level),
    ("1ms comparator low high\n", 1, Expected::LineEnd),
    (
        "1ms comparator every 10us bounce 5 1us\n",
        1,
        Expected::Bounces,
    ),
    ("1ms serial 2g\n", 1, Expected::Bytes),
    (
        "1ms serial 00 01\n1.1ms serial 02\n",
        2,
        Expected::QuietSerial,
    ),
    ("1ms stall 350ms\n", 1, Expected::Stall),
];

#[test]
fn bad_lines_are_named_with_what_was_expected(rt: HostRuntime) -> Result<(), Fail> {
    for (script, line, expected) in &BAD {
        let (status, _) = outcome(&rt, script, "")?;
        assert_eq!(rt; status, refused(*line, *expected), "{script}");
        assert!(rt; !expected.text().is_empty());
    }
    Ok(())
}

#[test]
fn a_long_line_is_refused(rt: HostRuntime) -> Result<(), Fail> {
    let mut text = String::new(rt.alloc());
    for _ in 0..1201u32 {
        text.push_str("#")?;
    }
    let (status, _) = outcome(&rt, text.as_str(), "")?;
    assert_eq!(rt; status, refused(1, Expected::ShorterLine));
    Ok(())
}

#[test]
fn faults_have_statuses_of_their_own(rt: HostRuntime) -> Result<(), Fail> {
    let script = b"0us line high\n1us end\n";
    let mut src = MemSource::new(rt.alloc(), script, 5, &[2])?;
    let mut out = MemSink::new(rt.alloc(), 100, &[])?;
    assert_eq!(rt;
        trace_main(&ScriptWords {}, &mut src, &mut out),
        Status::ReadFault
    );
    let mut src = MemSource::new(rt.alloc(), script, 5, &[])?;
    let mut out = MemSink::new(rt.alloc(), 100, &[2])?;
    assert_eq!(rt;
        trace_main(&ScriptWords {}, &mut src, &mut out),
        Status::WriteFault
    );
    assert_eq!(rt; out.given(), b"0 E 1\n".as_slice());
    assert_eq!(rt; Status::WriteFault.exit_number(), 4);
    Ok(())
}
