//! Captures, and their traces.
use am32csv::{Clock, Expected, Layout, Rate, Status, csv_main};
use esc_base::MemSink;
use std::test::Fail;

const SECONDS: Layout = Layout {
    clock: Clock::Seconds,
    time: 1,
    level: 2,
    drops_replies: false,
};

/// The status of a capture, and whether this was written.
fn outcome(
    rt: &HostRuntime,
    layout: &Layout,
    text: &str,
    wanted: &str,
) -> Result<(Status, bool), Fail> {
    let mut out = MemSink::new(rt.alloc(), 10000, &[])?;
    let status = csv_main(rt.alloc(), layout, text.as_bytes(), &mut out);
    Ok((status, out.given() == wanted.as_bytes()))
}

// A microsecond is 48 ticks, and the trace ends a millisecond behind the last row.
static CAPTURES: [(&str, &str); 8] = [
    ("0,0\n", "48000 END\n"),
    (
        "Time [s],Channel 0\n0.0,0\n0.00001,1\n",
        "480 E 1\n48480 END\n",
    ),
    ("-1.5,1\n-1.499999,0\n", "0 E 1\n48 E 0\n48048 END\n"),
    (
        "; a comment\n0,0,x\r\n0.000001, 1 \r\n0.000002,1\r\n0.000003,0\r\n",
        "48 E 1\n144 E 0\n48144 END\n",
    ),
    // 10 ns are 0.48 ticks, 11 ns 0.528.
    (
        "0,0\n0.00000001,1\n0.000000011,0\n",
        "0 E 1\n1 E 0\n48001 END\n",
    ),
    // Half a tick is rounded up: 31.25 ns are 1.5 ticks.
    ("0,0\n0.00000003125,1\n", "2 E 1\n48002 END\n"),
    (
        "22.369,0\n44.738621333,1\n",
        "1073741824 E 1\n1073741824 END\n",
    ),
    ("\"0\",\"0\"\n\"0.000001\",\"1\"", "48 E 1\n48048 END\n"),
];

#[test]
fn captures_in_seconds(rt: HostRuntime) -> Result<(), Fail> {
    for (text, trace) in &CAPTURES {
        let (status, same) = outcome(&rt, &SECONDS, text, trace)?;
        assert_eq!(rt; status, Status::Done, "{text:?}");
        assert!(rt; same, "{text:?}");
    }
    Ok(())
}

#[test]
fn captures_in_samples(rt: HostRuntime) -> Result<(), Fail> {
    let samples = Layout {
        clock: Clock::Samples(Rate { hertz: 24000000 }),
        time: 2,
        level: 1,
        drops_replies: false,
    };
    let (status, same) = outcome(
        &rt,
        &samples,
        "D0,n\n0,100\n1,105\n0,120\n",
        "10 E 1\n40 E 0\n48040 END\n",
    )?;
    assert_eq!(rt; status, Status::Done);
    assert!(rt; same);
    let numbered = Layout {
        clock: Clock::Samples(Rate { hertz: 1000000 }),
        time: 0,
        level: 1,
        drops_replies: false,
    };
    let (status, same) = outcome(
        &rt,
        &numbered,
        "logic\n0\n0\n1\n1\n0\n",
        "96 E 1\n192 E 0\n48192 END\n",
    )?;
    assert_eq!(rt; status, Status::Done);
    assert!(rt; same);
    Ok(())
}

static BAD: [(&str, u64, Expected); 12] = [
    ("", 1, Expected::Rows),
    ("Time,Level\n", 2, Expected::Rows),
    ("0,0\n1\n", 2, Expected::Columns),
    ("0,0\n\n; x\n1us,1\n", 2, Expected::Seconds),
    ("0,0\n0.0000000000000001,1\n", 2, Expected::Seconds),
    ("0,0\n1e-6,1\n", 2, Expected::Seconds),
    ("0,0\n,1\n", 2, Expected::Seconds),
    ("0,0\n1,2\n", 2, Expected::Level),
    ("0,0\n1,\n", 2, Expected::Level),
    ("0,0\n2,1\n1,0\n", 3, Expected::LaterTime),
    ("5,0\n4,1\n", 2, Expected::LaterTime),
    ("0,0\n22.4,1\n", 2, Expected::EarlierTime),
];

#[test]
fn bad_rows_are_named_with_what_was_expected(rt: HostRuntime) -> Result<(), Fail> {
    for (text, row, expected) in &BAD {
        let (status, _) = outcome(&rt, &SECONDS, text, "")?;
        let wanted = Status::Refused {
            row: *row,
            expected: *expected,
        };
        assert_eq!(rt; status, wanted, "{text:?}");
        assert!(rt; !expected.text().is_empty());
    }
    let samples = Layout {
        clock: Clock::Samples(Rate { hertz: 1 }),
        ..SECONDS
    };
    let (status, _) = outcome(&rt, &samples, "0,0\n1.5,1\n", "")?;
    let wanted = Status::Refused {
        row: 2,
        expected: Expected::Sample,
    };
    assert_eq!(rt; status, wanted);
    Ok(())
}

/// So many edges from `t` on, 50 ticks apart, of which the first one falls.
fn push_burst(text: &mut String, t: u32, edges: u32) -> Result<(), Fail> {
    for i in 0..edges {
        let at = t.saturating_add(i.saturating_mul(50));
        let level = i % 2;
        write!(text, "{at},{level}\n")?;
    }
    Ok(())
}

// Frames of 32 edges, each followed by a reply of 18 edges 1500 ticks behind it, and one without a reply. A burst of 18 that
// comes later than 2400 ticks behind a frame is none, nor is one behind fewer than 32 edges.
#[test]
fn replies_are_left_out(rt: HostRuntime) -> Result<(), Fail> {
    let ticks = Layout {
        clock: Clock::Samples(Rate { hertz: 48000000 }),
        drops_replies: true,
        ..SECONDS
    };
    for (gap, edges, is_reply) in [
        (1500, 32, true),
        (2400, 32, true),
        (2401, 32, false),
        (1500, 30, false),
    ] {
        let mut text = String::from_str(rt.alloc(), "0,1\n")?;
        push_burst(&mut text, 5000, edges)?;
        let last = 5000 + (edges - 1) * 50;
        let mut kept = text.clone()?;
        push_burst(&mut text, last + gap, 18)?;
        if !is_reply {
            push_burst(&mut kept, last + gap, 18)?;
        }
        push_burst(&mut text, 20000, 32)?;
        push_burst(&mut kept, 20000, 32)?;
        let mut wanted = String::from_str(rt.alloc(), "")?;
        for line in kept.as_str().lines() {
            if let Some((at, level)) = line.split_once(',') {
                write!(wanted, "{at} E {level}\n")?;
            }
        }
        wanted.push_str("69550 END\n")?;
        let (status, same) = outcome(&rt, &ticks, text.as_str(), wanted.as_str())?;
        assert_eq!(rt; status, Status::Done);
        assert!(rt; same, "{gap} {edges}");
    }
    Ok(())
}

#[test]
fn a_sink_that_fails(rt: HostRuntime) -> Result<(), Fail> {
    let mut out = MemSink::new(rt.alloc(), 100, &[2])?;
    let text = b"0,1\n0.5,0\n".as_slice();
    assert_eq!(rt;
        csv_main(rt.alloc(), &SECONDS, text, &mut out),
        Status::WriteFault
    );
    assert_eq!(rt; out.given(), b"0 E 1\n".as_slice());
    assert_eq!(rt; Status::WriteFault.exit_number(), 4);
    Ok(())
}
