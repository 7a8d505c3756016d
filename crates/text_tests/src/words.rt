use esc_base::{Event, MemSink, Tick};
use std::test::Fail;
use trace_tools::{Unwritten, Words, Writer, duration_in};

#[test]
fn words_stand_between_blanks(rt: HostRuntime) {
    let mut words = Words::of(b"  1ms\tthrottle 48 # a comment");
    assert_eq!(rt; words.next(), Some(b"1ms".as_slice()));
    assert_eq!(rt; words.next(), Some(b"throttle".as_slice()));
    assert_eq!(rt; words.next(), Some(b"48".as_slice()));
    assert_eq!(rt; words.next(), None);
    assert_eq!(rt; Words::of(b"# nothing").next(), None);
}

static DURATIONS: [(&str, Option<u64>); 14] = [
    ("1us", Some(48)),
    ("0us", Some(0)),
    ("1.5ms", Some(72000)),
    ("2s", Some(96000000)),
    ("0.01us", Some(0)),
    ("0.0104166us", Some(0)),
    ("0.0104167us", Some(1)),
    ("31.25us", Some(1500)),
    ("17t", Some(17)),
    ("1.5t", None),
    ("us", None),
    ("1", None),
    ("1m", None),
    ("100s", None),
];

#[test]
fn durations_are_rounded_to_the_nearest_tick(rt: HostRuntime) {
    for (word, ticks) in &DURATIONS {
        assert_eq!(rt; duration_in(word.as_bytes()), *ticks, "{word}");
    }
}

fn edge(t: u64, level: bool) -> Event {
    Event::Edge { t: Tick(t), level }
}

#[test]
fn a_writer_refuses_what_the_reader_would(rt: HostRuntime) -> Result<(), Fail> {
    let mut out = MemSink::new(rt.alloc(), 1000, &[4])?;
    let mut writer = Writer::new();
    assert_eq!(rt; writer.put(&edge(7, true), &mut out), Ok(()));
    assert_eq!(rt;
        writer.put(&edge(6, false), &mut out),
        Err(Unwritten::TimeBack)
    );
    assert_eq!(rt;
        writer.put(&edge(1073741825, false), &mut out),
        Err(Unwritten::TooLate)
    );
    let byte = |t| Event::Serial {
        t: Tick(t),
        byte: 0x2F,
    };
    assert_eq!(rt; writer.put(&byte(8), &mut out), Ok(()));
    assert_eq!(rt;
        writer.put(&byte(20007), &mut out),
        Err(Unwritten::TooClose)
    );
    let stall = |n| Event::Stall { t: Tick(9), n };
    assert_eq!(rt; writer.put(&stall(0), &mut out), Err(Unwritten::BadStall));
    assert_eq!(rt;
        writer.put(&stall(16777217), &mut out),
        Err(Unwritten::BadStall)
    );
    assert_eq!(rt; writer.put(&stall(16777216), &mut out), Ok(()));
    assert_eq!(rt; writer.put(&stall(1), &mut out), Err(Unwritten::Sink));
    assert_eq!(rt; writer.end(Tick(8), &mut out), Err(Unwritten::TimeBack));
    assert_eq!(rt; writer.end(Tick(9), &mut out), Ok(()));
    assert_eq!(rt;
        out.given(),
        b"7 E 1\n8 S 2f\n9 J 16777216\n9 END\n".as_slice()
    );
    Ok(())
}
