use esc_base::{Event, MemSource, Note, Tick};
use std::test::Fail;
use trace_text::{Item, Line, Lines, Refusal, event_text, note_read, note_text, write_note};

/// The answer that ends the reading of a text of few lines, and its line.
fn outcome(src: &mut MemSource) -> (Item, u64) {
    let mut lines = Lines::new();
    for _ in 0..9 {
        match lines.next(src) {
            Item::Event(_) => {}
            item => return (item, lines.line()),
        }
    }
    (Item::Fault, 0)
}

const END: Item = Item::End(Tick(20000));

/// Texts, the line that ends the reading of each, and the answer there.
static TEXTS: [(&str, u64, Item); 48] = [
    ("20000 END\n", 1, END),
    (
        "0 E 1\n0 E 1\n0 C 0\n0 S 2f\n5 E 0\n20000 S aF\n20000 J 16777216\n20000 END\n",
        8,
        END,
    ),
    ("1073741824 END\n", 1, Item::End(Tick(1073741824))),
    ("", 1, Item::Refused(Refusal::NoEnd)),
    ("0 END", 1, Item::Refused(Refusal::NoEnd)),
    ("0 E 1\n0 EN", 2, Item::Refused(Refusal::NoEnd)),
    ("0 E 1\n", 2, Item::Refused(Refusal::NoEnd)),
    ("0 END\nx", 2, Item::Refused(Refusal::AfterEnd)),
    ("0 END\n\n", 2, Item::Refused(Refusal::AfterEnd)),
    ("0 END x\nx", 1, Item::Refused(Refusal::Trailing)),
    (
        "1111111111222222222233333333334444444444\n",
        1,
        Item::Refused(Refusal::BadTime),
    ),
    (
        "1111111111222222222233333333334444444444",
        1,
        Item::Refused(Refusal::NoEnd),
    ),
    (
        "11111111112222222222333333333344444444445\n",
        1,
        Item::Refused(Refusal::TooLong),
    ),
    (
        "11111111112222222222333333333344444444445",
        1,
        Item::Refused(Refusal::TooLong),
    ),
    ("\n", 1, Item::Refused(Refusal::BadTime)),
    ("5\n", 1, Item::Refused(Refusal::BadTime)),
    ("05 E 1\n", 1, Item::Refused(Refusal::BadTime)),
    ("x END\n", 1, Item::Refused(Refusal::BadTime)),
    ("5 E 1\n03 E 1\n", 2, Item::Refused(Refusal::BadTime)),
    ("5 E 1\n4 E 0\n", 2, Item::Refused(Refusal::TimeBack)),
    ("5 E 1\n4 X\n", 2, Item::Refused(Refusal::TimeBack)),
    ("5 E 1\n4 END\n", 2, Item::Refused(Refusal::TimeBack)),
    ("1073741825 END\n", 1, Item::Refused(Refusal::TooLate)),
    ("1073741825 X\n", 1, Item::Refused(Refusal::TooLate)),
    (
        "18446744073709551616 E 1\n",
        1,
        Item::Refused(Refusal::TooLate),
    ),
    ("5 X 2\n", 1, Item::Refused(Refusal::BadKind)),
    ("5  E 1\n", 1, Item::Refused(Refusal::BadKind)),
    ("5 \n", 1, Item::Refused(Refusal::BadKind)),
    ("5 e 1\n", 1, Item::Refused(Refusal::BadKind)),
    ("5 E\n", 1, Item::Refused(Refusal::BadValue)),
    ("5 E \n", 1, Item::Refused(Refusal::BadValue)),
    ("5 E 2\n", 1, Item::Refused(Refusal::BadValue)),
    ("5 C 10\n", 1, Item::Refused(Refusal::BadValue)),
    ("5 E 1\r\n", 1, Item::Refused(Refusal::BadValue)),
    ("5 S 2g\n", 1, Item::Refused(Refusal::BadValue)),
    ("5 J 0\n", 1, Item::Refused(Refusal::BadValue)),
    ("5 J 01\n", 1, Item::Refused(Refusal::BadValue)),
    ("5 J 16777217\n", 1, Item::Refused(Refusal::BadValue)),
    ("5 E 2 3\n", 1, Item::Refused(Refusal::BadValue)),
    ("5 E 1 \n", 1, Item::Refused(Refusal::Trailing)),
    ("5 E 1 0\n", 1, Item::Refused(Refusal::Trailing)),
    ("5 END \n", 1, Item::Refused(Refusal::Trailing)),
    ("0 S 2f\n5 S 30 x\n", 2, Item::Refused(Refusal::Trailing)),
    ("0 S 2f\n19999 S 30\n", 2, Item::Refused(Refusal::TooClose)),
    (
        "0 S 2f\n5 E 1\n19999 S 30\n",
        3,
        Item::Refused(Refusal::TooClose),
    ),
    ("0 S 2f\n5 E 1\n20000 S 30\n20000 END\n", 4, END),
    ("0 S 2f\n0 S 30\n", 2, Item::Refused(Refusal::TooClose)),
    ("0 E 1\n5 E 1\n", 3, Item::Refused(Refusal::NoEnd)),
];

#[test]
fn texts_have_these_outcomes_in_pieces_of_any_size(rt: HostRuntime) -> Result<(), Fail> {
    for (text, line, item) in &TEXTS {
        for piece in [1, 7, 4096] {
            let mut src = MemSource::new(rt.alloc(), text.as_bytes(), piece, &[])?;
            let (answer, at) = outcome(&mut src);
            assert_eq!(rt; answer, *item, "{text:?} in pieces of {piece}");
            assert_eq!(rt; at, *line, "{text:?} in pieces of {piece}");
        }
    }
    for failing in [1, 3, 6] {
        let mut src = MemSource::new(rt.alloc(), b"0 END\n", 1, &[failing])?;
        let (answer, _) = outcome(&mut src);
        assert_eq!(rt; answer, Item::Fault, "call {failing} fails");
    }
    Ok(())
}

#[test]
fn notes_and_events_have_these_lines(rt: HostRuntime) {
    let t = Tick(9);
    assert_eq!(rt;
        note_text(&Note::Up { t: Tick(0), r: 1 }).as_bytes(),
        "U 0 1\n".as_bytes()
    );
    assert_eq!(rt;
        note_text(&Note::Good { t, v: 1046, q: 0 }).as_bytes(),
        "F 9 G 1046 0\n".as_bytes()
    );
    assert_eq!(rt;
        note_text(&Note::Nothing { t }).as_bytes(),
        "F 9 N\n".as_bytes()
    );
    assert_eq!(rt;
        note_text(&Note::Period { t, p: None }).as_bytes(),
        "V 9 none\n".as_bytes()
    );
    let reply = Note::Reply {
        t,
        s: Tick(23960),
        b: 0b001010010100101010001,
    };
    assert_eq!(rt;
        note_text(&reply).as_bytes(),
        "R 9 23960 001010010100101010001\n".as_bytes()
    );
    assert_eq!(rt;
        note_text(&Note::Packet { t, cc: 0x30, kk: 3 }).as_bytes(),
        "B 9 30 03\n".as_bytes()
    );
    let greatest = Note::Watched {
        t: Tick(4294967295),
        i: 4294967295,
        n: 4294967295,
        s: 1,
    };
    assert_eq!(rt;
        note_text(&greatest).as_bytes(),
        "Y 4294967295 4294967295 4294967295 1\n".as_bytes()
    );
    assert_eq!(rt;
        event_text(&Event::Edge { t, level: true }).as_bytes(),
        "9 E 1\n".as_bytes()
    );
    assert_eq!(rt;
        event_text(&Event::Serial { t, byte: 0xAF }).as_bytes(),
        "9 S af\n".as_bytes()
    );
    assert_eq!(rt;
        event_text(&Event::Stall { t, n: 16777216 }).as_bytes(),
        "9 J 16777216\n".as_bytes()
    );
}

/// One line is kept for all, the longest first, so that nothing of it is left in a shorter one.
#[test]
fn numbers_of_every_length_are_written_into_a_kept_line(rt: HostRuntime) {
    let mut line = Line::new();
    for (tick, text) in [
        (4294967295, "A 4294967295\n"),
        (1000000000, "A 1000000000\n"),
        (999999999, "A 999999999\n"),
        (10000, "A 10000\n"),
        (9999, "A 9999\n"),
        (100, "A 100\n"),
        (99, "A 99\n"),
        (10, "A 10\n"),
        (9, "A 9\n"),
        (0, "A 0\n"),
    ] {
        write_note(&mut line, &Note::Armed { t: Tick(tick) });
        assert_eq!(rt; line.as_bytes(), text.as_bytes());
    }
}

#[test]
fn lines_of_notes_are_read_back(rt: HostRuntime) {
    let reply = Note::Reply {
        t: Tick(9),
        s: Tick(23960),
        b: 0b001010010100101010001,
    };
    assert_eq!(rt;
        note_read(b"R 9 23960 001010010100101010001\n"),
        Some(reply)
    );
    assert_eq!(rt;
        note_read(b"V 9 none\n"),
        Some(Note::Period {
            t: Tick(9),
            p: None
        })
    );
    for text in [
        "",
        "\n",
        "A 9",
        "A 09\n",
        "A 9 \n",
        "A 4294967296\n",
        "U 1 0\n",
        "W 0 6\n",
        "S 9 2F\n",
        "F 9 G 2048 0\n",
        "A 9\n\n",
    ] {
        assert_eq!(rt; note_read(text.as_bytes()), None, "{text:?}");
    }
}
