use gcr_reply::{gcr, line_bits, payload, reply_bits, unline};

#[test]
fn payloads(rt: HostRuntime) {
    for (period, word) in [
        (None, 0xFFF0),
        (Some(0), 0x000F),
        (Some(511), 0x1FFE),
        (Some(512), 0x300C),
        (Some(1000), 0x3F47),
        (Some(65407), 0xFFE1),
        (Some(65408), 0xFFF0),
    ] {
        assert_eq!(rt; payload(period), word);
    }
}

#[test]
fn lines(rt: HostRuntime) {
    for (word, bits, line) in [
        (0xFFF0, 0x7BDF9, 0b0_01010_01010_01010_10001),
        (0x3F47, 0x9BFB7, 0b0_11101_10101_01001_00101),
    ] {
        assert_eq!(rt; gcr(word), bits);
        assert_eq!(rt; line_bits(bits), line);
        assert_eq!(rt; unline(line), Some(word));
        assert_eq!(rt; unline(line + (1 << 20)), None);
    }
    assert_eq!(rt; unline(0), None);
    assert_eq!(rt; reply_bits(None), 0b0_01010_01010_01010_10001);
    assert_eq!(rt; reply_bits(Some(1000)), 0b0_11101_10101_01001_00101);
}
