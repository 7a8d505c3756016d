use crate::{frame_word, has_crc, percent, tells_period};

#[test]
fn worked_frame(rt: HostRuntime) {
    assert_eq!(rt; frame_word(1046, false), 0x82C6);
    assert_eq!(rt; frame_word(1046, true), 0x82C9);
}

#[test]
fn worked_reply(rt: HostRuntime) {
    let levels = 0b011010111001010011011;
    assert_eq!(rt; tells_period(levels, Some(2404)), true);
    assert_eq!(rt; tells_period(levels, Some(2408)), false);
    assert_eq!(rt; tells_period(levels, None), false);
    assert_eq!(rt; tells_period(0b001010010100101010001, None), true);
}

#[test]
fn crc_of_nine_digits(rt: HostRuntime) {
    assert_eq!(rt; has_crc(b"123456789", 0x31C3), true);
    assert_eq!(rt; has_crc(b"123456780", 0x31C3), false);
}

#[test]
fn percents(rt: HostRuntime) {
    assert_eq!(rt; percent(48), 5);
    assert_eq!(rt; percent(1046), 49);
    assert_eq!(rt; percent(2047), 95);
}
