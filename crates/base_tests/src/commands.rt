use dshot_commands::{Act, Repeats};

/// Feeds equal still frames, and answers which of them acted, counted from 1.
fn acted(repeats: &mut Repeats, value: u16, frames: u8) -> Option<u8> {
    let mut first = None;
    for frame in 1..=frames {
        if repeats.frame(value, true).is_some() {
            if first.is_some() {
                return Some(0);
            }
            first = Some(frame);
        }
    }
    first
}

#[test]
fn commands_act_once_in_a_row(rt: HostRuntime) {
    for (value, at) in [
        (1, Some(1)),
        (5, Some(1)),
        (6, None),
        (7, Some(6)),
        (11, None),
        (12, Some(6)),
        (14, Some(6)),
        (21, Some(6)),
        (22, None),
        (48, None),
    ] {
        assert_eq!(rt; acted(&mut Repeats::new(), value, 8), at, "at {value}");
    }
    assert_eq!(rt; acted(&mut Repeats::new(), 0, 8), None);
}

#[test]
fn other_frames_end_a_run(rt: HostRuntime) {
    let mut repeats = Repeats::new();
    assert_eq!(rt; acted(&mut repeats, 21, 5), None);
    assert_eq!(rt; repeats.frame(20, true), None);
    assert_eq!(rt; acted(&mut repeats, 21, 7), Some(6));
    assert_eq!(rt; repeats.frame(9, false), None);
    assert_eq!(rt; acted(&mut repeats, 9, 5), None);
    repeats.reset();
    assert_eq!(rt; acted(&mut repeats, 9, 5), None);
    assert_eq!(rt; repeats.frame(9, true), Some(Act::ThreeD(false)));
    assert_eq!(rt; Act::ThreeD(false).number(), 9);
}
