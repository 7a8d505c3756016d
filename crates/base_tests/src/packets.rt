ghost use Rattle.std.specs.Prelude.{◌≤◌, ◌<◌, length};

use esc_base::{Arrived, FlashDev, FlashOp, MemFlash, Tick};
use fourway_packet::{Ack, Packet, Packets, Params, Session, answer, crc16, reply_bytes};
use settings_block::default_block;
use std::process::Abort;
use std::test::Fail;

const ACTIVE: Session = Session { active: true };

/// A request whose CRC was right.
fn request(cmd: u8, addr: u16, bytes: &[u8]) -> Packet
    requires some { 0 < length bytes.now }
    requires most { length bytes.now ≤ 256 }
{
    let params = Params::new(bytes);
    Packet::Whole { cmd, addr, params }
}

/// Hands over bytes that arrive `apart` ticks one after the other, and gives the packet that the last one completes.
fn cut(packets: &mut Packets, bytes: &[u8], apart: u64) -> Option<Packet> {
    let mut newest = None;
    let mut t = 0u64;
    for byte in bytes {
        t = t.saturating_add(apart);
        packets.push(Tick(t), *byte);
        if packets.waiting() > 0 {
            newest = packets.take();
        }
    }
    newest
}

/// The acknowledgement for a request in an active session, while not armed.
fn ack_of(flash: &mut MemFlash, packet: &Packet) -> u8 {
    let mut session = ACTIVE;
    answer(packet, &mut session, false, flash).ack
}

/// A packet has this reply, byte for byte.
fn replies(rt: &impl Abort, flash: &mut MemFlash, packet: Option<Packet>, expected: &[u8]) {
    match packet {
        Some(packet) => {
            let reply = answer(&packet, &mut Session { active: false }, false, flash);
            assert_eq!(rt; reply_bytes(&reply).as_slice(), expected);
        }
        None => assert!(rt; false, "there is no packet"),
    }
}

#[test]
fn the_alive_packet_is_answered(rt: HostRuntime) -> Result<(), Fail> {
    assert_eq!(rt; crc16(b"123456789"), 0x31C3);
    let mut flash = MemFlash::new(rt.alloc())?;
    let mut packets = Packets::new(rt.alloc())?;
    let alive = [0x2F, 0x30, 0x00, 0x00, 0x01, 0x00, 0xCF, 0xD4];
    let there = [0x2E, 0x30, 0x00, 0x00, 0x01, 0x00, 0x00, 0x44, 0xC2];
    replies(&rt, &mut flash, cut(&mut packets, &alive, 25_000), &there);
    let stray = [0x55, 0x2F, 0x30, 0x00, 0x00, 0x01, 0x00, 0xCF, 0xD4];
    replies(
        &rt,
        &mut flash,
        cut(&mut packets, &stray, 2_400_000),
        &there,
    );
    let wrong = [0x2F, 0x30, 0x00, 0x00, 0x01, 0x00, 0xCF, 0xD5];
    let refused = [0x2E, 0x30, 0x00, 0x00, 0x01, 0x00, 0x03, 0x74, 0xA1];
    replies(&rt, &mut flash, cut(&mut packets, &wrong, 25_000), &refused);
    Ok(())
}

#[test]
fn a_pause_drops_what_has_begun(rt: HostRuntime) -> Result<(), Fail> {
    let mut packets = Packets::new(rt.alloc())?;
    let alive = [0x2F, 0x30, 0x00, 0x00, 0x01, 0x00, 0xCF, 0xD4];
    assert!(rt; cut(&mut packets, &alive, 2_400_001).is_none());
    assert!(rt; cut(&mut packets, &alive[..7], 25_000).is_none());
    packets.push(Tick(7 * 25_000 + 2_400_001), 0xD4);
    assert_eq!(rt; packets.waiting(), 1);
    assert!(rt; packets.take().is_none());
    assert!(rt; cut(&mut packets, &alive, 25_000).is_some());
    Ok(())
}

#[test]
fn the_byte_after_512_is_lost(rt: HostRuntime) -> Result<(), Fail> {
    let mut packets = Packets::new(rt.alloc())?;
    for i in 0..512u64 {
        assert_eq!(rt; packets.push(Tick(i * 20_000), 0x2F), Arrived::Kept);
    }
    assert_eq!(rt; packets.push(Tick(512 * 20_000), 0x2F), Arrived::Lost);
    assert_eq!(rt; packets.waiting(), 512);
    Ok(())
}

#[test]
fn writes_are_refused_or_programmed(rt: HostRuntime) -> Result<(), Fail> {
    let mut flash = MemFlash::new(rt.alloc())?;
    let zeros = [0u8; 256];
    let mut session = ACTIVE;
    assert_eq!(rt; ack_of(&mut flash, &request(0x3B, 0, &zeros)), 0x0F);
    let write = request(0x3B, 0x2000, &zeros);
    assert_eq!(rt; answer(&write, &mut session, true, &mut flash).ack, 0x0F);
    assert!(rt; flash.bytes().iter().all(|byte| *byte == 0xFF));
    assert_eq!(rt; answer(&write, &mut session, false, &mut flash).ack, 0x00);
    let mut held = [0xFF; 258];
    flash.read(0x1FFF, &mut held)?;
    assert_eq!(rt;
        (held[0], held[1], held[256], held[257]),
        (0xFF, 0, 0, 0xFF)
    );
    assert_eq!(rt; ack_of(&mut flash, &request(0x3A, 0x7F80, &[0])), 0x09);
    flash.fail(FlashOp::Program, 1)?;
    assert_eq!(rt; ack_of(&mut flash, &write), 0x06);
    assert_eq!(rt; session, ACTIVE);
    Ok(())
}

#[test]
fn each_condition_has_its_acknowledgement(rt: HostRuntime) -> Result<(), Fail> {
    let mut flash = MemFlash::new(rt.alloc())?;
    for (cmd, addr, first, ack) in [
        (0x36u8, 0u16, 0u8, Ack::UnknownCommand.number()),
        (0x37, 0, 1, Ack::WrongChannel.number()),
        (0x39, 0, 3, Ack::NotAllowed.number()),
        (0x39, 0, 32, Ack::WrongParameters.number()),
        (0x3D, 0x301, 0, Ack::WrongParameters.number()),
        (0x3E, 0, 1, Ack::WrongParameters.number()),
        (0x3F, 0, 5, Ack::WrongParameters.number()),
        (0x40, 0x4000, 0, Ack::Differs.number()),
        (0x31, 0, 0, 0),
        (0x33, 0, 0, 0),
        (0x3F, 0, 4, 0),
    ] {
        assert_eq!(rt;
            ack_of(&mut flash, &request(cmd, addr, &[first])),
            ack,
            "{cmd}"
        );
    }
    Ok(())
}

#[test]
fn a_session_reads_and_writes(rt: HostRuntime) -> Result<(), Fail> {
    let mut flash = MemFlash::new(rt.alloc())?;
    let mut session = Session { active: false };
    let mut said = |packet: &Packet| answer(packet, &mut session, false, &mut flash);
    let name = said(&request(0x32, 7, &[0]));
    assert_eq!(rt; (name.cmd, name.addr, name.ack), (0x32, 7, 0));
    assert_eq!(rt; name.params.bytes(), b"m4wFCIntf".as_slice());
    assert_eq!(rt; said(&request(0x3A, 0, &[4])).ack, 0x0F);
    let begun = said(&request(0x37, 0, &[0]));
    assert_eq!(rt; begun.params.bytes(), [0x06, 0x1F, 0x00, 0x04].as_slice());
    assert_eq!(rt; said(&request(0x39, 0, &[4])).ack, 0);
    assert_eq!(rt; said(&request(0x3B, 0x1000, b"code")).ack, 0);
    assert_eq!(rt;
        said(&request(0x3A, 0x0FFF, &[5])).params.bytes(),
        b"\xFFcode".as_slice()
    );
    assert_eq!(rt; said(&request(0x40, 0x1000, b"code")).ack, 0);
    assert_eq!(rt; said(&request(0x3E, 0, &default_block().0)).ack, 0);
    assert_eq!(rt;
        said(&request(0x3D, 0, &[2])).params.bytes(),
        [1, 1].as_slice()
    );
    assert_eq!(rt; said(&request(0x35, 0, &[0])).ack, 0);
    assert_eq!(rt; session.active, false);
    Ok(())
}
