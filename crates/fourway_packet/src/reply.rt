ghost use Rattle.std.specs.Prelude.{◌≡◌, ◌≤◌, ◌<◌, ◌+◌, ◌++◌, ◌∷◌, [], length};
ghost use Rattle.byteorder.specs.Endian.{big_bytes};
ghost use Rattle.arrayvec.specs.ArrayVec.{array_vec_len};
ghost use Rattle.fourway_packet.specs.Reply.{head_of, body_of, reply_text};

use crate::{Params, crc16};
use arrayvec::ArrayVec;
use byteorder::{BigEndian, ByteOrder};

/// The byte that a reply begins with.
const REPLY: u8 = 0x2E;

/// The answer to a packet.
#[derive(Drop)]
pub struct Reply {
    /// The command of the packet.
    pub cmd: u8,
    /// The address of the packet.
    pub addr: u16,
    /// What was asked for, or one byte 0.
    pub params: Params,
    /// The acknowledgement: 0, or why the packet was refused.
    pub ack: u8,
}

/// The bytes of a reply: 0x2E, command, address, length, parameters, acknowledgement, CRC. The length is 0 for 256,
/// the address and the CRC have their high bytes first, and the CRC covers all bytes before it.
pub fn reply_bytes(r: &Reply) -> ArrayVec<u8, 264>
    ensures { result.items ≡ reply_text r.now }
{
    let mut bytes = head(r);
    append(&mut bytes, r.params.bytes());
    bytes.push(r.ack);
    let crc = crc16(bytes.as_slice());
    append_number(&mut bytes, crc);
    bytes
}

/// The first five bytes.
fn head(r: &Reply) -> ArrayVec<u8, 264>
    ensures { result.items ≡ head_of r.now }
{
    let mut bytes = ArrayVec::new();
    bytes.push(REPLY);
    bytes.push(r.cmd);
    append_number(&mut bytes, r.addr);
    bytes.push((r.params.bytes().len() & 0xFF) as u8);
    bytes
}

fn append_number(bytes: &mut ArrayVec<u8, 264>, n: u16)
    requires { array_vec_len bytes.old + 2 ≤ 264 }
    ensures { bytes.new.items ≡ bytes.old.items ++ big_bytes 2 n }
{
    let mut number = [0; 2];
    BigEndian::write_u16(&mut number, n);
    append(bytes, &number);
}

fn append(bytes: &mut ArrayVec<u8, 264>, more: &[u8])
    requires { array_vec_len bytes.old + length more.now ≤ 264 }
    ensures { bytes.new.items ≡ bytes.old.items ++ more.now }
{
    match bytes.try_extend_from_slice(more) {
        Ok(()) => {}
        Err(_full) => unreachable!(),
    }
}
