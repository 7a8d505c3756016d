ghost use Rattle.std.specs.Prelude.{◌≡◌, ◌≤◌, ◌<◌, ◌+◌, if◌then◌else◌, Some, None, IfNone, length, slice_index};
ghost use Rattle.fourway_packet.specs.Command.{count_of};
ghost use Rattle.fourway_packet.specs.Cut.{is_complete, packet_of};

use crate::command::count_of;
use crate::{Params, crc16};
use byteorder::{BigEndian, ByteOrder};

/// A request that was cut from the serial bytes: its command, its address, and its parameters if they can be trusted.
#[derive(Drop)]
pub enum Packet {
    /// Its CRC is right.
    Whole { cmd: u8, addr: u16, params: Params },
    /// Its CRC is wrong.
    BadCrc { cmd: u8, addr: u16 },
}

/// The bytes before the parameters: 0x2F, command, address, length.
const HEAD: usize = 5;

/// The packet that these bytes hold, if they reach its end: two bytes of CRC follow the parameters.
pub(crate) fn packet_in(bytes: &[u8]) -> Option<Packet>
    ensures packet { result ≡ (if is_complete bytes.now then Some (packet_of bytes.now) else None) }
    ensures short { IfNone result (length bytes.now < 263) }
{
    if bytes.len() < HEAD {
        return None;
    }
    let covered = HEAD + count_of(bytes[4]);
    if bytes.len() < covered + 2 {
        return None;
    }
    Some(read_packet(bytes, covered))
}

/// The packet whose CRC follows the first `covered` bytes.
fn read_packet(bytes: &[u8], covered: usize) -> Packet
    requires covered { covered ≡ 5 + count_of (slice_index bytes.now 4) }
    requires some { 5 < covered }
    requires most { covered ≤ 261 }
    requires whole { covered + 2 ≤ length bytes.now }
    ensures { result ≡ packet_of bytes.now }
{
    let cmd = bytes[1];
    let addr = BigEndian::read_u16(&bytes[2..]);
    if crc16(&bytes[..covered]) == BigEndian::read_u16(&bytes[covered..]) {
        let params = Params::new(&bytes[HEAD..covered]);
        Packet::Whole { cmd, addr, params }
    } else {
        Packet::BadCrc { cmd, addr }
    }
}
