//! Packets of the four-way protocol, as a configurator sends them.
ghost use Rattle.std.specs.Prelude.{◌≡◌, ◌≤◌, ◌+◌, ◌%◌, ◌++◌, ◌∷◌, [], IfSome, length};
ghost use Rattle.byteorder.specs.Endian.{big_bytes};
ghost use Rattle.arrayvec.specs.ArrayVec.{array_vec_len};
ghost use Rattle.am32trace.specs.Request.{IsRequest};

use arrayvec::ArrayVec;
use byteorder::{BigEndian, ByteOrder};
use fourway_packet::crc16;

/// The byte that a request begins with.
const REQUEST: u8 = 0x2F;

/// The bytes of a request: 0x2F, command, address, length, parameters, CRC. The length is 0 for 256; the address and the CRC
/// have their high bytes first; the CRC covers all bytes before it. `None` where there are no or more than 256 parameters.
pub fn packet_bytes(cmd: u8, addr: u16, params: &[u8]) -> Option<ArrayVec<u8, 263>>
    ensures { IfSome result (λ bytes. IsRequest cmd addr params.now bytes.items) }
{
    if params.len() < 1 || params.len() > 256 {
        return None;
    }
    let mut bytes = head(cmd, addr, params.len());
    append(&mut bytes, params);
    let crc = crc16(bytes.as_slice());
    append_number(&mut bytes, crc);
    Some(bytes)
}

/// The bytes before the parameters.
fn head(cmd: u8, addr: u16, count: usize) -> ArrayVec<u8, 263>
    ensures { result.items ≡ 0x2F ∷ cmd ∷ [] ++ big_bytes 2 addr ++ count % 256 ∷ [] }
{
    let mut bytes = ArrayVec::new();
    bytes.push(REQUEST);
    bytes.push(cmd);
    append_number(&mut bytes, addr);
    bytes.push((count & 0xFF) as u8);
    bytes
}

fn append_number(bytes: &mut ArrayVec<u8, 263>, n: u16)
    requires { array_vec_len bytes.old + 2 ≤ 263 }
    ensures { bytes.new.items ≡ bytes.old.items ++ big_bytes 2 n }
{
    let mut number = [0; 2];
    BigEndian::write_u16(&mut number, n);
    append(bytes, &number);
}

fn append(bytes: &mut ArrayVec<u8, 263>, more: &[u8])
    requires { array_vec_len bytes.old + length more.now ≤ 263 }
    ensures { bytes.new.items ≡ bytes.old.items ++ more.now }
{
    match bytes.try_extend_from_slice(more) {
        Ok(()) => {}
        Err(_full) => unreachable!(),
    }
}
