//! The check number of packets: CRC-16 with polynomial 0x1021, start 0, the most significant bit first.
ghost use Rattle.std.specs.Prelude.{◌≡◌};
ghost use Rattle.std.specs.List.{fold};
ghost use Rattle.fourway_packet.specs.Crc.{shifted, shifted_by_byte, bits_of, crc_of, IsRemainder};

/// The polynomial x^16 + x^12 + x^5 + 1, without its highest term.
const POLYNOMIAL: u16 = 0x1021;

/// The CRC of these bytes.
#[tactic(auto, unfolding(crate::specs::Crc::crc_of))]
pub fn crc16(bytes: &[u8]) -> u16
    ensures crc { result ≡ crc_of bytes.now }
    ensures remainder { IsRemainder (bits_of bytes.now) result }
{
    bytes.iter().fold(0, |crc, byte| with_byte(crc, *byte))
}

#[tactic(auto, unfolding(crate::specs::Crc::shifted_by_byte))]
fn with_byte(crc: u16, byte: u8) -> u16
    ensures { result ≡ shifted_by_byte crc byte }
{
    let mut so_far = crc;
    for i in 0..8u8 {
        so_far = with_bit(so_far, (byte >> (7 - i)) & 1 == 1);
    }
    so_far
}

fn with_bit(crc: u16, bit: bool) -> u16
    ensures { result ≡ shifted crc bit }
{
    let leaves_one = crc >> 15 == 1;
    if leaves_one != bit {
        (crc << 1) ^ POLYNOMIAL
    } else {
        crc << 1
    }
}
