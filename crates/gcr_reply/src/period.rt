ghost use Rattle.std.specs.Prelude.{◌≡◌, ◌<◌};
ghost use Rattle.gcr_reply.specs.Period.{IsShort, Tells, IsPayload};
ghost use Rattle.gcr_reply.specs.Reply.{check_of};

// The greatest mantissa, of nine bits.
const MANTISSA_MAX: u32 = 511;

// The shortest period, in microseconds, whose twelve bits would be those of no period.
const TOO_LONG: u32 = 65408;

// The twelve bits that tell no period.
const NO_PERIOD: u16 = 0xFFF;

/// The word that tells an electrical period in microseconds, or that there is none. Its first three bits are the
/// least exponent with `period_us >> exponent` at most 511, the next nine are that quotient, and the last four are
/// a check nibble, which makes the exclusive or of all four nibbles 15. A period of 65408 or more counts as none.
pub fn payload(period_us: Option<u32>) -> u16
    ensures { IsPayload result period_us }
{
    let twelve = twelve_bits(period_us);
    twelve << 4 | check_nibble(twelve)
}

fn twelve_bits(period_us: Option<u32>) -> u16
    ensures small { result < 4096 }
    ensures told { Tells result period_us }
{
    match period_us {
        Some(period) if period < TOO_LONG => shortened(period),
        _ => NO_PERIOD,
    }
}

// The exponent and the quotient of a period.
fn shortened(period: u32) -> u16
    requires { period < 65408 }
    ensures small { result < 4096 }
    ensures short { IsShort result period }
{
    let mut exponent: u16 = 0;
    let mut quotient = period;
    while quotient > MANTISSA_MAX {
        quotient >>= 1;
        exponent += 1;
    }
    exponent << 9 | quotient as u16
}

fn check_nibble(twelve: u16) -> u16
    requires { twelve < 4096 }
    ensures { result ≡ check_of twelve }
{
    (twelve ^ (twelve >> 4) ^ (twelve >> 8) ^ 15) & 15
}
