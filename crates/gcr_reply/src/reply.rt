ghost use Rattle.std.specs.Prelude.{◌≡◌, ℕ};
ghost use Rattle.gcr_reply.specs.Reply.{ReplyBits, reply_of};

use crate::{gcr, line_bits, payload};

/// The 21 levels of the line of the reply that tells an electrical period in microseconds, or that there is none.
/// The first level is the most significant bit.
pub fn reply_bits(period_us: Option<u32>) -> u32
    ensures tells { ReplyBits result period_us }
    ensures only { (bits : ℕ) → ReplyBits bits period_us → bits ≡ result }
    ensures value { result ≡ reply_of period_us }
{
    line_bits(gcr(payload(period_us)))
}
