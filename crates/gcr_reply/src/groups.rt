ghost use Rattle.std.specs.Prelude.{◌≡◌, ◌^◌, ◌<◌, ◌↔◌, ℕ, slice_index};
ghost use Rattle.gcr_reply.specs.Line.{bits_of, groups_of, table};
ghost use Rattle.gcr_reply.specs.Reply.{gcr_of};

// The five bits that stand for each nibble.
const GROUPS: [u8; 16] = [
    0x19, 0x1B, 0x12, 0x13, 0x1D, 0x15, 0x16, 0x17, 0x1A, 0x09, 0x0A, 0x0B, 0x1E, 0x0D, 0x0E, 0x0F,
];

/// The 20 GCR bits of a word: five for each nibble, the most significant nibble first.
pub fn gcr(word: u16) -> u32
    ensures of_20_bits { result < 2 ^ 20 }
    ensures groups { bits_of 20 result ≡ groups_of word }
{
    group_of(word >> 12) << 15
        | group_of(word >> 8 & 15) << 10
        | group_of(word >> 4 & 15) << 5
        | group_of(word & 15)
}

/// The word whose GCR bits these are.
pub(crate) fn word_of_gcr(bits: u32) -> Option<u16>
    requires { bits < 2 ^ 20 }
    ensures { (word : ℕ) → (result ≡ Some word) ↔ ((word < 2 ^ 16) × (gcr_of word ≡ bits)) }
{
    let first = nibble_of(bits >> 15)?;
    let second = nibble_of(bits >> 10 & 31)?;
    let third = nibble_of(bits >> 5 & 31)?;
    let fourth = nibble_of(bits & 31)?;
    Some(first << 12 | second << 8 | third << 4 | fourth)
}

fn group_of(nibble: u16) -> u32
    requires { nibble < 16 }
    ensures { result ≡ slice_index table nibble }
{
    u32::from(GROUPS[usize::from(nibble)])
}

// The nibble that a group stands for.
fn nibble_of(group: u32) -> Option<u16>
    ensures { (n : ℕ) → (result ≡ Some n) ↔ ((n < 16) × (slice_index table n ≡ group)) }
{
    for nibble in 0..16 {
        if group_of(nibble) == group {
            return Some(nibble);
        }
    }
    None
}
