ghost use Rattle.std.specs.Prelude.{◌≤◌};

/// Bytes that the source gave; those from `at` to `len` haven't been read.
#[derive(Drop)]
pub struct Held {
    pub buffer: [u8; 16384],
    pub at: usize,
    pub len: usize,
    ghost within: { at ≤ len },
    ghost fits: { len ≤ 16384 },
}
