ghost use Rattle.std.specs.Prelude.{◌≡◌, ◌≤◌, ◌<◌, length, slice_index};
ghost use Rattle.fourway_packet.specs.Command.{nothing};

use arrayvec::ArrayVec;
use std::marker::Model;

/// The parameters of a packet: 1 to 256 bytes.
#[derive(Drop)]
pub struct Params {
    bytes: ArrayVec<u8, 256>,
}

impl Model for Params {
    ghost use Rattle.std.specs.Prelude.{ℕ, List, ◌<◌, ◌≤◌, length};

    ghost Value = { List ℕ };

    ghost view = { λ p. p.bytes.items };

    ghost invariant = { λ p. (0 < length p.bytes.items) × (length p.bytes.items ≤ 256) };
}

impl Params {
    /// These bytes as parameters.
    pub fn new(bytes: &[u8]) -> Params
        requires some { 0 < length bytes.now }
        requires most { length bytes.now ≤ 256 }
        ensures { result ≡ bytes.now }
    {
        let mut params = ArrayVec::new();
        match params.try_extend_from_slice(bytes) {
            Ok(()) => Params { bytes: params },
            Err(_full) => unreachable!(),
        }
    }

    /// What a reply without content has: one byte 0.
    pub(crate) fn nothing() -> Params
        ensures { result ≡ nothing }
    {
        Params::new(&[0])
    }

    /// The bytes.
    pub fn bytes(&self) -> &[u8]
        ensures bytes { result.now ≡ self.now }
        ensures some { 0 < length result.now }
        ensures most { length result.now ≤ 256 }
    {
        self.bytes.as_slice()
    }

    /// The first byte.
    pub(crate) fn first(&self) -> u8
        ensures { result ≡ slice_index self.now 0 }
    {
        self.bytes.as_slice()[0]
    }
}
