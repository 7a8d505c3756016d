ghost use Rattle.std.specs.Prelude.{◌≡◌};
ghost use Rattle.esc_base.specs.Numbers.{cause_number};

use crate::Tick;

/// Why control was lost.
#[derive(Clone, Copy, Debug, PartialEq, Eq, Drop)]
pub enum Cause {
    /// No good frame for 10000 control ticks, half a second.
    Timeout,
    /// The motor didn't turn.
    Stuck,
    /// A watcher of the gates tripped.
    Fuse,
}

impl Cause {
    /// The number that a journal's line shows, 0 to 2.
    pub fn number(self) -> u8
        ensures { result ≡ cause_number self }
    {
        match self {
            Cause::Timeout => 0,
            Cause::Stuck => 1,
            Cause::Fuse => 2,
        }
    }
}

/// A line of the journal, by its letter. Times are in ticks of 48 MHz.
#[derive(Clone, Copy, Debug, PartialEq, Eq, Drop)]
pub enum Note {
    /// `U`: the start; `r` is 0 for settings that were read, 1 for defaults by a wrong marker, 2 by a wrong
    /// version, 3 by a value out of range.
    Up { t: Tick, r: u8 },
    /// `I`: kind `k` is entered.
    Enter { t: Tick, k: u8 },
    /// `O`: kind `k` returns.
    Leave { t: Tick, k: u8 },
    /// `G`: the gate word is now `hi`, `lo`.
    Gate { t: Tick, hi: u8, lo: u8 },
    /// `W`: a window opens in mode `m`.
    Window { t: Tick, m: u8 },
    /// `F .. G`: a good frame with value `v` and telemetry bit `q`.
    Good { t: Tick, v: u16, q: u8 },
    /// `F .. D`: mode `m` was detected.
    Detected { t: Tick, m: u8 },
    /// `F .. N`: nothing was detected.
    Nothing { t: Tick },
    /// `F .. B`: a bad window; `w` is the number of its `Why`.
    Bad { t: Tick, w: u8 },
    /// `K`: control tick `n` with marks `s` (1 stuck, 2 fuse, 4 session, added) gives demand `d`.
    Control { t: Tick, n: u32, s: u8, d: u16 },
    /// `A`: armed.
    Armed { t: Tick },
    /// `X`: control is lost; `c` is the number of the `Cause`.
    Lost { t: Tick, c: u8 },
    /// `M`: command `c` acts.
    Command { t: Tick, c: u8 },
    /// `P`: a save; `r` is 0 where it was done, 1 where the flash failed.
    Saved { t: Tick, r: u8 },
    /// `Q`: the sector is now `s`.
    Step { t: Tick, s: u8 },
    /// `Z`: a zero crossing is accepted.
    Cross { t: Tick },
    /// `V`: the electrical period that was read, in microseconds.
    Period { t: Tick, p: Option<u32> },
    /// `R`: a reply is loaded that starts at `s`; `b` has its 21 bits, the first bit highest.
    Reply { t: Tick, s: Tick, b: u32 },
    /// `B`: a packet with command `cc` gets acknowledgement `kk`.
    Packet { t: Tick, cc: u8, kk: u8 },
    /// `S`: a serial byte is sent.
    Sent { t: Tick, xx: u8 },
    /// `L`: a received serial byte is lost.
    Dropped { t: Tick, xx: u8 },
    /// `Y`: at the end, watcher `i` (from 1) was told `n` gate words, and `s` is 1 where it has tripped.
    Watched { t: Tick, i: u32, n: u32, s: u8 },
}

impl Default for Note {
    fn default() -> Self {
        Note::Up { t: Tick(0), r: 0 }
    }
}
