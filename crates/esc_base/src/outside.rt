ghost use Rattle.std.specs.Prelude.{◌≡◌, ◌≤◌, ◌<◌, ◌^◌, ℕ, List, [], Option, IfOk, OnOk, OnErr, length, take};
ghost use Rattle.std.specs.Io.KnownBytes.{prepend_known, append_known, IsAtEnd};
ghost use Rattle.esc_base.specs.Outside.{Rose, AppendsFront};

use thiserror::Error;

/// A source, a sink or a flash could not do what it was asked.
#[derive(Clone, Copy, Debug, PartialEq, Eq, Drop, Error)]
#[error("the call failed")]
pub struct Failed;

/// Memory was refused.
#[derive(Clone, Copy, Debug, PartialEq, Eq, Drop, Error)]
#[error("no memory")]
pub struct NoMemory;

/// A count of faults after one more: it stays at its greatest value.
pub fn raised(faults: u64) -> u64
    ensures { Rose faults result }
{
    faults.saturating_add(1)
}

/// Where bytes come from.
pub trait Source {
    /// What is left, where the source tells that.
    ghost left: { Self → Option (List ℕ) };

    /// How often it has failed.
    ghost faults: { Self → ℕ };

    /// Fills a front of `buf` and answers its length; 0 is the end. After a failure nothing was taken.
    fn take(&mut self, buf: &mut [u8]) -> Result<usize, Failed>
        requires { 0 < length buf.old }
        ensures fits { IfOk result (λ n. n ≤ length buf.old) }
        ensures gives { IfOk result (λ n. left self.old ≡ prepend_known (take n buf.new) (left self.new)) }
        ensures end { IfOk result (λ n. n ≡ 0 → IsAtEnd (left self.old)) }
        ensures untaken { OnErr result (left self.new ≡ left self.old) }
        ensures no_fewer { faults self.old ≤ faults self.new }
        ensures counted { faults self.new < 2 ^ 64 }
        ensures failed { OnErr result (Rose (faults self.old) (faults self.new)) };
}

/// Where bytes go.
pub trait Sink {
    /// All that it was given, where the sink tells that.
    ghost given: { Self → Option (List ℕ) };

    /// How often it has failed.
    ghost faults: { Self → ℕ };

    /// What a piece that was taken changes: the sink before, the piece, the sink after.
    ghost took: { Self → List ℕ → Self → Type 0 };

    /// What a piece that was refused changes.
    ghost broke: { Self → List ℕ → Self → Type 0 };

    /// Takes the whole piece, or fails, having taken a front of it.
    fn put(&mut self, bytes: &[u8]) -> Result<(), Failed>
        ensures took { OnOk result (took self.old bytes.now self.new) }
        ensures appended { OnOk result (given self.new ≡ append_known (given self.old) bytes.now) }
        ensures broke { OnErr result (broke self.old bytes.now self.new) }
        ensures front { OnErr result (AppendsFront (given self.old) bytes.now (given self.new)) }
        ensures no_fewer { faults self.old ≤ faults self.new }
        ensures counted { faults self.new < 2 ^ 64 }
        ensures failed { OnErr result (Rose (faults self.old) (faults self.new)) };
}
