ghost use Rattle.std.specs.Prelude.{◌≡◌, ◌≤◌, ◌<◌, ◌^◌, OnErr, ◌+◌, ◌++◌, [], ◌∷◌, min, ℕ, List, Option, Some, IfOk, OnOk, length, drop, take, vec_len};
ghost use Rattle.esc_base.specs.Calls.{is_to_fail};

use crate::{Failed, NoMemory, Sink, Source, raised};
use std::alloc::Global;

/// Calls that are counted from 1, and the numbers of those that are to fail.
#[derive(Drop)]
pub(crate) struct Calls {
    made: u64,
    fails: Vec<u64>,
}

impl Calls {
    pub(crate) fn new(alloc: Global, fails: &[u64]) -> Result<Calls, NoMemory>
        ensures made { IfOk result (λ calls. calls.made ≡ 0) }
        ensures planned { IfOk result (λ calls. calls.fails.items ≡ fails.now) }
    {
        match Vec::from_slice(alloc, fails) {
            Ok(fails) => Ok(Calls { made: 0, fails }),
            Err(_) => Err(NoMemory),
        }
    }

    /// Makes the `n`-th later call fail.
    pub(crate) fn fail(&mut self, n: u64) -> Result<(), NoMemory>
        ensures made { self.new.made ≡ self.old.made }
        ensures planned { OnOk result (self.new.fails.items ≡ self.old.fails.items ++ (min (self.old.made + n) 18446744073709551615) ∷ []) }
        ensures refused { OnErr result (self.new.fails.items ≡ self.old.fails.items) }
    {
        match self.fails.push(self.made.saturating_add(n)) {
            Ok(()) => Ok(()),
            Err(_) => Err(NoMemory),
        }
    }

    /// Counts one call, and answers whether it is to fail.
    pub(crate) fn is_to_fail(&mut self) -> bool
        ensures { result ≡ is_to_fail self.old.made self.old.fails.items }
    {
        self.made = self.made.saturating_add(1);
        self.fails.contains(&self.made)
    }
}

/// A source in memory, which tells what is left. Failing calls change nothing but the counts.
#[derive(Drop)]
pub struct MemSource {
    bytes: Vec<u8>,
    at: usize,
    piece: usize,
    calls: Calls,
    faults: u64,
    ghost counted: { faults < 2 ^ 64 },
    ghost within: { at ≤ vec_len bytes },
    ghost some: { 0 < piece },
}

impl MemSource {
    ghost use Rattle.esc_base.specs.Memory.{source_left};

    /// Gives `bytes`, at most `piece` (1 or more) in one call; the calls with the numbers `fails`, counted
    /// from 1, fail.
    pub fn new(
        alloc: Global,
        bytes: &[u8],
        piece: usize,
        fails: &[u64],
    ) -> Result<MemSource, NoMemory>
        requires { 0 < piece }
        ensures left { IfOk result (λ s. source_left s ≡ bytes.now) }
        ensures piece { IfOk result (λ s. s.piece ≡ piece) }
        ensures planned { IfOk result (λ s. s.calls.fails.items ≡ fails.now) }
        ensures faults { IfOk result (λ s. s.faults ≡ 0) }
    {
        let calls = Calls::new(alloc, fails)?;
        match Vec::from_slice(alloc, bytes) {
            Ok(bytes) => Ok(MemSource {
                bytes,
                at: 0,
                piece,
                calls,
                faults: 0,
            }),
            Err(_) => Err(NoMemory),
        }
    }
}

fn copy_front(to: &mut [u8], from: &[u8], n: usize)
    requires from_has { n ≤ length from.now }
    requires to_has { n ≤ length to.old }
    ensures { take n to.new ≡ take n from.now }
{
    to[..n].copy_from_slice(&from[..n]);
}

impl Source for MemSource {
    ghost left = { λ s. Some (drop s.at s.bytes.items) };

    ghost faults = { λ s. s.faults };

    fn take(&mut self, buf: &mut [u8]) -> Result<usize, Failed> {
        if self.calls.is_to_fail() {
            self.faults = raised(self.faults);
            return Err(Failed);
        }
        let (_, rest) = self.bytes.as_slice().split_at(self.at);
        let n = rest.len().min(self.piece).min(buf.len());
        copy_front(buf, rest, n);
        self.at += n;
        Ok(n)
    }
}

/// A sink in memory, which tells what it was given. It fails where it would pass its room; failing calls change
/// nothing but the counts.
#[derive(Drop)]
pub struct MemSink {
    bytes: Vec<u8>,
    room: usize,
    calls: Calls,
    faults: u64,
    ghost counted: { faults < 2 ^ 64 },
}

impl MemSink {
    ghost use Rattle.esc_base.specs.Memory.{sink_given};

    /// Takes `room` bytes; the calls with the numbers `fails`, counted from 1, fail.
    pub fn new(alloc: Global, room: usize, fails: &[u64]) -> Result<MemSink, NoMemory>
        ensures given { IfOk result (λ s. sink_given s ≡ []) }
        ensures room { IfOk result (λ s. s.room ≡ room) }
        ensures planned { IfOk result (λ s. s.calls.fails.items ≡ fails.now) }
        ensures faults { IfOk result (λ s. s.faults ≡ 0) }
    {
        let calls = Calls::new(alloc, fails)?;
        match Vec::with_capacity(alloc, room) {
            Ok(bytes) => Ok(MemSink {
                bytes,
                room,
                calls,
                faults: 0,
            }),
            Err(_) => Err(NoMemory),
        }
    }

    /// All that it was given.
    pub fn given(&self) -> &[u8]
        ensures { result.now ≡ sink_given self.now }
    {
        self.bytes.as_slice()
    }

    fn try_put(&mut self, bytes: &[u8]) -> Result<(), Failed>
        ensures ok { OnOk result (self.new.bytes.items ≡ self.old.bytes.items ++ bytes.now) }
        ensures err { OnErr result (self.new.bytes.items ≡ self.old.bytes.items) }
        ensures faults { self.new.faults ≡ self.old.faults }
    {
        if self.calls.is_to_fail() || bytes.len() > self.room.saturating_sub(self.bytes.len()) {
            return Err(Failed);
        }
        match self.bytes.extend_from_slice(bytes) {
            Ok(()) => Ok(()),
            Err(_) => Err(Failed),
        }
    }
}

impl Sink for MemSink {
    ghost given = { λ s. Some s.bytes.items };

    ghost faults = { λ s. s.faults };

    ghost took = { λ s piece t. t.bytes.items ≡ s.bytes.items ++ piece };

    ghost broke = { λ s piece t. t.bytes.items ≡ s.bytes.items };

    fn put(&mut self, bytes: &[u8]) -> Result<(), Failed> {
        let answer = self.try_put(bytes);
        if answer.is_err() {
            self.faults = raised(self.faults);
        }
        answer
    }
}
