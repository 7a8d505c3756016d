ghost use Rattle.std.specs.Prelude.{◌≡◌, ◌≤◌, ◌<◌, ◌+◌, ◌-◌, ◌++◌, ◌==◌, [], IfOk, OnOk, OnErr, IsTrue, IsFalse, length, take, drop, position};
ghost use Rattle.std.specs.Io.KnownBytes.{prepend_known, IsAtEnd};
ghost use Rattle.esc_base.specs.Outside.{Rose};

use crate::field::position_of;
use crate::piece::Held;
use esc_base::{Failed, Source};

/// Moves the bytes from `at` to `len` to the front.
fn move_to_front(buffer: &mut [u8], at: usize, len: usize)
    requires within { at ≤ len }
    requires fits { len ≤ length buffer.old }
    ensures { take (len - at) buffer.new ≡ drop at (take len buffer.old) }
{
    buffer[..len].rotate_left(at);
}

/// Takes bytes into the buffer from `at` on.
fn take_behind<S: Source>(src: &mut S, buffer: &mut [u8], at: usize) -> Result<usize, Failed>
    requires { at < length buffer.old }
    ensures fits { IfOk result (λ n. at + n ≤ length buffer.old) }
    ensures gives { IfOk result (λ n. prepend_known (take at buffer.old) (S.left src.old) ≡ prepend_known (take (at + n) buffer.new) (S.left src.new)) }
    ensures end { IfOk result (λ n. n ≡ 0 → IsAtEnd (S.left src.new)) }
    ensures untaken { OnErr result (S.left src.new ≡ S.left src.old) }
    ensures front { take at buffer.new ≡ take at buffer.old }
    ensures no_fewer { S.faults src.old ≤ S.faults src.new }
    ensures failed { OnErr result (Rose (S.faults src.old) (S.faults src.new)) }
{
    src.take(&mut buffer[at..])
}

impl Held {
    ghost use Rattle.trace_text.specs.Ahead.{unread, ahead};

    pub fn new() -> Held
        ensures { unread result ≡ [] }
    {
        Held {
            buffer: [0; 16384],
            at: 0,
            len: 0,
        }
    }

    /// Moves what hasn't been read to the front of the buffer.
    fn compact(&mut self)
        ensures unread { unread self.new ≡ unread self.old }
        ensures front { self.new.at ≡ 0 }
        ensures len { self.new.len ≡ length (unread self.old) }
    {
        move_to_front(&mut self.buffer, self.at, self.len);
        self.len -= self.at;
        self.at = 0;
    }

    /// Takes more bytes after those that are held, and answers whether there were any.
    pub fn fill<S: Source>(&mut self, src: &mut S) -> Result<bool, Failed>
        requires { length (unread self.old) < 16384 }
        ensures ahead { ahead self.new (S.left src.new) ≡ ahead self.old (S.left src.old) }
        ensures more { IfOk result (λ more. IsTrue more → length (unread self.old) < length (unread self.new)) }
        ensures none { IfOk result (λ more. IsFalse more → unread self.new ≡ unread self.old) }
        ensures kept { OnErr result (unread self.new ≡ unread self.old) }
        ensures end { IfOk result (λ more. IsFalse more → IsAtEnd (S.left src.new)) }
        ensures no_fewer { S.faults src.old ≤ S.faults src.new }
        ensures failed { OnErr result (Rose (S.faults src.old) (S.faults src.new)) }
    {
        self.compact();
        let n = take_behind(src, &mut self.buffer, self.len)?;
        self.len += n;
        Ok(n != 0)
    }

    /// Whether a byte is ahead; it is held then.
    pub fn has_more<S: Source>(&mut self, src: &mut S) -> Result<bool, Failed>
        ensures ahead { ahead self.new (S.left src.new) ≡ ahead self.old (S.left src.old) }
        ensures more { IfOk result (λ more. IsTrue more → 0 < length (unread self.new)) }
        ensures none { IfOk result (λ more. IsFalse more → unread self.new ≡ []) }
        ensures kept { OnErr result (unread self.new ≡ []) }
        ensures end { IfOk result (λ more. IsFalse more → IsAtEnd (S.left src.new)) }
        ensures no_fewer { S.faults src.old ≤ S.faults src.new }
        ensures failed { OnErr result (Rose (S.faults src.old) (S.faults src.new)) }
    {
        if self.at < self.len {
            return Ok(true);
        }
        self.fill(src)
    }

    /// All bytes that are held.
    pub fn all(&self) -> &[u8]
        ensures { result.now ≡ unread self.now }
    {
        &self.buffer[self.at..self.len]
    }

    pub fn len(&self) -> usize
        ensures { result ≡ length (unread self.now) }
    {
        self.len - self.at
    }

    /// The place of the first line feed among the first `most` bytes that are held.
    pub fn line_feed(&self, most: usize) -> Option<usize>
        ensures { result ≡ position (λ b. b == 10) (take most (unread self.now)) }
    {
        let looked_at = self.len().min(most);
        position_of(b'\n', &self.buffer[self.at..self.at + looked_at])
    }

    /// The first `n` bytes that are held.
    pub fn front(&self, n: usize) -> &[u8]
        requires { n ≤ length (unread self.now) }
        ensures { result.now ≡ take n (unread self.now) }
    {
        &self.buffer[self.at..self.at + n]
    }

    /// Has read the first `n` bytes.
    pub fn skip(&mut self, n: usize)
        requires { n ≤ length (unread self.old) }
        ensures { unread self.new ≡ drop n (unread self.old) }
    {
        self.at += n;
    }
}
