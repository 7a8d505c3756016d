ghost use Rattle.std.specs.Prelude.{◌≡◌, ◌≤◌, ◌<◌, ◌^◌, ℕ, Option, None, OnErr};
ghost use Rattle.esc_base.specs.Outside.{Rose};

use crate::{Failed, Sink, Source, raised};
use std::io::{Input, Read, Write};

/// Bytes that a sink of the system holds back until they fill a write.
const HELD: usize = 16384;

/// The standard input, or any reader. It tells nothing of its bytes.
#[derive(Drop)]
pub struct InSource<R: Read + Drop> {
    reader: R,
    faults: u64,
    ghost counted: { faults < 2 ^ 64 },
}

impl<R: Read + Drop> InSource<R> {
    /// The reader of `rt`'s standard input.
    pub fn new<I: Input<Reader = R>>(rt: &I) -> InSource<R> {
        InSource {
            reader: rt.reader(),
            faults: 0,
        }
    }
}

impl<R: Read + Drop> Source for InSource<R> {
    ghost left = { λ _. None };

    ghost faults = { λ s. s.faults };

    fn take(&mut self, buf: &mut [u8]) -> Result<usize, Failed> {
        match self.reader.read(buf) {
            Ok(n) => Ok(n),
            Err(_) => {
                self.faults = raised(self.faults);
                Err(Failed)
            }
        }
    }
}

/// The standard output, or any writer. It holds bytes back to make few system calls, so `flush` ends its use. It
/// tells nothing of its bytes.
#[derive(Drop)]
pub struct OutSink<W: Write + Drop> {
    writer: W,
    buffer: [u8; HELD],
    /// How many bytes of the buffer are held back.
    len: usize,
    faults: u64,
    ghost fits: { len ≤ 16384 },
    ghost counted: { faults < 2 ^ 64 },
}

impl<W: Write + Drop> OutSink<W> {
    /// A sink over `writer`, which holds nothing yet.
    pub fn new(writer: W) -> OutSink<W> {
        OutSink {
            writer,
            buffer: [0; HELD],
            len: 0,
            faults: 0,
        }
    }

    /// Writes what is held back. After a failure that part is lost.
    pub fn flush(&mut self) -> Result<(), Failed>
        ensures no_fewer { self.old.faults ≤ self.new.faults }
        ensures failed { OnErr result (Rose self.old.faults self.new.faults) }
    {
        let answer = self.writer.write_all(&self.buffer[..self.len]);
        self.len = 0;
        self.judged(answer.is_ok())
    }

    /// Holds bytes back, if there is room for them.
    fn hold(&mut self, bytes: &[u8]) -> bool
        ensures { self.new.faults ≡ self.old.faults }
    {
        if HELD - self.len < bytes.len() {
            return false;
        }
        let end = self.len + bytes.len();
        self.buffer[self.len..end].copy_from_slice(bytes);
        self.len = end;
        true
    }

    /// Makes room for bytes and holds them back, or writes them where they are more than it holds.
    #[inline(never)]
    fn put_anew(&mut self, bytes: &[u8]) -> Result<(), Failed>
        ensures no_fewer { self.old.faults ≤ self.new.faults }
        ensures failed { OnErr result (Rose self.old.faults self.new.faults) }
    {
        self.flush()?;
        if self.hold(bytes) {
            return Ok(());
        }
        let answer = self.writer.write_all(bytes);
        self.judged(answer.is_ok())
    }

    fn judged(&mut self, is_written: bool) -> Result<(), Failed>
        ensures no_fewer { self.old.faults ≤ self.new.faults }
        ensures failed { OnErr result (Rose self.old.faults self.new.faults) }
    {
        if is_written {
            return Ok(());
        }
        self.faults = raised(self.faults);
        Err(Failed)
    }
}

impl<W: Write + Drop> Sink for OutSink<W> {
    ghost given = { λ _. None };

    ghost faults = { λ s. s.faults };

    ghost took = { λ _ _ _. Unit {0} };

    ghost broke = { λ _ _ _. Unit {0} };

    fn put(&mut self, bytes: &[u8]) -> Result<(), Failed> {
        if self.hold(bytes) {
            return Ok(());
        }
        self.put_anew(bytes)
    }
}
