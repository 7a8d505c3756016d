//! A standard output whose reader may go away.
use std::cell::Cell;
use std::io::{self, ErrorKind, Write};

/// A writer that notes when its reader has gone, as `head` does behind a pipe.
#[derive(Drop)]
pub struct PipeEnd<'a, W: Write + Drop> {
    writer: W,
    is_gone: &'a Cell<bool>,
}

impl<'a, W: Write + Drop> PipeEnd<'a, W> {
    /// Over `writer`; `is_gone` is set to true once a write finds no reader.
    pub fn new(writer: W, is_gone: &'a Cell<bool>) -> PipeEnd<'a, W> {
        PipeEnd { writer, is_gone }
    }
}

impl<'a, W: Write + Drop> Write for PipeEnd<'a, W> {
    fn write(&mut self, buf: &[u8]) -> io::Result<usize> {
        let answer = self.writer.write(buf);
        if let Err(e) = &answer
            && e.kind() == ErrorKind::BrokenPipe
        {
            self.is_gone.set(true);
        }
        answer
    }

    fn flush(&mut self) -> io::Result<()> {
        self.writer.flush()
    }
}
