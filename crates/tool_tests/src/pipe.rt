//! A reader of the standard output who has gone.
use std::cell::Cell;
use std::io::{self, Write};
use trace_tools::PipeEnd;

/// A writer whose reader has gone.
#[derive(Drop)]
struct Closed;

impl Write for Closed {
    fn write(&mut self, _buf: &[u8]) -> io::Result<usize> {
        Err(io::Error::from(io::ErrorKind::BrokenPipe))
    }

    fn flush(&mut self) -> io::Result<()> {
        Ok(())
    }
}

#[test]
fn a_reader_that_has_gone_is_noted(rt: HostRuntime) {
    let is_gone = Cell::new(false);
    let mut end = PipeEnd::new(Closed, &is_gone);
    assert!(rt; end.flush().is_ok());
    assert!(rt; !is_gone.get());
    assert!(rt; end.write(b"U 0 1\n").is_err());
    assert!(rt; is_gone.get());
}
