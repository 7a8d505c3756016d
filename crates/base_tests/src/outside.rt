use esc_base::{Failed, InSource, Kind, MemSink, MemSource, Mode, OutSink, Sink, Source, Why};
use std::io::Write;
use std::test::Fail;

/// Takes all that is left, in pieces of at most 8 bytes, and answers the lengths that were given.
fn lengths(source: &mut MemSource) -> [usize; 4] {
    let mut given = [9; 4];
    let mut buf = [0u8; 8];
    for n in given.iter_mut() {
        *n = source.take(&mut buf).unwrap_or(99);
    }
    given
}

#[test]
fn memory_source_gives_pieces_and_fails_where_asked(rt: HostRuntime) -> Result<(), Fail> {
    for (piece, fails, want) in [
        (1, [0u64], [1, 1, 1, 0]),
        (7, [0], [3, 0, 0, 0]),
        (2, [2], [2, 99, 1, 0]),
    ] {
        let mut source = MemSource::new(rt.alloc(), b"abc", piece, &fails)?;
        assert_eq!(rt; lengths(&mut source), want, "pieces of {piece}");
    }
    Ok(())
}

#[test]
fn memory_sink_keeps_what_it_took(rt: HostRuntime) -> Result<(), Fail> {
    let mut sink = MemSink::new(rt.alloc(), 5, &[2])?;
    assert!(rt; sink.put(b"ab").is_ok());
    assert_eq!(rt; sink.put(b"c"), Err(Failed), "the second call is to fail");
    assert_eq!(rt; sink.put(b"cdef"), Err(Failed), "that would pass the room");
    assert!(rt; sink.put(b"cde").is_ok());
    assert_eq!(rt; sink.given(), b"abcde".as_slice());
    Ok(())
}

/// A writer that takes four bytes in all.
#[derive(Drop)]
struct Narrow(usize);

impl Write for Narrow {
    fn write(&mut self, buf: &[u8]) -> std::io::Result<usize> {
        let n = buf.len().min(self.0);
        self.0 -= n;
        Ok(n)
    }

    fn flush(&mut self) -> std::io::Result<()> {
        Ok(())
    }
}

#[test]
fn output_is_held_back_and_a_failing_flush_counts(rt: HostRuntime) {
    let mut sink = OutSink::new(Narrow(4));
    assert!(rt; sink.put(b"abcd").is_ok());
    assert!(rt; sink.flush().is_ok());
    assert!(rt; sink.put(b"e").is_ok(), "it is held back");
    assert_eq!(rt; sink.flush(), Err(Failed));
}

#[test]
fn input_is_read(rt: HostRuntime) {
    let mut source = InSource::new(&rt);
    let mut buf = [0u8; 4];
    assert!(rt; source.take(&mut buf).is_ok());
}

#[test]
fn numbers_are_those_of_the_journal(rt: HostRuntime) {
    assert_eq!(rt; (Kind::Main.number(), Kind::Comm.number()), (0, 6));
    assert_eq!(rt; (Mode::Unknown.number(), Mode::Servo.number()), (0, 5));
    assert_eq!(rt; (Why::Count.number(), Why::Check.number()), (1, 5));
}
