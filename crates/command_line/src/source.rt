//! A file as a source.
ghost use Rattle.std.specs.Prelude.{◌<◌, ◌^◌, ℕ, Option, None};

use esc_base::{Failed, Source, raised};
use std::io::Read;

/// A file, or any reader. It tells nothing of its bytes.
#[derive(Drop)]
pub struct FileSource<R: Read + Drop> {
    reader: R,
    faults: u64,
    ghost counted: { faults < 2 ^ 64 },
}

impl<R: Read + Drop> FileSource<R> {
    pub fn new(reader: R) -> FileSource<R> {
        FileSource { reader, faults: 0 }
    }
}

impl<R: Read + Drop> Source for FileSource<R> {
    ghost left = { λ _. None };

    ghost faults = { λ s. s.faults };

    fn take(&mut self, buf: &mut [u8]) -> Result<usize, Failed> {
        match self.reader.read(buf) {
            Ok(n) => Ok(n),
            Err(_) => {
                self.faults = raised(self.faults);
                Err(Failed)
            }
        }
    }
}
