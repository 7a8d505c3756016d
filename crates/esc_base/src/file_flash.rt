//! A flash over an image file.
ghost use Rattle.std.specs.Prelude.{◌≡◌, ◌≤◌, ◌<◌, ◌+◌, ◌^◌, ℕ, List, Option, None, OnOk, OnErr, length};
ghost use Rattle.esc_base.specs.Flash.{Told};
ghost use Rattle.esc_base.specs.Outside.{Rose};

use crate::cells::{blank_cells, erase_cells, program_cells};
use crate::flash::{FLASH, PAGE};
use crate::{Failed, FlashDev, NoMemory, raised};
use std::alloc::Global;
use std::fs::{OpenFile, OpenOptions};
use std::io::{Read, Seek, SeekFrom, Write};
use std::rt::Files;

/// A flash over an image file of exactly 32768 bytes, in which every change is written at once. It is
/// blank memory of its own while no image is attached, and tells nothing of its bytes.
#[derive(Drop)]
pub struct FileFlash<'a, R: Files> {
    files: &'a R,
    file: Option<R::File>,
    cells: Vec<u8>,
    faults: u64,
    ghost counted: { faults < 2 ^ 64 },
    ghost whole: { length cells.items ≡ 32768 },
}

impl<'a, R: Files> FileFlash<'a, R> {
    /// A blank flash, which finds its image by `files`.
    pub fn new(files: &'a R, alloc: Global) -> Result<FileFlash<'a, R>, NoMemory> {
        Ok(FileFlash {
            files,
            file: None,
            cells: blank_cells(alloc, FLASH)?,
            faults: 0,
        })
    }

    /// Opens the image and reads it; no file is made, grown or cut.
    fn open(&mut self, path: &str) -> Result<(), Failed>
        ensures faults { self.new.faults ≡ self.old.faults }
    {
        let mut options = OpenOptions::new();
        options.read(true).write(true);
        let Ok(mut file) = options.open(self.files, path) else {
            return Err(Failed);
        };
        let Ok(metadata) = file.metadata() else {
            return Err(Failed);
        };
        let mut cells = [0u8; FLASH];
        if metadata.len() != FLASH as u64 || file.read_exact(&mut cells).is_err() {
            return Err(Failed);
        }
        self.cells.as_mut_slice().copy_from_slice(&cells);
        self.file = Some(file);
        Ok(())
    }

    /// Writes `n` bytes from `at` on into the image, if one is attached.
    fn write_back(&mut self, at: usize, n: usize) -> Result<(), Failed>
        requires { at + n ≤ 32768 }
        ensures faults { self.new.faults ≡ self.old.faults }
    {
        let Some(file) = &mut self.file else {
            return Ok(());
        };
        let bytes = &self.cells.as_slice()[at..at + n];
        if file.seek(SeekFrom::Start(at as u64)).is_ok() && file.write_all(bytes).is_ok() {
            Ok(())
        } else {
            Err(Failed)
        }
    }

    /// Counts a failure.
    fn judged(&mut self, answer: Result<(), Failed>) -> Result<(), Failed>
        ensures fine { OnOk result (self.new.faults ≡ self.old.faults) }
        ensures no_fewer { self.old.faults ≤ self.new.faults }
        ensures failed { OnErr result (Rose self.old.faults self.new.faults) }
    {
        if answer.is_err() {
            self.faults = raised(self.faults);
        }
        answer
    }
}

impl<'a, R: Files> FlashDev for FileFlash<'a, R> {
    ghost told = { λ flash. record { bytes = None; faults = flash.faults } };

    ghost binds = { λ _ _. Unit {0} };

    ghost image = { λ _ _. None };

    ghost whole = { λ _. tt };

    fn attach(&mut self, path: Option<&str>) -> Result<(), Failed> {
        match path {
            Some(path) => {
                let answer = self.open(path);
                self.judged(answer)
            }
            None => Ok(()),
        }
    }

    fn read(&mut self, at: u16, buf: &mut [u8]) -> Result<(), Failed> {
        let at = at as usize;
        buf.copy_from_slice(&self.cells.as_slice()[at..at + buf.len()]);
        Ok(())
    }

    fn erase(&mut self, page: u8) -> Result<(), Failed> {
        let at = page as usize * PAGE;
        erase_cells(self.cells.as_mut_slice(), at, PAGE);
        let answer = self.write_back(at, PAGE);
        self.judged(answer)
    }

    fn program(&mut self, at: u16, bytes: &[u8]) -> Result<(), Failed> {
        let at = at as usize;
        program_cells(self.cells.as_mut_slice(), at, bytes);
        let answer = self.write_back(at, bytes.len());
        self.judged(answer)
    }
}
