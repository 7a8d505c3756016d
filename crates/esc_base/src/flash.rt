//! The flash, and a flash in memory.
ghost use Rattle.std.specs.Prelude.{◌≡◌, ◌≤◌, ◌<◌, ◌+◌, ◌*◌, ◌^◌, ◌++◌, ◌∷◌, [], ◌≢◌, min, ℕ, List, Option, Some, IsNone, IfOk, OnOk, OnErr, false, length, drop, take, vec_len};
ghost use Rattle.std.specs.Option.{option_map};
ghost use Rattle.esc_base.specs.Outside.{Rose};
ghost use Rattle.esc_base.specs.declared.flash.FlashOp.{FlashOp};

use crate::cells::{blank_cells, erase_cells, program_cells};
use crate::memory::Calls;
use crate::{Failed, NoMemory, raised};
use std::alloc::Global;

/// The bytes of a flash: 32 pages.
pub(crate) const FLASH: usize = 32768;

/// The bytes of a page.
pub(crate) const PAGE: usize = 1024;

/// A flash of 32 pages of 1024 bytes. Erasing sets bits and programming clears them.
pub trait FlashDev {
    ghost use Rattle.esc_base.specs.Flash.{erased, programmed, ChangesWithin, IsRead, IsWhole, Told};

    /// Its 32768 bytes, where it tells them, and how often it has failed.
    ghost told: { Self → Told };

    /// Whether it would bind the image at a path, or go on without one.
    ghost binds: { Self → Option (List ℕ) → Type 0 };

    /// Its 32768 bytes once it has bound the image at a path, or goes on without one; where it tells them.
    ghost image: { Self → Option (List ℕ) → Option (List ℕ) };

    /// Binds the image at a path, or leaves the device as it is.
    fn attach(&mut self, path: Option<&str>) -> Result<(), Failed>
        ensures bound { OnOk result (binds self.old (option_map (λ path. path.now) path.entry)) }
        ensures image { OnOk result ((told self.new).bytes ≡ image self.old (option_map (λ path. path.now) path.entry)) }
        ensures none { IsNone path.entry → (told self.new).bytes ≡ (told self.old).bytes }
        ensures unchanged { OnErr result ((told self.new).bytes ≡ (told self.old).bytes) }
        ensures fine { OnOk result ((told self.new).faults ≡ (told self.old).faults) }
        ensures no_fewer { (told self.old).faults ≤ (told self.new).faults }
        ensures counted { (told self.new).faults < 2 ^ 64 }
        ensures failed { OnErr result (Rose (told self.old).faults (told self.new).faults) };

    /// Fills `buf` with the bytes from `at` on.
    fn read(&mut self, at: u16, buf: &mut [u8]) -> Result<(), Failed>
        requires { at + length buf.old ≤ 32768 }
        ensures read { OnOk result (IsRead (told self.old).bytes at buf.new) }
        ensures unchanged { (told self.new).bytes ≡ (told self.old).bytes }
        ensures fine { OnOk result ((told self.new).faults ≡ (told self.old).faults) }
        ensures no_fewer { (told self.old).faults ≤ (told self.new).faults }
        ensures counted { (told self.new).faults < 2 ^ 64 }
        ensures failed { OnErr result (Rose (told self.old).faults (told self.new).faults) };

    /// Sets the bytes of a page, 0 to 31, to 0xFF. After a failure they may be any.
    fn erase(&mut self, page: u8) -> Result<(), Failed>
        requires { page < 32 }
        ensures erased { OnOk result ((told self.new).bytes ≡ option_map (λ cells. erased cells page) (told self.old).bytes) }
        ensures within { OnErr result (ChangesWithin (page * 1024) 1024 (told self.old).bytes (told self.new).bytes) }
        ensures no_fewer { (told self.old).faults ≤ (told self.new).faults }
        ensures counted { (told self.new).faults < 2 ^ 64 }
        ensures failed { OnErr result (Rose (told self.old).faults (told self.new).faults) };

    /// Programs the bytes from `at` on: each becomes the bitwise and of the old and the new one. After a
    /// failure they may be any.
    fn program(&mut self, at: u16, bytes: &[u8]) -> Result<(), Failed>
        requires { at + length bytes.now ≤ 32768 }
        ensures programmed { OnOk result ((told self.new).bytes ≡ option_map (λ cells. programmed cells at bytes.now) (told self.old).bytes) }
        ensures within { OnErr result (ChangesWithin at (length bytes.now) (told self.old).bytes (told self.new).bytes) }
        ensures no_fewer { (told self.old).faults ≤ (told self.new).faults }
        ensures counted { (told self.new).faults < 2 ^ 64 }
        ensures failed { OnErr result (Rose (told self.old).faults (told self.new).faults) };

    ghost whole: { (flash : Self) → IsWhole (told flash).bytes };
}

/// A call of a flash, by its kind.
#[derive(Clone, Copy, Debug, Drop)]
pub enum FlashOp {
    Attach,
    Read,
    Erase,
    Program,
}

/// A flash in memory, which tells its bytes. Failing calls change nothing but the counts.
#[derive(Drop)]
pub struct MemFlash {
    cells: Vec<u8>,
    attach: Calls,
    read: Calls,
    erase: Calls,
    program: Calls,
    faults: u64,
    ghost counted: { faults < 2 ^ 64 },
    ghost whole: { length cells.items ≡ 32768 },
}

impl MemFlash {
    ghost use Rattle.esc_base.specs.Flash.{blank, flash_cells, made_calls, placed, planned_calls};

    /// A blank flash: each byte is 0xFF.
    pub fn new(alloc: Global) -> Result<MemFlash, NoMemory>
        ensures blank { IfOk result (λ flash. flash_cells flash ≡ blank 32768) }
        ensures planned { IfOk result (λ flash. (op : FlashOp) → planned_calls flash op ≡ []) }
        ensures faults { IfOk result (λ flash. flash.faults ≡ 0) }
    {
        Ok(MemFlash {
            cells: blank_cells(alloc, FLASH)?,
            attach: Calls::new(alloc, &[])?,
            read: Calls::new(alloc, &[])?,
            erase: Calls::new(alloc, &[])?,
            program: Calls::new(alloc, &[])?,
            faults: 0,
        })
    }

    /// Makes the `n`-th later call of this kind fail, counted from 1.
    pub fn fail(&mut self, op: FlashOp, n: u64) -> Result<(), NoMemory>
        requires { 0 < n }
        ensures cells { flash_cells self.new ≡ flash_cells self.old }
        ensures faults { self.new.faults ≡ self.old.faults }
        ensures planned { OnOk result (planned_calls self.new op ≡ planned_calls self.old op
            ++ min (made_calls self.old op + n) 18446744073709551615 ∷ []) }
        ensures refused { OnErr result (planned_calls self.new op ≡ planned_calls self.old op) }
        ensures others { (other : FlashOp) → other ≢ op → planned_calls self.new other ≡ planned_calls self.old other }
        ensures made { (any : FlashOp) → made_calls self.new any ≡ made_calls self.old any }
    {
        match op {
            FlashOp::Attach => self.attach.fail(n),
            FlashOp::Read => self.read.fail(n),
            FlashOp::Erase => self.erase.fail(n),
            FlashOp::Program => self.program.fail(n),
        }
    }

    /// Places bytes from `at` on, whatever is there.
    pub fn set(&mut self, at: u16, bytes: &[u8])
        requires { at + length bytes.now ≤ 32768 }
        ensures cells { flash_cells self.new ≡ placed (flash_cells self.old) at bytes.now }
        ensures faults { self.new.faults ≡ self.old.faults }
    {
        let at = at as usize;
        self.cells[at..at + bytes.len()].copy_from_slice(bytes);
    }

    /// All 32768 bytes.
    pub fn bytes(&self) -> &[u8]
        ensures { result.now ≡ flash_cells self.now }
    {
        self.cells.as_slice()
    }

    /// Counts a failure where the call is to fail.
    fn judged(&mut self, is_to_fail: bool) -> Result<(), Failed>
        ensures fine { OnOk result (is_to_fail ≡ false) }
        ensures none { OnOk result (self.new.faults ≡ self.old.faults) }
        ensures cells { self.new.cells ≡ self.old.cells }
        ensures no_fewer { self.old.faults ≤ self.new.faults }
        ensures failed { OnErr result (Rose self.old.faults self.new.faults) }
    {
        if is_to_fail {
            self.faults = raised(self.faults);
            return Err(Failed);
        }
        Ok(())
    }
}

impl FlashDev for MemFlash {
    ghost use Rattle.esc_base.specs.Flash.{Told, SucceedsNext};

    ghost told = { λ flash. record { bytes = Some flash.cells.items; faults = flash.faults } };

    ghost binds = { λ flash _. SucceedsNext flash FlashOp.Attach };

    ghost image = { λ flash _. Some flash.cells.items };

    ghost whole = { λ flash. flash.whole };

    fn attach(&mut self, _path: Option<&str>) -> Result<(), Failed> {
        let is_to_fail = self.attach.is_to_fail();
        self.judged(is_to_fail)
    }

    fn read(&mut self, at: u16, buf: &mut [u8]) -> Result<(), Failed> {
        let is_to_fail = self.read.is_to_fail();
        self.judged(is_to_fail)?;
        let at = at as usize;
        buf.copy_from_slice(&self.cells.as_slice()[at..at + buf.len()]);
        Ok(())
    }

    fn erase(&mut self, page: u8) -> Result<(), Failed> {
        let is_to_fail = self.erase.is_to_fail();
        self.judged(is_to_fail)?;
        erase_cells(self.cells.as_mut_slice(), page as usize * PAGE, PAGE);
        Ok(())
    }

    fn program(&mut self, at: u16, bytes: &[u8]) -> Result<(), Failed> {
        let is_to_fail = self.program.is_to_fail();
        self.judged(is_to_fail)?;
        program_cells(self.cells.as_mut_slice(), at as usize, bytes);
        Ok(())
    }
}
