//! The bytes of a flash in memory.
ghost use Rattle.std.specs.Prelude.{◌≡◌, ◌≤◌, ◌<◌, ◌+◌, ◌*◌, ◌^◌, IfOk, length, vec_len};
ghost use Rattle.esc_base.specs.Flash.{and_front, blank, blanked, programmed};

use crate::NoMemory;
use std::alloc::Global;

/// So many erased bytes.
pub(crate) fn blank_cells(alloc: Global, n: usize) -> Result<Vec<u8>, NoMemory>
    ensures cells { IfOk result (λ cells. cells.items ≡ blank n) }
    ensures len { IfOk result (λ cells. length cells.items ≡ n) }
{
    match vec![in alloc; 0xFF; n] {
        Ok(cells) => Ok(cells),
        Err(_) => Err(NoMemory),
    }
}

pub(crate) fn erase_cells(cells: &mut [u8], at: usize, n: usize)
    requires { at + n ≤ length cells.old }
    ensures { cells.new ≡ blanked cells.old at n }
{
    blank_all(&mut cells[at..at + n]);
}

fn blank_all(cells: &mut [u8])
    ensures { cells.new ≡ blank (length cells.old) }
{
    cells.fill(0xFF);
}

pub(crate) fn program_cells(cells: &mut [u8], at: usize, bytes: &[u8])
    requires { at + length bytes.now ≤ length cells.old }
    ensures { cells.new ≡ programmed cells.old at bytes.now }
{
    and_into(&mut cells[at..], bytes);
}

fn and_into(cells: &mut [u8], bytes: &[u8])
    requires { length bytes.now ≤ length cells.old }
    ensures { cells.new ≡ and_front cells.old bytes.now }
{
    for (i, byte) in bytes.iter().enumerate() {
        cells[i] &= *byte;
    }
}
