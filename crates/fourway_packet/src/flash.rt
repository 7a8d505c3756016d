//! What commands do with the flash.
ghost use Rattle.std.specs.Prelude.{◌≡◌, ◌≤◌, ◌<◌, ◌+◌, length, IfOk, IfErr, IfSome, IsSome, IsErrOf};
ghost use Rattle.esc_base.specs.Outside.{Rose};
ghost use Rattle.settings_block.specs.Block.{block_of};
ghost use Rattle.fourway_packet.specs.Command.{settings_in as settings_of};
ghost use Rattle.fourway_packet.specs.Answer.{ReadsOut, IsCarriedOut};

use crate::{Ack, Command, Params};
use esc_base::{Block48, FlashDev};
use settings_block::{Settings, read_block, save};

/// Reads `count` bytes from an address on.
pub(crate) fn read<D: FlashDev>(at: u16, count: usize, dev: &mut D) -> Result<Params, Ack>
    requires some { 0 < count }
    requires most { count ≤ 256 }
    requires within { at + count ≤ 32768 }
    ensures read { IfOk result (λ content. ReadsOut at count (D.told dev.old).bytes content) }
    ensures failed { IfErr result (λ ack. (ack ≡ Ack.FlashFailed) × Rose (D.told dev.old).faults (D.told dev.new).faults) }
    ensures unchanged { (D.told dev.new).bytes ≡ (D.told dev.old).bytes }
    ensures no_fewer { (D.told dev.old).faults ≤ (D.told dev.new).faults }
{
    let mut buffer = [0; 256];
    let bytes = &mut buffer[..count];
    dev.read(at, bytes)?;
    Ok(Params::new(bytes))
}

/// Compares bytes with those from an address on.
pub(crate) fn verify<D: FlashDev>(at: u16, expected: &[u8], dev: &mut D) -> Result<Params, Ack>
    requires some { 0 < length expected.now }
    requires most { length expected.now ≤ 256 }
    requires within { at + length expected.now ≤ 32768 }
    ensures carried { IsCarriedOut Command.Verify at expected.now (D.told dev.old).bytes result (D.told dev.new).bytes }
    ensures failed { IsErrOf result Ack.FlashFailed → Rose (D.told dev.old).faults (D.told dev.new).faults }
    ensures no_fewer { (D.told dev.old).faults ≤ (D.told dev.new).faults }
{
    let mut buffer = [0; 256];
    let bytes = &mut buffer[..expected.len()];
    dev.read(at, bytes)?;
    let held: &[u8] = bytes;
    if held == expected {
        Ok(Params::nothing())
    } else {
        Err(Ack::Differs)
    }
}

/// Saves a block of settings.
pub(crate) fn save_block<D: FlashDev>(bytes: &[u8], dev: &mut D) -> Result<Params, Ack>
    requires { IsSome (settings_of bytes.now) }
    ensures carried { IsCarriedOut Command.WriteEeprom 0 bytes.now (D.told dev.old).bytes result (D.told dev.new).bytes }
    ensures failed { IsErrOf result Ack.FlashFailed → Rose (D.told dev.old).faults (D.told dev.new).faults }
    ensures no_fewer { (D.told dev.old).faults ≤ (D.told dev.new).faults }
{
    match settings_in(bytes) {
        Some(settings) => {
            save(&settings, dev)?;
            Ok(Params::nothing())
        }
        None => unreachable!(),
    }
}

/// The settings of these bytes, if they are a block of 48 without a fault.
pub(crate) fn settings_in(bytes: &[u8]) -> Option<Settings>
    ensures settings { result ≡ settings_of bytes.now }
    ensures block { IfSome result (λ s. block_of s ≡ bytes.now) }
{
    if bytes.len() != 48 {
        return None;
    }
    let mut block = Block48([0; 48]);
    block.0.copy_from_slice(bytes);
    read_block(&block).ok()
}
