//! The settings in the flash.
ghost use Rattle.std.specs.Prelude.{◌≡◌, ◌≤◌, ◌<◌, ◌^◌, IfOk, OnOk, OnErr};
ghost use Rattle.std.specs.Option.{option_map};
ghost use Rattle.esc_base.specs.Flash.{erased, programmed};
ghost use Rattle.esc_base.specs.Outside.{Rose};
ghost use Rattle.settings_block.specs.Settings.{IsInRange};
ghost use Rattle.settings_block.specs.Block.{block_of};
ghost use Rattle.settings_block.specs.Stored.{loaded_of, settings_address, settings_page, IsLoaded, KeepsBelow};

use crate::block::defaults;
use crate::{BlockFault, Settings, read_block, write_block};
use esc_base::{Block48, Failed, FlashDev};
use thiserror::Error;

/// The page of the block.
const PAGE: u8 = 31;

/// The block's address, at the front of its page.
const ADDRESS: u16 = 0x7C00;

/// The flash failed.
#[derive(Clone, Copy, Debug, PartialEq, Eq, Drop, Error)]
#[error("the flash failed")]
pub struct FlashFault;

impl From<Failed> for FlashFault {
    fn from(_failed: Failed) -> FlashFault {
        FlashFault
    }
}

/// What a load gives.
#[derive(Clone, Copy, Debug, PartialEq, Eq, Drop)]
pub struct Loaded {
    /// The settings of the block, or the default ones where it has a fault.
    pub settings: Settings,
    /// What is wrong with the block, if something is.
    pub fault: Option<BlockFault>,
}

/// Reads the settings from the 48 bytes at 0x7C00, or the default ones where the block has a fault. It fails only where
/// the flash did.
pub fn load<D: FlashDev>(dev: &mut D) -> Result<Loaded, FlashFault>
    ensures loaded { IfOk result (λ loaded. IsLoaded (D.told dev.old).bytes loaded) }
    ensures in_range { IfOk result (λ loaded. IsInRange loaded.settings) }
    ensures unchanged { (D.told dev.new).bytes ≡ (D.told dev.old).bytes }
    ensures fine { OnOk result ((D.told dev.new).faults ≡ (D.told dev.old).faults) }
    ensures no_fewer { (D.told dev.old).faults ≤ (D.told dev.new).faults }
    ensures failed { OnErr result (Rose (D.told dev.old).faults (D.told dev.new).faults) }
{
    let mut block = Block48([0; 48]);
    dev.read(ADDRESS, &mut block.0)?;
    Ok(loaded_from(&block))
}

/// Erases the block's page, which is the last one, and programs the settings' block. It fails only where the flash did;
/// then that page may hold anything.
pub fn save<D: FlashDev>(s: &Settings, dev: &mut D) -> Result<(), FlashFault>
    ensures saved { OnOk result ((D.told dev.new).bytes ≡ option_map (λ cells. programmed (erased cells settings_page) settings_address (block_of s.now)) (D.told dev.old).bytes) }
    ensures below { OnErr result (KeepsBelow settings_address (D.told dev.old).bytes (D.told dev.new).bytes) }
    ensures no_fewer { (D.told dev.old).faults ≤ (D.told dev.new).faults }
    ensures failed { OnErr result (Rose (D.told dev.old).faults (D.told dev.new).faults) }
{
    dev.erase(PAGE)?;
    dev.program(ADDRESS, &write_block(s).0)?;
    Ok(())
}

/// The settings of a block, or the default ones with the block's fault.
fn loaded_from(block: &Block48) -> Loaded
    ensures is { result ≡ loaded_of block.now.0 }
    ensures in_range { IsInRange result.settings }
{
    match read_block(block) {
        Ok(settings) => Loaded {
            settings,
            fault: None,
        },
        Err(fault) => Loaded {
            settings: defaults(),
            fault: Some(fault),
        },
    }
}
