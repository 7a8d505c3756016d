//! The block's bytes.
ghost use Rattle.std.specs.Prelude.{◌≡◌, ◌<◌, Ok, IfOk, IfErr, OnOk, Some, None, length, true, false};
ghost use Rattle.settings_block.specs.Field.{allows, byte_at};
ghost use Rattle.settings_block.specs.Settings.{default_settings, IsInRange};
ghost use Rattle.settings_block.specs.Block.{block_of, bytes_of, fault_of, input_number, input_of, range_fault, read_of, settings_of, written};

use crate::Settings;
use crate::field::{
    ADVANCE, COMPLEMENTARY, DEAD_BAND, DIRECTION, Field, HIGH, INPUT, LOW, MARKER, NEUTRAL, POLES,
    THREE_D, VERSION,
};
use esc_base::Block48;
use servo_input::InputKind;
use thiserror::Error;

/// What is wrong with a block: the first of these that applies.
#[derive(Clone, Copy, Debug, PartialEq, Eq, Drop, Error)]
pub enum BlockFault {
    /// The byte that marks a block isn't there.
    #[error("no settings block")]
    Marker,
    /// The block has another version.
    #[error("another version of the settings block")]
    Version,
    /// The byte at this offset, the lowest one, is out of its field's range.
    #[error("byte {0} of the settings block is out of range")]
    Range(u8),
}

/// The settings of a block, or the first fault in it.
pub fn read_block(b: &Block48) -> Result<Settings, BlockFault>
    ensures read { result ≡ read_of b.now.0 }
    ensures in_range { IfOk result IsInRange }
    ensures inverse { IfOk result (λ s. block_of s ≡ b.now.0) }
{
    check(b)?;
    Ok(settings_in(b))
}

/// The block of these settings: their fields over the bytes that they were read from. Reading it gives them back.
pub fn write_block(s: &Settings) -> Block48
    ensures block { result.0 ≡ block_of s.now }
    ensures inverse { IsInRange s.now → read_of result.0 ≡ Ok (record s.now { rest = result }) }
{
    with_fields(s.rest, s)
}

/// A block with the fields written over its bytes.
fn with_fields(mut block: Block48, s: &Settings) -> Block48
    ensures written { result.0 ≡ written (bytes_of s.now) block.0 }
    ensures len { length block.0 ≡ 48 }
{
    write_fields(&mut block.0, s);
    block
}

fn write_fields(bytes: &mut [u8], s: &Settings)
    requires { length bytes.old ≡ 48 }
    ensures written { bytes.new ≡ written (bytes_of s.now) bytes.old }
    ensures len { length bytes.old ≡ 48 }
{
    bytes[MARKER.offset as usize] = MARKER.default;
    bytes[VERSION.offset as usize] = VERSION.default;
    bytes[DIRECTION.offset as usize] = s.direction;
    bytes[THREE_D.offset as usize] = s.three_d as u8;
    bytes[COMPLEMENTARY.offset as usize] = s.complementary as u8;
    bytes[ADVANCE.offset as usize] = s.advance;
    bytes[POLES.offset as usize] = s.poles;
    bytes[LOW.offset as usize] = s.low;
    bytes[HIGH.offset as usize] = s.high;
    bytes[NEUTRAL.offset as usize] = s.neutral;
    bytes[DEAD_BAND.offset as usize] = s.dead_band;
    bytes[INPUT.offset as usize] = input_byte(s.input);
}

/// The block of the default settings, whose other bytes are 0.
pub fn default_block() -> Block48
    ensures block { result.0 ≡ block_of default_settings }
    ensures read { read_of result.0 ≡ Ok (record default_settings { rest = result }) }
{
    write_block(&defaults())
}

/// The default settings.
pub(crate) fn defaults() -> Settings
    ensures { result ≡ default_settings }
{
    Settings {
        direction: DIRECTION.default,
        three_d: THREE_D.default == 1,
        complementary: COMPLEMENTARY.default == 1,
        advance: ADVANCE.default,
        poles: POLES.default,
        low: LOW.default,
        high: HIGH.default,
        neutral: NEUTRAL.default,
        dead_band: DEAD_BAND.default,
        input: input_kind(INPUT.default),
        rest: Block48([0; 48]),
    }
}

fn check(b: &Block48) -> Result<(), BlockFault>
    ensures ok { OnOk result (fault_of b.now.0 ≡ None) }
    ensures err { IfErr result (λ fault. fault_of b.now.0 ≡ Some fault) }
{
    if b.0[0] != MARKER.default {
        return Err(BlockFault::Marker);
    }
    if b.0[1] != VERSION.default {
        return Err(BlockFault::Version);
    }
    check_ranges(b)
}

fn check_ranges(b: &Block48) -> Result<(), BlockFault>
    ensures ok { OnOk result (range_fault b.now.0 ≡ None) }
    ensures err { IfErr result (λ fault. range_fault b.now.0 ≡ Some fault) }
{
    check_field(b, &DIRECTION)?;
    check_field(b, &THREE_D)?;
    check_field(b, &COMPLEMENTARY)?;
    check_field(b, &ADVANCE)?;
    check_field(b, &POLES)?;
    check_field(b, &LOW)?;
    check_field(b, &HIGH)?;
    check_field(b, &NEUTRAL)?;
    check_field(b, &DEAD_BAND)?;
    check_field(b, &INPUT)
}

fn check_field(b: &Block48, field: &Field) -> Result<(), BlockFault>
    requires offset { field.now.offset < 48 }
    requires step { 0 < field.now.step }
    ensures ok { OnOk result (allows field.now (byte_at b.now.0 field.now) ≡ true) }
    ensures err { IfErr result (λ fault. (allows field.now (byte_at b.now.0 field.now) ≡ false) × (fault ≡ BlockFault.Range field.now.offset)) }
{
    if field.allows(b.0[field.offset as usize]) {
        Ok(())
    } else {
        Err(BlockFault::Range(field.offset))
    }
}

/// The settings in a block without a fault.
fn settings_in(b: &Block48) -> Settings
    ensures { result ≡ settings_of b.now.0 }
{
    Settings {
        direction: b.0[DIRECTION.offset as usize],
        three_d: b.0[THREE_D.offset as usize] == 1,
        complementary: b.0[COMPLEMENTARY.offset as usize] == 1,
        advance: b.0[ADVANCE.offset as usize],
        poles: b.0[POLES.offset as usize],
        low: b.0[LOW.offset as usize],
        high: b.0[HIGH.offset as usize],
        neutral: b.0[NEUTRAL.offset as usize],
        dead_band: b.0[DEAD_BAND.offset as usize],
        input: input_kind(b.0[INPUT.offset as usize]),
        rest: *b,
    }
}

fn input_kind(byte: u8) -> InputKind
    ensures { result ≡ input_of byte }
{
    match byte {
        1 => InputKind::DShot,
        2 => InputKind::Servo,
        _ => InputKind::Any,
    }
}

fn input_byte(input: InputKind) -> u8
    ensures { result ≡ input_number input }
{
    match input {
        InputKind::Any => 0,
        InputKind::DShot => 1,
        InputKind::Servo => 2,
    }
}
