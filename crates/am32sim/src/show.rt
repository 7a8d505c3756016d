//! The settings as text.
ghost use Rattle.std.specs.Prelude.{◌≡◌, ◌≤◌, ◌+◌, ◌++◌, ◌∷◌, [], length, codes};
ghost use Rattle.std.specs.Fmt.{decimal};
ghost use Rattle.arrayvec.specs.ArrayString.{array_string_len};
ghost use Rattle.settings_block.specs.Settings.{input_number};
ghost use Rattle.am32sim.specs.Show.{fault_text, block_fault_text, field_line, show_text};

use arrayvec::ArrayString;
use itoa::Buffer;
use servo_input::InputKind;
use settings_block::{BlockFault, Loaded, Settings};

/// The lines of `show`.
pub type Lines = ArrayString<256>;

fn push_block_fault(text: &mut Lines, fault: BlockFault)
    requires { array_string_len text.old ≤ 16 }
    ensures bytes { text.new.bytes ≡ text.old.bytes ++ block_fault_text fault }
    ensures len { array_string_len text.new ≤ array_string_len text.old + 40 }
{
    match fault {
        BlockFault::Marker => text.push_str("block marker\n"),
        BlockFault::Version => text.push_str("block version\n"),
        BlockFault::Range(offset) => push_field(text, "block range", u16::from(offset)),
    }
}

fn push_fault(text: &mut Lines, fault: Option<BlockFault>)
    requires { array_string_len text.old ≤ 16 }
    ensures bytes { text.new.bytes ≡ text.old.bytes ++ fault_text fault }
    ensures len { array_string_len text.new ≤ array_string_len text.old + 40 }
{
    match fault {
        None => text.push_str("block ok\n"),
        Some(fault) => push_block_fault(text, fault),
    }
}

/// Appends a line with a name and a number.
#[tactic(auto, unfolding(crate::specs::Show::field_line))]
fn push_field(text: &mut Lines, name: &str, value: u16)
    requires room { array_string_len text.old ≤ 230 }
    requires short { length name.now ≤ 15 }
    ensures bytes { text.new.bytes ≡ text.old.bytes ++ field_line name.now value }
    ensures len { array_string_len text.new ≤ array_string_len text.old + length name.now + 7 }
{
    let mut digits = Buffer::new();
    text.push_str(name);
    text.push_str(" ");
    text.push_str(digits.format(value));
    text.push_str("\n");
}

fn input_number(input: InputKind) -> u16
    ensures { result ≡ input_number input }
{
    match input {
        InputKind::Any => 0,
        InputKind::DShot => 1,
        InputKind::Servo => 2,
    }
}

/// What `show` writes of the settings: whether there is a block, and the settings in effect.
pub fn show_text(loaded: &Loaded) -> Lines
    ensures { result.bytes ≡ show_text loaded.now }
{
    let Settings {
        direction,
        three_d,
        complementary,
        advance,
        poles,
        low,
        high,
        neutral,
        dead_band,
        input,
        ..
    } = loaded.settings;
    let mut text = Lines::new();
    push_fault(&mut text, loaded.fault);
    push_field(&mut text, "direction", u16::from(direction));
    push_field(&mut text, "three_d", u16::from(three_d));
    push_field(&mut text, "complementary", u16::from(complementary));
    push_field(&mut text, "advance", u16::from(advance));
    push_field(&mut text, "poles", u16::from(poles));
    push_field(&mut text, "servo_low", 2 * u16::from(low) + 750);
    push_field(&mut text, "servo_high", 2 * u16::from(high) + 1750);
    push_field(&mut text, "neutral", u16::from(neutral) + 1374);
    push_field(&mut text, "dead_band", u16::from(dead_band));
    push_field(&mut text, "input", input_number(input));
    text
}
