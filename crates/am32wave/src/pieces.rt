//! What is written, as pieces of text.
ghost use Rattle.std.specs.Prelude.{◌≡◌, ◌≤◌, ◌<◌, ◌+◌, ◌++◌, length, false, All, OnOk, OnErr, decimal};
ghost use Rattle.std.specs.Fmt.{digit_glyph};
ghost use Rattle.std.specs.Io.KnownBytes.{append_known};
ghost use Rattle.arrayvec.specs.ArrayVec.{array_vec_len};
ghost use Rattle.esc_base.specs.Outside.{Rose, AppendsFront};
ghost use Rattle.esc_base.specs.Range.{IsWord};
ghost use Rattle.trace_text.specs.Text.{hex, bits};
ghost use Rattle.am32wave.specs.Pieces.{time_text, stamp, tick_of, stamp_text, declaration, change, percent, shape, label, level, box, piece_text, text, Fits};

use crate::wire::Wire;
use arrayvec::ArrayVec;
use esc_base::{Failed, Note, Sink, Tick};
use itoa::Buffer;
use trace_text::{Line, note_text};

/// A piece of text.
#[derive(Clone, Copy, Drop)]
pub enum Piece {
    Text(&'static str),
    /// In decimal.
    Number(u32),
    /// As two hexadecimal digits.
    Byte(u8),
    /// The 21 bits of a reply, the first one first.
    Bits(u32),
    /// In microseconds.
    Time(Tick),
    /// A wire's declaration in a dump: `$var wire 11 + demand $end`.
    Declaration { id: u8, wire: Wire },
    /// A time in a dump, in picoseconds: `#47875000`.
    Stamp(Tick),
    /// A wire's new value: `1!`, or for several bits `b101 #`.
    Change { id: u8, width: u32, value: u32 },
    /// A note's line of a journal: `Q 12043220 1`.
    Note(Note),
    /// A wire's new level in a still picture, at `x` thousandths of a percent, in the row at the height `y`.
    Level { x: u32, y: u32, value: u32 },
    /// The same of a wire of several bits: a box with its value.
    Box { x: u32, y: u32, value: u32 },
}

impl Default for Piece {
    fn default() -> Self {
        Piece::Text("")
    }
}

/// The pieces that are written at once: a note's, the head's or the end's.
pub type Page = ArrayVec<Piece, 128>;

/// Puts pieces behind those of a page.
pub fn push_all(pieces: &[Piece], page: &mut Page)
    requires room { array_vec_len page.old + length pieces.now ≤ 128 }
    ensures { page.new.items ≡ page.old.items ++ pieces.now }
{
    for piece in pieces {
        page.push(*piece);
    }
}

/// The whole microseconds of a tick, and three digits behind the point: whole nanoseconds, rounded down.
fn time_text(t: Tick) -> Line
    requires { IsWord t.0 }
    ensures { result.bytes ≡ time_text t.0 }
{
    let mut line = Line::new();
    let rest = t.0 % 48 * 1000 / 48;
    line.push_number((t.0 / 48) as u32);
    line.push_byte(b'.');
    line.push_byte(b'0' + (rest / 100) as u8);
    line.push_byte(b'0' + (rest / 10 % 10) as u8);
    line.push_byte(b'0' + (rest % 10) as u8);
    line.push_bytes(b" us");
    line
}

fn number_text(n: u32) -> Line
    ensures { result.bytes ≡ decimal n }
{
    let mut line = Line::new();
    line.push_number(n);
    line
}

fn hex_digit(n: u8) -> u8
    requires { n < 16 }
    ensures { result ≡ digit_glyph false n }
{
    if n < 10 { b'0' + n } else { b'a' + (n - 10) }
}

fn byte_text(byte: u8) -> Line
    ensures { result.bytes ≡ hex byte }
{
    let mut line = Line::new();
    line.push_byte(hex_digit(byte / 16));
    line.push_byte(hex_digit(byte % 16));
    line
}

fn bits_text(b: u32) -> Line
    ensures { result.bytes ≡ bits 21 b }
{
    let mut line = Line::new();
    line.push_bits(21, b);
    line
}

/// The stamp of a tick: the whole picoseconds up to it, of which three ticks of 48 MHz are 62500. It tells the tick.
pub fn stamp(t: Tick) -> u64
    requires { IsWord t.0 }
    ensures stamp { result ≡ stamp t.0 }
    ensures tells { tick_of result ≡ t.0 }
{
    t.0 * 62500 / 3
}

fn stamp_text(t: Tick) -> Line
    requires { IsWord t.0 }
    ensures { result.bytes ≡ stamp_text t.0 }
{
    let mut digits = Buffer::new();
    let mut line = Line::new();
    line.push_byte(b'#');
    line.push_bytes(digits.format(stamp(t)).as_bytes());
    line.push_byte(b'\n');
    line
}

fn declaration_text(id: u8, wire: Wire) -> Line
    ensures { result.bytes ≡ declaration id wire }
{
    let mut line = Line::new();
    line.push_bytes(b"$var wire ");
    line.push_number(wire.width());
    line.push_byte(b' ');
    line.push_byte(id);
    line.push_byte(b' ');
    line.push_bytes(wire.name().as_bytes());
    line.push_bytes(b" $end\n");
    line
}

fn change_text(id: u8, width: u32, value: u32) -> Line
    requires { width ≤ 32 }
    ensures { result.bytes ≡ change id width value }
{
    let mut line = Line::new();
    if width == 1 {
        line.push_bits(width, value);
    } else {
        line.push_byte(b'b');
        line.push_bits(width, value);
        line.push_byte(b' ');
    }
    line.push_byte(id);
    line.push_byte(b'\n');
    line
}

fn put_line<K: Sink>(line: &Line, out: &mut K) -> Result<(), Failed>
    ensures ok { OnOk result (K.given out.new ≡ append_known (K.given out.old) line.now.bytes) }
    ensures front { OnErr result (AppendsFront (K.given out.old) line.now.bytes (K.given out.new)) }
    ensures no_fewer { K.faults out.old ≤ K.faults out.new }
    ensures failed { OnErr result (Rose (K.faults out.old) (K.faults out.new)) }
{
    out.put(line.as_bytes())
}

fn push_percent(x: u32, line: &mut Line)
    requires { length line.old.bytes + 16 ≤ 64 }
    ensures bytes { line.new.bytes ≡ line.old.bytes ++ percent x }
    ensures len { length line.new.bytes ≤ length line.old.bytes + 15 }
{
    let rest = x % 1000;
    line.push_number(x / 1000);
    line.push_byte(b'.');
    line.push_byte(b'0' + (rest / 100) as u8);
    line.push_byte(b'0' + (rest / 10 % 10) as u8);
    line.push_byte(b'0' + (rest % 10) as u8);
    line.push_byte(b'%');
}

fn shape_text(id: u8, x: u32, y: u32) -> Line
    ensures { result.bytes ≡ shape id x y }
{
    let mut line = Line::new();
    line.push_bytes(b"<use href=\"#");
    line.push_byte(id);
    line.push_bytes(b"\" x=\"");
    push_percent(x, &mut line);
    line.push_bytes(b"\" y=\"");
    line.push_number(y);
    line.push_bytes(b"\"/>\n");
    line
}

fn level_text(x: u32, y: u32, value: u32) -> Line
    ensures { result.bytes ≡ level x y value }
{
    let id = if value == 0 { b'l' } else { b'h' };
    shape_text(id, x, y)
}

fn label_text(x: u32, y: u32, value: u32) -> Line
    ensures { result.bytes ≡ label x y value }
{
    let mut line = Line::new();
    line.push_bytes(b"<text x=\"");
    push_percent(x, &mut line);
    line.push_bytes(b"\" y=\"");
    line.push_number(y);
    line.push_bytes(b"\">");
    line.push_number(value);
    line.push_bytes(b"</text>\n");
    line
}

/// A box with its value.
fn put_box<K: Sink>(x: u32, y: u32, value: u32, out: &mut K) -> Result<(), Failed>
    ensures ok { OnOk result (K.given out.new ≡ append_known (K.given out.old) (box x y value)) }
    ensures front { OnErr result (AppendsFront (K.given out.old) (box x y value) (K.given out.new)) }
    ensures no_fewer { K.faults out.old ≤ K.faults out.new }
    ensures failed { OnErr result (Rose (K.faults out.old) (K.faults out.new)) }
{
    put_line(&shape_text(b'b', x, y), out)?;
    put_line(&label_text(x, y, value), out)
}

fn put_piece<K: Sink>(piece: Piece, out: &mut K) -> Result<(), Failed>
    requires { Fits piece }
    ensures ok { OnOk result (K.given out.new ≡ append_known (K.given out.old) (piece_text piece)) }
    ensures front { OnErr result (AppendsFront (K.given out.old) (piece_text piece) (K.given out.new)) }
    ensures no_fewer { K.faults out.old ≤ K.faults out.new }
    ensures failed { OnErr result (Rose (K.faults out.old) (K.faults out.new)) }
{
    match piece {
        Piece::Text(text) => out.put(text.as_bytes()),
        Piece::Number(n) => put_line(&number_text(n), out),
        Piece::Byte(byte) => put_line(&byte_text(byte), out),
        Piece::Bits(b) => put_line(&bits_text(b), out),
        Piece::Time(t) => put_line(&time_text(t), out),
        Piece::Declaration { id, wire } => put_line(&declaration_text(id, wire), out),
        Piece::Stamp(t) => put_line(&stamp_text(t), out),
        Piece::Change { id, width, value } => put_line(&change_text(id, width, value), out),
        Piece::Note(note) => put_line(&note_text(&note), out),
        Piece::Level { x, y, value } => put_line(&level_text(x, y, value), out),
        Piece::Box { x, y, value } => put_box(x, y, value, out),
    }
}

/// Writes the pieces, one behind the other.
pub fn put_pieces<K: Sink>(pieces: &[Piece], out: &mut K) -> Result<(), Failed>
    requires { All Fits pieces.now }
    ensures ok { OnOk result (K.given out.new ≡ append_known (K.given out.old) (text pieces.now)) }
    ensures front { OnErr result (AppendsFront (K.given out.old) (text pieces.now) (K.given out.new)) }
    ensures no_fewer { K.faults out.old ≤ K.faults out.new }
    ensures failed { OnErr result (Rose (K.faults out.old) (K.faults out.new)) }
{
    for piece in pieces {
        put_piece(*piece, out)?;
    }
    Ok(())
}
