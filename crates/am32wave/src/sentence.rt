//! What each note says, in words.
ghost use Rattle.std.specs.Prelude.{◌≡◌, ◌++◌, All, decimal};
ghost use Rattle.esc_base.specs.Range.{InRange, IsWord};
ghost use Rattle.trace_text.specs.Text.{hex, bits};
ghost use Rattle.am32wave.specs.Pieces.{time_text, text, Fits};
ghost use Rattle.am32wave.specs.Sentence.{mode_name, reason_name, cause_name, kind_name, loaded_name, saved_name, legs_name, marks_name, telemetry_name, watch_name, gates, control, reply, packet, watched, words};

use crate::pieces::Piece;
use esc_base::{Note, Tick};

/// A sentence without its end.
pub type Sentence = [Piece; 5];

fn mode_name(m: u8) -> &'static str
    ensures { result.now ≡ mode_name m }
{
    match m {
        0 => "no mode yet",
        1 => "DShot300",
        2 => "DShot600",
        3 => "DShot300 inverted",
        4 => "DShot600 inverted",
        _ => "servo pulses",
    }
}

fn reason_name(w: u8) -> &'static str
    ensures { result.now ≡ reason_name w }
{
    match w {
        1 => "number of edges",
        2 => "polarity",
        3 => "span",
        4 => "width of a bit",
        _ => "checksum",
    }
}

fn cause_name(c: u8) -> &'static str
    ensures { result.now ≡ cause_name c }
{
    match c {
        0 => "timeout",
        1 => "stuck",
        _ => "fuse",
    }
}

fn kind_name(k: u8) -> &'static str
    ensures { result.now ≡ kind_name k }
{
    match k {
        0 => "MAIN",
        1 => "UART",
        2 => "TICK",
        3 => "CAP",
        4 => "CMP",
        5 => "PWM",
        _ => "COMM",
    }
}

fn loaded_name(r: u8) -> &'static str
    ensures { result.now ≡ loaded_name r }
{
    match r {
        0 => "the settings of the flash",
        1 => "default settings: the block has no marker",
        2 => "default settings: the block has another version",
        _ => "default settings: a value of the block is out of range",
    }
}

fn saved_name(r: u8) -> &'static str
    ensures { result.now ≡ saved_name r }
{
    match r {
        0 => "settings saved",
        _ => "settings not saved: the flash failed",
    }
}

/// The legs whose switches are on in a word.
fn legs_name(word: u8) -> &'static str
    ensures { result.now ≡ legs_name word }
{
    match word {
        0 => "none",
        1 => "A",
        2 => "B",
        3 => "A B",
        4 => "C",
        5 => "A C",
        6 => "B C",
        _ => "A B C",
    }
}

/// The marks of a control tick.
fn marks_name(s: u8) -> &'static str
    ensures { result.now ≡ marks_name s }
{
    match s {
        0 => "",
        1 => ", stuck",
        2 => ", fuse",
        3 => ", stuck, fuse",
        4 => ", session",
        5 => ", stuck, session",
        6 => ", fuse, session",
        _ => ", stuck, fuse, session",
    }
}

fn telemetry_name(q: u8) -> &'static str
    ensures { result.now ≡ telemetry_name q }
{
    match q {
        0 => "",
        _ => ", asks for telemetry",
    }
}

fn watch_name(s: u8) -> &'static str
    ensures { result.now ≡ watch_name s }
{
    match s {
        0 => " gate words",
        _ => " gate words, and has tripped",
    }
}

/// No more of a sentence.
const NOTHING: Piece = Piece::Text("");

fn texts(first: &'static str, second: &'static str) -> Sentence
    ensures text { text result ≡ first.now ++ second.now }
    ensures fits { All Fits result }
{
    let (first, second) = (Piece::Text(first), Piece::Text(second));
    [first, second, NOTHING, NOTHING, NOTHING]
}

/// A number between two texts.
fn numbered(first: &'static str, n: u32, last: &'static str) -> Sentence
    ensures text { text result ≡ first.now ++ decimal n ++ last.now }
    ensures fits { All Fits result }
{
    let (first, last) = (Piece::Text(first), Piece::Text(last));
    [first, Piece::Number(n), last, NOTHING, NOTHING]
}

fn with_byte(first: &'static str, byte: u8) -> Sentence
    ensures text { text result ≡ first.now ++ hex byte }
    ensures fits { All Fits result }
{
    [
        Piece::Text(first),
        Piece::Byte(byte),
        NOTHING,
        NOTHING,
        NOTHING,
    ]
}

fn gates(hi: u8, lo: u8) -> Sentence
    ensures text { text result ≡ gates hi lo }
    ensures fits { All Fits result }
{
    [
        Piece::Text("gates: high "),
        Piece::Text(legs_name(hi)),
        Piece::Text(", low "),
        Piece::Text(legs_name(lo)),
        NOTHING,
    ]
}

fn control(n: u32, s: u8, d: u16) -> Sentence
    ensures text { text result ≡ control n s d }
    ensures fits { All Fits result }
{
    [
        Piece::Text("control tick "),
        Piece::Number(n),
        Piece::Text(", demand "),
        Piece::Number(u32::from(d)),
        Piece::Text(marks_name(s)),
    ]
}

fn reply(s: Tick, b: u32) -> Sentence
    requires { IsWord s.0 }
    ensures text { text result ≡ reply s.0 b }
    ensures fits { All Fits result }
{
    [
        Piece::Text("reply "),
        Piece::Bits(b),
        Piece::Text(" begins at "),
        Piece::Time(s),
        NOTHING,
    ]
}

fn packet(cc: u8, kk: u8) -> Sentence
    ensures text { text result ≡ packet cc kk }
    ensures fits { All Fits result }
{
    [
        Piece::Text("packet with command "),
        Piece::Byte(cc),
        Piece::Text(", acknowledged by "),
        Piece::Byte(kk),
        NOTHING,
    ]
}

fn watched(i: u32, n: u32, s: u8) -> Sentence
    ensures text { text result ≡ watched i n s }
    ensures fits { All Fits result }
{
    [
        Piece::Text("watcher "),
        Piece::Number(i),
        Piece::Text(" was told "),
        Piece::Number(n),
        Piece::Text(watch_name(s)),
    ]
}

/// What a note says.
pub fn sentence(note: &Note) -> Sentence
    requires { InRange note.now }
    ensures text { text result ≡ words note.now }
    ensures fits { All Fits result }
{
    match *note {
        Note::Up { t: _, r } => texts("start with ", loaded_name(r)),
        Note::Enter { t: _, k } => texts("enter ", kind_name(k)),
        Note::Leave { t: _, k } => texts("leave ", kind_name(k)),
        Note::Gate { t: _, hi, lo } => gates(hi, lo),
        Note::Window { t: _, m } => texts("window opens: ", mode_name(m)),
        Note::Good { t: _, v, q } => numbered("good frame ", u32::from(v), telemetry_name(q)),
        Note::Detected { t: _, m } => texts("detected ", mode_name(m)),
        Note::Nothing { t: _ } => texts("detected nothing", ""),
        Note::Bad { t: _, w } => texts("bad frame: ", reason_name(w)),
        Note::Control { t: _, n, s, d } => control(n, s, d),
        Note::Armed { t: _ } => texts("armed", ""),
        Note::Lost { t: _, c } => texts("lost: ", cause_name(c)),
        Note::Command { t: _, c } => numbered("command ", u32::from(c), " acts"),
        Note::Saved { t: _, r } => texts(saved_name(r), ""),
        Note::Step { t: _, s } => numbered("sector ", u32::from(s), ""),
        Note::Cross { t: _ } => texts("zero crossing", ""),
        Note::Period { t: _, p: None } => texts("no period", ""),
        Note::Period { t: _, p: Some(p) } => numbered("period ", p, " us"),
        Note::Reply { t: _, s, b } => reply(s, b),
        Note::Packet { t: _, cc, kk } => packet(cc, kk),
        Note::Sent { t: _, xx } => with_byte("sent ", xx),
        Note::Dropped { t: _, xx } => with_byte("lost a received byte: ", xx),
        Note::Watched { t: _, i, n, s } => watched(i, n, s),
    }
}
