ghost use Rattle.std.specs.Prelude.{◌≡◌, ◌≤◌, ◌<◌, ◌^◌, ℕ, pos, List, Option, IfOk, OnOk, option_map};
ghost use Rattle.csv.specs.Reading.{Ready, reader_config, reader_state, reader_trim, source_of, strip_bom};
ghost use Rattle.csv.specs.Records.{fields_of};
ghost use Rattle.csv.specs.declared.parser.State.TheVariants as st;
ghost use Rattle.csv.specs.declared.reader.Trim.TheVariants as trim;
ghost use Rattle.esc_base.specs.declared.event.Event.{Event as AnEvent};
ghost use Rattle.trace_tools.specs.Written.{HasWritten, IsTrace};
ghost use Rattle.am32csv.specs.Captured.{IsCapture, Ends};
ghost use Rattle.am32csv.specs.Records.{HasField, SaysRow, IsOfRows, capture_config};
ghost use Rattle.am32csv.specs.Status.{OnDone, IsUnfinished};

use crate::Status;
use crate::capture::{Capture, Fault};
use crate::expected::Expected;
use crate::layout::{Clock, Layout};
use csv::{ByteRecord, Error, ErrorKind, Reader, ReaderBuilder};
use esc_base::Sink;
use std::alloc::Global;
use std::io::Read;

fn refused(row: u64, expected: Expected) -> Status
    ensures { IsUnfinished result }
{
    Status::Refused { row, expected }
}

fn status_of(row: u64, fault: Fault) -> Status
    ensures { IsUnfinished result }
{
    match fault {
        Fault::Expected(expected) => refused(row, expected),
        Fault::Sink => Status::WriteFault,
    }
}

fn csv_fault(row: u64, e: Error) -> Status
    ensures { IsUnfinished result }
{
    match e.kind() {
        ErrorKind::Io(_) => Status::ReadFault,
        ErrorKind::OutOfMemory => Status::NoMemory,
        _ => refused(row, Expected::Csv),
    }
}

/// What a row says.
#[derive(Clone, Copy, Debug, PartialEq, Eq, Drop)]
struct Row {
    stamp: i64,
    level: bool,
}

/// The field in a column, from 1, without blanks around it.
fn field(row: &ByteRecord, column: u32) -> Result<&[u8], Expected>
    ensures { IfOk result (λ text. HasField (fields_of row.now) column text.now) }
{
    let at = (column as usize).saturating_sub(1);
    match row.get(at) {
        Some(field) => Ok(field.trim_ascii()),
        None => Err(Expected::Columns),
    }
}

fn stamp_of(row: &ByteRecord, layout: &Layout, number: u64) -> Result<i64, Expected>
    ensures numbered { layout.now.time ≡ 0 → IfOk result (λ stamp. stamp ≡ pos number) }
    ensures few { layout.now.time ≡ 0 → OnOk result (number < 2 ^ 63) }
{
    if layout.time == 0 {
        return match i64::try_from(number) {
            Ok(stamp) => Ok(stamp),
            Err(_) => Err(Expected::EarlierTime),
        };
    }
    match layout.clock.stamp(field(row, layout.time)?) {
        Some(stamp) => Ok(stamp),
        None => match layout.clock {
            Clock::Seconds => Err(Expected::Seconds),
            Clock::Samples(_) => Err(Expected::Sample),
        },
    }
}

/// What a record says; `number` is its place behind the header, from 0.
fn row_of(row: &ByteRecord, layout: &Layout, number: u64) -> Result<Row, Expected>
    ensures says { IfOk result (λ r. SaysRow layout.now number (fields_of row.now) r) }
    ensures few { layout.now.time ≡ 0 → OnOk result (number < 2 ^ 63) }
{
    let stamp = stamp_of(row, layout, number)?;
    match field(row, layout.level)? {
        b"0" => Ok(Row {
            stamp,
            level: false,
        }),
        b"1" => Ok(Row { stamp, level: true }),
        _ => Err(Expected::Level),
    }
}

/// A reader of rows of any lengths, in which a line that begins with `;` is a comment.
fn reader_of<R: Read>(alloc: Global, rdr: R) -> Reader<R>
    ensures config { reader_config result ≡ capture_config }
    ensures trim { reader_trim result ≡ trim.None }
    ensures ready { Ready result }
    ensures state { reader_state result ≡ st.StartRecord }
    ensures source { source_of R.remaining result ≡ option_map strip_bom (R.remaining rdr) }
{
    ReaderBuilder::new()
        .has_headers(false)
        .flexible(true)
        .comment(Some(b';'))
        .from_reader(alloc, rdr)
}

/// Writes the trace of a capture. The first record may be a header.
pub fn csv_main<R: Read + Drop, K: Sink>(
    alloc: Global,
    layout: &Layout,
    rdr: R,
    out: &mut K,
) -> Status
    ensures done { OnDone result (IsCapture (K.given out.old) (K.given out.new)) }
    ensures rows { OnDone result (IsOfRows layout.now (R.remaining rdr) (K.given out.old) (K.given out.new)) }
{
    let mut reader = reader_of(alloc, rdr);
    let mut record = ByteRecord::new(alloc);
    let mut capture = Capture::new(*layout);
    // How many rows were read, and how many of them weren't a header.
    let mut rows = 0u64;
    let mut number = 0u64;
    for _ in 0..u64::MAX {
        match reader.read_byte_record(&mut record) {
            Ok(true) => rows = rows.saturating_add(1),
            Ok(false) => return finish(&capture, rows.saturating_add(1), out),
            Err(e) => return csv_fault(rows.saturating_add(1), e),
        }
        match row_of(&record, layout, number) {
            Ok(row) => match capture.row(row.stamp, row.level, out) {
                Ok(()) => number = number.saturating_add(1),
                Err(fault) => return status_of(rows, fault),
            },
            Err(expected) => {
                if rows > 1 {
                    return refused(rows, expected);
                }
            }
        }
    }
    refused(rows, Expected::End)
}

/// Ends the trace of a whole capture.
fn finish<K: Sink>(capture: &Capture, row: u64, out: &mut K) -> Status
    ensures ends { OnDone result (Ends capture.now (K.given out.old) (K.given out.new)) }
    ensures whole { OnDone result ((first : Option (List ℕ)) (events : List AnEvent) → HasWritten capture.now.writer first (K.given out.old) events →
        (end : ℕ) × IsTrace first (K.given out.new) events end) }
{
    if !capture.has_rows() {
        return refused(row, Expected::Rows);
    }
    match capture.end(out) {
        Ok(()) => Status::Done,
        Err(fault) => status_of(row, fault),
    }
}
