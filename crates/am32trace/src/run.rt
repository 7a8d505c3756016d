ghost use Rattle.std.specs.Prelude.{◌≡◌, ◌≤◌, true, IfOk, IfSome};
ghost use Rattle.esc_base.specs.Outside.{Rose};
ghost use Rattle.am32trace.specs.Asked.{IsSound};
ghost use Rattle.am32trace.specs.Line.{IsWell};
ghost use Rattle.am32trace.specs.Script.{IsRest};
ghost use Rattle.am32trace.specs.Flown.{Followed, IsFlown};
ghost use Rattle.am32trace.specs.Status.{OnDone, OnReadFault, IsUnfinished};

use crate::Status;
use crate::action::Directive;
use crate::expected::Expected;
use crate::flight::{Fault, Flight};
use crate::grammar::Grammar;
use crate::line_reader::LineFault;
use crate::script_lines::ScriptLines;
use esc_base::{Sink, Source};

fn refused(line: u32, expected: Expected) -> Status
    ensures unfinished { IsUnfinished result }
    ensures no_read_fault { OnReadFault result ⊥ }
{
    Status::Refused { line, expected }
}

fn status_of(line: u32, fault: Fault) -> Status
    ensures unfinished { IsUnfinished result }
    ensures no_read_fault { OnReadFault result ⊥ }
{
    match fault {
        Fault::Expected(expected) => refused(line, expected),
        Fault::Sink => Status::WriteFault,
    }
}

/// Follows what a line asks for, and answers whether the flight has ended.
fn follow<K: Sink>(
    flight: &mut Flight,
    asked: Option<Directive>,
    out: &mut K,
) -> Result<bool, Fault>
    requires sound { IfSome asked IsSound }
    requires well { IsWell flight.old.signal }
    ensures { IfOk result (λ ended. Followed ended asked flight.old (K.given out.old) flight.new (K.given out.new)) }
{
    match asked {
        None => Ok(false),
        Some(Directive::Signal { mode, period }) => {
            flight.set_signal(mode, period, out)?;
            Ok(false)
        }
        Some(Directive::At { t, action }) => {
            flight.act(t, action, out)?;
            Ok(false)
        }
        Some(Directive::End { t }) => {
            flight.end(t, out)?;
            Ok(true)
        }
    }
}

fn line_fault(line: u32, fault: LineFault) -> Status
    ensures unfinished { IsUnfinished result }
    ensures source { OnReadFault result (fault ≡ LineFault.Source) }
{
    match fault {
        LineFault::Source => Status::ReadFault,
        LineFault::TooLong => refused(line, Expected::ShorterLine),
    }
}

/// Reads what stands behind `end`: blank lines and comments.
fn read_rest<G: Grammar, S: Source>(
    grammar: &G,
    lines: &mut ScriptLines,
    from: u32,
    src: &mut S,
) -> Status
    ensures done { OnDone result (IsRest (G.says grammar.now) lines.old (S.left src.old) lines.new (S.left src.new)) }
    ensures no_fewer { S.faults src.old ≤ S.faults src.new }
    ensures read_fault { OnReadFault result (Rose (S.faults src.old) (S.faults src.new)) }
{
    for line in from..u32::MAX {
        match lines.next(src) {
            Ok(false) => return Status::Done,
            Ok(true) => match grammar.directive(lines.line()) {
                Ok(None) => {}
                _ => return refused(line, Expected::NoLine),
            },
            Err(fault) => return line_fault(line, fault),
        }
    }
    refused(u32::MAX, Expected::NoLine)
}

/// Writes the trace of the flight that a script describes.
pub fn trace_main<G: Grammar, S: Source, K: Sink>(grammar: &G, src: &mut S, out: &mut K) -> Status
    // The whole script was read, and what was written is the trace of the flight that its lines ask for.
    ensures done { OnDone result (IsFlown (G.says grammar.now) (S.left src.old) (K.given out.old) (K.given out.new)) }
    // A read fault is the source's own.
    ensures read_fault { OnReadFault result (Rose (S.faults src.old) (S.faults src.new)) }
{
    let mut lines = ScriptLines::new();
    let mut flight = Flight::new();
    for line in 1..u32::MAX {
        match lines.next(src) {
            Ok(false) => return refused(line, Expected::End),
            Ok(true) => match grammar.directive(lines.line()) {
                Ok(asked) => match follow(&mut flight, asked, out) {
                    Ok(false) => {}
                    Ok(true) => return read_rest(grammar, &mut lines, line + 1, src),
                    Err(fault) => return status_of(line, fault),
                },
                Err(expected) => return refused(line, expected),
            },
            Err(fault) => return line_fault(line, fault),
        }
    }
    refused(u32::MAX, Expected::End)
}
