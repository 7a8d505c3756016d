//! The lines of a script, read from a source.
ghost use Rattle.std.specs.Prelude.{◌≡◌, ◌≤◌, ◌∷◌, [], List, ℕ, Option, IfOk, IfErr, IfSome, IfNone, IsTrue, IsFalse, length, take, drop, true};
ghost use Rattle.std.specs.Io.KnownBytes.{IsAtEnd};
ghost use Rattle.esc_base.specs.Outside.{Rose};
ghost use Rattle.trace_text.specs.Ahead.{unread, ahead};
ghost use Rattle.am32trace.specs.Script.{HasRead, Reads, IsCut, IsOneLine};
ghost use Rattle.am32trace.specs.Status.{OnSourceFault};

use crate::script_lines::ScriptLines;
use arrayvec::ArrayVec;
use esc_base::Source;
use trace_text::Held;

/// The most bytes of a line.
const LONGEST_LINE: usize = 1200;

/// Why there is no next line.
#[derive(Clone, Copy, Debug, PartialEq, Eq, Drop)]
pub enum LineFault {
    /// The source failed.
    Source,
    /// The line has more than 1200 bytes.
    TooLong,
}

impl ScriptLines {
    /// Before the first line.
    pub fn new() -> ScriptLines
        ensures { (left : Option (List ℕ)) → HasRead result left left [] }
    {
        ScriptLines {
            held: Held::new(),
            line: ArrayVec::new(),
            has_ended: false,
        }
    }

    /// The length of the next line, if a line feed ends it; else all that is left is held, and no line feed among it.
    fn find<S: Source>(&mut self, src: &mut S) -> Result<Option<usize>, LineFault>
        ensures ahead { ahead self.new.held (S.left src.new) ≡ ahead self.old.held (S.left src.old) }
        ensures same { self.new.has_ended ≡ self.old.has_ended }
        ensures found { IfOk result (λ found. IfSome found (λ n. IsCut n (unread self.new.held))) }
        ensures rest { IfOk result (λ found. IfNone found (length (unread self.new.held) ≤ 1200)) }
        ensures no_feed { IfOk result (λ found. IfNone found (IsOneLine (unread self.new.held))) }
        ensures end { IfOk result (λ found. IfNone found (IsAtEnd (S.left src.new))) }
        ensures no_fewer { S.faults src.old ≤ S.faults src.new }
        ensures failed { IfErr result (λ fault. OnSourceFault fault (Rose (S.faults src.old) (S.faults src.new))) }
    {
        for _ in 0..=LONGEST_LINE + 1 {
            if let Some(n) = self.held.line_feed(LONGEST_LINE + 1) {
                return Ok(Some(n));
            }
            if self.held.len() > LONGEST_LINE {
                return Err(LineFault::TooLong);
            }
            match self.held.fill(src) {
                Ok(true) => {}
                Ok(false) => return Ok(None),
                Err(_) => return Err(LineFault::Source),
            }
        }
        Err(LineFault::TooLong)
    }

    /// Takes the first `n` bytes that are held as the line.
    fn take(&mut self, n: usize)
        requires within { n ≤ length (unread self.old.held) }
        requires short { n ≤ 1200 }
        ensures line { self.new.line.items ≡ take n (unread self.old.held) }
        ensures rest { unread self.new.held ≡ drop n (unread self.old.held) }
        ensures same { self.new.has_ended ≡ self.old.has_ended }
    {
        self.line.clear();
        let _fits = self.line.try_extend_from_slice(self.held.front(n));
        self.held.skip(n);
    }

    /// Reads the next line, and answers whether there is one. The last one may lack its line feed.
    pub fn next<S: Source>(&mut self, src: &mut S) -> Result<bool, LineFault>
        ensures some { IfOk result (λ more. IsTrue more → Reads self.old (S.left src.old) self.new (S.left src.new) (self.new.line.items ∷ [])) }
        ensures none { IfOk result (λ more. IsFalse more → Reads self.old (S.left src.old) self.new (S.left src.new) []) }
        ensures end { IfOk result (λ more. IsFalse more → self.new.has_ended ≡ true) }
        ensures no_fewer { S.faults src.old ≤ S.faults src.new }
        ensures failed { IfErr result (λ fault. OnSourceFault fault (Rose (S.faults src.old) (S.faults src.new))) }
    {
        if self.has_ended {
            return Ok(false);
        }
        match self.find(src)? {
            Some(n) => {
                self.take(n);
                self.held.skip(1);
                Ok(true)
            }
            None => {
                let n = self.held.len();
                self.take(n);
                self.has_ended = true;
                Ok(n > 0)
            }
        }
    }

    /// The line that was read.
    pub fn line(&self) -> &[u8]
        ensures { result.now ≡ self.now.line.items }
    {
        self.line.as_slice()
    }
}
