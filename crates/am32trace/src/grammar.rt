//! What a line of a script says.
ghost use Rattle.std.specs.Prelude.{ℕ, List, Option, IfOk, IfSome};
ghost use Rattle.am32trace.specs.declared.action.Directive.{Directive as ADirective};
ghost use Rattle.am32trace.specs.Asked.{IsSound};

use crate::action::Directive;
use crate::expected::Expected;
use crate::script::directive;

/// Reads the lines of scripts.
pub trait Grammar {
    /// A line, and what it asks for, if anything.
    ghost says: { Self → List ℕ → Option ADirective → Type 0 };

    /// What a line asks for; nothing where it is blank.
    fn directive(&self, line: &[u8]) -> Result<Option<Directive>, Expected>
        ensures said { IfOk result (λ d. says self.now line.now d) }
        ensures sound { IfOk result (λ d. IfSome d IsSound) };
}

/// The words of scripts, as docs/SCRIPT.md lists them.
#[derive(Clone, Copy, Debug, PartialEq, Eq, Drop)]
pub struct ScriptWords {}

impl Grammar for ScriptWords {
    ghost says = { λ words line d. IfSome d IsSound };

    fn directive(&self, line: &[u8]) -> Result<Option<Directive>, Expected> {
        match line {
            [front @ .., b'\r'] => directive(front),
            line => directive(line),
        }
    }
}
