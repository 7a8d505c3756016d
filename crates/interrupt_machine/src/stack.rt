ghost use Rattle.std.specs.Prelude.{◌≡◌, ◌≤◌, List, [], ◌∷◌, Option, length};
ghost use Rattle.esc_base.specs.declared.kind.Kind.{Kind};
ghost use Rattle.interrupt_machine.specs.Open.{innermost, outer_ones, IsAbove, IsStack};

use arrayvec::ArrayVec;
use esc_base::Kind;
use std::marker::Model;

/// The kinds that are open: each was entered above the one before, so there are at most seven.
#[derive(Drop)]
pub struct Stack {
    /// The innermost last.
    kinds: ArrayVec<Kind, 7>,
}

impl Model for Stack {
    ghost use Rattle.std.specs.Prelude.{List, reverse};
    ghost use Rattle.esc_base.specs.declared.kind.Kind.{Kind};
    ghost use Rattle.interrupt_machine.specs.Open.{IsStack};

    ghost Value = { List Kind };

    ghost view = { λ s. reverse s.kinds.items };

    ghost invariant = { λ s. IsStack (reverse s.kinds.items) };
}

impl Stack {
    /// No kind is open.
    pub fn new() -> Stack
        ensures { result ≡ [] }
    {
        Stack {
            kinds: ArrayVec::new(),
        }
    }

    /// How many kinds are open, 0 to 7.
    pub fn depth(&self) -> usize
        ensures depth { result ≡ length self.now }
        ensures most { result ≤ 7 }
    {
        self.kinds.len()
    }

    /// The open kind that makes the next step, unless another one enters.
    pub fn innermost(&self) -> Option<Kind>
        ensures { result ≡ innermost self.now }
    {
        self.kinds.as_slice().last().copied()
    }

    /// Opens a kind above the innermost one.
    pub fn push(&mut self, kind: Kind)
        requires { IsAbove (innermost self.old) kind }
        ensures { self.new ≡ kind ∷ self.old }
    {
        self.kinds.push(kind);
    }

    /// Closes the innermost kind, if there is one.
    pub fn pop(&mut self)
        ensures outer { self.new ≡ outer_ones self.old }
        ensures stack { IsStack self.old }
    {
        self.kinds.pop();
    }
}
