ghost use Rattle.std.specs.Prelude.{◌≡◌, Option};
ghost use Rattle.interrupt_machine.specs.Open.{may_enter};

use esc_base::Kind;

/// Which kinds may enter while a handler is open.
#[derive(Clone, Copy, Drop)]
pub enum Nest {
    /// None while a kind above MAIN is open.
    One,
    /// Each kind above the innermost open one.
    Full,
}

impl Nest {
    /// Whether a due kind may enter above the innermost open kind.
    pub(crate) fn lets_in(self, innermost: Option<Kind>, kind: Kind) -> bool
        ensures { result ≡ may_enter self innermost kind }
    {
        match innermost {
            None => true,
            Some(open) => match self {
                Nest::One => open.number() == 0 && kind.number() != 0,
                Nest::Full => open.number() < kind.number(),
            },
        }
    }
}
