//! What a legal journal says of the machine's steps. The function does nothing: its contract is the law.
ghost use Rattle.esc_laws.specs.LogFixed.{LogIsFixed};

/// The list of machine steps that a legal journal speaks of is fixed by the journal: two proofs that it is
/// legal, at a step cost of 1 or more, have the same list. So a reader need trust no hidden choice.
pub fn log_is_fixed()
    ensures { LogIsFixed }
{}
