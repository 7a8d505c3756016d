use esc_base::Tick;

/// What a step of a gate program came to.
#[derive(Clone, Copy, Debug, PartialEq, Eq, Drop)]
pub enum Progress {
    /// An access to the registers is still to be made.
    More,
    /// The program is done. A further step does nothing.
    Done,
    /// The switch that comes next may turn on from this tick on and not before, and the step did nothing.
    Later(Tick),
}
