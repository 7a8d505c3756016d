use esc_base::Tick;

/// How far the search for a sector's crossing has come.
#[derive(Clone, Copy, Debug, PartialEq, Eq, Drop)]
pub enum Phase {
    /// No sector, so nothing is looked for.
    Off,
    /// The comparator isn't looked at before this tick.
    Blank(Tick),
    /// The comparator has the other level, and its next change begins a filter.
    Watch,
    /// A filter stands, which is judged at this tick or later.
    Filter(Tick),
    /// The sector's crossing was accepted.
    Done,
}

/// What follows the end of blanking.
#[derive(Clone, Copy, Debug, PartialEq, Eq, Drop)]
pub enum Next {
    /// The comparator's next change is waited for.
    Watch,
    /// The expected level is there already: a filter begins.
    Filter,
}
