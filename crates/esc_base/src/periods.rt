//! A law of the periods of pulse width modulation. The function does nothing: its contract is the law.
ghost use Rattle.esc_base.specs.Periods.{CountsEdges};

/// The count of edges up to a tick goes up by one at each edge, and nowhere else.
pub fn edges_are_counted()
    ensures { CountsEdges }
{}
