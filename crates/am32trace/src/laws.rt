//! What follows from the definitions of what lines ask for. The function does nothing: its contract is the laws.
ghost use Rattle.am32trace.specs.Laws.{CountsBeats, HasAsMany, EachAtItsBeat};

/// Between two lines there are as many messages as times of the beat before the later line, and each begins at its time.
pub fn messages_keep_the_beat()
    ensures counts { CountsBeats }
    ensures as_many { HasAsMany }
    ensures each { EachAtItsBeat }
{}
