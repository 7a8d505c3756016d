//! What follows from the definitions of a wave alone. The functions do nothing: their contracts are the laws.
ghost use Rattle.std.specs.Prelude.{◌≡◌, List, Bool, false, All};
ghost use Rattle.esc_base.specs.declared.note.Note.{Note as ANote};
ghost use Rattle.esc_base.specs.Range.{InRange, IsWord};
ghost use Rattle.am32wave.specs.declared.view.Stretch.{Stretch as AStretch};
ghost use Rattle.am32wave.specs.Shown.{moments_of};
ghost use Rattle.am32wave.specs.Stretch.{whole};
ghost use Rattle.esc_base.specs.declared.gate.Leg.{Leg as ALeg};
ghost use Rattle.am32wave.specs.declared.moment.Moment.{Moment as AMoment};
ghost use Rattle.am32wave.specs.Laws.{GatesFollow, LevelsFollow, MayStand, NoMarkup, page_data};

/// The six gates change where a `G` stands, to what it says, and nowhere else.
pub fn gates_follow_notes()
    ensures { (before : List AMoment) (m : AMoment) (x : ALeg) → GatesFollow before m x }
{}

/// The signal line and the comparator change where an event of the trace says so, to what it says, at its tick, and nowhere else.
pub fn levels_follow_events()
    ensures { (before : List AMoment) (m : AMoment) → LevelsFollow before m }
{}

/// No byte of a page's data is markup, whatever the stretch: so nothing ends the block in which it stands.
pub fn page_has_no_markup()
    ensures { (s : AStretch) (traced : Bool) (moments : List AMoment) → IsWord s.from → IsWord s.to → All MayStand moments → NoMarkup (page_data s traced moments) }
{}

/// A page of the whole run tells its journal: from the data the notes are read back, since no two journals have the same.
pub fn page_tells_journal()
    ensures { (a b : List ANote) → All InRange a → All InRange b → page_data whole false (moments_of a) ≡ page_data whole false (moments_of b) → a ≡ b }
{}
