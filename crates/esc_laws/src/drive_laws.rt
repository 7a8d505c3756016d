//! What follows from the law of undisturbed periods, for every journal that keeps it. The function does
//! nothing: its contract is the law.
ghost use Rattle.esc_laws.specs.DutyKept.{DutyIsKept};

/// The motor gets the demand: in a period of pulse width modulation that nothing disturbs the high switch
/// of the sector's pair is on for as many ticks as the demand says, give or take 48 steps.
pub fn duty_is_kept()
    ensures { DutyIsKept }
{}
