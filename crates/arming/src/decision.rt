ghost use Rattle.std.specs.Prelude.{◌≡◌};
ghost use Rattle.arming.specs.Decide.{answer_of};

use esc_base::Cause;

/// What a control tick decides.
#[derive(Clone, Copy, Drop)]
pub(crate) enum Decision {
    /// Control is lost.
    Loses(Cause),
    /// Control is armed, with demand 0.
    Arms,
    /// Nothing changes but the demand, which is 0 where control isn't armed.
    Drives(u16),
}

/// What a control tick answers.
#[derive(Clone, Copy, Drop)]
pub struct Ticked {
    /// How long the high switch is on in each PWM period, in ticks of 48 MHz: 0 to 1900.
    pub demand: u16,
    /// Whether this tick armed control.
    pub armed_now: bool,
    /// Why control was lost in this tick, where it was.
    pub lost: Option<Cause>,
    /// Whether the drive starts: a demand above 0 after a demand of 0.
    pub start: bool,
}

impl Decision {
    /// The tick's answer, after the demand `before`.
    pub(crate) fn answer(self, before: u16) -> Ticked
        ensures { result ≡ answer_of self before }
    {
        match self {
            Decision::Loses(cause) => Ticked {
                demand: 0,
                armed_now: false,
                lost: Some(cause),
                start: false,
            },
            Decision::Arms => Ticked {
                demand: 0,
                armed_now: true,
                lost: None,
                start: false,
            },
            Decision::Drives(demand) => Ticked {
                demand,
                armed_now: false,
                lost: None,
                start: demand > 0 && before == 0,
            },
        }
    }
}
