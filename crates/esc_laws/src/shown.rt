//! What the laws refuse, and what they don't.
ghost use Rattle.esc_laws.specs.allowed.Journals.{SomeAreLegal};
ghost use Rattle.esc_laws.specs.allowed.Calls.{CallsBegin};
ghost use Rattle.esc_laws.specs.allowed.Flash.{SomeFlashesFit};
ghost use Rattle.esc_laws.specs.allowed.Windows.{SomeWindowsOpen};
ghost use Rattle.esc_laws.specs.refused.Flash.{FlashRefuses};
ghost use Rattle.esc_laws.specs.refused.Asked.{EntriesRefuse};
ghost use Rattle.esc_laws.specs.refused.Control.{ControlRefuses};
ghost use Rattle.esc_laws.specs.refused.Drive.{DriveRefuses, GatesRefuse, TurnsRefuse};
ghost use Rattle.esc_laws.specs.refused.Nesting.{NestingRefuses};
ghost use Rattle.esc_laws.specs.refused.Steps.{StepsRefuse};
ghost use Rattle.esc_laws.specs.refused.Windows.{WindowsRefuse};
ghost use Rattle.esc_laws.specs.refused.Chops.{ChoppingRefuses, SomeAreChopped};
ghost use Rattle.esc_laws.specs.refused.Crossings.{ActivationsRefuse, CrossedTurnsRefuse, CrossingsRefuse, SearchesRefuse};
ghost use Rattle.esc_laws.specs.refused.Replies.{RepliesRefuse, ReplyWindowsRefuse, SomeAreReplied};

/// The rules of control refuse each of these small journals.
pub fn control_refuses()
    ensures { ControlRefuses }
{}

/// The rules of windows and their verdicts refuse each of these.
pub fn windows_refuse()
    ensures { WindowsRefuse }
{}

/// The rules of the dead time refuse each of these.
pub fn gates_refuse()
    ensures { GatesRefuse }
{}

/// The rules of the drive refuse each of these.
pub fn drive_refuses()
    ensures { DriveRefuses }
{}

/// The rules of sectors refuse each of these.
pub fn turns_refuse()
    ensures { TurnsRefuse }
{}

/// The rules of which note stands in which activation refuse each of these.
pub fn nesting_refuses()
    ensures { NestingRefuses }
{}

/// The rules of steps and their ticks refuse each of these.
pub fn steps_refuse()
    ensures { StepsRefuse }
{}

/// The rules of accepted zero crossings refuse each of these.
pub fn crossings_refuse()
    ensures { CrossingsRefuse }
{}

/// The rules of sector changes refuse each of these, by force and after a crossing.
pub fn crossed_turns_refuse()
    ensures { CrossedTurnsRefuse }
{}

/// The rules of the search for a crossing refuse each of these.
pub fn searches_refuse()
    ensures { SearchesRefuse }
{}

/// The rules of the activations around a crossing refuse each of these.
pub fn activations_refuse()
    ensures { ActivationsRefuse }
{}

/// The rules of replies to bidirectional frames refuse each of these.
pub fn replies_refuse()
    ensures { RepliesRefuse }
{}

/// The rules of windows, activations and steps refuse each of these around a reply.
pub fn reply_windows_refuse()
    ensures { ReplyWindowsRefuse }
{}

/// And the rules of replies allow some: one for no period, and one that tells 1000 microseconds.
pub fn some_are_replied()
    ensures { SomeAreReplied }
{}

/// The law of undisturbed periods refuses each of these.
pub fn chopping_refuses()
    ensures { ChoppingRefuses }
{}

/// And it allows one with such a period, whose switch turns at the last ticks that the law allows.
pub fn some_are_chopped()
    ensures { SomeAreChopped }
{}

/// Some whole journals are legal.
pub fn some_are_legal()
    ensures { SomeAreLegal }
{}

/// From which ticks on small journals call for each kind.
pub fn calls_begin()
    ensures { CallsBegin }
{}

/// The law of saves refuses each of these flashes.
pub fn flash_refuses()
    ensures { FlashRefuses }
{}

/// And it allows some: one whose save was done, and one whose save was refused.
pub fn some_flashes_fit()
    ensures { SomeFlashesFit }
{}

/// The rules of windows allow a window at the first tick at which one may open.
pub fn some_windows_open()
    ensures { SomeWindowsOpen }
{}

/// The law of entries refuses each of these: no handler above MAIN is entered that isn't called.
pub fn entries_refuse()
    ensures { EntriesRefuse }
{}
