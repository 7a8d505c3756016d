//! What follows from the rules of control, for every journal that keeps them. The functions do
//! nothing: their contracts are the laws.
ghost use Rattle.arming.specs.Laws.{DriveFollowsFrames, SilenceEndsDrive};

/// Drive follows only frames checked since arming: at each control tick with a demand above 0, the
/// newest good frame is throttle, stands after an arming with no loss since, and asks for at least
/// that demand.
pub fn drive_follows_frames()
    ensures { DriveFollowsFrames }
{}

/// Silence ends drive: from any place that isn't between a control tick and the timeout that it owes,
/// if no good frame comes, the first control tick that is 10000 or more past the newest good frame or
/// timeout has demand 0, and control is lost right after it by a timeout.
pub fn silence_ends_drive()
    ensures { SilenceEndsDrive }
{}
