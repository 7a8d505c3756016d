//! What follows from the rules of windows and of steps, for every journal that keeps them. The functions
//! do nothing: their contracts are the laws.
ghost use Rattle.esc_laws.specs.Rested.{FirstRestedTick};
ghost use Rattle.esc_laws.specs.HeardWhole.{WholeSignalIsHeard, SentFrameIsRead};
ghost use Rattle.esc_laws.specs.RestOpens.{RestCallsCap, CapOpensWindow};
ghost use Rattle.esc_laws.specs.FrameReplied.{FrameIsReplied, ReplyHasFrame};

/// A whole signal that begins on a line at rest is heard from its first edge: where the newest window is
/// open before it and no change of the line stands between, the verdict on that window is the verdict on
/// just that signal. So a good frame is read, and a first one is detected.
pub fn whole_signal_is_heard()
    ensures { WholeSignalIsHeard }
{}

/// So a frame is read that is sent behind the opening of a window in its mode, with no change of the line
/// between: also where each of its edges comes up to a sixteenth of a bit early or late.
pub fn sent_frame_is_read()
    ensures { SentFrameIsRead }
{}

/// No rest passes without a window: after a bad window, and after a reply, from the first tick before which
/// the line has rested, at or after the end of the pause or of the reply, at most 8 steps are made, those of
/// higher handlers aside, before CAP is entered.
pub fn rest_calls_cap()
    ensures { RestCallsCap }
{}

/// And CAP, when it is entered then, doesn't return before it has opened a window.
pub fn cap_opens_window()
    ensures { CapOpensWindow }
{}

/// What the first rested tick from a tick on is, for changes of the line in their order: no earlier than that
/// tick, with no change in the 200 ticks before it, and the first such one.
pub fn first_rested_tick()
    ensures { FirstRestedTick }
{}

/// Each good bidirectional frame is replied to before CAP returns: the electrical period is read at a V, and
/// an R behind it tells just that period, and says when the reply starts.
pub fn frame_is_replied()
    ensures { FrameIsReplied }
{}

/// And nothing else is replied to: each R stands in the activation of such a frame, behind its V.
pub fn reply_has_frame()
    ensures { ReplyHasFrame }
{}
