//! A controller's replies on a bidirectional line.

/// A line that stands for so many ticks is between two bursts of edges: longer than any part of a frame or a reply.
const BREAK: u64 = 400;

/// A reply begins at most so many ticks after the frame that asks for it: 50 microseconds.
const LATEST_REPLY: u64 = 2400;

/// The edges of a frame.
const FRAME_EDGES: u32 = 32;

/// Tells replies from frames: a burst of edges soon behind a burst of 32 is a reply.
#[derive(Clone, Copy, Debug, PartialEq, Eq, Drop)]
pub struct Replies {
    /// The edges of the burst so far.
    edges: u32,
    /// The tick of the newest edge.
    newest: u64,
    /// Whether the burst is a reply.
    is_reply: bool,
}

impl Replies {
    /// Before the first edge.
    pub fn new() -> Replies {
        Replies {
            edges: 0,
            newest: 0,
            is_reply: false,
        }
    }

    /// Whether the edge at `t` is one of a reply.
    pub fn has(&mut self, t: u64) -> bool {
        let gap = t.saturating_sub(self.newest);
        if gap >= BREAK {
            let is_behind_frame = self.edges == FRAME_EDGES && !self.is_reply;
            self.is_reply = is_behind_frame && gap <= LATEST_REPLY;
            self.edges = 0;
        }
        self.edges = self.edges.saturating_add(1);
        self.newest = t;
        self.is_reply
    }
}
