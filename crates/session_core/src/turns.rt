// How a meeting with the server comes out.

/// How a pull comes out.
#[derive(Clone, Copy, Debug, PartialEq, Eq)]
pub enum Pull {
    /// No round was outstanding.
    Idle,
    /// The reply to the outstanding round was taken and joined.
    Took { round: u64 },
    /// No reply to the outstanding round was there. `taken` is the round of the last reply that was
    /// taken out of the inbox.
    Nothing { taken: u64 },
    /// The inbox was held by another port.
    Busy { holder: u64 },
}

/// How a push comes out.
#[derive(Clone, Copy, Debug, PartialEq, Eq)]
pub enum PushOut {
    /// A new round is outstanding, and its push lies in the outbox.
    New { round: u64 },
    /// A copy of the outstanding push lies in the outbox.
    Again { round: u64 },
    /// The outbox was held by another port.
    Busy { holder: u64 },
}

/// How a yield comes out.
#[derive(Clone, Copy, Debug, PartialEq, Eq)]
pub struct Yielded {
    pub pull: Pull,
    pub push: PushOut,
}

/// How a turn of a flush comes out.
#[derive(Clone, Copy, Debug, PartialEq, Eq)]
pub enum Turn {
    /// The reply to the flush's round was taken, and the flush is closed.
    Done,
    /// The flush is still open.
    NotYet { outstanding: u64, taken: u64 },
}

/// One of the two halves of a meeting.
#[derive(Clone, Copy, Debug, PartialEq, Eq)]
pub enum Half {
    Pull,
    Push,
}

/// Want of memory in a half of a meeting.
#[derive(Clone, Copy, Debug, PartialEq, Eq)]
pub struct Starved {
    pub half: Half,
}
