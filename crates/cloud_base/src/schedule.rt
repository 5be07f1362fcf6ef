// Who takes steps, and what happens to packets.
use crate::sequence::Sequence;

/// What happens to a push that was taken from an outbox.
#[derive(Clone, Copy, Debug, PartialEq, Eq)]
pub enum Fate {
    Pass,
    LosePush,
    LoseReply,
    Twice,
    Hold,
}

/// One item of a schedule: steps of a client, or a serve of one.
#[derive(Clone, Copy, Debug, PartialEq, Eq)]
pub enum ScheduleItem {
    Steps { client: u8, count: u32 },
    Serve { client: u8, fate: Fate },
}

pub type Schedule = Sequence<ScheduleItem>;
