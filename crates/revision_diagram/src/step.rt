// One step of a diagram.
use cloud_base::{Answer, End, Query, Sequence, Update};

/// One step of a revision diagram.
///
/// Revisions go by number, and revision 0, the server, is there at the start. `Fork` is of a
/// revision, for a client: the new revision has the next free number. `Join` is into its first
/// revision, and the second ends. The others are on their revision, and a `Mark` is a flush where
/// it is `true` and else a yield.
#[derive(Drop)]
pub enum Step {
    Fork(u32, u8),
    Join(u32, u32),
    Do(u32, Update),
    Ask(u32, Query, Answer),
    Say(u32, Answer),
    Mark(u32, bool),
}

pub type StepList = Sequence<Step>;

/// How each client ended, by number.
pub type EndList = Sequence<End>;
