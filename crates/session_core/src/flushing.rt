// How far a flush is.

/// How far a session's flush is.
#[derive(Clone, Copy, Debug, PartialEq, Eq)]
pub enum Flushing {
    /// No flush is open.
    Closed,
    /// Its mark is recorded, and its round isn't outstanding yet.
    Marked,
    /// Its round is outstanding.
    Sent,
}
