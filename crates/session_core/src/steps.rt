// How far a flush is behind each half of a meeting.
ghost use Rattle.std.specs.Prelude.{◌≡◌};
ghost use Rattle.session_core.specs.Sessions.{flush_after_pull, flush_after_push};

use crate::flushing::Flushing;

/// How far it is once the outstanding round's reply is taken.
pub fn after_pull(flush: Flushing) -> Flushing
    ensures { result ≡ flush_after_pull flush }
{
    match flush {
        Flushing::Closed | Flushing::Sent => Flushing::Closed,
        Flushing::Marked => Flushing::Marked,
    }
}

/// How far it is once the next round is outstanding.
pub fn after_push(flush: Flushing) -> Flushing
    ensures { result ≡ flush_after_push flush }
{
    match flush {
        Flushing::Closed => Flushing::Closed,
        Flushing::Marked | Flushing::Sent => Flushing::Sent,
    }
}
