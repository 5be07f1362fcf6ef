// How a step of a client comes out.
ghost use Rattle.std.specs.Prelude.{◌≡◌};
ghost use Rattle.client_runner.specs.Turned.{after_turn, ended_in, mode_after};

use cloud_base::End;
use session_core::Turn;

/// How a step of a client comes out.
#[derive(Clone, Copy, Debug, PartialEq, Eq)]
pub enum Stepped {
    /// It goes on.
    Went,
    /// It yielded.
    Yields,
    /// It waits in a flush.
    Waits,
    /// Its run is over.
    Ended(End),
}

/// How a step comes out that is a turn of a flush.
pub fn after_turn(turn: Turn) -> Stepped
    ensures { result ≡ after_turn turn }
{
    match turn {
        Turn::Done => Stepped::Went,
        Turn::NotYet { .. } => Stepped::Waits,
    }
}

/// Where a client's run is.
#[derive(Clone, Copy)]
pub enum Mode {
    Goes,
    Waits,
    Ended(End),
}

/// Where a step leaves a run.
pub fn mode_after(stepped: Stepped) -> Mode
    ensures { result ≡ mode_after stepped }
{
    match stepped {
        Stepped::Went | Stepped::Yields => Mode::Goes,
        Stepped::Waits => Mode::Waits,
        Stepped::Ended(end) => Mode::Ended(end),
    }
}

/// The end of a run that is over.
pub fn ended_in(mode: Mode) -> Option<End>
    ensures { result ≡ ended_in mode }
{
    match mode {
        Mode::Goes | Mode::Waits => None,
        Mode::Ended(end) => Some(end),
    }
}
