// What a judge of syntax says.

/// What the kinds of a text's tokens are.
#[derive(Clone, Copy, Debug, PartialEq, Eq)]
pub enum Verdict {
    /// Those of a program.
    Accepted,
    /// Those before this one begin a program, those up to and with it begin none.
    FailsAt(usize),
    /// They begin a program and are none.
    EndsTooSoon,
}
