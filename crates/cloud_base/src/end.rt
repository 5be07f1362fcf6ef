// How a client's run ends.

/// How a client ended: at the end of its body, at a statement for which no turn was left, or at a
/// division by zero in the statement of that line.
#[derive(Clone, Copy, Debug, PartialEq, Eq)]
pub enum End {
    Done,
    Spent,
    Trap { line: u32 },
}
