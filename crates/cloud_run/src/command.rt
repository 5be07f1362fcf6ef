// The commands.

/// A command of the program.
#[derive(Clone, Copy, Debug, PartialEq, Eq)]
pub enum Command {
    /// Writes the canonical text of a source.
    Check,
    /// Writes the codes of a source's clients.
    Code,
    /// Plays a source, and writes the report of its run.
    Play,
}
