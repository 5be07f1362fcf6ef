// How a command comes out.
ghost use Rattle.std.specs.Prelude.{◌≡◌, Some};
ghost use Rattle.cloud_run.specs.Statuses.{status_number, limit_name, status_line};

use cloud_parse::Which;
use std::fmt;

/// How a command comes out. Its text is what the program says of it on standard error.
#[derive(Clone, Copy, Debug, PartialEq, Eq)]
pub enum Status {
    /// The sink took the whole text.
    Done,
    /// The words are no command.
    Words,
    /// A read of the source failed.
    ReadFault,
    /// A write to the sink failed, or took nothing.
    WriteFault,
    /// No program has the source text. The place is that of the first token with which no program
    /// can go on.
    Syntax { line: u32, column: u32 },
    /// The rule of kinds fails at the item of the line, and none before it.
    Kind { rule: u8, line: u32 },
    /// The source text breaks this limit.
    Limit(Which),
    /// Want of memory.
    Memory,
}

impl Status {
    /// The exit status of the program.
    pub fn number(self) -> u8
        ensures { result ≡ status_number self }
    {
        match self {
            Status::Done => 0,
            Status::Words => 1,
            Status::ReadFault => 2,
            Status::WriteFault => 3,
            Status::Syntax { .. } => 4,
            Status::Kind { .. } => 5,
            Status::Limit(_) => 6,
            Status::Memory => 7,
        }
    }
}

fn limit_name(which: Which) -> &'static str
    ensures { result.now ≡ limit_name which }
{
    match which {
        Which::Bytes => "Bytes",
        Which::Brackets => "Brackets",
        Which::Number => "Number",
        Which::Text => "Text",
        Which::Height => "Height",
        Which::Names => "Names",
        Which::Clients => "Clients",
        Which::Steps => "Steps",
    }
}

impl fmt::Display for Status {
    ghost output = { λ status. Some (status_line status) };

    fn fmt<W: fmt::Write>(&self, f: &mut fmt::Formatter<W>) -> fmt::Result {
        match *self {
            Status::Done => Ok(()),
            Status::Words => write!(f, "words"),
            Status::ReadFault => write!(f, "read fault"),
            Status::WriteFault => write!(f, "write fault"),
            Status::Syntax { line, column } => write!(f, "syntax {line} {column}"),
            Status::Kind { rule, line } => write!(f, "kind {rule} {line}"),
            Status::Limit(which) => write!(f, "limit {}", limit_name(which)),
            Status::Memory => write!(f, "memory"),
        }
    }
}
