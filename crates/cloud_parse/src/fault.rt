// Why a text isn't parsed.
ghost use Rattle.std.specs.Prelude.{◌≡◌};
ghost use Rattle.cloud_parse.specs.declared.fault.ParseFault.TheVariants as fault;

use cloud_base::Memory;
use thiserror::Error;

/// A limit that a source can break, in the order in which they are told. Syntax is judged behind
/// `Brackets`, and all others behind syntax.
#[derive(Clone, Copy, Debug, PartialEq, Eq)]
pub enum Which {
    /// More than `MOST_SOURCE_BYTES` bytes.
    Bytes,
    /// More than 64 brackets open behind some token.
    Brackets,
    /// A number above 9223372036854775807.
    Number,
    /// A text of more than 128 bytes, its escapes read.
    Text,
    /// A client's body of height above 32.
    Height,
    /// More than 256 globals, arrays, entities, keys and properties together.
    Names,
    /// More than 8 clients.
    Clients,
    /// A schedule whose numbers add up to more than 100,000.
    Steps,
}

/// Why a text isn't parsed.
#[derive(Clone, Copy, Debug, PartialEq, Eq, Drop, Error)]
pub enum ParseFault {
    /// The text breaks this limit, and none before it.
    #[error("limit {0:?}")]
    Limit(Which),
    /// No program has the text. The place is that of the first token with which no program can go
    /// on; lines and columns count from 1, columns in bytes.
    #[error("syntax {line} {column}")]
    Syntax { line: u32, column: u32 },
    /// Want of memory.
    #[error("out of memory")]
    Memory,
}

impl From<Memory> for ParseFault {
    ghost from_gives = { λ _ e. e ≡ fault.Memory };

    fn from(_: Memory) -> ParseFault {
        ParseFault::Memory
    }
}
