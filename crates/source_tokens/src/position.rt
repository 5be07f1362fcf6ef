// Lines and columns.
ghost use Rattle.std.specs.Prelude.{◌≡◌, ◌≤◌, ◌<◌, ◌+◌, ◌^◌, length};
ghost use Rattle.source_tokens.specs.Positions.{position_of, is_feed, feeds, behind_feed};

/// A line and a column of a text, both from 1. A column counts bytes.
#[derive(Clone, Copy, Debug, PartialEq, Eq)]
pub struct Position {
    pub line: u32,
    pub column: u32,
}

fn is_feed(byte: u8) -> bool
    ensures { result ≡ is_feed byte }
{
    byte == b'\n'
}

pub(crate) fn feeds(text: &[u8]) -> usize
    ensures count { result ≡ feeds text.now }
    ensures within { result ≤ length text.now }
{
    text.iter().filter(|byte| is_feed(**byte)).count()
}

fn behind_feed(text: &[u8]) -> usize
    ensures count { result ≡ behind_feed text.now }
    ensures within { result ≤ length text.now }
{
    text.iter()
        .rev()
        .take_while(|byte| !is_feed(**byte))
        .count()
}

/// The position of the byte at a place, from 0, or just behind the last byte.
pub fn position_of(text: &[u8], at: usize) -> Position
    requires short { length text.now + 1 < 2 ^ 32 }
    requires within { at ≤ length text.now }
    ensures { result ≡ position_of text.now at }
{
    let before = &text[..at];
    Position {
        line: feeds(before) as u32 + 1,
        column: behind_feed(before) as u32 + 1,
    }
}
