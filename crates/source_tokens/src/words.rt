// Which fixed tokens are reserved words, and which are symbols, by tables of the definitions.
ghost use Rattle.std.specs.Prelude.{◌≡◌};
ghost use Rattle.source_tokens.specs.Terminals.{reserved, words_from, written_so};
ghost use Rattle.source_tokens.specs.Lexemes.{symbol_at};

use crate::terminal::Terminal;

const SYMBOLS: [Terminal; 23] = [
    Terminal::Equal,
    Terminal::NotEqual,
    Terminal::LessOrEqual,
    Terminal::GreaterOrEqual,
    Terminal::Concat,
    Terminal::OpenBrace,
    Terminal::CloseBrace,
    Terminal::OpenBracket,
    Terminal::CloseBracket,
    Terminal::OpenParen,
    Terminal::CloseParen,
    Terminal::Colon,
    Terminal::Semicolon,
    Terminal::Comma,
    Terminal::Dot,
    Terminal::Assign,
    Terminal::Less,
    Terminal::Greater,
    Terminal::Plus,
    Terminal::Minus,
    Terminal::Times,
    Terminal::Divide,
    Terminal::Remainder,
];

// The reserved words that begin with a byte.
#[tactic(auto, unfolding(crate::specs::Terminals::words_from, crate::specs::Terminals::words))]
fn words_from(first: u8) -> &'static [Terminal]
    ensures { result.now ≡ words_from first }
{
    match first {
        b'a' => &[
            Terminal::Add,
            Terminal::Alive,
            Terminal::All,
            Terminal::And,
            Terminal::Array,
        ],
        b'C' => &[Terminal::CInt, Terminal::CString],
        b'c' => &[Terminal::Client],
        b'd' => &[Terminal::Delete],
        b'e' => &[Terminal::Else, Terminal::Entity, Terminal::Entries],
        b'f' => &[Terminal::False, Terminal::Flush, Terminal::Foreach],
        b'g' => &[Terminal::Global],
        b'h' => &[Terminal::Hold],
        b'i' => &[Terminal::If, Terminal::In, Terminal::Int],
        b'l' => &[Terminal::LosePush, Terminal::LoseReply],
        b'n' => &[Terminal::New, Terminal::Not],
        b'o' => &[Terminal::Or],
        b'p' => &[Terminal::Pass, Terminal::Print],
        b's' => &[
            Terminal::Schedule,
            Terminal::Schema,
            Terminal::Serve,
            Terminal::Set,
            Terminal::SetIfEmpty,
            Terminal::String,
        ],
        b't' => &[Terminal::True, Terminal::Twice],
        b'v' => &[Terminal::Var],
        b'w' => &[Terminal::While],
        b'y' => &[Terminal::Yield],
        _ => &[],
    }
}

// The terminal of a table that is written so.
fn written_so(terminals: &[Terminal], word: &[u8]) -> Option<Terminal>
    ensures { result ≡ written_so terminals.now word.now }
{
    terminals
        .iter()
        .copied()
        .find(|terminal| terminal.text().as_bytes() == word)
}

/// The reserved word that is written so.
pub fn reserved(word: &[u8]) -> Option<Terminal>
    ensures { result ≡ reserved word.now }
{
    match word.first() {
        Some(first) => written_so(words_from(*first), word),
        None => None,
    }
}

/// The symbol at the front, the longest there is.
pub fn symbol_at(text: &[u8]) -> Option<Terminal>
    ensures { result ≡ symbol_at text.now }
{
    SYMBOLS
        .iter()
        .copied()
        .find(|terminal| text.starts_with(terminal.text().as_bytes()))
}
