// How many brackets are open.
ghost use Rattle.std.specs.Prelude.{◌≡◌, ◌<◌, ◌^◌, nat_lt};
ghost use Rattle.source_tokens.specs.Brackets.{open_behind, most_open};
ghost use Rattle.source_tokens.specs.Scans.{tokens_of};

use crate::terminal::Terminal;
use crate::token::{Placed, Token};

/// The most brackets that may be open.
pub const MOST_OPEN: usize = 64;

fn open_behind(count: usize, token: &Token) -> usize
    requires { count < 2 ^ 63 }
    ensures { result ≡ open_behind count token.now }
{
    match token {
        Token::Fixed(Terminal::OpenParen | Terminal::OpenBracket | Terminal::OpenBrace) => count
            + 1,
        Token::Fixed(Terminal::CloseParen | Terminal::CloseBracket | Terminal::CloseBrace) => {
            count.saturating_sub(1)
        }
        _ => count,
    }
}

/// Are more than `MOST_OPEN` brackets open behind some token?
pub fn has_too_many_open(tokens: &[Placed]) -> bool
    ensures { result ≡ nat_lt 64 (most_open 0 (tokens_of tokens.now)) }
{
    let mut count = 0;
    for placed in tokens {
        count = open_behind(count, &placed.token);
        if count > MOST_OPEN {
            return true;
        }
    }
    false
}
