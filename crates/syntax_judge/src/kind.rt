// What syntax sees of tokens.
ghost use Rattle.std.specs.Prelude.{◌≡◌};
ghost use Rattle.syntax_judge.specs.Programs.{kind_of};

use source_tokens::{Terminal, Token};

/// What syntax sees of a token.
#[derive(Clone, Copy, Debug, PartialEq, Eq)]
pub enum Kind {
    Name,
    Number,
    Text,
    Fixed(Terminal),
}

/// The kind of a token.
pub fn kind_of(token: &Token) -> Kind
    ensures { result ≡ kind_of token.now }
{
    match token {
        Token::Name(_) => Kind::Name,
        Token::Number(_) => Kind::Number,
        Token::Text(_) => Kind::Text,
        Token::Fixed(terminal) => Kind::Fixed(*terminal),
    }
}
