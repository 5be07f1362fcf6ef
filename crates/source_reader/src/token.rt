// The first token.
ghost use Rattle.std.specs.Prelude.{◌≡◌, ◌∷◌, [], option_map, MatchOption};
ghost use Rattle.source_tokens.specs.Scans.{tokens_of};
ghost use Rattle.source_reader.specs.Reading.{behind, name_at};

use source_tokens::{Identifier, Placed, Terminal, Token};

// The first token and what is behind it.
pub fn split(tokens: &[Placed]) -> Option<(&Token, &[Placed])>
    ensures { MatchOption result (tokens_of tokens.now ≡ [])
        (λ found. tokens_of tokens.now ≡ found.0.now ∷ tokens_of found.1.now) }
{
    let (placed, rest) = tokens.split_first()?;
    Some((&placed.token, rest))
}

// What is behind a fixed token.
#[tactic(auto, unfolding(crate::specs::Reading::behind))]
pub fn behind(tokens: &[Placed], wanted: Terminal) -> Option<&[Placed]>
    ensures { option_map (λ rest. tokens_of rest.now) result
        ≡ behind wanted (tokens_of tokens.now) }
{
    match split(tokens)? {
        (Token::Fixed(terminal), rest) if *terminal == wanted => Some(rest),
        _ => None,
    }
}

// A name and what is behind it.
#[tactic(auto, unfolding(crate::specs::Reading::name_at))]
pub fn name_at(tokens: &[Placed]) -> Option<(&Identifier, &[Placed])>
    ensures { option_map (λ found. (found.0.now, tokens_of found.1.now)) result
        ≡ name_at (tokens_of tokens.now) }
{
    match split(tokens)? {
        (Token::Name(name), rest) => Some((name, rest)),
        _ => None,
    }
}
