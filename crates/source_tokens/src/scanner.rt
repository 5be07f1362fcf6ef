// The tokens of a text with their places.
ghost use Rattle.std.specs.Prelude.{◌≡◌, ℕ, List, ◌++◌, [], None, OnOk, IfOk};
ghost use Rattle.source_tokens.specs.Scans.{scan, with_token, tokens_of, IsToken};
ghost use Rattle.std.specs.List.{AllByRecursion};

use crate::lexeme::{Lexeme, lexeme_at};
use crate::position::feeds;
use crate::token::{Placed, Scan, Token};
use cloud_base::{Memory, Sequence};
use std::alloc::Global;

fn push_token(
    found: &mut Sequence<Placed>,
    token: Option<Token>,
    at: usize,
    line: usize,
) -> Result<(), Memory>
    ensures { OnOk result
        (found.new ≡ found.old
        ++ (with_token at line token record { tokens = []; fault = None }).tokens) }
{
    if let Some(token) = token {
        found.push(Placed { token, at, line })?;
    }
    Ok(())
}

/// The tokens of a text, up to its first lexical fault: the place where neither white space, a
/// comment nor a token begins, or of the opening quote of a text literal that isn't one.
pub fn scan(alloc: Global, text: &[u8]) -> Result<Scan, Memory>
    ensures { IfOk result (λ found. found ≡ scan text.now) }
{
    let mut tokens = Sequence::new(alloc);
    let mut line = 1;
    let mut rest = text;
    while !rest.is_empty() {
        let at = text.len() - rest.len();
        let Some(Lexeme { token, length }) = lexeme_at(alloc, rest)? else {
            return Ok(Scan {
                tokens,
                fault: Some(at),
            });
        };
        push_token(&mut tokens, token, at, line)?;
        line += feeds(&rest[..length]);
        rest = &rest[length..];
    }
    Ok(Scan {
        tokens,
        fault: None,
    })
}

/// The tokens of every text are what tokens of a source can be.
#[tactic(auto, using(crate::proofs::Scanned::scanned_fit))]
pub fn scanned_tokens()
    ensures { (text : List ℕ) → AllByRecursion IsToken (tokens_of (scan text).tokens) }
{}
