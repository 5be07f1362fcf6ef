// Reading schedules. Each reader gives a value and the tokens behind it.
ghost use Rattle.std.specs.Prelude.{◌≡◌, [], length, option_map, IfOk};
ghost use Rattle.source_tokens.specs.Scans.{tokens_of};
ghost use Rattle.source_reader.specs.Sources.{fate_at, number_at, steps_at, serve_at, item_at};
ghost use Rattle.source_reader.specs.Sources.{items_by, schedule_at};

use crate::token::{behind, name_at, split};
use cloud_base::{Fate, Memory, Sequence};
use source_tokens::{Identifier, Placed, Terminal, Token};
use source_tree::Item;
use std::alloc::Global;

#[tactic(auto, unfolding(crate::specs::Sources::fate_at))]
fn fate_at(tokens: &[Placed]) -> Option<(Fate, &[Placed])>
    ensures { option_map (λ found. (found.0, tokens_of found.1.now)) result
        ≡ fate_at (tokens_of tokens.now) }
{
    match split(tokens)? {
        (Token::Fixed(Terminal::Pass), rest) => Some((Fate::Pass, rest)),
        (Token::Fixed(Terminal::LosePush), rest) => Some((Fate::LosePush, rest)),
        (Token::Fixed(Terminal::LoseReply), rest) => Some((Fate::LoseReply, rest)),
        (Token::Fixed(Terminal::Twice), rest) => Some((Fate::Twice, rest)),
        (Token::Fixed(Terminal::Hold), rest) => Some((Fate::Hold, rest)),
        _ => None,
    }
}

#[tactic(auto, unfolding(crate::specs::Sources::number_at))]
fn number_at(tokens: &[Placed]) -> Option<(u64, &[Placed])>
    ensures { option_map (λ found. (found.0, tokens_of found.1.now)) result
        ≡ number_at (tokens_of tokens.now) }
{
    match split(tokens)? {
        (Token::Number(number), rest) => Some((*number, rest)),
        _ => None,
    }
}

#[tactic(auto, unfolding(crate::specs::Sources::steps_at))]
fn steps_at<'a>(
    alloc: Global,
    name: &Identifier,
    tokens: &'a [Placed],
) -> Result<Option<(Item, &'a [Placed])>, Memory>
    ensures { IfOk result (λ found. option_map (λ f. (f.0, tokens_of f.1.now)) found
        ≡ steps_at name.now (tokens_of tokens.now)) }
{
    let Some((count, rest)) = number_at(tokens) else {
        return Ok(None);
    };
    let Some(rest) = behind(rest, Terminal::Semicolon) else {
        return Ok(None);
    };
    Ok(Some((Item::Steps(name.copy(alloc)?, count), rest)))
}

#[tactic(auto, unfolding(crate::specs::Sources::serve_at))]
fn serve_at<'a>(alloc: Global, tokens: &'a [Placed]) -> Result<Option<(Item, &'a [Placed])>, Memory>
    ensures { IfOk result (λ found. option_map (λ f. (f.0, tokens_of f.1.now)) found
        ≡ serve_at (tokens_of tokens.now)) }
{
    let Some((name, rest)) = name_at(tokens) else {
        return Ok(None);
    };
    let Some((fate, rest)) = fate_at(rest) else {
        return Ok(None);
    };
    let Some(rest) = behind(rest, Terminal::Semicolon) else {
        return Ok(None);
    };
    Ok(Some((Item::Serve(name.copy(alloc)?, fate), rest)))
}

#[tactic(auto, unfolding(crate::specs::Sources::item_at))]
fn item_at<'a>(alloc: Global, tokens: &'a [Placed]) -> Result<Option<(Item, &'a [Placed])>, Memory>
    ensures { IfOk result (λ found. option_map (λ f. (f.0, tokens_of f.1.now)) found
        ≡ item_at (tokens_of tokens.now)) }
{
    match split(tokens) {
        Some((Token::Name(name), rest)) => steps_at(alloc, name, rest),
        Some((Token::Fixed(Terminal::Serve), rest)) => serve_at(alloc, rest),
        _ => Ok(None),
    }
}

// The items of a schedule, up to the closing brace.
#[tactic(auto, using(crate::proofs::Loop::items), unfolding(crate::specs::Sources::items_by))]
fn items_at<'a>(
    alloc: Global,
    tokens: &'a [Placed],
) -> Result<Option<(Sequence<Item>, &'a [Placed])>, Memory>
    ensures { IfOk result (λ found. option_map (λ f. (f.0, tokens_of f.1.now)) found
        ≡ items_by (length (tokens_of tokens.now)) [] (tokens_of tokens.now)) }
{
    let mut items = Sequence::new(alloc);
    let mut rest = tokens;
    for _turn in 0..tokens.len() {
        if let Some(after) = behind(rest, Terminal::CloseBrace) {
            return Ok(Some((items, after)));
        }
        let Some((item, after)) = item_at(alloc, rest)? else {
            return Ok(None);
        };
        items.push(item)?;
        rest = after;
    }
    Ok(None)
}

// The schedule, if there is one.
#[tactic(auto, unfolding(crate::specs::Sources::schedule_at))]
pub fn schedule_at<'a>(
    alloc: Global,
    tokens: &'a [Placed],
) -> Result<Option<(Option<Sequence<Item>>, &'a [Placed])>, Memory>
    ensures { IfOk result (λ found. option_map (λ f. (f.0, tokens_of f.1.now)) found
        ≡ schedule_at (tokens_of tokens.now)) }
{
    let Some(rest) = behind(tokens, Terminal::Schedule) else {
        return Ok(Some((None, tokens)));
    };
    let Some(rest) = behind(rest, Terminal::OpenBrace) else {
        return Ok(None);
    };
    let Some((items, rest)) = items_at(alloc, rest)? else {
        return Ok(None);
    };
    Ok(Some((Some(items), rest)))
}
