// Reading expressions. Each reader gives a value, its height and the tokens behind it.
ghost use Rattle.std.specs.Prelude.{◌≡◌, ◌<◌, ◌+◌, ◌-◌, ◌^◌, [], length, option_map, IfOk};
ghost use Rattle.source_tokens.specs.Scans.{tokens_of};
ghost use Rattle.source_tree.specs.declared.expression.Level.TheVariants as level;
ghost use Rattle.source_reader.specs.Reading.{within, operator_of, operator_at, keys_by, place_by};
ghost use Rattle.source_reader.specs.Reading.{alive_by, factor_by, bracketed_by, minus_by};
ghost use Rattle.source_reader.specs.Reading.{entry_by, turns, chain_by, chain, not_by};
ghost use Rattle.source_reader.specs.Reading.{negation_by, level_by, level_at, rank};

use crate::token::{behind, name_at, split};
use cloud_base::Memory;
use source_tokens::{Identifier, Placed, Terminal, Token};
use source_tree::{Expression, Level, Operator, Place};
use sqlite_items::{Boxed, Items};
use std::alloc::Global;

/// A value, its height and the tokens behind it.
pub type Found<'a, T> = Option<(T, u32, &'a [Placed])>;

// A value, where it isn't too high.
pub fn within<T: Drop>(high: u32, value: T, height: u32, rest: &[Placed]) -> Found<'_, T>
    ensures { option_map (λ found. (found.0, found.1, tokens_of found.2.now)) result
        ≡ within high value height (tokens_of rest.now) }
{
    if height <= high {
        Some((value, height, rest))
    } else {
        None
    }
}

// A value that is one higher than its parts, where it isn't too high.
pub fn raised<T: Drop>(high: u32, value: T, height: u32, rest: &[Placed]) -> Found<'_, T>
    ensures { option_map (λ found. (found.0, found.1, tokens_of found.2.now)) result
        ≡ within high value (height + 1) (tokens_of rest.now) }
{
    if height < high {
        Some((value, height + 1, rest))
    } else {
        None
    }
}

#[tactic(auto, unfolding(crate::specs::Reading::operator_of))]
fn operator_of(level: Level, terminal: Terminal) -> Option<Operator>
    ensures { result ≡ operator_of level terminal }
{
    match (level, terminal) {
        (Level::Choice, Terminal::Or) => Some(Operator::Or),
        (Level::Conjunction, Terminal::And) => Some(Operator::And),
        (Level::Comparison, Terminal::Equal) => Some(Operator::Equal),
        (Level::Comparison, Terminal::NotEqual) => Some(Operator::NotEqual),
        (Level::Comparison, Terminal::Less) => Some(Operator::Less),
        (Level::Comparison, Terminal::LessOrEqual) => Some(Operator::LessOrEqual),
        (Level::Comparison, Terminal::Greater) => Some(Operator::Greater),
        (Level::Comparison, Terminal::GreaterOrEqual) => Some(Operator::GreaterOrEqual),
        (Level::Sum, Terminal::Plus) => Some(Operator::Plus),
        (Level::Sum, Terminal::Minus) => Some(Operator::Minus),
        (Level::Sum, Terminal::Concat) => Some(Operator::Concat),
        (Level::Term, Terminal::Times) => Some(Operator::Times),
        (Level::Term, Terminal::Divide) => Some(Operator::Divide),
        (Level::Term, Terminal::Remainder) => Some(Operator::Remainder),
        _ => None,
    }
}

#[tactic(auto, unfolding(crate::specs::Reading::operator_at))]
fn operator_at(level: Level, tokens: &[Placed]) -> Option<(Operator, &[Placed])>
    ensures { option_map (λ found. (found.0, tokens_of found.1.now)) result
        ≡ operator_at level (tokens_of tokens.now) }
{
    match split(tokens)? {
        (Token::Fixed(terminal), rest) => Some((operator_of(level, *terminal)?, rest)),
        _ => None,
    }
}

fn turns(level: Level, tokens: &[Placed]) -> usize
    ensures { result ≡ turns level (tokens_of tokens.now) }
{
    match level {
        Level::Comparison => 1,
        _ => tokens.len(),
    }
}

fn alive_at<'a>(
    alloc: Global,
    high: u32,
    tokens: &'a [Placed],
) -> Result<Found<'a, Expression>, Memory>
    ensures { IfOk result (λ found. option_map (λ f. (f.0, f.1, tokens_of f.2.now)) found
        ≡ alive_by high (tokens_of tokens.now)) }
{
    let Some((name, rest)) = name_at(tokens) else {
        return Ok(None);
    };
    Ok(within(high, Expression::Alive(name.copy(alloc)?), 1, rest))
}

// The keys of an entry, up to the closing bracket.
#[cycle(expression)]
#[tactic(auto, using(crate::proofs::Steps::keys), unfolding(crate::specs::Reading::keys_by))]
pub fn keys_at<'a>(
    alloc: Global,
    depth: usize,
    high: u32,
    tokens: &'a [Placed],
) -> Result<Found<'a, Items<Expression>>, Memory>
    ensures { IfOk result (λ found. option_map (λ f. (f.0, f.1, tokens_of f.2.now)) found
        ≡ keys_by (length (tokens_of tokens.now)) (level_at depth level.Choice) high [] 0
        (tokens_of tokens.now)) }
{
    let mut keys = Items::new(alloc);
    let mut height = 0;
    let mut rest = tokens;
    for _turn in 0..tokens.len() {
        let Some((key, key_height, after)) = level_at(alloc, depth, high, Level::Choice, rest)?
        else {
            return Ok(None);
        };
        keys.push(key)?;
        height = height.max(key_height);
        match behind(after, Terminal::Comma) {
            Some(after) => rest = after,
            None => {
                let Some(rest) = behind(after, Terminal::CloseBracket) else {
                    return Ok(None);
                };
                return Ok(Some((keys, height, rest)));
            }
        }
    }
    Ok(None)
}

#[cycle(expression)]
#[tactic(auto, unfolding(crate::specs::Reading::entry_by))]
pub fn entry_at<'a>(
    alloc: Global,
    depth: usize,
    high: u32,
    name: &Identifier,
    tokens: &'a [Placed],
) -> Result<Found<'a, Place<Expression>>, Memory>
    ensures { IfOk result (λ found. option_map (λ f. (f.0, f.1, tokens_of f.2.now)) found
        ≡ entry_by (level_at depth level.Choice) high name.now (tokens_of tokens.now)) }
{
    let Some((keys, height, rest)) = keys_at(alloc, depth, high.saturating_sub(1), tokens)? else {
        return Ok(None);
    };
    let Some(rest) = behind(rest, Terminal::Dot) else {
        return Ok(None);
    };
    let Some((property, rest)) = name_at(rest) else {
        return Ok(None);
    };
    let place = Place::Entry(name.copy(alloc)?, keys, property.copy(alloc)?);
    Ok(raised(high, place, height, rest))
}

// A place that begins with this name.
#[cycle(expression)]
#[tactic(auto, unfolding(crate::specs::Reading::place_by))]
pub fn place_at<'a>(
    alloc: Global,
    depth: usize,
    high: u32,
    name: &Identifier,
    tokens: &'a [Placed],
) -> Result<Found<'a, Place<Expression>>, Memory>
    ensures { IfOk result (λ found. option_map (λ f. (f.0, f.1, tokens_of f.2.now)) found
        ≡ place_by (level_at depth level.Choice) high name.now (tokens_of tokens.now)) }
{
    match split(tokens) {
        Some((Token::Fixed(Terminal::Dot), rest)) => {
            let Some((property, rest)) = name_at(rest) else {
                return Ok(None);
            };
            let place = Place::Field(name.copy(alloc)?, property.copy(alloc)?);
            Ok(within(high, place, 2, rest))
        }
        Some((Token::Fixed(Terminal::OpenBracket), rest)) => {
            entry_at(alloc, depth, high, name, rest)
        }
        _ => Ok(within(high, Place::Name(name.copy(alloc)?), 1, tokens)),
    }
}

#[cycle(expression)]
#[tactic(auto, unfolding(crate::specs::Reading::bracketed_by))]
pub fn bracketed_at<'a>(
    alloc: Global,
    depth: usize,
    high: u32,
    tokens: &'a [Placed],
) -> Result<Found<'a, Expression>, Memory>
    ensures { IfOk result (λ found. option_map (λ f. (f.0, f.1, tokens_of f.2.now)) found
        ≡ bracketed_by (level_at depth level.Choice) high (tokens_of tokens.now)) }
{
    let Some((inner, height, rest)) = level_at(alloc, depth, high, Level::Choice, tokens)? else {
        return Ok(None);
    };
    Ok(behind(rest, Terminal::CloseParen).map(|rest| (inner, height, rest)))
}

#[cycle(expression)]
#[tactic(auto, unfolding(crate::specs::Reading::minus_by))]
pub fn minus_at<'a>(
    alloc: Global,
    depth: usize,
    high: u32,
    tokens: &'a [Placed],
) -> Result<Found<'a, Expression>, Memory>
    ensures { IfOk result (λ found. option_map (λ f. (f.0, f.1, tokens_of f.2.now)) found
        ≡ minus_by (level_at depth level.Factor) high (tokens_of tokens.now)) }
{
    if high == 0 {
        return Ok(None);
    }
    let inner = level_at(alloc, depth, high - 1, Level::Factor, tokens)?;
    let Some((operand, height, rest)) = inner else {
        return Ok(None);
    };
    let minus = Expression::Minus(Boxed::new(alloc, operand)?);
    Ok(raised(high, minus, height, rest))
}

#[cycle(expression)]
#[tactic(auto, unfolding(crate::specs::Reading::factor_by))]
pub fn factor_at<'a>(
    alloc: Global,
    depth: usize,
    high: u32,
    tokens: &'a [Placed],
) -> Result<Found<'a, Expression>, Memory>
    ensures { IfOk result (λ found. option_map (λ f. (f.0, f.1, tokens_of f.2.now)) found
        ≡ factor_by (level_at depth) high (tokens_of tokens.now)) }
{
    let Some((token, rest)) = split(tokens) else {
        return Ok(None);
    };
    match token {
        Token::Number(number) => Ok(within(high, Expression::Number(*number), 1, rest)),
        Token::Text(bytes) => Ok(within(high, Expression::Text(bytes.copy(alloc)?), 1, rest)),
        Token::Name(name) => Ok(place_at(alloc, depth, high, name, rest)?.map(|(
            place,
            height,
            rest,
        )| (Expression::Place(place), height, rest))),
        Token::Fixed(Terminal::True) => Ok(within(high, Expression::Truth(true), 1, rest)),
        Token::Fixed(Terminal::False) => Ok(within(high, Expression::Truth(false), 1, rest)),
        Token::Fixed(Terminal::Alive) => alive_at(alloc, high, rest),
        Token::Fixed(Terminal::Minus) => minus_at(alloc, depth, high, rest),
        Token::Fixed(Terminal::OpenParen) => bracketed_at(alloc, depth, high, rest),
        Token::Fixed(_) => Ok(None),
    }
}

// A chain of operands of a level.
#[cycle(expression)]
#[tactic(auto, using(crate::proofs::Steps::chain_step), unfolding(crate::specs::Reading::chain_by))]
pub fn chain_at<'a>(
    alloc: Global,
    depth: usize,
    high: u32,
    level: Level,
    operand: Level,
    tokens: &'a [Placed],
) -> Result<Found<'a, Expression>, Memory>
    requires { rank operand < rank level }
    ensures { IfOk result (λ found. option_map (λ f. (f.0, f.1, tokens_of f.2.now)) found
        ≡ chain level (level_by operand (level_at depth)) high (tokens_of tokens.now)) }
{
    let Some((first, first_height, first_rest)) = level_by(alloc, depth, high, operand, tokens)?
    else {
        return Ok(None);
    };
    let mut left = first;
    let mut height = first_height;
    let mut rest = first_rest;
    for _turn in 0..turns(level, tokens) {
        let Some((operator, after)) = operator_at(level, rest) else {
            return Ok(Some((left, height, rest)));
        };
        let lower = high.saturating_sub(1);
        let Some((right, right_height, after)) = level_by(alloc, depth, lower, operand, after)?
        else {
            return Ok(None);
        };
        if height.max(right_height) >= high {
            return Ok(None);
        }
        left = Expression::Binary(
            operator,
            Boxed::new(alloc, left)?,
            Boxed::new(alloc, right)?,
        );
        height = height.max(right_height) + 1;
        rest = after;
    }
    Ok(Some((left, height, rest)))
}

#[cycle(expression)]
#[tactic(auto, unfolding(crate::specs::Reading::not_by))]
pub fn not_at<'a>(
    alloc: Global,
    depth: usize,
    high: u32,
    tokens: &'a [Placed],
) -> Result<Found<'a, Expression>, Memory>
    ensures { IfOk result (λ found. option_map (λ f. (f.0, f.1, tokens_of f.2.now)) found
        ≡ not_by (level_at depth level.Negation) high (tokens_of tokens.now)) }
{
    if high == 0 {
        return Ok(None);
    }
    let inner = level_at(alloc, depth, high - 1, Level::Negation, tokens)?;
    let Some((operand, height, rest)) = inner else {
        return Ok(None);
    };
    let not = Expression::Not(Boxed::new(alloc, operand)?);
    Ok(raised(high, not, height, rest))
}

#[cycle(expression)]
#[tactic(auto, unfolding(crate::specs::Reading::negation_by))]
pub fn negation_at<'a>(
    alloc: Global,
    depth: usize,
    high: u32,
    tokens: &'a [Placed],
) -> Result<Found<'a, Expression>, Memory>
    ensures { IfOk result (λ found. option_map (λ f. (f.0, f.1, tokens_of f.2.now)) found
        ≡ negation_by (level_at depth) high (tokens_of tokens.now)) }
{
    match behind(tokens, Terminal::Not) {
        Some(rest) => not_at(alloc, depth, high, rest),
        None => level_by(alloc, depth, high, Level::Comparison, tokens),
    }
}

#[cycle(expression)]
pub fn level_by<'a>(
    alloc: Global,
    depth: usize,
    high: u32,
    level: Level,
    tokens: &'a [Placed],
) -> Result<Found<'a, Expression>, Memory>
    ensures { IfOk result (λ found. option_map (λ f. (f.0, f.1, tokens_of f.2.now)) found
        ≡ level_by level (level_at depth) high (tokens_of tokens.now)) }
{
    match level {
        Level::Choice => chain_at(alloc, depth, high, level, Level::Conjunction, tokens),
        Level::Conjunction => chain_at(alloc, depth, high, level, Level::Negation, tokens),
        Level::Negation => negation_at(alloc, depth, high, tokens),
        Level::Comparison => chain_at(alloc, depth, high, level, Level::Sum, tokens),
        Level::Sum => chain_at(alloc, depth, high, level, Level::Term, tokens),
        Level::Term => chain_at(alloc, depth, high, level, Level::Factor, tokens),
        Level::Factor => factor_at(alloc, depth, high, tokens),
    }
}

// An expression of a level, with at most so many brackets and prefix operators round its parts.
#[cycle(expression)]
#[tactic(auto, using(crate::proofs::Steps::inner), unfolding(crate::specs::Reading::level_at))]
pub fn level_at<'a>(
    alloc: Global,
    depth: usize,
    high: u32,
    level: Level,
    tokens: &'a [Placed],
) -> Result<Found<'a, Expression>, Memory>
    ensures { IfOk result (λ found. option_map (λ f. (f.0, f.1, tokens_of f.2.now)) found
        ≡ level_at depth level high (tokens_of tokens.now)) }
{
    if depth == 0 {
        return Ok(None);
    }
    level_by(alloc, depth - 1, high, level, tokens)
}
