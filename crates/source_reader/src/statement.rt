// Reading statements and bodies. Each reader gives a value, its height and the tokens behind it.
ghost use Rattle.std.specs.Prelude.{◌≡◌, [], length, option_map, IfOk};
ghost use Rattle.source_tokens.specs.Scans.{tokens_of};
ghost use Rattle.source_tree.specs.declared.expression.Level.TheVariants as level;
ghost use Rattle.source_tree.specs.declared.statement.Statement.TheVariants as statement;
ghost use Rattle.source_reader.specs.Reading.{level_at};
ghost use Rattle.source_reader.specs.Bodies.{operation_at, ended_by, argument_by, change_by};
ghost use Rattle.source_reader.specs.Bodies.{dotted_by, entered_by, assign_by, named_by};
ghost use Rattle.source_reader.specs.Bodies.{new_keys_by, create_by, initial_by, define_by};
ghost use Rattle.source_reader.specs.Bodies.{delete_at, print_by, word_at, else_by, if_by};
ghost use Rattle.source_reader.specs.Bodies.{while_by, all_at, for_all_by, names_by, entries_at};
ghost use Rattle.source_reader.specs.Bodies.{for_entries_by, foreach_by, statement_by, body_by};
ghost use Rattle.source_reader.specs.Bodies.{block_at};

use crate::expression::{Found, entry_at, keys_at, level_at, raised, within};
use crate::token::{behind, name_at, split};
use cloud_base::{Memory, Sequence};
use source_tokens::{Identifier, Placed, Terminal, Token};
use source_tree::{Expression, Level, Operation, Place, Statement};
use sqlite_items::Items;
use std::alloc::Global;

#[tactic(auto, unfolding(crate::specs::Bodies::operation_at))]
fn operation_at(tokens: &[Placed]) -> Option<(Operation, &[Placed])>
    ensures { option_map (λ found. (found.0, tokens_of found.1.now)) result
        ≡ operation_at (tokens_of tokens.now) }
{
    match split(tokens)? {
        (Token::Fixed(Terminal::Add), rest) => Some((Operation::Add, rest)),
        (Token::Fixed(Terminal::Set), rest) => Some((Operation::Set, rest)),
        (Token::Fixed(Terminal::SetIfEmpty), rest) => Some((Operation::SetIfEmpty, rest)),
        _ => None,
    }
}

// An expression lower than the statement that it ends, and its semicolon.
#[tactic(auto, unfolding(crate::specs::Bodies::ended_by))]
fn ended_at<'a>(
    alloc: Global,
    depth: usize,
    high: u32,
    tokens: &'a [Placed],
) -> Result<Found<'a, Expression>, Memory>
    ensures { IfOk result (λ found. option_map (λ f. (f.0, f.1, tokens_of f.2.now)) found
        ≡ ended_by (level_at depth level.Choice) high (tokens_of tokens.now)) }
{
    let lower = high.saturating_sub(1);
    let Some((value, height, rest)) = level_at(alloc, depth, lower, Level::Choice, tokens)? else {
        return Ok(None);
    };
    let Some(rest) = behind(rest, Terminal::Semicolon) else {
        return Ok(None);
    };
    Ok(Some((value, height, rest)))
}

#[tactic(auto, unfolding(crate::specs::Bodies::argument_by))]
fn argument_at<'a>(
    alloc: Global,
    depth: usize,
    high: u32,
    tokens: &'a [Placed],
) -> Result<Found<'a, Expression>, Memory>
    ensures { IfOk result (λ found. option_map (λ f. (f.0, f.1, tokens_of f.2.now)) found
        ≡ argument_by (level_at depth level.Choice) high (tokens_of tokens.now)) }
{
    let Some(rest) = behind(tokens, Terminal::OpenParen) else {
        return Ok(None);
    };
    let lower = high.saturating_sub(1);
    let Some((value, height, rest)) = level_at(alloc, depth, lower, Level::Choice, rest)? else {
        return Ok(None);
    };
    let Some(rest) = behind(rest, Terminal::CloseParen) else {
        return Ok(None);
    };
    let Some(rest) = behind(rest, Terminal::Semicolon) else {
        return Ok(None);
    };
    Ok(Some((value, height, rest)))
}

// An update of a place of this height, behind the dot.
#[tactic(auto, unfolding(crate::specs::Bodies::change_by))]
fn change_at<'a>(
    alloc: Global,
    depth: usize,
    high: u32,
    place: Place<Expression>,
    height: u32,
    tokens: &'a [Placed],
) -> Result<Found<'a, Statement>, Memory>
    ensures { IfOk result (λ found. option_map (λ f. (f.0, f.1, tokens_of f.2.now)) found
        ≡ change_by (level_at depth level.Choice) high place height (tokens_of tokens.now)) }
{
    let Some((operation, rest)) = operation_at(tokens) else {
        return Ok(None);
    };
    let Some((value, value_height, rest)) = argument_at(alloc, depth, high, rest)? else {
        return Ok(None);
    };
    let update = Statement::Update(place, operation, value);
    Ok(raised(high, update, height.max(value_height), rest))
}

#[tactic(auto, unfolding(crate::specs::Bodies::dotted_by))]
fn dotted_at<'a>(
    alloc: Global,
    depth: usize,
    high: u32,
    name: &Identifier,
    tokens: &'a [Placed],
) -> Result<Found<'a, Statement>, Memory>
    ensures { IfOk result (λ found. option_map (λ f. (f.0, f.1, tokens_of f.2.now)) found
        ≡ dotted_by (level_at depth level.Choice) high name.now (tokens_of tokens.now)) }
{
    let Some((property, rest)) = name_at(tokens) else {
        let place = Place::Name(name.copy(alloc)?);
        return change_at(alloc, depth, high, place, 1, tokens);
    };
    let Some(rest) = behind(rest, Terminal::Dot) else {
        return Ok(None);
    };
    let place = Place::Field(name.copy(alloc)?, property.copy(alloc)?);
    change_at(alloc, depth, high, place, 2, rest)
}

#[tactic(auto, unfolding(crate::specs::Bodies::entered_by))]
fn entered_at<'a>(
    alloc: Global,
    depth: usize,
    high: u32,
    name: &Identifier,
    tokens: &'a [Placed],
) -> Result<Found<'a, Statement>, Memory>
    ensures { IfOk result (λ found. option_map (λ f. (f.0, f.1, tokens_of f.2.now)) found
        ≡ entered_by (level_at depth level.Choice) high name.now (tokens_of tokens.now)) }
{
    let lower = high.saturating_sub(1);
    let Some((place, height, rest)) = entry_at(alloc, depth, lower, name, tokens)? else {
        return Ok(None);
    };
    let Some(rest) = behind(rest, Terminal::Dot) else {
        return Ok(None);
    };
    change_at(alloc, depth, high, place, height, rest)
}

#[tactic(auto, unfolding(crate::specs::Bodies::assign_by))]
fn assign_at<'a>(
    alloc: Global,
    depth: usize,
    high: u32,
    name: &Identifier,
    tokens: &'a [Placed],
) -> Result<Found<'a, Statement>, Memory>
    ensures { IfOk result (λ found. option_map (λ f. (f.0, f.1, tokens_of f.2.now)) found
        ≡ assign_by (level_at depth level.Choice) high name.now (tokens_of tokens.now)) }
{
    let Some((value, height, rest)) = ended_at(alloc, depth, high, tokens)? else {
        return Ok(None);
    };
    let assign = Statement::Assign(name.copy(alloc)?, value);
    Ok(raised(high, assign, height, rest))
}

// A statement that begins with this name.
#[tactic(auto, unfolding(crate::specs::Bodies::named_by))]
fn named_at<'a>(
    alloc: Global,
    depth: usize,
    high: u32,
    name: &Identifier,
    tokens: &'a [Placed],
) -> Result<Found<'a, Statement>, Memory>
    ensures { IfOk result (λ found. option_map (λ f. (f.0, f.1, tokens_of f.2.now)) found
        ≡ named_by (level_at depth level.Choice) high name.now (tokens_of tokens.now)) }
{
    match split(tokens) {
        Some((Token::Fixed(Terminal::Assign), rest)) => assign_at(alloc, depth, high, name, rest),
        Some((Token::Fixed(Terminal::Dot), rest)) => dotted_at(alloc, depth, high, name, rest),
        Some((Token::Fixed(Terminal::OpenBracket), rest)) => {
            entered_at(alloc, depth, high, name, rest)
        }
        _ => Ok(None),
    }
}

#[tactic(auto, unfolding(crate::specs::Bodies::new_keys_by))]
fn new_keys_at<'a>(
    alloc: Global,
    depth: usize,
    high: u32,
    tokens: &'a [Placed],
) -> Result<Found<'a, Items<Expression>>, Memory>
    ensures { IfOk result (λ found. option_map (λ f. (f.0, f.1, tokens_of f.2.now)) found
        ≡ new_keys_by (level_at depth level.Choice) high (tokens_of tokens.now)) }
{
    match behind(tokens, Terminal::OpenBracket) {
        Some(rest) => keys_at(alloc, depth, high.saturating_sub(1), rest),
        None => Ok(Some((Items::new(alloc), 0, tokens))),
    }
}

#[tactic(auto, unfolding(crate::specs::Bodies::create_by))]
fn create_at<'a>(
    alloc: Global,
    depth: usize,
    high: u32,
    name: &Identifier,
    tokens: &'a [Placed],
) -> Result<Found<'a, Statement>, Memory>
    ensures { IfOk result (λ found. option_map (λ f. (f.0, f.1, tokens_of f.2.now)) found
        ≡ create_by (level_at depth level.Choice) high name.now (tokens_of tokens.now)) }
{
    let Some((entity, rest)) = name_at(tokens) else {
        return Ok(None);
    };
    let Some((keys, height, rest)) = new_keys_at(alloc, depth, high, rest)? else {
        return Ok(None);
    };
    let Some(rest) = behind(rest, Terminal::Semicolon) else {
        return Ok(None);
    };
    let create = Statement::Create(name.copy(alloc)?, entity.copy(alloc)?, keys);
    Ok(raised(high, create, height, rest))
}

// What a variable of this name is.
#[tactic(auto, unfolding(crate::specs::Bodies::initial_by))]
fn initial_at<'a>(
    alloc: Global,
    depth: usize,
    high: u32,
    name: &Identifier,
    tokens: &'a [Placed],
) -> Result<Found<'a, Statement>, Memory>
    ensures { IfOk result (λ found. option_map (λ f. (f.0, f.1, tokens_of f.2.now)) found
        ≡ initial_by (level_at depth level.Choice) high name.now (tokens_of tokens.now)) }
{
    if let Some(rest) = behind(tokens, Terminal::New) {
        return create_at(alloc, depth, high, name, rest);
    }
    let Some((value, height, rest)) = ended_at(alloc, depth, high, tokens)? else {
        return Ok(None);
    };
    let define = Statement::Define(name.copy(alloc)?, value);
    Ok(raised(high, define, height, rest))
}

#[tactic(auto, unfolding(crate::specs::Bodies::define_by))]
fn define_at<'a>(
    alloc: Global,
    depth: usize,
    high: u32,
    tokens: &'a [Placed],
) -> Result<Found<'a, Statement>, Memory>
    ensures { IfOk result (λ found. option_map (λ f. (f.0, f.1, tokens_of f.2.now)) found
        ≡ define_by (level_at depth level.Choice) high (tokens_of tokens.now)) }
{
    let Some((name, rest)) = name_at(tokens) else {
        return Ok(None);
    };
    let Some(rest) = behind(rest, Terminal::Assign) else {
        return Ok(None);
    };
    initial_at(alloc, depth, high, name, rest)
}

#[tactic(auto, unfolding(crate::specs::Bodies::delete_at))]
fn delete_at<'a>(
    alloc: Global,
    high: u32,
    tokens: &'a [Placed],
) -> Result<Found<'a, Statement>, Memory>
    ensures { IfOk result (λ found. option_map (λ f. (f.0, f.1, tokens_of f.2.now)) found
        ≡ delete_at high (tokens_of tokens.now)) }
{
    let Some((name, rest)) = name_at(tokens) else {
        return Ok(None);
    };
    let Some(rest) = behind(rest, Terminal::Semicolon) else {
        return Ok(None);
    };
    Ok(within(high, Statement::Delete(name.copy(alloc)?), 1, rest))
}

#[tactic(auto, unfolding(crate::specs::Bodies::print_by))]
fn print_at<'a>(
    alloc: Global,
    depth: usize,
    high: u32,
    tokens: &'a [Placed],
) -> Result<Found<'a, Statement>, Memory>
    ensures { IfOk result (λ found. option_map (λ f. (f.0, f.1, tokens_of f.2.now)) found
        ≡ print_by (level_at depth level.Choice) high (tokens_of tokens.now)) }
{
    let Some((value, height, rest)) = ended_at(alloc, depth, high, tokens)? else {
        return Ok(None);
    };
    Ok(raised(high, Statement::Print(value), height, rest))
}

#[tactic(auto, unfolding(crate::specs::Bodies::word_at))]
fn yield_at(high: u32, tokens: &[Placed]) -> Found<'_, Statement>
    ensures { option_map (λ f. (f.0, f.1, tokens_of f.2.now)) result
        ≡ word_at statement.Yield high (tokens_of tokens.now) }
{
    let rest = behind(tokens, Terminal::Semicolon)?;
    within(high, Statement::Yield, 1, rest)
}

#[tactic(auto, unfolding(crate::specs::Bodies::word_at))]
fn flush_at(high: u32, tokens: &[Placed]) -> Found<'_, Statement>
    ensures { option_map (λ f. (f.0, f.1, tokens_of f.2.now)) result
        ≡ word_at statement.Flush high (tokens_of tokens.now) }
{
    let rest = behind(tokens, Terminal::Semicolon)?;
    within(high, Statement::Flush, 1, rest)
}

// The one name of a listing of an entity's elements.
#[tactic(auto, unfolding(crate::specs::Bodies::all_at))]
fn all_at(tokens: &[Placed]) -> Option<(&Identifier, &[Placed])>
    ensures { option_map (λ found. (found.0.now, tokens_of found.1.now)) result
        ≡ all_at (tokens_of tokens.now) }
{
    let (name, rest) = name_at(tokens)?;
    let rest = behind(rest, Terminal::In)?;
    let rest = behind(rest, Terminal::All)?;
    Some((name, rest))
}

#[tactic(auto, unfolding(crate::specs::Bodies::entries_at))]
fn entries_at(tokens: &[Placed]) -> Option<(&Identifier, &Identifier, &[Placed])>
    ensures { option_map (λ found. (found.0.now, found.1.now, tokens_of found.2.now)) result
        ≡ entries_at (tokens_of tokens.now) }
{
    let rest = behind(tokens, Terminal::Entries)?;
    let (owner, rest) = name_at(rest)?;
    let rest = behind(rest, Terminal::Dot)?;
    let (property, rest) = name_at(rest)?;
    Some((owner, property, rest))
}

// The names of a listing of entries.
#[tactic(auto, using(crate::proofs::Turns::names), unfolding(crate::specs::Bodies::names_by))]
fn names_at<'a>(
    alloc: Global,
    tokens: &'a [Placed],
) -> Result<Option<(Sequence<Identifier>, &'a [Placed])>, Memory>
    ensures { IfOk result (λ found. option_map (λ f. (f.0, tokens_of f.1.now)) found
        ≡ names_by (length (tokens_of tokens.now)) [] (tokens_of tokens.now)) }
{
    let mut names = Sequence::new(alloc);
    let mut rest = tokens;
    for _turn in 0..tokens.len() {
        let Some((name, after)) = name_at(rest) else {
            return Ok(None);
        };
        names.push(name.copy(alloc)?)?;
        match behind(after, Terminal::Comma) {
            Some(after) => rest = after,
            None => {
                let Some(rest) = behind(after, Terminal::In) else {
                    return Ok(None);
                };
                return Ok(Some((names, rest)));
            }
        }
    }
    Ok(None)
}

#[cycle(body)]
#[tactic(auto, unfolding(crate::specs::Bodies::else_by))]
fn else_at<'a>(
    alloc: Global,
    depth: usize,
    high: u32,
    tokens: &'a [Placed],
) -> Result<Found<'a, Option<Items<Statement>>>, Memory>
    ensures { IfOk result (λ found. option_map (λ f. (f.0, f.1, tokens_of f.2.now)) found
        ≡ else_by (block_at depth) high (tokens_of tokens.now)) }
{
    let Some(rest) = behind(tokens, Terminal::Else) else {
        return Ok(Some((None, 0, tokens)));
    };
    let lower = high.saturating_sub(1);
    let Some((block, height, rest)) = block_at(alloc, depth, lower, rest)? else {
        return Ok(None);
    };
    Ok(Some((Some(block), height, rest)))
}

#[cycle(body)]
#[tactic(auto, unfolding(crate::specs::Bodies::if_by))]
fn if_at<'a>(
    alloc: Global,
    depth: usize,
    high: u32,
    tokens: &'a [Placed],
) -> Result<Found<'a, Statement>, Memory>
    ensures { IfOk result (λ found. option_map (λ f. (f.0, f.1, tokens_of f.2.now)) found
        ≡ if_by (level_at depth level.Choice) (block_at depth) high (tokens_of tokens.now)) }
{
    let lower = high.saturating_sub(1);
    let Some((test, height, rest)) = level_at(alloc, depth, lower, Level::Choice, tokens)? else {
        return Ok(None);
    };
    let Some((first, first_height, rest)) = block_at(alloc, depth, lower, rest)? else {
        return Ok(None);
    };
    let Some((second, second_height, rest)) = else_at(alloc, depth, high, rest)? else {
        return Ok(None);
    };
    let blocks = first_height.max(second_height);
    let choice = Statement::If(test, first, second);
    Ok(raised(high, choice, height.max(blocks), rest))
}

#[cycle(body)]
#[tactic(auto, unfolding(crate::specs::Bodies::while_by))]
fn while_at<'a>(
    alloc: Global,
    depth: usize,
    high: u32,
    tokens: &'a [Placed],
) -> Result<Found<'a, Statement>, Memory>
    ensures { IfOk result (λ found. option_map (λ f. (f.0, f.1, tokens_of f.2.now)) found
        ≡ while_by (level_at depth level.Choice) (block_at depth) high (tokens_of tokens.now)) }
{
    let lower = high.saturating_sub(1);
    let Some((test, height, rest)) = level_at(alloc, depth, lower, Level::Choice, tokens)? else {
        return Ok(None);
    };
    let Some((body, body_height, rest)) = block_at(alloc, depth, lower, rest)? else {
        return Ok(None);
    };
    let repeated = Statement::While(test, body);
    Ok(raised(high, repeated, height.max(body_height), rest))
}

#[cycle(body)]
#[tactic(auto, unfolding(crate::specs::Bodies::for_all_by))]
fn for_all_at<'a>(
    alloc: Global,
    depth: usize,
    high: u32,
    name: &Identifier,
    tokens: &'a [Placed],
) -> Result<Found<'a, Statement>, Memory>
    ensures { IfOk result (λ found. option_map (λ f. (f.0, f.1, tokens_of f.2.now)) found
        ≡ for_all_by (block_at depth) high name.now (tokens_of tokens.now)) }
{
    let Some((entity, rest)) = name_at(tokens) else {
        return Ok(None);
    };
    let lower = high.saturating_sub(1);
    let Some((body, height, rest)) = block_at(alloc, depth, lower, rest)? else {
        return Ok(None);
    };
    let listing = Statement::ForAll(name.copy(alloc)?, entity.copy(alloc)?, body);
    Ok(raised(high, listing, height, rest))
}

#[cycle(body)]
#[tactic(auto, unfolding(crate::specs::Bodies::for_entries_by))]
fn for_entries_at<'a>(
    alloc: Global,
    depth: usize,
    high: u32,
    tokens: &'a [Placed],
) -> Result<Found<'a, Statement>, Memory>
    ensures { IfOk result (λ found. option_map (λ f. (f.0, f.1, tokens_of f.2.now)) found
        ≡ for_entries_by (block_at depth) high (tokens_of tokens.now)) }
{
    let Some((names, rest)) = names_at(alloc, tokens)? else {
        return Ok(None);
    };
    let Some((owner, property, rest)) = entries_at(rest) else {
        return Ok(None);
    };
    let lower = high.saturating_sub(1);
    let Some((body, height, rest)) = block_at(alloc, depth, lower, rest)? else {
        return Ok(None);
    };
    let owner = owner.copy(alloc)?;
    let listing = Statement::ForEntries(names, owner, property.copy(alloc)?, body);
    Ok(raised(high, listing, height, rest))
}

#[cycle(body)]
#[tactic(auto, unfolding(crate::specs::Bodies::foreach_by))]
fn foreach_at<'a>(
    alloc: Global,
    depth: usize,
    high: u32,
    tokens: &'a [Placed],
) -> Result<Found<'a, Statement>, Memory>
    ensures { IfOk result (λ found. option_map (λ f. (f.0, f.1, tokens_of f.2.now)) found
        ≡ foreach_by (block_at depth) high (tokens_of tokens.now)) }
{
    match all_at(tokens) {
        Some((name, rest)) => for_all_at(alloc, depth, high, name, rest),
        None => for_entries_at(alloc, depth, high, tokens),
    }
}

#[cycle(body)]
#[tactic(auto, unfolding(crate::specs::Bodies::statement_by))]
fn statement_at<'a>(
    alloc: Global,
    depth: usize,
    high: u32,
    tokens: &'a [Placed],
) -> Result<Found<'a, Statement>, Memory>
    ensures { IfOk result (λ found. option_map (λ f. (f.0, f.1, tokens_of f.2.now)) found
        ≡ statement_by (level_at depth level.Choice) (block_at depth) high (tokens_of tokens.now)) }
{
    let Some((token, rest)) = split(tokens) else {
        return Ok(None);
    };
    match token {
        Token::Name(name) => named_at(alloc, depth, high, name, rest),
        Token::Fixed(Terminal::Var) => define_at(alloc, depth, high, rest),
        Token::Fixed(Terminal::Delete) => delete_at(alloc, high, rest),
        Token::Fixed(Terminal::If) => if_at(alloc, depth, high, rest),
        Token::Fixed(Terminal::While) => while_at(alloc, depth, high, rest),
        Token::Fixed(Terminal::Foreach) => foreach_at(alloc, depth, high, rest),
        Token::Fixed(Terminal::Print) => print_at(alloc, depth, high, rest),
        Token::Fixed(Terminal::Yield) => Ok(yield_at(high, rest)),
        Token::Fixed(Terminal::Flush) => Ok(flush_at(high, rest)),
        _ => Ok(None),
    }
}

// The statements up to the closing brace.
#[cycle(body)]
#[tactic(auto, using(crate::proofs::Turns::bodies), unfolding(crate::specs::Bodies::body_by))]
fn body_at<'a>(
    alloc: Global,
    depth: usize,
    high: u32,
    tokens: &'a [Placed],
) -> Result<Found<'a, Items<Statement>>, Memory>
    ensures { IfOk result (λ found. option_map (λ f. (f.0, f.1, tokens_of f.2.now)) found
        ≡ body_by (length (tokens_of tokens.now))
        (statement_by (level_at depth level.Choice) (block_at depth)) high [] 0
        (tokens_of tokens.now)) }
{
    let mut body = Items::new(alloc);
    let mut height = 0;
    let mut rest = tokens;
    for _turn in 0..tokens.len() {
        if let Some(after) = behind(rest, Terminal::CloseBrace) {
            return Ok(Some((body, height, after)));
        }
        let Some((statement, statement_height, after)) = statement_at(alloc, depth, high, rest)?
        else {
            return Ok(None);
        };
        body.push(statement)?;
        height = height.max(statement_height);
        rest = after;
    }
    Ok(None)
}

// A block, with at most so many blocks, brackets and prefix operators round its parts.
#[cycle(body)]
#[tactic(auto, using(crate::proofs::Turns::block_inner), unfolding(crate::specs::Bodies::block_at))]
pub fn block_at<'a>(
    alloc: Global,
    depth: usize,
    high: u32,
    tokens: &'a [Placed],
) -> Result<Found<'a, Items<Statement>>, Memory>
    ensures { IfOk result (λ found. option_map (λ f. (f.0, f.1, tokens_of f.2.now)) found
        ≡ block_at depth high (tokens_of tokens.now)) }
{
    if depth == 0 {
        return Ok(None);
    }
    match behind(tokens, Terminal::OpenBrace) {
        Some(rest) => body_at(alloc, depth - 1, high, rest),
        None => Ok(None),
    }
}
