// Reading declarations. Each reader gives a value and the tokens behind it.
ghost use Rattle.std.specs.Prelude.{◌≡◌, [], length, option_map, IfOk};
ghost use Rattle.source_tokens.specs.Scans.{tokens_of};
ghost use Rattle.source_reader.specs.Sources.{cell_at, key_type_at, key_at, key_list_by};
ghost use Rattle.source_reader.specs.Sources.{property_at, properties_by, properties_at};
ghost use Rattle.source_reader.specs.Sources.{entity_keys_at, global_at, array_at, entity_at};
ghost use Rattle.source_reader.specs.Sources.{declaration_at, declared_by, schema_at};

use crate::token::{behind, name_at, split};
use cloud_base::{CellType, Memory, Sequence};
use source_tokens::{Placed, Terminal, Token};
use source_tree::{Declaration, Key, KeyType, Property};
use std::alloc::Global;

#[tactic(auto, unfolding(crate::specs::Sources::cell_at))]
fn cell_at(tokens: &[Placed]) -> Option<(CellType, &[Placed])>
    ensures { option_map (λ found. (found.0, tokens_of found.1.now)) result
        ≡ cell_at (tokens_of tokens.now) }
{
    match split(tokens)? {
        (Token::Fixed(Terminal::CInt), rest) => Some((CellType::Int, rest)),
        (Token::Fixed(Terminal::CString), rest) => Some((CellType::Text, rest)),
        _ => None,
    }
}

#[tactic(auto, unfolding(crate::specs::Sources::key_type_at))]
fn key_type_at<'a>(
    alloc: Global,
    tokens: &'a [Placed],
) -> Result<Option<(KeyType, &'a [Placed])>, Memory>
    ensures { IfOk result (λ found. option_map (λ f. (f.0, tokens_of f.1.now)) found
        ≡ key_type_at (tokens_of tokens.now)) }
{
    match split(tokens) {
        Some((Token::Fixed(Terminal::Int), rest)) => Ok(Some((KeyType::Int, rest))),
        Some((Token::Fixed(Terminal::String), rest)) => Ok(Some((KeyType::Text, rest))),
        Some((Token::Name(entity), rest)) => Ok(Some((KeyType::Entity(entity.copy(alloc)?), rest))),
        _ => Ok(None),
    }
}

#[tactic(auto, unfolding(crate::specs::Sources::key_at))]
fn key_at<'a>(alloc: Global, tokens: &'a [Placed]) -> Result<Option<(Key, &'a [Placed])>, Memory>
    ensures { IfOk result (λ found. option_map (λ f. (f.0, tokens_of f.1.now)) found
        ≡ key_at (tokens_of tokens.now)) }
{
    let Some((name, rest)) = name_at(tokens) else {
        return Ok(None);
    };
    let Some(rest) = behind(rest, Terminal::Colon) else {
        return Ok(None);
    };
    let Some((of, rest)) = key_type_at(alloc, rest)? else {
        return Ok(None);
    };
    let name = name.copy(alloc)?;
    Ok(Some((Key { name, of }, rest)))
}

// The declared keys, up to the closing bracket.
#[tactic(auto, using(crate::proofs::Loop::keys), unfolding(crate::specs::Sources::key_list_by))]
fn key_list_at<'a>(
    alloc: Global,
    tokens: &'a [Placed],
) -> Result<Option<(Sequence<Key>, &'a [Placed])>, Memory>
    ensures { IfOk result (λ found. option_map (λ f. (f.0, tokens_of f.1.now)) found
        ≡ key_list_by (length (tokens_of tokens.now)) [] (tokens_of tokens.now)) }
{
    let mut keys = Sequence::new(alloc);
    let mut rest = tokens;
    for _turn in 0..tokens.len() {
        let Some((key, after)) = key_at(alloc, rest)? else {
            return Ok(None);
        };
        keys.push(key)?;
        match behind(after, Terminal::Comma) {
            Some(after) => rest = after,
            None => {
                let Some(rest) = behind(after, Terminal::CloseBracket) else {
                    return Ok(None);
                };
                return Ok(Some((keys, rest)));
            }
        }
    }
    Ok(None)
}

#[tactic(auto, unfolding(crate::specs::Sources::property_at))]
fn property_at<'a>(
    alloc: Global,
    tokens: &'a [Placed],
) -> Result<Option<(Property, &'a [Placed])>, Memory>
    ensures { IfOk result (λ found. option_map (λ f. (f.0, tokens_of f.1.now)) found
        ≡ property_at (tokens_of tokens.now)) }
{
    let Some((name, rest)) = name_at(tokens) else {
        return Ok(None);
    };
    let Some(rest) = behind(rest, Terminal::Colon) else {
        return Ok(None);
    };
    let Some((cell, rest)) = cell_at(rest) else {
        return Ok(None);
    };
    let name = name.copy(alloc)?;
    Ok(Some((Property { name, cell }, rest)))
}

// The properties, up to the closing brace.
#[tactic(auto, using(crate::proofs::Loop::listed), unfolding(crate::specs::Sources::properties_by))]
fn property_list_at<'a>(
    alloc: Global,
    tokens: &'a [Placed],
) -> Result<Option<(Sequence<Property>, &'a [Placed])>, Memory>
    ensures { IfOk result (λ found. option_map (λ f. (f.0, tokens_of f.1.now)) found
        ≡ properties_by (length (tokens_of tokens.now)) [] (tokens_of tokens.now)) }
{
    let mut properties = Sequence::new(alloc);
    let mut rest = tokens;
    for _turn in 0..tokens.len() {
        if let Some(after) = behind(rest, Terminal::CloseBrace) {
            return Ok(Some((properties, after)));
        }
        let Some((property, after)) = property_at(alloc, rest)? else {
            return Ok(None);
        };
        properties.push(property)?;
        match behind(after, Terminal::Semicolon) {
            Some(after) => rest = after,
            None => {
                let Some(rest) = behind(after, Terminal::CloseBrace) else {
                    return Ok(None);
                };
                return Ok(Some((properties, rest)));
            }
        }
    }
    Ok(None)
}

#[tactic(auto, unfolding(crate::specs::Sources::properties_at))]
fn properties_at<'a>(
    alloc: Global,
    tokens: &'a [Placed],
) -> Result<Option<(Sequence<Property>, &'a [Placed])>, Memory>
    ensures { IfOk result (λ found. option_map (λ f. (f.0, tokens_of f.1.now)) found
        ≡ properties_at (tokens_of tokens.now)) }
{
    let Some(rest) = behind(tokens, Terminal::OpenBrace) else {
        return Ok(None);
    };
    property_list_at(alloc, rest)
}

#[tactic(auto, unfolding(crate::specs::Sources::entity_keys_at))]
fn entity_keys_at<'a>(
    alloc: Global,
    tokens: &'a [Placed],
) -> Result<Option<(Sequence<Key>, &'a [Placed])>, Memory>
    ensures { IfOk result (λ found. option_map (λ f. (f.0, tokens_of f.1.now)) found
        ≡ entity_keys_at (tokens_of tokens.now)) }
{
    match behind(tokens, Terminal::OpenBracket) {
        Some(rest) => key_list_at(alloc, rest),
        None => Ok(Some((Sequence::new(alloc), tokens))),
    }
}

#[tactic(auto, unfolding(crate::specs::Sources::global_at))]
fn global_at<'a>(
    alloc: Global,
    tokens: &'a [Placed],
) -> Result<Option<(Declaration, &'a [Placed])>, Memory>
    ensures { IfOk result (λ found. option_map (λ f. (f.0, tokens_of f.1.now)) found
        ≡ global_at (tokens_of tokens.now)) }
{
    let Some((property, rest)) = property_at(alloc, tokens)? else {
        return Ok(None);
    };
    let Some(rest) = behind(rest, Terminal::Semicolon) else {
        return Ok(None);
    };
    Ok(Some((Declaration::Global(property), rest)))
}

#[tactic(auto, unfolding(crate::specs::Sources::array_at))]
fn array_at<'a>(
    alloc: Global,
    tokens: &'a [Placed],
) -> Result<Option<(Declaration, &'a [Placed])>, Memory>
    ensures { IfOk result (λ found. option_map (λ f. (f.0, tokens_of f.1.now)) found
        ≡ array_at (tokens_of tokens.now)) }
{
    let Some((name, rest)) = name_at(tokens) else {
        return Ok(None);
    };
    let Some(rest) = behind(rest, Terminal::OpenBracket) else {
        return Ok(None);
    };
    let Some((keys, rest)) = key_list_at(alloc, rest)? else {
        return Ok(None);
    };
    let Some((properties, rest)) = properties_at(alloc, rest)? else {
        return Ok(None);
    };
    let array = Declaration::Array(name.copy(alloc)?, keys, properties);
    Ok(Some((array, rest)))
}

#[tactic(auto, unfolding(crate::specs::Sources::entity_at))]
fn entity_at<'a>(
    alloc: Global,
    tokens: &'a [Placed],
) -> Result<Option<(Declaration, &'a [Placed])>, Memory>
    ensures { IfOk result (λ found. option_map (λ f. (f.0, tokens_of f.1.now)) found
        ≡ entity_at (tokens_of tokens.now)) }
{
    let Some((name, rest)) = name_at(tokens) else {
        return Ok(None);
    };
    let Some((keys, rest)) = entity_keys_at(alloc, rest)? else {
        return Ok(None);
    };
    let Some((properties, rest)) = properties_at(alloc, rest)? else {
        return Ok(None);
    };
    let entity = Declaration::Entity(name.copy(alloc)?, keys, properties);
    Ok(Some((entity, rest)))
}

#[tactic(auto, unfolding(crate::specs::Sources::declaration_at))]
fn declaration_at<'a>(
    alloc: Global,
    tokens: &'a [Placed],
) -> Result<Option<(Declaration, &'a [Placed])>, Memory>
    ensures { IfOk result (λ found. option_map (λ f. (f.0, tokens_of f.1.now)) found
        ≡ declaration_at (tokens_of tokens.now)) }
{
    match split(tokens) {
        Some((Token::Fixed(Terminal::Global), rest)) => global_at(alloc, rest),
        Some((Token::Fixed(Terminal::Array), rest)) => array_at(alloc, rest),
        Some((Token::Fixed(Terminal::Entity), rest)) => entity_at(alloc, rest),
        _ => Ok(None),
    }
}

// The declarations, up to the closing brace.
#[tactic(auto, using(crate::proofs::Loop::declared), unfolding(crate::specs::Sources::declared_by))]
fn declarations_at<'a>(
    alloc: Global,
    tokens: &'a [Placed],
) -> Result<Option<(Sequence<Declaration>, &'a [Placed])>, Memory>
    ensures { IfOk result (λ found. option_map (λ f. (f.0, tokens_of f.1.now)) found
        ≡ declared_by (length (tokens_of tokens.now)) [] (tokens_of tokens.now)) }
{
    let mut declarations = Sequence::new(alloc);
    let mut rest = tokens;
    for _turn in 0..tokens.len() {
        if let Some(after) = behind(rest, Terminal::CloseBrace) {
            return Ok(Some((declarations, after)));
        }
        let Some((declaration, after)) = declaration_at(alloc, rest)? else {
            return Ok(None);
        };
        declarations.push(declaration)?;
        rest = after;
    }
    Ok(None)
}

#[tactic(auto, unfolding(crate::specs::Sources::schema_at))]
pub fn schema_at<'a>(
    alloc: Global,
    tokens: &'a [Placed],
) -> Result<Option<(Sequence<Declaration>, &'a [Placed])>, Memory>
    ensures { IfOk result (λ found. option_map (λ f. (f.0, tokens_of f.1.now)) found
        ≡ schema_at (tokens_of tokens.now)) }
{
    let Some(rest) = behind(tokens, Terminal::Schema) else {
        return Ok(None);
    };
    let Some(rest) = behind(rest, Terminal::OpenBrace) else {
        return Ok(None);
    };
    declarations_at(alloc, rest)
}
