// The limits that a program must keep.
ghost use Rattle.std.specs.Prelude.{◌≡◌, ◌≤◌, ◌↔◌, ◌-◌, ◌^◌, ◌∷◌, [], Some, min, length, IsTrue};
ghost use Rattle.std.specs.List.{AllByRecursion};
ghost use Rattle.source_tokens.specs.Scans.{tokens_of};
ghost use Rattle.source_tree.specs.Limits.{IsNumber, IsShort, names_in, names_count, steps_in};
ghost use Rattle.source_tree.specs.Limits.{steps_count, most_names, most_steps};
ghost use Rattle.source_tree.specs.Words.{numbers_of, texts_of};

use cloud_base::MOST_TEXT_BYTES;
use source_tokens::{Placed, Token};
use source_tree::{Declaration, Item, Program};

const MOST_NUMBER: u64 = 9_223_372_036_854_775_807;

const MOST_NAMES: usize = 256;

const MOST_STEPS: u64 = 100_000;

fn is_number_small(token: &Token) -> bool
    ensures { IsTrue result ↔ AllByRecursion IsNumber (numbers_of (token.now ∷ [])) }
{
    match token {
        Token::Number(number) => *number <= MOST_NUMBER,
        _ => true,
    }
}

/// Whether no number is above 9223372036854775807.
pub fn are_numbers_small(tokens: &[Placed]) -> bool
    ensures { IsTrue result ↔ AllByRecursion IsNumber (numbers_of (tokens_of tokens.now)) }
{
    for placed in tokens {
        if !is_number_small(&placed.token) {
            return false;
        }
    }
    true
}

fn is_text_short(token: &Token) -> bool
    ensures { IsTrue result ↔ AllByRecursion IsShort (texts_of (token.now ∷ [])) }
{
    match token {
        Token::Text(bytes) => bytes.len() <= MOST_TEXT_BYTES,
        _ => true,
    }
}

/// Whether no text has more than 128 bytes.
pub fn are_texts_short(tokens: &[Placed]) -> bool
    ensures { IsTrue result ↔ AllByRecursion IsShort (texts_of (tokens_of tokens.now)) }
{
    for placed in tokens {
        if !is_text_short(&placed.token) {
            return false;
        }
    }
    true
}

fn names_in(declaration: &Declaration) -> usize
    ensures { result ≡ min (names_in declaration.now) (2 ^ 64 - 1) }
{
    match declaration {
        Declaration::Global(_) => 1,
        Declaration::Array(_, keys, properties) => {
            1usize
                .saturating_add(keys.len())
                .saturating_add(properties.len())
        }
        Declaration::Entity(_, keys, properties) => {
            1usize
                .saturating_add(keys.len())
                .saturating_add(properties.len())
        }
    }
}

/// Whether the declarations give at most 256 names.
pub fn are_names_few(declarations: &[Declaration]) -> bool
    ensures { IsTrue result ↔ (names_count declarations.now ≤ most_names) }
{
    let mut room = MOST_NAMES;
    for declaration in declarations {
        let names = names_in(declaration);
        if names > room {
            return false;
        }
        room -= names;
    }
    true
}

fn steps_in(item: &Item) -> u64
    ensures { result ≡ steps_in item.now }
{
    match item {
        Item::Steps(_, count) => *count,
        Item::Serve(_, _) => 0,
    }
}

fn are_steps_few_of(items: &[Item]) -> bool
    ensures { IsTrue result ↔ (steps_count (Some items.now) ≤ most_steps) }
{
    let mut room = MOST_STEPS;
    for item in items {
        let steps = steps_in(item);
        if steps > room {
            return false;
        }
        room -= steps;
    }
    true
}

/// Whether the numbers of the schedule add up to at most 100,000.
pub fn are_steps_few(program: &Program) -> bool
    ensures { IsTrue result ↔ (steps_count program.now.schedule ≤ most_steps) }
{
    match &program.schedule {
        Some(items) => are_steps_few_of(items.as_slice()),
        None => true,
    }
}
