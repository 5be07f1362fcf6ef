// A stack of the symbols that are still open.
ghost use Rattle.std.specs.Prelude.{◌≡◌, ◌++◌, IfOk, reverse};
ghost use Rattle.syntax_judge.specs.Tables.{is_same_kind, is_nullable, are_nullable, table_at};
ghost use Rattle.syntax_judge.specs.Tables.{advance_by, advance, outcome, if_found};

use crate::grammar::productions;
use crate::kind::Kind;
use crate::symbol::Symbol;
use cloud_base::Memory;

// As deep as the grammar needs: from a statement's value to a factor.
const MOST_DEEP: u8 = 9;

fn is_nullable(symbol: Symbol) -> bool
    ensures { result ≡ is_nullable symbol }
{
    match symbol {
        Symbol::Token(_) => false,
        Symbol::Open(part) => {
            for way in productions(part) {
                if way.is_empty() {
                    return true;
                }
            }
            false
        }
    }
}

fn is_same(wanted: Kind, kind: Kind) -> bool
    ensures { result ≡ is_same_kind wanted kind }
{
    match (wanted, kind) {
        (Kind::Name, Kind::Name) => true,
        (Kind::Number, Kind::Number) => true,
        (Kind::Text, Kind::Text) => true,
        (Kind::Fixed(a), Kind::Fixed(b)) => a == b,
        _ => false,
    }
}

// Puts symbols on a stack, the first on top.
fn push_all(stack: &mut Vec<Symbol>, symbols: &[Symbol]) -> Result<(), Memory>
    ensures { IfOk result (λ _. stack.new.items ≡ stack.old.items ++ reverse symbols.now) }
{
    let mut i = symbols.len();
    while i > 0 {
        i -= 1;
        stack.push(symbols[i])?;
    }
    Ok(())
}

// Puts on the stack what is left of a symbol behind a token; no, and leaves the stack, where it
// can't begin with that.
#[cycle(take)]
fn take(depth: u8, stack: &mut Vec<Symbol>, symbol: Symbol, kind: Kind) -> Result<bool, Memory>
    ensures { IfOk result (λ found. (found, stack.new.items)
        ≡ outcome stack.old.items (table_at depth symbol kind)) }
{
    match symbol {
        Symbol::Token(wanted) => Ok(is_same(wanted, kind)),
        Symbol::Open(part) => {
            if depth == 0 {
                return Ok(false);
            }
            for way in productions(part) {
                if take_way(depth - 1, stack, way, kind)? {
                    return Ok(true);
                }
            }
            Ok(false)
        }
    }
}

// The same of several symbols.
#[cycle(take)]
fn take_way(depth: u8, stack: &mut Vec<Symbol>, way: &[Symbol], kind: Kind) -> Result<bool, Memory>
    ensures { IfOk result (λ found. (found, stack.new.items)
        ≡ outcome stack.old.items (advance_by (table_at depth) way.now kind)) }
{
    let below = stack.len();
    for (i, symbol) in way.iter().enumerate() {
        push_all(stack, &way[i + 1..])?;
        if take(depth, stack, *symbol, kind)? {
            return Ok(true);
        }
        stack.truncate(below);
        if !is_nullable(*symbol) {
            return Ok(false);
        }
    }
    Ok(false)
}

/// Takes a token from the stack; no, where nothing on it can begin with that.
pub fn take_token(stack: &mut Vec<Symbol>, kind: Kind) -> Result<bool, Memory>
    ensures { IfOk result (λ found.
        advance (reverse stack.old.items) kind ≡ if_found found (reverse stack.new.items)) }
{
    while let Some(symbol) = stack.pop() {
        if take(MOST_DEEP, stack, symbol, kind)? {
            return Ok(true);
        }
        if !is_nullable(symbol) {
            return Ok(false);
        }
    }
    Ok(false)
}

/// Whether each symbol may stand for nothing.
pub fn may_end(stack: &[Symbol]) -> bool
    ensures { result ≡ are_nullable stack.now }
{
    stack.iter().all(|symbol| is_nullable(*symbol))
}
