// Parsing a text.
ghost use Rattle.std.specs.Prelude.{◌≡◌, ◌≢◌, List, ℕ, Result, Err};
ghost use Rattle.cloud_parse.specs.declared.fault.ParseFault.{ParseFault};
ghost use Rattle.cloud_parse.specs.declared.fault.ParseFault.TheVariants as fault;
ghost use Rattle.cloud_parse.specs.declared.parsed.Parsed.{Parsed};
ghost use Rattle.cloud_parse.specs.Parse.{ParseAnswers};

use crate::fault::{ParseFault, Which};
use crate::parsed::Parsed;
use crate::tree::tree_of;
use source_reader::{item_lines, one_tree};
use source_tokens::{Position, has_too_many_open, position_of, scan, scanned_tokens};
use std::alloc::Global;
use syntax_judge::{fault_of, one_fault};
use syntax_trees::some_tree;

/// The most bytes of a source text.
pub const MOST_SOURCE_BYTES: usize = 262_144;

/// The tree of a source text, and the lines of its items. Where it has none, or one beyond the
/// limits, the first of these is told: `Bytes`, `Brackets`, the place of the syntax fault, and then
/// the other limits in their order.
pub fn parse(alloc: Global, text: &[u8]) -> Result<Parsed, ParseFault>
    ensures { ParseAnswers text.now result }
{
    if text.len() > MOST_SOURCE_BYTES {
        return Err(ParseFault::Limit(Which::Bytes));
    }
    some_tree();
    scanned_tokens();
    let found = scan(alloc, text)?;
    let tokens = found.tokens.as_slice();
    if has_too_many_open(tokens) {
        return Err(ParseFault::Limit(Which::Brackets));
    }
    if let Some(at) = fault_of(alloc, text, &found)? {
        let Position { line, column } = position_of(text, at);
        return Err(ParseFault::Syntax { line, column });
    }
    let tree = tree_of(alloc, tokens)?;
    let lines = item_lines(alloc, tokens)?;
    Ok(Parsed { tree, lines })
}

/// Two answers other than want of memory are one, so each comes exactly where it is right.
pub fn one_answer()
    ensures { (text : List ℕ) (a b : Result Parsed ParseFault) → ParseAnswers text a
        → ParseAnswers text b → a ≢ Err fault.Memory → b ≢ Err fault.Memory → a ≡ b }
{
    one_tree();
    one_fault();
}
