// The tree of accepted tokens.
ghost use Rattle.std.specs.Prelude.{◌≡◌, ◌≤◌, None, Some, IfOk, IfErr, MatchOption, length};
ghost use Rattle.std.specs.List.{AllByRecursion};
ghost use Rattle.source_tokens.specs.Brackets.{most_open};
ghost use Rattle.source_tokens.specs.Scans.{tokens_of, IsToken};
ghost use Rattle.source_tree.specs.Limits.{IsTree, IsWithin};
ghost use Rattle.source_tree.specs.Programs.{SpellsProgram};
ghost use Rattle.source_tree.specs.declared.program.Program.{Program};
ghost use Rattle.source_tree.specs.Programs.{HasTree};
ghost use Rattle.cloud_parse.specs.Parse.{Keeps, KeepsBefore, TreeFault};
ghost use Rattle.cloud_parse.specs.declared.fault.Which.TheVariants as which;

use crate::fault::{ParseFault, Which};
use crate::limits::{are_names_few, are_numbers_small, are_steps_few, are_texts_short};
use source_reader::{Reading, read};
use source_tokens::Placed;
use source_tree::{Program, Tree, spelled_words};
use std::alloc::Global;

const MOST_CLIENTS: usize = 8;

// The first limit that numbers and texts break.
fn broken_by_words(tokens: &[Placed]) -> Option<Which>
    ensures { (p : Program) → SpellsProgram p (tokens_of tokens.now)
        → MatchOption result (Keeps which.Number p × Keeps which.Text p)
        (λ w. KeepsBefore w p × ¬ Keeps w p) }
{
    spelled_words();
    if !are_numbers_small(tokens) {
        return Some(Which::Number);
    }
    if !are_texts_short(tokens) {
        return Some(Which::Text);
    }
    None
}

// The first limit that names, clients and the schedule break.
fn broken_by_counts(program: &Program) -> Option<Which>
    ensures { Keeps which.Number program.now × Keeps which.Text program.now
        × Keeps which.Height program.now
        → MatchOption result (IsWithin program.now)
        (λ w. KeepsBefore w program.now × ¬ Keeps w program.now) }
{
    if !are_names_few(program.declarations.as_slice()) {
        return Some(Which::Names);
    }
    if program.clients.len() > MOST_CLIENTS {
        return Some(Which::Clients);
    }
    if !are_steps_few(program) {
        return Some(Which::Steps);
    }
    None
}

/// The tree of tokens that spell a program, where it keeps the limits.
pub fn tree_of(alloc: Global, tokens: &[Placed]) -> Result<Tree, ParseFault>
    requires tree { HasTree (tokens_of tokens.now) }
    requires tokens { AllByRecursion IsToken (tokens_of tokens.now) }
    requires brackets { most_open 0 (tokens_of tokens.now) ≤ 64 }
    ensures spelled { IfOk result (λ tree. SpellsProgram tree (tokens_of tokens.now)) }
    ensures within { IfOk result IsWithin }
    ensures broken { IfErr result (TreeFault (tokens_of tokens.now)) }
{
    if let Some(which) = broken_by_words(tokens) {
        return Err(ParseFault::Limit(which));
    }
    let Reading::Tree(program) = read(alloc, tokens)? else {
        return Err(ParseFault::Limit(Which::Height));
    };
    match broken_by_counts(&program) {
        Some(which) => Err(ParseFault::Limit(which)),
        None => Ok(Tree::new(program)),
    }
}
