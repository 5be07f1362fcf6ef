// What is read of the tokens of a source.
ghost use Rattle.std.specs.Prelude.{◌≡◌, List, IfOk};
ghost use Rattle.source_tokens.specs.Scans.{tokens_of};
ghost use Rattle.source_tokens.specs.declared.token.Token.{Token};
ghost use Rattle.source_tree.specs.declared.program.Program.{Program};
ghost use Rattle.source_tree.specs.Programs.{SpellsProgram};
ghost use Rattle.source_tree.specs.Programs.{HasTree};
ghost use Rattle.source_reader.specs.Answers.{IsReading};
ghost use Rattle.source_reader.specs.declared.reading.Reading.{Reading};

use crate::program::program_at;
use cloud_base::Memory;
use source_tokens::Placed;
use source_tree::Program;
use std::alloc::Global;

const MOST_HEIGHT: u32 = 32;

/// The tree of a source, or that the body of a client is higher than 32.
#[derive(Drop)]
pub enum Reading {
    Tree(Program),
    TooHigh,
}

/// Reads tokens that some tree has. It goes as deep as brackets nest, and 32 deeper, so the caller
/// sees that few brackets are open at once.
#[tactic(auto, using(crate::proofs::Unique::high_read))]
pub fn read(alloc: Global, tokens: &[Placed]) -> Result<Reading, Memory>
    requires { HasTree (tokens_of tokens.now) }
    ensures { IfOk result (λ reading. IsReading (tokens_of tokens.now) reading) }
{
    match program_at(alloc, tokens.len(), MOST_HEIGHT, tokens)? {
        Some(program) => Ok(Reading::Tree(program)),
        None => Ok(Reading::TooHigh),
    }
}

/// Tokens spell at most one tree, and are read in one way.
pub fn one_tree()
    ensures trees { (p q : Program) (tokens : List Token) → SpellsProgram p tokens →
        SpellsProgram q tokens → p ≡ q }
    ensures readings { (x y : Reading) (p : Program) (tokens : List Token) →
        SpellsProgram p tokens → IsReading tokens x → IsReading tokens y → x ≡ y }
{}
