// Trees of sources.
ghost use Rattle.std.specs.Prelude.{◌≡◌};
ghost use Rattle.source_tree.specs.Limits.{IsTree};

use crate::program::Program;
use std::marker::Model;

/// A program that some tokens spell and that is within the limits. Contracts see the program.
#[derive(Drop)]
pub struct Tree {
    program: Program,
}

impl Model for Tree {
    ghost use Rattle.source_tree.specs.declared.program.Program.{Program};
    ghost use Rattle.source_tree.specs.Limits.{IsTree};
    ghost use Rattle.source_tree.specs.contracts.program.Program as p;
    ghost use Rattle.std.specs.Coded.{codes};

    ghost Value = { Program };

    ghost coded = { Prim.hlevel (codes, p.the_row.coded) };

    ghost view = { λ t. t.program };

    ghost invariant = { λ t. IsTree t.program };
}

impl Tree {
    pub fn new(program: Program) -> Tree
        requires { IsTree program }
        ensures { result ≡ program }
    {
        Tree { program }
    }

    pub fn program(&self) -> &Program
        ensures program { result.now ≡ self.now }
        ensures tree { IsTree self.now }
    {
        &self.program
    }

    pub fn into_program(self) -> Program
        ensures program { result ≡ self }
        ensures tree { IsTree self }
    {
        let Tree { program } = self;
        program
    }
}
