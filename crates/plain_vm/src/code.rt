// Codes, valid by their type.
ghost use Rattle.std.specs.Prelude.{◌≡◌};
ghost use Rattle.plain_vm.specs.Valid.{IsCode};

use crate::instruction::{Instruction, Instructions};
use cloud_base::Schema;
use std::marker::Model;

/// A list of instructions that is valid for a schema. Contracts see both.
#[derive(Drop)]
pub struct Code {
    schema: Schema,
    instructions: Instructions,
}

impl Model for Code {
    ghost use Rattle.plain_vm.specs.Code.{CodeOf};
    ghost use Rattle.plain_vm.specs.Valid.{IsCode};

    ghost Value = { CodeOf };

    ghost view = { λ c. record { schema = c.schema; instructions = c.instructions } };

    ghost invariant = { λ c. IsCode c.schema c.instructions };
}

impl Code {
    /// It takes no memory.
    pub fn new(schema: Schema, instructions: Instructions) -> Code
        requires { IsCode schema instructions }
        ensures schema { result.schema ≡ schema }
        ensures instructions { result.instructions ≡ instructions }
    {
        Code {
            schema,
            instructions,
        }
    }

    pub fn schema(&self) -> &Schema
        ensures { result.now ≡ self.now.schema }
    {
        &self.schema
    }

    pub fn instructions(&self) -> &[Instruction]
        ensures instructions { result.now ≡ self.now.instructions }
        ensures valid { IsCode self.now.schema self.now.instructions }
    {
        self.instructions.as_slice()
    }
}
