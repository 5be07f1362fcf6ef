// From the body of a client to its code.
ghost use Rattle.std.specs.Prelude.{◌≡◌, ◌≤◌, ◌<◌, length, IfOk};
ghost use Rattle.typed_program.specs.Kinds.{most_slots};
ghost use Rattle.code_gen.specs.Compile.{code_of};
ghost use Rattle.code_gen.specs.Compiled.{Compiled};
ghost use Rattle.code_gen.specs.Reach.{block_reach};

use crate::emitter::Emitter;
use cloud_base::{Memory, Schema};
use plain_vm::{Code, Instruction, Instructions};
use std::alloc::Global;
use typed_program::{Program, Statement};

// The instructions of a body, the end behind them.
fn instructions(alloc: Global, schema: &Schema, body: &[Statement]) -> Result<Instructions, Memory>
    requires { block_reach schema.now body.now ≤ most_slots }
    ensures { IfOk result (λ code. code ≡ code_of schema.now body.now) }
{
    let mut emitter = Emitter::new(alloc);
    emitter.block(schema, body)?;
    emitter.push(Instruction::End)?;
    Ok(emitter.finish())
}

/// The code of a client's body.
pub fn compile(alloc: Global, program: &Program, client: u8) -> Result<Code, Memory>
    requires { client < length program.now.names }
    ensures { IfOk result (Compiled program.now client) }
{
    let schema = program.schema();
    let body = program.body(client);
    let instructions = instructions(alloc, schema, body.as_slice())?;
    Ok(Code::new(schema.copy(alloc)?, instructions))
}
