// The listing of a program.
ghost use Rattle.std.specs.Prelude.{◌≡◌, ◌<◌, ◌++◌, length, IfOk, OnOk};
ghost use Rattle.code_gen.specs.Listings.{IsListed, listing_of};

use crate::compiler::compile;
use cloud_base::Memory;
use plain_vm::print_code;
use std::alloc::Global;
use typed_program::Program;

// The line of a client's name, and the lines of its code.
fn write_client(
    alloc: Global,
    out: &mut Vec<u8>,
    program: &Program,
    client: u8,
) -> Result<(), Memory>
    requires { client < length program.now.names }
    ensures { OnOk result (IsListed program.now client out.old.items out.new.items) }
{
    out.extend_from_slice(b"client ")?;
    out.extend_from_slice(program.name(client).as_bytes())?;
    out.push(b'\n')?;
    let code = compile(alloc, program, client)?;
    let lines = print_code(alloc, &code)?;
    out.extend_from_slice(lines.as_slice())?;
    Ok(())
}

/// The listing of a program: for each client its name and its code.
pub fn listing(alloc: Global, program: &Program) -> Result<Vec<u8>, Memory>
    ensures { IfOk result (λ text. text.items ≡ listing_of program.now) }
{
    let mut out = Vec::new(alloc);
    for client in 0..program.clients() as u8 {
        write_client(alloc, &mut out, program, client)?;
    }
    Ok(out)
}
