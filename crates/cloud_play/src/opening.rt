// Where the run of a program begins.
ghost use Rattle.std.specs.Prelude.{◌≡◌, ◌≤◌, ◌<◌, ℕ, [], length, IfOk, Some, slice_get};
ghost use Rattle.plain_vm.specs.Code.{CodeOf};
ghost use Rattle.cloud_base.specs.Values.{most_clients};
ghost use Rattle.cloud_play.specs.Openings.{AreCodes, AreOpened, IsOpenedAs};

use client_runner::Runner;
use cloud_base::{Memory, Schema};
use code_gen::compile;
use plain_vm::Code;
use server_core::Server;
use session_core::Session;
use std::alloc::Global;
use typed_program::Program;

/// The code of each client.
pub fn compile_all(alloc: Global, program: &Program) -> Result<Vec<Code>, Memory>
    ensures { IfOk result (λ codes. AreCodes program.now codes.items) }
{
    // This opens the program, so that the proof learns what it keeps.
    let _ = program.schema();
    let mut codes = Vec::new(alloc);
    let clients = program.clients() as u8;
    for client in 0..clients {
        codes.push(compile(alloc, program, client)?)?;
    }
    Ok(codes)
}

// The runner of a client, over a session that has seen nothing.
fn open_runner<'a>(
    alloc: Global,
    code: &'a Code,
    schema: &Schema,
    server: &mut Server,
    client: u8,
) -> Result<Runner<'a>, Memory>
    requires schema { code.now.schema ≡ schema.now }
    requires client { client < most_clients }
    requires none { server.old.joined.list ≡ [] }
    ensures opened { IfOk result (IsOpenedAs code.now client server.old.joined) }
    ensures same { server.new ≡ server.old }
{
    let past = server.front()?;
    let session = Session::open(alloc, schema, client, past)?;
    let runner = Runner::new(alloc, code, client, session)?;
    runner.keeps();
    Ok(runner)
}

/// A runner for each client.
pub fn open_all<'a>(
    alloc: Global,
    codes: &'a [Code],
    schema: &Schema,
    server: &mut Server,
) -> Result<Vec<Runner<'a>>, Memory>
    requires schema { (c : ℕ) (code : CodeOf) → slice_get codes.now c ≡ Some code →
        code.schema ≡ schema.now }
    requires few { length codes.now ≤ most_clients }
    requires none { server.old.joined.list ≡ [] }
    ensures opened { IfOk result (λ runners.
        AreOpened codes.now server.old.joined runners.items) }
    ensures same { server.new ≡ server.old }
{
    let mut runners = Vec::new(alloc);
    let clients = codes.len() as u8;
    for client in 0..clients {
        let code = &codes[client as usize];
        runners.push(open_runner(alloc, code, schema, server, client)?)?;
    }
    Ok(runners)
}
