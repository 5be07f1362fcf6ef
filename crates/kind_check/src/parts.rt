// The parts of a source together.
ghost use Rattle.std.specs.Prelude.{◌≡◌, None, MatchResult};
ghost use Rattle.source_tree.specs.Limits.{IsTree};
ghost use Rattle.kind_rules.specs.Answers.{first_fault};
ghost use Rattle.kind_rules.specs.Programs.{items_of, typed};
ghost use Rattle.kind_check.specs.Faults.{TellsFault};

use crate::clients::{check_clients, client_names};
use crate::schedule::{check_schedule, items_in};
use kind_bodies::KindFault;
use kind_declarations::check_declarations;
use kind_rules::words_are_fit;
use source_tree::Program;
use std::alloc::Global;
use typed_program::Parts;

/// The parts of the typed program.
pub fn check_parts(alloc: Global, program: &Program, lines: &[usize]) -> Result<Parts, KindFault>
    requires { IsTree program.now }
    ensures { MatchResult result
        (λ parts. (first_fault (items_of program.now lines.now) ≡ None)
        × (parts ≡ typed program.now lines.now))
        (λ fault. TellsFault (items_of program.now lines.now) fault) }
{
    words_are_fit();
    let clients = program.clients.as_slice();
    let (declared, rest) = check_declarations(alloc, program.declarations.as_slice(), lines)?;
    let (bodies, rest) = check_clients(alloc, &declared, clients, rest)?;
    let schedule = check_schedule(alloc, clients, items_in(&program.schedule), rest)?;
    Ok(Parts {
        schema: declared.into_schema(),
        names: client_names(alloc, clients)?,
        bodies,
        schedule,
    })
}
