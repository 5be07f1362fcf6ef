// Checking a source.
ghost use Rattle.std.specs.Prelude.{◌≡◌, ◌≢◌, Result, Err};
ghost use Rattle.cloud_parse.specs.declared.parsed.Parsed.{Parsed};
ghost use Rattle.kind_bodies.specs.declared.fault.KindFault.{KindFault};
ghost use Rattle.kind_bodies.specs.declared.fault.KindFault.TheVariants as fault;
ghost use Rattle.typed_program.specs.declared.program.Program.{Program};
ghost use Rattle.kind_check.specs.KindAnswers.{KindAnswers};

use crate::parts::check_parts;
use cloud_parse::Parsed;
use kind_bodies::KindFault;
use kind_rules::checked_is_program;
use std::alloc::Global;
use typed_program::Program;

/// The typed program of a source. Where a rule of kinds fails, the lowest one that fails at the
/// first item at which one does is told, and the item's line.
pub fn check(alloc: Global, source: Parsed) -> Result<Program, KindFault>
    ensures { KindAnswers source result }
{
    let Parsed { tree, lines } = source;
    let program = tree.into_program();
    let parts = check_parts(alloc, &program, lines.as_slice())?;
    checked_is_program();
    Ok(Program::new(parts))
}

/// Two answers other than want of memory are one, so each comes exactly where it is right.
pub fn one_answer()
    ensures { (source : Parsed) (a b : Result Program KindFault) → KindAnswers source a
        → KindAnswers source b → a ≢ Err fault.Memory → b ≢ Err fault.Memory → a ≡ b }
{}
