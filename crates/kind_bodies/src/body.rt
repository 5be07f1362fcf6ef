// Checking a client's body.
ghost use Rattle.std.specs.Prelude.{[]};
ghost use Rattle.std.specs.List.{AllByRecursion};
ghost use Rattle.source_tree.specs.Words.{body_words};
ghost use Rattle.kind_rules.specs.Statements.{settle_block};
ghost use Rattle.kind_rules.specs.Words.{IsFitWord};
ghost use Rattle.kind_bodies.specs.Settles.{SettlesBody};

use crate::fault::KindFault;
use crate::statement::block;
use kind_names::{Declared, Variables};
use source_tree::Statement;
use sqlite_items::Items;
use std::alloc::Global;
use typed_program::Body;

/// The typed body of a client, where no rule of kinds fails in it, and the lines of the items
/// behind it. Checking ends at the first item that fails.
pub fn check_body<'a>(
    alloc: Global,
    declared: &Declared,
    body: &Items<Statement>,
    lines: &'a [usize],
) -> Result<(Body, &'a [usize]), KindFault>
    requires { AllByRecursion IsFitWord (body_words body.now) }
    ensures { SettlesBody (settle_block declared.now body.now [] lines.now) result }
{
    let mut variables = Variables::new(alloc);
    block(alloc, declared, &mut variables, lines, body.as_slice())
}
