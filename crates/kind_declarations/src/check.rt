// Checking the declarations of a source.
ghost use Rattle.std.specs.Prelude.{◌≡◌, ◌≤◌};
ghost use Rattle.source_tree.specs.Limits.{names_count, most_names};
ghost use Rattle.kind_declarations.specs.Checks.{SettlesDeclarations, SettlesRules};

use crate::rules::declaration_rule;
use crate::schema::{schema, taken_names};
use kind_bodies::{KindFault, first_line, next_lines};
use kind_names::Declared;
use source_tree::Declaration;
use std::alloc::Global;

// The lines behind the declarations.
fn check_rules<'a>(
    declarations: &[Declaration],
    lines: &'a [usize],
) -> Result<&'a [usize], KindFault>
    ensures { SettlesRules declarations.now lines.now result }
{
    let mut rest = lines;
    for (place, declaration) in declarations.iter().enumerate() {
        if let Some(rule) = declaration_rule(&declarations[..place], declaration) {
            let line = first_line(rest);
            return Err(KindFault::Rule { rule, line });
        }
        rest = next_lines(rest);
    }
    Ok(rest)
}

/// What is declared, and the lines of the items behind the declarations. `lines` has the line of
/// each item of the source.
#[tactic(auto, using(crate::proofs::Bounds::made_few))]
pub fn check_declarations<'a>(
    alloc: Global,
    declarations: &[Declaration],
    lines: &'a [usize],
) -> Result<(Declared, &'a [usize]), KindFault>
    requires { names_count declarations.now ≤ most_names }
    ensures { SettlesDeclarations declarations.now lines.now result }
{
    let rest = check_rules(declarations, lines)?;
    let schema = schema(alloc, declarations)?;
    let taken = taken_names(alloc, declarations)?;
    Ok((Declared::new(alloc, schema, taken)?, rest))
}
