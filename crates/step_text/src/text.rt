// The lines of a report, and their parts.
ghost use Rattle.std.specs.Prelude.{◌≡◌, ◌++◌, ◌+◌, ◌≤◌, length, OnOk, IfOk, suc};
ghost use Rattle.step_text.specs.Values.{answer_text};
ghost use Rattle.step_text.specs.Cells.{update_text, query_text};
ghost use Rattle.step_text.specs.Text.{step_line, steps_text, end_text, ends_text, report_text};

use crate::cell::{write_query, write_update};
use crate::step_line::{client_name, write_end, write_end_line, write_step};
use crate::value::write_answer;
use cloud_base::{Answer, End, Memory, Name, Query, Schema, Update};
use revision_diagram::Step;
use std::alloc::Global;

/// An update as in a `do` line.
pub fn update_text(alloc: Global, schema: &Schema, update: &Update) -> Result<Vec<u8>, Memory>
    ensures { IfOk result (λ text. text.items ≡ update_text schema.now update.now) }
{
    let mut out = Vec::new(alloc);
    write_update(&mut out, schema, update)?;
    Ok(out)
}

/// A query as in an `ask` line.
pub fn query_text(alloc: Global, schema: &Schema, query: &Query) -> Result<Vec<u8>, Memory>
    ensures { IfOk result (λ text. text.items ≡ query_text schema.now query.now) }
{
    let mut out = Vec::new(alloc);
    write_query(&mut out, schema, query)?;
    Ok(out)
}

/// A value as in an `ask` or a `say` line.
pub fn answer_text(alloc: Global, answer: &Answer) -> Result<Vec<u8>, Memory>
    ensures { IfOk result (λ text. text.items ≡ answer_text answer.now) }
{
    let mut out = Vec::new(alloc);
    write_answer(&mut out, answer)?;
    Ok(out)
}

/// The line of a step, with its line feed. `next` is the next free number of a revision, which a
/// fork takes.
pub fn step_text(
    alloc: Global,
    schema: &Schema,
    names: &[Name],
    next: u64,
    step: &Step,
) -> Result<Vec<u8>, Memory>
    ensures { IfOk result (λ text. text.items ≡ step_line schema.now names.now next step.now) }
{
    let mut out = Vec::new(alloc);
    write_step(&mut out, schema, names, next, step)?;
    Ok(out)
}

/// How a client ended, as in the last part of its `end` line.
pub fn end_text(alloc: Global, end: End) -> Result<Vec<u8>, Memory>
    ensures { IfOk result (λ text. text.items ≡ end_text end) }
{
    let mut out = Vec::new(alloc);
    write_end(&mut out, end)?;
    Ok(out)
}

fn write_steps(
    out: &mut Vec<u8>,
    schema: &Schema,
    names: &[Name],
    steps: &[Step],
) -> Result<(), Memory>
    ensures { OnOk result (out.new.items
        ≡ out.old.items ++ steps_text schema.now names.now 1 steps.now) }
{
    let mut forks: u64 = 0;
    for step in steps {
        write_step(out, schema, names, forks + 1, step)?;
        if let Step::Fork(_, _) = step {
            forks += 1;
        }
    }
    Ok(())
}

fn write_ends(out: &mut Vec<u8>, names: &[Name], ends: &[End]) -> Result<(), Memory>
    ensures { OnOk result (out.new.items ≡ out.old.items ++ ends_text names.now 0 ends.now) }
{
    for (client, end) in ends.iter().enumerate() {
        write_end_line(out, client_name(names, client), *end)?;
    }
    Ok(())
}

/// The lines of a report: one for each step, and then one for the end of each client, by number.
///
/// A property, an entity or a client that isn't there has the empty name.
pub fn lines(
    alloc: Global,
    schema: &Schema,
    names: &[Name],
    steps: &[Step],
    ends: &[End],
) -> Result<Vec<u8>, Memory>
    ensures { IfOk result (λ text. text.items
        ≡ report_text schema.now names.now steps.now ends.now) }
{
    let mut out = Vec::new(alloc);
    write_steps(&mut out, schema, names, steps)?;
    write_ends(&mut out, names, ends)?;
    Ok(out)
}
