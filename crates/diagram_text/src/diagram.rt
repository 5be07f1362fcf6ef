// The steps of a record, and their text.
ghost use Rattle.std.specs.Prelude.{◌≡◌, IfOk};
ghost use Rattle.record_diagram.specs.Steps.{steps_of};
ghost use Rattle.step_text.specs.Text.{report_text, steps_text};
ghost use Rattle.diagram_text.specs.Drawable.{IsDrawable};

use crate::draw::draw;
use crate::history::Record;
use crate::sink::StepLines;
use cloud_base::{Memory, Name, Schema, Sequence};
use revision_diagram::StepList;
use std::alloc::Global;
use step_text::lines;
use typed_program::Program;

/// The steps of a record: the forks of each client at the start, the batches in the order in which
/// they were joined, and what is left of each client.
pub fn build(alloc: Global, history: &Record) -> Result<StepList, Memory>
    requires { IsDrawable history.now }
    ensures { IfOk result (λ steps. steps ≡ steps_of history.now.batches history.now.tails) }
{
    let mut steps = Sequence::new(alloc);
    draw(alloc, &mut steps, history)?;
    Ok(steps)
}

// The names of a program's clients.
fn copy_names(alloc: Global, program: &Program) -> Result<Sequence<Name>, Memory>
    ensures { IfOk result (λ names. names ≡ program.now.names) }
{
    // This opens the program, so that the proof learns that its names are names.
    let _ = program.schema();
    let mut names = Sequence::new(alloc);
    let clients = program.clients() as u8;
    for client in 0..clients {
        names.push(Name::new(alloc, program.name(client).as_bytes())?)?;
    }
    Ok(names)
}

// The lines of the steps of a record.
fn step_lines(
    alloc: Global,
    schema: &Schema,
    names: &[Name],
    history: &Record,
) -> Result<Vec<u8>, Memory>
    requires { IsDrawable history.now }
    ensures { IfOk result (λ text. text.items ≡ steps_text schema.now names.now 1
        (steps_of history.now.batches history.now.tails)) }
{
    let mut lines = StepLines {
        schema,
        names,
        text: Vec::new(alloc),
    };
    draw(alloc, &mut lines, history)?;
    let StepLines { text, .. } = lines;
    Ok(text)
}

// These lines, and those of the ends.
pub fn record_lines(
    alloc: Global,
    schema: &Schema,
    names: &[Name],
    history: &Record,
) -> Result<Vec<u8>, Memory>
    requires { IsDrawable history.now }
    ensures { IfOk result (λ text. text.items ≡ report_text schema.now names.now
        (steps_of history.now.batches history.now.tails) history.now.ends) }
{
    let mut text = step_lines(alloc, schema, names, history)?;
    let ends = lines(alloc, schema, names, &[], history.ends.as_slice())?;
    text.extend_from_slice(&ends)?;
    Ok(text)
}

/// The report of a run of a program: the lines of the steps of its record, and those of its ends.
///
/// The steps are not kept, so that it takes the memory of the text alone. A property, an entity or
/// a client that the program doesn't have is printed without a name.
pub fn report(alloc: Global, program: &Program, history: &Record) -> Result<Vec<u8>, Memory>
    requires { IsDrawable history.now }
    ensures { IfOk result (λ text. text.items ≡ report_text program.now.schema program.now.names
        (steps_of history.now.batches history.now.tails) history.now.ends) }
{
    let names = copy_names(alloc, program)?;
    record_lines(alloc, program.schema(), names.as_slice(), history)
}
