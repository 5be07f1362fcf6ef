// How steps and ends are printed.
ghost use Rattle.std.specs.Prelude.{◌≡◌, ◌++◌, [], ◌∷◌, OnOk, codes, decimal};
ghost use Rattle.step_text.specs.Cells.{query_text};
ghost use Rattle.step_text.specs.Values.{answer_text};
ghost use Rattle.step_text.specs.Text.{client_name, mark_text, step_line, end_text, end_line};

use crate::cell::{write_query, write_update};
use crate::value::{write_answer, write_natural};
use cloud_base::{Answer, End, Memory, Name, Query, Schema};
use revision_diagram::Step;

pub fn client_name(names: &[Name], client: usize) -> &str
    ensures { result.now ≡ client_name names.now client }
{
    match names.get(client) {
        Some(name) => name.as_str(),
        None => "",
    }
}

// A word, the number of a revision and a space.
fn write_start(out: &mut Vec<u8>, word: &[u8], revision: u32) -> Result<(), Memory>
    ensures { OnOk result (out.new.items
        ≡ out.old.items ++ (word.now ++ decimal revision ++ codes " ")) }
{
    out.extend_from_slice(word)?;
    write_natural(out, u64::from(revision))?;
    out.push(b' ')?;
    Ok(())
}

fn write_fork(out: &mut Vec<u8>, revision: u32, next: u64, name: &str) -> Result<(), Memory>
    ensures { OnOk result (out.new.items ≡ out.old.items ++ (codes "fork " ++ decimal revision
        ++ codes " " ++ decimal next ++ codes " " ++ name.now)) }
{
    write_start(out, b"fork ", revision)?;
    write_natural(out, next)?;
    out.push(b' ')?;
    out.extend_from_slice(name.as_bytes())?;
    Ok(())
}

fn write_ask(
    out: &mut Vec<u8>,
    schema: &Schema,
    revision: u32,
    query: &Query,
    answer: &Answer,
) -> Result<(), Memory>
    ensures { OnOk result (out.new.items ≡ out.old.items ++ (codes "ask " ++ decimal revision
        ++ codes " " ++ query_text schema.now query.now ++ codes " = " ++ answer_text answer.now)) }
{
    write_start(out, b"ask ", revision)?;
    write_query(out, schema, query)?;
    out.extend_from_slice(b" = ")?;
    write_answer(out, answer)
}

fn write_mark(out: &mut Vec<u8>, flush: bool) -> Result<(), Memory>
    ensures { OnOk result (out.new.items ≡ out.old.items ++ mark_text flush) }
{
    let text: &[u8] = if flush { b"flush" } else { b"yield" };
    out.extend_from_slice(text)?;
    Ok(())
}

/// The line of a step before which `next` is the next free number of a revision.
pub fn write_step(
    out: &mut Vec<u8>,
    schema: &Schema,
    names: &[Name],
    next: u64,
    step: &Step,
) -> Result<(), Memory>
    ensures { OnOk result (out.new.items
        ≡ out.old.items ++ step_line schema.now names.now next step.now) }
{
    match step {
        Step::Fork(revision, client) => {
            write_fork(
                out,
                *revision,
                next,
                client_name(names, usize::from(*client)),
            )?;
        }
        Step::Join(revision, joined) => {
            write_start(out, b"join ", *revision)?;
            write_natural(out, u64::from(*joined))?;
        }
        Step::Do(revision, update) => {
            write_start(out, b"do ", *revision)?;
            write_update(out, schema, update)?;
        }
        Step::Ask(revision, query, answer) => {
            write_ask(out, schema, *revision, query, answer)?;
        }
        Step::Say(revision, answer) => {
            write_start(out, b"say ", *revision)?;
            write_answer(out, answer)?;
        }
        Step::Mark(revision, flush) => {
            write_start(out, b"mark ", *revision)?;
            write_mark(out, *flush)?;
        }
    }
    out.push(b'\n')?;
    Ok(())
}

pub fn write_end(out: &mut Vec<u8>, end: End) -> Result<(), Memory>
    ensures { OnOk result (out.new.items ≡ out.old.items ++ end_text end) }
{
    match end {
        End::Done => out.extend_from_slice(b"Done")?,
        End::Spent => out.extend_from_slice(b"Spent")?,
        End::Trap { line } => {
            out.extend_from_slice(b"Trap ")?;
            write_natural(out, u64::from(line))?;
        }
    }
    Ok(())
}

/// The line of a client's end.
pub fn write_end_line(out: &mut Vec<u8>, name: &str, end: End) -> Result<(), Memory>
    ensures { OnOk result (out.new.items ≡ out.old.items ++ end_line name.now end) }
{
    out.extend_from_slice(b"end ")?;
    out.extend_from_slice(name.as_bytes())?;
    out.push(b' ')?;
    write_end(out, end)?;
    out.push(b'\n')?;
    Ok(())
}
