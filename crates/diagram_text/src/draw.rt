// Drawing a record, step by step.
ghost use Rattle.std.specs.Prelude.{◌≡◌, ◌+◌, ◌≤◌, ◌<◌, ◌^◌, [], List, length, take, Some};
ghost use Rattle.std.specs.Prelude.{slice_get, option_copied, OnOk};
ghost use Rattle.std.specs.Option.{option_to_list};
ghost use Rattle.cloud_base.specs.Values.{most_clients};
ghost use Rattle.cloud_base.specs.declared.batch.Batch.{Batch};
ghost use Rattle.record_diagram.specs.Steps.{
  fork_if,
  forks_at,
  is_zero,
  not_opening,
  run_sent,
  same_base,
  steps_of,
  tails_from,
};
ghost use Rattle.diagram_text.specs.Agendas.{IsAgenda, base_at, count_at};
ghost use Rattle.diagram_text.specs.Drawable.{IsDrawable};
ghost use Rattle.diagram_text.specs.Parts.{batch_draws, tail_draws};
ghost use Rattle.diagram_text.specs.Pens.{drawing_of};
ghost use Rattle.diagram_text.specs.Taken.{Drew};

use crate::agenda::{Agenda, unjoined};
use crate::history::Record;
use crate::pen::Pen;
use crate::sink::StepSink;
use cloud_base::{Batch, Memory, Tail};
use std::alloc::Global;

// Where so many batches are joined, a fork of the server for a client whose next stretch has them
// as its base.
fn draw_fork<S: StepSink>(
    alloc: Global,
    sink: &mut S,
    pen: &mut Pen,
    agenda: &Agenda,
    joined: usize,
    client: u8,
) -> Result<(), Memory>
    requires client { client < most_clients }
    requires room { pen.old.next + 1 < 2 ^ 32 }
    ensures { OnOk result (Drew S.took (fork_if (same_base joined (base_at agenda.now client))
        client (is_zero (count_at agenda.now client)))
        sink.old (drawing_of pen.old) sink.new (drawing_of pen.new)) }
{
    let is_due = agenda.is_due(client, joined);
    let is_opening = agenda.is_opening(client);
    if is_due {
        pen.fork_for(alloc, sink, client, is_opening)?;
    }
    Ok(())
}

// Such a fork for each client.
fn draw_forks<S: StepSink>(
    alloc: Global,
    sink: &mut S,
    pen: &mut Pen,
    agenda: &Agenda,
    history: &Record,
    joined: usize,
) -> Result<(), Memory>
    requires drawable { IsDrawable history.now }
    requires agenda { IsAgenda history.now.batches history.now.tails
        (take joined history.now.batches) agenda.now }
    requires room { pen.old.next + length history.now.tails < 2 ^ 32 }
    ensures { OnOk result (Drew S.took (forks_at history.now.batches
        (take joined history.now.batches) joined history.now.tails 0)
        sink.old (drawing_of pen.old) sink.new (drawing_of pen.new)) }
{
    let clients = history.tails.len() as u8;
    for client in 0..clients {
        draw_fork(alloc, sink, pen, agenda, joined, client)?;
    }
    Ok(())
}

// The batch at a place runs and is pushed, and then come the forks that have it.
fn draw_batch<S: StepSink>(
    alloc: Global,
    sink: &mut S,
    pen: &mut Pen,
    agenda: &mut Agenda,
    history: &Record,
    place: usize,
) -> Result<(), Memory>
    requires drawable { IsDrawable history.now }
    requires within { place < length history.now.batches }
    requires agenda { IsAgenda history.now.batches history.now.tails
        (take place history.now.batches) agenda.old }
    requires room { pen.old.next + 1 + length history.now.tails < 2 ^ 32 }
    ensures drew { OnOk result ((b : Batch) → slice_get history.now.batches place ≡ Some b
        → Drew S.took (batch_draws history.now.batches history.now.tails
        (take place history.now.batches) b)
        sink.old (drawing_of pen.old) sink.new (drawing_of pen.new)) }
    ensures agenda { OnOk result (IsAgenda history.now.batches history.now.tails
        (take (place + 1) history.now.batches) agenda.new) }
{
    let batch = &history.batches.as_slice()[place];
    let client = batch.client;
    let is_opening = agenda.is_opening(client);
    pen.run_batch(alloc, sink, client, is_opening, batch)?;
    pen.push(alloc, sink, client)?;
    agenda.join(history, place);
    draw_forks(alloc, sink, pen, agenda, history, place + 1)?;
    Ok(())
}

// What was sent runs and is sent, where the record doesn't have it.
fn draw_sent<S: StepSink>(
    alloc: Global,
    sink: &mut S,
    pen: &mut Pen,
    client: u8,
    is_opening: bool,
    sent: Option<&Batch>,
) -> Result<(), Memory>
    requires client { client < most_clients }
    requires room { pen.old.next + 1 < 2 ^ 32 }
    ensures { OnOk result (Drew S.took
        (run_sent client is_opening (option_to_list (option_copied sent.entry)))
        sink.old (drawing_of pen.old) sink.new (drawing_of pen.new)) }
{
    if let Some(sent) = sent {
        pen.run_batch(alloc, sink, client, is_opening, sent)?;
        pen.send(alloc, sink, client)?;
    }
    Ok(())
}

// Whether the last stretch of a client, behind so many batches and what was sent, is pulled.
fn is_pulled(joined: u64, sent: Option<&Batch>, base: Option<u64>) -> bool
    ensures { result ≡ not_opening
        (is_zero (joined + length (option_to_list (option_copied sent.entry)))) base }
{
    let is_opening = joined == 0 && sent.is_none();
    !is_opening && base.is_some()
}

// What is left of a client, where so many of its batches are joined.
fn draw_tail<S: StepSink>(
    alloc: Global,
    sink: &mut S,
    pen: &mut Pen,
    joined: u64,
    client: u8,
    tail: &Tail,
) -> Result<(), Memory>
    requires client { client < most_clients }
    requires room { pen.old.next + 1 < 2 ^ 32 }
    ensures { OnOk result ((own : List Batch) → length own ≡ joined
        → Drew S.took (tail_draws own tail.entry.now client)
        sink.old (drawing_of pen.old) sink.new (drawing_of pen.new)) }
{
    let sent = unjoined(tail, joined);
    let is_opening = joined == 0;
    draw_sent(alloc, sink, pen, client, is_opening, sent)?;
    let pulls = is_pulled(joined, sent, tail.now.base);
    pen.run(alloc, sink, client, pulls, &tail.now.before, &tail.now.rest)?;
    Ok(())
}

// What is left of each client, where all batches are joined.
fn draw_tails<S: StepSink>(
    alloc: Global,
    sink: &mut S,
    pen: &mut Pen,
    agenda: &Agenda,
    history: &Record,
) -> Result<(), Memory>
    requires drawable { IsDrawable history.now }
    requires agenda { IsAgenda history.now.batches history.now.tails history.now.batches
        agenda.now }
    requires room { pen.old.next + length history.now.tails < 2 ^ 32 }
    ensures { OnOk result (Drew S.took (tails_from history.now.batches history.now.tails 0)
        sink.old (drawing_of pen.old) sink.new (drawing_of pen.new)) }
{
    for (client, tail) in history.tails.as_slice().iter().enumerate() {
        let client = client as u8;
        draw_tail(alloc, sink, pen, agenda.joined(client), client, tail)?;
    }
    Ok(())
}

/// The sink takes the steps of a record.
pub fn draw<S: StepSink>(alloc: Global, sink: &mut S, history: &Record) -> Result<(), Memory>
    requires { IsDrawable history.now }
    ensures { OnOk result ((first : S) → S.took first [] sink.old
        → S.took first (steps_of history.now.batches history.now.tails) sink.new) }
{
    let mut pen = Pen::new();
    let mut agenda = Agenda::new(history);
    draw_forks(alloc, sink, &mut pen, &agenda, history, 0)?;
    for place in 0..history.batches.len() {
        draw_batch(alloc, sink, &mut pen, &mut agenda, history, place)?;
    }
    draw_tails(alloc, sink, &mut pen, &agenda, history)?;
    Ok(())
}
