// The revisions of a drawing, and how it goes on.
ghost use Rattle.std.specs.Prelude.{◌≡◌, ◌+◌, ◌<◌, ◌^◌, OnOk, IfOk};
ghost use Rattle.cloud_base.specs.Values.{most_clients};
ghost use Rattle.batch_history.specs.Batches.{stretch_of};
ghost use Rattle.record_diagram.specs.Steps.{
  event_step,
  events_on,
  first_drawing,
  fork_for,
  pull,
  pull_if,
  push,
  run_stretch,
  send,
  ◌then◌,
};
ghost use Rattle.diagram_text.specs.Pens.{drawing_of};
ghost use Rattle.diagram_text.specs.Taken.{Drew};

use crate::sink::StepSink;
use cloud_base::{Batch, Event, EventList, Memory};
use revision_diagram::Step;
use std::alloc::Global;

/// The most clients of a record.
pub const MOST_CLIENTS: usize = 8;

// The next free number of a revision, and of each client its standing revision and the one that it
// received.
#[derive(Drop)]
pub struct Pen {
    pub next: u32,
    pub standing: [u32; MOST_CLIENTS],
    pub received: [u32; MOST_CLIENTS],
}

// The step of an event on a revision.
fn event_step(alloc: Global, revision: u32, event: &Event) -> Result<Step, Memory>
    ensures { IfOk result (λ step. step ≡ event_step revision event.now) }
{
    Ok(match event {
        Event::Do(update) => Step::Do(revision, update.copied()),
        Event::Ask(query, answer) => Step::Ask(revision, query.copied(), answer.copy(alloc)?),
        Event::Say(answer) => Step::Say(revision, answer.copy(alloc)?),
        Event::Yield => Step::Mark(revision, false),
        Event::Flush => Step::Mark(revision, true),
    })
}

impl Pen {
    // The server alone.
    pub fn new() -> Pen
        ensures { drawing_of result ≡ first_drawing }
    {
        Pen {
            next: 1,
            standing: [0; MOST_CLIENTS],
            received: [0; MOST_CLIENTS],
        }
    }

    // The next free number, which is taken.
    fn number(&mut self) -> u32
        requires { self.old.next + 1 < 2 ^ 32 }
        ensures number { result ≡ self.old.next }
        ensures next { self.new.next ≡ self.old.next + 1 }
        ensures standing { self.new.standing ≡ self.old.standing }
        ensures received { self.new.received ≡ self.old.received }
    {
        let number = self.next;
        self.next += 1;
        number
    }

    // Events, on the client's standing revision.
    fn events<S: StepSink>(
        &self,
        alloc: Global,
        sink: &mut S,
        client: u8,
        events: &EventList,
    ) -> Result<(), Memory>
        requires { client < most_clients }
        ensures { OnOk result (Drew S.took (events_on client events.now)
            sink.old (drawing_of self.now) sink.new (drawing_of self.now)) }
    {
        let revision = self.standing[usize::from(client)];
        for event in events.as_slice() {
            sink.take(alloc, self.next, event_step(alloc, revision, event)?)?;
        }
        Ok(())
    }

    // The client's standing revision is joined into the received one, which stands from then on.
    fn pull<S: StepSink>(&mut self, alloc: Global, sink: &mut S, client: u8) -> Result<(), Memory>
        requires { client < most_clients }
        ensures { OnOk result (Drew S.took (pull client)
            sink.old (drawing_of self.old) sink.new (drawing_of self.new)) }
    {
        let place = usize::from(client);
        let received = self.received[place];
        sink.take(alloc, self.next, Step::Join(received, self.standing[place]))?;
        self.standing[place] = received;
        Ok(())
    }

    fn pull_if<S: StepSink>(
        &mut self,
        alloc: Global,
        sink: &mut S,
        pulls: bool,
        client: u8,
    ) -> Result<(), Memory>
        requires { client < most_clients }
        ensures { OnOk result (Drew S.took (pull_if pulls client)
            sink.old (drawing_of self.old) sink.new (drawing_of self.new)) }
    {
        if pulls {
            self.pull(alloc, sink, client)?;
        }
        Ok(())
    }

    // A fork of the client's standing revision stands, and the old one is sent.
    pub fn send<S: StepSink>(
        &mut self,
        alloc: Global,
        sink: &mut S,
        client: u8,
    ) -> Result<(), Memory>
        requires client { client < most_clients }
        requires room { self.old.next + 1 < 2 ^ 32 }
        ensures { OnOk result (Drew S.took (send client)
            sink.old (drawing_of self.old) sink.new (drawing_of self.new)) }
    {
        let place = usize::from(client);
        sink.take(alloc, self.next, Step::Fork(self.standing[place], client))?;
        self.standing[place] = self.number();
        Ok(())
    }

    // A fork of the client's standing revision stands, and the old one is joined into the server.
    pub fn push<S: StepSink>(
        &mut self,
        alloc: Global,
        sink: &mut S,
        client: u8,
    ) -> Result<(), Memory>
        requires client { client < most_clients }
        requires room { self.old.next + 1 < 2 ^ 32 }
        ensures { OnOk result (Drew S.took (push client)
            sink.old (drawing_of self.old) sink.new (drawing_of self.new)) }
    {
        let pushed = self.standing[usize::from(client)];
        self.send(alloc, sink, client)?;
        sink.take(alloc, self.next, Step::Join(0, pushed))?;
        Ok(())
    }

    // A fork of the server for the client: an opening one stands, and another one is received.
    pub fn fork_for<S: StepSink>(
        &mut self,
        alloc: Global,
        sink: &mut S,
        client: u8,
        is_opening: bool,
    ) -> Result<(), Memory>
        requires client { client < most_clients }
        requires room { self.old.next + 1 < 2 ^ 32 }
        ensures { OnOk result (Drew S.took (fork_for client is_opening)
            sink.old (drawing_of self.old) sink.new (drawing_of self.new)) }
    {
        let place = usize::from(client);
        sink.take(alloc, self.next, Step::Fork(0, client))?;
        let forked = self.number();
        if is_opening {
            self.standing[place] = forked;
        } else {
            self.received[place] = forked;
        }
        Ok(())
    }

    // What the client did before a pull, the pull, and what it did since.
    pub fn run<S: StepSink>(
        &mut self,
        alloc: Global,
        sink: &mut S,
        client: u8,
        pulls: bool,
        before: &EventList,
        rest: &EventList,
    ) -> Result<(), Memory>
        requires { client < most_clients }
        ensures { OnOk result (Drew S.took
            (events_on client before.now then pull_if pulls client then events_on client rest.now)
            sink.old (drawing_of self.old) sink.new (drawing_of self.new)) }
    {
        self.events(alloc, sink, client, before)?;
        self.pull_if(alloc, sink, pulls, client)?;
        self.events(alloc, sink, client, rest)?;
        Ok(())
    }

    // A batch of the client, pulled unless it is its opening one.
    pub fn run_batch<S: StepSink>(
        &mut self,
        alloc: Global,
        sink: &mut S,
        client: u8,
        is_opening: bool,
        batch: &Batch,
    ) -> Result<(), Memory>
        requires { client < most_clients }
        ensures { OnOk result (Drew S.took
            (run_stretch client is_opening (stretch_of batch.now))
            sink.old (drawing_of self.old) sink.new (drawing_of self.new)) }
    {
        let pulls = !is_opening;
        self.run(alloc, sink, client, pulls, &batch.before, &batch.rest)?;
        Ok(())
    }
}
