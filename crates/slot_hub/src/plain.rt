// A hub of one thread.
ghost use Rattle.std.specs.Prelude.{◌≡◌, ◌<◌, ◌≤◌, true, false, Option, None, length, replicate};
ghost use Rattle.std.specs.Prelude.{IfOk, slice_index_or, slice_set, is_none};
ghost use Rattle.std.specs.Option.{ForSome};
ghost use Rattle.cloud_base.specs.Values.{most_clients};
ghost use Rattle.slot_hub.specs.Runs.{Carries, clients_of};
ghost use Rattle.slot_hub.specs.Trades.{
  TradesOut,
  TradesIn,
  TakesServer,
  GivesServer,
  taken_round,
};
ghost use Rattle.slot_hub.specs.Plain.{seen_of};

use crate::traits::{Busy, Homed, Hub, Numbered, Run};
use cloud_base::Memory;
use std::alloc::Global;
use std::marker::{Model, PhantomData};
use std::mem;

/// The boxes of all clients and the server, in one place. It tells its boxes and is never busy.
#[derive(Drop)]
pub struct PlainHub<N: Run, S: Homed, P: Numbered, R: Numbered> {
    outboxes: Vec<Option<P>>,
    inboxes: Vec<Option<R>>,
    rounds: Vec<u64>,
    server: Option<S>,
    of: PhantomData<N>,
}

impl<N: Run, S: Homed, P: Numbered, R: Numbered> Model for PlainHub<N, S, P, R> {
    ghost use Rattle.slot_hub.specs.Plain.{Held, HeldOf};

    ghost Value = { Held S P R };

    ghost view = { λ h. record {
      outboxes = h.outboxes.items;
      inboxes = h.inboxes.items;
      rounds = h.rounds.items;
      server = h.server;
    } };

    ghost invariant = { λ h. HeldOf P.client_of P.of_run R.client_of R.of_run S.of_run N.name
        (record {
          outboxes = h.outboxes.items;
          inboxes = h.inboxes.items;
          rounds = h.rounds.items;
          server = h.server;
        }) };
}

fn empty_boxes<T: Drop>(alloc: Global, clients: u8) -> Result<Vec<Option<T>>, Memory>
    ensures { IfOk result (λ boxes. boxes.items ≡ replicate clients None) }
{
    let mut boxes = Vec::new(alloc);
    for _ in 0..clients {
        boxes.push(None)?;
    }
    Ok(boxes)
}

fn no_rounds(alloc: Global, clients: u8) -> Result<Vec<u64>, Memory>
    ensures { IfOk result (λ rounds. rounds.items ≡ replicate clients 0) }
{
    let mut rounds = Vec::new(alloc);
    for _ in 0..clients {
        rounds.push(0)?;
    }
    Ok(rounds)
}

// Puts `new` into a client's box, and gives what that held.
fn swap<T: Drop>(boxes: &mut Vec<Option<T>>, client: u8, new: Option<T>) -> Option<T>
    requires { client < length boxes.old.items }
    ensures held { result ≡ slice_index_or boxes.old.items client None }
    ensures swapped { boxes.new.items ≡ slice_set boxes.old.items client new }
{
    let place = &mut boxes[client as usize];
    mem::replace(place, new)
}

// The round of the last reply that was taken, after one more trade with the inbox.
fn last_taken<R: Numbered>(new: &Option<R>, held: &Option<R>, before: u64) -> u64
    ensures { result ≡ taken_round R.round_of new.now held.now before }
{
    match (new, held) {
        (None, Some(reply)) => reply.round(),
        _ => before,
    }
}

impl<N: Run, S: Homed, P: Numbered, R: Numbered> PlainHub<N, S, P, R> {
    /// All boxes are empty, no reply was taken, and the server is at home.
    pub fn new(alloc: Global, clients: u8, server: S) -> Result<PlainHub<N, S, P, R>, Memory>
        requires few { 1 ≤ clients }
        requires most { clients ≤ most_clients }
        requires clients { clients_of N.name ≡ clients }
        requires of { S.of_run server N.name }
        ensures outboxes { IfOk result (λ hub. hub.outboxes ≡ replicate clients None) }
        ensures inboxes { IfOk result (λ hub. hub.inboxes ≡ replicate clients None) }
        ensures rounds { IfOk result (λ hub. hub.rounds ≡ replicate clients 0) }
        ensures server { IfOk result (λ hub. hub.server ≡ Some server) }
    {
        Ok(PlainHub {
            outboxes: empty_boxes(alloc, clients)?,
            inboxes: empty_boxes(alloc, clients)?,
            rounds: no_rounds(alloc, clients)?,
            server: Some(server),
            of: PhantomData,
        })
    }
}

impl<N: Run, S: Homed, P: Numbered, R: Numbered> Hub<S, P, R> for PlainHub<N, S, P, R> {
    ghost seen = { seen_of N.name };

    fn trade_out(&mut self, client: u8, new: Option<P>) -> Result<Option<P>, Busy<Option<P>>>
        requires client { client < clients_of N.name }
        requires new { ForSome new (Carries P.client_of P.of_run N.name client) }
        ensures { TradesOut P.client_of P.of_run client new result (seen_of N.name self.old)
            (seen_of N.name self.new) }
    {
        Ok(swap(&mut self.outboxes, client, new))
    }

    fn trade_in(&mut self, client: u8, new: Option<R>) -> Result<Option<R>, Busy<Option<R>>>
        requires client { client < clients_of N.name }
        requires new { ForSome new (Carries R.client_of R.of_run N.name client) }
        ensures { TradesIn R.client_of R.round_of R.of_run client new result
            (seen_of N.name self.old) (seen_of N.name self.new) }
    {
        let place = client as usize;
        self.rounds[place] = last_taken(&new, &self.inboxes[place], self.rounds[place]);
        Ok(swap(&mut self.inboxes, client, new))
    }

    fn taken(&self, client: u8) -> u64
        requires { client < clients_of N.name }
        ensures { result ≡ slice_index_or self.now.rounds client 0 }
    {
        self.rounds[client as usize]
    }

    fn take_server(&mut self) -> Result<S, Busy<()>>
        requires { is_none self.old.server ≡ false }
        ensures { TakesServer S.of_run result (seen_of N.name self.old) (seen_of N.name self.new) }
    {
        match self.server.take() {
            Some(server) => Ok(server),
            None => unreachable!(),
        }
    }

    fn give_server(&mut self, server: S)
        requires took { is_none self.old.server ≡ true }
        requires of { S.of_run server N.name }
        ensures { GivesServer server (seen_of N.name self.old) (seen_of N.name self.new) }
    {
        self.server = Some(server);
    }
}
