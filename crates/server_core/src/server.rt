// The server of a run.
ghost use Rattle.std.specs.Prelude.{◌≡◌, ◌≤◌, ◌<◌, ◌↔◌, ◌⊎◌, ◌≢◌, ◌+◌, ℕ, List, [], ◌∷◌, ◌++◌, None};
ghost use Rattle.std.specs.Prelude.{Some, IfOk, OnOk, IfErr, OnErr, IsTrue, length, replicate};
ghost use Rattle.std.specs.Option.{ForSome};
ghost use mathlib.Core.List.{IsPrefix};
ghost use Rattle.cloud_base.specs.Alike.{IsPart};
ghost use Rattle.cloud_base.specs.Shaped.{Fit};
ghost use Rattle.cloud_base.specs.Values.{most_clients};
ghost use Rattle.cloud_base.specs.declared.schema.Schema.{Schema as Schemas};
ghost use Rattle.cloud_base.specs.declared.update.Update.{Update};
ghost use Rattle.change_lists.specs.Effects.{IsEffect};
ghost use Rattle.schema_fj.specs.States.{StateStands};
ghost use Rattle.slot_hub.specs.Runs.{Named};
ghost use Rattle.packet_codec.specs.Runs.{push_of_run, reply_of_run};
ghost use Rattle.server_core.specs.Servers.{
  IsServing,
  IsFor,
  IsServerOf,
  Answers,
  GoesOn,
  after_push,
  joined_with,
  last_of,
  last_round,
  own_front,
  own_batches,
};

use change_lists::Change;
use cloud_base::{Batch, BatchList, Memory, Schema, Sequence};
use front_table::{Front, Writer};
use packet_bytes::write_reply;
use packet_codec::{Fronts, Push, Reply, bounded_records, packets_are_spelled, pushes_are_taken};
use schema_fj::State;
use slot_hub::{Homed, Numbered};
use std::alloc::Global;
use std::marker::Model;
use std::sync::Arc;

/// A push that was not answered for want of memory.
#[derive(Drop)]
pub struct NoRoom {
    pub back: Push,
}

/// The server: the record of all batches that it joined, and the state that they come to.
///
/// It joins each round of a client once, and knows by tokens what its clients had seen. By its type
/// its record is sound and answered right, and its state is that of the record.
#[derive(Drop)]
pub struct Server {
    alloc: Global,
    schema: Arc<Schema, Global>,
    state: State,
    batches: BatchList,
    writer: Writer<Batch>,
    owns: Vec<Option<Front<Batch>>>,
}

impl Model for Server {
    ghost use Rattle.std.specs.Prelude.{◌≡◌};
    ghost use Rattle.std.specs.Arc.{arc_value};
    ghost use Rattle.server_core.specs.Servers.{Serving, IsRecord, StandsFor};

    ghost Value = { Serving };

    ghost view = { λ s. record {
      schema = arc_value s.schema;
      joined = s.writer;
      owns = s.owns.items;
    } };

    ghost invariant = { λ s. (s.batches ≡ s.writer.list)
        × IsRecord (arc_value s.schema) s.writer.list s.owns.items
        × StandsFor (arc_value s.schema) s.writer.list s.state };
}

// A client's own batches, none of which is there yet, for each client.
fn no_batches(alloc: Global, clients: u8) -> Result<Vec<Option<Front<Batch>>>, Memory>
    ensures { IfOk result (λ owns. owns.items ≡ replicate clients None) }
{
    let mut owns = Vec::new(alloc);
    for _ in 0..clients {
        owns.push(None)?;
    }
    Ok(owns)
}

// The state after a change of a client that had seen part of the log, forked, so that nothing done
// counts as done since.
fn after_change(state: &State, change: &Change) -> Result<State, Memory>
    ensures { IfOk result (λ next. (schema : Schemas) (log before after : List Update) →
        StateStands schema state.now log [] → IsEffect schema before after change.now →
        IsPart before log → Fit schema (log ++ after) →
        StateStands schema next (log ++ after) []) }
{
    let mut next = state.fork()?;
    next.join_change(change)?;
    next.fork()
}

// The state after a push.
fn after_push_of(state: &State, push: &Push) -> Result<State, Memory>
    ensures { IfOk result (GoesOn push.now state.now) }
{
    let change = push.change()?;
    after_change(state, &change)
}

// Puts a push's batch behind the others, and gives the state after it.
fn put_behind(
    alloc: Global,
    batches: &mut BatchList,
    state: &State,
    push: &Push,
) -> Result<State, Memory>
    ensures next { IfOk result (GoesOn push.now state.now) }
    ensures list { OnOk result (batches.new ≡ batches.old ++ push.now.batch ∷ []) }
    ensures err { OnErr result (batches.new ≡ batches.old) }
{
    let batch = push.batch().copy(alloc)?;
    let next = after_push_of(state, push)?;
    batches.push(batch)?;
    Ok(next)
}

// The number of a client's batches.
fn own_len(own: &Option<Front<Batch>>) -> u64
    ensures { result ≡ length (own_batches own.now) }
{
    match own {
        Some(front) => front.len(),
        None => 0,
    }
}

// A second front of a client's own batches.
fn copy_own(owns: &mut Vec<Option<Front<Batch>>>, client: u8) -> Result<Front<Batch>, Memory>
    requires client { client < length owns.old.items }
    requires some { own_front client owns.old.items ≢ None }
    ensures copy { IfOk result (λ copy. Some copy ≡ own_front client owns.old.items) }
    ensures same { owns.new.items ≡ owns.old.items }
{
    match &mut owns[client as usize] {
        Some(front) => front.copy(),
        None => unreachable!(),
    }
}

impl Server {
    /// The server of no batches.
    pub fn open(alloc: Global, schema: &Schema, clients: u8) -> Result<Server, Memory>
        requires some { 1 ≤ clients }
        requires most { clients ≤ most_clients }
        ensures schema { IfOk result (λ server. server.schema ≡ schema.now) }
        ensures joined { IfOk result (λ server. server.joined.list ≡ []) }
        ensures owns { IfOk result (λ server. server.owns ≡ replicate clients None) }
    {
        let owns = no_batches(alloc, clients)?;
        let writer = Writer::new(alloc)?;
        let shared = Arc::new(alloc, schema.copy(alloc)?)?;
        let state = State::fresh(alloc, schema)?;
        Ok(Server {
            alloc,
            schema: shared,
            state,
            batches: Sequence::new(alloc),
            writer,
            owns,
        })
    }

    /// What each server keeps.
    pub fn keeps(&self)
        ensures { IsServing self.now }
    {
        let _ = &self.alloc;
    }

    /// A front of the whole record.
    pub fn front(&mut self) -> Result<Front<Batch>, Memory>
        ensures whole { IfOk result (λ front. front ≡ self.old.joined) }
        ensures same { self.new ≡ self.old }
    {
        self.writer.front()
    }

    /// The record.
    pub fn batches(&self) -> &BatchList
        ensures { result.now ≡ self.now.joined.list }
    {
        &self.batches
    }

    /// The record, at the end.
    pub fn close(self) -> BatchList
        ensures joined { result ≡ self.joined.list }
        ensures kept { IsServing self }
    {
        let Server {
            alloc: _,
            schema: _,
            state: _,
            batches,
            writer: _,
            owns: _,
        } = self;
        batches
    }

    // The number of its clients.
    pub(crate) fn clients(&self) -> u8
        ensures { result ≡ length self.now.owns }
    {
        let _ = &self.alloc;
        self.owns.len() as u8
    }

    // The round of a client's last batch.
    fn last(&self, client: u8) -> u64
        requires { client < length self.now.owns }
        ensures { result ≡ last_round client self.now.joined.list }
    {
        own_len(&self.owns[client as usize])
    }

    // Tells that a front's list is a beginning of the record. It takes no memory.
    fn meet(&mut self, front: Front<Batch>)
        requires { front.chronicle ≡ self.old.joined.chronicle }
        ensures prefix { IsPrefix front.list self.new.joined.list }
        ensures same { self.new ≡ self.old }
    {
        self.writer.meet(front);
    }

    // Joins a push of its client's next round.
    fn join(&mut self, push: &Push, own: Front<Batch>) -> Result<(), Memory>
        requires of { IsFor push.now self.old }
        requires known { IsPrefix push.now.past.list self.old.joined.list }
        requires next { push.now.batch.round ≡ last_of push.now self.old + 1 }
        requires own { own ≡ push.now.own }
        ensures ok { OnOk result (self.new ≡ joined_with push.now self.old) }
        ensures err { OnErr result (self.new ≡ self.old) }
    {
        pushes_are_taken();
        bounded_records();
        push.keeps();
        let state = put_behind(self.alloc, &mut self.batches, &self.state, push)?;
        self.state = state;
        self.writer.append(push.batch());
        self.owns[push.client() as usize] = Some(own);
        Ok(())
    }

    // Joins a push, if it isn't of the last round again.
    fn join_next(&mut self, push: &Push, own: Front<Batch>) -> Result<(), Memory>
        requires of { IsFor push.now self.old }
        requires known { IsPrefix push.now.past.list self.old.joined.list }
        requires late { last_of push.now self.old ≤ push.now.batch.round }
        requires own { own ≡ push.now.own }
        ensures ok { OnOk result (self.new ≡ after_push push.now self.old) }
        ensures gap { push.now.batch.round ≤ last_of push.now self.old + 1 }
        ensures begun { 1 ≤ push.now.batch.round }
        ensures last { OnOk result (push.now.batch.round ≡ last_of push.now self.new) }
        ensures client { OnOk result (push.now.batch.client < length self.new.owns) }
        ensures err { OnErr result (self.new ≡ self.old) }
    {
        pushes_are_taken();
        push.keeps();
        self.keeps();
        if push.round() == self.last(push.client()) {
            return Ok(());
        }
        self.join(push, own)
    }

    // The reply to a client's last round.
    fn reply(&mut self, client: u8, round: u64) -> Result<Reply, Memory>
        requires client { client < length self.old.owns }
        requires begun { 1 ≤ round }
        requires last { round ≡ last_round client self.old.joined.list }
        ensures reply { IfOk result (Answers client round self.old) }
        ensures same { self.new ≡ self.old }
    {
        packets_are_spelled();
        let image = self.state.image()?;
        let base = self.batches.len() as u64;
        let wire = write_reply(self.alloc, client, round, base, &image)?;
        let schema = Arc::try_clone(&self.schema)?;
        let past = self.writer.front()?;
        let own = copy_own(&mut self.owns, client)?;
        let fronts = Fronts { past, own };
        Ok(Reply::new(self.alloc, schema, wire, client, round, fronts))
    }

    // Takes a push that isn't of an earlier round than its client's last.
    fn answer(&mut self, push: &mut Push) -> Result<Reply, Memory>
        requires of { IsFor push.old self.old }
        requires late { last_of push.old self.old ≤ push.old.batch.round }
        ensures ok { OnOk result (self.new ≡ after_push push.old self.old) }
        ensures reply { IfOk result (Answers push.old.batch.client push.old.batch.round self.new) }
        ensures known { OnOk result (IsPrefix push.old.past.list self.old.joined.list) }
        ensures gap { OnOk result (push.old.batch.round ≤ last_of push.old self.old + 1) }
        ensures err { OnErr result ((self.new ≡ self.old)
            ⊎ (self.new ≡ after_push push.old self.old)) }
        ensures same { push.new ≡ push.old }
    {
        let Fronts { past, own } = push.copy_fronts()?;
        self.meet(past);
        self.join_next(push, own)?;
        self.reply(push.client(), push.round())
    }

    /// Joins a push of its client's next round. A push of the last round isn't joined again. Both
    /// get a reply with the record as it is now, and one of an earlier round gets none.
    ///
    /// After a refusal a push of the next round may have been joined.
    pub fn take(&mut self, push: Push) -> Result<Option<Reply>, NoRoom>
        requires { IsFor push self.old }
        ensures ok { OnOk result (self.new ≡ after_push push self.old) }
        ensures late { IfOk result (λ reply.
            (reply ≡ None) ↔ (push.batch.round < last_of push self.old)) }
        ensures reply { IfOk result (λ reply. ForSome reply
            (Answers push.batch.client push.batch.round self.new)) }
        ensures known { IfOk result (λ reply. ForSome reply
            (λ _. IsPrefix push.past.list self.old.joined.list)) }
        ensures gap { OnOk result (push.batch.round ≤ last_of push self.old + 1) }
        ensures err { OnErr result ((self.new ≡ self.old)
            ⊎ (self.new ≡ after_push push self.old)) }
        ensures back { IfErr result (λ no_room. no_room.back ≡ push) }
        ensures of { (run : Named) → IsServerOf self.old run → push_of_run push run →
            IsServerOf self.new run }
    {
        let mut push = push;
        if push.round() < self.last(push.client()) {
            return Ok(None);
        }
        match self.answer(&mut push) {
            Ok(reply) => Ok(Some(reply)),
            Err(Memory) => Err(NoRoom { back: push }),
        }
    }
}

impl Homed for Server {
    ghost of_run = { IsServerOf };
}
