// A client's session.
ghost use Rattle.std.specs.Prelude.{◌≡◌, ◌≢◌, ◌<◌, ◌≤◌, ◌+◌, ◌^◌, ◌⊎◌, ◌↔◌, [], ◌∷◌, ◌++◌, List, None};
ghost use Rattle.std.specs.Prelude.{Some, Ok, IfOk, OnOk, IfErr, OnErr, IsTrue, is_some, length, true};
ghost use Rattle.std.specs.Option.{ForSome, option_map};
ghost use Rattle.cloud_base.specs.Answer.{answer};
ghost use Rattle.cloud_base.specs.Events.{EndsAtMark};
ghost use Rattle.cloud_base.specs.Shaped.{IsShaped, IsShapedQuery, cell_type};
ghost use Rattle.cloud_base.specs.Values.{most_clients};
ghost use Rattle.cloud_base.specs.declared.update.Event.TheVariants as Events;
ghost use Rattle.cloud_base.specs.declared.update.Update.{Update as Updates};
ghost use Rattle.packet_codec.specs.Pushes.{IsPushWire};
ghost use Rattle.schema_fj.specs.States.{StateStands};
ghost use Rattle.slot_hub.specs.Runs.{clients_of};
ghost use Rattle.session_core.specs.declared.flushing.Flushing.TheVariants.{Closed, Marked};
ghost use Rattle.session_core.specs.Insides.{StandsFor};
ghost use Rattle.session_core.specs.Standings.{
  IsKeptReply,
  IsStanding,
  base_now,
  is_of_run,
  seen,
  tail_of,
};
ghost use Rattle.session_core.specs.Sessions.{
  IsLater,
  IsOne,
  IsOpened,
  IsQuiet,
  MayBegin,
  MayDo,
  begun,
  next_batch,
  noted,
  noted_at,
  sends,
  took,
};
ghost use Rattle.session_core.specs.Meetings.{
  Fetches,
  IsMet,
  IsNotYet,
  IsPushOf,
  IsReady,
  IsRejoined,
  Joins,
  Leaves,
  Pulls,
  Pushes,
  Readies,
  Starves,
  StarvesPull,
  Turns,
  Yields,
  reply_of,
  round_sent,
  without_reply,
};

use crate::flushing::Flushing;
use crate::inbox::{Ready, look_in, meet, rejoined};
use crate::outbox::hand_out;
use crate::running::Running;
use crate::steps::{after_pull, after_push};
use crate::turns::{Half, Pull, PushOut, Starved, Turn, Yielded};
use bytes::Bytes;
use cloud_base::{Answer, Batch, CellType, Event, Memory, Query, Schema, Stretch, Tail, Update};
use front_table::{Front, Writer};
use packet_codec::{Fronts, Push, Reply, packets_are_spelled, write_push};
use schema_fj::State;
use slot_hub::{Homed, Hub};
use std::alloc::Global;
use std::marker::Model;
use std::sync::Arc;

/// The push that is outstanding: its bytes and its batch.
#[derive(Drop)]
pub struct Outstanding {
    pub wire: Bytes,
    pub batch: Batch,
}

impl Outstanding {
    fn copy(&self, alloc: Global) -> Result<Outstanding, Memory>
        ensures { IfOk result (λ copy. copy ≡ self.now) }
    {
        let wire = self.wire.clone()?;
        let batch = self.batch.copy(alloc)?;
        Ok(Outstanding { wire, batch })
    }
}

/// What a client has done, and what it has seen of the server's record.
///
/// A session works on its own state, and meets the server only at its yields and flushes. By its
/// type its queries are answered right by the log that its client saw then, and it knows by tokens
/// what it has seen and which batches are its own.
#[derive(Drop)]
pub struct Session {
    alloc: Global,
    schema: Arc<Schema, Global>,
    client: u8,
    past: Front<Batch>,
    own: Writer<Batch>,
    rounds: u64,
    state: State,
    sent: Option<Outstanding>,
    running: Running,
    reply: Option<Reply>,
    flush: Flushing,
}

impl Model for Session {
    ghost use Rattle.session_core.specs.Standings.{Sessioned};

    ghost Value = { Sessioned };

    ghost use Rattle.session_core.specs.Insides.{sessioned_in, IsSession};

    ghost view = { sessioned_in };

    ghost invariant = { IsSession };
}

fn cell_type_of(schema: &Schema, property: u16) -> CellType
    ensures { result ≡ cell_type schema.now property }
{
    match schema.properties.as_slice().get(property as usize) {
        Some(property) => property.cell,
        None => CellType::Int,
    }
}

// The answer to a query that wants no memory.
fn answer_one(schema: &Schema, state: &State, query: &Query) -> Answer
    requires { IsOne query.now }
    ensures { (base delta : List Updates) → StateStands schema.now state.now base delta →
        result ≡ answer schema.now (base ++ delta) query.now }
{
    match query {
        Query::Get(property, keys) => match cell_type_of(schema, *property) {
            CellType::Int => Answer::Int(state.get_int(*property, keys)),
            CellType::Text => Answer::Text(state.get_text(*property, keys)),
        },
        Query::Alive(id) => Answer::Truth(state.alive(*id)),
        Query::All(_) | Query::Entries(_) => unreachable!(),
    }
}

// The batch that is outstanding, and the base of what ran since: nothing is pulled where one is.
fn sent_and_base(sent: Option<Outstanding>, past: &Front<Batch>) -> (Option<Batch>, Option<u64>)
    ensures sent { result.0 ≡ option_map (λ x. x.batch) sent }
    ensures base { result.1 ≡ base_now result.0 past.now.list }
{
    match sent {
        Some(Outstanding { wire: _, batch }) => (Some(batch), None),
        None => (None, Some(past.len())),
    }
}

impl Session {
    /// The session of a client that did nothing yet and has seen nothing of the record.
    pub fn open(
        alloc: Global,
        schema: &Schema,
        client: u8,
        past: Front<Batch>,
    ) -> Result<Session, Memory>
        requires client { client < most_clients }
        requires past { past.list ≡ [] }
        ensures { IfOk result (λ session. IsOpened schema.now client past session.stands) }
    {
        let own = Writer::new(alloc)?;
        let state = State::fresh(alloc, schema)?;
        let schema = Arc::new(alloc, schema.copy(alloc)?)?;
        Ok(Session {
            alloc,
            schema,
            client,
            past,
            own,
            rounds: 0,
            state,
            sent: None,
            running: Running::new(alloc),
            reply: None,
            flush: Flushing::Closed,
        })
    }

    /// What each session keeps.
    pub fn keeps(&self)
        ensures { IsStanding self.now.stands }
    {
        let _ = &self.client;
    }

    // Whether a push is outstanding.
    fn waits(&self) -> bool
        ensures { result ≡ is_some self.now.stands.sent }
    {
        self.sent.is_some()
    }

    /// Makes room for one event.
    pub fn reserve_event(&mut self) -> Result<(), Memory>
        ensures room { OnOk result (1 ≤ self.new.spare) }
        ensures same { self.new.stands ≡ self.old.stands }
    {
        let waits = self.waits();
        self.running.reserve(waits)
    }

    /// Does an update.
    pub fn update(&mut self, update: Update) -> Result<(), Memory>
        requires closed { self.old.stands.flush ≡ Closed }
        requires shaped { IsShaped self.old.stands.schema update }
        requires may { MayDo self.old.stands update }
        ensures ok { OnOk result (self.new.stands ≡ noted (Events.Do update) self.old.stands) }
        ensures err { OnErr result (self.new.stands ≡ self.old.stands) }
    {
        self.reserve_event()?;
        let waits = self.waits();
        self.state.update(&update)?;
        self.running.note(waits, Event::Do(update));
        Ok(())
    }

    // Records an event that is no update and no flush.
    fn note(&mut self, event: Event)
        requires room { 1 ≤ self.old.spare }
        requires closed { self.old.stands.flush ≡ Closed }
        requires quiet { IsQuiet self.old.stands event }
        ensures { self.new.stands ≡ noted event self.old.stands }
    {
        let waits = self.waits();
        self.running.note(waits, event);
    }

    fn answer(&self, query: &Query) -> Result<Answer, Memory>
        requires { IsShapedQuery self.now.stands.schema query.now }
        ensures { IfOk result (λ given.
            given ≡ answer self.now.stands.schema (seen self.now.stands) query.now) }
    {
        self.state.ask(query)
    }

    /// Asks a query. The answer is that of the log that the client sees.
    pub fn ask(&mut self, query: Query) -> Result<Answer, Memory>
        requires closed { self.old.stands.flush ≡ Closed }
        requires shaped { IsShapedQuery self.old.stands.schema query }
        ensures answer { IfOk result (λ given.
            given ≡ answer self.old.stands.schema (seen self.old.stands) query) }
        ensures ok { IfOk result (λ given.
            self.new.stands ≡ noted (Events.Ask query given) self.old.stands) }
        ensures err { OnErr result (self.new.stands ≡ self.old.stands) }
    {
        self.reserve_event()?;
        let given = self.answer(&query)?;
        let copy = given.copy(self.alloc)?;
        self.note(Event::Ask(query, copy));
        Ok(given)
    }

    fn answer_at_once(&self, query: &Query) -> Answer
        requires { IsOne query.now }
        ensures { result ≡ answer self.now.stands.schema (seen self.now.stands) query.now }
    {
        answer_one(&self.schema, &self.state, query)
    }

    /// Asks for a cell, or whether an id is alive, where there is room. It takes no memory.
    pub fn ask_one(&mut self, query: &Query) -> Answer
        requires closed { self.old.stands.flush ≡ Closed }
        requires room { 1 ≤ self.old.spare }
        requires one { IsOne query.now }
        ensures answer { result
            ≡ answer self.old.stands.schema (seen self.old.stands) query.now }
        ensures noted { self.new.stands ≡ noted (Events.Ask query.now result) self.old.stands }
    {
        let given = self.answer_at_once(query);
        let copy = self.answer_at_once(query);
        self.note(Event::Ask(query.copied(), copy));
        given
    }

    /// Prints a value.
    pub fn say(&mut self, answer: Answer) -> Result<(), Memory>
        requires closed { self.old.stands.flush ≡ Closed }
        ensures ok { OnOk result (self.new.stands ≡ noted (Events.Say answer) self.old.stands) }
        ensures err { OnErr result (self.new.stands ≡ self.old.stands) }
    {
        self.reserve_event()?;
        self.note(Event::Say(answer));
        Ok(())
    }

    /// Begins a flush, which `flush_turn` goes on with.
    pub fn flush_start(&mut self) -> Result<(), Memory>
        requires closed { self.old.stands.flush ≡ Closed }
        ensures ok { OnOk result
            (self.new.stands ≡ noted_at Marked Events.Flush self.old.stands) }
        ensures err { OnErr result (self.new.stands ≡ self.old.stands) }
    {
        self.reserve_event()?;
        let waits = self.waits();
        self.running.note(waits, Event::Flush);
        self.flush = Flushing::Marked;
        Ok(())
    }

    // The round of the outstanding push.
    fn outstanding(&self) -> Option<u64>
        ensures { result ≡ round_sent self.now.stands.sent }
    {
        match &self.sent {
            Some(outstanding) => Some(outstanding.batch.round),
            None => None,
        }
    }

    // Takes the reply that is kept out.
    fn take_kept(&mut self) -> Option<Reply>
        ensures reply { result ≡ self.old.stands.reply }
        ensures left { self.new.stands ≡ without_reply result self.old.stands }
        ensures spare { self.new.spare ≡ self.old.spare }
        ensures kept { ForSome result (IsKeptReply self.old.stands.schema
            self.old.stands.client self.old.stands.past self.old.stands.own
            self.old.stands.sent) }
    {
        self.reply.take()
    }

    // Keeps a reply that was taken.
    fn keep(&mut self, reply: Reply)
        requires { IsKeptReply self.old.stands.schema self.old.stands.client
            self.old.stands.past self.old.stands.own self.old.stands.sent reply }
        ensures { self.new.stands ≡ record self.old.stands { reply = Some reply } }
    {
        self.reply = Some(reply);
    }

    // Fetches the reply to the outstanding round, if there is one.
    fn fetch<S: Homed, H: Hub<S, Push, Reply>>(&mut self, hub: &mut H) -> (Pull, Option<Reply>)
        requires { is_of_run self.old.stands (H.seen hub.old).run }
        ensures fetched { Fetches self.old.stands.client self.old.stands.sent
            self.old.stands.reply result.0 result.1 (H.seen hub.old) (H.seen hub.new) }
        ensures kept { ForSome result.1 (IsKeptReply self.old.stands.schema
            self.old.stands.client self.old.stands.past self.old.stands.own
            self.old.stands.sent) }
        ensures left { self.new.stands ≡ without_reply result.1 self.old.stands }
        ensures spare { self.new.spare ≡ self.old.spare }
    {
        self.keeps();
        let Some(round) = self.outstanding() else {
            return (Pull::Idle, None);
        };
        match self.take_kept() {
            Some(reply) => (Pull::Took { round }, Some(reply)),
            None => look_in(hub, self.client, round),
        }
    }

    // The state that goes on from a reply.
    fn rejoin(&mut self, reply: &mut Reply) -> Result<State, Memory>
        requires { IsKeptReply self.old.stands.schema self.old.stands.client
            self.old.stands.past self.old.stands.own self.old.stands.sent reply.old }
        ensures state { IfOk result (IsRejoined self.old.stands reply.old) }
        ensures same { self.new ≡ self.old }
        ensures reply { reply.new ≡ reply.old }
    {
        let fronts = reply.copy_fronts()?;
        meet(&mut self.past, &mut self.own, fronts)?;
        rejoined(self.alloc, &self.schema, reply, &self.state)
    }

    // Fetches a reply, and makes the state that goes on from it.
    fn ready<S: Homed, H: Hub<S, Push, Reply>>(
        &mut self,
        hub: &mut H,
    ) -> Result<(Pull, Option<Ready>), Starved>
        requires { is_of_run self.old.stands (H.seen hub.old).run }
        ensures ok { IfOk result (λ it. Readies self.old.stands self.new.stands it.0 it.1
            (H.seen hub.old) (H.seen hub.new)) }
        ensures spare { OnOk result (self.new.spare ≡ self.old.spare) }
        ensures half { IfErr result (λ starved. starved.half ≡ Half.Pull) }
        ensures err { OnErr result (StarvesPull self.old.stands self.new.stands
            (H.seen hub.old) (H.seen hub.new)) }
    {
        let (pull, got) = self.fetch(hub);
        let Some(reply) = got else {
            return Ok((pull, None));
        };
        let mut reply = reply;
        match self.rejoin(&mut reply) {
            Ok(state) => Ok((pull, Some(Ready { reply, state }))),
            Err(Memory) => {
                self.keep(reply);
                Err(Starved { half: Half::Pull })
            }
        }
    }

    // Goes on from a reply.
    fn install(&mut self, ready: Ready)
        requires marked { EndsAtMark self.old.stands.before }
        requires ready { IsReady self.old.stands ready }
        ensures { self.new.stands ≡ took ready.reply.past self.old.stands }
    {
        let Ready { reply, state } = ready;
        let Fronts { past, own: _ } = reply.into_fronts();
        self.past = past;
        self.state = state;
        self.sent = None;
        self.reply = None;
        self.flush = after_pull(self.flush);
    }

    // Goes on from a reply, if there is one.
    fn go_on(&mut self, ready: Option<Ready>)
        requires marked { ForSome ready (λ _. EndsAtMark self.old.stands.before) }
        requires ready { ForSome ready (IsReady self.old.stands) }
        ensures { Joins (reply_of ready) self.old.stands self.new.stands }
    {
        if let Some(ready) = ready {
            self.install(ready);
        }
    }

    // Makes the next round outstanding. It takes no memory.
    fn put_out(&mut self, wire: Bytes, state: State)
        requires none { self.old.stands.sent ≡ None }
        requires may { MayBegin self.old.stands }
        requires wire { IsPushWire self.old.stands.schema self.old.stands.past.list
            (next_batch self.old.stands) wire }
        requires state { StandsFor (begun self.old.stands) state }
        ensures { self.new.stands ≡ begun self.old.stands }
    {
        let (before, rest) = self.running.take_all(self.alloc);
        self.rounds += 1;
        let batch = Batch {
            client: self.client,
            round: self.rounds,
            base: self.past.len(),
            before,
            rest,
        };
        self.own.append(&batch);
        self.sent = Some(Outstanding { wire, batch });
        self.state = state;
        self.flush = after_push(self.flush);
    }

    // Makes the next round outstanding, where none is.
    fn begin(&mut self) -> Result<(), Memory>
        requires may { MayBegin self.old.stands }
        ensures ok { OnOk result (self.new.stands ≡ sends self.old.stands) }
        ensures err { OnErr result (self.new.stands ≡ self.old.stands) }
    {
        if self.waits() {
            return Ok(());
        }
        packets_are_spelled();
        let base = self.past.len();
        let round = self.rounds + 1;
        let change = self.state.effect()?;
        let wire = write_push(self.alloc, self.client, round, base, &change)?;
        let state = self.state.fork()?;
        self.put_out(wire, state);
        Ok(())
    }

    // A copy of the outstanding push.
    fn outgoing(&mut self) -> Result<Push, Memory>
        requires { is_some self.old.stands.sent ≡ true }
        ensures push { IfOk result (IsPushOf self.old.stands) }
        ensures same { self.new.stands ≡ self.old.stands }
    {
        let schema = Arc::try_clone(&self.schema)?;
        let past = self.past.copy()?;
        let own = self.own.front()?;
        let Some(outstanding) = &self.sent else {
            unreachable!();
        };
        let Outstanding { wire, batch } = outstanding.copy(self.alloc)?;
        Ok(Push::new(self.alloc, schema, wire, batch, Fronts { past, own }))
    }

    // A copy of the push that is outstanding, or of the next one, which is outstanding from now on.
    fn next_push(&mut self) -> Result<Push, Memory>
        requires { MayBegin self.old.stands }
        ensures push { IfOk result (IsPushOf self.new.stands) }
        ensures ok { OnOk result (self.new.stands ≡ sends self.old.stands) }
        ensures err { OnErr result ((self.new.stands ≡ self.old.stands)
            ⊎ (self.new.stands ≡ sends self.old.stands)) }
    {
        self.begin()?;
        self.outgoing()
    }

    // Puts a push out.
    fn push<S: Homed, H: Hub<S, Push, Reply>>(&mut self, hub: &mut H) -> Result<PushOut, Starved>
        requires of { is_of_run self.old.stands (H.seen hub.old).run }
        requires may { MayBegin self.old.stands }
        ensures ok { IfOk result (λ out. Pushes self.old.stands self.new.stands out
            (H.seen hub.old) (H.seen hub.new)) }
        ensures half { IfErr result (λ starved. starved.half ≡ Half.Push) }
        ensures hub { OnErr result (H.seen hub.new ≡ H.seen hub.old) }
        ensures err { OnErr result ((self.new.stands ≡ self.old.stands)
            ⊎ (self.new.stands ≡ sends self.old.stands)) }
    {
        let again = self.waits();
        match self.next_push() {
            Ok(push) => Ok(hand_out(hub, push, again)),
            Err(Memory) => Err(Starved { half: Half::Push }),
        }
    }

    // A yield's mark and its pull.
    fn yield_pull<S: Homed, H: Hub<S, Push, Reply>>(&mut self, hub: &mut H) -> Result<Pull, Starved>
        requires closed { self.old.stands.flush ≡ Closed }
        requires of { is_of_run self.old.stands (H.seen hub.old).run }
        requires rounds { length self.old.stands.own.list < 2 ^ 32 }
        ensures ok { IfOk result (λ pull. Pulls (noted Events.Yield self.old.stands)
            self.new.stands pull (H.seen hub.old) (H.seen hub.new)) }
        ensures may { OnOk result (MayBegin self.new.stands) }
        ensures of { OnOk result (is_of_run self.new.stands (H.seen hub.new).run) }
        ensures half { IfErr result (λ starved. starved.half ≡ Half.Pull) }
        ensures err { OnErr result (StarvesPull self.old.stands self.new.stands
            (H.seen hub.old) (H.seen hub.new)) }
    {
        let Ok(()) = self.reserve_event() else {
            return Err(Starved { half: Half::Pull });
        };
        let (pull, ready) = self.ready(hub)?;
        self.keeps();
        self.note(Event::Yield);
        self.go_on(ready);
        Ok(pull)
    }

    /// Yields: records the mark, pulls the reply to the outstanding round if it is there, and puts
    /// out the push of that round, or of the next one where none is outstanding. It never waits.
    ///
    /// Where it starved in the pull, all is as it was, but a reply that came out of the inbox stays
    /// with the session. Where it starved in the push, the mark and the pull stand.
    pub fn yield_turn<S: Homed, H: Hub<S, Push, Reply>>(
        &mut self,
        hub: &mut H,
    ) -> Result<Yielded, Starved>
        requires closed { self.old.stands.flush ≡ Closed }
        requires of { is_of_run self.old.stands (H.seen hub.old).run }
        requires rounds { length self.old.stands.own.list < 2 ^ 32 }
        ensures ok { IfOk result (λ yielded. Yields self.old.stands self.new.stands yielded
            (H.seen hub.old) (H.seen hub.new)) }
        ensures err { IfErr result (λ starved. Starves self.old.stands
            (noted Events.Yield self.old.stands) self.new.stands starved.half
            (H.seen hub.old) (H.seen hub.new)) }
        ensures of { is_of_run self.new.stands (H.seen hub.new).run }
        ensures closed { self.new.stands.flush ≡ Closed }
        ensures later { IsLater self.old.stands self.new.stands }
        ensures rounds { length self.new.stands.own.list ≤ length self.old.stands.own.list + 1 }
        ensures leaves { Leaves self.old.stands.client (H.seen hub.old) (H.seen hub.new) }
    {
        let Ok(pull) = self.yield_pull(hub) else {
            return Err(Starved { half: Half::Pull });
        };
        let Ok(push) = self.push(hub) else {
            return Err(Starved { half: Half::Push });
        };
        Ok(Yielded { pull, push })
    }

    // A flush turn's pull.
    fn flush_pull<S: Homed, H: Hub<S, Push, Reply>>(&mut self, hub: &mut H) -> Result<Pull, Starved>
        requires flushing { self.old.stands.flush ≢ Closed }
        requires of { is_of_run self.old.stands (H.seen hub.old).run }
        requires rounds { length self.old.stands.own.list < 2 ^ 32 }
        ensures ok { IfOk result (λ pull. Pulls self.old.stands self.new.stands pull
            (H.seen hub.old) (H.seen hub.new)) }
        ensures met { IfOk result (λ pull. self.new.stands.flush ≡ Closed →
            IsMet self.old.stands self.new.stands (H.seen hub.old) (H.seen hub.new)) }
        ensures may { OnOk result (MayBegin self.new.stands) }
        ensures of { OnOk result (is_of_run self.new.stands (H.seen hub.new).run) }
        ensures half { IfErr result (λ starved. starved.half ≡ Half.Pull) }
        ensures err { OnErr result (StarvesPull self.old.stands self.new.stands
            (H.seen hub.old) (H.seen hub.new)) }
    {
        self.keeps();
        let (pull, ready) = self.ready(hub)?;
        self.go_on(ready);
        Ok(pull)
    }

    fn is_closed(&self) -> bool
        ensures { IsTrue result ↔ (self.now.stands.flush ≡ Closed) }
    {
        self.flush == Flushing::Closed
    }

    // How a turn comes out behind which a flush is still open.
    fn unmet<S: Homed, H: Hub<S, Push, Reply>>(&self, hub: &H) -> Turn
        requires sent { is_some self.now.stands.sent ≡ true }
        requires client { self.now.stands.client < clients_of (H.seen hub.now).run }
        ensures { IsNotYet self.now.stands result (H.seen hub.now) }
    {
        let taken = hub.taken(self.client);
        match self.outstanding() {
            Some(outstanding) => Turn::NotYet { outstanding, taken },
            None => unreachable!(),
        }
    }

    /// Goes on with a flush: pulls as a yield does, and where that took the flush's round the flush
    /// is met. Else it pushes as a yield does. It never waits.
    pub fn flush_turn<S: Homed, H: Hub<S, Push, Reply>>(
        &mut self,
        hub: &mut H,
    ) -> Result<Turn, Starved>
        requires flushing { self.old.stands.flush ≢ Closed }
        requires of { is_of_run self.old.stands (H.seen hub.old).run }
        requires rounds { length self.old.stands.own.list < 2 ^ 32 }
        ensures ok { IfOk result (λ turn. Turns self.old.stands self.new.stands turn
            (H.seen hub.old) (H.seen hub.new)) }
        ensures err { IfErr result (λ starved. Starves self.old.stands self.old.stands
            self.new.stands starved.half (H.seen hub.old) (H.seen hub.new)) }
        ensures of { is_of_run self.new.stands (H.seen hub.new).run }
        ensures closed { (self.new.stands.flush ≡ Closed) ↔ (result ≡ Ok Turn.Done) }
        ensures later { IsLater self.old.stands self.new.stands }
        ensures rounds { length self.new.stands.own.list ≤ length self.old.stands.own.list + 1 }
        ensures leaves { Leaves self.old.stands.client (H.seen hub.old) (H.seen hub.new) }
    {
        let Ok(_) = self.flush_pull(hub) else {
            return Err(Starved { half: Half::Pull });
        };
        if self.is_closed() {
            return Ok(Turn::Done);
        }
        let Ok(_) = self.push(hub) else {
            return Err(Starved { half: Half::Push });
        };
        Ok(self.unmet(hub))
    }

    /// What of its client the record need not have, at the end.
    pub fn finish(self) -> Tail
        ensures tail { result ≡ tail_of self.stands }
        ensures kept { IsStanding self.stands }
    {
        let Session {
            alloc: _,
            schema: _,
            client: _,
            past,
            own: _,
            rounds: _,
            state: _,
            sent,
            running,
            reply: _,
            flush: _,
        } = self;
        let Running { before, rest } = running;
        let (sent, base) = sent_and_base(sent, &past);
        Tail {
            sent,
            now: Stretch {
                base,
                before: before.into_list(),
                rest: rest.into_list(),
            },
        }
    }
}
