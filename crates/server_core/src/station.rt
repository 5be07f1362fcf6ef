// A server that takes pushes from a hub.
ghost use Rattle.std.specs.Prelude.{◌≡◌, ◌<◌, ◌≢◌, ℕ, None, IfOk, OnOk, length, replicate};
ghost use Rattle.std.specs.Prelude.{slice_index_or, slice_set};
ghost use Rattle.std.specs.Option.{ForSome};
ghost use mathlib.Core.List.{IsPrefix};
ghost use Rattle.cloud_base.specs.declared.schedule.Fate.TheVariants as Fates;
ghost use Rattle.slot_hub.specs.Runs.{Carries, Named, clients_of};
ghost use Rattle.packet_codec.specs.Runs.{push_of_run};
ghost use Rattle.server_core.specs.Servers.{IsFor, IsServing, IsServerOf, after_push};
ghost use Rattle.server_core.specs.Weathers.{Draws};
ghost use Rattle.server_core.specs.Stations.{
  Fares,
  Handles,
  IsHolding,
  IsHoldingOf,
  Leaves,
  LooksAt,
  Passes,
  Releases,
  Serves,
  ServesOne,
  ServesWith,
  Touches,
  copy_of,
  held_of,
  moment,
  push_client,
};

use crate::server::{NoRoom, Server};
use crate::weather::Weather;
use cloud_base::{BatchList, Fate, Memory};
use packet_codec::{Push, Reply};
use slot_hub::{Busy, Homed, Hub, Numbered};
use std::alloc::Global;
use std::marker::Model;
use std::mem;

/// What a serve of a client came to.
#[derive(Clone, Copy, Debug, PartialEq, Eq)]
pub enum Served {
    Empty,
    Busy { holder: u64 },
    Took { round: u64 },
}

/// A server with its weather, and at most one held push of each client.
#[derive(Drop)]
pub struct Station<W: Weather> {
    server: Server,
    weather: W,
    held: Vec<Option<Push>>,
}

impl<W: Weather> Model for Station<W> {
    ghost use Rattle.server_core.specs.Stations.{Stationed, IsHolding};

    ghost Value = { Stationed W };

    ghost view = { λ s. record {
      holding = record { server = s.server; held = s.held.items };
      weather = s.weather;
    } };

    ghost invariant = { λ s. IsHolding (record { server = s.server; held = s.held.items }) };
}

// A push passes. A reply for which the inbox is busy is dropped.
fn pass<S: Homed, H: Hub<S, Push, Reply>>(
    server: &mut Server,
    hub: &mut H,
    client: u8,
    push: Push,
) -> Result<(), Memory>
    requires client { client < clients_of (H.seen hub.old).run }
    requires of { IsServerOf server.old (H.seen hub.old).run }
    requires push { Carries push_client push_of_run (H.seen hub.old).run client push }
    ensures ok { OnOk result (Passes client push
        (record { server = server.old; seen = H.seen hub.old })
        (record { server = server.new; seen = H.seen hub.new })) }
    ensures of { IsServerOf server.new (H.seen hub.old).run }
    ensures grows { IsPrefix server.old.joined.list server.new.joined.list }
    ensures touches { Touches client (H.seen hub.old) (H.seen hub.new) }
{
    match server.take(push) {
        Ok(Some(reply)) => {
            let _ = hub.trade_in(client, Some(reply));
            Ok(())
        }
        Ok(None) => Ok(()),
        Err(NoRoom { back: _ }) => Err(Memory),
    }
}

// A push is taken, and the reply is dropped.
fn lose_reply(server: &mut Server, push: Push) -> Result<(), Memory>
    requires { IsFor push server.old }
    ensures ok { OnOk result (server.new ≡ after_push push server.old) }
    ensures grows { IsPrefix server.old.joined.list server.new.joined.list }
    ensures of { (run : Named) → IsServerOf server.old run → push_of_run push run →
        IsServerOf server.new run }
{
    match server.take(push) {
        Ok(_) => Ok(()),
        Err(NoRoom { back: _ }) => Err(Memory),
    }
}

// A copy of a push passes, and then the push.
fn twice<S: Homed, H: Hub<S, Push, Reply>>(
    server: &mut Server,
    hub: &mut H,
    client: u8,
    push: Push,
) -> Result<(), Memory>
    requires client { client < clients_of (H.seen hub.old).run }
    requires of { IsServerOf server.old (H.seen hub.old).run }
    requires push { Carries push_client push_of_run (H.seen hub.old).run client push }
    ensures ok { OnOk result (Fares Fates.Twice client push
        (record { server = server.old; seen = H.seen hub.old })
        (record { server = server.new; seen = H.seen hub.new })) }
    ensures of { IsServerOf server.new (H.seen hub.old).run }
    ensures grows { IsPrefix server.old.joined.list server.new.joined.list }
    ensures touches { Touches client (H.seen hub.old) (H.seen hub.new) }
{
    let mut push = push;
    let copy = push.copy()?;
    pass(server, hub, client, copy)?;
    pass(server, hub, client, push)
}

// A push passes, of which a copy is made before.
fn hold<S: Homed, H: Hub<S, Push, Reply>>(
    server: &mut Server,
    hub: &mut H,
    client: u8,
    push: Push,
) -> Result<Push, Memory>
    requires client { client < clients_of (H.seen hub.old).run }
    requires of { IsServerOf server.old (H.seen hub.old).run }
    requires push { Carries push_client push_of_run (H.seen hub.old).run client push }
    ensures copy { IfOk result (λ copy. copy ≡ push) }
    ensures ok { OnOk result (Passes client push
        (record { server = server.old; seen = H.seen hub.old })
        (record { server = server.new; seen = H.seen hub.new })) }
    ensures of { IsServerOf server.new (H.seen hub.old).run }
    ensures grows { IsPrefix server.old.joined.list server.new.joined.list }
    ensures touches { Touches client (H.seen hub.old) (H.seen hub.new) }
{
    let mut push = push;
    let copy = push.copy()?;
    pass(server, hub, client, push)?;
    Ok(copy)
}

// What happens to a push by its fate, and the copy of it that is to be held.
fn by_fate<S: Homed, H: Hub<S, Push, Reply>>(
    server: &mut Server,
    hub: &mut H,
    client: u8,
    push: Push,
    fate: Fate,
) -> Result<Option<Push>, Memory>
    requires client { client < clients_of (H.seen hub.old).run }
    requires of { IsServerOf server.old (H.seen hub.old).run }
    requires push { Carries push_client push_of_run (H.seen hub.old).run client push }
    ensures copy { IfOk result (λ copy. copy ≡ copy_of fate push) }
    ensures ok { OnOk result (Fares fate client push
        (record { server = server.old; seen = H.seen hub.old })
        (record { server = server.new; seen = H.seen hub.new })) }
    ensures of { IsServerOf server.new (H.seen hub.old).run }
    ensures grows { IsPrefix server.old.joined.list server.new.joined.list }
    ensures touches { Touches client (H.seen hub.old) (H.seen hub.new) }
{
    match fate {
        Fate::Pass => pass(server, hub, client, push).map(|()| None),
        Fate::LosePush => Ok(None),
        Fate::LoseReply => lose_reply(server, push).map(|()| None),
        Fate::Twice => twice(server, hub, client, push).map(|()| None),
        Fate::Hold => hold(server, hub, client, push).map(Some),
    }
}

// A copy that was held passes.
fn release<S: Homed, H: Hub<S, Push, Reply>>(
    server: &mut Server,
    hub: &mut H,
    client: u8,
    held: Option<Push>,
) -> Result<(), Memory>
    requires client { client < clients_of (H.seen hub.old).run }
    requires of { IsServerOf server.old (H.seen hub.old).run }
    requires held { ForSome held (Carries push_client push_of_run (H.seen hub.old).run client) }
    ensures ok { OnOk result (Releases client held
        (record { server = server.old; seen = H.seen hub.old })
        (record { server = server.new; seen = H.seen hub.new })) }
    ensures of { IsServerOf server.new (H.seen hub.old).run }
    ensures grows { IsPrefix server.old.joined.list server.new.joined.list }
    ensures touches { Touches client (H.seen hub.old) (H.seen hub.new) }
{
    match held {
        None => Ok(()),
        Some(push) => pass(server, hub, client, push),
    }
}

// No push is held of any client.
fn none_held(alloc: Global, clients: u8) -> Result<Vec<Option<Push>>, Memory>
    ensures { IfOk result (λ held. held.items ≡ replicate clients None) }
{
    let mut held = Vec::new(alloc);
    for _ in 0..clients {
        held.push(None)?;
    }
    Ok(held)
}

// Holds a push of a client, or none, and gives what was held.
fn swap(held: &mut Vec<Option<Push>>, client: u8, copy: Option<Push>) -> Option<Push>
    requires { client < length held.old.items }
    ensures was { result ≡ slice_index_or held.old.items client None }
    ensures swapped { held.new.items ≡ slice_set held.old.items client copy }
{
    let place = &mut held[client as usize];
    mem::replace(place, copy)
}

impl<W: Weather> Station<W> {
    /// A station of this server, which holds no push.
    pub fn new(alloc: Global, server: Server, weather: W) -> Result<Station<W>, Memory>
        ensures server { IfOk result (λ station. station.holding.server ≡ server) }
        ensures held { IfOk result (λ station.
            station.holding.held ≡ replicate (length server.owns) None) }
        ensures weather { IfOk result (λ station. station.weather ≡ weather) }
        ensures of { IfOk result (λ station. (run : Named) → IsServerOf server run →
            IsHoldingOf station.holding run) }
    {
        let held = none_held(alloc, server.clients())?;
        Ok(Station {
            server,
            weather,
            held,
        })
    }

    /// The record, at the end.
    pub fn into_record(self) -> BatchList
        ensures joined { result ≡ self.holding.server.joined.list }
        ensures kept { IsServing self.holding.server }
    {
        let Station {
            server,
            weather: _,
            held: _,
        } = self;
        server.close()
    }

    /// What each station keeps.
    pub fn keeps(&self)
        ensures holding { IsHolding self.now.holding }
        ensures serving { IsServing self.now.holding.server }
    {
        self.server.keeps();
    }

    // What happens to a push by its fate, and the copy of it that is to be held.
    fn fare<S: Homed, H: Hub<S, Push, Reply>>(
        &mut self,
        hub: &mut H,
        client: u8,
        push: Push,
        fate: Fate,
    ) -> Result<Option<Push>, Memory>
        requires client { client < clients_of (H.seen hub.old).run }
        requires of { IsHoldingOf self.old.holding (H.seen hub.old).run }
        requires push { Carries push_client push_of_run (H.seen hub.old).run client push }
        ensures copy { IfOk result (λ copy. copy ≡ copy_of fate push) }
        ensures ok { OnOk result (Fares fate client push
            (moment self.old.holding (H.seen hub.old))
            (moment self.new.holding (H.seen hub.new))) }
        ensures held { self.new.holding.held ≡ self.old.holding.held }
        ensures weather { self.new.weather ≡ self.old.weather }
        ensures of { IsHoldingOf self.new.holding (H.seen hub.old).run }
        ensures grows { IsPrefix self.old.holding.server.joined.list
            self.new.holding.server.joined.list }
        ensures touches { Touches client (H.seen hub.old) (H.seen hub.new) }
    {
        by_fate(&mut self.server, hub, client, push, fate)
    }

    // The push passes of which a copy was held, and none is held any more.
    fn let_go<S: Homed, H: Hub<S, Push, Reply>>(
        &mut self,
        hub: &mut H,
        client: u8,
    ) -> Result<(), Memory>
        requires client { client < clients_of (H.seen hub.old).run }
        requires of { IsHoldingOf self.old.holding (H.seen hub.old).run }
        ensures ok { OnOk result (Releases client (held_of client self.old.holding)
            (moment self.old.holding (H.seen hub.old))
            (moment self.new.holding (H.seen hub.new))) }
        ensures held { self.new.holding.held ≡ slice_set self.old.holding.held client None }
        ensures weather { self.new.weather ≡ self.old.weather }
        ensures of { IsHoldingOf self.new.holding (H.seen hub.old).run }
        ensures grows { IsPrefix self.old.holding.server.joined.list
            self.new.holding.server.joined.list }
        ensures touches { Touches client (H.seen hub.old) (H.seen hub.new) }
    {
        let copy = swap(&mut self.held, client, None);
        release(&mut self.server, hub, client, copy)
    }

    // Holds a copy of a push of a client, or none.
    fn keep(&mut self, client: u8, copy: Option<Push>)
        requires client { client < length self.old.holding.server.owns }
        requires of { ForSome copy (λ push. push.batch.client ≡ client) }
        ensures held { self.new.holding.held ≡ slice_set self.old.holding.held client copy }
        ensures server { self.new.holding.server ≡ self.old.holding.server }
        ensures weather { self.new.weather ≡ self.old.weather }
        ensures of { (run : Named) → IsHoldingOf self.old.holding run →
            ForSome copy (λ push. push_of_run push run) → IsHoldingOf self.new.holding run }
    {
        let _none = swap(&mut self.held, client, copy);
    }

    // Handles a push that was taken from its client's outbox.
    fn handle<S: Homed, H: Hub<S, Push, Reply>>(
        &mut self,
        hub: &mut H,
        client: u8,
        push: Push,
        fate: Fate,
    ) -> Result<(), Memory>
        requires client { client < clients_of (H.seen hub.old).run }
        requires of { IsHoldingOf self.old.holding (H.seen hub.old).run }
        requires push { Carries push_client push_of_run (H.seen hub.old).run client push }
        ensures ok { OnOk result (Handles client fate push self.old.holding self.new.holding
            (H.seen hub.old) (H.seen hub.new)) }
        ensures others { (k : ℕ) → k ≢ client →
            held_of k self.new.holding ≡ held_of k self.old.holding }
        ensures weather { self.new.weather ≡ self.old.weather }
        ensures of { IsHoldingOf self.new.holding (H.seen hub.old).run }
        ensures grows { IsPrefix self.old.holding.server.joined.list
            self.new.holding.server.joined.list }
        ensures touches { Touches client (H.seen hub.old) (H.seen hub.new) }
    {
        self.keeps();
        let copy = self.fare(hub, client, push, fate)?;
        self.let_go(hub, client)?;
        self.keep(client, copy);
        Ok(())
    }

    /// Takes what lies in a client's outbox. A push fares by its fate: it passes, which means that
    /// the server takes it and the reply is put into the inbox; or it is dropped; or it is taken
    /// and the reply is dropped; or a copy passes before it does; or it passes and a copy is held.
    /// Then the copy that was held before passes.
    ///
    /// After a refusal the push may be lost, as a packet may be.
    pub fn serve<S: Homed, H: Hub<S, Push, Reply>>(
        &mut self,
        hub: &mut H,
        client: u8,
        fate: Fate,
    ) -> Result<Served, Memory>
        requires client { client < clients_of (H.seen hub.old).run }
        requires of { IsHoldingOf self.old.holding (H.seen hub.old).run }
        ensures ok { IfOk result (λ served. Serves client fate served self.old.holding
            self.new.holding (H.seen hub.old) (H.seen hub.new)) }
        ensures others { (k : ℕ) → k ≢ client →
            held_of k self.new.holding ≡ held_of k self.old.holding }
        ensures weather { self.new.weather ≡ self.old.weather }
        ensures of { IsHoldingOf self.new.holding (H.seen hub.old).run }
        ensures grows { IsPrefix self.old.holding.server.joined.list
            self.new.holding.server.joined.list }
        ensures touches { Touches client (H.seen hub.old) (H.seen hub.new) }
    {
        match hub.trade_out(client, None) {
            Ok(Some(push)) => {
                let round = push.round();
                self.handle(hub, client, push, fate)?;
                Ok(Served::Took { round })
            }
            Ok(None) => Ok(Served::Empty),
            Err(Busy { back: _, holder }) => Ok(Served::Busy { holder }),
        }
    }

    // The number of clients of its server.
    fn clients(&self) -> u8
        ensures { result ≡ length self.now.holding.server.owns }
    {
        self.server.clients()
    }

    // Serves a client, and tells whether a push was taken.
    fn serve_next<S: Homed, H: Hub<S, Push, Reply>>(
        &mut self,
        hub: &mut H,
        client: u8,
    ) -> Result<bool, Memory>
        requires client { client < clients_of (H.seen hub.old).run }
        requires of { IsHoldingOf self.old.holding (H.seen hub.old).run }
        ensures ok { IfOk result (λ took. ServesOne W.fates took client self.old self.new
            (H.seen hub.old) (H.seen hub.new)) }
        ensures of { IsHoldingOf self.new.holding (H.seen hub.old).run }
        ensures grows { IsPrefix self.old.holding.server.joined.list
            self.new.holding.server.joined.list }
        ensures leaves { Leaves (H.seen hub.old) (H.seen hub.new) }
        ensures looked { OnOk result (LooksAt client (H.seen hub.old) (H.seen hub.new)) }
    {
        match hub.trade_out(client, None) {
            Ok(Some(push)) => {
                let fate = self.draw();
                self.handle(hub, client, push, fate)?;
                Ok(true)
            }
            Ok(None) => Ok(false),
            Err(Busy { back: _, holder: _ }) => Ok(false),
        }
    }

    // The next fate of its weather.
    fn draw(&mut self) -> Fate
        ensures drawn { Draws result (W.fates self.old.weather) (W.fates self.new.weather) }
        ensures same { self.new.holding ≡ self.old.holding }
    {
        self.weather.fate()
    }

    /// Serves each client in order, and tells how many pushes were taken. Each fares by the fate
    /// that the weather draws when it is taken.
    ///
    /// After a refusal the clients before were served, and a push may be lost.
    pub fn serve_all<S: Homed, H: Hub<S, Push, Reply>>(
        &mut self,
        hub: &mut H,
    ) -> Result<u32, Memory>
        requires { IsHoldingOf self.old.holding (H.seen hub.old).run }
        ensures ok { IfOk result (λ count. ServesWith W.fates
            (length self.old.holding.server.owns) count self.old self.new
            (H.seen hub.old) (H.seen hub.new)) }
        ensures of { IsHoldingOf self.new.holding (H.seen hub.old).run }
        ensures grows { IsPrefix self.old.holding.server.joined.list
            self.new.holding.server.joined.list }
        ensures leaves { Leaves (H.seen hub.old) (H.seen hub.new) }
        ensures looked { OnOk result ((c : ℕ) → c < length self.old.holding.server.owns →
            LooksAt c (H.seen hub.old) (H.seen hub.new)) }
    {
        let clients = self.clients();
        let mut count = 0;
        for client in 0..clients {
            if self.serve_next(hub, client)? {
                count += 1;
            }
        }
        Ok(count)
    }
}

impl<W: Weather> Homed for Station<W> {
    ghost of_run = { λ station. IsHoldingOf station.holding };
}
