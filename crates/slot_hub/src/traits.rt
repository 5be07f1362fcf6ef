// What a hub is, and what it carries.
ghost use Rattle.std.specs.Prelude.{◌≡◌, ◌<◌, ℕ, true, false};
ghost use Rattle.std.specs.Option.{ForSome};
ghost use Rattle.slot_hub.specs.Runs.{Named, Carries, clients_of, no_run};
ghost use Rattle.slot_hub.specs.Boxes.{Seen};
ghost use Rattle.slot_hub.specs.Trades.{TradesOut, TradesIn, TakesServer, GivesServer};

use std::marker::Brand;

/// Names the run of a hub, by a type.
pub trait Run {
    ghost name: { Named };
}

impl Run for Brand {
    ghost name = { no_run };
}

/// A packet of a client, in one of its rounds.
pub trait Numbered: Drop {
    ghost round_of: { Self → ℕ };

    ghost client_of: { Self → ℕ };

    ghost of_run: { Self → Named → Type 0 };

    /// The round, counted from 1.
    fn round(&self) -> u64
        ensures { result ≡ round_of self.now };

    /// The client's number.
    fn client(&self) -> u8
        ensures { result ≡ client_of self.now };
}

/// A server.
pub trait Homed: Drop {
    ghost of_run: { Self → Named → Type 0 };
}

/// A slot is held by another port. What was handed in comes back.
#[derive(Drop)]
pub struct Busy<T> {
    pub back: T,
    /// The number of the port that holds it, never 0.
    pub holder: u64,
}

/// An outbox and an inbox for each client, and the place of the server. No call waits.
///
/// A hub may tell what its boxes hold, and then it is never busy. Where it doesn't, it counts the
/// trades that found a slot free and those that found it busy.
pub trait Hub<S: Homed, P: Numbered, R: Numbered> {
    ghost seen: { Self → Seen S P R };

    /// Puts a push, or nothing, into a client's outbox, and gives what that held.
    fn trade_out(&mut self, client: u8, new: Option<P>) -> Result<Option<P>, Busy<Option<P>>>
        requires client { client < clients_of (seen self.old).run }
        requires new { ForSome new (Carries P.client_of P.of_run (seen self.old).run client) }
        ensures { TradesOut P.client_of P.of_run client new result (seen self.old)
            (seen self.new) };

    /// Puts a reply, or nothing, into a client's inbox, and gives what that held.
    fn trade_in(&mut self, client: u8, new: Option<R>) -> Result<Option<R>, Busy<Option<R>>>
        requires client { client < clients_of (seen self.old).run }
        requires new { ForSome new (Carries R.client_of R.of_run (seen self.old).run client) }
        ensures { TradesIn R.client_of R.round_of R.of_run client new result (seen self.old)
            (seen self.new) };

    /// The round of the last reply that a client took from its inbox for nothing, 0 before that.
    fn taken(&self, client: u8) -> u64
        requires { client < clients_of (seen self.now).run }
        ensures { result ≡ (seen self.now).taken client };

    /// Takes the server. It is to be given back.
    fn take_server(&mut self) -> Result<S, Busy<()>>
        requires { (seen self.old).took ≡ false }
        ensures { TakesServer S.of_run result (seen self.old) (seen self.new) };

    /// Gives the server back.
    fn give_server(&mut self, server: S)
        requires took { (seen self.old).took ≡ true }
        requires of { S.of_run server (seen self.old).run }
        ensures { GivesServer server (seen self.old) (seen self.new) };
}
