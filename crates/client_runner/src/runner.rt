// Runners.
ghost use Rattle.std.specs.Prelude.{◌≡◌, ◌≢◌, ◌+◌, ◌-◌, ◌^◌, ◌<◌, ◌↔◌, length, min, None};
ghost use Rattle.std.specs.Prelude.{IfOk, OnErr, IsTrue};
ghost use Rattle.slot_hub.specs.Trades.{Keeps};
ghost use Rattle.session_core.specs.declared.flushing.Flushing.TheVariants.{Closed};
ghost use Rattle.session_core.specs.Standings.{is_of_run, updates_done};
ghost use Rattle.client_runner.specs.Steps.{
  IsRan,
  IsUnused,
  LeavesHub,
  LittleMore,
  Steps,
  needs_had,
};
ghost use Rattle.client_runner.specs.Turned.{end_of, needs_after};

use crate::client::Client;
use crate::stepped::{Mode, Stepped, ended_in, mode_after};
use cloud_base::{End, Memory};
use code_machine::Machine;
use packet_codec::{Push, Reply};
use plain_vm::Code;
use session_core::Session;
use slot_hub::{Homed, Hub};
use std::alloc::Global;
use std::marker::Model;

// How many needs were had after one more step, from where the run is.
fn needs_after(mode: Mode, needs: u64) -> u64
    ensures { result ≡ needs_after mode needs }
{
    match mode {
        Mode::Goes => needs.saturating_add(1),
        Mode::Waits | Mode::Ended(_) => needs,
    }
}

/// One client: the machine that runs its code, and its session.
///
/// By its type the events of its session are the needs of the code so far, in order, but for the
/// end, and each query got the answer that its event tells.
#[derive(Drop)]
pub struct Runner<'a> {
    client: Client<'a>,
    mode: Mode,
    needs: u64,
}

impl<'a> Model for Runner<'a> {
    ghost use Rattle.client_runner.specs.Steps.{Ran};

    ghost Value = { Ran };

    ghost use Rattle.client_runner.specs.Runners.{ran_in, IsRunner};

    ghost view = { ran_in };

    ghost invariant = { IsRunner };
}

impl<'a> Runner<'a> {
    /// A client that did nothing yet.
    pub fn new(
        alloc: Global,
        code: &'a Code,
        client: u8,
        session: Session,
    ) -> Result<Runner<'a>, Memory>
        requires client { session.stands.client ≡ client }
        requires schema { session.stands.schema ≡ code.now.schema }
        requires unused { IsUnused session.stands }
        ensures code { IfOk result (λ runner. runner.code ≡ code.now) }
        ensures session { IfOk result (λ runner. runner.stands ≡ session.stands) }
        ensures ended { IfOk result (λ runner. runner.ended ≡ None) }
    {
        session.keeps();
        let machine = Machine::new(alloc, code, client)?;
        Ok(Runner {
            client: Client { machine, session },
            mode: Mode::Goes,
            needs: 0,
        })
    }

    /// What each runner keeps.
    pub fn keeps(&self)
        ensures { IsRan self.now }
    {
        self.client.session.keeps();
    }

    /// How many needs the client had. An end counts once, and the count stands still at its end.
    pub fn needs(&self) -> u64
        ensures { result ≡ min (needs_had self.now) (2 ^ 64 - 1) }
    {
        self.needs
    }

    /// Whether a flush is open.
    pub fn waits(&self) -> bool
        ensures { IsTrue result ↔ (self.now.stands.flush ≢ Closed) }
    {
        matches!(self.mode, Mode::Waits)
    }

    /// How its run ended, once it is over.
    pub fn end(&self) -> Option<End>
        ensures { result ≡ self.now.ended }
    {
        ended_in(self.mode)
    }

    /// One step: a client that waits in a flush goes on with that, and any other one has its next
    /// need met. A client whose run is over does nothing.
    pub fn step<S: Homed, H: Hub<S, Push, Reply>>(
        self,
        hub: &mut H,
    ) -> Result<(Runner<'a>, Stepped), Memory>
        requires of { is_of_run self.stands (H.seen hub.old).run }
        requires few { length (updates_done self.stands) + 1 < 2 ^ 28 }
        requires rounds { length self.stands.own.list < 2 ^ 32 }
        ensures steps { IfOk result (λ it. Steps self.entry it.0 it.1 (H.seen hub.old)
            (H.seen hub.new)) }
        ensures code { IfOk result (λ it. it.0.code ≡ self.entry.code) }
        ensures ended { IfOk result (λ it. it.0.ended ≡ end_of it.1) }
        ensures waits { IfOk result (λ it.
            (it.1 ≡ Stepped.Waits) ↔ (it.0.stands.flush ≢ Closed)) }
        ensures little { IfOk result (λ it. LittleMore self.entry.stands it.0.stands) }
        ensures of { IfOk result (λ it. is_of_run it.0.stands (H.seen hub.new).run) }
        ensures hub { Keeps (H.seen hub.old) (H.seen hub.new) }
        ensures server { (H.seen hub.new).took ≡ (H.seen hub.old).took }
        ensures err { OnErr result (LeavesHub self.entry (H.seen hub.old) (H.seen hub.new)) }
    {
        self.keeps();
        let Runner {
            client,
            mode,
            needs,
        } = self;
        let mut client = client;
        let stepped = client.step(mode, hub)?;
        let runner = Runner {
            client,
            mode: mode_after(stepped),
            needs: needs_after(mode, needs),
        };
        Ok((runner, stepped))
    }

    /// Its session.
    pub fn into_session(self) -> Session
        ensures session { result.stands ≡ self.entry.stands }
        ensures kept { IsRan self.entry }
    {
        self.client.session.keeps();
        let Runner {
            client,
            mode: _,
            needs: _,
        } = self;
        let Client {
            machine: _,
            session,
        } = client;
        session
    }
}
