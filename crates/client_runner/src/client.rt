// A client's machine and its session, step by step.
ghost use Rattle.std.specs.Prelude.{◌≡◌, ◌≢◌, ◌+◌, ◌<◌, ◌^◌, ◌⊎◌, length, IfOk, OnOk, OnErr};
ghost use Rattle.cloud_base.specs.Answer.{answer};
ghost use Rattle.cloud_base.specs.declared.update.Event.TheVariants as Events;
ghost use Rattle.session_core.specs.declared.flushing.Flushing.TheVariants.{Closed, Marked};
ghost use Rattle.session_core.specs.Standings.{is_of_run, seen, updates_done};
ghost use Rattle.session_core.specs.Sessions.{noted, noted_at};
ghost use Rattle.client_runner.specs.Runners.{Follows, IsDue, IsOver};
ghost use Rattle.client_runner.specs.Steps.{
  Does,
  Lacks,
  LacksAt,
  LacksNeed,
  StarvesSo,
  StepsAt,
  TakesNeed,
  TurnsOnce,
  YieldsOnce,
};
ghost use Rattle.client_runner.specs.Turned.{IsMode, end_of, ended_in, mode_after};

use crate::stepped::{Mode, Stepped, after_turn};
use cloud_base::{Answer, Memory, Query, Update};
use code_machine::{Machine, Need};
use packet_codec::{Push, Reply};
use session_core::Session;
use slot_hub::{Homed, Hub};

#[derive(Drop)]
pub struct Client<'a> {
    pub machine: Machine<'a>,
    pub session: Session,
}

impl<'a> Client<'a> {
    // What its machine needs next.
    fn next(&mut self) -> Result<Need, Memory>
        requires follows { Follows self.old }
        requires few { length (updates_done self.old.session.stands) < 2 ^ 32 }
        ensures due { IfOk result (λ need. IsDue need self.new) }
        ensures code { self.new.machine.code.now ≡ self.old.machine.code.now }
        ensures session { self.new.session ≡ self.old.session }
    {
        self.session.keeps();
        self.machine.next()
    }

    fn update(&mut self, update: Update) -> Result<(), Memory>
        requires due { IsDue (Need.Do update) self.old }
        requires closed { self.old.session.stands.flush ≡ Closed }
        requires few { length (updates_done self.old.session.stands) + 1 < 2 ^ 28 }
        ensures follows { OnOk result (Follows self.new) }
        ensures noted { OnOk result (self.new.session.stands
            ≡ noted (Events.Do update) self.old.session.stands) }
        ensures code { self.new.machine.code.now ≡ self.old.machine.code.now }
    {
        self.session.keeps();
        self.session.update(update)
    }

    fn ask(&mut self, query: Query) -> Result<(), Memory>
        requires due { IsDue (Need.Ask query) self.old }
        requires closed { self.old.session.stands.flush ≡ Closed }
        ensures follows { OnOk result (Follows self.new) }
        ensures noted { OnOk result (self.new.session.stands ≡ noted (Events.Ask query
            (answer self.old.session.stands.schema (seen self.old.session.stands) query))
            self.old.session.stands) }
        ensures code { self.new.machine.code.now ≡ self.old.machine.code.now }
    {
        self.session.keeps();
        let answer = self.session.ask(query)?;
        self.machine.answer(answer);
        Ok(())
    }

    fn say(&mut self, value: Answer) -> Result<(), Memory>
        requires due { IsDue (Need.Say value) self.old }
        requires closed { self.old.session.stands.flush ≡ Closed }
        ensures follows { OnOk result (Follows self.new) }
        ensures noted { OnOk result (self.new.session.stands
            ≡ noted (Events.Say value) self.old.session.stands) }
        ensures code { self.new.machine.code.now ≡ self.old.machine.code.now }
    {
        self.session.keeps();
        self.session.say(value)
    }

    fn yields<S: Homed, H: Hub<S, Push, Reply>>(&mut self, hub: &mut H) -> Result<Stepped, Memory>
        requires due { IsDue Need.Yield self.old }
        requires closed { self.old.session.stands.flush ≡ Closed }
        requires of { is_of_run self.old.session.stands (H.seen hub.old).run }
        requires rounds { length self.old.session.stands.own.list < 2 ^ 32 }
        ensures follows { OnOk result (Follows self.new) }
        ensures yields { IfOk result (λ out. YieldsOnce self.old.session.stands
            self.new.session.stands out (H.seen hub.old) (H.seen hub.new)) }
        ensures err { OnErr result (StarvesSo self.old.session.stands
            (noted Events.Yield self.old.session.stands) (H.seen hub.old) (H.seen hub.new)) }
        ensures code { self.new.machine.code.now ≡ self.old.machine.code.now }
    {
        self.session.keeps();
        match self.session.yield_turn(hub) {
            Ok(_) => Ok(Stepped::Yields),
            Err(_) => Err(Memory),
        }
    }

    // Goes on with an open flush.
    fn turn<S: Homed, H: Hub<S, Push, Reply>>(&mut self, hub: &mut H) -> Result<Stepped, Memory>
        requires follows { Follows self.old }
        requires flushing { self.old.session.stands.flush ≢ Closed }
        requires of { is_of_run self.old.session.stands (H.seen hub.old).run }
        requires rounds { length self.old.session.stands.own.list < 2 ^ 32 }
        ensures follows { OnOk result (Follows self.new) }
        ensures turns { IfOk result (λ out. TurnsOnce self.old.session.stands
            self.new.session.stands out (H.seen hub.old) (H.seen hub.new)) }
        ensures err { OnErr result (StarvesSo self.old.session.stands self.old.session.stands
            (H.seen hub.old) (H.seen hub.new)) }
        ensures code { self.new.machine.code.now ≡ self.old.machine.code.now }
    {
        self.session.keeps();
        match self.session.flush_turn(hub) {
            Ok(turn) => Ok(after_turn(turn)),
            Err(_) => Err(Memory),
        }
    }

    // Begins a flush.
    fn begin_flush(&mut self) -> Result<(), Memory>
        requires due { IsDue Need.Flush self.old }
        requires closed { self.old.session.stands.flush ≡ Closed }
        ensures follows { OnOk result (Follows self.new) }
        ensures noted { OnOk result (self.new.session.stands
            ≡ noted_at Marked Events.Flush self.old.session.stands) }
        ensures code { self.new.machine.code.now ≡ self.old.machine.code.now }
    {
        self.session.keeps();
        self.session.flush_start()
    }

    fn flush<S: Homed, H: Hub<S, Push, Reply>>(&mut self, hub: &mut H) -> Result<Stepped, Memory>
        requires due { IsDue Need.Flush self.old }
        requires closed { self.old.session.stands.flush ≡ Closed }
        requires of { is_of_run self.old.session.stands (H.seen hub.old).run }
        requires rounds { length self.old.session.stands.own.list < 2 ^ 32 }
        ensures follows { OnOk result (Follows self.new) }
        ensures turns { IfOk result (λ out. TurnsOnce
            (noted_at Marked Events.Flush self.old.session.stands)
            self.new.session.stands out (H.seen hub.old) (H.seen hub.new)) }
        ensures err { OnErr result (Lacks Need.Flush self.old.session.stands
            (H.seen hub.old) (H.seen hub.new)) }
        ensures code { self.new.machine.code.now ≡ self.old.machine.code.now }
    {
        self.begin_flush()?;
        self.turn(hub)
    }

    // Does what is needed.
    fn meet<S: Homed, H: Hub<S, Push, Reply>>(
        &mut self,
        need: Need,
        hub: &mut H,
    ) -> Result<Stepped, Memory>
        requires due { IsDue need self.old }
        requires closed { self.old.session.stands.flush ≡ Closed }
        requires of { is_of_run self.old.session.stands (H.seen hub.old).run }
        requires few { length (updates_done self.old.session.stands) + 1 < 2 ^ 28 }
        requires rounds { length self.old.session.stands.own.list < 2 ^ 32 }
        ensures follows { OnOk result (Follows self.new) }
        ensures over { IfOk result (λ out. IsOver (end_of out) self.new) }
        ensures does { IfOk result (λ out. Does need self.old.session.stands
            self.new.session.stands out (H.seen hub.old) (H.seen hub.new)) }
        ensures err { OnErr result (Lacks need self.old.session.stands
            (H.seen hub.old) (H.seen hub.new)) }
        ensures code { self.new.machine.code.now ≡ self.old.machine.code.now }
    {
        match need {
            Need::Do(update) => {
                self.update(update)?;
                Ok(Stepped::Went)
            }
            Need::Ask(query) => {
                self.ask(query)?;
                Ok(Stepped::Went)
            }
            Need::Say(value) => {
                self.say(value)?;
                Ok(Stepped::Went)
            }
            Need::Yield => self.yields(hub),
            Need::Flush => self.flush(hub),
            Need::Ended(end) => Ok(Stepped::Ended(end)),
        }
    }

    // Does what is needed next.
    fn take_need<S: Homed, H: Hub<S, Push, Reply>>(
        &mut self,
        hub: &mut H,
    ) -> Result<Stepped, Memory>
        requires follows { Follows self.old }
        requires closed { self.old.session.stands.flush ≡ Closed }
        requires of { is_of_run self.old.session.stands (H.seen hub.old).run }
        requires few { length (updates_done self.old.session.stands) + 1 < 2 ^ 28 }
        requires rounds { length self.old.session.stands.own.list < 2 ^ 32 }
        ensures follows { OnOk result (Follows self.new) }
        ensures over { IfOk result (λ out. IsOver (end_of out) self.new) }
        ensures needs { IfOk result (λ out. TakesNeed self.old.machine.code.now
            self.old.session.stands self.new.session.stands out (H.seen hub.old)
            (H.seen hub.new)) }
        ensures err { OnErr result ((H.seen hub.new ≡ H.seen hub.old) ⊎
            LacksNeed self.old.machine.code.now self.old.session.stands (H.seen hub.old)
            (H.seen hub.new)) }
        ensures code { self.new.machine.code.now ≡ self.old.machine.code.now }
    {
        let need = self.next()?;
        self.meet(need, hub)
    }

    /// One step, from where the run is.
    pub fn step<S: Homed, H: Hub<S, Push, Reply>>(
        &mut self,
        mode: Mode,
        hub: &mut H,
    ) -> Result<Stepped, Memory>
        requires follows { Follows self.old }
        requires over { IsOver (ended_in mode) self.old }
        requires mode { IsMode mode self.old.session.stands.flush }
        requires of { is_of_run self.old.session.stands (H.seen hub.old).run }
        requires few { length (updates_done self.old.session.stands) + 1 < 2 ^ 28 }
        requires rounds { length self.old.session.stands.own.list < 2 ^ 32 }
        ensures follows { OnOk result (Follows self.new) }
        ensures over { IfOk result (λ out. IsOver (end_of out) self.new) }
        ensures mode { IfOk result (λ out.
            IsMode (mode_after out) self.new.session.stands.flush) }
        ensures steps { IfOk result (λ out. StepsAt (ended_in mode)
            self.old.session.stands.flush self.old.machine.code.now self.old.session.stands
            self.new.session.stands out (H.seen hub.old) (H.seen hub.new)) }
        ensures err { OnErr result (LacksAt (ended_in mode) self.old.session.stands.flush
            self.old.machine.code.now self.old.session.stands (H.seen hub.old)
            (H.seen hub.new)) }
        ensures code { self.new.machine.code.now ≡ self.old.machine.code.now }
    {
        match mode {
            Mode::Goes => self.take_need(hub),
            Mode::Waits => self.turn(hub),
            Mode::Ended(end) => Ok(Stepped::Ended(end)),
        }
    }
}
