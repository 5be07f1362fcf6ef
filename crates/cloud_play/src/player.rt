// All clients of a program, the server and the boxes between them.
ghost use Rattle.std.specs.Prelude.{◌≡◌, ◌<◌, Contains, OnOk, is_some, length, ⊤};
ghost use Rattle.cloud_base.specs.Answer.{answer};
ghost use Rattle.cloud_base.specs.declared.schedule.ScheduleItem.{ScheduleItem as ScheduleItems};
ghost use Rattle.typed_program.specs.Programs.{item_client};
ghost use Rattle.typed_program.specs.declared.program.Parts.{Parts};
ghost use Rattle.slot_hub.specs.Plain.{seen_of};
ghost use Rattle.played_record.specs.Plays.{
  all_ended,
  item_done,
  scheduled,
  step,
  steps,
  sweep,
  swept_at,
};
ghost use Rattle.played_record.specs.Programs.{trace_of};
ghost use Rattle.played_record.specs.Worlds.{World, served};
ghost use Rattle.cloud_play.specs.Playings.{EndsAfter, IsPlaying, Plays};

use client_runner::{Runner, needs_come_in_order};
use cloud_base::{Fate, Memory, Schedule, ScheduleItem};
use packet_codec::{Push, Reply};
use played_bounds::{clients_do_little, rounds_stay_few};
use played_record::{moments_of_played_runs, programs_are_traced};
use played_serves::serves_are_played;
use played_turns::steps_are_played;
use server_core::{Fair, Station};
use slot_hub::{Homed, PlainHub, Run};

/// Nobody is at home at the hub of one thread: its server is asked directly.
#[derive(Drop)]
pub struct Nobody;

impl Homed for Nobody {
    ghost of_run = { λ _ _. ⊤ };
}

/// The clients of a program, its server, and the boxes between them, at a moment of its run.
#[derive(Drop)]
pub struct Player<'a, N: Run> {
    pub runners: Vec<Runner<'a>>,
    pub station: Station<Fair>,
    pub hub: PlainHub<N, Nobody, Push, Reply>,
}

impl<'a, N: Run> Player<'a, N> {
    /// A client takes one step of the played run.
    pub fn step(&mut self, client: u8) -> Result<(), Memory>
        requires client { client < length self.old.runners.items }
        requires playing { IsPlaying self.old.runners.items self.old.station.holding
            (seen_of N.name self.old.hub) }
        ensures { OnOk result ((p : Parts) (w : World) →
            Plays p self.old.runners.items self.old.station.holding
            (seen_of N.name self.old.hub) w →
            Plays p self.new.runners.items self.new.station.holding
            (seen_of N.name self.new.hub) (step (answer p.schema) (trace_of p) client w)) }
    {
        steps_are_played::<Nobody>();
        moments_of_played_runs();
        programs_are_traced();
        clients_do_little();
        rounds_stay_few();
        needs_come_in_order();
        let runner = self.runners.remove(client as usize);
        let (runner, _) = runner.step(&mut self.hub)?;
        runner.keeps();
        self.runners.insert(client as usize, runner)?;
        Ok(())
    }

    /// A client is served: what lies in its outbox fares by its fate, as in the played run.
    pub fn serve(&mut self, client: u8, fate: Fate) -> Result<(), Memory>
        requires client { client < length self.old.runners.items }
        requires playing { IsPlaying self.old.runners.items self.old.station.holding
            (seen_of N.name self.old.hub) }
        ensures { OnOk result ((p : Parts) (w : World) →
            Plays p self.old.runners.items self.old.station.holding
            (seen_of N.name self.old.hub) w →
            Plays p self.new.runners.items self.new.station.holding
            (seen_of N.name self.new.hub) (served client fate w)) }
    {
        serves_are_played::<Nobody>();
        moments_of_played_runs();
        rounds_stay_few();
        self.station.serve(&mut self.hub, client, fate)?;
        self.station.keeps();
        Ok(())
    }

    // It takes so many.
    fn steps(&mut self, client: u8, count: u32) -> Result<(), Memory>
        requires client { client < length self.old.runners.items }
        requires playing { IsPlaying self.old.runners.items self.old.station.holding
            (seen_of N.name self.old.hub) }
        ensures { OnOk result ((p : Parts) (w : World) →
            Plays p self.old.runners.items self.old.station.holding
            (seen_of N.name self.old.hub) w →
            Plays p self.new.runners.items self.new.station.holding
            (seen_of N.name self.new.hub)
            (steps (answer p.schema) (trace_of p) client count w)) }
    {
        for _ in 0..count {
            self.step(client)?;
        }
        Ok(())
    }

    // An item of a schedule is done.
    fn item(&mut self, item: ScheduleItem) -> Result<(), Memory>
        requires client { item_client item < length self.old.runners.items }
        requires playing { IsPlaying self.old.runners.items self.old.station.holding
            (seen_of N.name self.old.hub) }
        ensures { OnOk result ((p : Parts) (w : World) →
            Plays p self.old.runners.items self.old.station.holding
            (seen_of N.name self.old.hub) w →
            Plays p self.new.runners.items self.new.station.holding
            (seen_of N.name self.new.hub)
            (item_done (answer p.schema) (trace_of p) item w)) }
    {
        match item {
            ScheduleItem::Steps { client, count } => self.steps(client, count),
            ScheduleItem::Serve { client, fate } => self.serve(client, fate),
        }
    }

    /// A schedule is followed.
    pub fn follow(&mut self, schedule: &Schedule) -> Result<(), Memory>
        requires clients { (item : ScheduleItems) → Contains schedule.now item →
            item_client item < length self.old.runners.items }
        requires playing { IsPlaying self.old.runners.items self.old.station.holding
            (seen_of N.name self.old.hub) }
        ensures { OnOk result ((p : Parts) (w : World) →
            Plays p self.old.runners.items self.old.station.holding
            (seen_of N.name self.old.hub) w →
            Plays p self.new.runners.items self.new.station.holding
            (seen_of N.name self.new.hub)
            (scheduled (answer p.schema) (trace_of p) schedule.now w)) }
    {
        for item in schedule.as_slice() {
            self.item(*item)?;
        }
        Ok(())
    }

    // Whether a client has ended.
    fn has_ended(&self, client: u8) -> bool
        requires client { client < length self.now.runners.items }
        ensures { (p : Parts) (w : World) →
            Plays p self.now.runners.items self.now.station.holding
            (seen_of N.name self.now.hub) w → result ≡ is_some (w.client client).end }
    {
        self.runners[client as usize].end().is_some()
    }

    // Whether all have.
    fn have_ended(&self) -> bool
        ensures { (p : Parts) (w : World) →
            Plays p self.now.runners.items self.now.station.holding
            (seen_of N.name self.now.hub) w → result ≡ all_ended (length p.bodies) w }
    {
        self.runners.iter().all(|runner| runner.end().is_some())
    }

    // A client that hasn't ended takes a step, and is served.
    fn sweep_client(&mut self, client: u8) -> Result<(), Memory>
        requires client { client < length self.old.runners.items }
        requires playing { IsPlaying self.old.runners.items self.old.station.holding
            (seen_of N.name self.old.hub) }
        ensures { OnOk result ((p : Parts) (w : World) →
            Plays p self.old.runners.items self.old.station.holding
            (seen_of N.name self.old.hub) w →
            Plays p self.new.runners.items self.new.station.holding
            (seen_of N.name self.new.hub)
            (swept_at (answer p.schema) (trace_of p) (w.client client).end client w)) }
    {
        if self.has_ended(client) {
            return Ok(());
        }
        self.step(client)?;
        self.serve(client, Fate::Pass)
    }

    // So does each client, in order.
    fn sweep(&mut self) -> Result<(), Memory>
        requires playing { IsPlaying self.old.runners.items self.old.station.holding
            (seen_of N.name self.old.hub) }
        ensures { OnOk result ((p : Parts) (w : World) →
            Plays p self.old.runners.items self.old.station.holding
            (seen_of N.name self.old.hub) w →
            Plays p self.new.runners.items self.new.station.holding
            (seen_of N.name self.new.hub)
            (sweep (answer p.schema) (trace_of p) (length p.bodies) w)) }
    {
        let clients = self.runners.len() as u8;
        for client in 0..clients {
            self.sweep_client(client)?;
        }
        Ok(())
    }

    /// The clients are swept until all have ended. A run of 2^64 sweeps has more events than any
    /// memory.
    pub fn sweeps(&mut self) -> Result<(), Memory>
        requires playing { IsPlaying self.old.runners.items self.old.station.holding
            (seen_of N.name self.old.hub) }
        ensures { OnOk result ((p : Parts) (w : World) →
            Plays p self.old.runners.items self.old.station.holding
            (seen_of N.name self.old.hub) w →
            EndsAfter p w self.new.runners.items self.new.station.holding
            (seen_of N.name self.new.hub)) }
    {
        for _ in 0..u64::MAX {
            if self.have_ended() {
                return Ok(());
            }
            self.sweep()?;
        }
        Err(Memory)
    }
}
