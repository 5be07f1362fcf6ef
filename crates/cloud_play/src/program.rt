// The run of a program.
ghost use Rattle.std.specs.Prelude.{◌≡◌, ℕ, length, map, IfOk, None, Some, is_some, slice_get, true};
ghost use Rattle.session_core.specs.Standings.{tail_of};
ghost use Rattle.client_runner.specs.Steps.{Ran};
ghost use Rattle.slot_hub.specs.Plain.{seen_of};
ghost use Rattle.played_record.specs.Worlds.{opening};
ghost use Rattle.cloud_play.specs.Openings.{AreCodes, IsBegun};
ghost use Rattle.cloud_play.specs.Playings.{HaveEnded, Plays, named_of};
ghost use Rattle.cloud_play.specs.Runs.{IsLeft, IsRunOf};

use crate::opening::{compile_all, open_all};
use crate::player::{Nobody, Player};
use client_runner::Runner;
use cloud_base::{End, Memory, Sequence};
use diagram_text::{Record, TailList};
use plain_vm::Code;
use played_bounds::{clients_do_little, records_stay_small, rounds_stay_few};
use played_moments::runs_begin;
use played_record::{moments_of_played_runs, programs_are_traced};
use revision_diagram::EndList;
use server_core::{Fair, Server, Station};
use session_tails::sessions_leave_records;
use slot_hub::{PlainHub, Run};
use std::alloc::Global;
use std::marker::Brand;
use typed_program::Program;

// How a run ended that is over.
fn end_of(runner: &Runner<'_>) -> End
    requires { is_some runner.now.ended ≡ true }
    ensures { Some result ≡ runner.now.ended }
{
    match runner.end() {
        Some(end) => end,
        None => unreachable!(),
    }
}

// What is left of each client: its tail, and how it ended.
fn what_is_left(alloc: Global, runners: Vec<Runner<'_>>) -> Result<(TailList, EndList), Memory>
    requires { HaveEnded runners.items }
    ensures tails { IfOk result (λ left.
        left.0 ≡ map (λ (r : Ran). tail_of r.stands) runners.entry.items) }
    ensures ends { IfOk result (λ left.
        map Some left.1 ≡ map (λ (r : Ran). r.ended) runners.entry.items) }
{
    let mut tails = Sequence::new(alloc);
    let mut ends = Sequence::new(alloc);
    for runner in runners {
        ends.push(end_of(&runner))?;
        tails.push(runner.into_session().finish())?;
    }
    Ok((tails, ends))
}

// The record of a run that came to its end.
fn record_of<N: Run>(alloc: Global, player: Player<'_, N>) -> Result<Record, Memory>
    requires { HaveEnded player.runners.items }
    ensures { IfOk result (IsLeft player.entry.runners.items player.entry.station.holding) }
{
    let Player {
        runners,
        station,
        hub: _,
    } = player;
    let (tails, ends) = what_is_left(alloc, runners)?;
    Ok(Record {
        batches: station.into_record(),
        tails,
        ends,
    })
}

// All that plays a program, before its first step.
fn seat<'a, N: Run>(
    alloc: Global,
    program: &Program,
    server: Server,
    runners: Vec<Runner<'a>>,
) -> Result<Player<'a, N>, Memory>
    requires name { N.name ≡ named_of server runners.items }
    requires begun { IsBegun program.now server runners.items }
    ensures { IfOk result (λ player. Plays program.now player.runners.items
        player.station.holding (seen_of N.name player.hub) opening) }
{
    runs_begin();
    moments_of_played_runs();
    rounds_stay_few();
    let clients = program.clients() as u8;
    let station = Station::new(alloc, server, Fair)?;
    station.keeps();
    let hub = PlainHub::new(alloc, clients, Nobody)?;
    Ok(Player {
        runners,
        station,
        hub,
    })
}

// Plays a program to its end.
fn play<'a, N: Run>(
    alloc: Global,
    program: &Program,
    server: Server,
    runners: Vec<Runner<'a>>,
) -> Result<Record, Memory>
    requires name { N.name ≡ named_of server runners.items }
    requires begun { IsBegun program.now server runners.items }
    ensures { IfOk result (IsRunOf program.now) }
{
    clients_do_little();
    records_stay_small();
    sessions_leave_records();
    programs_are_traced();
    let mut player = seat::<N>(alloc, program, server, runners)?;
    player.follow(program.schedule())?;
    player.sweeps()?;
    record_of(alloc, player)
}

fn run_codes(alloc: Global, program: &Program, codes: &[Code]) -> Result<Record, Memory>
    requires { AreCodes program.now codes.now }
    ensures { IfOk result (IsRunOf program.now) }
{
    let schema = program.schema();
    let mut server = Server::open(alloc, schema, program.clients() as u8)?;
    let runners = open_all(alloc, codes, schema, &mut server)?;
    server.keeps();
    play::<Brand>(alloc, program, server, runners)
}

/// Runs a program: first by its schedule, and then each client that hasn't ended takes a step and
/// is served, in order and again until all have ended.
pub fn run(alloc: Global, program: &Program) -> Result<Record, Memory>
    ensures { IfOk result (IsRunOf program.now) }
{
    let codes = compile_all(alloc, program)?;
    run_codes(alloc, program, codes.as_slice())
}
