// What comes to a client.
ghost use Rattle.std.specs.Prelude.{◌≡◌, ◌<◌, List, ◌++◌, IfOk, OnOk};
ghost use mathlib.Core.List.{IsPrefix};
ghost use Rattle.cloud_base.specs.Alike.{IsPart};
ghost use Rattle.cloud_base.specs.Shaped.{Fit};
ghost use Rattle.cloud_base.specs.declared.update.Update.{Update};
ghost use Rattle.batch_joins.specs.Joins.{all_updates};
ghost use Rattle.schema_fj.specs.States.{StateStands};
ghost use Rattle.slot_hub.specs.Runs.{clients_of};
ghost use Rattle.session_core.specs.Meetings.{FindsFor, OfOneList};

use crate::turns::Pull;
use cloud_base::{Batch, Memory, Schema};
use front_table::{Front, Writer};
use packet_codec::{Fronts, Push, Reply};
use schema_fj::State;
use slot_hub::{Homed, Hub, Numbered};
use std::alloc::Global;

/// A reply, and the state that goes on from it.
#[derive(Drop)]
pub struct Ready {
    pub reply: Reply,
    pub state: State,
}

/// Looks into a client's inbox for the reply to a round.
pub fn look_in<S: Homed, H: Hub<S, Push, Reply>>(
    hub: &mut H,
    client: u8,
    round: u64,
) -> (Pull, Option<Reply>)
    requires { client < clients_of (H.seen hub.old).run }
    ensures { FindsFor client round result.0 result.1 (H.seen hub.old) (H.seen hub.new) }
{
    match hub.trade_in(client, None) {
        Ok(Some(reply)) => {
            reply.keeps();
            if reply.round() == round {
                (Pull::Took { round }, Some(reply))
            } else {
                let taken = hub.taken(client);
                (Pull::Nothing { taken }, None)
            }
        }
        Ok(None) => {
            let taken = hub.taken(client);
            (Pull::Nothing { taken }, None)
        }
        Err(busy) => {
            let holder = busy.holder;
            (Pull::Busy { holder }, None)
        }
    }
}

/// Tells what a session's tokens and a reply's have in common.
pub fn meet(past: &mut Front<Batch>, own: &mut Writer<Batch>, fronts: Fronts) -> Result<(), Memory>
    requires past { fronts.past.chronicle ≡ past.old.chronicle }
    requires own { fronts.own.chronicle ≡ own.old.chronicle }
    ensures mine { OnOk result (IsPrefix fronts.own.list own.old.list) }
    ensures seen { OnOk result (OfOneList past.old.list fronts.past.list) }
    ensures same_past { past.new ≡ past.old }
    ensures same_own { own.new ≡ own.old }
{
    let mut longest = past.copy()?;
    longest.meet(fronts.past);
    own.meet(fronts.own);
    Ok(())
}

/// The state of a reply's record, with what a session did since its last push.
pub fn rejoined(
    alloc: Global,
    schema: &Schema,
    reply: &Reply,
    state: &State,
) -> Result<State, Memory>
    requires { reply.now.schema ≡ schema.now }
    ensures { IfOk result (λ next. (before after : List Update) →
        Fit schema.now (all_updates reply.now.past.list) →
        StateStands schema.now state.now before after →
        IsPart before (all_updates reply.now.past.list) →
        Fit schema.now (all_updates reply.now.past.list ++ after) →
        StateStands schema.now next (all_updates reply.now.past.list) after) }
{
    let image = reply.image()?;
    let mut next = State::of_image(alloc, schema, &image)?;
    next.join(state)?;
    Ok(next)
}
