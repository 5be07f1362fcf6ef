// What a client sends.
ghost use Rattle.std.specs.Prelude.{◌<◌};
ghost use Rattle.slot_hub.specs.Runs.{clients_of};
ghost use Rattle.packet_codec.specs.Runs.{push_of_run};
ghost use Rattle.session_core.specs.Meetings.{HandsOut};

use crate::turns::PushOut;
use packet_codec::{Push, Reply};
use slot_hub::{Homed, Hub, Numbered};

/// Puts a push into its client's outbox. Its round is new, or is put out again.
pub fn hand_out<S: Homed, H: Hub<S, Push, Reply>>(hub: &mut H, push: Push, again: bool) -> PushOut
    requires client { push.batch.client < clients_of (H.seen hub.old).run }
    requires of { push_of_run push (H.seen hub.old).run }
    ensures { HandsOut push again result (H.seen hub.old) (H.seen hub.new) }
{
    let client = push.client();
    let round = push.round();
    match hub.trade_out(client, Some(push)) {
        Ok(_) => {
            if again {
                PushOut::Again { round }
            } else {
                PushOut::New { round }
            }
        }
        Err(busy) => {
            let holder = busy.holder;
            PushOut::Busy { holder }
        }
    }
}
