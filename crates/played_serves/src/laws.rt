// What a serve of a client comes to in a played run.
ghost use Rattle.std.specs.Prelude.{◌≡◌, ◌≢◌, ℕ, List, Some};
ghost use Rattle.cloud_base.specs.Events.{Outcome};
ghost use Rattle.cloud_base.specs.declared.schedule.Fate.{Fate};
ghost use Rattle.cloud_base.specs.declared.update.Answer.{Answer};
ghost use Rattle.cloud_base.specs.declared.update.Event.{Event};
ghost use Rattle.slot_hub.specs.Boxes.{Boxes, Seen};
ghost use Rattle.packet_codec.specs.Pushes.{Pushed};
ghost use Rattle.packet_codec.specs.Replies.{Replied};
ghost use Rattle.server_core.specs.Stations.{Holding, IsHolding, Serves, held_of};
ghost use Rattle.server_core.specs.declared.station.Served.{Served as Came};
ghost use Rattle.client_runner.specs.Steps.{IsRan, Ran};
ghost use Rattle.played_record.specs.Laws.{IsMoment};
ghost use Rattle.played_record.specs.Worlds.{World, served};
ghost use Rattle.played_moments.specs.Moments.{GoesOnAt, IsAt, Mail, mail_of};

use slot_hub::Homed;

/// A serve of a client over boxes that are told is a serve of the played run, which has the record
/// of the server. What is on its way for other clients stays, and so do they.
pub fn serves_are_played<S: Homed>()
    ensures own { (trace : ℕ → List Answer → List Event × Outcome) (c : ℕ) (fate : Fate)
        (came : Came) (w : World) (run : Ran) (old new : Holding)
        (boxes : Boxes S Pushed Replied) (hub hub' : Seen S Pushed Replied)
        → IsMoment trace w → IsRan run → IsHolding old → hub.boxes ≡ Some boxes
        → w.batches ≡ old.server.joined.list
        → IsAt c run (mail_of c boxes old hub.taken) w
        → ((k : ℕ) → k ≢ c → held_of k new ≡ held_of k old)
        → Serves c fate came old new hub hub'
        → GoesOnAt c run boxes old new hub hub' (served c fate w)
        × ((served c fate w).batches ≡ new.server.joined.list) }
    ensures others { (trace : ℕ → List Answer → List Event × Outcome) (c k : ℕ) (fate : Fate)
        (run : Ran) (mail : Mail) (w : World) → IsMoment trace w → k ≢ c
        → IsAt k run mail w → IsAt k run mail (served c fate w) }
{}
