// What a step of a client comes to in a played run.
ghost use Rattle.std.specs.Prelude.{◌≡◌, ◌≢◌, ℕ, List, Some};
ghost use Rattle.cloud_base.specs.Answer.{answer};
ghost use Rattle.cloud_base.specs.Events.{Outcome};
ghost use Rattle.cloud_base.specs.declared.update.Answer.{Answer};
ghost use Rattle.cloud_base.specs.declared.update.Event.{Event};
ghost use Rattle.cloud_base.specs.declared.update.Query.{Query};
ghost use Rattle.cloud_base.specs.declared.update.Update.{Update};
ghost use Rattle.slot_hub.specs.Boxes.{Boxes, Seen};
ghost use Rattle.packet_codec.specs.Pushes.{Pushed};
ghost use Rattle.packet_codec.specs.Replies.{Replied};
ghost use Rattle.server_core.specs.Stations.{Holding};
ghost use Rattle.client_runner.specs.Steps.{IsRan, Ran, Steps};
ghost use Rattle.client_runner.specs.Turned.{end_of};
ghost use Rattle.client_runner.specs.declared.stepped.Stepped.{Stepped as Came};
ghost use Rattle.played_record.specs.Laws.{IsMoment};
ghost use Rattle.played_record.specs.Plays.{step};
ghost use Rattle.played_record.specs.Worlds.{World};
ghost use Rattle.played_moments.specs.Moments.{GoesOnAt, IsAt, Mail, RunsBy, mail_of};

use slot_hub::Homed;

/// A step of a client over boxes that are told is a step of the played run, where the code runs by
/// the client's trace. What is on its way for other clients stays, and so do they.
pub fn steps_are_played<S: Homed>()
    ensures own { (trace : ℕ → List Answer → List Event × Outcome) (c : ℕ) (w : World)
        (holding : Holding) (old new : Ran) (out : Came) (boxes : Boxes S Pushed Replied)
        (hub hub' : Seen S Pushed Replied)
        → IsMoment trace w → IsRan old → RunsBy (trace c) old → hub.boxes ≡ Some boxes
        → IsAt c old (mail_of c boxes holding hub.taken) w
        → Steps old new out hub hub' → new.code ≡ old.code → new.ended ≡ end_of out
        → GoesOnAt c new boxes holding holding hub hub'
        (step (answer old.stands.schema) trace c w) }
    ensures others { (answers : List Update → Query → Answer)
        (trace : ℕ → List Answer → List Event × Outcome) (c k : ℕ) (run : Ran) (mail : Mail)
        (w : World) → k ≢ c → IsAt k run mail w → IsAt k run mail (step answers trace c w) }
{}
