// Laws of sessions.
ghost use Rattle.std.specs.Prelude.{◌≡◌, [], ◌∷◌, ◌++◌};
ghost use Rattle.cloud_base.specs.Events.{updates_of};
ghost use Rattle.cloud_base.specs.declared.update.Event.{Event};
ghost use Rattle.session_core.specs.declared.flushing.Flushing.{Flushing};
ghost use Rattle.session_core.specs.Standings.{Standing, IsStanding, seen, updates_done};
ghost use Rattle.session_core.specs.Sessions.{noted_at};

/// An event comes last of all that its client did, and of the log that it sees.
pub fn events_come_last()
    ensures done { (s : Standing) (flush : Flushing) (event : Event) → IsStanding s →
        updates_done (noted_at flush event s) ≡ updates_done s ++ updates_of (event ∷ []) }
    ensures seen { (s : Standing) (flush : Flushing) (event : Event) → IsStanding s →
        seen (noted_at flush event s) ≡ seen s ++ updates_of (event ∷ []) }
{}
