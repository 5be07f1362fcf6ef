// Laws of played runs.
ghost use Rattle.std.specs.Prelude.{◌≡◌, ◌≤◌, ◌+◌, ◌*◌, ℕ, List, length, true};
ghost use Rattle.cloud_base.specs.Answer.{answer};
ghost use Rattle.cloud_base.specs.Events.{Outcome};
ghost use Rattle.cloud_base.specs.declared.batch.Batch.{Batch};
ghost use Rattle.cloud_base.specs.declared.batch.Tail.{Tail};
ghost use Rattle.cloud_base.specs.declared.end.End.{End};
ghost use Rattle.cloud_base.specs.declared.schedule.Fate.{Fate};
ghost use Rattle.cloud_base.specs.declared.schedule.ScheduleItem.{ScheduleItem};
ghost use Rattle.cloud_base.specs.declared.update.Answer.{Answer};
ghost use Rattle.cloud_base.specs.declared.update.Event.{Event};
ghost use Rattle.cloud_base.specs.declared.update.Query.{Query};
ghost use Rattle.cloud_base.specs.declared.update.Update.{Update};
ghost use Rattle.batch_history.specs.Flushed.{Traced};
ghost use Rattle.typed_program.specs.declared.program.Parts.{Parts};
ghost use Rattle.played_record.specs.Worlds.{World, opening, served};
ghost use Rattle.played_record.specs.Plays.{step, after_sweeps, all_ended, IsPlayed};
ghost use Rattle.played_record.specs.Programs.{trace_of, most_of, Played};
ghost use Rattle.played_record.specs.Laws.{OnlySteps, OnlyServes, Joins};
ghost use Rattle.played_record.specs.Laws.{GoesOn, IsMoment, HasRecord};

/// A step of a client joins no batch and changes no other client. A serve changes nothing of a
/// client but its boxes and its held copy, and nothing of the others.
pub fn steps_and_serves()
    ensures step { (answers : List Update → Query → Answer)
        (trace : ℕ → List Answer → List Event × Outcome) (c : ℕ) (w : World)
        → OnlySteps c w (step answers trace c w) }
    ensures serve { (c : ℕ) (fate : Fate) (w : World) → OnlyServes c w (served c fate w) }
{}

/// At each moment of a played run each client did a front of its trace for the answers that its
/// queries got, and all of it once it ended. Its packets are of rounds that were pushed, and none
/// is on its way where nothing is outstanding. A serve joins at most the outstanding batch of its
/// client.
pub fn moments_of_played_runs()
    ensures opening { (trace : ℕ → List Answer → List Event × Outcome) → IsMoment trace opening }
    ensures step { (answers : List Update → Query → Answer)
        (trace : ℕ → List Answer → List Event × Outcome) (c : ℕ) (w : World)
        → GoesOn trace → IsMoment trace w → IsMoment trace (step answers trace c w) }
    ensures serve { (trace : ℕ → List Answer → List Event × Outcome)
        (c : ℕ) (fate : Fate) (w : World)
        → IsMoment trace w → IsMoment trace (served c fate w) }
    ensures joins { (trace : ℕ → List Answer → List Event × Outcome)
        (c : ℕ) (fate : Fate) (w : World) → IsMoment trace w
        → Joins c (w.client c).tail.sent w.batches (served c fate w).batches }
    ensures sweeps { (answers : List Update → Query → Answer)
        (trace : ℕ → List Answer → List Event × Outcome)
        (schedule : List ScheduleItem) (n count : ℕ) → GoesOn trace
        → IsMoment trace (after_sweeps answers trace schedule n count) }
{}

/// A run is played in one way. Its record has a tail and an end for each client, and each client
/// did what its trace says, up to its end.
pub fn records_of_played_runs()
    ensures one { (answers : List Update → Query → Answer)
        (trace : ℕ → List Answer → List Event × Outcome) (schedule : List ScheduleItem) (n : ℕ)
        (batches others : List Batch) (tails other_tails : List Tail) (ends other_ends : List End)
        → IsPlayed answers trace schedule n batches tails ends
        → IsPlayed answers trace schedule n others other_tails other_ends
        → (batches ≡ others) × (tails ≡ other_tails) × (ends ≡ other_ends) }
    ensures clients { (answers : List Update → Query → Answer)
        (trace : ℕ → List Answer → List Event × Outcome) (schedule : List ScheduleItem) (n : ℕ)
        (batches : List Batch) (tails : List Tail) (ends : List End)
        → IsPlayed answers trace schedule n batches tails ends
        → (length tails ≡ n) × (length ends ≡ n) }
    ensures traced { (answers : List Update → Query → Answer)
        (trace : ℕ → List Answer → List Event × Outcome) (schedule : List ScheduleItem) (n : ℕ)
        (batches : List Batch) (tails : List Tail) (ends : List End)
        → GoesOn trace → IsPlayed answers trace schedule n batches tails ends
        → Traced trace batches tails ends }
{}

/// The clients of a program go on as more answers come, and so the record of its played run is
/// traced.
pub fn programs_are_traced()
    ensures goes_on { (p : Parts) → GoesOn (trace_of p) }
    ensures traced { (p : Parts) (batches : List Batch) (tails : List Tail) (ends : List End)
        → Played p batches tails ends → Traced (trace_of p) batches tails ends }
{}

/// A played run ends where no client has more than `most` events, whatever the answers: an event
/// takes a client at most four sweeps, as a flush is over by its fourth. So each program has the
/// record of a played run.
pub fn played_runs_end()
    ensures ended { (answers : List Update → Query → Answer)
        (trace : ℕ → List Answer → List Event × Outcome) (schedule : List ScheduleItem)
        (n most : ℕ) → GoesOn trace
        → ((c : ℕ) (given : List Answer) → length (trace c given).0 ≤ most)
        → all_ended n (after_sweeps answers trace schedule n (4 * most + 4)) ≡ true }
    ensures some { (answers : List Update → Query → Answer)
        (trace : ℕ → List Answer → List Event × Outcome) (schedule : List ScheduleItem)
        (n most : ℕ) → GoesOn trace
        → ((c : ℕ) (given : List Answer) → length (trace c given).0 ≤ most)
        → HasRecord answers trace schedule n (4 * most + 4) }
    ensures program { (p : Parts) → HasRecord (answer p.schema) (trace_of p) p.schedule
        (length p.bodies) (4 * most_of p + 4) }
    ensures bounded { (p : Parts) (c : ℕ) (given : List Answer)
        → length (trace_of p c given).0 ≤ most_of p }
{}
