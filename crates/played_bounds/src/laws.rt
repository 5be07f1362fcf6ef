// Laws of how much clients do.
ghost use Rattle.std.specs.Prelude.{◌≡◌, ◌≤◌, ◌<◌, ◌*◌, ℕ, List, length};
ghost use Rattle.std.specs.List.{AllByRecursion};
ghost use Rattle.cloud_base.specs.Events.{Outcome, updates_of};
ghost use Rattle.cloud_base.specs.declared.batch.Batch.{Batch};
ghost use Rattle.cloud_base.specs.declared.schedule.Fate.{Fate};
ghost use Rattle.cloud_base.specs.declared.update.Answer.{Answer};
ghost use Rattle.cloud_base.specs.declared.update.Event.{Event};
ghost use Rattle.cloud_base.specs.declared.update.Query.{Query};
ghost use Rattle.cloud_base.specs.declared.update.Update.{Update};
ghost use Rattle.batch_history.specs.Batches.{of_client};
ghost use Rattle.typed_program.specs.declared.program.Parts.{Parts};
ghost use Rattle.typed_program.specs.Trace.{budget};
ghost use Rattle.played_record.specs.Laws.{GoesOn, IsMoment};
ghost use Rattle.played_record.specs.Plays.{step};
ghost use Rattle.played_record.specs.Programs.{trace_of};
ghost use Rattle.played_record.specs.Worlds.{World, did, opening, served};
ghost use Rattle.played_bounds.specs.Few.{HasFewRounds, acts_in};

/// Each turn of a client has at most one update, yield or flush. So a client of a program has at
/// most as many as it has turns, and no more updates.
pub fn clients_do_little()
    ensures acts { (p : Parts) (c : ℕ) (given : List Answer) →
        acts_in (trace_of p c given).0 ≤ budget }
    ensures moments { (p : Parts) (w : World) (c : ℕ) → IsMoment (trace_of p) w →
        acts_in (did c w) ≤ budget }
    ensures updates { (events : List Event) → length (updates_of events) ≤ acts_in events }
{}

/// A client has at most as many rounds as yields and flushes.
pub fn rounds_stay_few()
    ensures opening { HasFewRounds opening }
    ensures step { (answers : List Update → Query → Answer)
        (trace : ℕ → List Answer → List Event × Outcome) (c : ℕ) (w : World)
        → GoesOn trace → IsMoment trace w → HasFewRounds w
        → HasFewRounds (step answers trace c w) }
    ensures serve { (trace : ℕ → List Answer → List Event × Outcome) (c : ℕ) (fate : Fate)
        (w : World) → IsMoment trace w → HasFewRounds w → HasFewRounds (served c fate w) }
{}

/// A record of so many clients that each have few batches has few batches.
pub fn records_stay_small()
    ensures { (n most : ℕ) (batches : List Batch)
        → AllByRecursion (λ (b : Batch). b.client < n) batches
        → ((c : ℕ) → c < n → length (of_client c batches) ≤ most)
        → length batches ≤ n * most }
{}
