// Laws of the steps of a record.
ghost use Rattle.std.specs.Prelude.{◌≡◌, ℕ, List, Bool, Some, length, slice_get};
ghost use Rattle.cloud_base.specs.Answer.{answer};
ghost use Rattle.cloud_base.specs.Events.{Outcome, ended};
ghost use Rattle.cloud_base.specs.declared.batch.Batch.{Batch};
ghost use Rattle.cloud_base.specs.declared.batch.Tail.{Tail};
ghost use Rattle.cloud_base.specs.declared.end.End.{End};
ghost use Rattle.cloud_base.specs.declared.schema.Schema.{Schema};
ghost use Rattle.cloud_base.specs.declared.update.Answer.{Answer};
ghost use Rattle.cloud_base.specs.declared.update.Event.{Event};
ghost use Rattle.cloud_base.specs.declared.update.Query.{Query};
ghost use Rattle.cloud_base.specs.declared.update.Update.{Update};
ghost use Rattle.revision_diagram.specs.Diagram.{EachStep};
ghost use Rattle.revision_diagram.specs.Headline.{AllOwned, Headline};
ghost use Rattle.revision_diagram.specs.Lawful.{Lawful};
ghost use Rattle.revision_diagram.specs.Meeting.{AtMarks, FlushLaw, Placed, below_server};
ghost use Rattle.revision_diagram.specs.Once.{Once};
ghost use Rattle.revision_diagram.specs.Story.{LineLaw, ProgramLaw, events};
ghost use Rattle.revision_diagram.specs.Right as diagram;
ghost use Rattle.batch_history.specs.Batches.{did};
ghost use Rattle.batch_history.specs.Flushed.{Flushed, Traced};
ghost use Rattle.batch_history.specs.Right.{AnsweredRight, RightRecord};
ghost use Rattle.batch_history.specs.Sound.{SoundRecord};
ghost use Rattle.record_diagram.specs.Steps.{steps_of};
ghost use Rattle.record_diagram.specs.SeenAt.{AnswerAt, Passes};

/// The steps of a sound record are lawful and join each update once. Its clients meet the server at
/// their marks and keep in line, and each revision is of one of them. The steps tell what each of
/// them did, and so its program, where the record is traced. They meet its flushes where the record
/// does. The steps of a record that is answered right are answered right, and whatever a test finds
/// of each answer and the log that its client had seen, it finds of each Ask and the log of its
/// revision.
pub fn steps_of_records()
    ensures lawful { (batches : List Batch) (tails : List Tail) (ends : List End)
        → SoundRecord batches tails ends → Lawful (steps_of batches tails) }
    ensures once { (batches : List Batch) (tails : List Tail) (ends : List End)
        → SoundRecord batches tails ends → Once (steps_of batches tails) }
    ensures placed { (batches : List Batch) (tails : List Tail) (ends : List End)
        → SoundRecord batches tails ends → Placed below_server (steps_of batches tails) }
    ensures at_marks { (batches : List Batch) (tails : List Tail) (ends : List End)
        → SoundRecord batches tails ends → AtMarks below_server (steps_of batches tails) }
    ensures line { (batches : List Batch) (tails : List Tail) (ends : List End)
        → SoundRecord batches tails ends → (c : ℕ) → LineLaw (steps_of batches tails) c }
    ensures told { (batches : List Batch) (tails : List Tail) (ends : List End)
        → SoundRecord batches tails ends
        → (c : ℕ) → events (steps_of batches tails) c ≡ did batches tails c }
    ensures owners { (batches : List Batch) (tails : List Tail) (ends : List End)
        → SoundRecord batches tails ends
        → AllOwned below_server (length tails) (steps_of batches tails) }
    ensures program { (trace : ℕ → List Answer → List Event × Outcome)
        (batches : List Batch) (tails : List Tail) (ends : List End)
        → SoundRecord batches tails ends → Traced trace batches tails ends
        → (c : ℕ) (end : End) → slice_get ends c ≡ Some end
        → ProgramLaw (trace c) (ended end) (steps_of batches tails) c }
    ensures flushed { (batches : List Batch) (tails : List Tail) (ends : List End)
        → SoundRecord batches tails ends → Flushed batches tails
        → FlushLaw below_server (steps_of batches tails) }
    ensures right { (answers : List Update → Query → Answer)
        (batches : List Batch) (tails : List Tail) (ends : List End)
        → SoundRecord batches tails ends → AnsweredRight answers batches tails
        → diagram.AnsweredRight answers (steps_of batches tails) }
    ensures seen { (test : List Update → Query → Answer → Bool)
        (batches : List Batch) (tails : List Tail) (ends : List End)
        → SoundRecord batches tails ends → RightRecord (Passes test) batches tails
        → EachStep (AnswerAt (Passes test)) (steps_of batches tails) }
{}

/// A sound record that is answered right, whose flushes were met and whose clients ran these
/// programs, has steps that are one lawful diagram of a run of them: in it each client runs its
/// program to its end, each answer is that of the updates on its path, each update stands once on
/// each path that reaches it, and clients meet the server only at their marks.
pub fn records_are_diagrams()
    ensures { (schema : Schema) (traces : List (List Answer → List Event × Outcome))
        (trace : ℕ → List Answer → List Event × Outcome)
        (batches : List Batch) (tails : List Tail) (ends : List End)
        → SoundRecord batches tails ends → AnsweredRight (answer schema) batches tails
        → Flushed batches tails → Traced trace batches tails ends
        → length traces ≡ length tails
        → ((c : ℕ) (its : List Answer → List Event × Outcome)
        → slice_get traces c ≡ Some its → trace c ≡ its)
        → Headline schema below_server traces ends (steps_of batches tails) }
{}
