// Laws of what sessions leave.
ghost use Rattle.std.specs.Prelude.{List};
ghost use Rattle.cloud_base.specs.Answer.{answer};
ghost use Rattle.cloud_base.specs.declared.batch.Batch.{Batch};
ghost use Rattle.cloud_base.specs.declared.batch.Tail.{Tail};
ghost use Rattle.cloud_base.specs.declared.end.End.{End};
ghost use Rattle.cloud_base.specs.declared.schema.Schema.{Schema};
ghost use Rattle.batch_history.specs.Flushed.{Flushed};
ghost use Rattle.batch_history.specs.Right.{AnsweredRight};
ghost use Rattle.batch_history.specs.Sound.{SoundRecord};
ghost use Rattle.session_tails.specs.Left.{AreLeft};

/// A server's record with the tails of its clients' sessions is sound and answered right, and each
/// flush was met before its client went on or ended.
pub fn sessions_leave_records()
    ensures sound { (schema : Schema) (batches : List Batch) (tails : List Tail) (ends : List End)
        → AreLeft schema batches tails ends → SoundRecord batches tails ends }
    ensures right { (schema : Schema) (batches : List Batch) (tails : List Tail) (ends : List End)
        → AreLeft schema batches tails ends → AnsweredRight (answer schema) batches tails }
    ensures flushed { (schema : Schema) (batches : List Batch) (tails : List Tail)
        (ends : List End)
        → AreLeft schema batches tails ends → Flushed batches tails }
{}
