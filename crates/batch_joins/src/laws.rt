// Laws of records that grow.
ghost use Rattle.std.specs.Prelude.{◌≡◌, ℕ, ◌+◌, ◌≤◌, ◌<◌, List, [], ◌∷◌, ◌++◌, length, All};
ghost use Rattle.std.specs.Prelude.{Contains};
ghost use mathlib.Core.List.{IsPrefix};
ghost use Rattle.cloud_base.specs.Alike.{IsPart};
ghost use Rattle.cloud_base.specs.Shaped.{CreatedOnce, Fit, IsShaped};
ghost use Rattle.cloud_base.specs.declared.batch.Batch.{Batch};
ghost use Rattle.cloud_base.specs.declared.schema.Schema.{Schema};
ghost use Rattle.cloud_base.specs.declared.update.Answer.{Answer};
ghost use Rattle.cloud_base.specs.declared.update.Query.{Query};
ghost use Rattle.cloud_base.specs.declared.update.Update.{Update};
ghost use Rattle.batch_history.specs.Batches.{updates_in, flat, of_client};
ghost use Rattle.batch_history.specs.Sound.{EachFrom, CreatedBy, SoundBatches};
ghost use Rattle.batch_history.specs.Right.{IsThatOf, RightBatches};
ghost use Rattle.batch_joins.specs.Joins.{all_updates, FitsAlone, Follows, RightOwn};

/// Of two fronts of one record, the one with more of a client's batches is the longer. A front with
/// as many of them as the record has all of them. What a client had seen at a pull, or below a base
/// of its push, is part of the record.
pub fn fronts_of_one_record()
    ensures longer { (c : ℕ) (front other batches : List Batch) → IsPrefix front batches
        → IsPrefix other batches → length (of_client c front) < length (of_client c other)
        → IsPrefix front other }
    ensures all { (c : ℕ) (front batches : List Batch) → IsPrefix front batches
        → length (of_client c batches) ≤ length (of_client c front)
        → of_client c front ≡ of_client c batches }
    ensures pulled { (front batches : List Batch) (b : Batch) → IsPrefix front batches
        → Contains batches b
        → IsPart (all_updates front ++ updates_in b) (all_updates batches) }
    ensures based { (front batches : List Batch) (base : ℕ) → IsPrefix front batches
        → base ≤ length front → IsPart (flat front base) (all_updates batches) }
{}

/// What a client does behind its own batches makes, behind the whole record, a log that creates no
/// id twice, and one that fits where the record's does.
pub fn own_updates_join()
    ensures once { (c : ℕ) (batches : List Batch) (more : List Update) → SoundBatches batches
        → CreatedBy c more → CreatedOnce (all_updates (of_client c batches) ++ more)
        → CreatedOnce (all_updates batches ++ more) }
    ensures fit { (schema : Schema) (c : ℕ) (batches : List Batch) (more : List Update)
        → SoundBatches batches → Fit schema (all_updates batches) → All (IsShaped schema) more
        → CreatedBy c more → CreatedOnce (all_updates (of_client c batches) ++ more)
        → Fit schema (all_updates batches ++ more) }
{}

/// A push of a round above the next can't be. The next batch of a client, which follows a front of
/// a sound record, makes a longer sound record that has just its client's own batches, and is
/// answered right where they were so.
pub fn next_batches_join()
    ensures no_gap { (batches past own : List Batch) (b : Batch) → IsPrefix past batches
        → Follows past own b → b.round ≤ length (of_client b.client batches) + 1 }
    ensures sound { (batches past own : List Batch) (b : Batch) → SoundBatches batches
        → IsPrefix past batches → Follows past own b
        → b.round ≡ length (of_client b.client batches) + 1 → SoundBatches (batches ++ b ∷ []) }
    ensures own { (batches past own : List Batch) (b : Batch) → SoundBatches batches
        → IsPrefix past batches → Follows past own b
        → b.round ≡ length (of_client b.client batches) + 1
        → of_client b.client (batches ++ b ∷ []) ≡ own }
    ensures right { (answers : List Update → Query → Answer) (batches past own : List Batch)
        (b : Batch) → SoundBatches batches
        → IsPrefix past batches → Follows past own b
        → b.round ≡ length (of_client b.client batches) + 1
        → RightBatches (IsThatOf answers) batches
        → RightOwn (IsThatOf answers) past own
        → RightBatches (IsThatOf answers) (batches ++ b ∷ []) }
{}

/// A client's batches in a sound record fit each behind those before it, create no id twice, and
/// are answered right where the record is.
pub fn own_batches_alone()
    ensures each { (c : ℕ) (batches : List Batch) → SoundBatches batches →
        EachFrom FitsAlone [] (of_client c batches) }
    ensures once { (c : ℕ) (batches : List Batch) → SoundBatches batches →
        CreatedOnce (all_updates (of_client c batches)) }
    ensures right { (answers : List Update → Query → Answer) (c : ℕ) (batches : List Batch) →
        SoundBatches batches → RightBatches (IsThatOf answers) batches →
        RightOwn (IsThatOf answers) batches (of_client c batches) }
{}
