// Laws of records.
ghost use Rattle.std.specs.Prelude.{◌≡◌, ℕ, ◌+◌, ◌≤◌, ◌<◌, List, [], ◌++◌, length, take, Some};
ghost use Rattle.std.specs.Prelude.{slice_get, ◌↔◌};
ghost use Rattle.cloud_base.specs.declared.batch.Batch.{Batch};
ghost use Rattle.cloud_base.specs.declared.update.Answer.{Answer};
ghost use Rattle.cloud_base.specs.declared.update.Query.{Query};
ghost use Rattle.cloud_base.specs.declared.update.Update.{Update};
ghost use Rattle.batch_history.specs.Batches.{flat, of_client};
ghost use Rattle.batch_history.specs.Sound.{EachFrom, FitsBehind, SoundBatches};
ghost use Rattle.batch_history.specs.Right.{IsThatOf, RightBatches};

/// A front of a record means what it means in the whole, and is sound and answered right where that
/// is.
pub fn fronts_of_records()
    ensures flat { (front more : List Batch) (n : ℕ)
        → n ≤ length front → flat (front ++ more) n ≡ flat front n }
    ensures sound { (front more : List Batch) → SoundBatches (front ++ more) → SoundBatches front }
    ensures right { (answers : List Update → Query → Answer) (front more : List Batch)
        → RightBatches (IsThatOf answers) (front ++ more) → RightBatches (IsThatOf answers) front }
{}

/// Of the next batch of client `c`, with round `round`: its base is above the place of the client's
/// round before, exactly where all the client's batches so far are below its base. So it is where
/// there is no round before.
pub fn bases_above_rounds()
    ensures { (front : List Batch) (c round base : ℕ) → EachFrom FitsBehind [] front
        → round ≡ length (of_client c front) + 1 → base ≤ length front
        → (of_client c (take base front) ≡ of_client c front)
        ↔ ((place : ℕ) (b : Batch) → slice_get front place ≡ Some b → b.client ≡ c
        → b.round + 1 ≡ round → place < base) }
{}
