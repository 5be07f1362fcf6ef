// Laws of packets.
ghost use Rattle.std.specs.Prelude.{◌≡◌, ◌+◌, ◌≤◌, ◌<◌, ◌^◌, ℕ, List, [], ◌∷◌, ◌++◌, length, All};
ghost use Rattle.std.specs.Prelude.{Contains};
ghost use Rattle.std.specs.List.{AllByRecursion};
ghost use mathlib.Core.List.{IsPrefix};
ghost use Rattle.cloud_base.specs.Alike.{IsPart};
ghost use Rattle.cloud_base.specs.Shaped.{CreatedOnce, Fit, IsShaped};
ghost use Rattle.cloud_base.specs.Values.{most_clients};
ghost use Rattle.cloud_base.specs.declared.batch.Batch.{Batch};
ghost use Rattle.cloud_base.specs.declared.schema.Schema.{Schema};
ghost use Rattle.cloud_base.specs.declared.update.Answer.{Answer};
ghost use Rattle.cloud_base.specs.declared.update.Query.{Query};
ghost use Rattle.cloud_base.specs.declared.update.Update.{Update};
ghost use Rattle.batch_history.specs.Batches.{updates_in, flat, of_client};
ghost use Rattle.batch_history.specs.Sound.{CreatedBy};
ghost use Rattle.batch_joins.specs.Joins.{all_updates};
ghost use Rattle.change_lists.specs.Effects.{IsEffect};
ghost use Rattle.change_lists.specs.Images.{IsImage};
ghost use Rattle.change_lists.specs.Lists.{ChangeLists, ImageLists};
ghost use Rattle.packet_bytes.specs.Spelling.{IsPacketOf};
ghost use Rattle.packet_bytes.specs.declared.wire.Wire.TheVariants as Wire;
ghost use Rattle.packet_codec.specs.Served.{IsServed, IsWithin};
ghost use Rattle.packet_codec.specs.Pushes.{IsNext, MayPush};
ghost use Rattle.packet_codec.specs.Replies.{MayReply};

/// A record within the bounds has fewer than 2^31 updates, and its places are far below 2^64. Its
/// fronts are within the bounds, and so is the record with a client's next batch, where all of the
/// client's batches are, and a client's own list.
pub fn bounded_records()
    ensures updates { (batches : List Batch) → IsWithin batches →
        length (all_updates batches) < 2 ^ 31 }
    ensures places { (batches : List Batch) → IsWithin batches → length batches ≤ 2 ^ 35 }
    ensures fronts { (front batches : List Batch) → IsPrefix front batches → IsWithin batches →
        IsWithin front }
    ensures joined { (batches own : List Batch) (b : Batch) → IsWithin batches → IsWithin own →
        of_client b.client (batches ++ b ∷ []) ≡ own → IsWithin (batches ++ b ∷ []) }
    ensures own { (c : ℕ) (own : List Batch) → c < most_clients →
        AllByRecursion (λ b. b.client ≡ c) own → length own ≤ 2 ^ 32 →
        length (all_updates own) < 2 ^ 28 → IsWithin own }
{}

/// A record of nothing is one of a server, and so is a record up to any place.
pub fn served_records()
    ensures nothing { (schema : Schema) → IsServed schema [] }
    ensures fronts { (schema : Schema) (front batches : List Batch) → IsPrefix front batches →
        IsServed schema batches → IsServed schema front }
{}

/// What a push tells a server of whose record it knows a front. What its client had seen below its
/// base is in the record. No round of its client is left out; where it is the next one, what it did
/// fits behind the record, and with its batch the record is still one of a server and has just its
/// client's own batches.
pub fn pushes_are_taken()
    ensures known { (schema : Schema) (batches past own : List Batch) (b : Batch) →
        IsPrefix past batches → MayPush schema past own b →
        IsPart (flat past b.base) (all_updates batches) }
    ensures no_gap { (schema : Schema) (batches past own : List Batch) (b : Batch) →
        IsPrefix past batches → MayPush schema past own b →
        b.round ≤ length (of_client b.client batches) + 1 }
    ensures fit { (schema : Schema) (batches past own : List Batch) (b : Batch) →
        IsServed schema batches → IsPrefix past batches → MayPush schema past own b →
        b.round ≡ length (of_client b.client batches) + 1 →
        Fit schema (all_updates batches ++ updates_in b) }
    ensures served { (schema : Schema) (batches past own : List Batch) (b : Batch) →
        IsServed schema batches → IsPrefix past batches → MayPush schema past own b →
        b.round ≡ length (of_client b.client batches) + 1 →
        IsServed schema (batches ++ b ∷ []) }
    ensures own { (schema : Schema) (batches past own : List Batch) (b : Batch) →
        IsServed schema batches → IsPrefix past batches → MayPush schema past own b →
        b.round ≡ length (of_client b.client batches) + 1 →
        of_client b.client (batches ++ b ∷ []) ≡ own }
    ensures updates { (batches : List Batch) (b : Batch) →
        all_updates (batches ++ b ∷ []) ≡ all_updates batches ++ updates_in b }
{}

/// What a reply tells its client, which knows all its own batches, `whole`, and what it had seen of
/// the record, `seen`. The reply to the last of them has them all. Its record goes on from what was
/// seen, where that had fewer of them, and has what was seen and each of them; and what the client
/// did since fits behind it.
pub fn replies_are_pulled()
    ensures own { (schema : Schema) (past own whole : List Batch) (client round : ℕ) →
        MayReply schema past own client round → IsPrefix own whole → length whole ≡ round →
        own ≡ whole }
    ensures longer { (schema : Schema) (seen past own batches : List Batch)
        (client round : ℕ) → MayReply schema past own client round → IsPrefix seen batches →
        IsPrefix past batches → length (of_client client seen) < round → IsPrefix seen past }
    ensures known { (schema : Schema) (seen past own : List Batch) (client round : ℕ)
        (sent : Batch) → MayReply schema past own client round → IsPrefix seen past →
        Contains own sent → IsPart (all_updates seen ++ updates_in sent) (all_updates past) }
    ensures fit { (schema : Schema) (past own : List Batch) (client round : ℕ)
        (more : List Update) → MayReply schema past own client round →
        All (IsShaped schema) more → CreatedBy client more →
        CreatedOnce (all_updates own ++ more) → Fit schema (all_updates past ++ more) }
{}

/// A client may push what it did after all that it has seen of a server's record.
pub fn next_batches_are_pushed()
    ensures { (schema : Schema) (past : List Batch) (b : Batch) → IsServed schema past →
        IsNext schema past b → MayPush schema past (of_client b.client past ++ b ∷ []) b }
{}

/// What a client may push, and what a server may reply, is a packet for the schema, so it has one
/// spelling, which is read again. No list of it is too long to be written.
pub fn packets_are_spelled()
    ensures push { (schema : Schema) (past own : List Batch) (b : Batch) (change : ChangeLists) →
        MayPush schema past own b → IsEffect schema (flat past b.base) (updates_in b) change →
        IsPacketOf schema (Wire.Push b.client b.round b.base change) }
    ensures changes { (schema : Schema) (past own : List Batch) (b : Batch)
        (change : ChangeLists) → MayPush schema past own b →
        IsEffect schema (flat past b.base) (updates_in b) change →
        (length change.created < 2 ^ 31) × (length change.dead < 2 ^ 31)
        × (length change.cells < 2 ^ 31) }
    ensures reply { (schema : Schema) (past own : List Batch) (client round : ℕ)
        (image : ImageLists) → MayReply schema past own client round →
        IsImage schema (all_updates past) image →
        IsPacketOf schema (Wire.Reply client round (length past) image) }
    ensures images { (schema : Schema) (past own : List Batch) (client round : ℕ)
        (image : ImageLists) → MayReply schema past own client round →
        IsImage schema (all_updates past) image →
        (length image.created < 2 ^ 31) × (length image.dead < 2 ^ 31)
        × (length image.cells < 2 ^ 31) }
{
    fj_array::cell_orders();
}
