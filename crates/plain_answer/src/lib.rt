// What a log answers to a query, computed over the whole log: small, slow and for any log.
#![tactic(auto)]

ghost use Rattle.std.specs.Prelude.{◌≡◌, IfOk};
ghost use Rattle.cloud_base.specs.Answer.{answer};

mod cells;
mod ids;
mod listing;
#[cfg(test)]
mod tests;

use cloud_base::{Answer, Memory, Query, Schema, Update};
use std::alloc::Global;

/// What the log answers to the query.
///
/// The log need not be fit. Of two creations of an id the first counts, a change of another type
/// than its cell's leaves the value, and a property that the schema doesn't have counts as one of
/// integers.
pub fn answer(
    alloc: Global,
    schema: &Schema,
    log: &[Update],
    query: &Query,
) -> Result<Answer, Memory>
    ensures { IfOk result (λ found. found ≡ answer schema.now log.now query.now) }
{
    Ok(match query {
        Query::Get(property, keys) => cells::value(schema, log, *property, keys),
        Query::All(entity) => Answer::Ids(listing::all_ids(alloc, log, *entity)?),
        Query::Entries(property) => Answer::Tuples(listing::entries(
            alloc, schema, log, *property,
        )?),
        Query::Alive(id) => Answer::Truth(ids::is_alive(log, *id)),
    })
}
