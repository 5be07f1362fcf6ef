// What a client does to the data and asks of it: updates, queries, answers and events.
ghost use Rattle.std.specs.Prelude.{◌≡◌, IfOk};

use crate::key::{Keys, Uid};
use crate::memory::Memory;
use crate::sequence::Sequence;
use crate::text::Text;
use std::alloc::Global;

/// A change of one cell.
#[derive(Drop, PartialEq, Eq)]
pub enum CellChange {
    Add(i64),
    SetInt(i64),
    SetText(Text),
    SetIfEmpty(Text),
}

impl CellChange {
    /// The same change.
    pub fn copied(&self) -> CellChange
        ensures { result ≡ self.now }
    {
        match self {
            CellChange::Add(number) => CellChange::Add(*number),
            CellChange::SetInt(number) => CellChange::SetInt(*number),
            CellChange::SetText(text) => CellChange::SetText(text.copied()),
            CellChange::SetIfEmpty(text) => CellChange::SetIfEmpty(text.copied()),
        }
    }
}

/// An update: a change of a cell by property number and keys, a creation of an id by entity number
/// and keys, or a deletion.
#[derive(Drop, PartialEq, Eq)]
pub enum Update {
    Cell(u16, Keys, CellChange),
    Create(Uid, u16, Keys),
    Delete(Uid),
}

impl Update {
    /// The same update.
    pub fn copied(&self) -> Update
        ensures { result ≡ self.now }
    {
        match self {
            Update::Cell(property, keys, change) => {
                Update::Cell(*property, keys.copied(), change.copied())
            }
            Update::Create(id, entity, keys) => Update::Create(*id, *entity, keys.copied()),
            Update::Delete(id) => Update::Delete(*id),
        }
    }
}

/// A query: the value of a cell, the ids of an entity, the key lists of a property, or whether an
/// id is alive.
#[derive(Drop, PartialEq, Eq)]
pub enum Query {
    Get(u16, Keys),
    All(u16),
    Entries(u16),
    Alive(Uid),
}

impl Query {
    /// The same query.
    pub fn copied(&self) -> Query
        ensures { result ≡ self.now }
    {
        match self {
            Query::Get(property, keys) => Query::Get(*property, keys.copied()),
            Query::All(entity) => Query::All(*entity),
            Query::Entries(property) => Query::Entries(*property),
            Query::Alive(id) => Query::Alive(*id),
        }
    }
}

pub type IdList = Sequence<Uid>;

/// A list of key lists.
pub type TupleList = Sequence<Keys>;

/// What a query answers, and what a client prints.
#[derive(Drop, PartialEq, Eq)]
pub enum Answer {
    Int(i64),
    Text(Text),
    Truth(bool),
    Id(Uid),
    Ids(IdList),
    Tuples(TupleList),
}

fn copy_tuples(alloc: Global, tuples: &TupleList) -> Result<TupleList, Memory>
    ensures { IfOk result (λ copy. copy ≡ tuples.now) }
{
    let mut copy = Sequence::new(alloc);
    for keys in tuples.as_slice() {
        copy.push(keys.copied())?;
    }
    Ok(copy)
}

impl Answer {
    /// The same answer.
    pub fn copy(&self, alloc: Global) -> Result<Answer, Memory>
        ensures { IfOk result (λ answer. answer ≡ self.now) }
    {
        Ok(match self {
            Answer::Int(number) => Answer::Int(*number),
            Answer::Text(text) => Answer::Text(text.copied()),
            Answer::Truth(truth) => Answer::Truth(*truth),
            Answer::Id(id) => Answer::Id(*id),
            Answer::Ids(ids) => Answer::Ids(ids.copy(alloc)?),
            Answer::Tuples(tuples) => Answer::Tuples(copy_tuples(alloc, tuples)?),
        })
    }
}

/// What a client does. `Yield` and `Flush` are marks.
#[derive(Drop, PartialEq, Eq)]
pub enum Event {
    Do(Update),
    Ask(Query, Answer),
    Say(Answer),
    Yield,
    Flush,
}

impl Event {
    /// The same event.
    pub fn copy(&self, alloc: Global) -> Result<Event, Memory>
        ensures { IfOk result (λ event. event ≡ self.now) }
    {
        Ok(match self {
            Event::Do(update) => Event::Do(update.copied()),
            Event::Ask(query, answer) => Event::Ask(query.copied(), answer.copy(alloc)?),
            Event::Say(answer) => Event::Say(answer.copy(alloc)?),
            Event::Yield => Event::Yield,
            Event::Flush => Event::Flush,
        })
    }
}

pub type EventList = Sequence<Event>;

/// The same events.
pub fn copy_events(alloc: Global, events: &EventList) -> Result<EventList, Memory>
    ensures { IfOk result (λ copy. copy ≡ events.now) }
{
    let mut copy = Sequence::new(alloc);
    for event in events.as_slice() {
        copy.push(event.copy(alloc)?)?;
    }
    Ok(copy)
}

#[cfg(test)]
mod tests {
    use super::*;
    use crate::key::Key;
    use std::test::Fail;

    #[test]
    fn copies_are_the_same(rt: HostRuntime) -> Result<(), Fail> {
        let mut ids = Sequence::new(rt.alloc());
        ids.push(Uid::new(7, 1))?;
        let mut tuples = Sequence::new(rt.alloc());
        tuples.push(Keys::one(Key::Int(4)))?;
        let mut events = Sequence::new(rt.alloc());
        events.push(Event::Ask(Query::All(3), Answer::Ids(ids)))?;
        events.push(Event::Say(Answer::Tuples(tuples)))?;
        let copy = copy_events(rt.alloc(), &events)?;
        assert!(rt; copy == events);
        assert!(rt; copy != Sequence::new(rt.alloc()));
        match copy.as_slice() {
            [
                Event::Ask(Query::All(3), Answer::Ids(ids)),
                Event::Say(Answer::Tuples(tuples)),
            ] => {
                assert!(rt; ids.as_slice() == [Uid::new(7, 1)].as_slice());
                assert!(rt; tuples.as_slice() == [Keys::one(Key::Int(4))].as_slice());
            }
            _ => assert!(rt; false),
        }
        Ok(())
    }
}
