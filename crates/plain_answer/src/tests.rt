// Answers that were worked out by hand.
ghost use Rattle.std.specs.Prelude.{◌<◌};
ghost use Rattle.cloud_base.specs.Values.{IsName};

use crate::answer;
use cloud_base::{
    Answer, CellChange, CellType, Entity, Key, KeyType, Keys, Memory, Name, Owner, Property, Query,
    Schema, Sequence, Text, Uid, Update,
};
use std::alloc::Global;
use std::test::Fail;

const TOTAL: u16 = 0;

const GROCERY: u16 = 1;

const SEAT: u16 = 2;

const NOTE: u16 = 3;

const SPENT: u16 = 4;

const CUSTOMER: u16 = 0;

const ORDER: u16 = 1;

const LINE: u16 = 2;

const PARCEL: u16 = 3;

fn property(
    alloc: Global,
    name: &[u8],
    owner: Owner,
    cell: CellType,
    keys: &[KeyType],
) -> Result<Property, Memory>
    requires { IsName name.now }
{
    Ok(Property {
        name: Name::new(alloc, name)?,
        owner,
        cell,
        keys: Sequence::from_vec(Vec::from_slice(alloc, keys)?),
    })
}

fn entity(alloc: Global, name: &[u8], keys: &[KeyType]) -> Result<Entity, Memory>
    requires { IsName name.now }
{
    Ok(Entity {
        name: Name::new(alloc, name)?,
        keys: Sequence::from_vec(Vec::from_slice(alloc, keys)?),
    })
}

fn shop(alloc: Global) -> Result<Schema, Memory> {
    let grocery = Owner::Array(Name::new(alloc, b"Grocery")?);
    let seat = Owner::Array(Name::new(alloc, b"Seat")?);
    let note = Owner::Array(Name::new(alloc, b"Note")?);
    let mut properties = Sequence::new(alloc);
    properties.push(property(alloc, b"total", Owner::Global, CellType::Int, &[])?)?;
    properties.push(property(alloc, b"quantity", grocery, CellType::Int, &[KeyType::Text])?)?;
    properties.push(property(alloc, b"who", seat, CellType::Text, &[KeyType::Int])?)?;
    properties.push(property(alloc, b"n", note, CellType::Int, &[KeyType::Id(ORDER)])?)?;
    let owner = Owner::Entity(CUSTOMER);
    properties.push(property(
        alloc,
        b"spent",
        owner,
        CellType::Int,
        &[KeyType::Id(CUSTOMER)],
    )?)?;
    let mut entities = Sequence::new(alloc);
    entities.push(entity(alloc, b"Customer", &[])?)?;
    entities.push(entity(alloc, b"Order", &[KeyType::Id(CUSTOMER)])?)?;
    entities.push(entity(alloc, b"Line", &[KeyType::Id(ORDER)])?)?;
    entities.push(entity(alloc, b"Parcel", &[KeyType::Id(LINE)])?)?;
    Ok(Schema {
        properties,
        entities,
    })
}

fn text(bytes: &[u8]) -> Text {
    match Text::new(bytes) {
        Ok(text) => text,
        Err(_) => Text::empty(),
    }
}

fn id(serial: u32) -> Uid {
    Uid::new(0, serial)
}

fn named(bytes: &[u8]) -> Keys {
    Keys::one(Key::Text(text(bytes)))
}

fn of(serial: u32) -> Keys {
    Keys::one(Key::Ref(id(serial)))
}

fn buy(item: &[u8], count: i64) -> Update {
    Update::Cell(GROCERY, named(item), CellChange::Add(count))
}

fn sit(who: &[u8]) -> Update {
    Update::Cell(
        SEAT,
        Keys::one(Key::Int(1)),
        CellChange::SetIfEmpty(text(who)),
    )
}

fn total(change: CellChange) -> Update {
    Update::Cell(TOTAL, Keys::empty(), change)
}

fn note(order: u32, count: i64) -> Update {
    Update::Cell(NOTE, of(order), CellChange::Add(count))
}

fn ids(alloc: Global, serials: &[u32]) -> Result<Answer, Memory> {
    let mut ids = Sequence::new(alloc);
    for serial in serials {
        ids.push(id(*serial))?;
    }
    Ok(Answer::Ids(ids))
}

fn tuples(tuples: Vec<Keys>) -> Answer {
    Answer::Tuples(Sequence::from_vec(tuples))
}

fn same(one: &Answer, other: &Answer) -> bool {
    match (one, other) {
        (Answer::Int(a), Answer::Int(b)) => a == b,
        (Answer::Text(a), Answer::Text(b)) => a == b,
        (Answer::Truth(a), Answer::Truth(b)) => a == b,
        (Answer::Ids(a), Answer::Ids(b)) => a.as_slice() == b.as_slice(),
        (Answer::Tuples(a), Answer::Tuples(b)) => a.as_slice() == b.as_slice(),
        _ => false,
    }
}

#[derive(Drop)]
struct Row {
    log: Vec<Update>,
    query: Query,
    expected: Answer,
}

fn case(log: Vec<Update>, query: Query, expected: Answer) -> Row {
    Row {
        log,
        query,
        expected,
    }
}

// Two clients' logs in both orders, sums at both ends, and entries.
fn cells(alloc: Global) -> Result<Vec<Row>, Memory> {
    let ann_first = vec![in alloc; buy(b"milk", 2), buy(b"milk", 1), buy(b"eggs", 12)]?;
    let bob_first = vec![in alloc; buy(b"milk", 1), buy(b"eggs", 12), buy(b"milk", 2)]?;
    let mut cases = Vec::new(alloc);
    for log in [ann_first, bob_first] {
        let milk = Query::Get(GROCERY, named(b"milk"));
        cases.push(case(copy(alloc, &log)?, milk, Answer::Int(3)))?;
        let listed = tuples(vec![in alloc; named(b"eggs"), named(b"milk")]?);
        cases.push(case(log, Query::Entries(GROCERY), listed))?;
    }

    let seat = Query::Get(SEAT, Keys::one(Key::Int(1)));
    let log = vec![in alloc; sit(b"ann"), sit(b"bob")]?;
    cases.push(case(log, seat.copied(), Answer::Text(text(b"ann"))))?;
    let log = vec![in alloc; sit(b""), sit(b"bob"), sit(b"ann")]?;
    cases.push(case(log, seat, Answer::Text(text(b"bob"))))?;

    let whole = Query::Get(TOTAL, Keys::empty());
    let up = vec![in alloc;
        total(CellChange::SetInt(i64::MAX)),
        total(CellChange::Add(1)),
    ]?;
    cases.push(case(up, whole.copied(), Answer::Int(i64::MIN)))?;
    let down = vec![in alloc;
        total(CellChange::SetInt(i64::MIN)),
        total(CellChange::Add(-1)),
    ]?;
    cases.push(case(down, whole, Answer::Int(i64::MAX)))?;

    let cancelled = vec![in alloc; buy(b"milk", 2), buy(b"eggs", 1), buy(b"milk", -2)]?;
    let listed = tuples(vec![in alloc; named(b"eggs")]?);
    cases.push(case(cancelled, Query::Entries(GROCERY), listed))?;
    let log = vec![in alloc; total(CellChange::Add(1))]?;
    let listed = tuples(vec![in alloc; Keys::empty()]?);
    cases.push(case(log, Query::Entries(TOTAL), listed))?;
    Ok(cases)
}

// A customer, her order, its line and the parcel of the line: alive, and with the customer deleted.
fn entities(alloc: Global) -> Result<Vec<Row>, Memory> {
    let customer = Update::Create(id(0), CUSTOMER, Keys::empty());
    let order = Update::Create(id(1), ORDER, of(0));
    let line = Update::Create(id(2), LINE, of(1));
    let parcel = Update::Create(id(3), PARCEL, of(2));
    let spent = Update::Cell(SPENT, of(0), CellChange::SetInt(9));
    let alive = vec![in alloc;
        customer,
        order,
        line,
        parcel,
        note(1, 1),
        spent,
        note(1, 5),
    ]?;
    let mut dead = copy(alloc, &alive)?;
    dead.push(Update::Delete(id(0)))?;
    let mut cases = Vec::new(alloc);
    cases.push(case(
        copy(alloc, &alive)?,
        Query::Get(NOTE, of(1)),
        Answer::Int(6),
    ))?;
    cases.push(case(copy(alloc, &alive)?, Query::All(LINE), ids(alloc, &[2])?))?;
    cases.push(case(copy(alloc, &alive)?, Query::All(PARCEL), ids(alloc, &[3])?))?;
    let listed = tuples(vec![in alloc; of(0)]?);
    cases.push(case(alive, Query::Entries(SPENT), listed))?;
    cases.push(case(copy(alloc, &dead)?, Query::Get(NOTE, of(1)), Answer::Int(0)))?;
    cases.push(case(
        copy(alloc, &dead)?,
        Query::Entries(NOTE),
        tuples(Vec::new(alloc)),
    ))?;
    cases.push(case(copy(alloc, &dead)?, Query::All(LINE), ids(alloc, &[])?))?;
    cases.push(case(copy(alloc, &dead)?, Query::All(PARCEL), ids(alloc, &[])?))?;
    cases.push(case(
        copy(alloc, &dead)?,
        Query::Alive(id(3)),
        Answer::Truth(false),
    ))?;
    cases.push(case(dead, Query::Alive(id(4)), Answer::Truth(false)))?;
    Ok(cases)
}

fn copy(alloc: Global, log: &[Update]) -> Result<Vec<Update>, Memory> {
    let mut copy = Vec::new(alloc);
    for update in log {
        copy.push(update.copied())?;
    }
    Ok(copy)
}

#[test]
fn answers_as_worked_out(rt: HostRuntime) -> Result<(), Fail> {
    let schema = shop(rt.alloc())?;
    for (number, case) in cells(rt.alloc())?.iter().enumerate() {
        let found = answer(rt.alloc(), &schema, &case.log, &case.query)?;
        assert!(rt; same(&found, &case.expected), "cell {number}");
    }
    for (number, case) in entities(rt.alloc())?.iter().enumerate() {
        let found = answer(rt.alloc(), &schema, &case.log, &case.query)?;
        assert!(rt; same(&found, &case.expected), "entity {number}");
    }
    Ok(())
}
