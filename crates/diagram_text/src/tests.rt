// Records whose reports are known.
ghost use Rattle.std.specs.Prelude.{◌≡◌, IfOk, [], ◌∷◌};
ghost use Rattle.typed_program.specs.declared.statement.Statement.TheVariants as s;

use crate::diagram::record_lines;
use crate::{Record, build, report};
use cloud_base::{
    Answer, Batch, CellChange, CellType, End, Entity, Event, EventList, IdList, Key, KeyType, Keys,
    Memory, Name, Owner, Property, Query, Schema, Sequence, Stretch, Tail, Text, TupleList, Uid,
    Update,
};
use sqlite_items::Items;
use std::alloc::Global;
use std::test::Fail;
use typed_program::{Body, Parts, Program, Statement};

// The key of a cell of the first property.
#[derive(Clone, Copy)]
enum At {
    Nothing,
    Words(&'static str),
    Serial(u32),
}

// What a client did, as it is written in the tables.
#[derive(Clone, Copy)]
enum Told {
    Yield,
    Flush,
    Adds(At, i64),
    Creates(u32, u16, At),
    Deletes(u32),
    Gets(At, i64),
    Entries(&'static [&'static str]),
    All(u16, u32),
    Alive(u32, bool),
    Says(i64),
    SaysText(&'static str),
    SaysTruth(bool),
}

// A push: its client, round and base, and what ran before the pull and since.
#[derive(Clone, Copy)]
struct Push<'a>(u8, u64, u64, &'a [Told], &'a [Told]);

// What a client pulled at last, and what it did since.
#[derive(Clone, Copy)]
struct Left<'a>(u64, &'a [Told]);

fn text(text: &str) -> Text {
    Text::new(text.as_bytes()).unwrap_or(Text::empty())
}

fn id(serial: u32) -> Uid {
    Uid::new(0, serial)
}

fn keys(at: At) -> Keys {
    match at {
        At::Nothing => Keys::empty(),
        At::Words(words) => Keys::one(Key::Text(text(words))),
        At::Serial(serial) => Keys::one(Key::Ref(id(serial))),
    }
}

fn tuples(alloc: Global, words: &[&'static str]) -> Result<TupleList, Memory> {
    let mut tuples = Sequence::new(alloc);
    for word in words {
        tuples.push(keys(At::Words(word)))?;
    }
    Ok(tuples)
}

fn one_id(alloc: Global, serial: u32) -> Result<IdList, Memory> {
    let mut ids = Sequence::new(alloc);
    ids.push(id(serial))?;
    Ok(ids)
}

fn event(alloc: Global, told: Told) -> Result<Event, Memory> {
    Ok(match told {
        Told::Yield => Event::Yield,
        Told::Flush => Event::Flush,
        Told::Adds(at, number) => Event::Do(Update::Cell(0, keys(at), CellChange::Add(number))),
        Told::Creates(serial, entity, at) => {
            Event::Do(Update::Create(id(serial), entity, keys(at)))
        }
        Told::Deletes(serial) => Event::Do(Update::Delete(id(serial))),
        Told::Gets(at, number) => Event::Ask(Query::Get(0, keys(at)), Answer::Int(number)),
        Told::Entries(words) => {
            Event::Ask(Query::Entries(0), Answer::Tuples(tuples(alloc, words)?))
        }
        Told::All(entity, serial) => {
            Event::Ask(Query::All(entity), Answer::Ids(one_id(alloc, serial)?))
        }
        Told::Alive(serial, truth) => Event::Ask(Query::Alive(id(serial)), Answer::Truth(truth)),
        Told::Says(number) => Event::Say(Answer::Int(number)),
        Told::SaysText(words) => Event::Say(Answer::Text(text(words))),
        Told::SaysTruth(truth) => Event::Say(Answer::Truth(truth)),
    })
}

fn events(alloc: Global, told: &[Told]) -> Result<EventList, Memory> {
    let mut events = Sequence::new(alloc);
    for one in told {
        events.push(event(alloc, *one)?)?;
    }
    Ok(events)
}

fn batch(alloc: Global, push: Push) -> Result<Batch, Memory> {
    let Push(client, round, base, before, rest) = push;
    let before = events(alloc, before)?;
    let rest = events(alloc, rest)?;
    Ok(Batch {
        client,
        round,
        base,
        before,
        rest,
    })
}

fn tail(alloc: Global, left: Left) -> Result<Tail, Memory> {
    let Left(base, rest) = left;
    let now = Stretch {
        base: Some(base),
        before: Sequence::new(alloc),
        rest: events(alloc, rest)?,
    };
    Ok(Tail { sent: None, now })
}

// Each client ended at the end of its body.
fn record(alloc: Global, pushes: &[Push], lefts: &[Left]) -> Result<Record, Memory> {
    let mut batches = Sequence::new(alloc);
    for push in pushes {
        batches.push(batch(alloc, *push)?)?;
    }
    let mut tails = Sequence::new(alloc);
    let mut ends = Sequence::new(alloc);
    for left in lefts {
        tails.push(tail(alloc, *left)?)?;
        ends.push(End::Done)?;
    }
    Ok(Record {
        batches,
        tails,
        ends,
    })
}

// One property of integers.
fn schema(alloc: Global, name: Name, owner: Owner, key: Option<KeyType>) -> Result<Schema, Memory> {
    let mut keys = Sequence::new(alloc);
    if let Some(key) = key {
        keys.push(key)?;
    }
    let mut properties = Sequence::new(alloc);
    properties.push(Property {
        name,
        owner,
        cell: CellType::Int,
        keys,
    })?;
    Ok(Schema {
        properties,
        entities: Sequence::new(alloc),
    })
}

fn lines_of(
    alloc: Global,
    schema: &Schema,
    names: &[Name],
    history: &Record,
) -> Result<Vec<u8>, Memory> {
    if history.is_drawable() {
        record_lines(alloc, schema, names, history)
    } else {
        Ok(Vec::new(alloc))
    }
}

const GROCERY_LIST: &str = "fork 0 1 ann
fork 0 2 bob
fork 0 3 cy
mark 3 yield
fork 3 4 cy
join 0 3
fork 0 5 cy
do 1 Grocery[\"milk\"].quantity.add(2)
mark 1 flush
fork 1 6 ann
join 0 1
fork 0 7 ann
mark 4 flush
join 5 4
fork 5 8 cy
join 0 5
fork 0 9 cy
do 2 Grocery[\"milk\"].quantity.add(1)
do 2 Grocery[\"eggs\"].quantity.add(12)
mark 2 flush
fork 2 10 bob
join 0 2
fork 0 11 bob
join 7 6
ask 7 Grocery[\"milk\"].quantity = 2
say 7 2
join 11 10
ask 11 entries Grocery.quantity = [(\"eggs\"), (\"milk\")]
say 11 \"eggs\"
say 11 \"milk\"
join 9 8
ask 9 entries Grocery.quantity = [(\"milk\")]
ask 9 Grocery[\"milk\"].quantity = 2
say 9 2
end ann Done
end bob Done
end cy Done
";

fn grocery_list(alloc: Global) -> Result<Vec<u8>, Memory> {
    let milk = At::Words("milk");
    let eggs = At::Words("eggs");
    let pushes = [
        Push(2, 1, 0, &[], &[Told::Yield]),
        Push(0, 1, 0, &[], &[Told::Adds(milk, 2), Told::Flush]),
        Push(2, 2, 1, &[Told::Flush], &[]),
        Push(
            1,
            1,
            0,
            &[],
            &[Told::Adds(milk, 1), Told::Adds(eggs, 12), Told::Flush],
        ),
    ];
    let lefts = [
        Left(2, &[Told::Gets(milk, 2), Told::Says(2)]),
        Left(
            4,
            &[
                Told::Entries(&["eggs", "milk"]),
                Told::SaysText("eggs"),
                Told::SaysText("milk"),
            ],
        ),
        Left(
            3,
            &[Told::Entries(&["milk"]), Told::Gets(milk, 2), Told::Says(2)],
        ),
    ];
    let history = record(alloc, &pushes, &lefts)?;
    let owner = Owner::Array(Name::new(alloc, b"Grocery")?);
    let name = Name::new(alloc, b"quantity")?;
    let schema = schema(alloc, name, owner, Some(KeyType::Text))?;
    let names = [
        Name::new(alloc, b"ann")?,
        Name::new(alloc, b"bob")?,
        Name::new(alloc, b"cy")?,
    ];
    lines_of(alloc, &schema, &names, &history)
}

const DELETION: &str = "fork 0 1 a
fork 0 2 b
do 1 new Customer = @0.0
do 1 new Order[@0.0] = @0.1
do 1 Note[@0.1].n.add(1)
mark 1 flush
fork 1 3 a
join 0 1
fork 0 4 a
mark 2 flush
fork 2 5 b
join 0 2
fork 0 6 b
join 4 3
do 4 delete @0.0
mark 4 flush
fork 4 7 a
join 0 4
fork 0 8 a
join 6 5
ask 6 all Order = [@0.1]
do 6 Note[@0.1].n.add(5)
ask 6 Note[@0.1].n = 6
say 6 6
mark 6 flush
fork 6 9 b
join 0 6
fork 0 10 b
join 8 7
join 10 9
ask 10 Note[@0.1].n = 0
say 10 0
ask 10 alive @0.1 = false
say 10 false
end a Done
end b Done
";

fn orders(alloc: Global) -> Result<Schema, Memory> {
    let owner = Owner::Array(Name::new(alloc, b"Note")?);
    let name = Name::new(alloc, b"n")?;
    let mut schema = schema(alloc, name, owner, Some(KeyType::Id(1)))?;
    schema.entities.push(Entity {
        name: Name::new(alloc, b"Customer")?,
        keys: Sequence::new(alloc),
    })?;
    let mut keys = Sequence::new(alloc);
    keys.push(KeyType::Id(0))?;
    let name = Name::new(alloc, b"Order")?;
    schema.entities.push(Entity { name, keys })?;
    Ok(schema)
}

fn deletion(alloc: Global) -> Result<Vec<u8>, Memory> {
    let order = At::Serial(1);
    let pushes = [
        Push(
            0,
            1,
            0,
            &[],
            &[
                Told::Creates(0, 0, At::Nothing),
                Told::Creates(1, 1, At::Serial(0)),
                Told::Adds(order, 1),
                Told::Flush,
            ],
        ),
        Push(1, 1, 0, &[], &[Told::Flush]),
        Push(0, 2, 1, &[], &[Told::Deletes(0), Told::Flush]),
        Push(
            1,
            2,
            2,
            &[],
            &[
                Told::All(1, 1),
                Told::Adds(order, 5),
                Told::Gets(order, 6),
                Told::Says(6),
                Told::Flush,
            ],
        ),
    ];
    let lefts = [
        Left(3, &[]),
        Left(
            4,
            &[
                Told::Gets(order, 0),
                Told::Says(0),
                Told::Alive(1, false),
                Told::SaysTruth(false),
            ],
        ),
    ];
    let history = record(alloc, &pushes, &lefts)?;
    let names = [Name::new(alloc, b"a")?, Name::new(alloc, b"b")?];
    lines_of(alloc, &orders(alloc)?, &names, &history)
}

const PUSHED_TWICE: &str = "fork 0 1 a
do 1 g.add(1)
mark 1 flush
fork 1 2 a
join 0 1
fork 0 3 a
join 3 2
ask 3 g = 1
say 3 1
end a Done
";

const FLUSH: &str = "fork 0 1 a
mark 1 flush
fork 1 2 a
join 0 1
fork 0 3 a
join 3 2
end a Done
";

// Of a global `g` and a client `a`, which pushed once and pulled that.
fn one_push(alloc: Global, pushed: &[Told], since: &[Told]) -> Result<Vec<u8>, Memory> {
    let history = record(alloc, &[Push(0, 1, 0, &[], pushed)], &[Left(1, since)])?;
    counter(alloc, &history)
}

fn counter(alloc: Global, history: &Record) -> Result<Vec<u8>, Memory> {
    let name = Name::new(alloc, b"g")?;
    let schema = schema(alloc, name, Owner::Global, None)?;
    let names = [Name::new(alloc, b"a")?];
    lines_of(alloc, &schema, &names, history)
}

// The last push is outstanding, and what ran before the pull comes first.
const OUTSTANDING: &str = "fork 0 1 a
do 1 g.add(1)
mark 1 yield
fork 1 2 a
join 0 1
fork 0 3 a
do 2 g.add(2)
mark 2 yield
join 3 2
mark 3 flush
fork 3 4 a
say 4 7
end a Done
";

fn outstanding(alloc: Global) -> Result<Vec<u8>, Memory> {
    let first = Push(0, 1, 0, &[], &[Told::Adds(At::Nothing, 1), Told::Yield]);
    let mut history = record(alloc, &[first], &[])?;
    let before = [Told::Adds(At::Nothing, 2), Told::Yield];
    let sent = batch(alloc, Push(0, 2, 1, &before, &[Told::Flush]))?;
    let now = Stretch {
        base: None,
        before: events(alloc, &[Told::Says(7)])?,
        rest: Sequence::new(alloc),
    };
    history.tails.push(Tail {
        sent: Some(sent),
        now,
    })?;
    history.ends.push(End::Done)?;
    counter(alloc, &history)
}

const EIGHT_CLIENTS: &str = "fork 0 1 a
fork 0 2 b
fork 0 3 c
fork 0 4 d
fork 0 5 e
fork 0 6 f
fork 0 7 g
fork 0 8 h
mark 8 yield
fork 8 9 h
join 0 8
fork 0 10 h
mark 1 yield
fork 1 11 a
join 0 1
fork 0 12 a
join 12 11
say 4 1
join 10 9
end a Done
end b Done
end c Done
end d Done
end e Done
end f Done
end g Done
end h Done
";

fn eight_clients(alloc: Global) -> Result<Vec<u8>, Memory> {
    let pushes = [
        Push(7, 1, 0, &[], &[Told::Yield]),
        Push(0, 1, 0, &[], &[Told::Yield]),
    ];
    let idle = Left(0, &[]);
    let says = Left(0, &[Told::Says(1)]);
    let lefts = [
        Left(2, &[]),
        idle,
        idle,
        says,
        idle,
        idle,
        idle,
        Left(1, &[]),
    ];
    let history = record(alloc, &pushes, &lefts)?;
    let names = [
        Name::new(alloc, b"a")?,
        Name::new(alloc, b"b")?,
        Name::new(alloc, b"c")?,
        Name::new(alloc, b"d")?,
        Name::new(alloc, b"e")?,
        Name::new(alloc, b"f")?,
        Name::new(alloc, b"g")?,
        Name::new(alloc, b"h")?,
    ];
    let nothing = Schema {
        properties: Sequence::new(alloc),
        entities: Sequence::new(alloc),
    };
    lines_of(alloc, &nothing, &names, &history)
}

// `yield;`
fn body(alloc: Global) -> Result<Body, Memory>
    ensures { IfOk result (λ body. body ≡ s.Yield 1 ∷ []) }
{
    let mut body = Items::new(alloc);
    body.push(Statement::Yield(1))?;
    Ok(body)
}

fn program(alloc: Global) -> Result<Program, Memory> {
    let mut names = Sequence::new(alloc);
    names.push(Name::new(alloc, b"a")?)?;
    let mut bodies = Sequence::new(alloc);
    bodies.push(body(alloc)?)?;
    let schema = Schema {
        properties: Sequence::new(alloc),
        entities: Sequence::new(alloc),
    };
    Ok(Program::new(Parts {
        schema,
        names,
        bodies,
        schedule: Sequence::new(alloc),
    }))
}

// A client that yields, and was not served: its steps and its report.
fn unserved(alloc: Global) -> Result<(usize, Vec<u8>), Memory> {
    let history = record(alloc, &[], &[Left(0, &[Told::Yield])])?;
    if !history.is_drawable() {
        return Ok((0, Vec::new(alloc)));
    }
    let steps = build(alloc, &history)?.len();
    let program = program(alloc)?;
    Ok((steps, report(alloc, &program, &history)?))
}

#[test]
fn known_reports(rt: HostRuntime) -> Result<(), Fail> {
    let alloc = rt.alloc();
    let (steps, text) = unserved(alloc)?;
    assert_eq!(rt; steps, 2);
    assert_eq!(rt;
        text.as_slice(),
        b"fork 0 1 a\nmark 1 yield\nend a Done\n".as_slice()
    );
    let text = grocery_list(alloc)?;
    assert_eq!(rt; text.as_slice(), GROCERY_LIST.as_bytes());
    let text = deletion(alloc)?;
    assert_eq!(rt; text.as_slice(), DELETION.as_bytes());
    let pushed = [Told::Adds(At::Nothing, 1), Told::Flush];
    let text = one_push(alloc, &pushed, &[Told::Gets(At::Nothing, 1), Told::Says(1)])?;
    assert_eq!(rt; text.as_slice(), PUSHED_TWICE.as_bytes());
    let text = one_push(alloc, &[Told::Flush], &[])?;
    assert_eq!(rt; text.as_slice(), FLUSH.as_bytes());
    let text = outstanding(alloc)?;
    assert_eq!(rt; text.as_slice(), OUTSTANDING.as_bytes());
    let text = eight_clients(alloc)?;
    assert_eq!(rt; text.as_slice(), EIGHT_CLIENTS.as_bytes());
    Ok(())
}
