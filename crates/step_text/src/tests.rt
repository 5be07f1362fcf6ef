// Reports whose text is known.
use crate::{Step, answer_text, end_text, lines, query_text, step_text, update_text};
use cloud_base::{
    Answer, CellChange, CellType, End, Entity, Key, KeyType, Keys, Name, Owner, Property, Query,
    Schema, Sequence, Text, Uid, Update,
};
use std::alloc::Global;
use std::test::Fail;

const GROCERY_LIST: &str = "fork 0 1 ann
fork 0 2 bob
fork 0 3 cy
mark 3 yield
fork 3 4 cy
join 0 3
fork 0 5 cy
do 1 Grocery[\"milk\"].quantity.add(2)
mark 1 flush
fork 1 6 ann
join 0 1
fork 0 7 ann
mark 4 flush
join 5 4
fork 5 8 cy
join 0 5
fork 0 9 cy
do 2 Grocery[\"milk\"].quantity.add(1)
do 2 Grocery[\"eggs\"].quantity.add(12)
mark 2 flush
fork 2 10 bob
join 0 2
fork 0 11 bob
join 7 6
ask 7 Grocery[\"milk\"].quantity = 2
say 7 2
join 11 10
ask 11 entries Grocery.quantity = [(\"eggs\"), (\"milk\")]
say 11 \"eggs\"
say 11 \"milk\"
join 9 8
ask 9 entries Grocery.quantity = [(\"milk\")]
ask 9 Grocery[\"milk\"].quantity = 2
say 9 2
end ann Done
end bob Done
end cy Done
";

fn text(text: &str) -> Text {
    Text::new(text.as_bytes()).unwrap_or(Text::empty())
}

fn of_text(bytes: &str) -> Keys {
    let mut keys = Keys::empty();
    keys.push(Key::Text(text(bytes)));
    keys
}

fn schema_of(
    alloc: Global,
    property: Property,
    entities: Sequence<Entity>,
) -> Result<Schema, Fail> {
    let mut properties = Sequence::new(alloc);
    properties.push(property)?;
    Ok(Schema {
        properties,
        entities,
    })
}

fn groceries(alloc: Global) -> Result<Schema, Fail> {
    let mut keys = Sequence::new(alloc);
    keys.push(KeyType::Text)?;
    let property = Property {
        name: Name::new(alloc, b"quantity")?,
        owner: Owner::Array(Name::new(alloc, b"Grocery")?),
        cell: CellType::Int,
        keys,
    };
    schema_of(alloc, property, Sequence::new(alloc))
}

fn tuples(alloc: Global, one: Keys) -> Result<Sequence<Keys>, Fail> {
    let mut tuples = Sequence::new(alloc);
    tuples.push(one)?;
    Ok(tuples)
}

fn grocery_list(alloc: Global) -> Result<Vec<u8>, Fail> {
    let schema = groceries(alloc)?;
    let names = [
        Name::new(alloc, b"ann")?,
        Name::new(alloc, b"bob")?,
        Name::new(alloc, b"cy")?,
    ];
    let mut both = tuples(alloc, of_text("eggs"))?;
    both.push(of_text("milk"))?;
    let milk = tuples(alloc, of_text("milk"))?;
    let steps = [
        Step::Fork(0, 0),
        Step::Fork(0, 1),
        Step::Fork(0, 2),
        Step::Mark(3, false),
        Step::Fork(3, 2),
        Step::Join(0, 3),
        Step::Fork(0, 2),
        Step::Do(1, Update::Cell(0, of_text("milk"), CellChange::Add(2))),
        Step::Mark(1, true),
        Step::Fork(1, 0),
        Step::Join(0, 1),
        Step::Fork(0, 0),
        Step::Mark(4, true),
        Step::Join(5, 4),
        Step::Fork(5, 2),
        Step::Join(0, 5),
        Step::Fork(0, 2),
        Step::Do(2, Update::Cell(0, of_text("milk"), CellChange::Add(1))),
        Step::Do(2, Update::Cell(0, of_text("eggs"), CellChange::Add(12))),
        Step::Mark(2, true),
        Step::Fork(2, 1),
        Step::Join(0, 2),
        Step::Fork(0, 1),
        Step::Join(7, 6),
        Step::Ask(7, Query::Get(0, of_text("milk")), Answer::Int(2)),
        Step::Say(7, Answer::Int(2)),
        Step::Join(11, 10),
        Step::Ask(11, Query::Entries(0), Answer::Tuples(both)),
        Step::Say(11, Answer::Text(text("eggs"))),
        Step::Say(11, Answer::Text(text("milk"))),
        Step::Join(9, 8),
        Step::Ask(9, Query::Entries(0), Answer::Tuples(milk)),
        Step::Ask(9, Query::Get(0, of_text("milk")), Answer::Int(2)),
        Step::Say(9, Answer::Int(2)),
    ];
    Ok(lines(
        alloc,
        &schema,
        &names,
        &steps,
        &[End::Done, End::Done, End::Done],
    )?)
}

const DELETION: &str = "fork 0 1 a
fork 0 2 b
do 1 new Customer = @0.0
do 1 new Order[@0.0] = @0.1
do 1 Note[@0.1].n.add(1)
mark 1 flush
fork 1 3 a
join 0 1
fork 0 4 a
mark 2 flush
fork 2 5 b
join 0 2
fork 0 6 b
join 4 3
do 4 delete @0.0
mark 4 flush
fork 4 7 a
join 0 4
fork 0 8 a
join 6 5
ask 6 all Order = [@0.1]
do 6 Note[@0.1].n.add(5)
ask 6 Note[@0.1].n = 6
say 6 6
mark 6 flush
fork 6 9 b
join 0 6
fork 0 10 b
join 8 7
join 10 9
ask 10 Note[@0.1].n = 0
say 10 0
ask 10 alive @0.1 = false
say 10 false
end a Done
end b Done
";

fn orders(alloc: Global) -> Result<Schema, Fail> {
    let mut keys = Sequence::new(alloc);
    keys.push(KeyType::Id(1))?;
    let mut order_keys = Sequence::new(alloc);
    order_keys.push(KeyType::Id(0))?;
    let mut entities = Sequence::new(alloc);
    entities.push(Entity {
        name: Name::new(alloc, b"Customer")?,
        keys: Sequence::new(alloc),
    })?;
    entities.push(Entity {
        name: Name::new(alloc, b"Order")?,
        keys: order_keys,
    })?;
    let owner = Owner::Array(Name::new(alloc, b"Note")?);
    let name = Name::new(alloc, b"n")?;
    schema_of(
        alloc,
        Property {
            name,
            owner,
            cell: CellType::Int,
            keys,
        },
        entities,
    )
}

fn of_id(serial: u32) -> Keys {
    Keys::one(Key::Ref(Uid::new(0, serial)))
}

fn deletion(alloc: Global) -> Result<Vec<u8>, Fail> {
    let schema = orders(alloc)?;
    let names = [Name::new(alloc, b"a")?, Name::new(alloc, b"b")?];
    let mut ids = Sequence::new(alloc);
    ids.push(Uid::new(0, 1))?;
    let steps = [
        Step::Fork(0, 0),
        Step::Fork(0, 1),
        Step::Do(1, Update::Create(Uid::new(0, 0), 0, Keys::empty())),
        Step::Do(1, Update::Create(Uid::new(0, 1), 1, of_id(0))),
        Step::Do(1, Update::Cell(0, of_id(1), CellChange::Add(1))),
        Step::Mark(1, true),
        Step::Fork(1, 0),
        Step::Join(0, 1),
        Step::Fork(0, 0),
        Step::Mark(2, true),
        Step::Fork(2, 1),
        Step::Join(0, 2),
        Step::Fork(0, 1),
        Step::Join(4, 3),
        Step::Do(4, Update::Delete(Uid::new(0, 0))),
        Step::Mark(4, true),
        Step::Fork(4, 0),
        Step::Join(0, 4),
        Step::Fork(0, 0),
        Step::Join(6, 5),
        Step::Ask(6, Query::All(1), Answer::Ids(ids)),
        Step::Do(6, Update::Cell(0, of_id(1), CellChange::Add(5))),
        Step::Ask(6, Query::Get(0, of_id(1)), Answer::Int(6)),
        Step::Say(6, Answer::Int(6)),
        Step::Mark(6, true),
        Step::Fork(6, 1),
        Step::Join(0, 6),
        Step::Fork(0, 1),
        Step::Join(8, 7),
        Step::Join(10, 9),
        Step::Ask(10, Query::Get(0, of_id(1)), Answer::Int(0)),
        Step::Say(10, Answer::Int(0)),
        Step::Ask(10, Query::Alive(Uid::new(0, 1)), Answer::Truth(false)),
        Step::Say(10, Answer::Truth(false)),
    ];
    Ok(lines(alloc, &schema, &names, &steps, &[End::Done, End::Done])?)
}

/// What each other call prints.
fn parts(alloc: Global) -> Result<[Vec<u8>; 5], Fail> {
    let schema = groceries(alloc)?;
    let answer = Answer::Text(text("a \"b\" \\"));
    let change = CellChange::SetIfEmpty(text("ann"));
    Ok([
        update_text(alloc, &schema, &Update::Cell(0, of_id(3), change))?,
        query_text(alloc, &schema, &Query::Entries(0))?,
        answer_text(alloc, &answer)?,
        step_text(alloc, &schema, &[], 7, &Step::Join(0, 6))?,
        end_text(alloc, End::Trap { line: 4 })?,
    ])
}

#[test]
fn known_texts(rt: HostRuntime) -> Result<(), Fail> {
    assert_eq!(rt;
        grocery_list(rt.alloc())?.as_slice(),
        GROCERY_LIST.as_bytes()
    );
    assert_eq!(rt; deletion(rt.alloc())?.as_slice(), DELETION.as_bytes());
    let [update, query, answer, step, end] = parts(rt.alloc())?;
    let table = [
        (update, "Grocery[@0.3].quantity.setIfEmpty(\"ann\")"),
        (query, "entries Grocery.quantity"),
        (answer, "\"a \\\"b\\\" \\\\\""),
        (step, "join 0 6\n"),
        (end, "Trap 4"),
    ];
    for (text, want) in table.iter() {
        assert_eq!(rt; text.as_slice(), want.as_bytes());
    }
    Ok(())
}
