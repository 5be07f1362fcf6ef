use crate::State;
use change_lists::{CellValue, Change, Content, Image};
use cloud_base::{
    Answer, CellChange, CellType, Entity, Key, KeyType, Keys, Memory, Name, Owner, Property, Query,
    Schema, Sequence, Text, Uid, Update,
};
use std::alloc::Global;
use std::test::Fail;

fn by(id: Uid) -> Keys {
    Keys::one(Key::Ref(id))
}

fn ids_of(alloc: Global, entity: u16) -> Result<Sequence<KeyType>, Memory> {
    let mut keys = Sequence::new(alloc);
    keys.push(KeyType::Id(entity))?;
    Ok(keys)
}

// An array by the ids of an entity.
fn array(alloc: Global, entity: u16, cell: CellType) -> Result<Property, Memory> {
    let name = Name::new(alloc, b"p")?;
    let array = Name::new(alloc, b"A")?;
    let keys = ids_of(alloc, entity)?;
    Ok(Property {
        name,
        owner: Owner::Array(array),
        cell,
        keys,
    })
}

fn entity(alloc: Global, keys: Sequence<KeyType>) -> Result<Entity, Memory> {
    let name = Name::new(alloc, b"E")?;
    Ok(Entity { name, keys })
}

fn properties(alloc: Global) -> Result<Sequence<Property>, Memory> {
    let mut properties = Sequence::new(alloc);
    properties.push(array(alloc, 0, CellType::Int)?)?;
    properties.push(array(alloc, 1, CellType::Text)?)?;
    properties.push(array(alloc, 2, CellType::Int)?)?;
    Ok(properties)
}

fn entities(alloc: Global) -> Result<Sequence<Entity>, Memory> {
    let mut entities = Sequence::new(alloc);
    entities.push(entity(alloc, Sequence::new(alloc))?)?;
    entities.push(entity(alloc, ids_of(alloc, 0)?)?)?;
    entities.push(entity(alloc, ids_of(alloc, 1)?)?)?;
    Ok(entities)
}

// An array by each of three entities, of which the second is kept by the first and the third
// by the second.
fn shop(alloc: Global) -> Result<Schema, Memory> {
    let properties = properties(alloc)?;
    let entities = entities(alloc)?;
    Ok(Schema {
        properties,
        entities,
    })
}

fn customer() -> Uid {
    Uid::new(1, 0)
}

fn order() -> Uid {
    Uid::new(0, 7)
}

fn line() -> Uid {
    Uid::new(1, 1)
}

fn late() -> Uid {
    Uid::new(2, 0)
}

fn text(bytes: &[u8]) -> Text {
    Text::new(bytes).unwrap_or(Text::empty())
}

fn create(state: &mut State, id: Uid, entity: u16, keys: Keys) -> Result<(), Memory> {
    let update = Update::Create(id, entity, keys);
    state.update(&update)
}

fn add(state: &mut State, property: u16, id: Uid, number: i64) -> Result<(), Memory> {
    let update = Update::Cell(property, by(id), CellChange::Add(number));
    state.update(&update)
}

fn set(state: &mut State, property: u16, id: Uid, bytes: &[u8]) -> Result<(), Memory> {
    let update = Update::Cell(property, by(id), CellChange::SetText(text(bytes)));
    state.update(&update)
}

// A customer, its order and a line of that, each with a cell.
fn open(state: &mut State) -> Result<(), Memory> {
    create(state, customer(), 0, Keys::empty())?;
    create(state, order(), 1, by(customer()))?;
    create(state, line(), 2, by(order()))?;
    add(state, 0, customer(), 5)?;
    set(state, 1, order(), b"x")?;
    add(state, 2, line(), 7)
}

// A late order, which has a text.
fn order_late(state: &mut State) -> Result<(), Memory> {
    create(state, late(), 1, by(customer()))?;
    set(state, 1, late(), b"y")
}

fn closed(alloc: Global) -> Result<State, Memory> {
    let schema = shop(alloc)?;
    State::fresh(alloc, &schema)
}

fn server(alloc: Global) -> Result<State, Memory> {
    let mut state = closed(alloc)?;
    open(&mut state)?;
    Ok(state)
}

fn without(server: &State, id: Uid) -> Result<State, Memory> {
    let mut child = server.fork()?;
    child.update(&Update::Delete(id))?;
    Ok(child)
}

fn with_late(server: &State) -> Result<State, Memory> {
    let mut child = server.fork()?;
    order_late(&mut child)?;
    Ok(child)
}

fn answers(state: &State, query: &Query, want: &Answer) -> Result<bool, Memory> {
    let answer = state.ask(query)?;
    Ok(answer == *want)
}

fn begins(state: &State) -> Result<bool, Memory> {
    let has_line = answers(state, &Query::Get(2, by(line())), &Answer::Int(7))?;
    let has_late = answers(state, &Query::Alive(late()), &Answer::Truth(true))?;
    Ok(has_line && !has_late)
}

fn server_begins(alloc: Global) -> Result<bool, Memory> {
    let server = server(alloc)?;
    begins(&server)
}

fn has_no_line(state: &State) -> bool {
    state.get_int(2, &by(line())) == 0 && !state.alive(line())
}

fn parts(server: &State) -> Result<bool, Memory> {
    let child = without(server, line())?;
    Ok(has_no_line(&child) && !has_no_line(server))
}

fn fork_parts(alloc: Global) -> Result<bool, Memory> {
    let server = server(alloc)?;
    parts(&server)
}

#[test]
fn a_fork_loses_a_line(rt: HostRuntime) -> Result<(), Fail> {
    assert!(rt; server_begins(rt.alloc())?);
    assert!(rt; fork_parts(rt.alloc())?);
    Ok(())
}

fn loss(server: &State, id: Uid) -> Result<Change, Memory> {
    let child = without(server, id)?;
    child.effect()
}

fn lost(alloc: Global, id: Uid) -> Result<Change, Memory> {
    let server = server(alloc)?;
    loss(&server, id)
}

fn gain(server: &State) -> Result<Change, Memory> {
    let child = with_late(server)?;
    child.effect()
}

fn made(alloc: Global) -> Result<Change, Memory> {
    let server = server(alloc)?;
    gain(&server)
}

// One order was created, and its text set.
fn tells_of_late(change: &Change) -> bool {
    change.created().len() == 1 && change.dead().is_empty() && change.cells().len() == 1
}

// All three ids died.
fn tells_of_all(change: &Change) -> bool {
    let dead = [order(), customer(), line()];
    change.created().is_empty() && change.dead() == dead.as_slice() && change.cells().is_empty()
}

#[test]
fn what_was_done_is_told(rt: HostRuntime) -> Result<(), Fail> {
    assert!(rt; tells_of_late(&made(rt.alloc())?));
    assert!(rt; tells_of_all(&lost(rt.alloc(), customer())?));
    Ok(())
}

fn join_both(server: &mut State, first: &Change, second: &Change) -> Result<(), Memory> {
    server.join_change(first)?;
    server.join_change(second)
}

fn image_with(alloc: Global, first: &Change, second: &Change) -> Result<Image, Memory> {
    let mut server = server(alloc)?;
    join_both(&mut server, first, second)?;
    server.image()
}

// The image of a server that is told of a late order and of a deleted line.
fn told(alloc: Global) -> Result<Image, Memory> {
    let made = made(alloc)?;
    let lost = lost(alloc, line())?;
    image_with(alloc, &made, &lost)
}

fn customer_cell() -> CellValue {
    CellValue {
        property: 0,
        keys: by(customer()),
        value: Content::Int(5),
    }
}

fn begins_with(cells: &[CellValue], first: &CellValue) -> bool {
    match cells {
        [value, ..] => *value == *first,
        [] => false,
    }
}

// Three ids live, of which each has a cell, and the line is dead.
fn is_told(image: &Image) -> bool {
    begins_with(image.cells(), &customer_cell())
        && image.cells().len() == 3
        && image.created().len() == 3
        && image.dead() == [line()].as_slice()
}

fn restored(alloc: Global, image: &Image) -> Result<State, Memory> {
    let schema = shop(alloc)?;
    State::of_image(alloc, &schema, image)
}

fn has_image(state: &State, image: &Image) -> Result<bool, Memory> {
    let again = state.image()?;
    Ok(
        again.cells() == image.cells()
            && again.created() == image.created()
            && again.dead() == image.dead(),
    )
}

fn did_nothing(state: &State) -> Result<bool, Memory> {
    let change = state.effect()?;
    Ok(change.created().is_empty() && change.dead().is_empty() && change.cells().is_empty())
}

fn goes_on(state: &State, image: &Image) -> Result<bool, Memory> {
    let is_same = has_image(state, image)?;
    let is_idle = did_nothing(state)?;
    Ok(is_same && is_idle)
}

// The state of an image has this image, and did nothing yet.
fn image_goes_on(alloc: Global, image: &Image) -> Result<bool, Memory> {
    let state = restored(alloc, image)?;
    goes_on(&state, image)
}

fn told_goes_on(alloc: Global) -> Result<bool, Memory> {
    let image = told(alloc)?;
    let goes_on = image_goes_on(alloc, &image)?;
    Ok(goes_on && is_told(&image))
}

#[test]
fn an_image_goes_on(rt: HostRuntime) -> Result<(), Fail> {
    assert!(rt; told_goes_on(rt.alloc())?);
    Ok(())
}

fn lose_line(server: &mut State) -> Result<(), Memory> {
    let child = without(server, line())?;
    server.join(&child)
}

// The server, after a child that deleted the line was joined.
fn after_line(alloc: Global) -> Result<State, Memory> {
    let mut server = server(alloc)?;
    lose_line(&mut server)?;
    Ok(server)
}

fn order_text(alloc: Global) -> Result<Text, Memory> {
    let state = after_line(alloc)?;
    Ok(state.get_text(1, &by(order())))
}

fn lists_none(state: &State, query: &Query) -> Result<bool, Memory> {
    let answer = state.ask(query)?;
    Ok(match &answer {
        Answer::Ids(ids) => ids.is_empty(),
        Answer::Tuples(tuples) => tuples.is_empty(),
        _ => false,
    })
}

fn is_empty(state: &State) -> Result<bool, Memory> {
    let has_no_orders = lists_none(state, &Query::All(1))?;
    let has_no_entries = lists_none(state, &Query::Entries(0))?;
    Ok(has_no_orders && has_no_entries && state.get_text(1, &by(late())) == text(b""))
}

fn ends_empty(alloc: Global, first: &Change, second: &Change) -> Result<bool, Memory> {
    let mut server = after_line(alloc)?;
    join_both(&mut server, first, second)?;
    is_empty(&server)
}

// A late order and the deletion of its customer are joined, in one order and the other.
fn ends_empty_either_way(alloc: Global) -> Result<bool, Memory> {
    let made = made(alloc)?;
    let lost = lost(alloc, customer())?;
    let late_first = ends_empty(alloc, &made, &lost)?;
    let late_last = ends_empty(alloc, &lost, &made)?;
    Ok(late_first && late_last)
}

#[test]
fn a_late_order_goes_with_its_customer(rt: HostRuntime) -> Result<(), Fail> {
    assert!(rt; order_text(rt.alloc())? == text(b"x"));
    assert!(rt; ends_empty_either_way(rt.alloc())?);
    Ok(())
}
