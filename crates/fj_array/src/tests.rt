use crate::{EffectList, Grid};
use cloud_base::{Key, Keys, Text, TupleList, Uid};
use fj_core::{Effect, IntCell, IntChange, NonZero, TextCell, TextChange};
use std::alloc::Global;
use std::test::Fail;

fn text(bytes: &[u8]) -> Text {
    Text::new(bytes).unwrap_or(Text::empty())
}

// The key that each kind has in these tests, by number.
fn key(kind: u8) -> Keys {
    Keys::one(match kind {
        0 => Key::Int(-3),
        1 => Key::Text(text(b"milk")),
        _ => Key::Ref(Uid::new(2, 5)),
    })
}

// A grid of one text.
fn ann(alloc: Global) -> Result<Grid<TextCell>, Fail> {
    let mut grid: Grid<TextCell> = Grid::new(alloc);
    grid.put(1, &key(1), text(b"ann"))?;
    Ok(grid)
}

// A fork that finds the text there.
fn bob(grid: &Grid<TextCell>) -> Result<Grid<TextCell>, Fail> {
    let mut bob = grid.fork()?;
    bob.update(1, &key(1), &TextChange::IfEmpty(text(b"bob")))?;
    Ok(bob)
}

// A fork that empties the text, and finds none there.
fn x(grid: &Grid<TextCell>) -> Result<Grid<TextCell>, Fail> {
    let mut x = grid.fork()?;
    x.update(1, &key(1), &TextChange::Set(text(b"")))?;
    x.update(1, &key(1), &TextChange::IfEmpty(text(b"xxx")))?;
    Ok(x)
}

#[test]
fn one_join_finds_a_text(rt: HostRuntime) -> Result<(), Fail> {
    let mut grid = ann(rt.alloc())?;
    let bob = bob(&grid)?;
    grid.join(&bob)?;
    assert!(rt; grid.ask(1, &key(1)) == text(b"ann"));
    Ok(())
}

// The text after both joins, in one order or the other.
fn joined(alloc: Global, bob_first: bool) -> Result<Text, Fail> {
    let mut grid = ann(alloc)?;
    let bob = bob(&grid)?;
    let x = x(&grid)?;
    let (first, second) = if bob_first { (&bob, &x) } else { (&x, &bob) };
    grid.join(first)?;
    grid.join(second)?;
    Ok(grid.ask(1, &key(1)))
}

#[test]
fn joins_in_both_orders(rt: HostRuntime) -> Result<(), Fail> {
    for bob_first in [true, false] {
        assert!(rt; joined(rt.alloc(), bob_first)? == text(b"xxx"));
    }
    Ok(())
}

// A number at each kind of key, two of another property, and one that came back to 0.
fn numbers(alloc: Global) -> Result<Grid<IntCell>, Fail> {
    let mut grid: Grid<IntCell> = Grid::new(alloc);
    for (property, kind, number) in [(1, 0, 4), (0, 2, 6), (0, 1, 2), (0, 0, 5), (0, 1, -2)] {
        grid.update(property, &key(kind), &IntChange::Add(number))?;
    }
    Ok(grid)
}

fn entries(alloc: Global) -> Result<TupleList, Fail> {
    let grid = numbers(alloc)?;
    Ok(grid.entries(0)?)
}

fn effects(alloc: Global) -> Result<EffectList, Fail> {
    let grid = numbers(alloc)?;
    Ok(grid.effects()?)
}

#[test]
fn lists_in_order(rt: HostRuntime) -> Result<(), Fail> {
    let list = entries(rt.alloc())?;
    let entries = list.as_slice();
    assert_eq!(rt; entries.len(), 2);
    assert!(rt; entries[0] == key(0));
    assert!(rt; entries[1] == key(2));

    let list = effects(rt.alloc())?;
    let effects = list.as_slice();
    assert_eq!(rt; effects.len(), 3);
    for (place, (property, kind, number)) in [(0, 0, 5), (0, 2, 6), (1, 0, 4)].iter().enumerate() {
        let effect = &effects[place];
        assert_eq!(rt; effect.property, *property);
        assert!(rt; effect.keys == key(*kind));
        assert!(rt; Some(effect.effect.copied()) == NonZero::new(*number).map(Effect::Add));
    }
    Ok(())
}

// A fork of a copy, of which one cell is set.
fn set_to_nine(grid: &Grid<IntCell>) -> Result<Grid<IntCell>, Fail> {
    let copy = grid.copied()?;
    let mut child = copy.fork()?;
    child.join_effect(1, &key(0), &Effect::SetInt(9))?;
    Ok(child)
}

#[test]
fn forks_and_joins(rt: HostRuntime) -> Result<(), Fail> {
    let mut grid = numbers(rt.alloc())?;
    let child = set_to_nine(&grid)?;
    grid.join(&child)?;
    grid.purge(Uid::new(2, 5));
    for (property, kind, want) in [(1, 0, 9), (0, 0, 5), (0, 1, 0), (0, 2, 0)] {
        assert_eq!(rt; grid.ask(property, &key(kind)), want);
    }
    Ok(())
}

fn number(number: i64) -> Keys {
    Keys::one(Key::Int(number))
}

// So many cells that their map makes a shelf.
fn forty(alloc: Global) -> Result<Grid<IntCell>, Fail> {
    let mut grid: Grid<IntCell> = Grid::new(alloc);
    for place in 0..40 {
        grid.put(0, &number(place), place)?;
    }
    Ok(grid)
}

// A fork, which shares the shelf, with two cells touched and one of them changed.
fn changed(grid: &Grid<IntCell>) -> Result<Grid<IntCell>, Fail> {
    let mut child = grid.fork()?;
    for (place, add) in [(3, 3), (3, -3), (5, -5)] {
        child.update(0, &number(place), &IntChange::Add(add))?;
    }
    Ok(child)
}

// How many effects and how many entries a grid has.
fn counts(grid: &Grid<IntCell>) -> Result<(usize, usize), Fail> {
    let effects = grid.effects()?.len();
    let entries = grid.entries(0)?.len();
    Ok((effects, entries))
}

#[test]
fn crosses_a_shelf(rt: HostRuntime) -> Result<(), Fail> {
    let mut grid = forty(rt.alloc())?;
    let child = changed(&grid)?;
    assert_eq!(rt; counts(&child)?, (1, 38));
    grid.join(&child)?;
    assert_eq!(rt; grid.ask(0, &number(5)), 0);
    assert_eq!(rt; grid.ask(0, &number(39)), 39);
    Ok(())
}
