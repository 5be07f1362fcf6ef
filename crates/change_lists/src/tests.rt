use crate::{CellValue, Change, Content, Image, ValueList};
use cloud_base::{IdList, Key, Keys, Sequence, Text, Uid};
use fj_array::{CellEffect, EffectList};
use fj_core::{Effect, NonZero};
use fj_entity::{Created, CreatedList};
use std::alloc::Global;
use std::test::Fail;

fn adds(property: u16, keys: Keys, number: i64) -> Result<CellEffect, Fail> {
    Ok(CellEffect {
        property,
        keys,
        effect: Effect::Add(NonZero::new(number).ok_or("an add of 0")?),
    })
}

fn ids(alloc: Global, list: &[Uid]) -> Result<Sequence<Uid>, Fail> {
    let mut ids = Sequence::new(alloc);
    for id in list {
        ids.push(*id)?;
    }
    Ok(ids)
}

fn change(created: CreatedList, dead: IdList, cells: EffectList) -> Option<Change> {
    if Change::are_ordered(created.as_slice(), dead.as_slice(), cells.as_slice()) {
        Some(Change::new(created, dead, cells))
    } else {
        None
    }
}

fn image(created: CreatedList, dead: IdList, cells: ValueList) -> Option<Image> {
    if Image::are_ordered(created.as_slice(), dead.as_slice(), cells.as_slice()) {
        Some(Image::new(created, dead, cells))
    } else {
        None
    }
}

#[test]
fn lists_in_order_are_kept(rt: HostRuntime) -> Result<(), Fail> {
    let order = Uid::new(1, 7);
    let late = Uid::new(2, 0);
    let mut created = Sequence::new(rt.alloc());
    created.push(Created {
        id: order,
        entity: 3,
        keys: Keys::one(Key::Int(-4)),
    })?;
    let mut effects = Sequence::new(rt.alloc());
    effects.push(adds(0, Keys::one(Key::Ref(order)), 5)?)?;
    effects.push(adds(1, Keys::empty(), -5)?)?;
    let dead = ids(rt.alloc(), &[order, late])?;
    let again = [adds(1, Keys::empty(), 5)?, adds(1, Keys::empty(), 5)?];
    assert!(rt; !Change::are_ordered(created.as_slice(), dead.as_slice(), &again));
    assert!(rt; !Change::are_ordered(created.as_slice(), &[late, order], effects.as_slice()));
    let change = change(created, dead, effects).ok_or("a change")?;
    assert!(rt; change.dead() == [order, late].as_slice());
    assert!(rt; change.created().len() == 1 && change.cells().len() == 2);

    let value = CellValue {
        property: 2,
        keys: Keys::empty(),
        value: Content::Text(Text::new(b"pen")?),
    };
    assert!(rt; value.value.copied() == value.value);
    let zero = CellValue {
        property: 3,
        keys: Keys::empty(),
        value: Content::Int(0),
    };
    assert!(rt; !Image::are_ordered(&[], &[order], &[zero]));
    let mut values = Sequence::new(rt.alloc());
    values.push(value)?;
    let dead = ids(rt.alloc(), &[late])?;
    let image = image(Sequence::new(rt.alloc()), dead, values).ok_or("an image")?;
    assert!(rt; image.dead() == [late].as_slice());
    assert!(rt; image.created().is_empty() && image.cells().len() == 1);
    Ok(())
}
