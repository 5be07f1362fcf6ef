use crate::SharedMap;
use std::alloc::Global;
use std::test::Fail;

// The numbers below 100, each at seven times itself.
fn filled(alloc: Global) -> Result<SharedMap<u16, u16>, Fail> {
    let mut map = SharedMap::new(alloc);
    for number in 0..100 {
        map.insert(number * 7 % 100, number)?;
    }
    Ok(map)
}

// A fork without the value at 14, and with another one at 15.
fn parted(map: &SharedMap<u16, u16>) -> Result<SharedMap<u16, u16>, Fail> {
    let mut child = map.fork()?;
    child.in_order();
    child.remove(&14);
    child.insert(15, 1000)?;
    Ok(child)
}

fn value(map: &SharedMap<u16, u16>, key: u16) -> Option<u16> {
    map.get(&key).copied()
}

#[test]
fn forks_share_and_part(rt: HostRuntime) -> Result<(), Fail> {
    let map = filled(rt.alloc())?;
    let child = parted(&map)?;
    assert_eq!(rt; value(&child, 14), None);
    assert_eq!(rt; value(&child, 15), Some(1000));
    assert_eq!(rt; value(&child, 21), Some(3));
    assert_eq!(rt; value(&map, 14), Some(2));
    assert_eq!(rt; value(&map, 15), Some(45));
    Ok(())
}

fn first(map: &SharedMap<u16, u16>) -> Option<u16> {
    match map.iter().next() {
        Some((key, _)) => Some(*key),
        None => None,
    }
}

// How many entries there are from a key on, if each is as `filled` puts it.
fn count_from(map: &SharedMap<u16, u16>, from: u16) -> Option<u8> {
    let mut found = 0u8;
    for (key, value) in map.iter_from(&from) {
        if value.wrapping_mul(7) % 100 != *key {
            return None;
        }
        found = found.wrapping_add(1);
    }
    Some(found)
}

#[test]
fn walks_begin_at_a_key(rt: HostRuntime) -> Result<(), Fail> {
    let map = filled(rt.alloc())?;
    assert_eq!(rt; first(&map), Some(0));
    assert_eq!(rt; count_from(&map, 96), Some(4));
    Ok(())
}
