use crate::{CreatedList, Roster};
use cloud_base::{IdList, Key, Keys, Uid};
use std::alloc::Global;
use std::test::Fail;

fn customer() -> Uid {
    Uid::new(1, 0)
}

fn order() -> Uid {
    Uid::new(0, 7)
}

fn line() -> Uid {
    Uid::new(1, 1)
}

fn late() -> Uid {
    Uid::new(2, 0)
}

fn of_customer() -> Keys {
    Keys::one(Key::Ref(customer()))
}

fn of_order() -> Keys {
    let mut keys = Keys::one(Key::Int(4));
    keys.push(Key::Ref(order()));
    keys
}

// A customer, with an order that has a line.
fn shop(alloc: Global) -> Result<Roster, Fail> {
    let mut roster = Roster::new(alloc);
    roster.create(customer(), 0, &Keys::empty())?;
    roster.create(order(), 1, &of_customer())?;
    roster.create(line(), 2, &of_order())?;
    Ok(roster)
}

fn without_line(roster: &Roster) -> Result<Roster, Fail> {
    let mut other = roster.fork()?;
    other.delete(line())?;
    Ok(other)
}

fn is_list(found: &IdList, wanted: &[Uid]) -> bool {
    found.as_slice() == wanted
}

fn has_parted(alloc: Global) -> Result<bool, Fail> {
    let roster = shop(alloc)?;
    let other = without_line(&roster)?;
    Ok(
        roster.alive(line())
            && !roster.alive(late())
            && other.alive(order())
            && !other.alive(line()),
    )
}

fn orders_left(alloc: Global) -> Result<IdList, Fail> {
    let roster = shop(alloc)?;
    let other = without_line(&roster)?;
    Ok(other.all(1)?)
}

fn created_left(alloc: Global) -> Result<CreatedList, Fail> {
    let roster = shop(alloc)?;
    let other = without_line(&roster)?;
    Ok(other.created()?)
}

#[test]
fn a_fork_loses_a_line(rt: HostRuntime) -> Result<(), Fail> {
    assert!(rt; has_parted(rt.alloc())?);
    assert!(rt; is_list(&orders_left(rt.alloc())?, &[order()]));
    let created = created_left(rt.alloc())?;
    assert!(rt; created.len() == 2 && created.as_slice()[0].keys == of_customer());
    Ok(())
}

// A shop whose customer is deleted.
fn closed(alloc: Global) -> Result<Roster, Fail> {
    let mut roster = shop(alloc)?;
    roster.delete(customer())?;
    Ok(roster)
}

fn doomed(alloc: Global) -> Result<IdList, Fail> {
    let roster = shop(alloc)?;
    Ok(roster.doomed(customer())?)
}

fn died(alloc: Global) -> Result<IdList, Fail> {
    let mut roster = shop(alloc)?;
    Ok(roster.delete(customer())?)
}

fn knows_the_dead(alloc: Global) -> Result<bool, Fail> {
    let roster = closed(alloc)?;
    Ok(roster.dead(line()) && roster.has_dead(&of_order()))
}

#[test]
fn a_line_dies_with_the_customer_of_its_order(rt: HostRuntime) -> Result<(), Fail> {
    assert!(rt; is_list(&doomed(rt.alloc())?, &[order(), customer(), line()]));
    assert!(rt; is_list(&died(rt.alloc())?, &[order(), customer(), line()]));
    assert!(rt; knows_the_dead(rt.alloc())?);
    Ok(())
}

fn died_late(alloc: Global) -> Result<IdList, Fail> {
    let mut roster = closed(alloc)?;
    Ok(roster.create(late(), 1, &of_customer())?)
}

fn gone(alloc: Global) -> Result<IdList, Fail> {
    let mut roster = closed(alloc)?;
    roster.create(late(), 1, &of_customer())?;
    Ok(roster.gone()?)
}

#[test]
fn a_late_order_is_born_dead(rt: HostRuntime) -> Result<(), Fail> {
    assert!(rt; is_list(&died_late(rt.alloc())?, &[late()]));
    assert!(rt; is_list(&gone(rt.alloc())?, &[order(), customer(), line(), late()]));
    Ok(())
}
