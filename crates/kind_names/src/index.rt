// Declared things found by what they go by, in logarithmic time.
ghost use Rattle.std.specs.Prelude.{◌≡◌, true, false, IfOk};
ghost use Rattle.std.specs.List.Sorted.{IsPartitionPoint};
ghost use Rattle.cloud_base.specs.declared.schema.Owner.TheVariants as Owned;
ghost use Rattle.kind_rules.specs.Names.{first_place};
ghost use Rattle.kind_names.specs.Keys.{Named, named, owner_order, named_order, owner_of};
ghost use Rattle.kind_names.specs.Keys.{of_property, of_entity, of_name, goes_by};
ghost use Rattle.kind_names.specs.Indexes.{named_at, number_order, is_before, is_at, below};
ghost use Rattle.kind_names.specs.Indexes.{Indexes};

use cloud_base::{Entity, Memory, Name, Owner, Property};
use std::alloc::Global;
use std::cmp::Ordering;
use std::marker::Model;

/// Whose a declared thing is.
#[derive(Clone, Copy)]
enum Holder<'a> {
    Global,
    Array(&'a str),
    Entity(u16),
}

/// What a declared thing goes by.
#[derive(Clone, Copy)]
pub struct Key<'a> {
    holder: Holder<'a>,
    name: &'a str,
}

impl<'a> Key<'a> {
    pub fn global(name: &'a Name) -> Key<'a>
        ensures { named result ≡ of_name name.now }
    {
        Key {
            holder: Holder::Global,
            name: name.as_str(),
        }
    }

    pub fn of_array(array: &'a Name, name: &'a Name) -> Key<'a>
        ensures { named result ≡ (Owned.Array array.now, name.now) }
    {
        Key {
            holder: Holder::Array(array.as_str()),
            name: name.as_str(),
        }
    }

    pub fn of_entity(entity: u16, name: &'a Name) -> Key<'a>
        ensures { named result ≡ (Owned.Entity entity, name.now) }
    {
        Key {
            holder: Holder::Entity(entity),
            name: name.as_str(),
        }
    }
}

/// A thing that goes by a key.
pub trait Keyed {
    ghost seen: { Self → Named };

    fn key(&self) -> Key<'_>
        ensures { named result ≡ seen self.now };
}

impl Keyed for Property {
    ghost seen = { of_property };

    fn key(&self) -> Key<'_> {
        Key {
            holder: holder_of(&self.owner),
            name: self.name.as_str(),
        }
    }
}

impl Keyed for Entity {
    ghost seen = { of_entity };

    fn key(&self) -> Key<'_> {
        Key::global(&self.name)
    }
}

impl Keyed for Name {
    ghost seen = { of_name };

    fn key(&self) -> Key<'_> {
        Key::global(self)
    }
}

fn holder_of(owner: &Owner) -> Holder<'_>
    ensures { owner_of result ≡ owner.now }
{
    match owner {
        Owner::Global => Holder::Global,
        Owner::Array(array) => Holder::Array(array.as_str()),
        Owner::Entity(entity) => Holder::Entity(*entity),
    }
}

fn compare_holders(left: Holder<'_>, right: Holder<'_>) -> Ordering
    ensures { result ≡ owner_order (owner_of left.entry) (owner_of right.entry) }
{
    match (left, right) {
        (Holder::Global, Holder::Global) => Ordering::Equal,
        (Holder::Array(left), Holder::Array(right)) => left.cmp(right),
        (Holder::Entity(left), Holder::Entity(right)) => left.cmp(&right),
        (Holder::Global, _) | (Holder::Array(_), Holder::Entity(_)) => Ordering::Less,
        (_, Holder::Global) | (Holder::Entity(_), Holder::Array(_)) => Ordering::Greater,
    }
}

fn compare(left: Key<'_>, right: Key<'_>) -> Ordering
    ensures { result ≡ named_order (named left.entry) (named right.entry) }
{
    match compare_holders(left.holder, right.holder) {
        Ordering::Equal => left.name.cmp(right.name),
        unequal => unequal,
    }
}

// What the item with a number goes by, and out of range the empty name.
fn key_at<T: Keyed>(items: &[T], number: usize) -> Key<'_>
    ensures { named result ≡ named_at T.seen items.now number }
{
    match items.get(number) {
        Some(item) => item.key(),
        None => Key {
            holder: Holder::Global,
            name: "",
        },
    }
}

fn compare_numbers<T: Keyed>(items: &[T], left: usize, right: usize) -> Ordering
    ensures { result ≡ number_order T.seen items.now left right }
{
    compare(key_at(items, left), key_at(items, right)).then(left.cmp(&right))
}

fn comes_before<T: Keyed>(items: &[T], number: usize, key: Key<'_>) -> bool
    ensures { result ≡ is_before T.seen items.now (named key.entry) number }
{
    compare(key_at(items, number), key).is_lt()
}

fn is_found<T: Keyed>(items: &[T], number: usize, key: Key<'_>) -> bool
    ensures { result ≡ is_at T.seen items.now (named key.entry) number }
{
    compare(key_at(items, number), key).is_eq()
}

fn numbers_below(alloc: Global, count: usize) -> Result<Vec<usize>, Memory>
    ensures { IfOk result (λ numbers. numbers.items ≡ below count) }
{
    let mut numbers = Vec::new(alloc);
    for number in 0..count {
        numbers.push(number)?;
    }
    Ok(numbers)
}

/// The numbers of a list's items, ascending by key, and equal ones by number.
#[derive(Drop)]
pub struct Index {
    numbers: Vec<usize>,
}

impl Model for Index {
    ghost use Rattle.std.specs.Prelude.{ℕ, List};

    ghost Value = { List ℕ };

    ghost view = { λ i. i.numbers.items };
}

impl Index {
    pub fn new<T: Keyed>(alloc: Global, items: &[T]) -> Result<Index, Memory>
        ensures { IfOk result (λ index. Indexes T.seen items.now index) }
    {
        let mut numbers = numbers_below(alloc, items.len())?;
        numbers.sort_unstable_by(|left, right| compare_numbers(items, *left, *right));
        Ok(Index { numbers })
    }

    // How many numbers come before those of the items with this key.
    fn place_of<T: Keyed>(&self, items: &[T], key: Key<'_>) -> usize
        requires { Indexes T.seen items.now self.now }
        ensures { IsPartitionPoint (λ n. is_before T.seen items.now (named key.entry) n ≡ true)
            (λ n. is_before T.seen items.now (named key.entry) n ≡ false) self.now result }
    {
        self.numbers
            .as_slice()
            .partition_point(|number| comes_before(items, *number, key))
    }

    /// The number of the first item with this key.
    pub fn find<T: Keyed>(&self, items: &[T], key: Key<'_>) -> Option<usize>
        requires { Indexes T.seen items.now self.now }
        ensures { result ≡ first_place (goes_by T.seen (named key.entry)) items.now }
    {
        let place = self.place_of(items, key);
        let number = *self.numbers.as_slice().get(place)?;
        if is_found(items, number, key) {
            Some(number)
        } else {
            None
        }
    }
}
