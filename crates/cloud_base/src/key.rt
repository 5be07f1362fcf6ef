// Ids of created entities, and the keys of cells and entities.
ghost use Rattle.std.specs.Prelude.{◌≡◌, ◌≤◌, ◌<◌, ◌++◌, ◌↔◌, [], ◌∷◌, length, pos, IsTrue};
ghost use Rattle.cloud_base.specs.Values.{most_keys, most_clients};

use crate::text::Text;
use arrayvec::ArrayVec;
use std::marker::Model;

/// The most keys of a cell or an entity.
pub const MOST_KEYS: usize = 3;

/// The id of a created entity: the client that created it, below 8, and its serial, how many that
/// client had created before.
#[derive(Clone, Copy, Debug, PartialEq, Eq, PartialOrd, Ord)]
pub struct Uid {
    client: u8,
    serial: u32,
}

impl Model for Uid {
    ghost use Rattle.std.specs.Prelude.{ℕ, ◌<◌};
    ghost use Rattle.cloud_base.specs.Values.{Id, most_clients};

    ghost Value = { Id };

    ghost view = { λ u. record { client = u.client; serial = u.serial } };

    ghost invariant = { λ u. u.client < most_clients };

    ghost inverse = { λ id. record { client = id.client; serial = id.serial } };
}

impl Uid {
    pub fn new(client: u8, serial: u32) -> Uid
        requires { client < most_clients }
        ensures client { result.client ≡ client }
        ensures serial { result.serial ≡ serial }
    {
        Uid { client, serial }
    }

    pub fn client(&self) -> u8
        ensures client { result ≡ self.now.client }
        ensures below { result < most_clients }
    {
        self.client
    }

    pub fn serial(&self) -> u32
        ensures { result ≡ self.now.serial }
    {
        self.serial
    }
}

/// One key of a cell or an entity. Integers come before texts, and texts before ids.
#[derive(Drop, PartialEq, Eq, PartialOrd, Ord)]
pub enum Key {
    Int(i64),
    Text(Text),
    Ref(Uid),
}

// It is there for `ArrayVec`, which fills its unused places with it.
impl Default for Key {
    fn default() -> Key
        ensures { result ≡ Key.Int (pos 0) }
    {
        Key::Int(0)
    }
}

impl Key {
    /// The same key.
    pub fn copied(&self) -> Key
        ensures { result ≡ self.now }
    {
        match self {
            Key::Int(number) => Key::Int(*number),
            Key::Text(text) => Key::Text(text.copied()),
            Key::Ref(id) => Key::Ref(*id),
        }
    }
}

/// The keys of a cell or an entity, at most `MOST_KEYS`.
#[derive(Drop, PartialEq, Eq, PartialOrd, Ord)]
pub struct Keys {
    keys: ArrayVec<Key, MOST_KEYS>,
}

impl Model for Keys {
    ghost use Rattle.std.specs.Prelude.{List, ◌≤◌, length};
    ghost use Rattle.cloud_base.specs.declared.key.Key.{Key};
    ghost use Rattle.cloud_base.specs.Values.{most_keys};

    ghost Value = { List Key };

    ghost view = { λ k. k.keys.items };

    ghost invariant = { λ k. length k.keys.items ≤ most_keys };

    ghost inverse = { λ keys. record { keys = record { items = keys } } };
}

impl Keys {
    pub fn empty() -> Keys
        ensures { result ≡ [] }
    {
        Keys {
            keys: ArrayVec::new(),
        }
    }

    /// The list of one key.
    pub fn one(key: Key) -> Keys
        ensures { result ≡ key ∷ [] }
    {
        let mut keys = ArrayVec::new();
        keys.push(key);
        Keys { keys }
    }

    /// Whether there is no room for one more key.
    pub fn is_full(&self) -> bool
        ensures most { MOST_KEYS ≡ most_keys }
        ensures full { IsTrue result ↔ (length self.now ≡ most_keys) }
    {
        self.keys.len() == MOST_KEYS
    }

    pub fn as_slice(&self) -> &[Key]
        ensures few { length self.now ≤ most_keys }
        ensures keys { result.now ≡ self.now }
    {
        self.keys.as_slice()
    }

    /// Puts a key at the end.
    pub fn push(&mut self, key: Key)
        requires { length self.old < most_keys }
        ensures { self.new ≡ self.old ++ key ∷ [] }
    {
        self.keys.push(key);
    }

    /// The same keys.
    pub fn copied(&self) -> Keys
        ensures { result ≡ self.now }
    {
        let mut keys = ArrayVec::new();
        for key in self.keys.as_slice() {
            keys.push(key.copied());
        }
        Keys { keys }
    }
}

#[cfg(test)]
mod tests {
    use super::*;

    #[test]
    fn three_keys_are_the_most(rt: HostRuntime) {
        let mut keys = Keys::one(Key::Int(1));
        keys.push(Key::Ref(Uid::new(7, 2)));
        assert!(rt; !keys.is_full());
        keys.push(Key::Int(3));
        assert!(rt; keys.is_full());
        let wanted = [Key::Int(1), Key::Ref(Uid::new(7, 2)), Key::Int(3)];
        assert!(rt; keys.as_slice() == wanted.as_slice());
    }
}
