// Events with room for more.
ghost use Rattle.std.specs.Prelude.{◌≡◌, ◌≤◌, ◌++◌, [], ◌∷◌, OnOk};

use cloud_base::{Event, EventList, Memory, Sequence};
use std::alloc::Global;
use std::marker::Model;

/// Events, and room for more. Contracts see the list, and for how many more there is room.
#[derive(Drop)]
pub struct Events {
    items: Vec<Event>,
}

impl Model for Events {
    ghost use Rattle.std.specs.Prelude.{◌-◌, vec_len, vec_capacity};
    ghost use Rattle.session_core.specs.Roomy.{Roomy};

    ghost Value = { Roomy };

    ghost view = { λ e. record {
      list = e.items.items;
      spare = vec_capacity e.items - vec_len e.items;
    } };
}

impl Events {
    pub fn new(alloc: Global) -> Events
        ensures { result.list ≡ [] }
    {
        Events {
            items: Vec::new(alloc),
        }
    }

    /// Makes room for one event, and leaves the list as it is.
    pub fn reserve(&mut self) -> Result<(), Memory>
        ensures room { OnOk result (1 ≤ self.new.spare) }
        ensures list { self.new.list ≡ self.old.list }
    {
        self.items.reserve(1)?;
        Ok(())
    }

    /// Puts an event at the end. It takes no memory, and nor does `into_list`.
    pub fn note(&mut self, event: Event)
        requires { 1 ≤ self.old.spare }
        ensures { self.new.list ≡ self.old.list ++ event ∷ [] }
    {
        match self.items.push(event) {
            Ok(()) => {}
            Err(_) => unreachable!(),
        }
    }

    /// All events.
    pub fn into_list(self) -> EventList
        ensures { result ≡ self.list }
    {
        let Events { items } = self;
        Sequence::from_vec(items)
    }
}
