// What ran since the last push.
ghost use Rattle.std.specs.Prelude.{◌≡◌, ◌≤◌, [], OnOk};
ghost use Rattle.session_core.specs.Runnings.{spare_at};
ghost use Rattle.session_core.specs.Sessions.{noted_before, noted_rest};

use crate::events::Events;
use cloud_base::{Event, EventList, Memory};
use std::alloc::Global;
use std::mem;

/// What ran since the last push, before and after the pull of its reply.
#[derive(Drop)]
pub struct Running {
    pub before: Events,
    pub rest: Events,
}

impl Running {
    pub fn new(alloc: Global) -> Running
        ensures before { result.before.list ≡ [] }
        ensures rest { result.rest.list ≡ [] }
    {
        Running {
            before: Events::new(alloc),
            rest: Events::new(alloc),
        }
    }

    /// Makes room for one event, which comes before the next pull if that waits for a reply.
    pub fn reserve(&mut self, waits: bool) -> Result<(), Memory>
        ensures room { OnOk result (1 ≤ spare_at waits self.new) }
        ensures before { self.new.before.list ≡ self.old.before.list }
        ensures rest { self.new.rest.list ≡ self.old.rest.list }
    {
        if waits {
            self.before.reserve()
        } else {
            self.rest.reserve()
        }
    }

    /// Puts an event where there is room for it. It takes no memory.
    pub fn note(&mut self, waits: bool, event: Event)
        requires { 1 ≤ spare_at waits self.old }
        ensures before { self.new.before.list ≡ noted_before waits self.old.before.list event }
        ensures rest { self.new.rest.list ≡ noted_rest waits self.old.rest.list event }
    {
        if waits {
            self.before.note(event);
        } else {
            self.rest.note(event);
        }
    }

    /// All of it, after which nothing ran. It takes no memory.
    pub fn take_all(&mut self, alloc: Global) -> (EventList, EventList)
        ensures before { result.0 ≡ self.old.before.list }
        ensures rest { result.1 ≡ self.old.rest.list }
        ensures no_before { self.new.before.list ≡ [] }
        ensures no_rest { self.new.rest.list ≡ [] }
    {
        let Running { before, rest } = mem::replace(self, Running::new(alloc));
        (before.into_list(), rest.into_list())
    }
}
