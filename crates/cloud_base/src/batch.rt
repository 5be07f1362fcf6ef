// What a client did between its meetings with the server.
ghost use Rattle.std.specs.Prelude.{◌≡◌, IfOk};

use crate::memory::Memory;
use crate::sequence::Sequence;
use crate::update::{EventList, copy_events};
use std::alloc::Global;

/// What one push carries.
///
/// `before` is what ran between the last push and the pull of its reply. It is empty or ends with
/// the mark at which the pull was made, and in round 1 it is empty. `rest` is what ran from that
/// pull to this push, and ends with the mark at which the push was made, if it isn't empty. `base`
/// is how many batches the server's record had when it made that reply.
#[derive(Drop, PartialEq, Eq)]
pub struct Batch {
    pub client: u8,
    pub round: u64,
    pub base: u64,
    pub before: EventList,
    pub rest: EventList,
}

impl Batch {
    /// The same batch.
    pub fn copy(&self, alloc: Global) -> Result<Batch, Memory>
        ensures { IfOk result (λ batch. batch ≡ self.now) }
    {
        Ok(Batch {
            client: self.client,
            round: self.round,
            base: self.base,
            before: copy_events(alloc, &self.before)?,
            rest: copy_events(alloc, &self.rest)?,
        })
    }
}

pub type BatchList = Sequence<Batch>;

/// What ran since the last push. `base` is `None` where its reply isn't pulled, and then `rest` is
/// empty. A client that never pushed has an empty `before`.
#[derive(Drop, PartialEq, Eq)]
pub struct Stretch {
    pub base: Option<u64>,
    pub before: EventList,
    pub rest: EventList,
}

/// What of a client the server's record need not have. `sent` is the push that is outstanding.
#[derive(Drop, PartialEq, Eq)]
pub struct Tail {
    pub sent: Option<Batch>,
    pub now: Stretch,
}

#[cfg(test)]
mod tests {
    use super::*;
    use crate::update::Event;
    use std::test::Fail;

    #[test]
    fn a_copied_batch_is_the_same(rt: HostRuntime) -> Result<(), Fail> {
        let mut before = Sequence::new(rt.alloc());
        before.push(Event::Yield)?;
        let rest = Sequence::new(rt.alloc());
        let batch = Batch {
            client: 7,
            round: 2,
            base: 5,
            before,
            rest,
        };
        let copy = batch.copy(rt.alloc())?;
        assert!(rt; copy == batch);
        assert_eq!(rt; copy.before.len(), 1);
        Ok(())
    }
}
