// What a run left.
ghost use Rattle.std.specs.Prelude.{◌↔◌, ◌<◌, IsTrue};
ghost use Rattle.std.specs.List.{AllByRecursion};
ghost use Rattle.cloud_base.specs.declared.batch.Batch.{Batch};

use crate::pen::MOST_CLIENTS;
use cloud_base::{Batch, BatchList, Sequence, Tail};
use revision_diagram::EndList;

// So many batches are too many.
const TOO_MANY_BATCHES: usize = 1 << 30;

/// What of each client the server's record need not have, by number.
pub type TailList = Sequence<Tail>;

/// The record of a run: the server's batches in the order in which they were joined, and of each
/// client, by number, its tail and its end.
#[derive(Drop)]
pub struct Record {
    pub batches: BatchList,
    pub tails: TailList,
    pub ends: EndList,
}

// Whether each batch is of one of so many clients.
fn are_of_clients(batches: &[Batch], clients: usize) -> bool
    ensures { IsTrue result ↔ AllByRecursion (λ (b : Batch). b.client < clients) batches.now }
{
    batches
        .iter()
        .all(|batch| usize::from(batch.client) < clients)
}

impl Record {
    ghost use Rattle.diagram_text.specs.Drawable.{IsDrawable};

    /// Whether its steps can be drawn: it has at most 8 clients and fewer than 2^30 batches, and
    /// each batch is of one of the clients. So it is of each run of a program.
    pub fn is_drawable(&self) -> bool
        ensures { IsTrue result ↔ IsDrawable self.now }
    {
        let clients = self.tails.len();
        clients <= MOST_CLIENTS
            && self.batches.len() < TOO_MANY_BATCHES
            && are_of_clients(self.batches.as_slice(), clients)
    }
}
