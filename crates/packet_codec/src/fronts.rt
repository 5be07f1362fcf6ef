// The tokens that travel with a packet.
ghost use Rattle.std.specs.Prelude.{◌≡◌, IfOk};

use cloud_base::{Batch, Memory};
use front_table::Front;

/// A front of the batches that the server has joined, and one of a client's batches.
#[derive(Drop)]
pub struct Fronts {
    pub past: Front<Batch>,
    pub own: Front<Batch>,
}

impl Fronts {
    /// Second fronts of the same lists. These stay as they were, also where memory runs out.
    pub fn copy(&mut self) -> Result<Fronts, Memory>
        ensures whole { IfOk result (λ copy. copy ≡ self.old) }
        ensures same { self.new ≡ self.old }
    {
        let past = self.past.copy()?;
        let own = self.own.copy()?;
        Ok(Fronts { past, own })
    }
}
