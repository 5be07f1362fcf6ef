// What a living id was created with.
ghost use Rattle.std.specs.Prelude.{◌≡◌};

use crate::created::Created;
use cloud_base::{Keys, Uid};

/// What a living id was created with.
#[derive(Drop)]
pub(crate) struct Birth {
    pub(crate) entity: u16,
    pub(crate) keys: Keys,
}

impl Birth {
    /// The id that was created so.
    pub(crate) fn created(&self, id: Uid) -> Created
        ensures { result ≡ record { id = id; entity = self.now.entity; keys = self.now.keys } }
    {
        Created {
            id,
            entity: self.entity,
            keys: self.keys.copied(),
        }
    }
}
