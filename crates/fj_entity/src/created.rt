// An id that is created and not dead.
use cloud_base::{Keys, Sequence, Uid};

/// An id that is created and not dead, with what it was created with.
#[derive(Drop, PartialEq, Eq)]
pub struct Created {
    pub id: Uid,
    pub entity: u16,
    pub keys: Keys,
}

pub type CreatedList = Sequence<Created>;
