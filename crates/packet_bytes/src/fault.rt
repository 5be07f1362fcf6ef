// Why bytes are no packet.
ghost use Rattle.std.specs.Prelude.{◌≡◌};
ghost use Rattle.packet_bytes.specs.declared.fault.ReadFault.TheVariants.{Wire, Memory as NoMemory};

use cloud_base::Memory;
use thiserror::Error;

/// The first fault of bytes that are no packet. Places are in bytes, from 0.
#[derive(Clone, Copy, Debug, PartialEq, Eq, Error)]
pub enum WireFault {
    /// The input ends inside or before a field. The place is its length.
    #[error("the bytes end at {at}, inside a packet")]
    Short { at: usize },
    /// A byte that tells what follows is none of those there are.
    #[error("the byte at {at} is no tag of a packet")]
    BadTag { at: usize },
    /// An element isn't above the one before it. The place is that of its first byte.
    #[error("the element at {at} is out of order")]
    OutOfOrder { at: usize },
    /// A field that another spelling should have, or none.
    #[error("the field at {at} isn't canonical")]
    NotCanonical { at: usize },
    /// Bytes are left behind the last list. The place is that of the first of them.
    #[error("bytes are left from {at} on")]
    Trailing { at: usize },
    /// A field that the schema doesn't know.
    #[error("the field at {at} isn't of the schema")]
    Unknown { at: usize },
}

/// Why nothing was read.
#[derive(Debug, Drop, Error)]
pub enum ReadFault {
    #[error("{0}")]
    Wire(WireFault),
    #[error("out of memory")]
    Memory,
}

impl From<WireFault> for ReadFault {
    ghost from_gives = { λ fault e. e ≡ Wire fault };

    fn from(fault: WireFault) -> ReadFault {
        ReadFault::Wire(fault)
    }
}

impl From<Memory> for ReadFault {
    ghost from_gives = { λ _ e. e ≡ NoMemory };

    fn from(_: Memory) -> ReadFault {
        ReadFault::Memory
    }
}
