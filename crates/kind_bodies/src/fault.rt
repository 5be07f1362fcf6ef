// Why a body is refused.
ghost use Rattle.std.specs.Prelude.{◌≡◌};
ghost use Rattle.kind_bodies.specs.declared.fault.KindFault.TheVariants as fault;

use cloud_base::Memory;
use std::alloc::AllocError;
use thiserror::Error;

/// Why a body is refused.
#[derive(Debug, Drop, Error)]
pub enum KindFault {
    /// The lowest rule that fails at the first item at which one does, and the item's line.
    #[error("rule {rule} fails in line {line}")]
    Rule { rule: u8, line: u32 },
    /// Want of memory.
    #[error("out of memory")]
    Memory,
}

impl From<Memory> for KindFault {
    ghost from_gives = { λ _ e. e ≡ fault.Memory };

    fn from(_: Memory) -> KindFault {
        KindFault::Memory
    }
}

impl From<AllocError> for KindFault {
    ghost from_gives = { λ _ e. e ≡ fault.Memory };

    fn from(_: AllocError) -> KindFault {
        KindFault::Memory
    }
}
