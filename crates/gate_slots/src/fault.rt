//! What keeps a cell from being loaded or replaced.

ghost use Rattle.std.specs.Prelude.{◌≡◌};
ghost use Rattle.gate_slots.specs.declared.fault.SlotFault.TheVariants.{Failed as SlotFailed, Memory as SlotMemory};

use blob_id::Memory;
use outside::Failed;
use thiserror::Error;

#[derive(Clone, Copy, Debug, PartialEq, Eq, Error)]
pub enum SlotFault {
    /// The disk failed.
    #[error("the disk failed")]
    Failed,
    /// A cell holds at most 1,011 bytes.
    #[error("too long for a cell")]
    TooLong,
    #[error("out of memory")]
    Memory,
}

impl From<Failed> for SlotFault {
    ghost from_gives = { λ _ fault. fault ≡ SlotFailed };

    fn from(_: Failed) -> Self {
        SlotFault::Failed
    }
}

impl From<Memory> for SlotFault {
    ghost from_gives = { λ _ fault. fault ≡ SlotMemory };

    fn from(_: Memory) -> Self {
        SlotFault::Memory
    }
}
