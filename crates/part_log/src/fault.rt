//! Why a log answers otherwise than it was asked to.

ghost use Rattle.std.specs.Prelude.{◌≡◌, ◌≢◌, ◌⊎◌};
ghost use Rattle.gate_slots.specs.declared.fault.SlotFault.TheVariants.{Failed as SlotFailed, TooLong, Memory as SlotMemory};
ghost use Rattle.part_log.specs.declared.fault.ReadFault.TheVariants.{Failed as ReadFailed, Memory as ReadMemory};
ghost use Rattle.part_log.specs.declared.fault.LogFault.TheVariants.{Failed as LogFailed, Memory as LogMemory};
ghost use Rattle.part_log.specs.declared.fault.OpenFault.TheVariants.{Failed as OpenFailed, Memory as OpenMemory};

use blob_id::Memory;
use gate_slots::SlotFault;
use log_manifest::LogSettings;
use outside::Failed;
use thiserror::Error;

/// Why bytes weren't read.
#[derive(Clone, Copy, Debug, PartialEq, Eq)]
pub(crate) enum ReadFault {
    /// The disk failed.
    Failed,
    Memory,
}

impl From<Failed> for ReadFault {
    ghost from_gives = { λ _ fault. fault ≡ ReadFailed };

    fn from(_: Failed) -> Self {
        ReadFault::Failed
    }
}

impl From<Memory> for ReadFault {
    ghost from_gives = { λ _ fault. fault ≡ ReadMemory };

    fn from(_: Memory) -> Self {
        ReadFault::Memory
    }
}

/// Why a call of a log wasn't carried out.
#[derive(Clone, Copy, Debug, PartialEq, Eq, Error)]
pub enum LogFault {
    /// No room: the record is longer than a segment, or no segment is free but the one kept for compaction, or the log
    /// is worn.
    #[error("the log is full")]
    Full,
    /// The disk failed. From then on the log is down.
    #[error("the disk failed")]
    Failed,
    /// The disk failed in an earlier call since the opening.
    #[error("the log is down")]
    Down,
    #[error("out of memory")]
    Memory,
}

impl From<Failed> for LogFault {
    ghost from_gives = { λ _ fault. fault ≡ LogFailed };

    fn from(_: Failed) -> Self {
        LogFault::Failed
    }
}

impl From<Memory> for LogFault {
    ghost from_gives = { λ _ fault. fault ≡ LogMemory };

    fn from(_: Memory) -> Self {
        LogFault::Memory
    }
}

/// Why a disk wasn't opened as a log.
#[derive(Clone, Copy, Debug, PartialEq, Eq, Error)]
pub enum OpenFault {
    #[error("the disk failed")]
    Failed,
    /// At this place stands the open gate of a manifest slot that holds no manifest, or an open gate with no record
    /// behind it or with one whose lsn doesn't rise.
    #[error("damaged at place {0}")]
    Damaged(u64),
    /// The manifest names these settings.
    #[error("the disk has a log of other settings")]
    OtherShape(LogSettings),
    #[error("out of memory")]
    Memory,
}

impl From<Failed> for OpenFault {
    ghost from_gives = { λ _ fault. fault ≡ OpenFailed };

    fn from(_: Failed) -> Self {
        OpenFault::Failed
    }
}

impl From<Memory> for OpenFault {
    ghost from_gives = { λ _ fault. fault ≡ OpenMemory };

    fn from(_: Memory) -> Self {
        OpenFault::Memory
    }
}

impl From<ReadFault> for OpenFault {
    ghost from_gives = { λ fault given. ((fault ≡ ReadFailed) × (given ≡ OpenFailed)) ⊎ ((fault ≡ ReadMemory) × (given ≡ OpenMemory)) };

    fn from(fault: ReadFault) -> Self {
        match fault {
            ReadFault::Failed => OpenFault::Failed,
            ReadFault::Memory => OpenFault::Memory,
        }
    }
}

/// A log that no longer reads as it did is a failure of the disk.
impl From<OpenFault> for ReadFault {
    ghost from_gives = { λ fault given. ((fault ≢ OpenMemory) × (given ≡ ReadFailed)) ⊎ ((fault ≡ OpenMemory) × (given ≡ ReadMemory)) };

    fn from(fault: OpenFault) -> Self {
        match fault {
            OpenFault::Failed | OpenFault::Damaged(_) | OpenFault::OtherShape(_) => {
                ReadFault::Failed
            }
            OpenFault::Memory => ReadFault::Memory,
        }
    }
}

impl From<SlotFault> for OpenFault {
    ghost from_gives = { λ fault given. ((fault ≡ SlotFailed) × (given ≡ OpenFailed)) ⊎ (((fault ≡ TooLong) ⊎ (fault ≡ SlotMemory)) × (given ≡ OpenMemory)) };

    fn from(fault: SlotFault) -> Self {
        match fault {
            SlotFault::Failed => OpenFault::Failed,
            SlotFault::TooLong | SlotFault::Memory => OpenFault::Memory,
        }
    }
}
