//! Why a line spells no command.

ghost use Rattle.std.specs.Prelude.{◌≡◌};
ghost use Rattle.session_text.specs.declared.fault.LineFault.TheVariants.{Memory as NoMemory};

use blob_id::Memory;
use std::alloc::AllocError;
use thiserror::Error;

/// What has to stand at a place of a line.
#[derive(Clone, Copy, Debug, PartialEq, Eq)]
pub enum Wanted {
    /// The name of a command.
    CommandName,
    /// A tag that no operation line before has.
    NewTag,
    /// The tag of an operation line before.
    UsedTag,
    /// `hex` or `file`.
    SourceForm,
    /// Bytes, as hexadecimal digits or `-`.
    Digits,
    /// At most 1,024 bytes, as hexadecimal digits or `-`.
    Metadata,
    /// The name of a file.
    FileName,
    /// The type of a blob.
    BlobType,
    /// An id of 40 digits, or `$` and the tag of a put line before.
    Id,
    /// A number of 64 bits.
    Number,
    /// The number of a node of the shape.
    Node,
    /// The number of a partition of the shape.
    Partition,
    /// The last number of nodes and a partition. The nodes differ and hold the partition.
    Holders,
    /// Nothing: the line has more words than its form.
    End,
}

/// Why a line spells no command: the first of these that fits.
#[derive(Clone, Copy, Debug, PartialEq, Eq, Error)]
pub enum LineFault {
    /// It has more than 1,048,576 bytes.
    #[error("the line is too long")]
    TooLong,
    /// The first word that isn't what has to stand at its place, or that isn't there. Places count from 0.
    #[error("the word at place {0} isn't what has to stand there")]
    Word(usize, Wanted),
    /// An allocation was refused, so that nothing is known of the line.
    #[error("out of memory")]
    Memory,
}

impl From<Memory> for LineFault {
    ghost from_gives = { λ _ fault. fault ≡ NoMemory };

    fn from(_refused: Memory) -> LineFault {
        LineFault::Memory
    }
}

impl From<AllocError> for LineFault {
    ghost from_gives = { λ _ fault. fault ≡ NoMemory };

    fn from(_refused: AllocError) -> LineFault {
        LineFault::Memory
    }
}
