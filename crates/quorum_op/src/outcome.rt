//! How an operation ends.

use crate::cause::Cause;
use blob_id::{BlobId, Bytes, Listed};

/// Replicas that failed, or the nodes that they stand on, each with its cause, in replica order.
pub type Failures = Listed<(u32, Cause)>;

/// How an operation ended.
#[derive(Debug, Drop)]
pub enum Outcome {
    /// A put stored its blob under this id.
    Put(BlobId),
    /// A delete removed its id.
    Deleted2,
    /// A get gives these bytes.
    Bytes(Bytes),
    /// An info gives the size and the properties of a blob; `created` in ms.
    Info {
        size: u64,
        created: u64,
        ctype: Bytes,
        meta: Bytes,
    },
    /// What was read is gone.
    Deleted,
    NotFound,
    /// The failed replicas of this id leave no quorum.
    Unavailable {
        id: BlobId,
        failed: Failures,
    },
    Cancelled,
    /// The bytes to put are so many, which is too many.
    TooLarge(u64),
    /// The range exceeds the size, which is this one.
    BadRange(u64),
    /// The id is of a chunk.
    NotWhole,
    /// There is no such file.
    NoFile,
    /// The tag stands for no id.
    NoId,
    /// There is no such partition.
    NoPartition,
    /// This chunk is not found.
    Missing(BlobId),
    /// This piece isn't what it has to be.
    Corrupt(BlobId),
    Memory,
}
