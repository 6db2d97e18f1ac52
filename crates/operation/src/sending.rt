//! The requests that an operation wants to be sent, and what it answers.

use blob_id::BlobId;
use quorum_op::Outcome;

/// What a request is for.
#[derive(Clone, Copy, Debug, PartialEq, Eq)]
pub enum Purpose {
    /// An attempt at a part of the blob: the chunk at a place, or the blob that has its id.
    Part { chunk: Option<u32>, attempt: u32 },
    /// The removal of an id that a put gives up.
    GivenUp,
}

/// What a request asks of a replica. The blob of a put stays with its operation.
#[derive(Clone, Copy, Debug, PartialEq, Eq)]
pub enum Errand {
    Put(BlobId),
    Get(BlobId),
    /// A delete at a moment, in ms.
    Delete(BlobId, u64),
}

/// A request to a replica. Those of an operation are numbered from 1.
#[derive(Clone, Copy, Debug, PartialEq, Eq)]
pub struct Sending {
    pub request: u32,
    pub replica: u32,
    pub purpose: Purpose,
    pub errand: Errand,
}

/// What an operation has come to.
#[derive(Debug, Drop)]
pub enum Poll {
    Pending,
    Done(Outcome),
}
