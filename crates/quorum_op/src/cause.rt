//! What is noted of replicas, and what the notes come to.

/// Why a request failed.
#[derive(Clone, Copy, Debug, PartialEq, Eq)]
pub enum Cause {
    /// 1,000 ms went by.
    Timeout,
    /// 65,536 events went by.
    Patience,
    /// It couldn't be sent, or the connection to its node broke.
    Broken,
    Full,
    /// Another blob is held under the id.
    Clash,
    Gone,
    Fault,
    Down,
    Memory,
    /// A reply that the request can't have.
    Stray,
    /// Its node is drained.
    Cancelled,
}

/// What a usable reply says of a replica.
#[derive(Clone, Copy, Debug, PartialEq, Eq)]
pub enum Mark {
    /// It did what it was asked, and sent the blob where it was asked for it.
    Yes,
    /// It holds a blob, which it did not send.
    State,
    Absent,
    Gone,
}

/// What is noted of a replica: a mark, or a failure with its cause.
#[derive(Clone, Copy, Debug, PartialEq, Eq)]
pub enum Finding {
    Yes,
    State,
    Absent,
    Gone,
    Failed(Cause),
}

/// What the replicas are asked for.
#[derive(Clone, Copy, Debug, PartialEq, Eq)]
pub enum TallyKind {
    Put,
    Get,
    Delete,
}

/// What the notes on the replicas come to.
#[derive(Clone, Copy, Debug, PartialEq, Eq)]
pub enum Verdict {
    Pending,
    Ok,
    Gone,
    NotFound,
    Unavailable,
}
