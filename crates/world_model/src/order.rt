//! What a session orders of the network itself, and what it is told.

use blob_id::BlobId;

/// An order to the network. Nodes are numbered from 1, partitions from 0.
#[derive(Clone, Copy, Debug, PartialEq, Eq)]
pub enum Order {
    /// A node stops: it answers nothing, and what is in flight to and from it is lost.
    Stop(u32),
    /// A stopped node runs again.
    Restart(u32),
    /// The first node asks the second one for what it hasn't seen of a partition.
    Pull(u32, u32, u32),
    /// A node compacts its log of a partition.
    Compact(u32, u32),
    /// Whether two nodes hold the same of a partition: the partition, and the two nodes.
    Level(u32, u32, u32),
}

/// Why an exchange between two nodes, a compaction or a restart came to nothing: what the node's own replica answered, what
/// the other node answered, or an answer that is none.
#[derive(Clone, Copy, Debug, PartialEq, Eq)]
pub enum PullCause {
    Full,
    Fault,
    Down,
    Memory,
    PeerFault,
    PeerDown,
    PeerMemory,
    Stray,
}

/// A disk that isn't opened: it is the disk of this node and this partition.
#[derive(Clone, Copy, Debug, PartialEq, Eq)]
pub struct Refusal {
    pub node: u32,
    pub partition: u32,
    pub what: What,
}

/// What is wrong with a disk.
#[derive(Clone, Copy, Debug, PartialEq, Eq)]
pub enum What {
    /// The bytes at this place are no part of a log.
    Damaged(u64),
    /// It was made for a log of other numbers.
    OtherShape,
    /// It has so many bytes.
    OtherSize(u64),
}

/// What came of an order.
#[derive(Clone, Copy, Debug, PartialEq, Eq)]
pub enum Told {
    Done,
    /// The node was in that state.
    Already,
    /// A node that the order names is stopped.
    Stopped,
    /// So many cells changed.
    Pulled(u32),
    /// The other node answered nothing in time.
    Lost,
    Stuck(PullCause),
    /// The other node named this id, and holds nothing under it.
    Vanished(BlobId),
    /// So many bytes are free again.
    Reclaimed(u64),
    /// Nothing was to be done.
    Nothing,
    Level(bool),
    Refused(Refusal),
}
