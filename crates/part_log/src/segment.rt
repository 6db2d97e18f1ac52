//! What is kept of a live segment, and what an opening hands out of each record.

use msg_format::Head;

/// A live segment.
#[derive(Clone, Copy, Debug, PartialEq, Eq)]
pub struct SegmentInfo {
    /// Its number, below the number of segments.
    pub segment: u16,
    pub generation: u64,
    /// How many of its bytes hold records.
    pub used: u32,
    /// The lsn of its first record; where it has none, that of the next record of the log, or the end lsn.
    pub first: u64,
}

/// A record that stands in a log.
#[derive(Clone, Copy, Debug, PartialEq, Eq)]
pub struct Found {
    /// The place of its gate on the disk.
    pub place: u64,
    pub head: Head,
}
