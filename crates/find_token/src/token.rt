//! A token.

/// Which records of a replica's log a peer has seen.
#[derive(Clone, Copy, Debug, PartialEq, Eq)]
pub enum FindToken {
    /// None.
    Start,
    /// Those below this lsn.
    Journal(u64),
}
