//! What a replica tells a peer of the records that the peer hasn't seen.

use crate::token::FindToken;
use blob_id::{BlobId, Listed};

/// What a page says of one record.
#[derive(Clone, Copy, Debug, PartialEq, Eq)]
pub struct Entry {
    pub id: BlobId,
    /// A delete.
    pub gone: bool,
}

/// A list of entries.
pub type Entries = Listed<Entry>;

/// A part of what a peer hasn't seen.
#[derive(Debug, Drop)]
pub struct Page {
    pub entries: Entries,
    /// The token of a peer that has seen the entries too.
    pub next: FindToken,
}
