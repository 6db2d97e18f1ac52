//! The history of a session: what was asked, and how it ended.

use crate::order::{Order, Told};
use blob_id::{BlobId, Bytes, Listed};
use quorum_op::Outcome;

/// The marks of a session, in order.
pub type History = Listed<HistoryMark>;

/// What an operation is begun with. A `file` is empty where none is named, `ttl` is 0 where none is, and an id is none where
/// it was named by a tag that stands for no id.
#[derive(Debug, Drop)]
pub enum Begun {
    Put {
        file: Bytes,
        body: Bytes,
        ttl: u64,
        ctype: Bytes,
        meta: Bytes,
    },
    /// A range is where it begins, and how many bytes it has.
    Get {
        id: Option<BlobId>,
        range: Option<(u64, u64)>,
        file: Bytes,
    },
    Info {
        id: Option<BlobId>,
    },
    Delete {
        id: Option<BlobId>,
    },
}

/// A line of the script or the transcript, as what it says. The first number is the operation's.
#[derive(Debug, Drop)]
pub enum HistoryMark {
    Begin(u32, Begun),
    Drew(u32, BlobId),
    End(u32, Outcome),
    Cancel(u32),
    /// A wait for one operation, or for all.
    Wait(Option<u32>),
    Level {
        partition: u32,
        a: u32,
        b: u32,
        yes: bool,
    },
    /// A node is drained from here on, or no longer.
    Drain {
        node: u32,
        on: bool,
    },
    /// The network was ordered this, and told that.
    Ordered {
        order: Order,
        told: Told,
    },
}
