//! What happens on the network, and what a router is told of it.

use crate::order::{Order, Told};
use blob_id::{Bytes, Listed};
use cell_model::Reply;

/// A list of numbers.
pub type Numbers = Listed<u64>;

/// Steps. In contracts the newest comes first.
pub type Steps = Listed<Step>;

/// One step of the network and its replicas. Requests are numbered by `Send`, replies by `Exec` and `Torn` together,
/// both from 0.
#[derive(Debug, Drop)]
pub enum Step {
    /// A request goes out, from the router (0) or from a node that pulls.
    Send {
        from: u32,
        node: u32,
        frame: Bytes,
    },
    /// A request couldn't be sent, since its node is stopped.
    Refused {
        node: u32,
        frame: Bytes,
    },
    /// A replica carried a request out.
    Exec {
        send: u32,
        reply: Reply,
    },
    /// A replica's device failed over a request, which may have taken effect or not.
    Torn {
        send: u32,
    },
    /// A reply comes to who asked.
    Hand {
        reply: u32,
    },
    Now {
        ms: u64,
    },
    /// The connection to a node breaks.
    Cut {
        node: u32,
    },
    Stop {
        node: u32,
    },
    /// A node runs again. What was in doubt took effect in these partitions, and in no other.
    Restart {
        node: u32,
        done: Numbers,
    },
    /// A node joins what a reply to it carries at a place to its own cell, or leaves it in doubt.
    Merge {
        node: u32,
        partition: u32,
        reply: u32,
        cell: u32,
        torn: bool,
    },
    Compact {
        node: u32,
        partition: u32,
        reply: Reply,
    },
}

/// What the network gives to the router.
#[derive(Debug, Drop)]
pub enum Event {
    Reply { node: u32, frame: Bytes },
    Broken { node: u32 },
    Now { ms: u64 },
    Quiet,
}

/// What a call on a network was.
#[derive(Debug, Drop)]
pub enum Did {
    /// It was opened.
    Opened,
    /// A request went to a node, or couldn't be sent.
    Requested { node: u32, frame: Bytes },
    /// An order was answered so.
    Administered { order: Order, told: Told },
    /// An event was given.
    Delivered { event: Event },
}

/// One call on a network: what it was, and its steps, the newest first.
#[derive(Debug, Drop)]
pub struct Called {
    pub did: Did,
    pub steps: Steps,
}
