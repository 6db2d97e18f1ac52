//! The network of all nodes in one process, over bays of disks and a schedule that are handed in.
//!
//! # Values
//!
//! `MemFabric` is a `Fabric`. It tells each answered call (`told`), newest first, as a ghost, so that neither memory nor time
//! grows with what is over. `RunsFrom` says that these calls are a run of the model from what the disks at home stood for to
//! what the replicas hold, `PacksFrom` the same of the layouts of the logs. Both are said as long as nothing is in doubt: no
//! request was told in which a disk failed.
//!
//! # Public calls
//!
//! `MemFabric::new` takes the bays and the schedule, `give_back` hands both back; the calls of `Fabric`: `open`, `send`,
//! `next`, `admin`, `queued` and `close`. `what_is_told_was_played` says what a caller knows at the end.
//!
//! # Proved
//!
//! - `open` opens all disks of the shape or none (`standing`, `shut`). A refusal names the first disk that isn't opened, over
//!   bays that tell (`refused`), and what the disks at home stand for stays (`stays`).
//! - `send` refuses exactly the sends to a stopped node, unless memory runs out (`refused`, `ok`).
//! - `next` gives the oldest event that waits, or else that of one move that the schedule gives (`told`, `net`). A move is
//!   made by the rule of moves (`moved`): requests and replies in flight are run, repeated, handed over or lost; a tick moves
//!   the clock; a cut loses what is in flight with a node; a stop also sends the node's disks home.
//! - A request is answered by its node's replica, `NoPartition` exactly where the node has no such replica; bytes that are no
//!   request come to nothing.
//! - `admin` stops a node or lets it run again; an order for the state that the node is in is `Already`, and none fails
//!   (`never`). A node whose disks aren't opened stays stopped.
//! - Every call keeps what was said of the run, says which moves were made, also where memory runs out, and that the bays are the
//!   same (`net`: `PlaysOver`; `run` where it opens or closes). Each refusal, each opening that failed, and nothing else, raises
//!   the count of faults (`count`).
//! - The schedule is asked with the numbers of the shape and with what is in flight, for each move anew (`moves_of`).
//! - The calls told are those of one opening, of sends, of orders, of events that waited, and of just the moves that the
//!   schedule gave (`what_is_told_was_played`).
//!
//! # Tested
//!
//! In `front_end`: whole runs under listed moves.
//!
//! # Not proved
//!
//! Why a restart is refused, and by which disk; that `Stuck(Fault)` has its cause in the node's own disks. Once a disk failed in a request, anything of any replica. That want of memory is answered
//! only where an allocation is refused or a count, of requests, replies or waiting events, reaches 2^32 - 1. No node pulls or
//! compacts yet.
#![tactic(auto)]

mod acts;
mod asking;
mod cluster;
mod fabric;
mod flight;
mod laws;
mod past;

pub use fabric::MemFabric;
pub use laws::what_is_told_was_played;
