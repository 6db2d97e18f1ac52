//! A router of puts, gets and deletes, up to sixteen at a time, over any network: it asks the replicas of a blob and counts
//! their replies.
//!
//! # Values
//!
//! A `Router` has a shape, its clock, the numbers of its events, operations and turns (events and script lines), and a table of
//! the live operations by rising number, each under way or over since a turn. `Stands` says how these stand to a record of a
//! session: the clock and the counts are the record's, each operation under way does what it was begun for, by calls that the
//! record shows, and each that became done is in the table or has its end. `Op` is an `Operation` of one of the three kinds, and
//! `Live` is one with its open requests. An operation is live until its end was given.
//!
//! # Public calls
//!
//! `Router::new`; `put`, `put_too_large`, `get` and `delete` begin an operation beside those that are live, of which there may be
//! fifteen; `finish` takes events until one is over and gives the end of the one that was over first; `order` gives the network
//! an order; `limit`, `nodes` and `partition` say what a session has to know.
//!
//! # Proved
//!
//! - Each call carries `Stands` from any record to the next (`ties`): the record goes on by the mark of the call, by what the
//!   network told, and by what operations decided. Which events are taken, and how many, `ties` leaves open.
//! - What is one operation's leaves all others as they are (`Counts`, `Beside`, `IsApart`), so each is proved by itself: a put or
//!   delete asks all replicas, a get as many as are still needed, a put stores its blob with the moment of its begin, and a
//!   delete has the moment of its own. An id of no partition, of a chunk, or none at all ends a get or delete at once, and nobody
//!   is asked.
//! - A reply is heard by the operation of its correlation alone; an event is told to each operation, by rising number.
//! - Which operations are live is said by each call (`live`): a begin adds its number, an end takes its own out (`left`), and
//!   nothing else changes them. An end is never for want of memory (`memory`). Of two that are over the one of the earlier turn
//!   ends first, and of one turn the one of the lower number (`Ends` in the record).
//! - `finish` returns: each turn takes one event and counts it, and the count is below 2^64.
//! - A put that ends otherwise than ok has asked each replica to delete its id: the request went out, or the network refused it
//!   (`DeletesWhatFailed`, in `Stands`).
//! - `order` leaves no event queued (`taken`); it is refused only where the network failed (`cause`), and a refused order leaves
//!   the router and what the network told (`failed`).
//! - What each call makes of the network is what calls of such a network make (`net`).
//!
//! # Tested
//!
//! In `front_end`, by whole runs, which have one operation at a time.
//!
//! # Not proved
//!
//! That an order is given once: `ties` also admits a body that gives further orders to the network. That want of memory is
//! answered only where an allocation is refused, or a count is full. Cancels and drains are not built.
#![tactic(auto)]

mod beginning;
mod ending;
mod live;
mod op;
mod ordering;
mod router;
mod sending;
mod taking;
mod turning;

pub use ending::Ended;
pub use live::Live;
pub use op::Op;
pub use router::{Router, Stage};
