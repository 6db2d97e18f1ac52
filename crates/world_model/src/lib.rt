//! The model of network, replicas and session: what may happen, what a record of it shows, and what is safe.
//!
//! # Values
//!
//! A `Shape` is the size of a cluster and its quorums. A `Step` is what the network does; a `Move` is what a schedule picks; an
//! `Order` is what a session asks of a node. A record is a list, newest first, of the marks of a session woven with the calls
//! of the network.
//!
//! # Public calls
//!
//! `Fabric` is the trait of a network, `Moves` that of a schedule: both are stated over the definitions of this crate. What the
//! calls on a network make of it is one record (`Advances`), with what its kind says of it in it (`advances`).
//! `ListMoves` gives listed moves and then those of the plain schedule, `SeedMoves` those of a seed. `node_of` says on which
//! node a replica stands. `runs_are_safe` is the law.
//!
//! # Proved
//!
//! - Where the network ran by its rules from sound cells, the router kept its own, and the ids that it drew were new, the
//!   record is safe (`runs_are_safe`): a get that ends ok gives what was put; what was deleted isn't got again where the
//!   quorums overlap; a get behind a put's ok doesn't end `notfound` where they do; `deleted` has a reason; each end follows
//!   from the notes; what was acknowledged is kept by enough replicas.
//! - `ListMoves` and `SeedMoves` pick exactly the move that is defined, and tell the moves given, each with what it was picked
//!   from, and the seeds begun with (`pick`, `start`).
//!
//! # Tested
//!
//! In `front_end`: runs under listed moves. `tests/repository.sh`: a hundred seeds.
//!
//! # Not proved
//!
//! Delivery and progress. Drains, merges, chunks and cancels are in the definitions and in the law, and no command makes them
//! yet.
#![tactic(auto)]

mod asking;
mod fabric;
mod history;
mod laws;
mod moves;
mod offers;
mod order;
mod schedules;
mod seeds;
mod shape;
mod step;

pub use asking::Asking;
pub use fabric::{Fabric, SendFault, StartFault};
pub use history::{Begun, History, HistoryMark};
pub use laws::runs_are_safe;
pub use moves::{Move, Moves};
pub use offers::{GivenMove, Offer};
pub use order::{Order, PullCause, Refusal, Told, What};
pub use schedules::{ListMoves, SeedMoves};
pub use seeds::Seeds;
pub use shape::{LogNumbers, Shape, node_of};
pub use step::{Called, Did, Event, Numbers, Step, Steps};
