//! The tally of the replies of a blob's replicas, what they come to, and how an operation ends.
//!
//! # Values
//!
//! A `Tally` of at most nine replicas stands for a list of notes, newest first: marks of replies (`Yes`, `State`, `Absent`,
//! `Gone`) and failures with their causes. A replica stands where its first note put it, except that `State` yields to `Yes`,
//! `Gone` and failures, so that a repeated reply counts once.
//!
//! # Public calls
//!
//! `Tally::new` for a put, a get or a delete with the number of replicas and of those that are needed; `note` and `fail` add a
//! note; `verdict`, `standing`, `found` and `failures` read it. `Verdict` is what a tally comes to, `Outcome` how an operation
//! ends, `Cause` why a request failed.
//!
//! # Proved
//!
//! For every list of notes, in any order and however often repeated:
//! - `verdict` is that of the list: a put or delete is `Ok` once as many as are needed stand at `Yes`; a get is `Gone` as soon
//!   as one replica is, else `Unavailable` where the failures leave fewer than are needed; `Ok` or `NotFound` once as many as
//!   are needed were found, but `Pending` as long as the blob is only known to be held (`State`);
//! - `standing` is where the list puts a replica, and `failures` lists the failed replicas in their order, each with its cause.
//!
//! A tally takes no memory; only `failures` does.
//!
//! # Tested
//!
//! Three gets with two of three: a repeated reply, two failures with their list, and one replica that is gone.
//!
//! # Not proved
//!
//! That `failures` answers `Memory` only where an allocation is refused.
#![tactic(auto)]

mod cause;
mod outcome;
mod tally;

pub use cause::{Cause, Finding, Mark, TallyKind, Verdict};
pub use outcome::{Failures, Outcome};
pub use tally::Tally;

#[cfg(test)]
mod tests;
