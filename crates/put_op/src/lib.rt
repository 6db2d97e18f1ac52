//! Puts: what a put asks of replicas, and what it answers.
//!
//! # Values
//!
//! A `PutOp` is an `Operation` whose plan is `put_plan` of its task: the number of bytes, the replicas, how many of them are
//! needed, the moment of creation, the type and the metadata. A blob is one piece with one attempt.
//!
//! # Public calls
//!
//! `PutOp::new`; `wants` names the piece that an id has to be drawn for, and `begin_piece` takes the id and the bytes; the
//! calls of `Operation`.
//!
//! # Proved
//!
//! For every list of calls (`plan`, `stands` of `new`, and the clauses of `Operation`):
//! - the whole blob is wanted until an id is drawn for it, or the put is over (`wants`);
//! - then all replicas are asked at once, in replica order and once, to store the blob; each frame has the whole blob;
//! - the put is ok with its id once as many replicas stored it as are needed, and unavailable, with its failures in replica
//!   order, once too few are left;
//! - where it ends otherwise than ok after an id was drawn, the id is given up: `sends` adds a delete of it at moment 0 for
//!   each replica, once, also behind the outcome, and where there is no memory for them at a later call. A stored blob is never
//!   given up.
//!
//! # Tested
//!
//! In `front_end`, by whole runs: puts that are stored, that time out, whose connection breaks, that find no room, and one
//! whose id is deleted at the replicas behind its end.
//!
//! # Not proved
//!
//! That want of memory is answered only where an allocation is refused. Whether a replica carries out the deletes of what was
//! given up: a request may be lost.
#![tactic(auto)]

mod drawn;
mod put;
mod spelling;

pub use drawn::Want;
pub use put::PutOp;
