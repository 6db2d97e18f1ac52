//! Gets: what a get asks replicas for, and what it answers.
//!
//! # Values
//!
//! A `GetOp` is an `Operation` whose plan is `get_plan` of an id, the number of replicas and how many of them are needed. A
//! blob is one piece.
//!
//! # Public calls
//!
//! `GetOp::new`, and the calls of `Operation`.
//!
//! # Proved
//!
//! For every list of calls (`plan`, `stands` of `new`, and the clauses of `Operation`):
//! - as many replicas are asked as are needed, in the order of asking, and the next one behind each failure;
//! - the get is ok with the bytes of the first reply that brought them, once as many replicas as are needed were found, and one
//!   of them holds the blob;
//! - it is deleted as soon as one replica says so; not found where as many as are needed have nothing; unavailable, with its
//!   failures in replica order, once too few are left;
//! - a cancel ends it where it is pending, and else does nothing; the outcome is given once, and the bytes are moved out;
//! - a request is spelled as a get of the id, for the partition of the id.
//!
//! # Tested
//!
//! In `front_end`, by whole runs: gets that are ok, not found, deleted, and unavailable.
//!
//! # Not proved
//!
//! That want of memory is answered only where an allocation is refused.
#![tactic(auto)]

mod get;

pub use get::GetOp;
