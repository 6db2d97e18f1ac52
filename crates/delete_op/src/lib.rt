//! Deletes: what a delete asks of replicas, and what it answers.
//!
//! # Values
//!
//! A `DelOp` is an `Operation` whose plan is `delete_plan` of an id, a moment in milliseconds, the number of replicas and how
//! many of them are needed. A blob is one piece.
//!
//! # Public calls
//!
//! `DelOp::new`, and the calls of `Operation`.
//!
//! # Proved
//!
//! For every list of calls (`plan`, `stands` of `new`, and the clauses of `Operation`):
//! - all replicas are asked at once, in replica order and once, to delete the id at the moment of the delete;
//! - the delete is ok once as many acknowledged it as are needed, and unavailable, with its failures in replica order, once too
//!   few are left for that;
//! - a cancel ends it where it is pending, and else does nothing; the outcome is given once.
//!
//! # Tested
//!
//! In `front_end`, by whole runs: deletes that are acknowledged, and one that lacks a replica.
//!
//! # Not proved
//!
//! That want of memory is answered only where an allocation is refused. A delete that is unavailable may still have been
//! carried out at some replicas.
#![tactic(auto)]

mod delete;

pub use delete::DelOp;
