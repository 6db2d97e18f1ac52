//! What every operation does, and the piece of a blob that an operation asks replicas for.
//!
//! # Values
//!
//! An operation stands for the list of its calls, newest first (`Operation::stands`). Its `plan` says what such a list comes
//! to: which requests are wanted, what a request's frame says, and the outcome. A `Piece` stands for the same list at one part
//! of its blob.
//!
//! # Public calls
//!
//! - `Operation` is the trait of puts, gets and deletes: `sends` adds the requests that are wanted now, `spell` gives a
//!   request's bytes, `on_reply`, `on_fail` and `cancel` tell it something, `poll` gives the outcome, once.
//! - `Piece` keeps the outstanding requests, which replicas were asked, the tally of what they said, and the blob that came.
//! - `send_along` is the one loop that asks; `make_room` reserves for it beforehand, `replicas_below` lists replicas, `add`
//!   adds a sending. `Stage`, `Errand`, `Purpose`, `Sending` and `Poll` are the values.
//!
//! # Proved
//!
//! For every list of calls, in any order and however often repeated:
//! - what an operation sends, answers and spells is that of its plan at the list (`adds`, `answers`, `spells`), and each call
//!   goes on to the list with that call (`goes_on`). An outcome is given once; want of memory may stand in its place;
//! - a piece's verdict, failures and blob are those of the list (`Piece::verdict`, `failures`, `has_blob`, `take_blob`, `busy`,
//!   `was_asked`): a request is told once, a reply that is repeated or belongs to no outstanding request does nothing, and
//!   nothing is noted behind the verdict (`on_reply`, `on_fail`);
//! - a put or delete asks all replicas at once, a get the next ones in the order of asking, each once, by requests that are
//!   numbered on (`send_along`: `sent`).
//!
//! # Not proved
//!
//! That want of memory means a refused allocation: `make_room` also answers it where the request numbers, below 2^32, are used
//! up.
//!
//! # Tested
//!
//! In `front_end`, by whole runs.
#![tactic(auto)]

mod asking;
mod operation;
mod piece;
mod saying;
mod sending;
mod spelling;
mod stage;

pub use asking::{Asker, add, make_room, replicas_below, send_along};
pub use operation::Operation;
pub use piece::{Open, Piece};
pub use saying::reply_finding;
pub use sending::{Errand, Poll, Purpose, Sending};
pub use spelling::spell_delete;
pub use stage::Stage;
