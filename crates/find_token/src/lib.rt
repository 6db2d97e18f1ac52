//! How far replication has come: the tokens that say which records of a replica's log a peer has seen, the pages of what it
//! hasn't seen yet, and the tokens' bytes.
//!
//! | Token | Bytes |
//! |---|---|
//! | start: no record was seen | 00 |
//! | journal: the records below an lsn were seen | 01, the lsn (8) |
//!
//! The lsn is big-endian. No spelling begins another one, and bytes that begin otherwise spell no token.
//!
//! # Values
//!
//! `FindToken` is one of the two tokens. A `Page` is a list of entries, each an id and whether it is gone, and the token behind
//! them.
//!
//! # Public calls
//!
//! `write_token` gives the bytes of a token, `read_token` the token that stands in front of some bytes with its length.
//!
//! # Proved
//!
//! `read_token` gives exactly the token that the bytes begin with and its length, and `None` exactly where they begin with
//! none; `write_token` writes its spelling; no spelling begins another one (`token_laws`).
//!
//! # Tested
//!
//! The bytes of both tokens.
//!
//! # Not proved
//!
//! That `write_token` answers `Memory` only where an allocation is refused.
#![tactic(auto)]

mod page;
mod reading;
mod token;
mod writing;

pub use page::{Entries, Entry, Page};
pub use reading::{read_token, token_laws};
pub use token::FindToken;
pub use writing::write_token;

#[cfg(test)]
mod tests;
