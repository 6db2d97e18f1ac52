//! The lines of a script, and the words that say how an operation ended.
//!
//! # Lines
//!
//! Spaces and tabs divide a line into words. A line without words, and one whose first word begins with `#`, asks for nothing. It
//! has at most 1,048,576 bytes without its line end.
//!
//! | Line | Asks for |
//! |---|---|
//! | `put TAG hex HEX` or `put TAG file NAME`, then `type TYPE` or not, then `meta HEX` or not | a put |
//! | `get TAG ID`, then FROM LEN or not, then `file NAME` or not | a get |
//! | `info TAG ID`, `del TAG ID` | an info, a delete |
//! | `cancel TAG`, `wait TAG`, `wait` | the end of an operation, or waiting for it, or for all |
//! | `drain N`, `undrain N` | that a node is sent no requests, or is again |
//! | `stop N`, `restart N`, `pull A B P`, `compact N P`, `level P A B` | an order to the network |
//! | `end` | the end of the script |
//!
//! TAG is a letter and up to 31 letters, digits or `_` behind it: one that no line before has, or behind `cancel` and `wait` one
//! that a line before has. HEX is `-` for no bytes, or two digits for each byte in either case, at most 1,024 bytes behind `meta`.
//! NAME is a pathname as `run_words` has them, TYPE 1 to 64 printable bytes and no `-` alone. ID is the 40 digits of an id in
//! lower case, or `$` and the tag of a put line before. N, A and B are nodes of the shape, from 1, and P is a partition of it,
//! from 0. A and B differ, and each node beside a partition holds it. A number is 1 to 20 digits and has 64 bits.
//!
//! # Values
//!
//! A `Command` is what a line asks for, `Scope` what it may name: a shape, and the tags of the good operation lines before it. A
//! `LineFault` is the first word that isn't what has to stand at its place, with what that is (`Wanted`).
//!
//! # Proved
//!
//! - `read_line` answers a command exactly where the line spells it (`spelled`, `only`). No good line begins with the same words as
//!   one that is refused at a word, up to this one (`refused`), which is the first that reading from left to right doesn't take
//!   (`read`).
//! - A line spells one command at most, and only commands that a script may have; each of these is spelled by a line of its own
//!   (`line_laws`: `one`, `valid`, `each`).
//! - `Command::is_built` says which commands a session carries out today.
//! - `write_outcome` adds exactly the words of an outcome, or leaves the buffer as it was (`ok`, `err`). No two outcomes have the
//!   same words, and no byte of them ends a line (`outcome_laws`: `apart`, `within`).
//! - `Tags` finds the number of a tag by its name, and the name by its number.
//!
//! # Tested
//!
//! Tables of lines with their commands and with their refusals, a line that is a byte too long, a table of outcomes.
//!
//! # Not proved
//!
//! That `Memory` is answered only where an allocation is refused. The cost, which is linear in the bytes of a line.
#![tactic(auto)]

mod command;
mod fault;
mod laws;
mod names;
mod operations;
mod orders;
mod placed_words;
mod reading;
mod tags;
mod texts;
mod writing;

pub use command::{BlobSource, Command, IdWord};
pub use fault::{LineFault, Wanted};
pub use laws::{line_laws, outcome_laws};
pub use reading::read_line;
pub use tags::{Scope, Tag, Tags};
pub use writing::write_outcome;

#[cfg(test)]
mod tests;
