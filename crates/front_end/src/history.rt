//! What a session keeps of its past.

ghost use Rattle.std.specs.Prelude.{◌≡◌};
ghost use Rattle.front_end.specs.Outline.{outline_begun, outline_outcome, outline_entry};

use blob_id::Bytes;
use quorum_op::Outcome;
use std::alloc::Global;
use world_model::{Begun, HistoryMark, Order};

/// What happened between two lines of the transcript: a mark of the history, a bad line, or an order at which the network
/// failed.
#[derive(Debug, Drop)]
pub enum Entry {
    Mark(HistoryMark),
    /// The script line of this number is bad.
    Bad(u32),
    /// The network failed at this order, and did nothing.
    Failed(Order),
}

/// The entry without the bytes of a body. It takes no memory.
pub fn outline_of(alloc: Global, entry: Entry) -> Entry
    ensures { result ≡ outline_entry entry }
{
    match entry {
        Entry::Mark(HistoryMark::Begin(number, begun)) => {
            Entry::Mark(HistoryMark::Begin(number, outline_of_begun(alloc, begun)))
        }
        Entry::Mark(HistoryMark::End(number, outcome)) => {
            Entry::Mark(HistoryMark::End(number, outline_of_outcome(alloc, outcome)))
        }
        other => other,
    }
}

fn outline_of_begun(alloc: Global, begun: Begun) -> Begun
    ensures { result ≡ outline_begun begun }
{
    match begun {
        Begun::Put {
            file,
            body: _,
            ttl,
            ctype,
            meta,
        } => Begun::Put {
            file,
            body: Bytes::new(alloc),
            ttl,
            ctype,
            meta,
        },
        other => other,
    }
}

fn outline_of_outcome(alloc: Global, outcome: Outcome) -> Outcome
    ensures { result ≡ outline_outcome outcome }
{
    match outcome {
        Outcome::Bytes(_) => Outcome::Bytes(Bytes::new(alloc)),
        other => other,
    }
}
