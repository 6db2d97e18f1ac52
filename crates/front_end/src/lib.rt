//! Scripts, sessions and the top call: a script comes in, operations run on the replicas of a cluster, and a transcript goes
//! out.
//!
//! # Values
//!
//! What was read and written has a history: a list of marks, in order (`HasRun`). Behind it stands a record of what the network
//! and the router did, the marks woven with the network's calls (`IsRecorded`).
//!
//! # Public calls
//!
//! `run_lab` does all that the program does, over whatever source, sink, bays, schedule and random words it is handed. Below
//! it: `Session` carries out one line after the other; `read_line` reads a command, `LineReader` cuts the input into lines,
//! `write_entry`, `write_outcome` and `write_refusal` write lines of the transcript, `Tags` finds a tag.
//!
//! # Proved
//!
//! Of `run_lab`, for all words, inputs, schedules and random words:
//! - Words outside the grammar are answered `usage` with status 1 (4 where writing that failed, 6 for want of memory), and
//!   nothing is read, drawn, moved or opened (`refused`, `unbegun`, `unopened`).
//! - Otherwise (`run`) each command of the script has its entry, in order, a bad line exactly where it spells no command or
//!   orders something of a node that isn't there; the transcript spells the history, whole at 0, 2 and 8, a front of it at 4;
//!   an operation is begun with what its line means, and ids are those of the random words, in order. 0 and 2 come only where
//!   the input was read to its end or to `end`, 2 exactly where a line was bad, 8 exactly where more than 67,108,864 bytes were
//!   read.
//! - Behind the history stands such a record: the moves are exactly those that the schedule gave, each made once and picked
//!   from what was there (`IsPlayed`), the router kept its rules (`IsKept`), no request is open behind 65,536 events (`in_time`), and where a put ended otherwise
//!   than ok each replica was asked to delete its id, or the network refused (`deletes`).
//! - Where the disks told what they held, none failed in a request, they held one blob at most under each id and none under a
//!   drawn one, and no id was drawn twice, the record is safe (`Safe`): a get that ends ok gives the bytes that were put
//!   (`content`); with overlapping quorums none begun behind a delete's ok ends ok (`deleted`), and none begun behind a put's
//!   ok ends `notfound` (`found`); `deleted` has a reason in this run or on the disks (`licensed`); what was acknowledged is
//!   kept by that many replicas (`kept`); each end follows from the replies and failures noted before it (`follows`).
//! - Every disk that was taken out is at home at the end (`home`); where they tell and none failed, they hold the record's last
//!   cells, and a replica was full exactly where a record found no room, unless memory ran out (`Leaves`).
//! - 3 and 4 are answered only where the source or the sink failed, 5 only where the random source or the bays failed or the
//!   disks are of a type that may (`source`, `sink`, `random`); 9 only where a disk is refused, and the line written names the
//!   first one.
//!
//! # Tested
//!
//! Scripts under listed moves with their transcripts; words and lines outside the grammar; a put that finds no room; sources,
//! sinks, bays and a disk that fail; disks that are refused; a second run over the same disks. `tests/repository.sh` runs the
//! examples.
//!
//! # Not proved
//!
//! That each order among the network's calls is one of the script. That a wanted request was sent, and when events are taken.
//! At 3 and 6, which lines were carried out. That 9 comes wherever a disk is refused. That want of memory is answered only
//! where an allocation is refused or a count is full. That a real file keeps the model of a disk.
#![tactic(auto)]

mod history;
mod lab;
mod lines;
mod run;
mod script;
mod session;
mod tags;
mod transcript;

pub use history::Entry;
pub use lab::run_lab;
pub use lines::{LineReader, Next, Stop};
pub use run::Ending;
pub use script::{Command, Target, read_line};
pub use session::Session;
pub use tags::{Tag, Tags};
pub use transcript::{write_entry, write_outcome, write_refusal};

#[cfg(test)]
mod tests;
