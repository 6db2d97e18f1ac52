//! The replicas of a cluster, whose disks come from bays: opened all or none, asked, and sent home.
//!
//! Replicas stand in slots by their places: first those of node 1 by their partitions, then those of node 2, and so on.
//!
//! # Values
//!
//! `LabNodes` has a shape and a folder once it was opened, the bays, and the slots, each empty or with an open replica. `Holds`
//! says what all places hold, open or at home, `HaveLayouts` how the log of each place is laid out, and `is_up` which replicas
//! are open.
//!
//! # Public calls
//!
//! - `start` opens the replicas of all nodes or of one; `halt` empties their slots and sends their disks home.
//! - `LabNodes::open` opens all nodes over the disks of a folder, `ask` asks one replica, `stop` and `close` send disks home,
//!   `restart` opens the replicas of a stopped node, `give_back` hands the bays back.
//!
//! # Proved
//!
//! - `open` and `restart` open all of their replicas or none (`up`, `err`). Over bays that tell where disks are, a refused
//!   `open` names the first place, by node and then by partition, whose disk isn't opened, with the cause that its bytes or its
//!   size give (`refused`); of a refused `restart` only the node is said. `Failed` comes only where the count of the bays rose,
//!   or the disk's type is one whose count can rise (`failed`): which disk it was isn't said.
//! - `ask` asks the one replica of a place and says exactly where none is open (`none`, `some`); what the replica says of the
//!   ask is kept (`asked`), and every other replica stays (`others`).
//! - Where disks tell their bytes, every call keeps `Holds` and `HaveLayouts`; an ask joins what it brings (`holds`) and is
//!   answered by the table at the cell that is held (`answered`), unless a disk fails in it (`fault`); it is full exactly where
//!   its record finds no room, unless memory runs out (`packed`), and a record that is put is packed behind the others
//!   (`layouts`).
//! - `stop` sends disks home as a stop of the machine leaves them, `close` as they are (`left`). No disks are out but those of
//!   open replicas and those that were before (`out`).
//!
//! # Tested
//!
//! In `front_end`: runs over disks in memory and in files, with stops and restarts, openings that fail, and disks that are
//! refused.
//!
//! # Not proved
//!
//! That `stop`, `restart` and `close` leave the replicas of other nodes, beyond `up`, `holds` and `layouts`. That `Memory`
//! comes only where an allocation is refused. Over disks that tell nothing, as files, what a place holds.
#![tactic(auto)]

mod fault;
mod nodes;
mod opening;
mod places;
mod spots;

pub use fault::NodesFault;
pub use nodes::LabNodes;
pub use places::Which;
pub use spots::{halt, start};
