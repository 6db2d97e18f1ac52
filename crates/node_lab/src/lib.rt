//! The nodes of a cluster whose disks come from bays: opened all or none, asked, and closed. Each node runs, or is stopped and
//! has its disks at home.
//!
//! # Values
//!
//! `LabNodes` has a shape and a folder once it was opened, the bays, and a list of nodes, node 1 first: each runs over its
//! replicas by their partitions, as the node of every other use does, or is stopped (`NodeState`). What is known of one replica
//! is a `Place`: its cells, at most one change that is in doubt since its disk failed, and the layout of its log as long as it is
//! known. `Holds` says of all places that the nodes hold them, by open replicas or by disks at home; a `ReplicaSlot` has what one
//! replica's disk is at: open, at home, or out under a folder.
//!
//! # Public calls
//!
//! - `LabNodes::open` opens all nodes over the disks of a folder, `ask` asks one replica, and `replica` looks at one. `stop` closes
//!   a node as a stop of the machine does, `restart` opens it again, `close` closes all, `give_back` hands the bays back.
//! - Laws say what calls come to for the places: `asking_keeps`, `closing_keeps`, `unopened_keeps`, `opening_settles`,
//!   `places_at_home`; which disks are out, `only_own_are_out`; and for what a network told, `asking_leads` and `restarting_leads`.
//!
//! # Proved
//!
//! - `open` and `restart` open all of their replicas or none, and all others stay with their disks (`opened`, `closed`). Over bays
//!   that tell where disks are, a refusal names the first replica, by node and then by partition, whose disk isn't opened, with
//!   the cause that its bytes or its size give (`refused`); a `restart` over disks that tell is never refused (`never`). `Failed`
//!   comes only where the count of the bays rose, or that of the disk of a replica that was to be opened (`failed`).
//! - `ask` asks the one replica, and says exactly where none is open (`asked`, `none`, `some`). Over disks that tell, what it asks is joined
//!   to the cells of its place; after a fault, it is in doubt there, and no other place changes (`holds`). What is
//!   answered is said by the place alone: a replica with something in doubt is down, and no other, and it is full exactly where its
//!   record finds no room in the layout, unless memory runs out (`answers`). A fault is that of the replica's own disk, in that
//!   call (`fault`).
//! - `stop` and `close` send exactly the disks of their nodes home, as a stop leaves them or as they are, and all other nodes stay
//!   (`closes`). Each image of a disk at home stands for the cells of its place, maybe with the one change in doubt.
//! - An opening settles what was in doubt, as the cells of the opened replica show (`opening_settles`).
//!
//! # Tested
//!
//! A disk that fails takes down its replica alone, until that is opened again.
//!
//! # Not proved
//!
//! That `Memory` comes only where an allocation is refused. Over disks that tell nothing, as files, what a place holds. Which disk
//! at home has failed how often: bays hand a disk out and take it back without a word on its count.
#![tactic(auto)]

mod all_nodes;
mod fault;
mod laws;
mod nodes;
mod one_node;
mod opening;
mod state;

pub use fault::NodesFault;
pub use laws::{
    asking_keeps, asking_leads, closing_keeps, only_own_are_out, opening_settles, places_at_home,
    restarting_leads, unopened_keeps,
};
pub use nodes::LabNodes;
pub use state::NodeState;

#[cfg(test)]
mod tests;
