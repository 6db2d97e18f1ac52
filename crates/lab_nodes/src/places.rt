//! The places of replicas: first those of node 1 by their partitions, then those of node 2, and so on.

ghost use Rattle.std.specs.Prelude.{◌≡◌, ◌<◌, ◌≤◌};
ghost use Rattle.lab_nodes.specs.Spots.{is_meant, node_at, partition_at, stands_on};
ghost use Rattle.world_model.specs.Shape.{IsShape};

use world_model::{Shape, node_of};

/// The nodes whose places are meant.
#[derive(Clone, Copy, Debug, PartialEq, Eq)]
pub enum Which {
    All,
    /// The node with this number. The first one is 1.
    Node(u32),
}

/// Whether a node is one of those that are meant.
pub(crate) fn is_meant(which: Which, node: u32) -> bool
    ensures { result ≡ is_meant which node }
{
    match which {
        Which::All => true,
        Which::Node(other) => node == other,
    }
}

/// The node of a place, where each node has so many partitions.
pub(crate) fn node_at(partitions: u32, place: u32) -> u32
    requires some { 1 ≤ partitions }
    requires place { place < 1024 }
    ensures { result ≡ node_at partitions place }
{
    place / partitions + 1
}

/// The partition of a place, where each node has so many partitions.
pub(crate) fn partition_at(partitions: u32, place: u32) -> u32
    requires { 1 ≤ partitions }
    ensures { result ≡ partition_at partitions place }
{
    place % partitions
}

/// Whether a shape has a replica of a partition on a node.
pub(crate) fn stands_on(shape: &Shape, node: u32, partition: u32) -> bool
    requires { IsShape shape.now }
    ensures { result ≡ stands_on shape.now node partition }
{
    for replica in 0..shape.replicas {
        if node_of(shape, partition, replica) == node {
            return true;
        }
    }
    false
}
