//! The shape of a cluster, and where its replicas stand.

ghost use Rattle.std.specs.Prelude.{◌≡◌};
ghost use Rattle.world_model.specs.Shape.{IsShape, node_of};

/// The numbers of a log: the bytes of a segment, the segments, and the records of an index segment.
#[derive(Clone, Copy, Debug, PartialEq, Eq)]
pub struct LogNumbers {
    pub segment: u32,
    pub segments: u16,
    pub index: u16,
}

/// A cluster: its nodes, the replicas of each partition, the partitions, how many replicas a put, a get and a delete
/// need, the bytes of a chunk, and the logs.
#[derive(Clone, Copy, Debug, PartialEq, Eq)]
pub struct Shape {
    pub nodes: u32,
    pub replicas: u32,
    pub partitions: u32,
    pub put: u32,
    pub get: u32,
    pub delete: u32,
    pub chunk: u32,
    pub log: LogNumbers,
}

/// The node of a partition's replica. Nodes are numbered from 1, replicas and partitions from 0. The partition may lie outside
/// the shape.
pub fn node_of(shape: &Shape, partition: u32, replica: u32) -> u32
    requires shape { IsShape shape.now }
    ensures { result ≡ node_of shape.now partition replica }
{
    let place = (u64::from(partition) + u64::from(replica)) % u64::from(shape.nodes);
    place as u32 + 1
}
