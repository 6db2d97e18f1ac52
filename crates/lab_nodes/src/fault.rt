//! Why disks weren't opened.

ghost use Rattle.std.specs.Prelude.{◌≡◌, ◌⊎◌};
ghost use Rattle.lab_nodes.specs.Faults.{bay_fault, open_fault, refused};
ghost use Rattle.lab_nodes.specs.declared.fault.NodesFault.TheVariants.{Memory as NoMemory};

use blob_id::Memory;
use disk_core::BayFault;
use replica_core::OpenFault;
use thiserror::Error;
use world_model::{Refusal, What};

/// Why the disks of nodes weren't opened.
#[derive(Clone, Copy, Debug, PartialEq, Eq, Error)]
pub enum NodesFault {
    #[error("the outside failed")]
    Failed,
    /// This disk has another size, or isn't that of such a log.
    #[error("a disk isn't opened")]
    Refused(Refusal),
    #[error("out of memory")]
    Memory,
}

impl From<Memory> for NodesFault {
    ghost from_gives = { λ _ fault. fault ≡ NoMemory };

    fn from(_: Memory) -> Self {
        NodesFault::Memory
    }
}

fn refused(node: u32, partition: u32, what: What) -> NodesFault
    ensures { result ≡ refused node partition what }
{
    NodesFault::Refused(Refusal {
        node,
        partition,
        what,
    })
}

/// Why the disk of this node and this partition wasn't handed out.
pub(crate) fn bay_fault(fault: BayFault, node: u32, partition: u32) -> NodesFault
    ensures { result ≡ bay_fault fault node partition }
{
    match fault {
        BayFault::Failed => NodesFault::Failed,
        BayFault::OtherSize(bytes) => refused(node, partition, What::OtherSize(bytes)),
        BayFault::Memory => NodesFault::Memory,
    }
}

/// Why the disk of this node and this partition wasn't opened.
pub(crate) fn open_fault(fault: OpenFault, node: u32, partition: u32) -> NodesFault
    ensures { result ≡ open_fault fault node partition }
{
    match fault {
        OpenFault::Failed => NodesFault::Failed,
        OpenFault::Damaged(place) => refused(node, partition, What::Damaged(place)),
        OpenFault::OtherShape(_) => refused(node, partition, What::OtherShape),
        OpenFault::Memory => NodesFault::Memory,
    }
}
