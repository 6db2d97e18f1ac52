//! Where disks are kept, by folder, node and partition.

ghost use Rattle.std.specs.Prelude.{◌≡◌, ◌≤◌, ℕ, List, Some, IsSome, IfOk, OnErr, IsErrOf};
ghost use Rattle.outside.specs.Causes.{Rose};
ghost use Rattle.disk_core.specs.Homes.{Home, Out, TakesOut, PutsHome, Stays, AnswersSize};

use crate::Disk;
use thiserror::Error;

/// Why no disk was handed out.
#[derive(Clone, Copy, Debug, PartialEq, Eq, Error)]
pub enum BayFault {
    #[error("the outside failed")]
    Failed,
    /// The disk that is kept has this other size.
    #[error("the disk has {0} bytes")]
    OtherSize(u64),
    #[error("out of memory")]
    Memory,
}

/// Disks at home, each of which may be taken out and put home again. At most one disk of a node and a partition is
/// out at a time.
pub trait Bays {
    type Disk: Disk;

    /// Whether it tells what it keeps.
    ghost tells: { Type 0 };

    /// The disk that is at home under a folder, a node and a partition.
    ghost home: { Self → Home Self.Disk };

    /// The folder of the disk of a node and a partition that is out.
    ghost out: { Self → Out };

    /// How often it has failed.
    ghost faults: { Self → ℕ };

    /// They are the same bays, where they are ones that are lent.
    ghost same: { Self → Self → Type 0 };

    /// Takes out the disk of a place as it is, or a new one of this size where the place has none. A refusal takes out
    /// none. Where it tells, it fails while a disk of this node and this partition is out.
    fn open(
        &mut self,
        folder: &str,
        node: u32,
        partition: u32,
        size: u64,
    ) -> Result<Self::Disk, BayFault>
        ensures taken { IfOk result (λ disk. tells → TakesOut Self.Disk.tells Self.Disk.content Self.Disk.size folder.now node partition size disk (home self.old) (out self.old) (home self.new) (out self.new)) }
        ensures size { IfOk result (λ disk. Self.Disk.size disk ≡ size) }
        ensures refused { OnErr result (tells → Stays (home self.old) (out self.old) (home self.new) (out self.new)) }
        ensures other_size { tells → AnswersSize Self.Disk.tells Self.Disk.content Self.Disk.size (home self.old folder.now node partition) size result }
        ensures is_out { tells → IsSome (out self.old node partition) → IsErrOf result BayFault.Failed }
        ensures failed { IsErrOf result BayFault.Failed → Rose (faults self.old) (faults self.new) }
        ensures later { faults self.old ≤ faults self.new }
        ensures same { same self.old self.new };

    /// Puts a disk home as it is, under the folder that it came from.
    fn give_back(&mut self, node: u32, partition: u32, disk: Self::Disk)
        requires { tells → IsSome (out self.old node partition) }
        ensures home { tells → (folder : List ℕ) → out self.old node partition ≡ Some folder → PutsHome Self.Disk.tells Self.Disk.content Self.Disk.size folder node partition disk (home self.old) (out self.old) (home self.new) (out self.new) }
        ensures faults { faults self.new ≡ faults self.old }
        ensures same { same self.old self.new };

    /// Disks that tell what they hold are kept in bays that tell what they keep.
    ghost known: { Self.Disk.tells → tells };

    ghost same_self: { (bays : Self) → same bays bays };

    ghost same_on: { (a b c : Self) → same a b → same b c → same a c };
}

/// Bays that are lent.
impl<B: Bays> Bays for &mut B {
    ghost use Rattle.std.proofs.Common.{◌∙◌, refl};

    type Disk = B::Disk;

    ghost tells = { B.tells };

    ghost home = { λ b. B.home b.now };

    ghost out = { λ b. B.out b.now };

    ghost faults = { λ b. B.faults b.now };

    ghost same = { λ a b. a.ghost_name ≡ b.ghost_name };

    fn open(
        &mut self,
        folder: &str,
        node: u32,
        partition: u32,
        size: u64,
    ) -> Result<B::Disk, BayFault> {
        (**self).open(folder, node, partition, size)
    }

    fn give_back(&mut self, node: u32, partition: u32, disk: B::Disk) {
        (**self).give_back(node, partition, disk);
    }

    ghost known = { B.known };

    ghost same_self = { λ a. refl };

    ghost same_on = { λ a b c p q. p ∙ q };
}
