//! Bays in memory, of which some disks fail from some call on.

ghost use Rattle.std.specs.Prelude.{◌≡◌, ◌≤◌, ◌↔◌, ◌⊎◌, ℕ, List, Some, IsSome, IfOk, OnErr, IsErrOf, Contains};
ghost use Rattle.outside.specs.Causes.{Rose};
ghost use Rattle.disk_core.specs.MemDisk.{pick_of};
ghost use Rattle.disk_core.specs.FuseDisk.{disk_of, fuse_of};
ghost use Rattle.disk_core.specs.FuseBays.{bays_of, fuses_of, content_in, size_in, fused_home, fuse_at, fuse_for, pick_at, picked, without, is_placed, UsesUp};
ghost use Rattle.disk_core.specs.Homes.{TakesOut, PutsHome, Stays, AnswersSize};
ghost use Rattle.disk_core.specs.MemBays.{listed_in, openings_of, pick_for};
ghost use Rattle.disk_core.specs.Places.{home_of, out_of};
ghost use Rattle.std.specs.List.{find};

use crate::{BayFault, Bays, FuseDisk, MemBays, MemDisk, Pick};

/// A fuse for the disk of one node and one partition.
#[derive(Clone, Copy, Debug, PartialEq, Eq)]
pub struct PlacedFuse {
    pub node: u32,
    pub partition: u32,
    /// How many calls the disk passes before it fails.
    pub passes: u64,
    /// What a stop leaves of the disk from then on.
    pub pick: Pick,
}

impl PlacedFuse {
    /// Whether it is for the disk of this node and this partition.
    pub fn is_placed(&self, node: u32, partition: u32) -> bool
        ensures { result ≡ is_placed node partition self.now }
    {
        self.node == node && self.partition == partition
    }
}

/// Bays in memory whose disks are handed out with the fuses that are placed for them. At its first opening that succeeds,
/// a disk with a fuse passes some calls, and then fails until it is stopped. Every other opening gives a disk that passes
/// all calls.
#[derive(Drop)]
pub struct FuseBays {
    bays: MemBays,
    // those that weren't handed out
    fuses: Vec<PlacedFuse>,
}

// The fuse that is placed for a disk.
fn find_fuse(fuses: &[PlacedFuse], node: u32, partition: u32) -> Option<PlacedFuse>
    ensures { result ≡ find (is_placed node partition) fuses.now }
{
    match fuses.iter().find(|fuse| fuse.is_placed(node, partition)) {
        Some(fuse) => Some(*fuse),
        None => None,
    }
}

// Drops what is placed for a disk.
fn drop_fuse(fuses: &mut Vec<PlacedFuse>, node: u32, partition: u32)
    ensures { fuses.new.items ≡ without node partition fuses.old.items }
{
    fuses.retain(|fuse| !fuse.is_placed(node, partition));
}

impl FuseBays {
    /// The disks of these bays, with these fuses. Of several fuses for one disk the first counts.
    pub fn new(bays: MemBays, fuses: Vec<PlacedFuse>) -> FuseBays
        ensures bays { bays_of result ≡ bays }
        ensures fuses { fuses_of result ≡ fuses.items }
    {
        FuseBays { bays, fuses }
    }

    // The disk with the fuse of this opening.
    fn fused(&mut self, node: u32, partition: u32, disk: MemDisk) -> FuseDisk<MemDisk>
        ensures disk { disk_of result ≡ picked (fuse_at self.old node partition) disk }
        ensures fuse { fuse_of result ≡ fuse_for (fuse_at self.old node partition) }
        ensures left { fuses_of self.new ≡ without node partition (fuses_of self.old) }
        ensures bays { bays_of self.new ≡ bays_of self.old }
    {
        let placed = find_fuse(&self.fuses, node, partition);
        drop_fuse(&mut self.fuses, node, partition);
        match placed {
            Some(fuse) => FuseDisk::new(disk.with_pick(fuse.pick), fuse.passes),
            None => FuseDisk::without_fuse(disk),
        }
    }
}

impl Bays for FuseBays {
    type Disk = FuseDisk<MemDisk>;

    ghost tells = { Unit {0} };

    ghost home = { λ b. fused_home (home_of b.bays.places.items) };

    ghost out = { λ b. out_of b.bays.places.items };

    ghost faults = { λ b. b.bays.failing.faults };

    ghost same = { λ _ _. Unit {0} };

    /// Fails exactly where the bays below do. The first opening that succeeds for a disk with a fuse hands it out with
    /// exactly that fuse, whatever the folder.
    fn open(
        &mut self,
        folder: &str,
        node: u32,
        partition: u32,
        size: u64,
    ) -> Result<FuseDisk<MemDisk>, BayFault>
        ensures taken { IfOk result (λ disk. Unit {0} → TakesOut (Unit {0}) content_in size_in folder.now node partition size disk (fused_home (home_of self.old.bays.places.items)) (out_of self.old.bays.places.items) (fused_home (home_of self.new.bays.places.items)) (out_of self.new.bays.places.items)) }
        ensures size { IfOk result (λ disk. size_in disk ≡ size) }
        ensures refused { OnErr result (Unit {0} → Stays (fused_home (home_of self.old.bays.places.items)) (out_of self.old.bays.places.items) (fused_home (home_of self.new.bays.places.items)) (out_of self.new.bays.places.items)) }
        ensures other_size { Unit {0} → AnswersSize (Unit {0}) content_in size_in (fused_home (home_of self.old.bays.places.items) folder.now node partition) size result }
        ensures is_out { Unit {0} → IsSome (out_of self.old.bays.places.items node partition) → IsErrOf result BayFault.Failed }
        ensures failed { IsErrOf result BayFault.Failed → Rose self.old.bays.failing.faults self.new.bays.failing.faults }
        ensures later { self.old.bays.failing.faults ≤ self.new.bays.failing.faults }
        ensures same { Unit {0} }
        ensures exact { IsErrOf result BayFault.Failed ↔ Contains (listed_in (bays_of self.old)) (openings_of (bays_of self.new)) ⊎ IsSome (out_of self.old.bays.places.items node partition) }
        ensures fuse { IfOk result (λ disk. fuse_of disk ≡ fuse_for (fuse_at self.old node partition)) }
        ensures pick { IfOk result (λ disk. pick_of (disk_of disk) ≡ pick_at (fuse_at self.old node partition) (home_of self.old.bays.places.items folder.now node partition) (pick_for (bays_of self.old))) }
        ensures used { UsesUp node partition result (fuses_of self.old) (fuses_of self.new) }
    {
        match self.bays.open(folder, node, partition, size) {
            Ok(disk) => Ok(self.fused(node, partition, disk)),
            Err(fault) => Err(fault),
        }
    }

    /// The disk is at home without its fuse.
    fn give_back(&mut self, node: u32, partition: u32, disk: FuseDisk<MemDisk>)
        requires { Unit {0} → IsSome (out_of self.old.bays.places.items node partition) }
        ensures home { Unit {0} → (folder : List ℕ) → out_of self.old.bays.places.items node partition ≡ Some folder → PutsHome (Unit {0}) content_in size_in folder node partition disk (fused_home (home_of self.old.bays.places.items)) (out_of self.old.bays.places.items) (fused_home (home_of self.new.bays.places.items)) (out_of self.new.bays.places.items) }
        ensures faults { self.new.bays.failing.faults ≡ self.old.bays.failing.faults }
        ensures same { Unit {0} }
        ensures fuses { fuses_of self.new ≡ fuses_of self.old }
    {
        self.bays.give_back(node, partition, disk.into_inner());
    }

    ghost known = { λ t. t };

    ghost same_self = { λ a. tt };

    ghost same_on = { λ a b c p q. tt };
}
