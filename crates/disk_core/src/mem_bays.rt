//! Bays in memory.

ghost use Rattle.std.specs.Prelude.{◌≡◌, ◌≤◌, ◌↔◌, ◌⊎◌, ℕ, [], List, Some, None, IsSome, IfOk, IfErr, OnErr, IsErrOf, Contains};
ghost use Rattle.std.specs.List.{find, position};
ghost use Rattle.outside.specs.Causes.{Rose};
ghost use Rattle.disk_core.specs.Homes.{TakesOut, PutsHome, Stays, AnswersSize};
ghost use Rattle.disk_core.specs.MemDisk.{content_of, size_of, pick_of, listed_of};
ghost use Rattle.disk_core.specs.Places.{is_at, is_out, home_of, out_of, AreApart, OneIsOut, IsOther};

use crate::failing::Failing;
use crate::places::{Place, find_out, find_place, new_disk};
use crate::{BayFault, Bays, MemDisk, Pick};
use std::alloc::Global;

/// Disks in memory. A new one has the pick that the bays were made with, and no call of it is listed to fail.
#[derive(Drop)]
pub struct MemBays {
    alloc: Global,
    // a place stays while its disk is out, so that going home takes no memory
    places: Vec<Place>,
    pick: Pick,
    failing: Failing,
    ghost apart: { AreApart places.items },
    ghost one_is_out: { OneIsOut places.items },
}

impl MemBays {
    ghost use Rattle.disk_core.specs.MemBays.{openings_of, listed_in, pick_for};

    /// Bays with no disk. The openings with these numbers fail, counted from 1. A stop leaves of a disk what the pick
    /// says.
    pub fn new(alloc: Global, pick: Pick, fails: Vec<u64>) -> MemBays
        ensures home { (folder : List ℕ) (node partition : ℕ) → ⟦<MemBays as Bays>⟧.home result folder node partition ≡ None }
        ensures out { (node partition : ℕ) → ⟦<MemBays as Bays>⟧.out result node partition ≡ None }
        ensures faults { ⟦<MemBays as Bays>⟧.faults result ≡ 0 }
        ensures openings { openings_of result ≡ 0 }
        ensures listed { listed_in result ≡ fails.items }
        ensures pick { pick_for result ≡ pick }
    {
        MemBays {
            alloc,
            places: Vec::new(alloc),
            pick,
            failing: Failing::new(fails),
        }
    }

    // Makes a place for a new disk, which is handed out.
    fn open_new(
        &mut self,
        folder: &str,
        node: u32,
        partition: u32,
        size: u64,
    ) -> Result<MemDisk, BayFault>
        requires no_place { find (is_at folder.now node partition) self.old.places.items ≡ None }
        requires none_out { find (is_out node partition) self.old.places.items ≡ None }
        ensures taken { IfOk result (λ disk. TakesOut (Unit {0}) content_of size_of folder.now node partition size disk (home_of self.old.places.items) (out_of self.old.places.items) (home_of self.new.places.items) (out_of self.new.places.items)) }
        ensures new { IfOk result (λ disk. (size_of disk ≡ size) × (pick_of disk ≡ self.old.pick) × (listed_of disk ≡ [])) }
        ensures refused { IfErr result (λ fault. (fault ≡ BayFault.Memory) × (self.new.places.items ≡ self.old.places.items)) }
        ensures rest { (self.new.failing ≡ self.old.failing) × (self.new.pick ≡ self.old.pick) }
    {
        let Ok(disk) = new_disk(self.alloc, self.pick, size) else {
            return Err(BayFault::Memory);
        };
        let Ok(place) = Place::without_disk(self.alloc, folder, node, partition) else {
            return Err(BayFault::Memory);
        };
        let Ok(()) = self.places.push(place) else {
            return Err(BayFault::Memory);
        };
        Ok(disk)
    }

    // Hands out the disk of a place, where it has this size.
    fn open_kept(
        &mut self,
        index: usize,
        folder: &str,
        node: u32,
        partition: u32,
        size: u64,
    ) -> Result<MemDisk, BayFault>
        requires first { position (is_at folder.now node partition) self.old.places.items ≡ Some index }
        requires none_out { find (is_out node partition) self.old.places.items ≡ None }
        ensures taken { IfOk result (λ disk. TakesOut (Unit {0}) content_of size_of folder.now node partition size disk (home_of self.old.places.items) (out_of self.old.places.items) (home_of self.new.places.items) (out_of self.new.places.items)) }
        ensures kept { IfOk result (λ disk. (size_of disk ≡ size) × (home_of self.old.places.items folder.now node partition ≡ Some disk)) }
        ensures refused { IfErr result (λ fault. IsOther (home_of self.old.places.items folder.now node partition) size fault × (self.new.places.items ≡ self.old.places.items)) }
        ensures rest { (self.new.failing ≡ self.old.failing) × (self.new.pick ≡ self.old.pick) }
    {
        let place = &mut self.places[index];
        match place.take_out(size) {
            Ok(disk) => Ok(disk),
            Err(bytes) => Err(BayFault::OtherSize(bytes)),
        }
    }
}

impl Bays for MemBays {
    ghost use Rattle.disk_core.specs.MemBays.{openings_of, listed_in, pick_for, CountsOpening, KeepsOpenings};

    type Disk = MemDisk;

    ghost tells = { Unit {0} };

    ghost home = { λ b. home_of b.places.items };

    ghost out = { λ b. out_of b.places.items };

    ghost faults = { λ b. b.failing.faults };

    ghost same = { λ _ _. Unit {0} };

    /// Fails exactly where the number of the opening is listed, or the disk of this node and this partition is out. A
    /// disk that is at home needs no memory.
    fn open(
        &mut self,
        folder: &str,
        node: u32,
        partition: u32,
        size: u64,
    ) -> Result<MemDisk, BayFault>
        ensures taken { IfOk result (λ disk. Unit {0} → TakesOut (Unit {0}) content_of size_of folder.now node partition size disk (home_of self.old.places.items) (out_of self.old.places.items) (home_of self.new.places.items) (out_of self.new.places.items)) }
        ensures size { IfOk result (λ disk. size_of disk ≡ size) }
        ensures refused { OnErr result (Unit {0} → Stays (home_of self.old.places.items) (out_of self.old.places.items) (home_of self.new.places.items) (out_of self.new.places.items)) }
        ensures other_size { Unit {0} → AnswersSize (Unit {0}) content_of size_of (home_of self.old.places.items folder.now node partition) size result }
        ensures is_out { Unit {0} → IsSome (out_of self.old.places.items node partition) → IsErrOf result BayFault.Failed }
        ensures failed { IsErrOf result BayFault.Failed → Rose self.old.failing.faults self.new.failing.faults }
        ensures later { self.old.failing.faults ≤ self.new.failing.faults }
        ensures same { Unit {0} }
        ensures exact { IsErrOf result BayFault.Failed ↔ Contains (listed_in self.old) (openings_of self.new) ⊎ IsSome (out_of self.old.places.items node partition) }
        ensures memory { IsErrOf result BayFault.Memory → home_of self.old.places.items folder.now node partition ≡ None }
        ensures kept { IfOk result (λ disk. (kept : MemDisk) → home_of self.old.places.items folder.now node partition ≡ Some kept → disk ≡ kept) }
        ensures new { IfOk result (λ disk. home_of self.old.places.items folder.now node partition ≡ None → (pick_of disk ≡ pick_for self.old) × (listed_of disk ≡ [])) }
        ensures counts { CountsOpening self.old self.new }
    {
        if self.failing.fails() {
            return Err(BayFault::Failed);
        }
        if find_out(&self.places, node, partition).is_some() {
            self.failing.fault();
            return Err(BayFault::Failed);
        }
        match find_place(&self.places, folder, node, partition) {
            Some(index) => self.open_kept(index, folder, node, partition, size),
            None => self.open_new(folder, node, partition, size),
        }
    }

    /// The very disk is at home, and takes no memory.
    fn give_back(&mut self, node: u32, partition: u32, disk: MemDisk)
        requires { Unit {0} → IsSome (out_of self.old.places.items node partition) }
        ensures home { Unit {0} → (folder : List ℕ) → out_of self.old.places.items node partition ≡ Some folder → PutsHome (Unit {0}) content_of size_of folder node partition disk (home_of self.old.places.items) (out_of self.old.places.items) (home_of self.new.places.items) (out_of self.new.places.items) }
        ensures faults { self.new.failing.faults ≡ self.old.failing.faults }
        ensures same { Unit {0} }
        ensures very { (folder : List ℕ) → out_of self.old.places.items node partition ≡ Some folder → home_of self.new.places.items folder node partition ≡ Some disk }
        ensures counts { KeepsOpenings self.old self.new }
    {
        let index = find_out(&self.places, node, partition).unwrap();
        let place = &mut self.places[index];
        place.disk = Some(disk);
    }

    ghost known = { λ t. t };

    ghost same_self = { λ a. tt };

    ghost same_on = { λ a b c p q. tt };
}
