//! A disk in memory, of which is told what a crash may leave.

ghost use Rattle.std.specs.Prelude.{◌≡◌, ◌⊎◌, ◌+◌, ◌≤◌, ◌↔◌, ◌∷◌, [], length, IsTrue, IsErr, Contains};
ghost use Rattle.std.specs.List.{list_all};
ghost use Rattle.outside.specs.Causes.{HasCause};
ghost use Rattle.disk_core.specs.Content.{Only, Reads, Writes, Syncs, Stops};
ghost use Rattle.disk_core.specs.Unsynced.{IsLeft, fits, states_of};

use crate::failing::Failing;
use crate::unsynced::{Overwritten, Past, keep_range, leave, write_over};
use crate::{Disk, Pick};
use outside::Failed;
use std::alloc::Global;
use std::snapshot::Snapshot;

/// A disk in memory. It keeps the bytes that each write since the last sync overwrote, so that a stop can go back.
#[derive(Drop)]
pub struct MemDisk {
    alloc: Global,
    // what reads give
    bytes: Vec<u8>,
    // what was written since the last sync, the oldest first
    unsynced: Vec<Overwritten>,
    past: Past,
    pick: Pick,
    failing: Failing,
    ghost fit: { IsTrue (list_all (fits (length bytes.items)) unsynced.items) },
}

impl MemDisk {
    ghost use Rattle.disk_core.specs.MemDisk.{calls_of, listed_of, pick_of, content_of, state_of, with_pick};

    /// A disk that holds these bytes, which are stable. The calls with these numbers fail, counted from 1 over its
    /// reads, writes and syncs. A stop leaves what the pick says.
    pub fn new(alloc: Global, bytes: Vec<u8>, pick: Pick, fails: Vec<u64>) -> MemDisk
        ensures seen { (content_of result).seen ≡ bytes.items }
        ensures stable { Only (content_of result) }
        ensures size { ⟦<MemDisk as Disk>⟧.size result ≡ length bytes.items }
        ensures faults { ⟦<MemDisk as Disk>⟧.faults result ≡ 0 }
        ensures pick { pick_of result ≡ pick }
        ensures listed { listed_of result ≡ fails.items }
        ensures calls { calls_of result ≡ 0 }
    {
        MemDisk {
            alloc,
            bytes,
            unsynced: Vec::new(alloc),
            past: Past::Begun,
            pick,
            failing: Failing::new(fails),
        }
    }

    /// The same disk, of which a stop leaves what this pick says.
    pub fn with_pick(mut self, pick: Pick) -> MemDisk
        ensures { result ≡ with_pick pick self }
    {
        self.pick = pick;
        self
    }

    // The past of its next state: it as it is, and what it was before.
    fn moment(&self) -> Past
        ensures { states_of result ≡ state_of self.now ∷ states_of self.now.past }
    {
        Past::Then(
            Snapshot::of(&self.past),
            Snapshot::of(&self.bytes),
            Snapshot::of(&self.unsynced),
        )
    }
}

impl Disk for MemDisk {
    ghost use Rattle.disk_core.specs.MemDisk.{content_of, listed_of, calls_of, CountsCall, KeepsCalls, state_of, pick_of};
    ghost use Rattle.disk_core.specs.UnsyncedLaws.{length_fits};
    ghost use Rattle.std.proofs.Common.{refl};

    ghost tells = { Unit {0} };

    ghost content = { content_of };

    ghost size = { λ m. length m.bytes.items };

    ghost faults = { λ m. m.failing.faults };

    ghost bounded = { λ m. length_fits m.bytes };

    ghost whole = { λ m t. refl };

    fn size(&self) -> u64 {
        self.bytes.len() as u64
    }

    /// Fails exactly where the number of the call is listed.
    fn read(&mut self, at: u64, buf: &mut [u8]) -> Result<(), Failed>
        requires { at + length buf.old ≤ length self.old.bytes.items }
        ensures told { Unit {0} → Reads at buf.new result (content_of self.old) (content_of self.new) }
        ensures size { length self.new.bytes.items ≡ length self.old.bytes.items }
        ensures cause { HasCause self.old.failing.faults self.new.failing.faults result }
        ensures exact { IsErr result ↔ Contains (listed_of self.old) (calls_of self.new) }
        ensures counts { CountsCall self.old self.new }
    {
        if self.failing.fails() {
            return Err(Failed);
        }
        let at = at as usize;
        let end = at + buf.len();
        buf.copy_from_slice(&self.bytes[at..end]);
        Ok(())
    }

    /// Fails where the number of the call is listed, and then a stop may tear the range. It also fails for want of
    /// memory, and then nothing changes.
    fn write(&mut self, at: u64, bytes: &[u8]) -> Result<(), Failed>
        requires { at + length bytes.now ≤ length self.old.bytes.items }
        ensures told { Unit {0} → Writes at bytes.now result (content_of self.old) (content_of self.new) }
        ensures size { length self.new.bytes.items ≡ length self.old.bytes.items }
        ensures cause { HasCause self.old.failing.faults self.new.failing.faults result }
        ensures listed { Contains (listed_of self.old) (calls_of self.new) → IsErr result }
        ensures unlisted { IsErr result → Contains (listed_of self.old) (calls_of self.new) ⊎ (state_of self.new ≡ state_of self.old) }
        ensures counts { CountsCall self.old self.new }
    {
        let at = at as usize;
        let listed = self.failing.fails();
        let past = self.moment();
        let kept = keep_range(self.alloc, &mut self.unsynced, &self.bytes, at, bytes.len());
        let Ok(()) = kept else {
            self.failing.fault();
            return Err(Failed);
        };
        self.past = past;
        if listed {
            return Err(Failed);
        }
        write_over(&mut self.bytes, at, bytes);
        Ok(())
    }

    /// Fails exactly where the number of the call is listed.
    fn sync(&mut self) -> Result<(), Failed>
        ensures told { Unit {0} → Syncs result (content_of self.old) (content_of self.new) }
        ensures size { length self.new.bytes.items ≡ length self.old.bytes.items }
        ensures cause { HasCause self.old.failing.faults self.new.failing.faults result }
        ensures exact { IsErr result ↔ Contains (listed_of self.old) (calls_of self.new) }
        ensures counts { CountsCall self.old self.new }
    {
        if self.failing.fails() {
            return Err(Failed);
        }
        self.past = self.moment();
        self.unsynced.clear();
        Ok(())
    }

    /// Leaves what the pick says of the ranges that were written since the last sync.
    fn stopped(&mut self)
        ensures told { Unit {0} → Stops (content_of self.old) (content_of self.new) }
        ensures size { length self.new.bytes.items ≡ length self.old.bytes.items }
        ensures cause { self.old.failing.faults ≤ self.new.failing.faults }
        ensures left { IsLeft (pick_of self.old) (state_of self.old) (content_of self.new).seen }
        ensures kept { KeepsCalls self.old self.new }
    {
        leave(self.pick, &mut self.bytes, &mut self.unsynced);
        self.past = Past::Begun;
    }
}
