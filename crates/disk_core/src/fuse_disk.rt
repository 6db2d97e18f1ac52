//! A disk that passes some calls, and fails every later one until it is stopped.

ghost use Rattle.std.specs.Prelude.{◌≡◌, ◌+◌, ◌≤◌, ◌↔◌, length, IsErr};
ghost use Rattle.outside.specs.Causes.{HasCause, Rose};
ghost use Rattle.disk_core.specs.Content.{Reads, Writes, Syncs, Stops};
ghost use Rattle.disk_core.specs.Fuse.{after_call, IsWhole};
ghost use Rattle.disk_core.specs.FuseDisk.{disk_of, fuse_of, faults_of};

use crate::Disk;
use outside::Failed;

/// Which of the coming calls fail.
#[derive(Clone, Copy, Debug, PartialEq, Eq)]
pub enum Fuse {
    /// None.
    Absent,
    /// Every one after so many.
    Passes(u64),
    /// Every one, since one has failed.
    Blown,
}

/// A disk whose reads, writes and syncs are passed to another disk as long as the fuse is whole. The call that blows
/// it fails, and so does every later one until the disk is stopped. Where a write blows it, the write still reaches
/// the disk below, and a stop may tear it; no later call reaches that disk.
#[derive(Drop)]
pub struct FuseDisk<D: Disk> {
    disk: D,
    fuse: Fuse,
    faults: u64,
}

impl<D: Disk> FuseDisk<D> {
    /// A disk that passes this many calls before the fuse blows.
    pub fn new(disk: D, passes: u64) -> FuseDisk<D>
        ensures disk { disk_of result ≡ disk }
        ensures fuse { fuse_of result ≡ Fuse.Passes passes }
        ensures faults { faults_of D.faults result ≡ D.faults disk }
    {
        FuseDisk {
            disk,
            fuse: Fuse::Passes(passes),
            faults: 0,
        }
    }

    /// A disk that passes all calls.
    pub fn without_fuse(disk: D) -> FuseDisk<D>
        ensures disk { disk_of result ≡ disk }
        ensures fuse { fuse_of result ≡ Fuse.Absent }
        ensures faults { faults_of D.faults result ≡ D.faults disk }
    {
        FuseDisk {
            disk,
            fuse: Fuse::Absent,
            faults: 0,
        }
    }

    /// The disk below.
    pub fn into_inner(self) -> D
        ensures { result ≡ disk_of self }
    {
        let FuseDisk {
            disk,
            fuse: _,
            faults: _,
        } = self;
        disk
    }

    // Counts a call, which is a fault where the fuse isn't whole.
    fn call(&mut self) -> Result<(), Failed>
        ensures disk { self.new.disk ≡ self.old.disk }
        ensures fuse { self.new.fuse ≡ after_call self.old.fuse }
        ensures whole { IsErr result ↔ (IsWhole self.old.fuse → ⊥) }
        ensures cause { HasCause self.old.faults self.new.faults result }
    {
        match self.fuse {
            Fuse::Absent => return Ok(()),
            Fuse::Passes(0) | Fuse::Blown => self.fuse = Fuse::Blown,
            Fuse::Passes(passes) => {
                self.fuse = Fuse::Passes(passes - 1);
                return Ok(());
            }
        }
        self.faults = self.faults.saturating_add(1);
        Err(Failed)
    }
}

impl<D: Disk> Disk for FuseDisk<D> {
    ghost tells = { D.tells };

    ghost content = { λ f. D.content f.disk };

    ghost size = { λ f. D.size f.disk };

    ghost faults = { λ f. D.faults f.disk + f.faults };

    ghost bounded = { λ f. D.bounded f.disk };

    ghost whole = { λ f. D.whole f.disk };

    fn size(&self) -> u64 {
        self.disk.size()
    }

    /// Where the fuse isn't whole it fails, and the disk below stays. Else it fails only where that disk does.
    fn read(&mut self, at: u64, buf: &mut [u8]) -> Result<(), Failed>
        requires { at + length buf.old ≤ D.size (disk_of self.old) }
        ensures told { D.tells → Reads at buf.new result (D.content (disk_of self.old)) (D.content (disk_of self.new)) }
        ensures size { D.size (disk_of self.new) ≡ D.size (disk_of self.old) }
        ensures cause { HasCause (faults_of D.faults self.old) (faults_of D.faults self.new) result }
        ensures fuse { fuse_of self.new ≡ after_call (fuse_of self.old) }
        ensures passed { IsWhole (fuse_of self.old) → HasCause (D.faults (disk_of self.old)) (D.faults (disk_of self.new)) result }
        ensures blown { (IsWhole (fuse_of self.old) → ⊥) → IsErr result × (disk_of self.new ≡ disk_of self.old) }
    {
        self.call()?;
        self.disk.read(at, buf)
    }

    /// The write that blows the fuse is handed on, and fails whatever the disk below answers. A later one fails and
    /// the disk below stays.
    fn write(&mut self, at: u64, bytes: &[u8]) -> Result<(), Failed>
        requires { at + length bytes.now ≤ D.size (disk_of self.old) }
        ensures told { D.tells → Writes at bytes.now result (D.content (disk_of self.old)) (D.content (disk_of self.new)) }
        ensures size { D.size (disk_of self.new) ≡ D.size (disk_of self.old) }
        ensures cause { HasCause (faults_of D.faults self.old) (faults_of D.faults self.new) result }
        ensures fuse { fuse_of self.new ≡ after_call (fuse_of self.old) }
        ensures passed { IsWhole (fuse_of self.old) → HasCause (D.faults (disk_of self.old)) (D.faults (disk_of self.new)) result }
        ensures blows { (IsWhole (fuse_of self.old) → ⊥) → IsErr result }
        ensures blown { fuse_of self.old ≡ Fuse.Blown → disk_of self.new ≡ disk_of self.old }
    {
        let blows = self.fuse == Fuse::Passes(0);
        if let Err(failed) = self.call() {
            if blows {
                let _ = self.disk.write(at, bytes);
            }
            return Err(failed);
        }
        self.disk.write(at, bytes)
    }

    /// Where the fuse isn't whole it fails, and the disk below stays. Else it fails only where that disk does.
    fn sync(&mut self) -> Result<(), Failed>
        ensures told { D.tells → Syncs result (D.content (disk_of self.old)) (D.content (disk_of self.new)) }
        ensures size { D.size (disk_of self.new) ≡ D.size (disk_of self.old) }
        ensures cause { HasCause (faults_of D.faults self.old) (faults_of D.faults self.new) result }
        ensures fuse { fuse_of self.new ≡ after_call (fuse_of self.old) }
        ensures passed { IsWhole (fuse_of self.old) → HasCause (D.faults (disk_of self.old)) (D.faults (disk_of self.new)) result }
        ensures blown { (IsWhole (fuse_of self.old) → ⊥) → IsErr result × (disk_of self.new ≡ disk_of self.old) }
    {
        self.call()?;
        self.disk.sync()
    }

    /// From then on all calls are passed.
    fn stopped(&mut self)
        ensures told { D.tells → Stops (D.content (disk_of self.old)) (D.content (disk_of self.new)) }
        ensures size { D.size (disk_of self.new) ≡ D.size (disk_of self.old) }
        ensures cause { faults_of D.faults self.old ≤ faults_of D.faults self.new }
        ensures fuse { fuse_of self.new ≡ Fuse.Absent }
    {
        self.fuse = Fuse::Absent;
        self.disk.stopped();
    }
}
