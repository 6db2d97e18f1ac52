//! A disk in a file of the host. It tells nothing: that the file keeps the disk model is a premise and not proved.

ghost use Rattle.std.specs.Prelude.{◌≡◌, ◌+◌, ◌<◌, ◌≤◌, ◌^◌, ◌↔◌, length, true, false, IsOk, IsErr, IsSome};
ghost use Rattle.outside.specs.Causes.{HasCause};
ghost use Rattle.disk_core.specs.Content.{Reads, Writes, Syncs};
ghost use Rattle.disk_core.specs.DirtyRange.{Covers, Grows};
ghost use Rattle.disk_core.specs.Silent.{silent};

use crate::dirty_range::{DirtyRange, rewrite};
use crate::host_file::{Part, sync_file};
use crate::{Disk, FileFault};
use outside::Failed;
use std::fs::{File, OpenFile};
use std::io;
use std::os::unix::fs::FileExt;

/// A file of a fixed size.
///
/// After a sync that failed the system takes what was written for synced, and a later sync would succeed without it. So the
/// disk keeps the range that was written since the last sync that succeeded. A sync behind one that failed first reads that
/// range and writes it again.
#[derive(Drop)]
pub struct FileDisk<F: OpenFile + FileExt + Drop = File> {
    file: F,
    size: u64,
    dirty: DirtyRange,
    fault: Option<FileFault>,
    faults: u64,
    ghost small: { size < 2 ^ 64 },
}

impl<F: OpenFile + FileExt + Drop> FileDisk<F> {
    ghost use Rattle.disk_core.specs.FileDisk.{dirty_of, reason_of};

    /// A disk in this open file, which has this many bytes. What is in it may not have been synced.
    pub fn new(file: F, size: u64) -> FileDisk<F>
        ensures size { ⟦<FileDisk<F> as Disk>⟧.size result ≡ size }
        ensures faults { ⟦<FileDisk<F> as Disk>⟧.faults result ≡ 0 }
        ensures dirty { Covers (dirty_of result) 0 size }
    {
        FileDisk::with_dirty(file, size, DirtyRange::up_to(size))
    }

    /// A disk in an open file of which this range may not have been synced.
    pub fn with_dirty(file: F, size: u64, dirty: DirtyRange) -> FileDisk<F>
        ensures size { ⟦<FileDisk<F> as Disk>⟧.size result ≡ size }
        ensures faults { ⟦<FileDisk<F> as Disk>⟧.faults result ≡ 0 }
        ensures dirty { dirty_of result ≡ dirty }
    {
        FileDisk {
            file,
            size,
            dirty,
            fault: None,
            faults: 0,
        }
    }

    /// What of it isn't synced, which the system may take for synced once the file is closed.
    pub fn into_dirty(self) -> DirtyRange {
        self.dirty.left_behind()
    }

    /// Why the last call that failed did.
    pub fn last_fault(&self) -> Option<FileFault>
        ensures { result ≡ reason_of self.now }
    {
        self.fault
    }

    // The answer of a call of the system, whose error is a fault.
    fn answer(&mut self, done: io::Result<()>) -> Result<(), Failed>
        ensures exact { IsOk result ↔ IsOk done }
        ensures cause { HasCause self.old.faults self.new.faults result }
        ensures size { self.new.size ≡ self.old.size }
        ensures dirty { self.new.dirty ≡ self.old.dirty }
        ensures reason { IsErr result → IsSome self.new.fault }
    {
        match done {
            Ok(()) => Ok(()),
            Err(error) => {
                self.fault = Some(FileFault::of(&error));
                self.faults = self.faults.saturating_add(1);
                Err(Failed)
            }
        }
    }

    // Syncs the file, behind a sync that failed with the bytes that it was of.
    fn flush(&mut self) -> io::Result<()>
        ensures size { self.new.size ≡ self.old.size }
        ensures faults { self.new.faults ≡ self.old.faults }
        ensures clean { IsOk result → self.new.dirty.forgotten ≡ false }
        ensures dirty { IsErr result → self.new.dirty ≡ record self.old.dirty { forgotten = true } }
    {
        if self.dirty.forgotten {
            rewrite(&self.file, &self.dirty)?;
        }
        self.dirty.forgotten = true;
        sync_file(&self.file, Part::Bytes)?;
        self.dirty = DirtyRange::none();
        Ok(())
    }
}

impl<F: OpenFile + FileExt + Drop> Disk for FileDisk<F> {
    ghost use Rattle.disk_core.specs.FileDisk.{size_of, faults_of, dirty_of, reason_of};

    ghost tells = { ⊥ };

    ghost content = { λ _. silent };

    ghost size = { λ f. f.size };

    ghost faults = { λ f. f.faults };

    ghost bounded = { λ f. f.small };

    ghost whole = { λ f t. absurd t };

    fn size(&self) -> u64 {
        self.size
    }

    /// After a failure it can tell why.
    fn read(&mut self, at: u64, buf: &mut [u8]) -> Result<(), Failed>
        requires { at + length buf.old ≤ size_of self.old }
        ensures told { ⊥ → Reads at buf.new result silent silent }
        ensures size { size_of self.new ≡ size_of self.old }
        ensures cause { HasCause (faults_of self.old) (faults_of self.new) result }
        ensures dirty { dirty_of self.new ≡ dirty_of self.old }
        ensures reason { IsErr result → IsSome (reason_of self.new) }
    {
        let done = self.file.read_exact_at(buf, at);
        self.answer(done)
    }

    /// What is written isn't synced, also where the write fails.
    fn write(&mut self, at: u64, bytes: &[u8]) -> Result<(), Failed>
        requires { at + length bytes.now ≤ size_of self.old }
        ensures told { ⊥ → Writes at bytes.now result silent silent }
        ensures size { size_of self.new ≡ size_of self.old }
        ensures cause { HasCause (faults_of self.old) (faults_of self.new) result }
        ensures dirty { Covers (dirty_of self.new) at (at + length bytes.now) }
        ensures grows { Grows (dirty_of self.old) (dirty_of self.new) }
        ensures reason { IsErr result → IsSome (reason_of self.new) }
    {
        self.dirty.add(at, at + bytes.len() as u64);
        let done = self.file.write_all_at(bytes, at);
        self.answer(done)
    }

    /// Where it fails, the next one is behind another write of what wasn't synced.
    fn sync(&mut self) -> Result<(), Failed>
        ensures told { ⊥ → Syncs result silent silent }
        ensures size { size_of self.new ≡ size_of self.old }
        ensures cause { HasCause (faults_of self.old) (faults_of self.new) result }
        ensures clean { IsOk result → (dirty_of self.new).forgotten ≡ false }
        ensures dirty { IsErr result → dirty_of self.new ≡ record (dirty_of self.old) { forgotten = true } }
        ensures reason { IsErr result → IsSome (reason_of self.new) }
    {
        let done = self.flush();
        self.answer(done)
    }

    /// The file stays as it is.
    fn stopped(&mut self) {}
}
