//! Disks in files of the host.

ghost use Rattle.std.specs.Prelude.{◌≡◌, ◌≤◌, ℕ, List, Some, None, IsSome, IfOk, OnErr, IsErrOf};
ghost use Rattle.outside.specs.Causes.{Rose};
ghost use Rattle.disk_core.specs.FileBays.{faults_of, reason_of, untold_content, untold_home, untold_out};
ghost use Rattle.disk_core.specs.FileDisk.{size_of};
ghost use Rattle.disk_core.specs.FileDisk.{reason_of as disk_reason_of};
ghost use Rattle.disk_core.specs.Homes.{TakesOut, PutsHome, Stays, AnswersSize};

use crate::dirty_range::DirtyRange;
use crate::file_fault::FileRefusal;
use crate::file_folder::{hold_folder, make_file, open_file, sync_folder};
use crate::host_file::Lockable;
use crate::{BayFault, Bays, FileDisk, FileFault};
use std::alloc::Global;
use std::fs::OpenFile;
use std::io::ErrorKind;
use std::os::unix::fs::FileExt;
use std::rt::Files;

// A folder with its lock.
#[derive(Drop)]
struct HeldFolder<F: Drop> {
    name: String,
    _lock: F,
}

// A disk that was handed out before, and what of it may not have been synced when it was put home, where it was.
#[derive(Drop)]
struct OpenedDisk {
    folder: String,
    node: u32,
    partition: u32,
    dirty: Option<DirtyRange>,
}

impl OpenedDisk {
    fn is_at(&self, folder: &str, node: u32, partition: u32) -> bool {
        self.node == node && self.partition == partition && self.folder.as_str() == folder
    }

    fn is_out(&self, node: u32, partition: u32) -> bool {
        self.node == node && self.partition == partition && self.dirty.is_none()
    }
}

/// The disk of node N and partition P under a folder is the file `folder/nNpP`. Where there is none it is made of zeros and
/// synced under another name, and then renamed, so that a stop leaves no shorter one. A folder is made where there is none.
///
/// From the first opening in a folder on these bays hold its file `lock` for as long as they live, also while no disk is out:
/// what they know of the disks from before holds only where nobody else wrote to them since.
#[derive(Drop)]
pub struct FileBays<R: Files + Drop> {
    alloc: Global,
    files: R,
    folders: Vec<HeldFolder<R::File>>,
    opened: Vec<OpenedDisk>,
    fault: Option<FileFault>,
    faults: u64,
}

impl<R: Files + Drop> FileBays<R>
where
    R::File: FileExt + Lockable,
{
    /// Bays over these files.
    pub fn new(alloc: Global, files: R) -> FileBays<R>
        ensures { result.faults ≡ 0 }
    {
        FileBays {
            alloc,
            files,
            folders: Vec::new(alloc),
            opened: Vec::new(alloc),
            fault: None,
            faults: 0,
        }
    }

    /// Why the last opening that failed did, or the last disk that failed and was put home since.
    pub fn last_fault(&self) -> Option<FileFault>
        ensures { result ≡ reason_of self.now }
    {
        self.fault
    }

    // Holds a folder, once.
    fn hold(&mut self, folder: &str) -> Result<(), FileRefusal>
        ensures faults { self.new.faults ≡ self.old.faults }
    {
        if self.folders.iter().any(|held| held.name.as_str() == folder) {
            return Ok(());
        }
        let name = folder.to_string(self.alloc)?;
        let lock = hold_folder(self.alloc, &self.files, folder)?;
        self.folders.push(HeldFolder { name, _lock: lock })?;
        Ok(())
    }

    // What of a disk that was handed out before may not have been synced: where it is out still, any of its bytes.
    fn dirty_of(&self, folder: &str, node: u32, partition: u32, size: u64) -> Option<DirtyRange> {
        let disk = self
            .opened
            .iter()
            .find(|disk| disk.is_at(folder, node, partition))?;
        Some(disk.dirty.unwrap_or(DirtyRange::up_to(size)))
    }

    // Notes that a disk is out.
    fn note_out(&mut self, folder: &str, node: u32, partition: u32) -> Result<(), FileRefusal>
        ensures faults { self.new.faults ≡ self.old.faults }
    {
        let known = self
            .opened
            .iter()
            .position(|disk| disk.is_at(folder, node, partition));
        if let Some(index) = known {
            self.opened[index].dirty = None;
            return Ok(());
        }
        let folder = folder.to_string(self.alloc)?;
        self.opened.push(OpenedDisk {
            folder,
            node,
            partition,
            dirty: None,
        })?;
        Ok(())
    }

    // The disk of a place. Its name is synced also where it was there: a process that made it may have ended before its sync.
    fn disk_at(
        &mut self,
        folder: &str,
        node: u32,
        partition: u32,
        size: u64,
    ) -> Result<FileDisk<R::File>, FileRefusal>
        ensures size { IfOk result (λ disk. size_of disk ≡ size) }
        ensures faults { self.new.faults ≡ self.old.faults }
    {
        self.hold(folder)?;
        let known = self.dirty_of(folder, node, partition, size);
        let path = format!(in self.alloc; "{folder}/n{node}p{partition}")?;
        let (file, dirty) = match open_file(&self.files, path.as_str()) {
            Ok(file) => (
                of_size(file, size)?,
                known.unwrap_or(DirtyRange::up_to(size)),
            ),
            Err(error) if error.kind() == ErrorKind::NotFound => {
                if known.is_some() {
                    return Err(FileRefusal::Fault(FileFault::Gone));
                }
                (
                    make_file(self.alloc, &self.files, path.as_str(), size)?,
                    DirtyRange::none(),
                )
            }
            Err(error) => return Err(FileRefusal::from(error)),
        };
        sync_folder(&self.files, folder)?;
        self.note_out(folder, node, partition)?;
        Ok(FileDisk::with_dirty(file, size, dirty))
    }

    // The answer to an opening that was refused. A fault is counted.
    fn refused(&mut self, refusal: FileRefusal) -> BayFault
        ensures rose { result ≡ BayFault.Failed → Rose self.old.faults self.new.faults }
        ensures later { self.old.faults ≤ self.new.faults }
        ensures reason { result ≡ BayFault.Failed → IsSome self.new.fault }
    {
        match refusal {
            FileRefusal::Fault(fault) => {
                self.fault = Some(fault);
                self.faults = self.faults.saturating_add(1);
                BayFault::Failed
            }
            FileRefusal::OtherSize(bytes) => BayFault::OtherSize(bytes),
            FileRefusal::Memory => BayFault::Memory,
        }
    }
}

// A file that was there, where it has this size.
fn of_size<F: OpenFile + Drop>(file: F, size: u64) -> Result<F, FileRefusal> {
    let known = file.metadata()?.len();
    if known == size {
        Ok(file)
    } else {
        Err(FileRefusal::OtherSize(known))
    }
}

impl<R: Files + Drop> Bays for FileBays<R>
where
    R::File: FileExt + Lockable,
{
    type Disk = FileDisk<R::File>;

    ghost tells = { ⊥ };

    ghost home = { untold_home };

    ghost out = { untold_out };

    ghost faults = { faults_of };

    ghost same = { λ _ _. Unit {0} };

    /// After a failure they can tell why.
    fn open(
        &mut self,
        folder: &str,
        node: u32,
        partition: u32,
        size: u64,
    ) -> Result<FileDisk<R::File>, BayFault>
        ensures taken { IfOk result (λ disk. ⊥ → TakesOut ⊥ untold_content size_of folder.now node partition size disk (untold_home self.old) (untold_out self.old) (untold_home self.new) (untold_out self.new)) }
        ensures size { IfOk result (λ disk. size_of disk ≡ size) }
        ensures refused { OnErr result (⊥ → Stays (untold_home self.old) (untold_out self.old) (untold_home self.new) (untold_out self.new)) }
        ensures other_size { ⊥ → AnswersSize ⊥ untold_content size_of (untold_home self.old folder.now node partition) size result }
        ensures is_out { ⊥ → IsSome (untold_out self.old node partition) → IsErrOf result BayFault.Failed }
        ensures failed { IsErrOf result BayFault.Failed → Rose (faults_of self.old) (faults_of self.new) }
        ensures later { faults_of self.old ≤ faults_of self.new }
        ensures same { Unit {0} }
        ensures reason { IsErrOf result BayFault.Failed → IsSome (reason_of self.new) }
    {
        match self.disk_at(folder, node, partition, size) {
            Ok(disk) => Ok(disk),
            Err(refusal) => Err(self.refused(refusal)),
        }
    }

    /// What of the disk wasn't synced is written again before its next sync.
    fn give_back(&mut self, node: u32, partition: u32, disk: FileDisk<R::File>)
        requires { ⊥ → IsSome (untold_out self.old node partition) }
        ensures home { ⊥ → (folder : List ℕ) → untold_out self.old node partition ≡ Some folder → PutsHome ⊥ untold_content size_of folder node partition disk (untold_home self.old) (untold_out self.old) (untold_home self.new) (untold_out self.new) }
        ensures faults { faults_of self.new ≡ faults_of self.old }
        ensures same { Unit {0} }
        ensures reason { IsSome (disk_reason_of disk) → reason_of self.new ≡ disk_reason_of disk }
        ensures reason_kept { disk_reason_of disk ≡ None → reason_of self.new ≡ reason_of self.old }
    {
        if let Some(fault) = disk.last_fault() {
            self.fault = Some(fault);
        }
        let known = self
            .opened
            .iter()
            .position(|disk| disk.is_out(node, partition));
        if let Some(index) = known {
            self.opened[index].dirty = Some(disk.into_dirty());
        }
    }

    ghost known = { λ t. t };

    ghost same_self = { λ a. tt };

    ghost same_on = { λ a b c p q. tt };
}
