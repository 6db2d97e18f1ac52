//! The places of bays in memory.

ghost use Rattle.std.specs.Prelude.{◌≡◌, None, Some, [], length, IfOk, IfErr, IsSome};
ghost use Rattle.std.specs.List.{position};
ghost use Rattle.std.specs.String.{string_bytes};
ghost use Rattle.disk_core.specs.Content.{IsNewContent};
ghost use Rattle.disk_core.specs.MemDisk.{content_of, pick_of, listed_of, size_of};
ghost use Rattle.disk_core.specs.Places.{is_at, is_out, TakenFrom, KeepsOther};

use crate::{Disk, MemDisk, Pick};
use blob_id::Memory;
use std::alloc::Global;

/// Where a disk belongs, and the disk where it isn't out.
#[derive(Drop)]
pub struct Place {
    pub folder: String,
    pub node: u32,
    pub partition: u32,
    pub disk: Option<MemDisk>,
}

impl Place {
    /// The place of a disk that is out.
    pub fn without_disk(
        alloc: Global,
        folder: &str,
        node: u32,
        partition: u32,
    ) -> Result<Place, Memory>
        ensures folder { IfOk result (λ place. string_bytes place.folder ≡ folder.now) }
        ensures rest { IfOk result (λ place. (place.node ≡ node) × (place.partition ≡ partition) × (place.disk ≡ None)) }
    {
        let folder = folder.to_string(alloc)?;
        Ok(Place {
            folder,
            node,
            partition,
            disk: None,
        })
    }

    /// Whether it is the place of this folder, node and partition.
    pub fn is_at(&self, folder: &str, node: u32, partition: u32) -> bool
        ensures { result ≡ is_at folder.now node partition self.now }
    {
        self.node == node && self.partition == partition && self.folder.as_str() == folder
    }

    /// Whether it is of this node and this partition, and its disk is out.
    pub fn is_out(&self, node: u32, partition: u32) -> bool
        ensures { result ≡ is_out node partition self.now }
    {
        self.node == node && self.partition == partition && self.disk.is_none()
    }

    /// Takes the disk out, where it has this size. Else it stays, and the answer is its size.
    pub fn take_out(&mut self, size: u64) -> Result<MemDisk, u64>
        requires { IsSome self.old.disk }
        ensures taken { IfOk result (λ disk. TakenFrom size disk self.old self.new) }
        ensures other { IfErr result (λ bytes. KeepsOther size bytes self.old self.new) }
    {
        let disk = self.disk.take().unwrap();
        let bytes = disk.size();
        if bytes == size {
            return Ok(disk);
        }
        self.disk = Some(disk);
        Err(bytes)
    }
}

/// The first place of this folder, node and partition.
pub fn find_place(places: &[Place], folder: &str, node: u32, partition: u32) -> Option<usize>
    ensures { result ≡ position (is_at folder.now node partition) places.now }
{
    places
        .iter()
        .position(|place| place.is_at(folder, node, partition))
}

/// The first place of this node and this partition whose disk is out.
pub fn find_out(places: &[Place], node: u32, partition: u32) -> Option<usize>
    ensures { result ≡ position (is_out node partition) places.now }
{
    places
        .iter()
        .position(|place| place.is_out(node, partition))
}

/// A new disk of zeros, with no call that is listed to fail.
pub fn new_disk(alloc: Global, pick: Pick, size: u64) -> Result<MemDisk, Memory>
    ensures zeros { IfOk result (λ disk. IsNewContent size (content_of disk)) }
    ensures size { IfOk result (λ disk. size_of disk ≡ size) }
    ensures pick { IfOk result (λ disk. pick_of disk ≡ pick) }
    ensures listed { IfOk result (λ disk. listed_of disk ≡ []) }
{
    let bytes = vec![in alloc; 0u8; size as usize]?;
    Ok(MemDisk::new(alloc, bytes, pick, Vec::new(alloc)))
}
