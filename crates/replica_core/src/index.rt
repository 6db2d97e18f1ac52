//! Which record of each id is noted, and where it stands.

ghost use Rattle.std.specs.Prelude.{◌≡◌, ◌≢◌, ℕ, List, Some, None, OnOk, OnErr, IfOk};
ghost use Rattle.std.specs.Ordering.{nat_cmp};
ghost use Rattle.std.specs.Cmp.Lexicographic.{slice_cmp};
ghost use Rattle.std.specs.BTreeMap.{IsOrdered};
ghost use Rattle.replica_core.specs.Index.{Notes, SetsEntry, noted_behind, entry_at, kept_len};

use blob_id::{BlobId, Memory};
use part_log::{Collect, Found};
use std::alloc::Global;
use std::collections::BTreeMap;

/// Where the record stands that is noted of an id: its newest delete, or else its first put.
#[derive(Clone, Copy, Debug, PartialEq, Eq)]
pub(crate) struct IndexEntry {
    /// The place of its gate on the disk.
    pub(crate) place: u64,
    /// How many bytes spell it, its gate among them.
    pub(crate) len: u32,
    /// Whether it is a delete.
    pub(crate) gone: bool,
}

/// Sets the entry of an id, and answers the one before. A refusal changes nothing.
pub(crate) fn reserve(
    index: &mut BTreeMap<BlobId, IndexEntry>,
    id: BlobId,
    entry: IndexEntry,
) -> Result<Option<IndexEntry>, Memory>
    ensures before { IfOk result (λ before. before ≡ entry_at index.old.entries id) }
    ensures set { OnOk result (SetsEntry id (Some entry) index.old.entries index.new.entries) }
    ensures err { OnErr result (index.new.entries ≡ index.old.entries) }
    ensures ordered { IsOrdered (slice_cmp nat_cmp) index.old }
{
    match index.insert(id, entry) {
        Ok(before) => Ok(before),
        Err(_) => Err(Memory),
    }
}

/// Sets the entry of an id that has one. It takes no memory, since only a new id does.
pub(crate) fn settle(index: &mut BTreeMap<BlobId, IndexEntry>, id: BlobId, entry: IndexEntry)
    requires { entry_at index.old.entries id ≢ None }
    ensures set { SetsEntry id (Some entry) index.old.entries index.new.entries }
    ensures ordered { IsOrdered (slice_cmp nat_cmp) index.new }
{
    let _ = index.insert(id, entry);
}

/// Gives an id that has an entry the one from before again, or none.
pub(crate) fn restore(
    index: &mut BTreeMap<BlobId, IndexEntry>,
    id: BlobId,
    before: Option<IndexEntry>,
)
    requires { entry_at index.old.entries id ≢ None }
    ensures set { SetsEntry id before index.old.entries index.new.entries }
    ensures ordered { IsOrdered (slice_cmp nat_cmp) index.new }
{
    match before {
        Some(entry) => settle(index, id, entry),
        None => {
            index.remove(&id);
        }
    }
}

/// The length of a record as an index keeps it. A record of a log is no longer than a segment, 2^24 bytes at most, and
/// its length is kept as it is.
pub(crate) fn kept_len(len: usize) -> u32
    ensures { result ≡ kept_len len }
{
    len.min(u32::MAX as usize) as u32
}

/// What is noted of an id.
fn entry_at(index: &BTreeMap<BlobId, IndexEntry>, id: &BlobId) -> Option<IndexEntry>
    ensures { result ≡ entry_at index.now.entries id.now }
{
    index.get(id).copied()
}

/// What is noted of the id of a record behind what was noted of it: a put leaves what stands in front of it.
fn noted_behind(found: &Found, before: Option<IndexEntry>) -> IndexEntry
    ensures { Some result ≡ noted_behind found.now before }
{
    match before {
        Some(entry) if !found.head.gone => entry,
        _ => IndexEntry {
            place: found.place,
            len: kept_len(found.head.len),
            gone: found.head.gone,
        },
    }
}

/// The index of the records that an opening found so far.
#[derive(Debug, Drop)]
pub(crate) struct Index {
    pub(crate) by_id: BTreeMap<BlobId, IndexEntry>,
}

impl Index {
    pub(crate) fn new(alloc: Global) -> Index
        ensures { (id : List ℕ) → entry_at result.by_id.entries id ≡ None }
    {
        Index {
            by_id: BTreeMap::new(alloc),
        }
    }
}

impl Collect for Index {
    ghost use Rattle.replica_core.specs.Index.{Notes};

    ghost takes = { λ old found new. Notes old.by_id.entries found new.by_id.entries };

    /// Notes a record behind those that were noted: a delete stays, and else the first put does.
    fn take(&mut self, found: Found) -> Result<(), Memory>
        ensures taken { OnOk result (Notes self.old.by_id.entries found self.new.by_id.entries) }
    {
        let before = entry_at(&self.by_id, &found.head.id);
        let entry = noted_behind(&found, before);
        reserve(&mut self.by_id, found.head.id, entry)?;
        Ok(())
    }
}
