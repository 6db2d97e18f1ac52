//! Marks: the places of some of a log's records, so that a page begins near its first one.

ghost use Rattle.std.specs.Prelude.{◌≡◌, ◌⊎◌, ◌++◌, ◌∷◌, [], ◌≤◌, IfSome};
ghost use Rattle.part_log.specs.Marks.{IsOneOf, NotesMark};

use blob_id::Memory;
use std::alloc::Global;

/// Of so many records one has a mark.
const SPACING: u8 = 64;

/// Where a record stands.
#[derive(Clone, Copy, Debug, PartialEq, Eq)]
pub(crate) struct Mark {
    pub(crate) lsn: u64,
    /// The place of its gate on the disk.
    pub(crate) place: u64,
}

/// The marks of a log.
#[derive(Debug, Drop)]
pub(crate) struct Marks {
    /// They stand in log order.
    pub(crate) list: Vec<Mark>,
    /// How many records come before the next one that has a mark.
    passes: u8,
}

impl Marks {
    pub(crate) fn new(alloc: Global) -> Marks
        ensures none { result.list.items ≡ [] }
    {
        Marks {
            list: Vec::new(alloc),
            passes: 0,
        }
    }

    /// Makes room for the mark of the next record, if it has one.
    pub(crate) fn reserve(&mut self) -> Result<(), Memory>
        ensures { self.new.list.items ≡ self.old.list.items }
    {
        if self.passes == 0 {
            self.list.reserve(1)?;
        }
        Ok(())
    }

    /// Notes the record that comes next: each 64th one has a mark. A refusal leaves the mark to the record behind it.
    pub(crate) fn note(&mut self, lsn: u64, place: u64) -> Result<(), Memory>
        ensures { NotesMark lsn place self.old.list.items self.new.list.items }
    {
        if self.passes > 0 {
            self.passes -= 1;
            return Ok(());
        }
        self.list.push(Mark { lsn, place })?;
        self.passes = SPACING - 1;
        Ok(())
    }

    /// The last mark whose record doesn't lie above an lsn.
    pub(crate) fn last_to(&self, lsn: u64) -> Option<Mark>
        ensures among { IfSome result (λ mark. IsOneOf mark self.now.list.items) }
        ensures below { IfSome result (λ mark. mark.lsn ≤ lsn) }
    {
        let count = self.list.partition_point(|mark| mark.lsn <= lsn);
        if count == 0 {
            return None;
        }
        let mark = self.list[count - 1];
        if mark.lsn <= lsn { Some(mark) } else { None }
    }
}
