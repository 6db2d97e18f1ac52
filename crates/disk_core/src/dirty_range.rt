//! What of a file may not have reached its device.

ghost use Rattle.std.specs.Prelude.{◌≡◌, false};
ghost use Rattle.disk_core.specs.DirtyRange.{Covers, Grows};

use std::io;
use std::os::unix::fs::FileExt;

/// How many bytes are read and written again at once.
const PIECE: usize = 4_096;

/// The bytes of a file that were written since the last sync that succeeded lie from one place up to another one.
#[derive(Clone, Copy, Debug, PartialEq, Eq)]
pub struct DirtyRange {
    pub from: u64,
    pub to: u64,
    /// Whether the system may take these bytes for synced, and write them no more. So it does after a sync that failed.
    pub forgotten: bool,
}

impl DirtyRange {
    /// Nothing was written. It begins behind each place, so that a range that is added begins where that one does.
    pub fn none() -> DirtyRange
        ensures { result.forgotten ≡ false }
    {
        DirtyRange {
            from: u64::MAX,
            to: 0,
            forgotten: false,
        }
    }

    /// So many bytes from the file's begin on.
    pub fn up_to(to: u64) -> DirtyRange
        ensures { Covers result 0 to }
    {
        DirtyRange {
            from: 0,
            to,
            forgotten: false,
        }
    }

    pub fn is_empty(&self) -> bool {
        self.from >= self.to
    }

    /// The range behind an event after which the system may have forgotten it.
    pub fn left_behind(self) -> DirtyRange
        ensures { (result.from ≡ self.from) × (result.to ≡ self.to) }
    {
        DirtyRange {
            forgotten: !self.is_empty(),
            ..self
        }
    }

    /// Takes in the bytes from one place up to another one, too.
    pub fn add(&mut self, from: u64, to: u64)
        ensures added { Covers self.new from to }
        ensures grows { Grows self.old self.new }
    {
        if from >= to {
            return;
        }
        self.from = self.from.min(from);
        self.to = self.to.max(to);
    }
}

/// Reads the bytes of a range and writes them again, so that the next sync is of them.
pub fn rewrite<F: FileExt>(file: &F, range: &DirtyRange) -> io::Result<()> {
    let mut piece = [0; PIECE];
    let mut at = range.from;
    for _ in range.from..range.to {
        if at >= range.to {
            return Ok(());
        }
        let count = (range.to - at).min(PIECE as u64);
        rewrite_piece(file, &mut piece[..count as usize], at)?;
        at += count;
    }
    Ok(())
}

fn rewrite_piece<F: FileExt>(file: &F, piece: &mut [u8], at: u64) -> io::Result<()> {
    file.read_exact_at(piece, at)?;
    file.write_all_at(piece, at)
}
