//! What a disk is, for the code above it.

ghost use Rattle.std.specs.Prelude.{◌≡◌, ◌+◌, ◌^◌, ◌<◌, ◌≤◌, ℕ, length};
ghost use Rattle.outside.specs.Causes.{HasCause};
ghost use Rattle.disk_core.specs.Content.{Content, Reads, Writes, Syncs, Stops};

use outside::Failed;

/// Bytes at places from 0 on, which a stop of the machine may leave torn.
///
/// A range that is read or written lies within the size. A read that fails leaves any bytes in its buffer.
pub trait Disk {
    /// Whether disks of this type tell what they hold. A file of the host doesn't.
    ghost tells: { Type 0 };

    /// What it tells.
    ghost content: { Self → Content };

    /// How many bytes it has, for ever.
    ghost size: { Self → ℕ };

    /// How often it has failed.
    ghost faults: { Self → ℕ };

    /// The number of its bytes.
    fn size(&self) -> u64
        ensures { result ≡ size self.now };

    /// Fills the buffer with the bytes from a place on.
    fn read(&mut self, at: u64, buf: &mut [u8]) -> Result<(), Failed>
        requires { at + length buf.old ≤ size self.old }
        ensures told { tells → Reads at buf.new result (content self.old) (content self.new) }
        ensures size { size self.new ≡ size self.old }
        ensures cause { HasCause (faults self.old) (faults self.new) result };

    /// Puts bytes from a place on. Until a sync, a stop may leave any bytes in that range, also where the write failed.
    fn write(&mut self, at: u64, bytes: &[u8]) -> Result<(), Failed>
        requires { at + length bytes.now ≤ size self.old }
        ensures told { tells → Writes at bytes.now result (content self.old) (content self.new) }
        ensures size { size self.new ≡ size self.old }
        ensures cause { HasCause (faults self.old) (faults self.new) result };

    /// Makes sure of all that was written.
    fn sync(&mut self) -> Result<(), Failed>
        ensures told { tells → Syncs result (content self.old) (content self.new) }
        ensures size { size self.new ≡ size self.old }
        ensures cause { HasCause (faults self.old) (faults self.new) result };

    /// What a stop of the machine does: one of the images is left.
    fn stopped(&mut self)
        ensures told { tells → Stops (content self.old) (content self.new) }
        ensures size { size self.new ≡ size self.old }
        ensures cause { faults self.old ≤ faults self.new };

    /// A place on it is a `u64`.
    ghost bounded: { (disk : Self) → size disk < 2 ^ 64 };

    /// It tells as many bytes as it has.
    ghost whole: { (disk : Self) → tells → length ((content disk).seen) ≡ size disk };
}
