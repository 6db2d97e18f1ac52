//! A write that is made sure of.

ghost use Rattle.std.specs.Prelude.{◌≡◌, ◌+◌, ◌≤◌, length};
ghost use Rattle.outside.specs.Causes.{HasCause};
ghost use Rattle.disk_core.specs.Content.{Torn, WritesSynced};

use crate::Disk;
use outside::Failed;

/// Writes and syncs, in two calls of the disk. After a failure the bytes may stand there, or some of them, and a
/// stop may leave any bytes in the range; the rest of the disk stays.
pub fn write_synced<D: Disk>(disk: &mut D, at: u64, bytes: &[u8]) -> Result<(), Failed>
    requires { at + length bytes.now ≤ D.size disk.old }
    ensures told { D.tells → WritesSynced at bytes.now result (D.content disk.old) (D.content disk.new) }
    ensures outside { D.tells → Torn at (length bytes.now) (D.content disk.old).seen (D.content disk.new).seen }
    ensures size { D.size disk.new ≡ D.size disk.old }
    ensures cause { HasCause (D.faults disk.old) (D.faults disk.new) result }
{
    disk.write(at, bytes)?;
    disk.sync()
}
