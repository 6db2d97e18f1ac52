//! Bytes of the disk.

ghost use Rattle.std.specs.Prelude.{◌≡◌, ◌+◌, ◌-◌, ◌≤◌, length, take, drop, OnOk, IfOk, IsErrOf};
ghost use Rattle.outside.specs.Causes.{HasCause, Rose};
ghost use Rattle.disk_core.specs.Content.{ChangesBy, Same, range};
ghost use Rattle.part_log.specs.Scan.{IsHeld};

use crate::fault::ReadFault;
use blob_id::Memory;
use disk_core::Disk;
use outside::Failed;
use std::alloc::Global;

/// So many zeros.
fn zeros(alloc: Global, count: usize) -> Result<Vec<u8>, Memory>
    ensures { IfOk result (λ bytes. length bytes.items ≡ count) }
{
    Ok(vec![in alloc; 0u8; count]?)
}

/// Copies bytes to the front of a buffer.
fn put_front(buffer: &mut [u8], front: &[u8])
    requires { length front.now ≤ length buffer.old }
    ensures front { take (length front.now) buffer.new ≡ front.now }
    ensures length { length buffer.new ≡ length buffer.old }
{
    buffer[..front.len()].copy_from_slice(front);
}

/// A buffer of so many bytes, with these in its front.
fn buffer_of(alloc: Global, front: &[u8], count: usize) -> Result<Vec<u8>, Memory>
    requires { length front.now ≤ count }
    ensures front { IfOk result (λ buffer. take (length front.now) buffer.items ≡ front.now) }
    ensures length { IfOk result (λ buffer. length buffer.items ≡ count) }
{
    let mut buffer = zeros(alloc, count)?;
    put_front(&mut buffer, front);
    Ok(buffer)
}

/// Fills a buffer with the bytes from a place of the disk on. So many in its front are there already, and stay.
fn fill_behind<D: Disk>(
    disk: &mut D,
    place: u64,
    buffer: &mut [u8],
    known: usize,
) -> Result<(), Failed>
    requires inside { place + length buffer.old ≤ D.size disk.old }
    requires within { known ≤ length buffer.old }
    ensures during { D.tells → ChangesBy Same (D.content disk.old) (D.content disk.new) }
    ensures seen { D.tells → (D.content disk.new).seen ≡ (D.content disk.old).seen }
    ensures front { take known buffer.new ≡ take known buffer.old }
    ensures rest { OnOk result (D.tells → drop known buffer.new ≡ range (place + known) (length buffer.old - known) (D.content disk.old).seen) }
    ensures length { length buffer.new ≡ length buffer.old }
    ensures size { D.size disk.new ≡ D.size disk.old }
    ensures cause { HasCause (D.faults disk.old) (D.faults disk.new) result }
{
    disk.read(place + known as u64, &mut buffer[known..])
}

/// The bytes from a place of the disk on, `count` of them. The first ones are at hand, and aren't read again.
pub(crate) fn read_bytes<D: Disk>(
    alloc: Global,
    disk: &mut D,
    place: u64,
    front: &[u8],
    count: usize,
) -> Result<Vec<u8>, ReadFault>
    requires inside { place + count ≤ D.size disk.old }
    requires within { length front.now ≤ count }
    requires held { D.tells → IsHeld place front.now (D.content disk.old).seen }
    ensures during { D.tells → ChangesBy Same (D.content disk.old) (D.content disk.new) }
    ensures seen { D.tells → (D.content disk.new).seen ≡ (D.content disk.old).seen }
    ensures bytes { IfOk result (λ bytes. D.tells → bytes.items ≡ range place count (D.content disk.old).seen) }
    ensures length { IfOk result (λ bytes. length bytes.items ≡ count) }
    ensures failed { IsErrOf result ReadFault.Failed → Rose (D.faults disk.old) (D.faults disk.new) }
    ensures size { D.size disk.new ≡ D.size disk.old }
    ensures later { D.faults disk.old ≤ D.faults disk.new }
{
    let mut bytes = buffer_of(alloc, front, count)?;
    fill_behind(disk, place, &mut bytes, front.len())?;
    Ok(bytes)
}
