//! Spelling requests.

ghost use Rattle.std.specs.Prelude.{◌≡◌, Some, IfOk};
ghost use Rattle.blob_id.specs.Id.{partition_of};
ghost use Rattle.req_frame.specs.Reading.{frame_of};
ghost use Rattle.req_frame.specs.declared.frame.Body.TheVariants.{Delete};

use blob_id::{BlobId, Bytes, Memory};
use req_frame::{Body, Frame, encode};
use std::alloc::Global;

/// The bytes of the frame that asks for the delete of an id at a moment, in ms.
pub fn spell_delete(alloc: Global, id: BlobId, at: u64, correlation: u64) -> Result<Bytes, Memory>
    ensures { IfOk result (λ bytes. frame_of bytes ≡ Some (record { correlation = correlation; partition = partition_of id; body = Delete id at })) }
{
    let frame = Frame {
        correlation,
        partition: id.partition(),
        body: Body::Delete(id, at),
    };
    encode(alloc, &frame)
}
