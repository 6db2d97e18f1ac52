//! Spelling the requests of a put.

ghost use Rattle.std.specs.Prelude.{◌≡◌, Some, IfOk};
ghost use Rattle.blob_id.specs.Blob.{IsBlob};
ghost use Rattle.blob_id.specs.Id.{partition_of};
ghost use Rattle.put_op.specs.Standing.{blob_in};
ghost use Rattle.req_frame.specs.Reading.{frame_of};
ghost use Rattle.req_frame.specs.declared.frame.Body.TheVariants.{Put};

use blob_id::{Blob, BlobId, Bytes, Memory};
use req_frame::{Body, Frame, encode};
use std::alloc::Global;
use std::mem;

/// The bytes of the frame that asks to store a blob under an id. The blob isn't copied before: it is moved into the frame, and back.
pub fn spell_put(
    alloc: Global,
    id: BlobId,
    blob: &mut Blob,
    correlation: u64,
) -> Result<Bytes, Memory>
    requires { IsBlob blob.old }
    ensures same { blob.new ≡ blob.old }
    ensures spelled { IfOk result (λ bytes. frame_of bytes ≡ Some (record { correlation = correlation; partition = partition_of id; body = Put id blob.old })) }
{
    let empty = Blob {
        created: 0,
        ctype: Bytes::new(alloc),
        meta: Bytes::new(alloc),
        body: Bytes::new(alloc),
    };
    let taken = mem::replace(blob, empty);
    let frame = Frame {
        correlation,
        partition: id.partition(),
        body: Body::Put(id, taken),
    };
    let bytes = encode(alloc, &frame);
    if let Some(taken) = blob_in(frame) {
        *blob = taken;
    }
    bytes
}

/// The blob that a frame asks to store.
fn blob_in(frame: Frame) -> Option<Blob>
    ensures { result ≡ blob_in frame.body }
{
    match frame.body {
        Body::Put(_, blob) => Some(blob),
        Body::Get(_)
        | Body::Peek(_)
        | Body::Delete(_, _)
        | Body::Find(_, _)
        | Body::Fetch(_)
        | Body::Answer(_) => None,
    }
}
