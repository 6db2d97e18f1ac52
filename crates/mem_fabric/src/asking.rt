//! What requests ask of a replica.

ghost use Rattle.std.specs.Prelude.{IfOk};
ghost use Rattle.mem_fabric.specs.Asking.{Reads};
ghost use Rattle.world_model.specs.Frames.{frame_in};

use blob_id::Memory;
use cell_model::Ask;
use node_core::read_request;
use std::alloc::Global;

/// What the frame of a request asks of a replica, and how it is answered.
#[derive(Drop)]
pub struct Question {
    pub correlation: u64,
    pub partition: u16,
    pub ask: Ask,
}

/// What bytes ask of a replica: none where they are no frame of a request.
pub fn question_in(alloc: Global, bytes: &[u8]) -> Result<Option<Question>, Memory>
    ensures { IfOk result (λ found. Reads (frame_in bytes.now) found) }
{
    match read_request(alloc, bytes)? {
        Some((correlation, partition, ask)) => Ok(Some(Question {
            correlation,
            partition,
            ask,
        })),
        None => Ok(None),
    }
}
