//! Two nodes over disks in memory, of which that of node 1 fails.

ghost use Rattle.std.specs.Prelude.{IfOk, IsSome};
ghost use Rattle.blob_id.specs.Blob.{IsBlob};

use super::*;
use blob_id::{Blob, BlobId, Bytes, Kind, Memory};
use cell_model::{Ask, Reply};
use disk_core::{Bays, Disk, FuseBays, MemBays, Pick, PlacedFuse};
use std::alloc::Global;
use std::process::Abort;
use std::test::Fail;
use world_model::{LogNumbers, Shape};

/// What a node says, with the length of its blob's body.
#[derive(Clone, Copy, Debug, PartialEq)]
enum Answer {
    Stored,
    There,
    Blob(usize),
    Absent,
    Fault,
    Down,
    NoPartition,
    Opened,
    Other,
}

fn answer_of(reply: &Reply) -> Answer {
    match reply {
        Reply::Stored => Answer::Stored,
        Reply::There => Answer::There,
        Reply::Blob(blob) => Answer::Blob(blob.body.len()),
        Reply::Absent => Answer::Absent,
        Reply::Fault => Answer::Fault,
        Reply::Down => Answer::Down,
        Reply::NoPartition => Answer::NoPartition,
        _ => Answer::Other,
    }
}

/// What is asked of a node, by its number: of one blob, or that it is stopped and started again.
#[derive(Clone, Copy)]
enum Step {
    Put(u32),
    Get(u32),
    Peek(u32),
    Stop(u32),
    Restart(u32),
}

fn id() -> BlobId {
    BlobId::draw(Kind::Simple, 0, 0, 1)
}

/// A blob of three bytes.
fn blob(alloc: Global) -> Result<Blob, Memory>
    ensures { IfOk result (λ blob. IsBlob blob) }
{
    let body = vec![in alloc; 7u8; 3]?;
    Ok(Blob {
        created: 5,
        ctype: Bytes::new(alloc),
        meta: Bytes::new(alloc),
        body: Bytes::from_vec(body),
    })
}

/// Stops a node, and opens its replicas again.
fn restart<B: Bays>(nodes: &mut LabNodes<B>, node: u32) -> Answer
where
    B::Disk: Drop,
    requires open { IsSome nodes.old.shape }
    ensures open { IsSome nodes.new.shape }
{
    nodes.stop(node);
    match nodes.restart(node) {
        Ok(()) => Answer::Opened,
        Err(_) => Answer::Other,
    }
}

/// What the nodes answer to a step.
fn answer_to<B: Bays>(alloc: Global, nodes: &mut LabNodes<B>, step: Step) -> Result<Answer, Memory>
where
    B::Disk: Drop,
    requires open { IsSome nodes.old.shape }
    ensures open { IsSome nodes.new.shape }
{
    match step {
        Step::Put(node) => {
            let blob = blob(alloc)?;
            Ok(answer_of(&nodes.ask(node, 0, Ask::Put { id: id(), blob })))
        }
        Step::Get(node) => Ok(answer_of(&nodes.ask(node, 0, Ask::Get { id: id() }))),
        Step::Peek(node) => match nodes.replica(node, 0) {
            Some(replica) => Ok(answer_of(&replica.peek(&id()))),
            None => Ok(Answer::NoPartition),
        },
        Step::Stop(node) => {
            nodes.stop(node);
            Ok(Answer::Other)
        }
        Step::Restart(node) => Ok(restart(nodes, node)),
    }
}

/// The disk of node 1 fails at the first put: it alone is down until it is opened again, and node 2 goes on.
const STEPS: [(Step, Answer); 17] = [
    (Step::Put(1), Answer::Fault),
    (Step::Put(2), Answer::Stored),
    (Step::Get(1), Answer::Down),
    (Step::Peek(1), Answer::Down),
    (Step::Get(2), Answer::Blob(3)),
    (Step::Get(3), Answer::NoPartition),
    (Step::Stop(1), Answer::Other),
    (Step::Get(1), Answer::NoPartition),
    (Step::Peek(1), Answer::NoPartition),
    (Step::Get(2), Answer::Blob(3)),
    (Step::Restart(1), Answer::Opened),
    (Step::Peek(1), Answer::Absent),
    (Step::Put(1), Answer::Stored),
    (Step::Get(2), Answer::Blob(3)),
    (Step::Restart(2), Answer::Opened),
    (Step::Peek(2), Answer::There),
    (Step::Get(1), Answer::Blob(3)),
];

#[test]
fn a_node_that_fails_is_down_until_it_is_opened_again(rt: HostRuntime) -> Result<(), Fail> {
    let alloc = rt.alloc();
    let bays = MemBays::new(alloc, Pick::Drop, Vec::new(alloc));
    // An opening takes 11 calls of a disk.
    let fuse = PlacedFuse {
        node: 1,
        partition: 0,
        passes: 11,
        pick: Pick::Drop,
    };
    let mut nodes = LabNodes::new(alloc, FuseBays::new(bays, vec![in alloc; fuse]?));
    let shape = Shape {
        nodes: 2,
        replicas: 2,
        partitions: 1,
        put: 1,
        get: 1,
        delete: 1,
        chunk: 64,
        log: LogNumbers {
            segment: 4096,
            segments: 3,
            index: 1000,
        },
    };
    let Ok(()) = nodes.open(&shape, "disks") else {
        panic!(rt; "not opened")
    };
    for (at, (step, wanted)) in STEPS.iter().enumerate() {
        assert_eq!(rt; answer_to(alloc, &mut nodes, *step)?, *wanted, "step {at}");
    }
    nodes.close();
    let mut nodes = LabNodes::new(alloc, nodes.give_back());
    let Ok(()) = nodes.open(&shape, "disks") else {
        panic!(rt; "not opened again")
    };
    assert_eq!(rt;
        answer_to(alloc, &mut nodes, Step::Get(1))?,
        Answer::Blob(3)
    );
    Ok(())
}
