//! A node over replicas in memory, and one over ports that refuse.

ghost use Rattle.std.specs.Prelude.{IfOk};
ghost use Rattle.node_core.specs.Ports.{ArePorts};

use super::*;
use blob_id::Memory;
use cell_model::{Ask, PlainReplica, ReplicaPort, Reply};
use std::alloc::Global;
use std::test::Fail;

/// A get, of kind 2, as request 1 of operation 2, of the id of kind 0 in partition 0 whose random words are 0.
const GET: [u8; 38] = [
    0x41, 0x4d, 1, 2, 0, 0, 0, 2, 0, 0, 0, 1, 0, 0, 0, 0, 0, 20, 1, 0, 0, 0, 0, 0, 0, 0, 0, 0,
    0x40, 0, 0x80, 0, 0, 0, 0, 0, 0, 0,
];

/// A blob of created 5, type `t`, metadata 09 and body 01 02.
const BLOB: [u8; 19] = [0, 0, 0, 0, 0, 0, 0, 5, 1, 116, 0, 1, 9, 0, 0, 0, 2, 1, 2];

/// A delete at moment 9.
const MOMENT: [u8; 8] = [0, 0, 0, 0, 0, 0, 0, 9];

/// A request of this kind for the id in this partition, with what follows the id.
fn request(alloc: Global, kind: u8, partition: u8, rest: &[u8]) -> Result<Vec<u8>, Memory> {
    let mut out = Vec::from_slice(alloc, &GET)?;
    out[3] = kind;
    out[13] = partition;
    out[17] = (rest.len().wrapping_add(20) % 256) as u8;
    out[21] = partition;
    out.extend_from_slice(rest)?;
    Ok(out)
}

/// The answer to such a request: a code, and what follows it.
fn answer(alloc: Global, partition: u8, code: u8, rest: &[u8]) -> Result<Vec<u8>, Memory> {
    let mut out = Vec::from_slice(
        alloc,
        &[
            0x41, 0x4d, 1, 17, 0, 0, 0, 2, 0, 0, 0, 1, 0, partition, 0, 0, 0,
        ],
    )?;
    out.push((rest.len().wrapping_add(1) % 256) as u8)?;
    out.push(code)?;
    out.extend_from_slice(rest)?;
    Ok(out)
}

/// What follows the id in a request of this kind.
fn rest_of(alloc: Global, kind: u8) -> Result<Vec<u8>, Memory> {
    let rest = match kind {
        1 => Vec::from_slice(alloc, &BLOB)?,
        4 => Vec::from_slice(alloc, &MOMENT)?,
        _ => Vec::new(alloc),
    };
    Ok(rest)
}

/// Whether a request of this kind, in this partition, is answered by this code and what follows it.
fn is_answered<P: ReplicaPort>(
    node: &mut NodeCore<P>,
    alloc: Global,
    kind: u8,
    partition: u8,
    code: u8,
    rest: &[u8],
) -> Result<bool, Memory> {
    let asked = request(alloc, kind, partition, rest_of(alloc, kind)?.as_slice())?;
    let wanted = answer(alloc, partition, code, rest)?;
    match node.on_frame(asked.as_slice())? {
        Some(reply) => Ok(reply.as_slice() == wanted.as_slice()),
        None => Ok(false),
    }
}

/// Two ports, of partition 0 and 7.
fn two_ports<P: ReplicaPort + Drop>(
    alloc: Global,
    first: P,
    second: P,
) -> Result<Vec<(u32, P)>, Memory>
    requires first { P.ready first }
    requires second { P.ready second }
    ensures { IfOk result (λ ports. ArePorts P.ready ports.items) }
{
    let mut ports = Vec::new(alloc);
    ports.push((0, first))?;
    ports.push((7, second))?;
    Ok(ports)
}

/// Node 3 over two ports.
fn node_over<P: ReplicaPort + Drop>(
    alloc: Global,
    first: P,
    second: P,
) -> Result<NodeCore<P>, Memory>
    requires first { P.ready first }
    requires second { P.ready second }
{
    let ports = two_ports(alloc, first, second)?;
    match NodeCore::new(alloc, 3, ports) {
        Ok(node) => Ok(node),
        Err((refused, _)) => Err(refused),
    }
}

/// A find of 2 entries behind lsn 7, in partition 0.
const FIND: [u8; 28] = [
    0x41, 0x4d, 1, 5, 0, 0, 0, 2, 0, 0, 0, 1, 0, 0, 0, 0, 0, 10, 2, 1, 0, 0, 0, 0, 0, 0, 0, 7,
];

/// The page without entries, and the same token.
const PAGE: [u8; 28] = [
    0x41, 0x4d, 1, 18, 0, 0, 0, 2, 0, 0, 0, 1, 0, 0, 0, 0, 0, 10, 0, 1, 0, 0, 0, 0, 0, 0, 0, 7,
];

#[test]
fn requests_are_answered(rt: HostRuntime) -> Result<(), Fail> {
    let alloc = rt.alloc();
    let mut node = node_over(alloc, PlainReplica::new(alloc), PlainReplica::new(alloc))?;
    // The kind, the partition and the code of the reply.
    for (kind, partition, code) in [
        (2, 0, 5),
        (3, 0, 5),
        (1, 0, 0),
        (1, 0, 1),
        (3, 0, 1),
        (3, 7, 5),
        (1, 9, 11),
        (2, 9, 11),
        (4, 7, 6),
        (3, 7, 3),
        (1, 7, 3),
        (2, 7, 3),
    ] {
        assert!(rt;
            is_answered(&mut node, alloc, kind, partition, code, &[])?,
            "{kind} {partition}"
        );
    }
    assert!(rt; is_answered(&mut node, alloc, 2, 0, 4, &BLOB)?);
    assert!(rt; is_answered(&mut node, alloc, 6, 0, 4, &BLOB)?);
    match node.on_frame(&FIND)? {
        Some(reply) => assert_eq!(rt; reply.as_slice(), PAGE.as_slice()),
        None => panic!(rt; "no page"),
    }
    // A request without its last byte.
    assert!(rt; node.on_frame(&GET[..37])?.is_none());
    Ok(())
}

/// A port that tells nothing and answers puts so: full, with a fault, or down. It is down for all other asks.
#[derive(Drop)]
struct RefusingPort {
    refusal: Refusal,
    asked: u64,
    faults: u64,
}

#[derive(Clone, Copy)]
enum Refusal {
    Full,
    Fault,
    Down,
}

impl ReplicaPort for RefusingPort {
    ghost use Rattle.std.specs.Prelude.{◌≡◌, [], true, false};

    ghost tells = { ⊥ };

    ghost may_refuse = { true };

    ghost told = { λ _. record { cells = []; tokens = []; planned = false; idle = true } };

    ghost fixed = { λ _. [] };

    ghost faults = { λ port. port.faults };

    ghost ready = { λ _. Unit {0} };

    ghost asks = { λ old _ _ new. new.refusal ≡ old.refusal };

    fn ask(&mut self, ask: Ask) -> Reply {
        self.asked = self.asked.saturating_add(1);
        match ask {
            Ask::Put { .. } => match self.refusal {
                Refusal::Full => Reply::Full,
                Refusal::Fault => {
                    self.faults = self.faults.saturating_add(1);
                    Reply::Fault
                }
                Refusal::Down => Reply::Down,
            },
            _ => Reply::Down,
        }
    }
}

fn refusing(refusal: Refusal) -> RefusingPort {
    RefusingPort {
        refusal,
        asked: 0,
        faults: 0,
    }
}

#[test]
fn refusals_are_answered_and_each_request_asks_once(rt: HostRuntime) -> Result<(), Fail> {
    let alloc = rt.alloc();
    for (refusal, code) in [(Refusal::Full, 7), (Refusal::Fault, 8), (Refusal::Down, 9)] {
        let mut node = node_over(alloc, refusing(Refusal::Down), refusing(refusal))?;
        assert!(rt;
            is_answered(&mut node, alloc, 1, 7, code, &[])?,
            "code {code}"
        );
        assert!(rt; is_answered(&mut node, alloc, 3, 7, 9, &[])?);
        assert_eq!(rt; asked_counts(node.close().as_slice()), (0, 2));
    }
    Ok(())
}

/// How often the first and the last of some ports were asked.
fn asked_counts(ports: &[(u32, RefusingPort)]) -> (u64, u64) {
    match ports {
        [first, .., last] => (first.1.asked, last.1.asked),
        _ => (0, 0),
    }
}
