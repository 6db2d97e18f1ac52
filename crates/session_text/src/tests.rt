//! Worked lines and outcomes.

ghost use Rattle.std.specs.Prelude.{IfOk};
ghost use Rattle.world_model.specs.Shape.{IsShape};

use super::*;
use blob_id::{BlobId, Bytes, Kind};
use itoa::Buffer;
use quorum_op::{Cause, Failures, Outcome};
use std::alloc::Global;
use std::test::Fail;
use world_model::{LogNumbers, Order, Shape};

/// Three nodes with two replicas of each of four partitions, behind a put with the tag `a` and a get with the tag `b`.
fn scope_of(alloc: Global) -> Result<Scope, Fail>
    ensures { IfOk result (λ scope. IsShape scope.shape) }
{
    let mut tags = Tags::new(alloc);
    let first = Bytes::copy_of(alloc, b"a")?;
    tags.push(alloc, first, true)?;
    let second = Bytes::copy_of(alloc, b"b")?;
    if tags.number_of(b"b").is_none() && tags.len() == 1 {
        tags.push(alloc, second, false)?;
    }
    Ok(Scope {
        shape: Shape {
            nodes: 3,
            replicas: 2,
            partitions: 4,
            put: 2,
            get: 2,
            delete: 2,
            chunk: 65_536,
            log: LogNumbers {
                segment: 1_048_576,
                segments: 8,
                index: 256,
            },
        },
        tags,
    })
}

/// Adds a space, a key, a colon and the bytes.
fn tell(out: &mut Vec<u8>, key: &[u8], bytes: &[u8]) -> Result<(), Fail> {
    out.extend_from_slice(b" ")?;
    out.extend_from_slice(key)?;
    out.extend_from_slice(b":")?;
    out.extend_from_slice(bytes)?;
    Ok(())
}

fn tell_number(out: &mut Vec<u8>, key: &[u8], number: u64) -> Result<(), Fail> {
    let mut buffer = Buffer::new();
    tell(out, key, buffer.format(number).as_bytes())
}

fn tell_id(out: &mut Vec<u8>, id: &IdWord) -> Result<(), Fail> {
    match id {
        IdWord::Tag(tag) => tell(out, b"of", tag.as_slice()),
        IdWord::Id(id) => tell_number(out, b"id in partition", u64::from(id.partition())),
    }
}

fn tell_source(out: &mut Vec<u8>, source: &BlobSource) -> Result<(), Fail> {
    match source {
        BlobSource::Line(bytes) => tell(out, b"bytes", bytes.as_slice()),
        BlobSource::File(name) => tell(out, b"file", name.as_str().as_bytes()),
    }
}

fn tell_range(out: &mut Vec<u8>, range: &Option<(u64, u64)>) -> Result<(), Fail> {
    match range {
        Some((from, len)) => {
            tell_number(out, b"from", *from)?;
            tell_number(out, b"len", *len)
        }
        None => Ok(()),
    }
}

fn tell_order(out: &mut Vec<u8>, order: &Order) -> Result<(), Fail> {
    match order {
        Order::Stop(node) => tell_number(out, b"stop", u64::from(*node)),
        Order::Restart(node) => tell_number(out, b"restart", u64::from(*node)),
        Order::Pull(a, b, partition) => {
            tell_number(out, b"pull", u64::from(*a))?;
            tell_number(out, b"peer", u64::from(*b))?;
            tell_number(out, b"partition", u64::from(*partition))
        }
        Order::Compact(node, partition) => {
            tell_number(out, b"compact", u64::from(*node))?;
            tell_number(out, b"partition", u64::from(*partition))
        }
        Order::Level(partition, a, b) => {
            tell_number(out, b"level", u64::from(*partition))?;
            tell_number(out, b"node", u64::from(*a))?;
            tell_number(out, b"node", u64::from(*b))
        }
    }
}

fn tell_put(
    out: &mut Vec<u8>,
    tag: &Bytes,
    source: &BlobSource,
    ctype: &Bytes,
    meta: &Bytes,
) -> Result<(), Fail> {
    tell(out, b"put", tag.as_slice())?;
    tell_source(out, source)?;
    tell(out, b"type", ctype.as_slice())?;
    tell(out, b"meta", meta.as_slice())
}

/// What a command says, in words of this test's own.
fn tell_command(out: &mut Vec<u8>, command: &Command) -> Result<(), Fail> {
    match command {
        Command::Skip => tell(out, b"skip", b""),
        Command::End => tell(out, b"end", b""),
        Command::Put {
            tag,
            source,
            ctype,
            meta,
        } => tell_put(out, tag, source, ctype, meta),
        Command::Get {
            tag,
            id,
            range,
            file,
        } => {
            tell(out, b"get", tag.as_slice())?;
            tell_id(out, id)?;
            tell_range(out, range)?;
            match file {
                Some(name) => tell(out, b"file", name.as_str().as_bytes()),
                None => Ok(()),
            }
        }
        Command::Info { tag, id } => {
            tell(out, b"info", tag.as_slice())?;
            tell_id(out, id)
        }
        Command::Delete { tag, id } => {
            tell(out, b"delete", tag.as_slice())?;
            tell_id(out, id)
        }
        Command::Cancel { tag } => tell(out, b"cancel", tag.as_slice()),
        Command::Wait { tag: Some(tag) } => tell(out, b"wait", tag.as_slice()),
        Command::Wait { tag: None } => tell(out, b"wait", b""),
        Command::Drain { node, on: true } => tell_number(out, b"drain", u64::from(*node)),
        Command::Drain { node, on: false } => tell_number(out, b"undrain", u64::from(*node)),
        Command::Admin(order) => tell_order(out, order),
    }
}

/// What a line is read as: what its command says, with a `!` where it isn't built.
fn told(alloc: Global, line: &[u8], scope: &Scope) -> Result<Vec<u8>, Fail>
    requires { IsShape scope.now.shape }
{
    let mut out = Vec::new(alloc);
    match read_line(alloc, line, scope) {
        Ok(command) => {
            if !command.is_built() {
                out.push(b'!')?;
            }
            tell_command(&mut out, &command)?;
        }
        Err(_) => out.extend_from_slice(b"bad")?,
    }
    Ok(out)
}

#[test]
fn lines_and_what_they_ask_for(rt: HostRuntime) -> Result<(), Fail> {
    let rows: [(&[u8], &[u8]); 40] = [
        (b"", b" skip:"),
        (b" \t ", b" skip:"),
        (b" # put", b" skip:"),
        (b"#", b" skip:"),
        (b" put c\thex 6Ab2 ", b" put:c bytes:j\xb2 type: meta:"),
        (b"put c hex -", b" put:c bytes: type: meta:"),
        (b"put c hex - meta -", b" put:c bytes: type: meta:"),
        (b"put c file x/y.z", b"! put:c file:x/y.z type: meta:"),
        (
            b"put c hex 41 type text/plain",
            b"! put:c bytes:A type:text/plain meta:",
        ),
        (b"put c hex 41 meta 4242", b"! put:c bytes:A type: meta:BB"),
        (
            b"put c hex 41 type t meta 42",
            b"! put:c bytes:A type:t meta:B",
        ),
        (
            b"put c file f type meta meta 42",
            b"! put:c file:f type:meta meta:B",
        ),
        (b"get c $a", b" get:c of:a"),
        (b"get c $a 007 2", b"! get:c of:a from:7 len:2"),
        (b"get c $a file f", b"! get:c of:a file:f"),
        (
            b"get c $a 0 18446744073709551615 file f",
            b"! get:c of:a from:0 len:18446744073709551615 file:f",
        ),
        (
            b"get c 0100000300000000000040008000000000000001",
            b" get:c id in partition:3",
        ),
        (
            b"get c 0101000300000000000040008000000000000001",
            b"! get:c id in partition:3",
        ),
        (
            b"del c 0102ffff00000000000040008000000000000001",
            b" delete:c id in partition:65535",
        ),
        (b"info c $a", b"! info:c of:a"),
        (b"del c $a", b" delete:c of:a"),
        (b"cancel b", b"! cancel:b"),
        (b"wait", b" wait:"),
        (b"wait b", b"! wait:b"),
        (b"drain 3", b"! drain:3"),
        (b"undrain 03", b"! undrain:3"),
        (b"stop 1", b" stop:1"),
        (b"restart 00000000000000000002", b" restart:2"),
        (b"pull 1 2 3", b"! pull:1 peer:2 partition:3"),
        (b"pull 1 3 2", b"! pull:1 peer:3 partition:2"),
        (b"compact 3 2", b"! compact:3 partition:2"),
        (b"level 0 2 1", b"! level:0 node:2 node:1"),
        (b"end", b" end:"),
        (b"get c $b", b"bad"),
        (b"put a hex 00", b"bad"),
        (b"put 1c hex 00", b"bad"),
        (b"put c hex 0", b"bad"),
        (b"put c hex 00\r", b"bad"),
        (b"PUT c hex 00", b"bad"),
        (b"wait\n", b"bad"),
    ];
    let alloc = rt.alloc();
    let scope = scope_of(alloc)?;
    for (line, wanted) in rows {
        assert_eq!(rt; told(alloc, line, &scope)?.as_slice(), wanted);
    }
    Ok(())
}

#[test]
fn lines_and_the_first_word_that_is_refused(rt: HostRuntime) -> Result<(), Fail> {
    let rows: [(&[u8], usize, Wanted); 34] = [
        (b"puts c hex 00", 0, Wanted::CommandName),
        (b"put", 1, Wanted::NewTag),
        (b"put b hex 00", 1, Wanted::NewTag),
        (b"put c_ bytes 00", 2, Wanted::SourceForm),
        (b"put c hex 0g", 3, Wanted::Digits),
        (b"put c file /f", 3, Wanted::FileName),
        (b"put c file a/../f", 3, Wanted::FileName),
        (b"put c hex 00 type", 5, Wanted::BlobType),
        (b"put c hex 00 type -", 5, Wanted::BlobType),
        (b"put c hex 00 meta 0", 5, Wanted::Metadata),
        (b"put c hex 00 type t meta", 7, Wanted::Metadata),
        (b"put c hex 00 meta 00 type t", 6, Wanted::End),
        (b"put c hex 00 ttl 5", 4, Wanted::End),
        (b"get c", 2, Wanted::Id),
        (b"get c $c", 2, Wanted::Id),
        (
            b"get c 010000030000000000004000800000000000000A",
            2,
            Wanted::Id,
        ),
        (b"get c $a 1", 4, Wanted::Number),
        (b"get c $a +1 2", 3, Wanted::Number),
        (b"get c $a 1 18446744073709551616", 4, Wanted::Number),
        (b"get c $a file", 4, Wanted::FileName),
        (b"get c $a 1 2 3", 5, Wanted::End),
        (b"get c $a 1 2 file f g", 7, Wanted::End),
        (b"info c $a 1", 3, Wanted::End),
        (b"cancel c", 1, Wanted::UsedTag),
        (b"wait c", 1, Wanted::UsedTag),
        (b"wait a b", 2, Wanted::End),
        (b"drain 4", 1, Wanted::Node),
        (b"stop 0", 1, Wanted::Node),
        (b"restart 000000000000000000001", 1, Wanted::Node),
        (b"level 4 1 2", 1, Wanted::Partition),
        (b"level 0 1 1 x", 3, Wanted::Holders),
        (b"pull 1 2 1", 3, Wanted::Holders),
        (b"compact 1 1", 2, Wanted::Holders),
        (b"end 1", 1, Wanted::End),
    ];
    let alloc = rt.alloc();
    let scope = scope_of(alloc)?;
    for (line, place, wanted) in rows {
        match read_line(alloc, line, &scope) {
            Err(refusal) => assert_eq!(rt; refusal, LineFault::Word(place, wanted)),
            Ok(_) => assert!(rt; false),
        }
    }
    Ok(())
}

#[test]
fn a_line_is_too_long_by_one_byte(rt: HostRuntime) -> Result<(), Fail> {
    let alloc = rt.alloc();
    let scope = scope_of(alloc)?;
    let mut line = vec![in alloc; b' '; 1_048_576]?;
    assert!(rt; read_line(alloc, line.as_slice(), &scope).is_ok());
    line.push(b' ')?;
    match read_line(alloc, line.as_slice(), &scope) {
        Err(refusal) => assert_eq!(rt; refusal, LineFault::TooLong),
        Ok(_) => assert!(rt; false),
    }
    Ok(())
}

/// An id of a kind, in partition 3.
fn id_of(kind: Kind) -> BlobId {
    BlobId::draw(kind, 3, 0, 1)
}

#[test]
fn outcomes_and_their_words(rt: HostRuntime) -> Result<(), Fail> {
    let alloc = rt.alloc();
    let mut failed = Failures::new(alloc);
    failed.push((2, Cause::Timeout))?;
    failed.push((10, Cause::Cancelled))?;
    let rows: [(Outcome, &[u8]); 12] = [
        (
            Outcome::Put(id_of(Kind::Simple)),
            b"ok 0100000300000000000040008000000000000001",
        ),
        (Outcome::Deleted2, b"ok"),
        (Outcome::Bytes(Bytes::new(alloc)), b"ok 0 -"),
        (
            Outcome::Bytes(Bytes::copy_of(alloc, b"\x0f\xa0")?),
            b"ok 2 0fa0",
        ),
        (
            Outcome::Info {
                size: 0,
                created: 18_446_744_073_709_551_615,
                ctype: Bytes::new(alloc),
                meta: Bytes::new(alloc),
            },
            b"ok 0 18446744073709551615 - -",
        ),
        (
            Outcome::Info {
                size: 10,
                created: 7,
                ctype: Bytes::copy_of(alloc, b"text/plain")?,
                meta: Bytes::copy_of(alloc, b"AB")?,
            },
            b"ok 10 7 text/plain 4142",
        ),
        (
            Outcome::Unavailable {
                id: id_of(Kind::Chunk),
                failed,
            },
            b"unavailable 0102000300000000000040008000000000000001 2:timeout 10:cancelled",
        ),
        (Outcome::TooLarge(67_108_865), b"toolarge 67108865"),
        (Outcome::BadRange(0), b"badrange 0"),
        (
            Outcome::Missing(id_of(Kind::Chunk)),
            b"missing 0102000300000000000040008000000000000001",
        ),
        (
            Outcome::Corrupt(id_of(Kind::Composite)),
            b"corrupt 0101000300000000000040008000000000000001",
        ),
        (Outcome::NoPartition, b"nopartition"),
    ];
    for (outcome, wanted) in rows {
        let mut out = Vec::new(alloc);
        write_outcome(&outcome, &mut out)?;
        assert_eq!(rt; out.as_slice(), wanted);
    }
    Ok(())
}
