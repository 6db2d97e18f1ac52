//! Whole runs, by the top call.

ghost use Rattle.std.specs.Prelude.{IfOk};
ghost use Rattle.msg_format.specs.Records.{IsRecord};

use super::*;
use blob_id::{Blob, BlobId, Bytes, Kind, Memory, Words};
use disk_core::{Bays, Disk, FileBays, FuseBays, MemBays, Pick, PlacedFuse, write_synced};
use msg_format::{Record, encode};
use outside::{BytesSink, BytesSource, CountRandom, FailRandom, Random};
use std::alloc::Global;
use std::fs;
use std::process::Abort;
use std::test::Fail;
use world_model::{HistoryMark, ListMoves, Move, Order, PullCause, Refusal, Told, What};

const BEGUN: &[u8] = b"a begun\na drew 0100000000000000000040008000000000000000\n";

/// These words, and behind them those for the shortest logs that hold a whole chunk.
fn words_of(alloc: Global, all: &[&str]) -> Result<Words, Fail> {
    let mut words = Words::new(alloc);
    for word in all {
        words.push(alloc, word)?;
    }
    words.push(alloc, "--segment=66736")?;
    Ok(words)
}

/// A script whose reads with the numbers in `fails` fail.
fn script_of(alloc: Global, script: &[u8], fails: Vec<u64>) -> Result<BytesSource, Fail> {
    let bytes = script.to_vec(alloc)?;
    Ok(BytesSource::new(bytes, fails))
}

/// Bays in memory without disks, whose openings with these numbers fail.
fn new_bays(alloc: Global, fails: Vec<u64>) -> MemBays {
    MemBays::new(alloc, Pick::Drop, fails)
}

/// What a run over these bays answers and writes, by the moves and then by those of the plain schedule.
fn run_over<B: Bays>(
    alloc: Global,
    words: &[&str],
    script: &[u8],
    bays: &mut B,
    moves: Vec<Move>,
) -> Result<(u8, BytesSink), Fail>
where
    B::Disk: Drop,
{
    let words = words_of(alloc, words)?;
    let mut input = script_of(alloc, script, Vec::new(alloc))?;
    let mut output = BytesSink::new(alloc, Vec::new(alloc));
    let mut moves = ListMoves::new(alloc, moves);
    let mut random = CountRandom::new(0, 0);
    let status = run_lab(
        alloc,
        &words,
        &mut input,
        &mut output,
        bays,
        &mut moves,
        &mut random,
    );
    Ok((status, output))
}

/// The same over bays in memory with no disk.
fn run(
    alloc: Global,
    words: &[&str],
    script: &[u8],
    moves: Vec<Move>,
) -> Result<(u8, BytesSink), Fail> {
    let mut bays = new_bays(alloc, Vec::new(alloc));
    run_over(alloc, words, script, &mut bays, moves)
}

/// Whether bytes are those of the put's first lines and then these.
fn is_begun_and(bytes: &[u8], rest: &[u8]) -> bool {
    match bytes.strip_prefix(BEGUN) {
        Some(after) => after == rest,
        None => false,
    }
}

/// Scripts that begin with a put, each with its words, the moves that come before those of the plain schedule, and what is written
/// behind the put's first lines. Each has the status 0.
const SCHEDULES: [(&[&str], &[Move], &[u8], &[u8]); 17] = [
    // The request to node 1 is lost, and two replicas are enough.
    (
        &["run", "--partitions", "1"],
        &[Move::Drop(0)],
        b"put a hex 6161\nwait\nget b $a\nwait\n",
        b"a ok 0100000000000000000040008000000000000000\nb begun\nb ok 2 6161\n",
    ),
    // The only request is lost. The id was given up, and there is none of an ok.
    (
        &["run", "--nodes=1", "--partitions=1"],
        &[Move::Drop(0)],
        b"put a hex 6161\nwait\ndel d $a\nget b 0100000000000000000040008000000000000000\nwait\n",
        b"a unavailable 0100000000000000000040008000000000000000 1:timeout\nd begun\nd noid\nb begun\nb deleted\n",
    ),
    // A request waits for 1,000 ms.
    (
        &["run", "--nodes=1", "--partitions=1"],
        &[Move::Tick(999), Move::Run(0), Move::Hand(0)],
        b"put a hex 6161\nwait\n",
        b"a ok 0100000000000000000040008000000000000000\n",
    ),
    (
        &["run", "--nodes=1", "--partitions=1"],
        &[Move::Tick(999), Move::Tick(1)],
        b"put a hex 6161\nwait\n",
        b"a unavailable 0100000000000000000040008000000000000000 1:timeout\n",
    ),
    // A request is run twice, the first reply is lost, and the second says that the blob is there.
    (
        &["run", "--nodes=1", "--partitions=1"],
        &[
            Move::RunAgain(0),
            Move::Run(0),
            Move::DropReply(0),
            Move::Hand(0),
        ],
        b"put a hex 6161\nwait\n",
        b"a ok 0100000000000000000040008000000000000000\n",
    ),
    // A connection breaks.
    (
        &["run", "--partitions=1", "--put=3"],
        &[Move::Cut(2)],
        b"put a hex 6161\nwait\n",
        b"a unavailable 0100000000000000000040008000000000000000 2:broken\n",
    ),
    // A node stops in the put, and runs again before the get, which asks all three.
    (
        &["run", "--partitions=1", "--get=3"],
        &[Move::Stop(1), Move::Restart(1)],
        b"put a hex 6161\nwait\nget b $a\nwait\n",
        b"a ok 0100000000000000000040008000000000000000\nb begun\nb ok 2 6161\n",
    ),
    // The delete for node 3 and the get for node 1 are lost.
    (
        &["run", "--partitions", "1"],
        &[
            Move::Run(0),
            Move::Hand(0),
            Move::Run(0),
            Move::Hand(0),
            Move::Run(0),
            Move::Hand(0),
            Move::Run(0),
            Move::Hand(0),
            Move::Run(0),
            Move::Hand(0),
            Move::Drop(0),
            Move::Drop(0),
        ],
        b"put a hex 6161\nwait\ndel d $a\nwait\nget b $a\nwait\n",
        b"a ok 0100000000000000000040008000000000000000\nd begun\nd ok\nb begun\nb deleted\n",
    ),
    // The delete for node 3 is lost, and all three are needed.
    (
        &["run", "--partitions", "1", "--delete=3"],
        &[
            Move::Run(0),
            Move::Hand(0),
            Move::Run(0),
            Move::Hand(0),
            Move::Run(0),
            Move::Hand(0),
            Move::Run(0),
            Move::Hand(0),
            Move::Run(0),
            Move::Hand(0),
            Move::Drop(0),
        ],
        b"put a hex 6161\nwait\ndel d $a\nwait\nget b $a\nwait\n",
        b"a ok 0100000000000000000040008000000000000000\nd begun\nd unavailable 0100000000000000000040008000000000000000 3:timeout\nb begun\nb deleted\n",
    ),
    // The reply to a get is handed over, stays in flight behind a delete, and is handed over again while the next get is live.
    (
        &["run", "--nodes=1", "--partitions=1"],
        &[
            Move::Run(0),
            Move::Hand(0),
            Move::Run(0),
            Move::HandAgain(0),
            Move::Run(0),
            Move::Hand(1),
            Move::Hand(0),
            Move::Run(0),
            Move::Hand(0),
        ],
        b"put a hex 6161\nwait\nget b $a\nwait\ndel d $a\nwait\nget c $a\nwait\n",
        b"a ok 0100000000000000000040008000000000000000\nb begun\nb ok 2 6161\nd begun\nd ok\nc begun\nc deleted\n",
    ),
    // Two nodes of three are stopped, and then one.
    (
        &["run", "--partitions", "1"],
        &[],
        b"put a hex 6161\nwait\nstop 1\nstop 2\nget b $a\nwait\n",
        b"a ok 0100000000000000000040008000000000000000\nstop 1 ok\nstop 2 ok\nb begun\nb unavailable 0100000000000000000040008000000000000000 1:broken 2:broken\n",
    ),
    (
        &["run", "--partitions", "1"],
        &[],
        b"put a hex 6161\nwait\nstop 2\nstop 2\nget b $a\nwait\n",
        b"a ok 0100000000000000000040008000000000000000\nstop 2 ok\nstop 2 already\nb begun\nb ok 2 6161\n",
    ),
    // All three stop and run again.
    (
        &["run", "--partitions", "1"],
        &[],
        b"put a hex 6161\nwait\nstop 1\nstop 2\nstop 3\nrestart 1\nrestart 2\nrestart 3\nget b $a\nwait\n",
        b"a ok 0100000000000000000040008000000000000000\nstop 1 ok\nstop 2 ok\nstop 3 ok\nrestart 1 ok\nrestart 2 ok\nrestart 3 ok\nb begun\nb ok 2 6161\n",
    ),
    // The put goes on behind the stop, and two replicas are enough.
    (
        &["run", "--partitions", "1"],
        &[],
        b"put a hex 6161\nstop 1\nwait\n",
        b"stop 1 ok\na ok 0100000000000000000040008000000000000000\n",
    ),
    // An order may be written with zeros in front.
    (
        &["run", "--nodes=1"],
        &[],
        b"put a hex 6161\nwait\nrestart 001\nstop 00000000000000000001\n",
        b"a ok 0100000000000000000040008000000000000000\nrestart 1 already\nstop 1 ok\n",
    ),
    // Ids that nothing was put under, of a chunk, and of a partition that isn't there.
    (
        &["run", "--nodes=1"],
        &[],
        b"put a hex 6161\nwait\nget b 0100000000000000000040008000000000000009\nwait\nget c 0102000000000000000040008000000000000009\nwait\nget d 0100000900000000000040008000000000000009\nwait\n",
        b"a ok 0100000000000000000040008000000000000000\nb begun\nb notfound\nc begun\nc notwhole\nd begun\nd nopartition\n",
    ),
    // Nothing behind the end line is read.
    (
        &["run", "--nodes=1"],
        &[],
        b"put a hex 6161\nend\nget b $a\nwait now\n",
        b"a ok 0100000000000000000040008000000000000000\n",
    ),
];

#[test]
fn schedules_have_their_transcripts(rt: HostRuntime) -> Result<(), Fail> {
    for (at, (words, moves, script, rest)) in SCHEDULES.iter().enumerate() {
        let moves = Vec::from_slice(rt.alloc(), moves)?;
        let (status, output) = run(rt.alloc(), words, script, moves)?;
        assert_eq!(rt; status, 0, "script {at}");
        assert!(rt; is_begun_and(output.bytes(), rest), "script {at}");
    }
    Ok(())
}

#[test]
fn words_outside_the_grammar_are_told(rt: HostRuntime) -> Result<(), Fail> {
    let table: [&[&str]; 21] = [
        &[],
        &["load"],
        &["run", "run"],
        &["run", "--"],
        &["run", "--Nodes", "1"],
        &["run", "--nodes"],
        &["run", "--nodes="],
        &["run", "--nodes", "0"],
        &["run", "--nodes", "10"],
        &["run", "--nodes", "-1"],
        &["run", "--nodes", "000000000000000000001"],
        &["run", "--nodes", "1", "--nodes", "1"],
        &["run", "--nodes", "2", "--replicas", "3"],
        &["run", "--put", "4"],
        &["run", "--delete", "0"],
        &["run", "--partitions", "65"],
        &["run", "--segments", "1"],
        &["run", "--ids", "18446744073709551616"],
        &["run", "--folder", ""],
        &["run", "--folder=a/../b"],
        &["run", "--folder", "/a"],
    ];
    for words in table {
        let (status, output) = run(rt.alloc(), words, b"wait\n", Vec::new(rt.alloc()))?;
        assert_eq!(rt; status, 1);
        assert_eq!(rt; output.bytes(), b"usage\n".as_slice());
    }
    Ok(())
}

#[test]
fn lines_outside_the_grammar_are_bad(rt: HostRuntime) -> Result<(), Fail> {
    let table: [&[u8]; 22] = [
        // A digit too few, one too many, one in upper case, one that is none, and a byte that is no character.
        b"get b 010000000000000000004000800000000000000\n",
        b"get b 01000000000000000000400080000000000000000\n",
        b"get b 010000000000000000004000800000000000000A\n",
        b"get b 010000000000000000004000800000000000000g\n",
        b"get b 010000000000000000004000800000000000000\xff\n",
        // Another version of ids, a kind that isn't there, two UUIDs of another version and variant.
        b"del b 0200000000000000000040008000000000000000\n",
        b"del b 0103000000000000000040008000000000000000\n",
        b"del b 0100000000000000000010008000000000000000\n",
        b"del b 0100000000000000000040000000000000000000\n",
        // An id of a composite blob.
        b"get b 0101000000000000000040008000000000000000\n",
        // A tag that no put has.
        b"del b $a\n",
        b"del b $\n",
        // Too few words, too many, and a word that names no command.
        b"del b\n",
        b"del b 0100000000000000000040008000000000000000 x\n",
        b"delete b 0100000000000000000040008000000000000000\n",
        // Orders of no node.
        b"stop 4\n",
        b"restart 0\n",
        b"stop 000000000000000000001\n",
        b"stop\n",
        b"stop 1 2\n",
        b"stop x\n",
        b"wait now\n",
    ];
    for script in table {
        let (status, output) = run(rt.alloc(), &["run"], script, Vec::new(rt.alloc()))?;
        assert_eq!(rt; status, 2);
        assert_eq!(rt; output.bytes(), b"line 1 bad\n".as_slice());
    }
    Ok(())
}

/// Adds the line of a put of so many bytes, all 0.
fn add_put(script: &mut Vec<u8>, tag: u8, length: usize) -> Result<(), Fail> {
    script.extend_from_slice(b"put ")?;
    script.push(tag)?;
    script.extend_from_slice(b" hex ")?;
    for _ in 0..length {
        script.extend_from_slice(b"00")?;
    }
    script.push(b'\n')?;
    Ok(())
}

#[test]
fn a_put_that_finds_no_room_is_told(rt: HostRuntime) -> Result<(), Fail> {
    let alloc = rt.alloc();
    let words = ["run", "--nodes=1", "--partitions=1", "--segments=2"];
    let mut script = Vec::new(alloc);
    // The second is too long. Of two segments one is kept free, and the first leaves less than 1,200 bytes of the other one.
    add_put(&mut script, b'a', 65_536)?;
    add_put(&mut script, b'b', 65_537)?;
    add_put(&mut script, b'c', 1_200)?;
    let (status, output) = run(alloc, &words, script.as_slice(), Vec::new(alloc))?;
    assert_eq!(rt; status, 0);
    let rest =
        b"a ok 0100000000000000000040008000000000000000\nb begun\nb toolarge 65537\nc begun\nc drew 0100000000000000000040008000000000000001\nc unavailable 0100000000000000000040008000000000000001 1:full\n";
    assert!(rt; is_begun_and(output.bytes(), rest));
    Ok(())
}

fn refused(partition: u32, what: What) -> Told {
    Told::Refused(Refusal {
        node: 1,
        partition,
        what,
    })
}

#[test]
fn what_came_of_an_order_is_spelled(rt: HostRuntime) -> Result<(), Fail> {
    let alloc = rt.alloc();
    let tags = Tags::new(alloc);
    let table: [(Told, &[u8]); 7] = [
        (Told::Done, b"restart 1 ok\n"),
        (Told::Already, b"restart 1 already\n"),
        (
            refused(3, What::Damaged(4096)),
            b"restart 1 refused 3 damaged 4096\n",
        ),
        (
            refused(0, What::OtherShape),
            b"restart 1 refused 0 othershape\n",
        ),
        (
            refused(63, What::OtherSize(65_536)),
            b"restart 1 refused 63 othersize 65536\n",
        ),
        (Told::Stuck(PullCause::Fault), b"restart 1 stuck fault\n"),
        (Told::Stuck(PullCause::Memory), b"restart 1 stuck memory\n"),
    ];
    for (told, line) in table {
        let mut out = Vec::new(alloc);
        let order = Order::Restart(1);
        let entry = Entry::Mark(HistoryMark::Ordered { order, told });
        write_entry(&mut out, &tags, &entry)?;
        assert_eq!(rt; out.as_slice(), line);
    }
    let mut out = Vec::new(alloc);
    write_entry(&mut out, &tags, &Entry::Failed(Order::Stop(9)))?;
    assert_eq!(rt; out.as_slice(), b"stop 9 failed\n".as_slice());
    Ok(())
}

/// What a run answers where reads and writes fail, and how many bytes it wrote.
fn run_failing<U: Random>(
    alloc: Global,
    reads: Vec<u64>,
    writes: Vec<u64>,
    random: &mut U,
) -> Result<(u8, usize), Fail> {
    let words = words_of(alloc, &["run", "--nodes", "1"])?;
    let mut input = script_of(alloc, b"put a hex 61\nwait\n", reads)?;
    let mut output = BytesSink::new(alloc, writes);
    let mut bays = new_bays(alloc, Vec::new(alloc));
    let mut moves = ListMoves::new(alloc, Vec::new(alloc));
    let status = run_lab(
        alloc,
        &words,
        &mut input,
        &mut output,
        &mut bays,
        &mut moves,
        random,
    );
    Ok((status, output.bytes().len()))
}

#[test]
fn failures_of_the_outside_are_told(rt: HostRuntime) -> Result<(), Fail> {
    let alloc = rt.alloc();
    // Which reads and writes fail, and the status and the number of bytes written.
    let table: [(&[u64], &[u64], (u8, usize)); 5] = [
        (&[], &[], (0, 102)),
        (&[1], &[], (3, 0)),
        (&[2], &[], (3, 102)),
        (&[], &[1], (4, 0)),
        (&[], &[2], (4, 56)),
    ];
    for (reads, writes, told) in table {
        let reads = Vec::from_slice(alloc, reads)?;
        let writes = Vec::from_slice(alloc, writes)?;
        let mut random = CountRandom::new(0, 0);
        assert_eq!(rt; run_failing(alloc, reads, writes, &mut random)?, told);
    }
    let mut random = FailRandom::new();
    let told = run_failing(alloc, Vec::new(alloc), Vec::new(alloc), &mut random)?;
    assert_eq!(rt; told, (5, 0));
    Ok(())
}

/// Bays whose opening with this number fails: what two sessions answer, of which the second finds all disks at home.
fn assert_opened_again(rt: &impl Abort, alloc: Global, fails: u64) -> Result<(), Fail> {
    let mut bays = new_bays(alloc, vec![in alloc; fails]?);
    let words: &[&str] = &["run", "--nodes=1"];
    let script: &[u8] = b"put a hex 6161\n";
    let [first, second] = run_twice(alloc, &mut bays, [words, words], [script, script])?;
    assert_eq!(rt; first.0, 5);
    assert!(rt; first.1.bytes().is_empty());
    assert_eq!(rt; second.0, 0);
    Ok(())
}

#[test]
fn bays_that_fail_are_told(rt: HostRuntime) -> Result<(), Fail> {
    let alloc = rt.alloc();
    for fails in [1, 2, 4] {
        assert_opened_again(&rt, alloc, fails)?;
    }
    let mut bays = new_bays(alloc, vec![in alloc; 2]?);
    let words = ["run", "--nodes=1", "--partitions=1"];
    let script = b"put a hex 6161\nwait\nstop 1\nrestart 1\nrestart 1\nget b $a\nwait\n";
    let (status, output) = run_over(alloc, &words, script, &mut bays, Vec::new(alloc))?;
    assert_eq!(rt; status, 0);
    let rest =
        b"a ok 0100000000000000000040008000000000000000\nstop 1 ok\nrestart 1 stuck fault\nrestart 1 ok\nb begun\nb ok 2 6161\n";
    assert!(rt; is_begun_and(output.bytes(), rest));
    Ok(())
}

/// Sessions over the same bays, each with its own words: what they answer and write, one behind the other.
fn run_twice<B: Bays>(
    alloc: Global,
    bays: &mut B,
    words: [&[&str]; 2],
    scripts: [&[u8]; 2],
) -> Result<[(u8, BytesSink); 2], Fail>
where
    B::Disk: Drop,
{
    let first = run_over(alloc, words[0], scripts[0], bays, Vec::new(alloc))?;
    let second = run_over(alloc, words[1], scripts[1], bays, Vec::new(alloc))?;
    Ok([first, second])
}

/// Whether a later session gets what an earlier one put, where all nodes stopped and ran again in between.
fn keeps_what_was_put<B: Bays>(alloc: Global, bays: &mut B) -> Result<bool, Fail>
where
    B::Disk: Drop,
{
    let [first, second] = run_twice(
        alloc,
        bays,
        [
            &["run", "--partitions=1", "--folder=front_end_test_kept"],
            &[
                "run",
                "--partitions=1",
                "--folder",
                "front_end_test_kept",
                "--ids=1",
            ],
        ],
        [
            b"put a hex 6161\nwait\nstop 1\nstop 2\nstop 3\nrestart 1\nrestart 2\nrestart 3\n",
            b"get b 0100000000000000000040008000000000000000\nwait\nput c hex 6262\nwait\n",
        ],
    )?;
    let rest =
        b"a ok 0100000000000000000040008000000000000000\nstop 1 ok\nstop 2 ok\nstop 3 ok\nrestart 1 ok\nrestart 2 ok\nrestart 3 ok\n";
    let later =
        b"b begun\nb ok 2 6161\nc begun\nc drew 0100000000000000000040018000000000000000\nc ok 0100000000000000000040018000000000000000\n";
    Ok(
        first.0 == 0
            && is_begun_and(first.1.bytes(), rest)
            && second.0 == 0
            && second.1.bytes() == later.as_slice(),
    )
}

#[test]
fn a_later_session_gets_what_an_earlier_one_put(rt: HostRuntime) -> Result<(), Fail> {
    let alloc = rt.alloc();
    let mut files = FileBays::new(alloc, rt);
    assert!(rt; keeps_what_was_put(alloc, &mut files)?);
    fs::remove_dir_all(&rt, "front_end_test_kept")?;
    let mut memory = new_bays(alloc, Vec::new(alloc));
    assert!(rt; keeps_what_was_put(alloc, &mut memory)?);
    Ok(())
}

#[test]
fn a_disk_of_other_numbers_is_refused(rt: HostRuntime) -> Result<(), Fail> {
    let alloc = rt.alloc();
    let table: [(&str, &str, &[u8]); 2] = [
        ("--index=4", "--index=8", b"refused 1 0 othershape\n"),
        (
            "--segments=2",
            "--segments=3",
            b"refused 1 0 othersize 137568\n",
        ),
    ];
    for (first, second, line) in table {
        let mut bays = new_bays(alloc, Vec::new(alloc));
        let words: [&[&str]; 2] = [&["run", "--nodes=1", first], &["run", "--nodes=1", second]];
        let script: &[u8] = b"put a hex 6161\n";
        let [first, second] = run_twice(alloc, &mut bays, words, [script, script])?;
        assert_eq!(rt; first.0, 0);
        assert_eq!(rt; second.0, 9);
        assert_eq!(rt; second.1.bytes(), line);
    }
    Ok(())
}

/// Bays in memory whose disks of these nodes and partition 0 pass so many calls, and then fail until they are stopped.
fn fused_bays(alloc: Global, passed: &[(u32, u64)]) -> Result<FuseBays, Fail> {
    let mut fuses = Vec::new(alloc);
    for (node, passes) in passed {
        fuses.push(PlacedFuse {
            node: *node,
            partition: 0,
            passes: *passes,
            pick: Pick::Drop,
        })?;
    }
    Ok(FuseBays::new(new_bays(alloc, Vec::new(alloc)), fuses))
}

/// Scripts that begin with a put over disks that fail: words, how many calls the disk of a node passes, and what is written behind
/// the put's first lines. An opening takes 11 calls, and a put 4.
const FAILING: [(&[&str], &[(u32, u64)], &[u8], &[u8]); 2] = [
    (
        &["run", "--nodes=1", "--partitions=1"],
        &[(1, 11)],
        b"put a hex 61\nput b hex 62\nwait\nstop 1\nrestart 1\nput c hex 63\nwait\n",
        b"a unavailable 0100000000000000000040008000000000000000 1:fault\nb begun\nb drew 0100000000000000000040008000000000000001\nb unavailable 0100000000000000000040008000000000000001 1:down\nstop 1 ok\nrestart 1 ok\nc begun\nc drew 0100000000000000000040008000000000000002\nc ok 0100000000000000000040008000000000000002\n",
    ),
    // One disk fails in the first put, and another one in the second.
    (
        &["run", "--nodes=3", "--partitions=1"],
        &[(1, 11), (2, 15)],
        b"put a hex 61\nput b hex 62\nwait\nstop 1\nrestart 1\nput c hex 63\nwait\n",
        b"a ok 0100000000000000000040008000000000000000\nb begun\nb drew 0100000000000000000040008000000000000001\nb unavailable 0100000000000000000040008000000000000001 1:down 2:fault\nstop 1 ok\nrestart 1 ok\nc begun\nc drew 0100000000000000000040008000000000000002\nc ok 0100000000000000000040008000000000000002\n",
    ),
];

#[test]
fn disks_that_fail_are_down_until_they_are_opened_again(rt: HostRuntime) -> Result<(), Fail> {
    let alloc = rt.alloc();
    for (words, passed, script, rest) in FAILING {
        let mut bays = fused_bays(alloc, passed)?;
        let (status, output) = run_over(alloc, words, script, &mut bays, Vec::new(alloc))?;
        assert_eq!(rt; status, 0);
        assert!(rt; is_begun_and(output.bytes(), rest));
    }
    Ok(())
}

/// The record of an id: a put of so many bytes 61, or a delete where there is no number of them.
fn record_of(alloc: Global, lsn: u32, number: u64, len: Option<u16>) -> Result<Record, Memory>
    ensures { IfOk result (λ entry. IsRecord entry) }
{
    let lsn = u64::from(lsn);
    let created = 5;
    let id = BlobId::draw(Kind::Simple, 0, 0, number);
    let Some(len) = len else {
        return Ok(Record::Delete { lsn, id, created });
    };
    let body = vec![in alloc; 0x61; usize::from(len)]?;
    let blob = Blob {
        created,
        ctype: Bytes::new(alloc),
        meta: Bytes::new(alloc),
        body: Bytes::from_vec(body),
    };
    Ok(Record::Put { lsn, id, blob })
}

/// Writes a record to a place of a disk, and gives the place behind it.
fn write_record<D: Disk>(
    rt: &impl Abort,
    alloc: Global,
    disk: &mut D,
    at: u64,
    entry: &Record,
) -> Result<u64, Fail>
    requires { IsRecord entry.now }
{
    let bytes = encode(alloc, entry)?;
    let len = bytes.len() as u64;
    assert!(rt; at <= disk.size() && disk.size() - at >= len);
    assert_eq!(rt; write_synced(disk, at, bytes.as_slice()), Ok(()));
    Ok(at + len)
}

/// Writes records to the new log of node 1 and partition 0: each is of an id by its number, and a put of so many bytes or a delete.
fn write_records<B: Bays>(
    rt: &impl Abort,
    alloc: Global,
    bays: &mut B,
    records: &[(u64, Option<u16>)],
) -> Result<(), Fail>
where
    B::Disk: Drop,
{
    let Ok(mut disk) = bays.open("ambry-data", 1, 0, 4096 + 2 * 66_736) else {
        panic!(rt; "no disk")
    };
    let mut at = 4096;
    let mut lsn = 0;
    for (number, len) in records.iter() {
        let entry = record_of(alloc, lsn, *number, *len)?;
        at = write_record(rt, alloc, &mut disk, at, &entry)?;
        lsn = lsn.wrapping_add(1);
    }
    bays.give_back(1, 0, disk);
    Ok(())
}

/// Of a log that no replica wrote, where a put stands behind the delete of its id and another put behind the first one of its
/// id, gets give the join: the one id is deleted, and the other has the first blob.
#[test]
fn a_log_of_any_records_is_joined(rt: HostRuntime) -> Result<(), Fail> {
    let alloc = rt.alloc();
    let mut bays = new_bays(alloc, Vec::new(alloc));
    let words = ["run", "--nodes=1", "--partitions=1", "--segments=2"];
    let (status, _) = run_over(alloc, &words, b"", &mut bays, Vec::new(alloc))?;
    assert_eq!(rt; status, 0);
    let records = [
        (0, Some(1)),
        (0, None),
        (0, Some(2)),
        (1, Some(3)),
        (1, Some(4)),
    ];
    write_records(&rt, alloc, &mut bays, &records)?;
    let script =
        b"get a 0100000000000000000040008000000000000000\nget b 0100000000000000000040008000000000000001\n";
    let (status, output) = run_over(alloc, &words, script, &mut bays, Vec::new(alloc))?;
    assert_eq!(rt; status, 0);
    assert_eq!(rt;
        output.bytes(),
        b"a begun\na deleted\nb begun\nb ok 3 616161\n".as_slice()
    );
    Ok(())
}
