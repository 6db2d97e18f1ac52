//! A replica over disks in memory, with segments of 4,096 bytes.

ghost use Rattle.std.specs.Prelude.{◌≡◌, ◌^◌, ◌<◌, IfOk};
ghost use Rattle.blob_id.specs.Blob.{IsBlob};
ghost use Rattle.cell_model.specs.Cells.{HoldsBlob};
ghost use Rattle.msg_format.specs.Records.{IsRecord, lsn_of};

use crate::{LogSettings, Replica};
use blob_id::{Blob, BlobId, Bytes, Kind, Memory};
use cell_model::{Cell, Reply};
use disk_core::{Disk, FuseDisk, MemDisk, Pick};
use msg_format::Record;
use outside::Failed;
use part_log::{LogFault, PartLog};
use std::alloc::Global;
use std::process::Abort;
use std::test::Fail;

/// What a reply says, with the length of its blob's body.
#[derive(Clone, Copy, Debug, PartialEq)]
enum Answer {
    Stored,
    There,
    Clash,
    Gone,
    Blob(usize),
    Absent,
    Done,
    Full,
    Fault,
    Down,
    Other,
}

fn answer_of(reply: &Reply) -> Answer {
    match reply {
        Reply::Stored => Answer::Stored,
        Reply::There => Answer::There,
        Reply::Clash => Answer::Clash,
        Reply::Gone => Answer::Gone,
        Reply::Blob(blob) => Answer::Blob(blob.body.len()),
        Reply::Absent => Answer::Absent,
        Reply::Done => Answer::Done,
        Reply::Full => Answer::Full,
        Reply::Fault => Answer::Fault,
        Reply::Down => Answer::Down,
        _ => Answer::Other,
    }
}

/// A disk whose type tells nothing, so that nothing has to be known of its bytes before it is opened.
#[derive(Drop)]
struct Quiet<D: Disk> {
    disk: D,
    /// How many calls were made.
    calls: u64,
    /// A place: where a read begins there, it is given as many bytes in front of it instead.
    misread: Option<u64>,
}

type TestDisk = Quiet<FuseDisk<MemDisk>>;

impl<D: Disk> Disk for Quiet<D> {
    ghost use Rattle.std.specs.Prelude.{◌≡◌, ◌≤◌, ◌^◌, ◌<◌, length};
    ghost use Rattle.disk_core.specs.Silent.{silent};

    ghost tells = { ⊥ };

    ghost content = { λ _. silent };

    ghost size = { λ q. D.size q.disk };

    ghost faults = { λ q. D.faults q.disk };

    ghost bounded = { λ q. D.bounded q.disk };

    ghost whole = { λ q t. absurd t };

    fn size(&self) -> u64 {
        self.disk.size()
    }

    fn read(&mut self, at: u64, buf: &mut [u8]) -> Result<(), Failed> {
        self.calls = self.calls.saturating_add(1);
        if self.misread == Some(at) {
            return self.disk.read(at.saturating_sub(buf.len() as u64), buf);
        }
        self.disk.read(at, buf)
    }

    fn write(&mut self, at: u64, bytes: &[u8]) -> Result<(), Failed> {
        self.calls = self.calls.saturating_add(1);
        self.disk.write(at, bytes)
    }

    fn sync(&mut self) -> Result<(), Failed> {
        self.calls = self.calls.saturating_add(1);
        self.disk.sync()
    }

    fn stopped(&mut self) {
        self.disk.stopped();
    }
}

/// A disk that tells nothing, of which no call was made.
fn new_quiet<D: Disk>(disk: D) -> Quiet<D>
    ensures { result.disk ≡ disk }
{
    Quiet {
        disk,
        calls: 0,
        misread: None,
    }
}

/// A new disk for so many segments.
fn new_disk(alloc: Global, segments: u16, pick: Pick) -> Result<TestDisk, Fail> {
    let bytes = vec![in alloc; 0u8; 4096 + 4096 * usize::from(segments)]?;
    let disk = MemDisk::new(alloc, bytes, pick, Vec::new(alloc));
    Ok(new_quiet(FuseDisk::without_fuse(disk)))
}

/// The disk with a fuse that passes so many calls.
fn fused(disk: TestDisk, passes: u64) -> TestDisk {
    let Quiet { disk, .. } = disk;
    new_quiet(FuseDisk::new(disk.into_inner(), passes))
}

/// Opens the replica of a disk with so many segments.
fn open(rt: &impl Abort, alloc: Global, disk: TestDisk, segments: u16) -> Replica<TestDisk> {
    assert!(rt; 2 <= segments && segments <= 64);
    assert!(rt; disk.size() == 4096 + u64::from(segments) * 4096);
    let settings = LogSettings {
        segment: 4096,
        segments,
        index: 1000,
    };
    let Ok(replica) = Replica::open(alloc, disk, settings) else {
        panic!(rt; "not opened")
    };
    replica
}

/// A blob with so many bytes.
fn blob_of(alloc: Global, len: u16) -> Result<Blob, Memory>
    ensures { IfOk result (λ blob. IsBlob blob) }
{
    let body = vec![in alloc; 7u8; usize::from(len)]?;
    Ok(Blob {
        created: 5,
        ctype: Bytes::new(alloc),
        meta: Bytes::new(alloc),
        body: Bytes::from_vec(body),
    })
}

fn id_of(number: u64) -> BlobId {
    BlobId::draw(Kind::Simple, 0, 0, number)
}

/// An ask by the number of its id, and the length of the body that it brings.
#[derive(Clone, Copy)]
enum Step {
    Put(u64, u16),
    Get(u64),
    Peek(u64),
    Delete(u64),
    MergeBlob(u64, u16),
    MergeGone(u64),
    MergeAbsent(u64),
}

fn put<D: Disk>(
    alloc: Global,
    replica: &mut Replica<D>,
    number: u64,
    len: u16,
) -> Result<Answer, Memory> {
    let blob = blob_of(alloc, len)?;
    Ok(answer_of(&replica.put(id_of(number), blob)))
}

fn merge<D: Disk>(replica: &mut Replica<D>, number: u64, cell: Cell) -> Answer
    requires { HoldsBlob cell }
{
    answer_of(&replica.merge(id_of(number), cell))
}

fn merge_blob<D: Disk>(
    alloc: Global,
    replica: &mut Replica<D>,
    number: u64,
    len: u16,
) -> Result<Answer, Memory> {
    let blob = blob_of(alloc, len)?;
    Ok(merge(replica, number, Cell::Held(blob)))
}

/// What a replica answers to a step.
fn answer_to<D: Disk>(
    alloc: Global,
    replica: &mut Replica<D>,
    step: Step,
) -> Result<Answer, Memory> {
    match step {
        Step::Put(number, len) => put(alloc, replica, number, len),
        Step::Get(number) => Ok(answer_of(&replica.get(&id_of(number)))),
        Step::Peek(number) => Ok(answer_of(&replica.peek(&id_of(number)))),
        Step::Delete(number) => Ok(answer_of(&replica.delete(id_of(number), 9))),
        Step::MergeBlob(number, len) => merge_blob(alloc, replica, number, len),
        Step::MergeGone(number) => Ok(merge(replica, number, Cell::Gone)),
        Step::MergeAbsent(number) => Ok(merge(replica, number, Cell::Absent)),
    }
}

/// Each step in turn is answered so.
fn assert_steps<D: Disk>(
    rt: &impl Abort,
    alloc: Global,
    replica: &mut Replica<D>,
    steps: &[(Step, Answer)],
) -> Result<(), Fail> {
    for (at, (step, wanted)) in steps.iter().enumerate() {
        assert_eq!(rt; answer_to(alloc, replica, *step)?, *wanted, "step {at}");
    }
    Ok(())
}

/// Opens the replica of a disk with so many segments, which answers these steps and then ends at this lsn: the disk.
fn run(
    rt: &impl Abort,
    alloc: Global,
    disk: TestDisk,
    segments: u16,
    steps: &[(Step, Answer)],
    end: u64,
) -> Result<TestDisk, Fail> {
    let mut replica = open(rt, alloc, disk, segments);
    assert_steps(rt, alloc, &mut replica, steps)?;
    assert_eq!(rt; replica.end_lsn(), end);
    Ok(replica.close())
}

/// What a new replica answers, and what it answers when it was closed and opened again. Both end at this lsn.
fn assert_kept(
    rt: &impl Abort,
    alloc: Global,
    steps: &[(Step, Answer)],
    reopened: &[(Step, Answer)],
    end: u64,
) -> Result<(), Fail> {
    let disk = run(rt, alloc, new_disk(alloc, 3, Pick::Drop)?, 3, steps, end)?;
    run(rt, alloc, disk, 3, reopened, end)?;
    Ok(())
}

/// One put and two deletes are written: what leaves its cell writes no record.
const MERGED: [(Step, Answer); 9] = [
    (Step::MergeAbsent(1), Answer::Done),
    (Step::Get(1), Answer::Absent),
    (Step::MergeBlob(1, 2), Answer::Done),
    (Step::MergeBlob(1, 3), Answer::Done),
    (Step::Get(1), Answer::Blob(2)),
    (Step::MergeGone(1), Answer::Done),
    (Step::MergeGone(2), Answer::Done),
    (Step::Delete(1), Answer::Done),
    (Step::MergeBlob(1, 2), Answer::Done),
];

const JOINED: [(Step, Answer); 3] = [
    (Step::Get(1), Answer::Gone),
    (Step::Get(2), Answer::Gone),
    (Step::Get(3), Answer::Absent),
];

#[test]
fn merges_join(rt: HostRuntime) -> Result<(), Fail> {
    assert_kept(&rt, rt.alloc(), &MERGED, &JOINED, 3)
}

/// Lists of asks of new replicas, each with the segments of its disk. Of each list the records are laid one behind the other: a put's
/// has 45 bytes beside its body, and a delete's 38. A record goes into the last segment where one byte is left behind it, else
/// into a new one; full is one that no segment can take, and one that needs a new segment where all but one are in use.
const PACKED: [(u16, &[(Step, Answer)]); 10] = [
    (
        2,
        &[
            (Step::Put(1, 4050), Answer::Stored),
            (Step::Put(2, 0), Answer::Full),
            (Step::Put(1, 4050), Answer::There),
            (Step::Put(1, 1), Answer::Clash),
        ],
    ),
    (
        2,
        &[
            (Step::Put(1, 4051), Answer::Full),
            (Step::Put(1, 4050), Answer::Stored),
        ],
    ),
    (
        2,
        &[
            (Step::Put(1, 2000), Answer::Stored),
            (Step::Put(2, 2000), Answer::Stored),
            (Step::Put(3, 0), Answer::Full),
        ],
    ),
    (
        3,
        &[
            (Step::Put(1, 4050), Answer::Stored),
            (Step::Put(2, 4050), Answer::Stored),
            (Step::Put(3, 4050), Answer::Full),
            (Step::Put(3, 0), Answer::Full),
        ],
    ),
    (
        3,
        &[
            (Step::Put(1, 2050), Answer::Stored),
            (Step::Put(2, 2050), Answer::Stored),
            (Step::Put(3, 1956), Answer::Full),
            (Step::Put(3, 1955), Answer::Stored),
            (Step::Put(4, 0), Answer::Full),
        ],
    ),
    (
        3,
        &[
            (Step::Put(1, 3000), Answer::Stored),
            (Step::Put(2, 2000), Answer::Stored),
            (Step::Put(3, 900), Answer::Stored),
            (Step::Put(4, 1060), Answer::Stored),
            (Step::Put(5, 0), Answer::Full),
        ],
    ),
    (
        2,
        &[
            (Step::Put(1, 4050), Answer::Stored),
            (Step::Delete(1), Answer::Full),
            (Step::Get(1), Answer::Blob(4050)),
        ],
    ),
    (
        2,
        &[
            (Step::Put(1, 4012), Answer::Stored),
            (Step::Delete(1), Answer::Done),
            (Step::Delete(2), Answer::Full),
            (Step::Delete(1), Answer::Done),
            (Step::Put(1, 4012), Answer::Gone),
        ],
    ),
    (
        4,
        &[
            (Step::MergeBlob(1, 4050), Answer::Done),
            (Step::MergeGone(2), Answer::Done),
            (Step::MergeBlob(3, 4013), Answer::Done),
            (Step::MergeGone(1), Answer::Full),
            (Step::MergeBlob(1, 9), Answer::Done),
            (Step::MergeAbsent(4), Answer::Done),
        ],
    ),
    (
        2,
        &[
            (Step::Put(1, 1000), Answer::Stored),
            (Step::Put(2, 4060), Answer::Full),
            (Step::Put(2, 3005), Answer::Stored),
            (Step::Put(3, 0), Answer::Full),
        ],
    ),
];

#[test]
fn records_are_packed_into_segments(rt: HostRuntime) -> Result<(), Fail> {
    for (segments, steps) in &PACKED {
        let disk = new_disk(rt.alloc(), *segments, Pick::Drop)?;
        let mut replica = open(&rt, rt.alloc(), disk, *segments);
        assert_steps(&rt, rt.alloc(), &mut replica, steps)?;
    }
    Ok(())
}

/// What is asked of a disk whose token cell is worn, and of one whose token cell isn't: what is there can be read in both.
const WORN: [(Step, Answer); 5] = [
    (Step::Get(1), Answer::Blob(2)),
    (Step::Put(2, 0), Answer::Full),
    (Step::Delete(1), Answer::Full),
    (Step::MergeGone(3), Answer::Full),
    (Step::Get(1), Answer::Blob(2)),
];

const FRESH: [(Step, Answer); 3] = [
    (Step::Get(1), Answer::Blob(2)),
    (Step::Put(2, 0), Answer::Stored),
    (Step::Get(2), Answer::Blob(0)),
];

/// A disk with one blob, whose token cell has an open slot with a sequence of this first byte and zeros.
fn with_tokens(rt: &impl Abort, alloc: Global, first: u8) -> Result<TestDisk, Fail> {
    let steps = [(Step::Put(1, 2), Answer::Stored)];
    let mut disk = run(rt, alloc, new_disk(alloc, 3, Pick::Drop)?, 3, &steps, 1)?;
    assert!(rt; disk.size() >= 4096);
    disk.write(2048, &[0x4F, first])?;
    disk.sync()?;
    Ok(disk)
}

#[test]
fn a_token_cell_is_worn_from_two_to_the_62_on(rt: HostRuntime) -> Result<(), Fail> {
    let alloc = rt.alloc();
    run(&rt, alloc, with_tokens(&rt, alloc, 0x40)?, 3, &WORN, 1)?;
    run(&rt, alloc, with_tokens(&rt, alloc, 0x3F)?, 3, &FRESH, 2)?;
    // A sequence of 2^63 closes the slot.
    run(&rt, alloc, with_tokens(&rt, alloc, 0x80)?, 3, &FRESH, 2)?;
    Ok(())
}

/// The device calls of an opening of a log without records.
const OPENING: u64 = 4;

/// A put that is cut off, and what is asked then.
const CUT: [(Step, Answer); 5] = [
    (Step::Put(1, 2), Answer::Fault),
    (Step::Get(1), Answer::Down),
    (Step::Peek(1), Answer::Down),
    (Step::Delete(1), Answer::Down),
    (Step::MergeAbsent(1), Answer::Down),
];

/// A put whose four calls pass, and asks that need no call of the disk, and one that does.
const WHOLE: [(Step, Answer); 6] = [
    (Step::Put(1, 2), Answer::Stored),
    (Step::Peek(1), Answer::There),
    (Step::Get(2), Answer::Absent),
    (Step::MergeAbsent(2), Answer::Done),
    (Step::MergeBlob(1, 3), Answer::Done),
    (Step::Get(1), Answer::Fault),
];

/// Puts a blob on a disk that passes so many calls of the append: the disk.
fn cut_put(rt: &impl Abort, alloc: Global, pick: Pick, passes: u32) -> Result<TestDisk, Fail> {
    let disk = run(rt, alloc, new_disk(alloc, 2, pick)?, 2, &[], 0)?;
    let mut replica = open(rt, alloc, fused(disk, OPENING + u64::from(passes)), 2);
    if passes < 4 {
        assert_steps(rt, alloc, &mut replica, &CUT)?;
    } else {
        assert_steps(rt, alloc, &mut replica, &WHOLE)?;
    }
    Ok(replica.close())
}

/// Stops a disk and opens it again: what a get answers.
fn get_after_stop(rt: &impl Abort, alloc: Global, mut disk: TestDisk) -> Answer {
    disk.stopped();
    let mut replica = open(rt, alloc, disk, 2);
    answer_of(&replica.get(&id_of(1)))
}

/// Cuts a put off in each of its calls. `opened` is what is found where the open gate was written and not synced.
fn assert_cuts(rt: &impl Abort, alloc: Global, pick: Pick, opened: Answer) -> Result<(), Fail> {
    for (passes, left) in [
        (0, Answer::Absent),
        (1, Answer::Absent),
        (2, opened),
        (3, opened),
        (4, Answer::Blob(2)),
    ] {
        let disk = cut_put(rt, alloc, pick, passes)?;
        let found = get_after_stop(rt, alloc, disk);
        assert_eq!(rt; found, left, "cut after {passes} calls at {pick:?}");
    }
    Ok(())
}

#[test]
fn a_cut_put_is_settled_by_the_opening(rt: HostRuntime) -> Result<(), Fail> {
    for (pick, opened) in [
        (Pick::Keep, Answer::Blob(2)),
        (Pick::Drop, Answer::Absent),
        (Pick::Fill(0x4F), Answer::Blob(2)),
        (Pick::Fill(0), Answer::Absent),
    ] {
        assert_cuts(&rt, rt.alloc(), pick, opened)?;
    }
    Ok(())
}

/// Asks, each of a replica that was opened anew, and how many calls of the disk each makes behind the opening.
const CALLS: [(Step, Answer, u64); 7] = [
    (Step::Put(1, 4000), Answer::Stored, 4),
    (Step::Get(1), Answer::Blob(4000), 1),
    (Step::Put(1, 4000), Answer::There, 1),
    (Step::Peek(1), Answer::There, 0),
    (Step::Get(2), Answer::Absent, 0),
    (Step::Delete(1), Answer::Done, 4),
    (Step::Get(1), Answer::Gone, 0),
];

/// Opens the replica of a disk, which answers these steps: the disk, and how many calls of it were made.
fn run_counted(
    rt: &impl Abort,
    alloc: Global,
    disk: TestDisk,
    steps: &[(Step, Answer)],
) -> Result<(TestDisk, u64), Fail> {
    let before = disk.calls;
    let mut replica = open(rt, alloc, disk, 2);
    assert_steps(rt, alloc, &mut replica, steps)?;
    let disk = replica.close();
    let made = disk.calls.saturating_sub(before);
    Ok((disk, made))
}

#[test]
fn asks_make_few_calls(rt: HostRuntime) -> Result<(), Fail> {
    let alloc = rt.alloc();
    let mut disk = run(&rt, alloc, new_disk(alloc, 2, Pick::Drop)?, 2, &[], 0)?;
    for (step, answer, calls) in CALLS {
        let (opened, opening) = run_counted(&rt, alloc, disk, &[])?;
        let (asked, made) = run_counted(&rt, alloc, opened, &[(step, answer)])?;
        assert_eq!(rt; made, opening.saturating_add(calls), "{answer:?}");
        disk = asked;
    }
    Ok(())
}

/// Two records of 50 bytes, of which the disk gives the first where the second is read.
#[test]
fn the_record_of_another_id_is_a_fault(rt: HostRuntime) -> Result<(), Fail> {
    let alloc = rt.alloc();
    let mut disk = new_disk(alloc, 2, Pick::Drop)?;
    disk.misread = Some(4096 + 50);
    let steps = [
        (Step::Put(1, 5), Answer::Stored),
        (Step::Put(2, 5), Answer::Stored),
        (Step::Get(1), Answer::Blob(5)),
        (Step::Get(2), Answer::Fault),
        (Step::Get(1), Answer::Down),
    ];
    run(&rt, alloc, disk, 2, &steps, 2)?;
    Ok(())
}

/// The record of an id: a put of a body of so many bytes, or a delete where there is none.
fn record_of(alloc: Global, lsn: u64, number: u64, len: Option<u16>) -> Result<Record, Memory>
    requires { lsn < 2 ^ 63 }
    ensures fields { IfOk result (λ entry. IsRecord entry) }
    ensures lsn { IfOk result (λ entry. lsn_of entry ≡ lsn) }
{
    let id = id_of(number);
    match len {
        Some(len) => Ok(Record::Put {
            lsn,
            id,
            blob: blob_of(alloc, len)?,
        }),
        None => Ok(Record::Delete {
            lsn,
            id,
            created: 5,
        }),
    }
}

/// Puts the record of an id last in a log, whatever its other records are.
fn append<D: Disk>(
    alloc: Global,
    log: &mut PartLog<D>,
    number: u64,
    len: Option<u16>,
) -> Result<u64, LogFault> {
    let lsn = log.end_lsn();
    if lsn >= 1 << 62 {
        return Err(LogFault::Full);
    }
    let entry = record_of(alloc, lsn, number, len)?;
    log.append(alloc, &entry)
}

/// A log that no replica wrote: a put stands behind the delete of its id, and another put behind the first one of its id.
#[test]
fn an_opening_joins_records(rt: HostRuntime) -> Result<(), Fail> {
    let alloc = rt.alloc();
    let disk = new_disk(alloc, 2, Pick::Drop)?;
    let settings = LogSettings {
        segment: 4096,
        segments: 2,
        index: 1000,
    };
    assert!(rt; disk.size() == 4096 + 2 * 4096);
    let mut none = Vec::new(alloc);
    let Ok(mut log) = PartLog::open(alloc, disk, settings, &mut none) else {
        panic!(rt; "not opened")
    };
    for (number, len) in [
        (1, Some(2)),
        (1, None),
        (1, Some(3)),
        (2, Some(4)),
        (2, Some(5)),
    ] {
        assert!(rt; append(alloc, &mut log, number, len).is_ok());
    }
    let mut replica = open(&rt, alloc, log.close(), 2);
    assert_eq!(rt; answer_of(&replica.get(&id_of(1))), Answer::Gone);
    assert_eq!(rt; answer_of(&replica.get(&id_of(2))), Answer::Blob(4));
    Ok(())
}
