//! The lines of a script, as they come from a source.
//!
//! A line ends at byte 0A or at the end of the input. One 0D directly before the 0A belongs to the line end; a last line
//! without 0A keeps its 0D. At most 67,108,864 bytes of a script are read, and only when each whole line of these was
//! handed out and the source may still have more, one byte more: where there is one, the script is too long.

ghost use Rattle.std.specs.Prelude.{◌≡◌, ◌≢◌, ◌≤◌, ◌<◌, ◌+◌, ◌-◌, ◌++◌, ◌∷◌, [], length, take, IfOk, IfErr, OnOk, MatchBool};
ghost use Rattle.front_end.specs.Lines.{EndsAt, HasNoEnd, without_return, TakesNext, ReadsBytes, UsesBudget, KeepsLimit, Brings, budget};
ghost use Rattle.outside.specs.Causes.{Rose};
ghost use Rattle.front_end.specs.declared.lines.Stop.TheVariants.{Memory as NoMemory};
ghost use Rattle.std.specs.Io.KnownBytes.{Consumes, IsAtEnd};

use blob_id::{Bytes, Memory};
use outside::{Failed, Source};
use std::alloc::Global;
use std::marker::Model;

/// The most bytes of a script.
pub const SCRIPT_LIMIT: u64 = 67_108_864;

/// The most bytes of one read.
const CHUNK: u64 = 65_536;

/// What stands next in a script.
#[derive(Drop)]
pub enum Next {
    /// A line, without its line end.
    Line(Bytes),
    /// The rest of the input, which has no line end. It may be empty.
    Last(Bytes),
    /// The script has more bytes than it may have, and each whole line within the limit was handed out.
    Limit,
}

/// Why a run ends at once.
#[derive(Drop)]
pub enum Stop {
    /// The source failed.
    Source,
    /// The sink failed.
    Sink,
    /// An allocation was refused.
    Memory,
}

impl From<Memory> for Stop {
    ghost from_gives = { λ _ e. e ≡ NoMemory };

    fn from(_refused: Memory) -> Stop {
        Stop::Memory
    }
}

/// What one read brought.
#[derive(Drop)]
enum Came {
    /// Some bytes, within the limit.
    More,
    /// Nothing: the source is at its end.
    End,
    /// One byte past the limit.
    PastLimit,
}

/// Cuts what a source gives into lines. It reads into one buffer, and copies a line once, into what it hands out. A
/// clause sees the bytes that were read and not yet taken (`waiting`), and how many were read so far (`total`).
#[derive(Drop)]
pub struct LineReader {
    /// 65,536 bytes, which each read writes from their start.
    chunk: Vec<u8>,
    /// Those from `place` up to `filled` were read and not yet taken.
    place: usize,
    filled: usize,
    /// How many bytes were read.
    total: u64,
}

impl Model for LineReader {
    ghost use Rattle.std.specs.Prelude.{◌≡◌, ◌≤◌, length, take, drop};
    ghost use Rattle.front_end.specs.Lines.{Reading};

    ghost Value = { Reading };

    ghost view = { λ r. record { waiting = drop r.place (take r.filled r.chunk.items); total = r.total } };

    ghost invariant = { λ r. (r.place ≤ r.filled) × (r.filled ≤ 65536) × (length r.chunk.items ≡ 65536) × (r.total ≤ 67108865) };
}

impl LineReader {
    /// A reader that has read nothing. It takes the memory of its one buffer, or answers `Memory`.
    pub fn new(alloc: Global) -> Result<Self, Memory>
        ensures waiting { IfOk result (λ reader. reader.waiting ≡ []) }
        ensures total { IfOk result (λ reader. reader.total ≡ 0) }
    {
        Ok(LineReader {
            chunk: vec![in alloc; 0u8; CHUNK as usize]?,
            place: 0,
            filled: 0,
            total: 0,
        })
    }

    /// Moves what stands before the next line end into the line, and says whether there is a line end. Where there
    /// is none, all that waits is moved.
    fn take_line(&mut self, line: &mut Vec<u8>) -> Result<bool, Memory>
        ensures total { self.new.total ≡ self.old.total }
        ensures found { IfOk result (λ found. MatchBool found
            ((raw : _) × HasNoEnd raw × (line.new.items ≡ line.old.items ++ raw) × (self.old.waiting ≡ raw ++ 10 ∷ self.new.waiting))
            (HasNoEnd self.old.waiting × (line.new.items ≡ line.old.items ++ self.old.waiting) × (self.new.waiting ≡ []))) }
    {
        let waiting = &self.chunk[self.place..self.filled];
        match line_end(waiting) {
            Some(length) => {
                line.extend_from_slice(&waiting[..length])?;
                self.place += length + 1;
                Ok(true)
            }
            None => {
                line.extend_from_slice(waiting)?;
                self.place = self.filled;
                Ok(false)
            }
        }
    }

    /// Reads once, in place of the bytes that were taken: up to the limit, and at the limit one byte more.
    fn fill<S: Source>(&mut self, input: &mut S) -> Result<Came, Stop>
        requires left { self.old.total ≤ 67108864 }
        requires taken { self.old.waiting ≡ [] }
        ensures came { IfOk result (λ came. Brings (S.left input.old) (S.left input.new) self.old self.new came) }
        ensures gone { (gone : _) × Consumes (S.left input.old) (S.left input.new) gone × (self.old.total + length gone ≤ 67108865) }
        ensures later { S.faults input.old ≤ S.faults input.new }
        ensures cause { IfErr result (λ e. (e ≡ Stop.Source) × Rose (S.faults input.old) (S.faults input.new)) }
    {
        let room = (SCRIPT_LIMIT - self.total).min(CHUNK).max(1) as usize;
        let count = read_front(&mut self.chunk, room, input)?;
        self.place = 0;
        self.filled = count;
        self.total += count as u64;
        if count == 0 {
            Ok(Came::End)
        } else if self.total <= SCRIPT_LIMIT {
            Ok(Came::More)
        } else {
            self.place = count;
            Ok(Came::PastLimit)
        }
    }

    /// What stands next in the script. After `Last` the source is at its end; after `Limit` nothing more may be asked.
    /// `Source` is answered where a read failed, and `Memory` where a line found no room: what was waiting may be lost
    /// then, so that the run ends there. At every answer no more was read than the limit and one byte.
    pub fn next_line<S: Source>(&mut self, alloc: Global, input: &mut S) -> Result<Next, Stop>
        requires { self.old.total ≤ 67108864 }
        ensures next { IfOk result (λ next. TakesNext (S.left input.old) (S.left input.new) self.old.waiting self.new.waiting next) }
        ensures read { IfOk result (λ next. ReadsBytes (S.left input.old) (S.left input.new) self.old.total self.new.total) }
        ensures budget { IfOk result (λ next. UsesBudget next (budget self.old.total self.old.waiting) (budget self.new.total self.new.waiting)) }
        ensures limit { IfOk result (λ next. KeepsLimit next self.new.total) }
        ensures gone { (gone : _) × Consumes (S.left input.old) (S.left input.new) gone × (self.old.total + length gone ≤ 67108865) }
        ensures later { S.faults input.old ≤ S.faults input.new }
        ensures cause { IfErr result (λ e. e ≡ Stop.Source → Rose (S.faults input.old) (S.faults input.new)) }
        ensures no_sink { IfErr result (λ e. e ≢ Stop.Sink) }
    {
        let mut line = Vec::new(alloc);
        'reading: loop {
            let found = self.take_line(&mut line)?;
            if found {
                drop_return(&mut line);
                return Ok(Next::Line(Bytes::from_vec(line)));
            }
            match self.fill(input)? {
                Came::More => {}
                Came::End => return Ok(Next::Last(Bytes::from_vec(line))),
                Came::PastLimit => return Ok(Next::Limit),
            }
        }
    }
}

/// Reads into the first bytes of a buffer, as many as there is room for.
fn read_front<S: Source>(buffer: &mut [u8], room: usize, input: &mut S) -> Result<usize, Stop>
    requires some { 0 < room }
    requires fits { room ≤ length buffer.old }
    ensures count { IfOk result (λ count. count ≤ room) }
    ensures bytes { IfOk result (λ count. Consumes (S.left input.old) (S.left input.new) (take count buffer.new) × (count ≡ 0 → IsAtEnd (S.left input.new))) }
    ensures none { IfErr result (λ _. Consumes (S.left input.old) (S.left input.new) []) }
    ensures later { S.faults input.old ≤ S.faults input.new }
    ensures cause { IfErr result (λ e. (e ≡ Stop.Source) × Rose (S.faults input.old) (S.faults input.new)) }
{
    match input.read(&mut buffer[..room]) {
        Ok(count) => Ok(count),
        Err(Failed) => Err(Stop::Source),
    }
}

/// The place of the first line end.
fn line_end(bytes: &[u8]) -> Option<usize>
    ensures { EndsAt bytes.now result }
{
    bytes.iter().position(|byte| *byte == b'\n')
}

/// Takes the carriage return away that belongs to the line end.
fn drop_return(line: &mut Vec<u8>)
    ensures { line.new.items ≡ without_return line.old.items }
{
    let length = line.len().saturating_sub(1);
    if line.get(length).copied() == Some(b'\r') {
        line.truncate(length);
    }
}
