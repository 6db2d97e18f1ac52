//! Runs a script over nodes in one process, whose disks are files.
//!
//! The script comes from standard input, the transcript goes to standard output, and the exit status tells how the run ended.
//! The files lie in the folder that the words name, below the current one, and stay for later runs, which take other `--ids`.
//! Where the status is 5 because a file or its folder failed, one line on standard error says why.
//! The words, the lines of a script and the statuses are those of `front_end::run_lab`.
//!
//! # What it is made of
//!
//! `main` makes the real objects (standard input and output, files as disks, the seeded schedule, counted ids) and hands them
//! to `run_lab`, which does the rest.
//!
//! # Proved
//!
//! That it is safe and returns, and what `run_lab` promises of objects that tell nothing: over files nothing is said of what
//! the disks hold.
//!
//! # Tested
//!
//! Its stored run is a put and a get. Of the checks in `tests/`, `repository.sh` runs the examples with their transcripts, and
//! one script under a hundred schedules. The others run the program over real files: `folder.sh` kills runs, `disks.sh` opens
//! what an earlier program wrote, `files.sh` looks at the calls of the system, and `refusals.sh` at what is said of failures.
//!
//! # Trusted
//!
//! That a file keeps the model of a disk. A folder is held by a lock, which binds only those that ask for it.
#![tactic(auto)]

use blob_id::{Memory, Words};
use disk_core::FileBays;
use front_end::run_lab;
use outside::{CountRandom, StdSink, StdSource};
use std::process::ExitCode;
use std::{env, io};
use world_model::SeedMoves;

fn main(rt: HostRuntime) -> ExitCode {
    let words = read_words(&rt);
    let mut input = StdSource::new(rt.reader());
    let mut output = StdSink::new(io::writer(&rt));
    let mut bays = FileBays::new(rt.alloc(), rt);
    let mut moves = SeedMoves::new(rt.alloc());
    let mut random = CountRandom::new(0, 0);
    let status = match words {
        Ok(words) => run_lab(
            rt.alloc(),
            &words,
            &mut input,
            &mut output,
            &mut bays,
            &mut moves,
            &mut random,
        ),
        Err(Memory) => 6,
    };
    if status == 5
        && let Some(fault) = bays.last_fault()
    {
        // The status stands, whether or not this can be written.
        let _ = eprintln!(rt; "ambry_lab: {fault}");
    }
    ExitCode::from(status)
}

/// The words of the command line. Where they can't be read, there are none, which is outside the grammar.
fn read_words<R: std::rt::Env + AllocGlobal>(rt: &R) -> Result<Words, Memory> {
    let alloc = rt.alloc();
    let mut words = Words::new(alloc);
    let Ok(args) = env::args(rt) else {
        return Ok(words);
    };
    for word in args.skip(1) {
        words.push(alloc, word.as_str())?;
    }
    Ok(words)
}
