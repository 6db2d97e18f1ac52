//! A script, run line by line on an open network.

ghost use Rattle.std.specs.Prelude.{◌≡◌, ◌≢◌, ◌⊎◌, ◌≤◌, ◌<◌, ◌+◌, ◌-◌, ◌^◌, ◌++◌, [], length, OnOk, OnErr, IfOk, IfErr, IsErrOf, MatchBool, Some, ℕ, Option};
ghost use Rattle.std.specs.Io.KnownBytes.{Appends};
ghost use Rattle.outside.specs.Causes.{Rose};
ghost use Rattle.world_model.specs.declared.shape.Shape.{Shape};
ghost use Rattle.world_model.specs.Advancing.{Advances};
ghost use Rattle.world_model.specs.Shape.{IsShape};
ghost use Rattle.router_core.specs.Stands.{Stands, is_idle, live_in};
ghost use Rattle.front_end.specs.declared.script.Command.TheVariants.{End as TheEnd};
ghost use Rattle.front_end.specs.Script.{command_of};
ghost use Rattle.front_end.specs.Session.{IsReady, ties_of};
ghost use Rattle.front_end.specs.Run.{HasFinished, HasStopped, WasCutOff, outside_of, status_of};
ghost use Rattle.front_end.specs.Running.{Closes, IsOn, WasOn, RunsLine, IsAll, IsSome, IsRunning, RanLines, found_memory};

use crate::lines::{LineReader, Next, Stop};
use crate::session::Session;
use blob_id::Memory;
use outside::{Failed, Random, Sink, Source};
use std::alloc::Global;
use world_model::{Fabric, Shape};

/// How a script came to its end.
#[derive(Clone, Copy)]
pub enum Ending {
    /// The input was read to its end.
    AtEnd,
    /// A line ended the script.
    AtEndLine,
    /// A byte more was read than a script may have.
    PastLimit,
}

/// Runs a script on an open network.
pub(crate) fn run_script<S: Source, K: Sink, U: Random, F: Fabric>(
    alloc: Global,
    shape: &Shape,
    fabric: &mut F,
    input: &mut S,
    output: &mut K,
    random: &mut U,
) -> Result<u8, Stop>
    requires shape { IsShape shape.now }
    requires limit { shape.now.chunk ≡ 65536 }
    requires open { F.opened fabric.old ≡ Some shape.now }
    requires quiet { (router : _) → Stands router [] → ties_of router (F.told fabric.old) [] }
    ensures finished { IfOk result (λ status. IsOn F.told shape.now fabric.new (λ tie. HasFinished shape.now tie status (outside_of (S.left input.old) (S.left input.new) (K.taken output.old) (K.taken output.new) (U.ahead random.old) (U.ahead random.new)))) }
    ensures status { IfOk result (λ status. (status ≡ 0) ⊎ ((status ≡ 2) ⊎ (status ≡ 8))) }
    ensures stopped { IsErrOf result Stop.Source → IsOn F.told shape.now fabric.new (λ tie. HasStopped shape.now tie (outside_of (S.left input.old) (S.left input.new) (K.taken output.old) (K.taken output.new) (U.ahead random.old) (U.ahead random.new)) (U.ahead random.new)) }
    ensures cut { IsErrOf result Stop.Sink → IsOn F.told shape.now fabric.new (λ tie. WasCutOff shape.now tie (outside_of (S.left input.old) (S.left input.new) (K.taken output.old) (K.taken output.new) (U.ahead random.old) (U.ahead random.new))) }
    ensures refused { IsErrOf result Stop.Memory → (words : _) × WasOn F.faults F.opened F.runs F.advances F.told shape.now fabric.old fabric.new (λ tie. HasStopped shape.now tie (outside_of (S.left input.old) (S.left input.new) (K.taken output.old) (K.taken output.new) (U.ahead random.old) (U.ahead random.new)) words) }
    ensures source { IsErrOf result Stop.Source → Rose (S.faults input.old) (S.faults input.new) }
    ensures sink { IsErrOf result Stop.Sink → Rose (K.faults output.old) (K.faults output.new) }
    ensures net { Advances F.faults F.opened F.runs F.advances fabric.old fabric.new (found_memory result) }
{
    let mut session = Session::new(alloc, *shape);
    let ending = run_lines(alloc, &mut session, fabric, input, output, random)?;
    finish(alloc, &mut session, fabric, output)?;
    Ok(status_of(ending, session.bad))
}

/// Takes events until the last operation is over, and writes its end.
fn finish<K: Sink, F: Fabric>(
    alloc: Global,
    session: &mut Session,
    fabric: &mut F,
    output: &mut K,
) -> Result<(), Stop>
    requires ready { IsReady session.old }
    requires open { F.opened fabric.old ≡ Some session.old.router.shape }
    ensures ok { OnOk result (Closes session.old session.new (ties_of session.old.router (F.told fabric.old)) (ties_of session.new.router (F.told fabric.new)) (K.taken output.old) (K.taken output.new) IsAll) }
    ensures cut { IsErrOf result Stop.Sink → Closes session.old session.new (ties_of session.old.router (F.told fabric.old)) (ties_of session.new.router (F.told fabric.new)) (K.taken output.old) (K.taken output.new) IsSome }
    ensures shape { session.new.router.shape ≡ session.old.router.shape }
    ensures memory { IsErrOf result Stop.Memory → Appends (K.taken output.old) (K.taken output.new) [] }
    ensures source { IfErr result (λ e. e ≢ Stop.Source) }
    ensures later { K.faults output.old ≤ K.faults output.new }
    ensures sink { IsErrOf result Stop.Sink → Rose (K.faults output.old) (K.faults output.new) }
    ensures net { Advances F.faults F.opened F.runs F.advances fabric.old fabric.new (found_memory result) }
{
    let mut out = Vec::new(alloc);
    session.finish(alloc, fabric, &mut out)?;
    match write_all(output, out.as_slice()) {
        Ok(()) => Ok(()),
        Err(Failed) => Err(Stop::Sink),
    }
}

fn status_of(ending: Ending, bad: bool) -> u8
    ensures { result ≡ status_of ending bad }
{
    match ending {
        Ending::PastLimit => 8,
        Ending::AtEnd | Ending::AtEndLine => { if bad { 2 } else { 0 } }
    }
}

/// Writes all the bytes. After a failure some first ones of them were written.
pub(crate) fn write_all<K: Sink>(output: &mut K, bytes: &[u8]) -> Result<(), Failed>
    ensures ok { OnOk result (Appends (K.taken output.old) (K.taken output.new) bytes.now) }
    ensures err { OnErr result ((written : _) × IsSome bytes.now written × Appends (K.taken output.old) (K.taken output.new) written) }
    ensures later { K.faults output.old ≤ K.faults output.new }
    ensures cause { OnErr result (Rose (K.faults output.old) (K.faults output.new)) }
{
    let mut rest = bytes;
    'writing: while !rest.is_empty() {
        let count = output.write(rest)?;
        let (_, after) = rest.split_at(count);
        rest = after;
    }
    Ok(())
}

/// Carries out a line and writes what it adds to the transcript. Says whether the script goes on.
fn run_line<K: Sink, U: Random, F: Fabric>(
    alloc: Global,
    session: &mut Session,
    fabric: &mut F,
    line: &[u8],
    output: &mut K,
    random: &mut U,
) -> Result<bool, Stop>
    requires lines { session.old.lines < 2 ^ 31 - 1 }
    requires tags { length session.old.tags ≤ session.old.lines }
    requires ready { IsReady session.old }
    requires open { F.opened fabric.old ≡ Some session.old.router.shape }
    ensures carried { OnOk result (RunsLine session.old.router.shape line.now session.old session.new (ties_of session.old.router (F.told fabric.old)) (ties_of session.new.router (F.told fabric.new)) (U.ahead random.old) (U.ahead random.new) (K.taken output.old) (K.taken output.new) IsAll) }
    ensures goes_on { IfOk result (λ more. MatchBool more (command_of session.old.tags line.now ≢ Some TheEnd) (command_of session.old.tags line.now ≡ Some TheEnd)) }
    ensures lines { OnOk result (session.new.lines ≡ session.old.lines + 1) }
    ensures tags { OnOk result (length session.new.tags ≤ session.new.lines) }
    ensures ready { OnOk result (IsReady session.new) }
    ensures shape { session.new.router.shape ≡ session.old.router.shape }
    ensures cut { IsErrOf result Stop.Sink → RunsLine session.old.router.shape line.now session.old session.new (ties_of session.old.router (F.told fabric.old)) (ties_of session.new.router (F.told fabric.new)) (U.ahead random.old) (U.ahead random.new) (K.taken output.old) (K.taken output.new) IsSome }
    ensures memory { IsErrOf result Stop.Memory → Appends (K.taken output.old) (K.taken output.new) [] }
    ensures source { IfErr result (λ e. e ≢ Stop.Source) }
    ensures later { K.faults output.old ≤ K.faults output.new }
    ensures cause { IsErrOf result Stop.Sink → Rose (K.faults output.old) (K.faults output.new) }
    ensures net { Advances F.faults F.opened F.runs F.advances fabric.old fabric.new (found_memory result) }
{
    let mut out = Vec::new(alloc);
    let goes_on = session.carry_out(alloc, line, random, fabric, &mut out)?;
    match write_all(output, out.as_slice()) {
        Ok(()) => Ok(goes_on),
        Err(Failed) => Err(Stop::Sink),
    }
}

/// Carries out the lines of a script, up to its end.
fn run_lines<S: Source, K: Sink, U: Random, F: Fabric>(
    alloc: Global,
    session: &mut Session,
    fabric: &mut F,
    input: &mut S,
    output: &mut K,
    random: &mut U,
) -> Result<Ending, Stop>
    requires fresh { IsRunning session.old.router.shape (S.left input.old) (S.left input.old) (K.taken output.old) (K.taken output.old) [] 0 session.old (ties_of session.old.router (F.told fabric.old)) (U.ahead random.old) (U.ahead random.old) }
    requires lines { session.old.lines ≡ 0 }
    requires tags { length session.old.tags ≡ 0 }
    requires ready { IsReady session.old }
    requires open { F.opened fabric.old ≡ Some session.old.router.shape }
    ensures ran { IfOk result (λ ending. RanLines session.old.router.shape (S.left input.old) (S.left input.new) (K.taken output.old) (K.taken output.new) session.new (ties_of session.new.router (F.told fabric.new)) (U.ahead random.old) (U.ahead random.new) ending) }
    ensures ready { OnOk result (IsReady session.new) }
    ensures shape { session.new.router.shape ≡ session.old.router.shape }
    ensures stopped { IsErrOf result Stop.Source → IsOn F.told session.old.router.shape fabric.new (λ tie. HasStopped session.old.router.shape tie (outside_of (S.left input.old) (S.left input.new) (K.taken output.old) (K.taken output.new) (U.ahead random.old) (U.ahead random.new)) (U.ahead random.new)) }
    ensures cut { IsErrOf result Stop.Sink → IsOn F.told session.old.router.shape fabric.new (λ tie. WasCutOff session.old.router.shape tie (outside_of (S.left input.old) (S.left input.new) (K.taken output.old) (K.taken output.new) (U.ahead random.old) (U.ahead random.new))) }
    ensures refused { IsErrOf result Stop.Memory → (words : _) × WasOn F.faults F.opened F.runs F.advances F.told session.old.router.shape fabric.old fabric.new (λ tie. HasStopped session.old.router.shape tie (outside_of (S.left input.old) (S.left input.new) (K.taken output.old) (K.taken output.new) (U.ahead random.old) (U.ahead random.new)) words) }
    ensures source { IsErrOf result Stop.Source → Rose (S.faults input.old) (S.faults input.new) }
    ensures sink { IsErrOf result Stop.Sink → Rose (K.faults output.old) (K.faults output.new) }
    ensures later { K.faults output.old ≤ K.faults output.new }
    ensures net { Advances F.faults F.opened F.runs F.advances fabric.old fabric.new (found_memory result) }
{
    let mut reader = LineReader::new(alloc)?;
    'lines: loop {
        match reader.next_line(alloc, input)? {
            Next::Line(line) => {
                let more = run_line(alloc, session, fabric, line.as_slice(), output, random)?;
                if !more {
                    return Ok(Ending::AtEndLine);
                }
            }
            Next::Last(line) => {
                let _ = run_line(alloc, session, fabric, line.as_slice(), output, random)?;
                return Ok(Ending::AtEnd);
            }
            Next::Limit => return Ok(Ending::PastLimit),
        }
    }
}
