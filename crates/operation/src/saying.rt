//! What a reply says to a request.

ghost use Rattle.std.specs.Prelude.{◌≡◌, ℕ, Bool, Some};
ghost use Rattle.operation.specs.Notes.{learnt_finding};
ghost use Rattle.world_model.specs.Notes.{reply_says};
ghost use Rattle.world_model.specs.declared.asking.Asking.TheVariants.{Put, Get, Peek, Delete, Other};

use cell_model::Reply;
use quorum_op::{Cause, Finding};
use world_model::Asking;

/// What a reply says to a request, where `stated` tells that its replica stands at State.
pub fn reply_finding(stated: bool, asking: Asking, reply: &Reply) -> Finding
    ensures { learnt_finding (reply_says stated asking reply.now) ≡ Some result }
{
    match asking {
        Asking::Put => put_finding(reply),
        Asking::Get => get_finding(stated, reply),
        Asking::Peek => peek_finding(stated, reply),
        Asking::Delete => delete_finding(reply),
        Asking::Other => other_finding(reply),
    }
}

fn put_finding(reply: &Reply) -> Finding
    ensures { (stated : Bool) → learnt_finding (reply_says stated Put reply.now) ≡ Some result }
{
    match reply {
        Reply::Stored | Reply::There => Finding::Yes,
        Reply::Clash => Finding::Failed(Cause::Clash),
        Reply::Gone => Finding::Failed(Cause::Gone),
        Reply::Full => Finding::Failed(Cause::Full),
        Reply::Fault => Finding::Failed(Cause::Fault),
        Reply::Down => Finding::Failed(Cause::Down),
        Reply::Memory => Finding::Failed(Cause::Memory),
        Reply::Blob(_)
        | Reply::Absent
        | Reply::Done
        | Reply::NoPartition
        | Reply::Page(_)
        | Reply::End(_)
        | Reply::Token(_)
        | Reply::Planned
        | Reply::Nothing
        | Reply::More
        | Reply::Copied
        | Reply::Reclaimed(_)
        | Reply::NoPlan => Finding::Failed(Cause::Stray),
    }
}

fn get_finding(stated: bool, reply: &Reply) -> Finding
    ensures { learnt_finding (reply_says stated Get reply.now) ≡ Some result }
{
    match reply {
        Reply::Blob(_) => Finding::Yes,
        Reply::Gone => Finding::Gone,
        Reply::Absent => {
            if stated {
                Finding::Failed(Cause::Stray)
            } else {
                Finding::Absent
            }
        }
        Reply::Fault => Finding::Failed(Cause::Fault),
        Reply::Down => Finding::Failed(Cause::Down),
        Reply::Memory => Finding::Failed(Cause::Memory),
        Reply::Stored
        | Reply::There
        | Reply::Clash
        | Reply::Done
        | Reply::Full
        | Reply::NoPartition
        | Reply::Page(_)
        | Reply::End(_)
        | Reply::Token(_)
        | Reply::Planned
        | Reply::Nothing
        | Reply::More
        | Reply::Copied
        | Reply::Reclaimed(_)
        | Reply::NoPlan => Finding::Failed(Cause::Stray),
    }
}

fn peek_finding(stated: bool, reply: &Reply) -> Finding
    ensures { learnt_finding (reply_says stated Peek reply.now) ≡ Some result }
{
    match reply {
        Reply::There => Finding::State,
        Reply::Gone => Finding::Gone,
        Reply::Absent => {
            if stated {
                Finding::Failed(Cause::Stray)
            } else {
                Finding::Absent
            }
        }
        Reply::Fault => Finding::Failed(Cause::Fault),
        Reply::Down => Finding::Failed(Cause::Down),
        Reply::Memory => Finding::Failed(Cause::Memory),
        Reply::Stored
        | Reply::Blob(_)
        | Reply::Clash
        | Reply::Done
        | Reply::Full
        | Reply::NoPartition
        | Reply::Page(_)
        | Reply::End(_)
        | Reply::Token(_)
        | Reply::Planned
        | Reply::Nothing
        | Reply::More
        | Reply::Copied
        | Reply::Reclaimed(_)
        | Reply::NoPlan => Finding::Failed(Cause::Stray),
    }
}

fn delete_finding(reply: &Reply) -> Finding
    ensures { (stated : Bool) → learnt_finding (reply_says stated Delete reply.now) ≡ Some result }
{
    match reply {
        Reply::Done => Finding::Yes,
        Reply::Full => Finding::Failed(Cause::Full),
        Reply::Fault => Finding::Failed(Cause::Fault),
        Reply::Down => Finding::Failed(Cause::Down),
        Reply::Memory => Finding::Failed(Cause::Memory),
        Reply::Stored
        | Reply::There
        | Reply::Clash
        | Reply::Gone
        | Reply::Blob(_)
        | Reply::Absent
        | Reply::NoPartition
        | Reply::Page(_)
        | Reply::End(_)
        | Reply::Token(_)
        | Reply::Planned
        | Reply::Nothing
        | Reply::More
        | Reply::Copied
        | Reply::Reclaimed(_)
        | Reply::NoPlan => Finding::Failed(Cause::Stray),
    }
}

fn other_finding(reply: &Reply) -> Finding
    ensures { (stated : Bool) → learnt_finding (reply_says stated Other reply.now) ≡ Some result }
{
    match reply {
        Reply::Fault => Finding::Failed(Cause::Fault),
        Reply::Down => Finding::Failed(Cause::Down),
        Reply::Memory => Finding::Failed(Cause::Memory),
        Reply::Stored
        | Reply::There
        | Reply::Clash
        | Reply::Gone
        | Reply::Blob(_)
        | Reply::Absent
        | Reply::Done
        | Reply::Full
        | Reply::NoPartition
        | Reply::Page(_)
        | Reply::End(_)
        | Reply::Token(_)
        | Reply::Planned
        | Reply::Nothing
        | Reply::More
        | Reply::Copied
        | Reply::Reclaimed(_)
        | Reply::NoPlan => Finding::Failed(Cause::Stray),
    }
}
