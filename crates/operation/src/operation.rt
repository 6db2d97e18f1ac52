//! What every operation does.

ghost use Rattle.std.specs.Prelude.{◌≡◌, ◌++◌, ◌∷◌, List, Some, IfOk};
ghost use Rattle.operation.specs.Calls.{Call, Cancelled, Missed, Plan, Replied, after_poll, asked_frame, sent_all, unless_nothing, unless_starved};
ghost use Rattle.operation.specs.Giving.{Polls};
ghost use Rattle.req_frame.specs.declared.frame.Body.{Body};
ghost use Rattle.req_frame.specs.Reading.{frame_of};

use crate::sending::{Poll, Sending};
use blob_id::{Bytes, Memory};
use cell_model::Reply;
use quorum_op::Cause;
use std::alloc::Global;

/// A put, a get or a delete. What it answers is a function of the list of its calls. After it gave its outcome every call does nothing,
/// but that `sends` of a put gives, once, the removals of the ids that it gives up.
pub trait Operation {
    /// What its calls come to.
    ghost plan: { Self → Plan };

    /// It stands where these calls, the newest first, bring it.
    ghost stands: { Self → List Call → Type 0 };

    /// Adds the requests that are to be sent now. `order` lists replicas in the order of asking; a number that is no replica is passed
    /// over, and one that stands twice counts once. After `Memory` nothing was added.
    fn sends(&mut self, alloc: Global, order: &[u32], out: &mut Vec<Sending>) -> Result<(), Memory>
        ensures same { plan self.new ≡ plan self.old }
        ensures adds { (calls : List Call) → stands self.old calls → out.new.items ≡ out.old.items ++ unless_nothing result ((plan self.old).wants calls order.now) }
        ensures goes_on { (calls : List Call) → stands self.old calls → stands self.new (unless_starved result (sent_all ((plan self.old).wants calls order.now) calls) calls) };

    /// The bytes of a request's frame, under a correlation.
    fn spell(&mut self, alloc: Global, sending: &Sending, correlation: u64) -> Result<Bytes, Memory>
        ensures same { plan self.new ≡ plan self.old }
        ensures stays { (calls : List Call) → stands self.old calls → stands self.new calls }
        ensures spells { (calls : List Call) → stands self.old calls → (body : Body) → (plan self.old).body calls sending.now.errand ≡ Some body → IfOk result (λ bytes. frame_of bytes ≡ Some (asked_frame correlation sending.now body)) };

    /// Takes a reply to a request. One to a request that isn't outstanding does nothing.
    fn on_reply(&mut self, alloc: Global, request: u32, reply: Reply) -> Result<(), Memory>
        ensures same { plan self.new ≡ plan self.old }
        ensures goes_on { (calls : List Call) → stands self.old calls → stands self.new (unless_starved result (Replied request reply ∷ calls) calls) };

    /// Takes the failure of a request. One of a request that isn't outstanding does nothing.
    fn on_fail(&mut self, request: u32, cause: Cause)
        ensures same { plan self.new ≡ plan self.old }
        ensures goes_on { (calls : List Call) → stands self.old calls → stands self.new (Missed request cause ∷ calls) };

    /// Ends it, if it is pending.
    fn cancel(&mut self)
        ensures same { plan self.new ≡ plan self.old }
        ensures goes_on { (calls : List Call) → stands self.old calls → stands self.new (Cancelled ∷ calls) };

    /// Gives the outcome, once. Where there is no memory for it, the outcome is want of memory.
    fn poll(&mut self, alloc: Global) -> Poll
        ensures same { plan self.new ≡ plan self.old }
        ensures answers { (calls : List Call) → stands self.old calls → Polls (plan self.old) calls result }
        ensures goes_on { (calls : List Call) → stands self.old calls → stands self.new (after_poll result calls) };
}
