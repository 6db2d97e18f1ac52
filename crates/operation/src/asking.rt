//! Asking replicas, along an order.

ghost use Rattle.std.specs.Prelude.{◌≡◌, ◌+◌, ◌-◌, ◌<◌, ◌≤◌, ◌^◌, ◌++◌, ◌∷◌, [], ℕ, Bool, List, OnOk, length, vec_len, vec_capacity};
ghost use Rattle.std.specs.Option.{option_to_list};
ghost use Rattle.operation.specs.Calls.{Call, sent_all};
ghost use Rattle.operation.specs.Pieces.{Target};
ghost use Rattle.operation.specs.Wants.{HasSent, asked_if, next_request, sends_along, upto};
ghost use Rattle.operation.specs.declared.sending.Errand.{Errand};
ghost use Rattle.operation.specs.declared.sending.Purpose.{Purpose};

use crate::sending::Sending;
use blob_id::Memory;

/// What asks replicas for one thing.
pub trait Asker {
    /// Whether a replica is asked behind these calls.
    ghost passes: { Target → List Call → ℕ → Bool };

    /// What the requests are for.
    ghost purpose: { Target → Purpose };

    /// What they ask.
    ghost errand: { Self → Errand };

    /// It asks for this, and stands where these calls, the newest first, bring it.
    ghost stands: { Self → Target → List Call → Type 0 };

    /// Asks a replica by a request of this number, if it is to be asked now, and answers the request.
    fn ask(&mut self, request: u32, replica: u32) -> Option<Sending>
        ensures same { errand self.new ≡ errand self.old }
        ensures asked { (t : Target) (calls : List Call) → stands self.old t calls → result ≡ asked_if (passes t calls replica) (record { request = request; replica = replica; purpose = purpose t; errand = errand self.old }) }
        ensures goes_on { (t : Target) (calls : List Call) → stands self.old t calls → stands self.new t (sent_all (option_to_list result) calls) };
}

/// Asks along an order, by requests that are numbered on from the first, and adds them. Answers the number of the next request. A number
/// that is no replica is passed over.
pub fn send_along<A: Asker>(asker: &mut A, first: u32, order: &[u32], out: &mut Vec<Sending>) -> u32
    requires room { vec_len out.old + length order.now ≤ vec_capacity out.old }
    requires numbers { first + length order.now < 2 ^ 32 }
    ensures same { A.errand asker.new ≡ A.errand asker.old }
    ensures sent { (t : Target) (calls : List Call) → A.stands asker.old t calls → first ≡ next_request calls → HasSent (A.stands asker.new t) (sends_along (A.passes t) (A.purpose t) (A.errand asker.old) calls order.now) calls out.old.items out.new.items result }
    ensures len { vec_len out.new ≤ vec_len out.old + length order.now }
    ensures room { vec_capacity out.old ≤ vec_capacity out.new }
    ensures few { result ≤ first + length order.now }
{
    let mut request = first;
    for replica in order {
        request = ask_one(asker, request, *replica, out);
    }
    request
}

/// Asks a replica, if it is to be asked now, and answers the number of the next request.
fn ask_one<A: Asker>(asker: &mut A, request: u32, replica: u32, out: &mut Vec<Sending>) -> u32
    requires room { vec_len out.old < vec_capacity out.old }
    requires numbers { request < 2 ^ 32 - 1 }
    ensures same { A.errand asker.new ≡ A.errand asker.old }
    ensures sent { (t : Target) (calls : List Call) → A.stands asker.old t calls → request ≡ next_request calls → HasSent (A.stands asker.new t) (option_to_list (asked_if (A.passes t calls replica) (record { request = request; replica = replica; purpose = A.purpose t; errand = A.errand asker.old }))) calls out.old.items out.new.items result }
    ensures len { vec_len out.new ≤ vec_len out.old + 1 }
    ensures room { vec_capacity out.old ≤ vec_capacity out.new }
    ensures few { result ≤ request + 1 }
{
    match asker.ask(request, replica) {
        Some(sending) => {
            add(out, sending);
            request + 1
        }
        None => request,
    }
}

/// Adds an item where there is room.
pub fn add<T: Drop>(items: &mut Vec<T>, item: T)
    requires room { vec_len items.old < vec_capacity items.old }
    ensures items { items.new.items ≡ items.old.items ++ item ∷ [] }
    ensures len { vec_len items.new ≡ vec_len items.old + 1 }
    ensures room { vec_capacity items.old ≤ vec_capacity items.new }
{
    let _ = items.push(item);
}

/// Makes room for so many requests, which are numbered on from the first. `Memory` comes also where there are no numbers for them, and then
/// as well as at want of room nothing was added.
pub fn make_room(first: u32, count: usize, out: &mut Vec<Sending>) -> Result<(), Memory>
    ensures items { out.new.items ≡ out.old.items }
    ensures room { OnOk result (vec_len out.new + count ≤ vec_capacity out.new) }
    ensures numbers { OnOk result (first + count < 2 ^ 32) }
{
    if count > (u32::MAX - first) as usize {
        return Err(Memory);
    }
    out.reserve(count)?;
    Ok(())
}

/// The numbers of so many replicas, in their order.
pub fn replicas_below(replicas: u32) -> &'static [u32]
    requires few { replicas ≤ 9 }
    ensures numbers { result.now ≡ upto replicas }
    ensures len { length result.now ≡ replicas }
{
    &NUMBERS[..replicas as usize]
}

static NUMBERS: [u32; 9] = [0, 1, 2, 3, 4, 5, 6, 7, 8];
