//! What is in flight.

ghost use Rattle.std.specs.Prelude.{◌≡◌, ◌<◌, ◌++◌, ◌∷◌, [], ◌==◌, not, filter, vec_len, vec_capacity, OnOk, OnErr};
ghost use Rattle.mem_fabric.specs.Network.{Within, place_among, taken};
ghost use Rattle.mem_fabric.specs.Sound.{is_among};

use blob_id::{Bytes, Memory};
use req_frame::Frame;

/// A request in flight: its number, the node that it goes to, and its bytes.
#[derive(Drop)]
pub struct Asked {
    pub number: u32,
    pub node: u32,
    pub frame: Bytes,
}

/// A reply in flight: its number, the node that it comes from, and its frame, which is spelled when it is handed.
#[derive(Drop)]
pub struct Replied {
    pub number: u32,
    pub node: u32,
    pub frame: Frame,
}

/// The place that a number names, where there are so many.
pub fn place_among(k: u32, count: u32) -> Option<usize>
    ensures place { result ≡ place_among k count }
    ensures within { Within result count }
{
    if count == 0 {
        None
    } else {
        Some((k % count) as usize)
    }
}

/// Takes the one at a place out, unless it stays.
pub fn take_out<T: Drop>(items: &mut Vec<T>, place: usize, stays: bool)
    requires { place < vec_len items.old }
    ensures { items.new.items ≡ taken items.old.items place stays }
{
    if !stays {
        let _ = items.remove(place);
    }
}

/// Adds one, for which there is room.
pub fn add<T: Drop>(items: &mut Vec<T>, item: T)
    requires { vec_len items.old < vec_capacity items.old }
    ensures { items.new.items ≡ items.old.items ++ item ∷ [] }
{
    let _ = items.push(item);
}

/// Adds one, where there is memory.
pub fn push<T: Drop>(items: &mut Vec<T>, item: T) -> Result<(), Memory>
    ensures ok { OnOk result (items.new.items ≡ items.old.items ++ item ∷ []) }
    ensures err { OnErr result (items.new.items ≡ items.old.items) }
{
    items.push(item)?;
    Ok(())
}

/// Drops the requests to a node.
pub fn drop_asked(requests: &mut Vec<Asked>, node: u32)
    ensures { requests.new.items ≡ filter (λ asked. not (asked.node == node)) requests.old.items }
{
    requests.retain(|asked| asked.node != node);
}

/// Drops the replies of a node.
pub fn drop_replied(replies: &mut Vec<Replied>, node: u32)
    ensures { replies.new.items ≡ filter (λ replied. not (replied.node == node)) replies.old.items }
{
    replies.retain(|replied| replied.node != node);
}

/// Whether a node is one of these.
pub fn is_among(nodes: &[u32], node: u32) -> bool
    ensures { result ≡ is_among nodes.now node }
{
    nodes.iter().any(|other| node == *other)
}

/// Takes a node out.
pub fn take_node(nodes: &mut Vec<u32>, node: u32)
    ensures { nodes.new.items ≡ filter (λ other. not (other == node)) nodes.old.items }
{
    nodes.retain(|other| *other != node);
}

/// Stops a node, for whose number there is room: what is in flight between it and the router is lost.
pub fn silence(
    stopped: &mut Vec<u32>,
    requests: &mut Vec<Asked>,
    replies: &mut Vec<Replied>,
    node: u32,
)
    requires { vec_len stopped.old < vec_capacity stopped.old }
    ensures stopped { stopped.new.items ≡ stopped.old.items ++ node ∷ [] }
    ensures requests { requests.new.items ≡ filter (λ asked. not (asked.node == node)) requests.old.items }
    ensures replies { replies.new.items ≡ filter (λ replied. not (replied.node == node)) replies.old.items }
{
    drop_asked(requests, node);
    drop_replied(replies, node);
    add(stopped, node);
}
