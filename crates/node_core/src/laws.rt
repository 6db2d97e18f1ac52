//! Laws of requests and nodes. They do nothing when they run.

ghost use Rattle.std.specs.Prelude.{◌≡◌, ◌≢◌, ◌↔◌, ◌<◌, ◌^◌, ℕ, List, Some, None};
ghost use Rattle.std.specs.Map.{keys_of};
ghost use Rattle.blob_id.specs.Id.{partition_of};
ghost use Rattle.cell_model.specs.Asks.{id_of};
ghost use Rattle.cell_model.specs.declared.ask.Ask.{Ask};
ghost use Rattle.cell_model.specs.declared.ask.Reply.{Reply};
ghost use Rattle.field_codec.specs.Spelling.{IsBytes};
ghost use Rattle.node_core.specs.Nodes.{Node, NodeAsked};
ghost use Rattle.node_core.specs.Ports.{IsAsked, port_in};
ghost use Rattle.node_core.specs.Requests.{request_in, request_of, NamesOwn};
ghost use Rattle.req_frame.specs.Spelling.{IsFrame, frame_text};
ghost use Rattle.req_frame.specs.declared.frame.Frame.{Frame};

use cell_model::ReplicaPort;

/// Bytes are a request exactly where they spell the frame of one. The id of a put, a peek or a delete lies in the
/// partition that is asked.
pub fn requests_are_spelled()
    ensures read { (bytes : List ℕ) (correlation partition : ℕ) (ask : Ask) → request_in bytes ≡ Some (correlation, partition, ask) → (f : Frame) × IsFrame f × IsBytes bytes × (bytes ≡ frame_text f) × (request_of f ≡ Some (correlation, partition, ask)) }
    ensures spelled { (bytes : List ℕ) (f : Frame) → IsFrame f → IsBytes bytes → bytes ≡ frame_text f → request_in bytes ≡ request_of f }
    ensures own { (bytes : List ℕ) (correlation partition : ℕ) (ask : Ask) → request_in bytes ≡ Some (correlation, partition, ask) → NamesOwn ask → partition_of (id_of ask) ≡ partition }
{}

/// A node answers `NoPartition` exactly where it has no port of the partition.
pub fn no_partition_is_no_port<P: ReplicaPort>()
    ensures { (old new : Node P) (partition : ℕ) (ask : Ask) (reply : Reply) → NodeAsked (IsAsked P.tells P.may_refuse P.told P.fixed P.faults P.asks) old partition ask reply new → (reply ≡ Reply.NoPartition) ↔ (port_in old.ports partition ≡ None) }
{}

/// An ask leaves the ports of all other partitions.
pub fn other_ports_stay<P: ReplicaPort>()
    ensures { (old new : Node P) (partition other : ℕ) (ask : Ask) (reply : Reply) → NodeAsked (IsAsked P.tells P.may_refuse P.told P.fixed P.faults P.asks) old partition ask reply new → other ≢ partition → port_in new.ports other ≡ port_in old.ports other }
{}
