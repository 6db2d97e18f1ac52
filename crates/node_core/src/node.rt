//! A node over its ports.

ghost use Rattle.std.specs.Prelude.{◌≡◌, nat_eq, IfOk, IfErr, IfSome, OnErr};
ghost use Rattle.std.specs.List.{IsDistinct};
ghost use Rattle.std.specs.Map.{keys_of};
ghost use Rattle.std.specs.Option.{option_copied};
ghost use Rattle.cell_model.specs.Asks.{AnswersInRange, AsksInRange};
ghost use Rattle.node_core.specs.Nodes.{Handles, IsIndex, LosesReply, NodeAsked};
ghost use Rattle.node_core.specs.Ports.{ArePorts, IsAsked, place_in, port_in};
ghost use Rattle.node_core.specs.Requests.{request_in, IsRequested};
ghost use Rattle.req_frame.specs.Spelling.{IsReply};

use crate::requests::{read_request, write_reply};
use blob_id::{Bytes, Memory};
use cell_model::{Ask, ReplicaPort, Reply};
use std::alloc::Global;
use std::collections::BTreeMap;
use std::marker::Model;

/// A node with a port for each partition of which it has a replica.
#[derive(Drop)]
pub struct NodeCore<P: ReplicaPort> {
    alloc: Global,
    node: u32,
    ports: Vec<(u32, P)>,
    /// The place of each partition's port.
    places: BTreeMap<u32, usize>,
}

impl<P: ReplicaPort> Model for NodeCore<P> {
    ghost use Rattle.node_core.specs.Nodes.{IsNode, Node};

    ghost Value = { Node P };

    ghost view = { λ a. record { number = a.node; ports = a.ports.items } };

    ghost invariant = { λ a. IsNode P.ready a.ports.items a.places.entries };
}

/// The places of these ports by their partitions.
fn places_of<P>(alloc: Global, ports: &[(u32, P)]) -> Result<BTreeMap<u32, usize>, Memory>
    requires { IsDistinct nat_eq (keys_of ports.now) }
    ensures { IfOk result (λ places. IsIndex (keys_of ports.now) places.entries) }
{
    let mut places = BTreeMap::new(alloc);
    for place in 0..ports.len() {
        places.insert(ports[place].0, place)?;
    }
    Ok(places)
}

impl<P: ReplicaPort> NodeCore<P> {
    /// A node with this number and these ports, each with its partition. A refusal hands the ports back as they were.
    pub fn new(
        alloc: Global,
        node: u32,
        ports: Vec<(u32, P)>,
    ) -> Result<NodeCore<P>, (Memory, Vec<(u32, P)>)>
        requires { ArePorts P.ready ports.items }
        ensures ok { IfOk result (λ made. made ≡ record { number = node; ports = ports.items }) }
        ensures err { IfErr result (λ e. e.1 ≡ ports) }
    {
        match places_of(alloc, ports.as_slice()) {
            Ok(places) => Ok(NodeCore {
                alloc,
                node,
                ports,
                places,
            }),
            Err(refused) => Err((refused, ports)),
        }
    }

    /// Its number.
    pub fn node(&self) -> u32
        ensures { result ≡ self.now.number }
    {
        self.node
    }

    /// The place of a partition's port.
    fn place_of(&self, partition: u32) -> Option<usize>
        ensures { result ≡ place_in (keys_of self.now.ports) partition }
    {
        self.places.get(&partition).copied()
    }

    /// The port of a partition. `None` comes exactly where the node has none.
    pub fn port(&self, partition: u32) -> Option<&P>
        ensures port { option_copied result ≡ port_in self.now.ports partition }
        ensures ready { IfSome result (λ port. P.ready port.now) }
    {
        match self.place_of(partition) {
            Some(place) => Some(&self.ports[place].1),
            None => None,
        }
    }

    /// Asks the port of a partition, and answers what it says. `NoPartition` comes exactly where the node has none, and
    /// nothing is done then.
    ///
    /// No memory is taken behind the ask, so its reply can't be lost here.
    pub fn ask(&mut self, partition: u32, ask: Ask) -> Reply
        requires range { AsksInRange ask }
        ensures asked { NodeAsked (IsAsked P.tells P.may_refuse P.told P.fixed P.faults P.asks) self.old partition ask result self.new }
        ensures range { AnswersInRange result }
        // What it answers to the ask of a frame has a frame.
        ensures spelled { IsRequested ask → IsReply result }
    {
        match self.place_of(partition) {
            Some(place) => self.ports[place].1.ask(ask),
            None => Reply::NoPartition,
        }
    }

    /// Does what the frame of a request asks, and answers with the frame of the reply. `None` comes exactly where the
    /// bytes are no frame, or a frame that is no request, and nothing is done then.
    ///
    /// `Memory` leaves the node as it was, or behind the one ask whose reply is lost, as a network loses replies.
    pub fn on_frame(&mut self, bytes: &[u8]) -> Result<Option<Bytes>, Memory>
        ensures ok { IfOk result (λ reply. Handles (IsAsked P.tells P.may_refuse P.told P.fixed P.faults P.asks) (request_in bytes.now) self.old reply self.new) }
        ensures err { OnErr result (LosesReply (IsAsked P.tells P.may_refuse P.told P.fixed P.faults P.asks) (request_in bytes.now) self.old self.new) }
    {
        let Some((correlation, partition, ask)) = read_request(self.alloc, bytes)? else {
            return Ok(None);
        };
        let reply = self.ask(u32::from(partition), ask);
        let reply = write_reply(self.alloc, correlation, partition, reply)?;
        Ok(Some(reply))
    }

    /// The ports as they are, each with its partition, in the order in which they were handed in.
    pub fn close(self) -> Vec<(u32, P)>
        ensures ports { result.items ≡ self.ports }
        // They can be handed to another node.
        ensures good { ArePorts P.ready result.items }
    {
        let NodeCore {
            alloc: _,
            node: _,
            ports,
            places: _,
        } = self;
        ports
    }
}
