//! What a schedule is asked.

use crate::moves::Move;

/// What a move is picked from: how many nodes and partitions there are, and how many requests and replies are in flight.
#[derive(Clone, Copy, Debug, PartialEq, Eq)]
pub struct Offer {
    pub nodes: u32,
    pub partitions: u32,
    pub requests: u32,
    pub replies: u32,
}

/// A move, with what it was picked from.
#[derive(Clone, Copy, Debug, PartialEq, Eq)]
pub struct GivenMove {
    pub offer: Offer,
    pub chosen: Move,
}
