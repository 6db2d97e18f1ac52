//! Schedules: what the network does next.

ghost use Rattle.std.specs.Prelude.{◌≡◌, ◌++◌, ◌∷◌, [], ◌<◌, ◌≤◌, ℕ, List, OnOk};
ghost use Rattle.world_model.specs.declared.offers.GivenMove.{GivenMove};
ghost use Rattle.world_model.specs.Offers.{given_move};

use blob_id::Memory;

/// What a schedule picks. A place counts the requests or the replies in flight, the oldest first, modulo their number. A move
/// that names nothing is `Tick(0)`.
#[derive(Clone, Copy, Debug, PartialEq, Eq)]
pub enum Move {
    /// The request at a place is run, and is in flight no longer.
    Run(u32),
    /// It is run, and stays in flight.
    RunAgain(u32),
    /// It is lost.
    Drop(u32),
    /// The reply at a place is handed to who asked.
    Hand(u32),
    HandAgain(u32),
    DropReply(u32),
    /// So many ms go by.
    Tick(u64),
    /// The connection to a node breaks.
    Cut(u32),
    Stop(u32),
    Restart(u32),
    /// A node pulls from another one, on a partition.
    Pull(u32, u32, u32),
    /// One step of a compaction, on a node and a partition.
    Compact(u32, u32),
}

/// A schedule.
pub trait Moves {
    /// The moves given so far, in order, each with what it was picked from.
    ghost given: { Self → List GivenMove };

    /// How many more moves there is room to keep.
    ghost room: { Self → ℕ };

    /// The seeds that it was begun with so far, in order.
    ghost seeds: { Self → List ℕ };

    /// It is the same schedule, where it is one that is lent.
    ghost same: { Self → Self → Type 0 };

    /// Begins with a seed.
    fn start(&mut self, seed: u64)
        ensures given { given self.new ≡ given self.old }
        ensures seeds { seeds self.new ≡ seeds self.old ++ seed ∷ [] }
        ensures same { same self.old self.new };

    /// Makes the room to keep one more move.
    fn ready(&mut self) -> Result<(), Memory>
        ensures given { given self.new ≡ given self.old }
        ensures seeds { seeds self.new ≡ seeds self.old }
        ensures ok { OnOk result (0 < room self.new) }
        ensures same { same self.old self.new };

    /// The next move, in a cluster of so many nodes and partitions and with so much in flight.
    fn pick(&mut self, nodes: u32, partitions: u32, requests: u32, replies: u32) -> Move
        requires room { 0 < room self.old }
        requires nodes { 1 ≤ nodes }
        requires partitions { 1 ≤ partitions }
        ensures given { given self.new ≡ given self.old ++ given_move nodes partitions requests replies result ∷ [] }
        ensures seeds { seeds self.new ≡ seeds self.old }
        ensures same { same self.old self.new };

    ghost same_self: { (a : Self) → same a a };

    ghost same_on: { (a b c : Self) → same a b → same b c → same a c };
}

/// A schedule that is lent.
impl<M: Moves> Moves for &mut M {
    ghost use Rattle.std.proofs.Common.{◌∙◌, refl};

    ghost given = { λ s. M.given s.now };

    ghost room = { λ s. M.room s.now };

    ghost seeds = { λ s. M.seeds s.now };

    ghost same = { λ a b. a.ghost_name ≡ b.ghost_name };

    fn start(&mut self, seed: u64) {
        (**self).start(seed);
    }

    fn ready(&mut self) -> Result<(), Memory> {
        (**self).ready()
    }

    fn pick(&mut self, nodes: u32, partitions: u32, requests: u32, replies: u32) -> Move {
        (**self).pick(nodes, partitions, requests, replies)
    }

    ghost same_self = { λ a. refl };

    ghost same_on = { λ a b c p q. p ∙ q };
}
