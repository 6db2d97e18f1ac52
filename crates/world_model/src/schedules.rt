//! The plain schedule, listed moves, and the seeded schedule.

ghost use Rattle.std.specs.Prelude.{◌≡◌, ℕ, ◌+◌, ◌-◌, ◌*◌, ◌/◌, ◌%◌, ◌^◌, ◌<◌, ◌≤◌, ◌==◌, Bool, true, List, [], ◌∷◌, ◌++◌, length, drop, cond, OnOk, vec_len, vec_capacity, min, max};
ghost use Rattle.world_model.specs.Offers.{given_move};
ghost use Rattle.world_model.specs.Schedule.{Schedule, listed_move, move_of, next_state, number_in, picked, plain_move, seeded_move};
ghost use Rattle.world_model.specs.Seeds.{seeds_of};

use crate::moves::{Move, Moves};
use crate::offers::{GivenMove, Offer};
use crate::seeds::Seeds;
use blob_id::Memory;
use std::alloc::Global;
use std::marker::Model;

/// A reply in flight is handed, else a request in flight is run, else a second goes by.
fn plain_move(requests: u32, replies: u32) -> Move
    ensures { result ≡ plain_move requests replies }
{
    if replies > 0 {
        Move::Hand(0)
    } else if requests > 0 {
        Move::Run(0)
    } else {
        Move::Tick(1000)
    }
}

/// Keeps a move and what it was picked from, for which there is room.
fn keep(given: &mut Vec<GivenMove>, offer: Offer, chosen: Move)
    requires room { vec_len given.old < vec_capacity given.old }
    ensures { given.new.items ≡ given.old.items ++ record { offer = offer; chosen = chosen } ∷ [] }
{
    let _ = given.push(GivenMove { offer, chosen });
}

/// The listed moves, and then those of the plain schedule.
#[derive(Drop)]
pub struct ListMoves {
    pub list: Vec<Move>,
    pub next: usize,
    pub given: Vec<GivenMove>,
    pub seeds: Seeds,
}

impl ListMoves {
    pub fn new(alloc: Global, list: Vec<Move>) -> ListMoves
        ensures list { result.list ≡ list }
        ensures start { result.next ≡ 0 }
        ensures none { result.given.items ≡ [] }
        ensures unbegun { seeds_of result.seeds ≡ [] }
    {
        ListMoves {
            list,
            next: 0,
            given: Vec::new(alloc),
            seeds: Seeds::Unbegun,
        }
    }
}

impl Moves for ListMoves {
    ghost given = { λ m. m.given.items };

    ghost room = { λ m. vec_capacity m.given - vec_len m.given };

    ghost seeds = { λ m. seeds_of m.seeds };

    ghost same = { λ a b. Unit {0} };

    /// The list stays, whatever the seed.
    fn start(&mut self, seed: u64)
        ensures given { self.new.given.items ≡ self.old.given.items }
        ensures seeds { seeds_of self.new.seeds ≡ seeds_of self.old.seeds ++ seed ∷ [] }
        ensures same { Unit {0} }
        ensures list { (self.new.list ≡ self.old.list) × (self.new.next ≡ self.old.next) }
    {
        self.seeds = self.seeds.with(seed);
    }

    fn ready(&mut self) -> Result<(), Memory>
        ensures given { self.new.given.items ≡ self.old.given.items }
        ensures seeds { seeds_of self.new.seeds ≡ seeds_of self.old.seeds }
        ensures ok { OnOk result (0 < vec_capacity self.new.given - vec_len self.new.given) }
        ensures same { Unit {0} }
        ensures list { (self.new.list ≡ self.old.list) × (self.new.next ≡ self.old.next) }
    {
        self.given.reserve(1)?;
        Ok(())
    }

    fn pick(&mut self, nodes: u32, partitions: u32, requests: u32, replies: u32) -> Move
        requires room { 0 < vec_capacity self.old.given - vec_len self.old.given }
        ensures given { self.new.given.items ≡ self.old.given.items ++ given_move nodes partitions requests replies result ∷ [] }
        ensures seeds { seeds_of self.new.seeds ≡ seeds_of self.old.seeds }
        ensures same { Unit {0} }
        ensures picked { result ≡ listed_move self.old.list.items self.old.next requests replies }
        ensures next { self.new.next ≡ min (self.old.next + 1) (max self.old.next (length self.old.list.items)) }
        ensures list { self.new.list ≡ self.old.list }
    {
        let chosen = if self.next < self.list.len() {
            let chosen = self.list[self.next];
            self.next += 1;
            chosen
        } else {
            plain_move(requests, replies)
        };
        let offer = Offer {
            nodes,
            partitions,
            requests,
            replies,
        };
        keep(&mut self.given, offer, chosen);
        chosen
    }

    ghost same_self = { λ a. tt };

    ghost same_on = { λ a b c p q. tt };
}

/// The seeded schedule: with seed 0 the plain one, and with any other the moves of a generator that starts with the seed.
#[derive(Drop)]
pub struct SeedMoves {
    plain: bool,
    state: u64,
    given: Vec<GivenMove>,
    seeds: Seeds,
}

impl Model for SeedMoves {
    ghost use Rattle.std.specs.Prelude.{◌-◌, vec_len, vec_capacity};
    ghost use Rattle.world_model.specs.Offers.{given_move};
    ghost use Rattle.world_model.specs.Schedule.{Schedule};
    ghost use Rattle.world_model.specs.Seeds.{seeds_of};

    ghost Value = { Schedule };

    ghost view = { λ m. record { plain = m.plain; state = m.state; given = m.given.items; room = vec_capacity m.given - vec_len m.given; seeds = seeds_of m.seeds } };
}

impl SeedMoves {
    /// The plain schedule, as with seed 0.
    pub fn new(alloc: Global) -> SeedMoves
        ensures plain { result.plain ≡ true }
        ensures none { result.given ≡ [] }
        ensures unbegun { result.seeds ≡ [] }
    {
        SeedMoves {
            plain: true,
            state: 0,
            given: Vec::new(alloc),
            seeds: Seeds::Unbegun,
        }
    }
}

/// The generator's next state.
fn next_state(state: u64) -> u64
    ensures { result ≡ next_state state }
{
    let wide = u128::from(state) * 6364136223846793005 + 1442695040888963407;
    (wide % 18446744073709551616) as u64
}

/// The move of two numbers.
fn move_of(a: u64, v: u32, nodes: u32, partitions: u32) -> Move
    requires nodes { 1 ≤ nodes }
    requires partitions { 1 ≤ partitions }
    requires small { v < 2 ^ 31 }
    ensures { result ≡ move_of a v nodes partitions }
{
    let place = v % 65536;
    if a < 35 {
        Move::Hand(place)
    } else if a < 75 {
        Move::Run(place)
    } else if a < 80 {
        Move::RunAgain(place)
    } else if a < 84 {
        Move::HandAgain(place)
    } else if a < 87 {
        Move::Drop(place)
    } else if a < 90 {
        Move::DropReply(place)
    } else if a < 98 {
        Move::Tick(u64::from(v % 50))
    } else if a < 99 {
        Move::Cut(1 + v % nodes)
    } else {
        Move::Pull(1 + v % nodes, 1 + v / 16 % nodes, v / 256 % partitions)
    }
}

impl Moves for SeedMoves {
    ghost given = { λ m. m.given };

    ghost room = { λ m. m.room };

    ghost seeds = { λ m. m.seeds };

    ghost same = { λ a b. Unit {0} };

    fn start(&mut self, seed: u64)
        ensures given { self.new.given ≡ self.old.given }
        ensures seeds { self.new.seeds ≡ self.old.seeds ++ seed ∷ [] }
        ensures same { Unit {0} }
        ensures plain { self.new.plain ≡ (seed == 0) }
        ensures state { self.new.state ≡ seed }
    {
        self.plain = seed == 0;
        self.state = seed;
        self.seeds = self.seeds.with(seed);
    }

    fn ready(&mut self) -> Result<(), Memory>
        ensures given { self.new.given ≡ self.old.given }
        ensures seeds { self.new.seeds ≡ self.old.seeds }
        ensures ok { OnOk result (0 < self.new.room) }
        ensures same { Unit {0} }
        ensures stays { (self.new.plain ≡ self.old.plain) × (self.new.state ≡ self.old.state) }
    {
        self.given.reserve(1)?;
        Ok(())
    }

    fn pick(&mut self, nodes: u32, partitions: u32, requests: u32, replies: u32) -> Move
        requires room { 0 < self.old.room }
        requires nodes { 1 ≤ nodes }
        requires partitions { 1 ≤ partitions }
        ensures given { self.new.given ≡ self.old.given ++ given_move nodes partitions requests replies result ∷ [] }
        ensures seeds { self.new.seeds ≡ self.old.seeds }
        ensures same { Unit {0} }
        ensures picked { result ≡ picked self.old nodes partitions requests replies }
        ensures state { self.new.state ≡ cond self.old.plain self.old.state (next_state (next_state self.old.state)) }
        ensures plain { self.new.plain ≡ self.old.plain }
    {
        let chosen = if self.plain {
            plain_move(requests, replies)
        } else {
            let first = next_state(self.state);
            let second = next_state(first);
            self.state = second;
            let place = (second / 8589934592) as u32;
            move_of(first / 8589934592 % 100, place, nodes, partitions)
        };
        let offer = Offer {
            nodes,
            partitions,
            requests,
            replies,
        };
        keep(&mut self.given, offer, chosen);
        chosen
    }

    ghost same_self = { λ a. tt };

    ghost same_on = { λ a b c p q. tt };
}
