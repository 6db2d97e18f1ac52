//! Reading the lines of drains and of orders to the network.

ghost use Rattle.std.specs.Prelude.{◌≡◌, map};
ghost use Rattle.world_model.specs.Shape.{IsShape};
ghost use Rattle.session_text.specs.Reading.{drain_in, stop_in, restart_in, pull_in, compact_in, level_in};

use crate::command::Command;
use crate::fault::{LineFault, Wanted};
use crate::placed_words::{are_peers, ended, holds, node_in, partition_in};
use world_model::{Order, Shape};

#[tactic(auto, unfolding(crate::specs::Reading::drain_in))]
pub fn read_drain(shape: &Shape, on: bool, words: &[&[u8]]) -> Result<Command, LineFault>
    ensures { result ≡ drain_in shape.now on (map (λ word. word.now) words.now) }
{
    let node = node_in(shape, words, 1)?;
    ended(words, 2, Command::Drain { node, on })
}

#[tactic(auto, unfolding(crate::specs::Reading::stop_in))]
pub fn read_stop(shape: &Shape, words: &[&[u8]]) -> Result<Command, LineFault>
    ensures { result ≡ stop_in shape.now (map (λ word. word.now) words.now) }
{
    let node = node_in(shape, words, 1)?;
    ended(words, 2, Command::Admin(Order::Stop(node)))
}

#[tactic(auto, unfolding(crate::specs::Reading::restart_in))]
pub fn read_restart(shape: &Shape, words: &[&[u8]]) -> Result<Command, LineFault>
    ensures { result ≡ restart_in shape.now (map (λ word. word.now) words.now) }
{
    let node = node_in(shape, words, 1)?;
    ended(words, 2, Command::Admin(Order::Restart(node)))
}

#[tactic(auto, unfolding(crate::specs::Reading::pull_in))]
pub fn read_pull(shape: &Shape, words: &[&[u8]]) -> Result<Command, LineFault>
    requires { IsShape shape.now }
    ensures { result ≡ pull_in shape.now (map (λ word. word.now) words.now) }
{
    let a = node_in(shape, words, 1)?;
    let b = node_in(shape, words, 2)?;
    let partition = partition_in(shape, words, 3)?;
    if !are_peers(shape, partition, a, b) {
        return Err(LineFault::Word(3, Wanted::Holders));
    }
    ended(words, 4, Command::Admin(Order::Pull(a, b, partition)))
}

#[tactic(auto, unfolding(crate::specs::Reading::compact_in))]
pub fn read_compact(shape: &Shape, words: &[&[u8]]) -> Result<Command, LineFault>
    requires { IsShape shape.now }
    ensures { result ≡ compact_in shape.now (map (λ word. word.now) words.now) }
{
    let node = node_in(shape, words, 1)?;
    let partition = partition_in(shape, words, 2)?;
    if !holds(shape, partition, node) {
        return Err(LineFault::Word(2, Wanted::Holders));
    }
    ended(words, 3, Command::Admin(Order::Compact(node, partition)))
}

#[tactic(auto, unfolding(crate::specs::Reading::level_in))]
pub fn read_level(shape: &Shape, words: &[&[u8]]) -> Result<Command, LineFault>
    requires { IsShape shape.now }
    ensures { result ≡ level_in shape.now (map (λ word. word.now) words.now) }
{
    let partition = partition_in(shape, words, 1)?;
    let a = node_in(shape, words, 2)?;
    let b = node_in(shape, words, 3)?;
    if !are_peers(shape, partition, a, b) {
        return Err(LineFault::Word(3, Wanted::Holders));
    }
    ended(words, 4, Command::Admin(Order::Level(partition, a, b)))
}
