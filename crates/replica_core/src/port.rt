//! The replica as a port.

ghost use Rattle.std.specs.Prelude.{◌≡◌, ◌≢◌, ◌≤◌, true};
ghost use Rattle.outside.specs.Causes.{Rose};
ghost use Rattle.cell_model.specs.Asks.{AnswersInRange, AsksInRange, CanAnswer, IsStep, Refuses};
ghost use Rattle.replica_core.specs.State.{IsAsked, faults_of, fixed_of, told_of};

use crate::replica::Replica;
use cell_model::{Ask, ReplicaPort, Reply};
use disk_core::Disk;

impl<D: Disk> ReplicaPort for Replica<D> {
    ghost tells = { D.tells };

    ghost may_refuse = { true };

    ghost told = { told_of };

    ghost fixed = { fixed_of D.size };

    ghost faults = { faults_of };

    ghost ready = { λ _. Unit {0} };

    ghost asks = { IsAsked D.tells D.content D.size D.faults };

    fn ask(&mut self, ask: Ask) -> Reply
        requires range { AsksInRange ask }
        ensures kind { CanAnswer ask result }
        ensures step { D.tells → IsStep (told_of self.old) ask result (told_of self.new) }
        ensures range { AnswersInRange result }
        ensures refusal { Refuses result → true ≡ true }
        ensures fault { result ≡ Reply.Fault → Rose (faults_of self.old) (faults_of self.new) }
        ensures later { faults_of self.old ≤ faults_of self.new }
        ensures calm { result ≢ Reply.Fault → faults_of self.new ≡ faults_of self.old }
        ensures kept { fixed_of D.size self.new ≡ fixed_of D.size self.old }
        // What the ask does to the cells and to the disk.
        ensures own { IsAsked D.tells D.content D.size D.faults self.old ask result self.new }
    {
        match ask {
            Ask::Put { id, blob } => self.put(id, blob),
            Ask::Get { id } => self.get(&id),
            Ask::Peek { id } => self.peek(&id),
            Ask::Delete { id, at } => self.delete(id, at),
            Ask::Merge { id, cell } => self.merge(id, cell),
            Ask::Find { token, max } => self.find(token, max),
            Ask::End => self.end(),
            Ask::Token { peer } => self.token(peer),
            Ask::SaveToken { peer, token } => self.save_token(peer, token),
            Ask::CompactBegin => self.compact_begin(),
            Ask::CompactStep { records } => self.compact_step(records),
            Ask::CompactCommit => self.compact_commit(),
        }
    }
}
