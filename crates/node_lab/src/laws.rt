//! Laws of what places hold. They do nothing when they run.

ghost use Rattle.std.specs.Prelude.{◌≡◌, ◌==◌, ◌&&◌, ◌∷◌, ℕ, Bool, true, false, cond, List, Option, Some, None};
ghost use Rattle.std.specs.List.{list_any};
ghost use Rattle.cell_model.specs.declared.ask.Ask.{Ask};
ghost use Rattle.cell_model.specs.declared.ask.Reply.{Reply};
ghost use Rattle.disk_core.specs.Homes.{Out};
ghost use Rattle.log_manifest.specs.declared.manifest.LogSettings.{LogSettings};
ghost use Rattle.node_lab.specs.Calls.{AsksNodes, AsksReplica, ClosesNodes, OnlyOwnOut, OpensNodes, StayUnopened};
ghost use Rattle.node_lab.specs.Nodes.{Holds, HomeHolds, IsFor, NodesState, has_replica, is_of_node, is_up, never_opened, replica_at, settled_places};
ghost use Rattle.node_lab.specs.Places.{HoldsHere, Place, Places, asked_place, is_fault, landed_at};
ghost use Rattle.node_lab.specs.Replicas.{settings_of};
ghost use Rattle.node_lab.specs.RunPlaces.{Known, LeadsTo};
ghost use Rattle.replica_core.specs.State.{ReplicaState};
ghost use Rattle.world_model.specs.Record.{Record, Took};
ghost use Rattle.world_model.specs.World.{Call, Cells, call_at, world};
ghost use Rattle.world_model.specs.declared.shape.Shape.{Shape};
ghost use Rattle.world_model.specs.declared.step.Step.TheVariants as steps;

use disk_core::{Bays, Disk};

/// What a replica holds behind an ask: what the ask brings is joined, or, after a fault, it is in doubt.
pub fn asking_keeps<D: Disk>()
    ensures { D.tells → (settings : LogSettings) (old new : Option (ReplicaState D)) (home : Option D) (place : Place) (ask : Ask) (reply : Reply) → AsksReplica D.tells D.content D.size D.faults old ask reply new
        → HoldsHere D.content settings old home place → HoldsHere D.content settings new home (asked_place settings ask reply place) }
{}

/// Nodes that are closed hold what they held.
pub fn closing_keeps<B: Bays>()
    ensures { B.Disk.tells → (shape : Shape) (folder : List ℕ) (places : Places) (old new : NodesState B B.Disk) (meant : ℕ → Bool) (stops : Bool) → old.shape ≡ Some shape
        → ClosesNodes B.tells B.Disk.tells B.Disk.content B.Disk.size B.home B.out meant stops old new → Holds B.Disk.content B.home shape folder places old → Holds B.Disk.content B.home shape folder places new }
{}

/// Nodes hold on what they held where an opening ended early.
pub fn unopened_keeps<B: Bays>()
    ensures { B.Disk.tells → (shape : Shape) (folder : List ℕ) (places : Places) (old new : NodesState B B.Disk) (due : ℕ → ℕ → Bool)
        → StayUnopened B.tells B.Disk.tells B.Disk.content B.Disk.size B.home B.out due (settings_of shape) folder old new → Holds B.Disk.content B.home shape folder places old → Holds B.Disk.content B.home shape folder places new }
{}

/// Nodes that are opened hold what they held, and what was in doubt there is settled, as their replicas show. All others stay.
pub fn opening_settles<B: Bays>()
    ensures { B.Disk.tells → (shape : Shape) (folder : List ℕ) (places : Places) (old new : NodesState B B.Disk) (meant : ℕ → Bool) → IsFor shape folder new.shape new.folder → ((n p : ℕ) → meant n ≡ true → replica_at old n p ≡ None)
        → OpensNodes B.tells B.Disk.tells B.Disk.content B.Disk.size B.home B.out (λ n p. meant n && has_replica shape n p) (settings_of shape) folder old new
        → Holds B.Disk.content B.home shape folder places old → Holds B.Disk.content B.home shape folder (settled_places meant (λ n p. landed_at (places n p).doubt (replica_at new n p)) places) new }
{}

/// Where no replica is open, what is held is what the disks at home stand for.
pub fn places_at_home<B: Bays>()
    ensures first { (shape : Shape) (folder : List ℕ) (places : Places) (bays : B) → HomeHolds B.Disk.content B.home shape folder bays places → Holds B.Disk.content B.home shape folder places (never_opened bays) }
    ensures last { (shape : Shape) (folder : List ℕ) (places : Places) (nodes : NodesState B B.Disk) → ((n p : ℕ) → replica_at nodes n p ≡ None) → Holds B.Disk.content B.home shape folder places nodes → HomeHolds B.Disk.content B.home shape folder nodes.bays places }
{}

/// No disks are out but those of open replicas, and those that were out before the nodes were made.
pub fn only_own_are_out<B: Bays>()
    ensures closed { B.tells → (before : Out) (old new : NodesState B B.Disk) (meant : ℕ → Bool) (stops : Bool) → OnlyOwnOut B.out before old
        → ClosesNodes B.tells B.Disk.tells B.Disk.content B.Disk.size B.home B.out meant stops old new → OnlyOwnOut B.out before new }
    ensures opened { B.tells → (before : Out) (old new : NodesState B B.Disk) (due : ℕ → ℕ → Bool) (settings : LogSettings) → OnlyOwnOut B.out before old → ((n p : ℕ) → is_up old n p ≡ true → new.folder ≡ old.folder)
        → OpensNodes B.tells B.Disk.tells B.Disk.content B.Disk.size B.home B.out due settings new.folder old new → OnlyOwnOut B.out before new }
    ensures unopened { B.tells → (before : Out) (old new : NodesState B B.Disk) (due : ℕ → ℕ → Bool) (settings : LogSettings) (folder : List ℕ) → OnlyOwnOut B.out before old
        → StayUnopened B.tells B.Disk.tells B.Disk.content B.Disk.size B.home B.out due settings folder old new → OnlyOwnOut B.out before new }
{}

/// What was told leads on where a request is run, for the whole run: a fault leaves what was asked in doubt at that replica alone.
pub fn asking_leads<B: Bays>()
    ensures { B.Disk.tells → (shape : Shape) (folder : List ℕ) (opening : Cells) (first : Known) (before : Record) (old new : NodesState B B.Disk) (send : ℕ) (call : Call) (reply : Reply)
        → LeadsTo B.Disk.content B.home shape folder opening first before old → call_at (world opening before) send ≡ Some call → AsksNodes B.Disk.tells B.Disk.content B.Disk.size B.Disk.faults old call.node call.partition call.ask reply new
        → (world opening before).stopped call.node ≡ false → (has_replica shape call.node call.partition ≡ true → is_up old call.node call.partition ≡ true)
        → LeadsTo B.Disk.content B.home shape folder opening first (Took (cond (is_fault reply) (steps.Torn send) (steps.Exec send reply)) ∷ before) new }
{}

/// And where a node is stopped, or runs again: the step tells which changes in doubt took effect.
pub fn restarting_leads<B: Bays>()
    ensures stopped { B.Disk.tells → (shape : Shape) (folder : List ℕ) (opening : Cells) (first : Known) (before : Record) (old new : NodesState B B.Disk) (node : ℕ)
        → LeadsTo B.Disk.content B.home shape folder opening first before old → old.shape ≡ Some shape → ClosesNodes B.tells B.Disk.tells B.Disk.content B.Disk.size B.home B.out (λ n. n == node) true old new
        → LeadsTo B.Disk.content B.home shape folder opening first (Took (steps.Stop node) ∷ before) new }
    ensures restarted { B.Disk.tells → (shape : Shape) (folder : List ℕ) (opening : Cells) (first : Known) (before : Record) (old new : NodesState B B.Disk) (node : ℕ) (done : List ℕ)
        → LeadsTo B.Disk.content B.home shape folder opening first before old → (world opening before).stopped node ≡ true → IsFor shape folder new.shape new.folder → ((p : ℕ) → replica_at old node p ≡ None)
        → OpensNodes B.tells B.Disk.tells B.Disk.content B.Disk.size B.home B.out (is_of_node shape node) (settings_of shape) folder old new
        → ((p : ℕ) → list_any (λ q. q == p) done ≡ landed_at ((world opening before).doubts node p) (replica_at new node p))
        → LeadsTo B.Disk.content B.home shape folder opening first (Took (steps.Restart node done) ∷ before) new }
{}
