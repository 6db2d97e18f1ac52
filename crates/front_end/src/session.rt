//! A session, as a machine over script lines: each line changes what it keeps and adds lines to the transcript.

ghost use Rattle.std.specs.Prelude.{◌≡◌, ◌≢◌, MatchBool, ◌≤◌, ◌<◌, ◌+◌, ◌-◌, ◌^◌, ◌++◌, ◌∷◌, [], List, ℕ, length, true, false, OnOk, IfOk, Some, None, Option, slice_set, IfSome};
ghost use Rattle.std.specs.List.{AllByRecursion};
ghost use Rattle.std.specs.Result.{is_ok};
ghost use Rattle.outside.specs.Causes.{Rose};
ghost use Rattle.quorum_op.specs.declared.outcome.Outcome.TheVariants as outcome;
ghost use Rattle.world_model.specs.declared.history.Begun.{Begun};
ghost use Rattle.world_model.specs.declared.history.HistoryMark.{HistoryMark};
ghost use Rattle.world_model.specs.declared.history.HistoryMark.TheVariants.{Begin, Drew, End, Ordered};
ghost use Rattle.world_model.specs.declared.order.Order.{Order};
ghost use Rattle.world_model.specs.declared.shape.Shape.{Shape};
ghost use Rattle.world_model.specs.declared.step.Called.{Called};
ghost use Rattle.world_model.specs.Advancing.{Advances};
ghost use Rattle.world_model.specs.Pieces.{is_composite, is_simple};
ghost use Rattle.world_model.specs.Shape.{IsShape};
ghost use Rattle.front_end.specs.declared.history.Entry.TheVariants.{Mark, Bad};
ghost use Rattle.front_end.specs.declared.script.Command.TheVariants.{End as TheEnd};
ghost use Rattle.front_end.specs.Outline.{outline_begun, outline_entry};
ghost use Rattle.front_end.specs.Script.{command_of, tag_number};
ghost use Rattle.router_core.specs.Stands.{Stands, is_idle, live_in};
ghost use Rattle.front_end.specs.Transcript.{entry_line};
ghost use Rattle.front_end.specs.Outline.{IsPlain};
ghost use Rattle.front_end.specs.Past.{answer_in, is_to_node, meant_by, named_by};
ghost use Rattle.front_end.specs.Session.{State, HasFailed, Keeps, Becomes, StandsAt, HasGoneOn, IsReady, IsSimpleAnswer, Finishes, Starts, Stores, entries_of, ended_by, begun_by, refused_by, settled_by, answer_at, answered, AsksPut, AsksGet, AsksDelete, AsksOrder, AsksWait, CarriesOut, IsNotComposite, delete_of, get_of, nothing_yet, put_of, ties_of};

use crate::history::{Entry, outline_of};
use crate::script::{Command, Target, read_line};
use crate::tags::Tags;
use crate::transcript::write_entry;
use blob_id::{BlobId, Bytes, Kind, Listed, Memory};
use outside::Random;
use quorum_op::Outcome;
use router_core::{Ended, Router};
use std::alloc::Global;
use world_model::{Begun, Fabric, HistoryMark, Order, Shape};

/// What a session keeps.
#[derive(Drop)]
pub struct Session {
    /// The tags of the operations, in the order in which they began.
    pub tags: Tags,
    /// How many script lines were carried out.
    pub lines: u32,
    pub bad: bool,
    /// The past up to the last entry of a script line, without the bytes of bodies.
    pub settled: Listed<Entry>,
    /// What was drawn and ended since.
    pub later: Listed<Entry>,
    /// The id that each operation was answered with, so that `$TAG` needs no look through the past.
    pub answers: Vec<Option<BlobId>>,
    pub router: Router,
}

impl Session {
    pub fn new(alloc: Global, shape: Shape) -> Self
        requires shape { IsShape shape }
        requires limit { shape.chunk ≡ 65536 }
        ensures keeps { Keeps result nothing_yet }
        ensures ready { IsReady result }
        ensures shape { result.router.shape ≡ shape }
        ensures stands { Stands result.router [] }
    {
        Session {
            tags: Tags::new(alloc),
            lines: 0,
            bad: false,
            settled: Listed::new(alloc),
            later: Listed::new(alloc),
            answers: Vec::new(alloc),
            router: Router::new(alloc, shape),
        }
    }

    /// Takes events until the last operation is over, and ends it.
    pub fn finish<F: Fabric>(
        &mut self,
        alloc: Global,
        fabric: &mut F,
        out: &mut Vec<u8>,
    ) -> Result<(), Memory>
        requires ready { IsReady self.old }
        requires open { F.opened fabric.old ≡ Some self.old.router.shape }
        ensures finished { OnOk result (Finishes self.old self.new (ties_of self.old.router (F.told fabric.old)) (ties_of self.new.router (F.told fabric.new)) out.old.items out.new.items) }
        ensures idle { OnOk result (is_idle (live_in self.new.router.stages) ≡ true) }
        ensures lines { OnOk result (self.new.lines ≡ self.old.lines) }
        ensures tags { OnOk result (self.new.tags ≡ self.old.tags) }
        ensures ready { OnOk result (IsReady self.new) }
        ensures shape { self.new.router.shape ≡ self.old.router.shape }
        ensures net { Advances F.faults F.opened F.runs F.advances fabric.old fabric.new (is_ok result) }
    {
        match self.router.finish(alloc, fabric)? {
            None => Ok(()),
            Some(ended) => {
                self.end(alloc, ended, out)?;
                Ok(())
            }
        }
    }

    /// Adds the end of an operation.
    fn end(&mut self, alloc: Global, ended: Ended, out: &mut Vec<u8>) -> Result<(), Memory>
        requires ready { IsReady self.old }
        requires last { ended.operation ≡ length self.old.tags }
        requires simple { (id : List ℕ) → ended.outcome ≡ outcome.Put id → is_simple id ≡ true }
        ensures state { OnOk result ((state : State) → 0 < length state.tags → Keeps self.old state → Keeps self.new (ended_by state (length state.tags) ended.outcome)) }
        ensures lines { OnOk result (self.new.lines ≡ self.old.lines) }
        ensures tags { OnOk result (self.new.tags ≡ self.old.tags) }
        ensures told { OnOk result (out.new.items ≡ out.old.items ++ entry_line self.old.tags (Mark (End (length self.old.tags) ended.outcome))) }
        ensures ready { OnOk result (IsReady self.new) }
        ensures router { self.new.router ≡ self.old.router }
    {
        let Ended { operation, outcome } = ended;
        let answer = answer_in(&outcome);
        let entry = Entry::Mark(HistoryMark::End(operation, outcome));
        write_entry(out, &self.tags, &entry)?;
        self.later.push(outline_of(alloc, entry))?;
        answer_with(&mut self.answers, operation, answer);
        Ok(())
    }

    /// Adds the entry of a script line.
    fn settle(&mut self, entry: Entry) -> Result<(), Memory>
        ensures settled { OnOk result (self.new.settled ≡ (self.old.settled ++ self.old.later) ++ entry ∷ []) }
        ensures later { OnOk result (self.new.later ≡ []) }
        ensures tags { self.new.tags ≡ self.old.tags }
        ensures router { self.new.router ≡ self.old.router }
        ensures lines { self.new.lines ≡ self.old.lines }
        ensures bad { self.new.bad ≡ self.old.bad }
        ensures answers { self.new.answers ≡ self.old.answers }
    {
        self.settled.append(&mut self.later)?;
        self.settled.push(entry)
    }

    /// Writes the line of a script line's own entry, and adds the entry.
    fn add(&mut self, entry: Entry, out: &mut Vec<u8>) -> Result<(), Memory>
        requires ready { IsReady self.old }
        requires plain { IsPlain entry }
        ensures state { OnOk result (Becomes self.old self.new (λ state. settled_by state entry)) }
        ensures settled { OnOk result (self.new.settled ≡ (self.old.settled ++ self.old.later) ++ entry ∷ []) }
        ensures lines { OnOk result (self.new.lines ≡ self.old.lines) }
        ensures tags { OnOk result (self.new.tags ≡ self.old.tags) }
        ensures told { OnOk result (out.new.items ≡ out.old.items ++ entry_line self.old.tags entry) }
        ensures ready { OnOk result (IsReady self.new) }
        ensures router { self.new.router ≡ self.old.router }
    {
        write_entry(out, &self.tags, &entry)?;
        self.settle(entry)?;
        Ok(())
    }

    /// A bad line.
    fn refuse(&mut self, out: &mut Vec<u8>) -> Result<(), Memory>
        requires ready { IsReady self.old }
        ensures state { OnOk result (Becomes self.old self.new refused_by) }
        ensures settled { OnOk result (self.new.settled ≡ (self.old.settled ++ self.old.later) ++ Bad self.old.lines ∷ []) }
        ensures lines { OnOk result (self.new.lines ≡ self.old.lines) }
        ensures tags { OnOk result (self.new.tags ≡ self.old.tags) }
        ensures told { OnOk result (out.new.items ≡ out.old.items ++ entry_line self.old.tags (Bad self.old.lines)) }
        ensures ready { OnOk result (IsReady self.new) }
        ensures router { self.new.router ≡ self.old.router }
    {
        self.bad = true;
        self.add(Entry::Bad(self.lines), out)
    }

    /// Begins an operation, and says its number.
    fn begin(
        &mut self,
        alloc: Global,
        name: Bytes,
        is_put: bool,
        begun: Begun,
        out: &mut Vec<u8>,
    ) -> Result<u32, Memory>
        requires count { length self.old.tags < 2 ^ 32 - 1 }
        requires fresh { tag_number self.old.tags name ≡ None }
        requires simple { AllByRecursion IsSimpleAnswer self.old.answers.items }
        ensures number { IfOk result (λ n. n ≡ length self.old.tags + 1) }
        ensures state { OnOk result ((state : State) (request : Begun) → Keeps self.old state → outline_begun request ≡ begun
            → Keeps self.new (begun_by state (record { name = name; is_put = is_put }) request)) }
        ensures lines { OnOk result (self.new.lines ≡ self.old.lines) }
        ensures tags { OnOk result (self.new.tags ≡ self.old.tags ++ record { name = name; is_put = is_put } ∷ []) }
        ensures told { OnOk result (out.new.items ≡ out.old.items ++ entry_line (self.old.tags ++ record { name = name; is_put = is_put } ∷ []) (Mark (Begin (length self.old.tags + 1) begun))) }
        ensures simple { OnOk result (AllByRecursion IsSimpleAnswer self.new.answers.items) }
        ensures router { self.new.router ≡ self.old.router }
    {
        let number = self.tags.len() as u32 + 1;
        self.tags.push(alloc, name, is_put)?;
        self.answers.push(None)?;
        let entry = Entry::Mark(HistoryMark::Begin(number, begun));
        write_entry(out, &self.tags, &entry)?;
        self.settle(entry)?;
        Ok(number)
    }

    /// Draws an id for an operation and puts its blob.
    fn store<U: Random, F: Fabric>(
        &mut self,
        alloc: Global,
        body: Bytes,
        random: &mut U,
        fabric: &mut F,
        out: &mut Vec<u8>,
    ) -> Result<(), Memory>
        requires begun { self.old.router.begun + 1 ≡ length self.old.tags }
        requires idle { is_idle (live_in self.old.router.stages) ≡ true }
        requires number { length self.old.tags < 2 ^ 31 }
        requires limit { length body ≤ 65536 }
        requires chunk { self.old.router.shape.chunk ≡ 65536 }
        requires few { self.old.router.shape.partitions ≤ 64 }
        requires simple { AllByRecursion IsSimpleAnswer self.old.answers.items }
        requires open { F.opened fabric.old ≡ Some self.old.router.shape }
        ensures stored { OnOk result (Stores self.old.router.shape.partitions (length self.old.tags) body self.old self.new (ties_of self.old.router (F.told fabric.old)) (ties_of self.new.router (F.told fabric.new)) (U.ahead random.old) (U.ahead random.new) out.old.items out.new.items) }
        ensures lines { OnOk result (self.new.lines ≡ self.old.lines) }
        ensures tags { OnOk result (self.new.tags ≡ self.old.tags) }
        ensures ready { OnOk result (IsReady self.new) }
        ensures shape { self.new.router.shape ≡ self.old.router.shape }
        ensures net { Advances F.faults F.opened F.runs F.advances fabric.old fabric.new (is_ok result) }
    {
        let high = random.word();
        let low = random.word();
        let id = BlobId::draw(Kind::Simple, self.router.partition() as u16, high, low);
        let entry = Entry::Mark(HistoryMark::Drew(self.tags.len() as u32, id));
        write_entry(out, &self.tags, &entry)?;
        self.later.push(entry)?;
        self.router.put(alloc, id, body, fabric)?;
        Ok(())
    }

    /// Goes on with a put that has begun: nothing is drawn for a blob that is too long.
    fn put_body<U: Random, F: Fabric>(
        &mut self,
        alloc: Global,
        body: Bytes,
        random: &mut U,
        fabric: &mut F,
        out: &mut Vec<u8>,
    ) -> Result<(), Memory>
        requires begun { self.old.router.begun + 1 ≡ length self.old.tags }
        requires idle { is_idle (live_in self.old.router.stages) ≡ true }
        requires number { length self.old.tags < 2 ^ 31 }
        requires chunk { self.old.router.shape.chunk ≡ 65536 }
        requires few { self.old.router.shape.partitions ≤ 64 }
        requires simple { AllByRecursion IsSimpleAnswer self.old.answers.items }
        requires open { F.opened fabric.old ≡ Some self.old.router.shape }
        ensures stored { length body ≤ 65536 → OnOk result (Stores self.old.router.shape.partitions (length self.old.tags) body self.old self.new (ties_of self.old.router (F.told fabric.old)) (ties_of self.new.router (F.told fabric.new)) (U.ahead random.old) (U.ahead random.new) out.old.items out.new.items) }
        ensures refused { 65536 < length body → OnOk result (Starts (length self.old.tags) (put_of body) self.old self.new (ties_of self.old.router (F.told fabric.old)) (ties_of self.new.router (F.told fabric.new)) (U.ahead random.old) (U.ahead random.new) out.old.items out.new.items) }
        ensures lines { OnOk result (self.new.lines ≡ self.old.lines) }
        ensures tags { OnOk result (self.new.tags ≡ self.old.tags) }
        ensures ready { OnOk result (IsReady self.new) }
        ensures shape { self.new.router.shape ≡ self.old.router.shape }
        ensures net { Advances F.faults F.opened F.runs F.advances fabric.old fabric.new (is_ok result) }
    {
        if body.len() > self.router.limit() as usize {
            self.router.put_too_large(body.len() as u64)?;
            return Ok(());
        }
        self.store(alloc, body, random, fabric, out)?;
        Ok(())
    }

    fn put<U: Random, F: Fabric>(
        &mut self,
        alloc: Global,
        name: Bytes,
        body: Bytes,
        random: &mut U,
        fabric: &mut F,
        out: &mut Vec<u8>,
    ) -> Result<(), Memory>
        requires count { length self.old.tags < 2 ^ 31 - 1 }
        requires fresh { tag_number self.old.tags name ≡ None }
        requires ready { IsReady self.old }
        requires open { F.opened fabric.old ≡ Some self.old.router.shape }
        ensures lines { OnOk result (self.new.lines ≡ self.old.lines) }
        ensures tags { OnOk result (length self.new.tags ≡ length self.old.tags + 1) }
        ensures carried { OnOk result ((line : List ℕ) → AsksPut self.old.tags line name body
            → CarriesOut self.old.router.shape line self.old self.new (ties_of self.old.router (F.told fabric.old)) (ties_of self.new.router (F.told fabric.new)) (U.ahead random.old) (U.ahead random.new) out.old.items out.new.items) }
        ensures ready { OnOk result (IsReady self.new) }
        ensures shape { self.new.router.shape ≡ self.old.router.shape }
        ensures net { Advances F.faults F.opened F.runs F.advances fabric.old fabric.new (is_ok result) }
    {
        self.finish(alloc, fabric, out)?;
        let begun = Begun::Put {
            file: Bytes::new(alloc),
            body: Bytes::new(alloc),
            ttl: 0,
            ctype: Bytes::new(alloc),
            meta: Bytes::new(alloc),
        };
        let _number = self.begin(alloc, name, true, begun, out)?;
        self.put_body(alloc, body, random, fabric, out)?;
        Ok(())
    }

    fn get<F: Fabric>(
        &mut self,
        alloc: Global,
        name: Bytes,
        of: Target,
        fabric: &mut F,
        out: &mut Vec<u8>,
    ) -> Result<(), Memory>
        requires count { length self.old.tags < 2 ^ 31 - 1 }
        requires fresh { tag_number self.old.tags name ≡ None }
        requires whole { IsNotComposite of }
        requires ready { IsReady self.old }
        requires open { F.opened fabric.old ≡ Some self.old.router.shape }
        ensures lines { OnOk result (self.new.lines ≡ self.old.lines) }
        ensures tags { OnOk result (length self.new.tags ≡ length self.old.tags + 1) }
        ensures carried { OnOk result ((line : List ℕ) (words : Option (ℕ → ℕ)) → AsksGet self.old.tags line name of
            → CarriesOut self.old.router.shape line self.old self.new (ties_of self.old.router (F.told fabric.old)) (ties_of self.new.router (F.told fabric.new)) words words out.old.items out.new.items) }
        ensures ready { OnOk result (IsReady self.new) }
        ensures shape { self.new.router.shape ≡ self.old.router.shape }
        ensures net { Advances F.faults F.opened F.runs F.advances fabric.old fabric.new (is_ok result) }
    {
        self.finish(alloc, fabric, out)?;
        let id = self.meant(&of);
        let begun = begun_get(alloc, &id);
        let _number = self.begin(alloc, name, false, begun, out)?;
        self.router.get(alloc, id, fabric)?;
        Ok(())
    }

    fn delete<F: Fabric>(
        &mut self,
        alloc: Global,
        name: Bytes,
        of: Target,
        fabric: &mut F,
        out: &mut Vec<u8>,
    ) -> Result<(), Memory>
        requires count { length self.old.tags < 2 ^ 31 - 1 }
        requires fresh { tag_number self.old.tags name ≡ None }
        requires whole { IsNotComposite of }
        requires ready { IsReady self.old }
        requires open { F.opened fabric.old ≡ Some self.old.router.shape }
        ensures lines { OnOk result (self.new.lines ≡ self.old.lines) }
        ensures tags { OnOk result (length self.new.tags ≡ length self.old.tags + 1) }
        ensures carried { OnOk result ((line : List ℕ) (words : Option (ℕ → ℕ)) → AsksDelete self.old.tags line name of
            → CarriesOut self.old.router.shape line self.old self.new (ties_of self.old.router (F.told fabric.old)) (ties_of self.new.router (F.told fabric.new)) words words out.old.items out.new.items) }
        ensures ready { OnOk result (IsReady self.new) }
        ensures shape { self.new.router.shape ≡ self.old.router.shape }
        ensures net { Advances F.faults F.opened F.runs F.advances fabric.old fabric.new (is_ok result) }
    {
        self.finish(alloc, fabric, out)?;
        let id = self.meant(&of);
        let begun = begun_delete(&id);
        let _number = self.begin(alloc, name, false, begun, out)?;
        self.router.delete(alloc, id, fabric)?;
        Ok(())
    }

    fn wait<F: Fabric>(
        &mut self,
        alloc: Global,
        fabric: &mut F,
        out: &mut Vec<u8>,
    ) -> Result<(), Memory>
        requires ready { IsReady self.old }
        requires open { F.opened fabric.old ≡ Some self.old.router.shape }
        ensures lines { OnOk result (self.new.lines ≡ self.old.lines) }
        ensures tags { OnOk result (length self.new.tags ≡ length self.old.tags) }
        ensures carried { OnOk result ((line : List ℕ) (words : Option (ℕ → ℕ)) → AsksWait self.old.tags line
            → CarriesOut self.old.router.shape line self.old self.new (ties_of self.old.router (F.told fabric.old)) (ties_of self.new.router (F.told fabric.new)) words words out.old.items out.new.items) }
        ensures ready { OnOk result (IsReady self.new) }
        ensures shape { self.new.router.shape ≡ self.old.router.shape }
        ensures net { Advances F.faults F.opened F.runs F.advances fabric.old fabric.new (is_ok result) }
    {
        self.settled.push(Entry::Mark(HistoryMark::Wait(None)))?;
        self.finish(alloc, fabric, out)?;
        Ok(())
    }

    /// Orders something of a node that is there, and takes the events that come of it. An operation that is open stays so.
    fn order<F: Fabric>(
        &mut self,
        alloc: Global,
        order: Order,
        fabric: &mut F,
        out: &mut Vec<u8>,
    ) -> Result<(), Memory>
        requires ready { IsReady self.old }
        requires open { F.opened fabric.old ≡ Some self.old.router.shape }
        requires there { is_to_node self.old.router.shape.nodes order ≡ true }
        ensures lines { OnOk result (self.new.lines ≡ self.old.lines) }
        ensures tags { OnOk result (self.new.tags ≡ self.old.tags) }
        ensures carried { OnOk result ((line : List ℕ) (words : Option (ℕ → ℕ)) → AsksOrder self.old.tags line order
            → CarriesOut self.old.router.shape line self.old self.new (ties_of self.old.router (F.told fabric.old)) (ties_of self.new.router (F.told fabric.new)) words words out.old.items out.new.items) }
        ensures failed { OnOk result (HasFailed self.old self.new order → Rose (F.faults fabric.old) (F.faults fabric.new)) }
        ensures ready { OnOk result (IsReady self.new) }
        ensures shape { self.new.router.shape ≡ self.old.router.shape }
        ensures net { Advances F.faults F.opened F.runs F.advances fabric.old fabric.new (is_ok result) }
    {
        match self.router.order(alloc, &order, fabric)? {
            Some(told) => self.add(Entry::Mark(HistoryMark::Ordered { order, told }), out),
            None => self.add(Entry::Failed(order), out),
        }
    }

    /// Carries out an order line, which is bad where its node isn't there.
    fn order_or_refuse<F: Fabric>(
        &mut self,
        alloc: Global,
        order: Order,
        fabric: &mut F,
        out: &mut Vec<u8>,
    ) -> Result<(), Memory>
        requires ready { IsReady self.old }
        requires open { F.opened fabric.old ≡ Some self.old.router.shape }
        ensures lines { OnOk result (self.new.lines ≡ self.old.lines) }
        ensures tags { OnOk result (self.new.tags ≡ self.old.tags) }
        ensures carried { OnOk result ((line : List ℕ) (words : Option (ℕ → ℕ)) → AsksOrder self.old.tags line order
            → CarriesOut self.old.router.shape line self.old self.new (ties_of self.old.router (F.told fabric.old)) (ties_of self.new.router (F.told fabric.new)) words words out.old.items out.new.items) }
        ensures failed { OnOk result (HasFailed self.old self.new order → Rose (F.faults fabric.old) (F.faults fabric.new)) }
        ensures ready { OnOk result (IsReady self.new) }
        ensures shape { self.new.router.shape ≡ self.old.router.shape }
        ensures net { Advances F.faults F.opened F.runs F.advances fabric.old fabric.new (is_ok result) }
    {
        if !is_to_node(self.router.nodes(), &order) {
            return self.refuse(out);
        }
        self.order(alloc, order, fabric, out)
    }

    /// Carries out a script line, and says whether the script goes on.
    pub fn carry_out<U: Random, F: Fabric>(
        &mut self,
        alloc: Global,
        line: &[u8],
        random: &mut U,
        fabric: &mut F,
        out: &mut Vec<u8>,
    ) -> Result<bool, Memory>
        requires lines { self.old.lines < 2 ^ 31 - 1 }
        requires tags { length self.old.tags ≤ self.old.lines }
        requires ready { IsReady self.old }
        requires open { F.opened fabric.old ≡ Some self.old.router.shape }
        ensures carried { OnOk result ((lines : List (List ℕ)) (state : State) (first : Option (ℕ → ℕ)) → Keeps self.old state → StandsAt self.old.router.shape lines state (ties_of self.old.router (F.told fabric.old)) first (U.ahead random.old)
            → state.lines ≡ length lines → HasGoneOn self.old.router.shape line.now lines state self.new (ties_of self.new.router (F.told fabric.new)) first (U.ahead random.new) out.old.items out.new.items) }
        // An order is answered as failed only where the network failed.
        ensures failed { OnOk result ((order : Order) → AsksOrder self.old.tags line.now order → HasFailed self.old self.new order → Rose (F.faults fabric.old) (F.faults fabric.new)) }
        ensures lines { OnOk result (self.new.lines ≡ self.old.lines + 1) }
        ensures tags { OnOk result (length self.new.tags ≤ self.new.lines) }
        ensures ready { OnOk result (IsReady self.new) }
        ensures shape { self.new.router.shape ≡ self.old.router.shape }
        ensures net { Advances F.faults F.opened F.runs F.advances fabric.old fabric.new (is_ok result) }
        ensures goes_on { IfOk result (λ more. MatchBool more (command_of self.old.tags line.now ≢ Some TheEnd) (command_of self.old.tags line.now ≡ Some TheEnd)) }
    {
        self.lines += 1;
        match read_line(alloc, line, &self.tags)? {
            None => self.refuse(out)?,
            Some(Command::Skip) => {}
            Some(Command::Put { tag, body }) => self.put(alloc, tag, body, random, fabric, out)?,
            Some(Command::Get { tag, of }) => self.get(alloc, tag, of, fabric, out)?,
            Some(Command::Delete { tag, of }) => self.delete(alloc, tag, of, fabric, out)?,
            Some(Command::Order(order)) => self.order_or_refuse(alloc, order, fabric, out)?,
            Some(Command::Wait) => self.wait(alloc, fabric, out)?,
            Some(Command::End) => return Ok(false),
        }
        Ok(true)
    }

    /// The id that a line means.
    fn meant(&self, of: &Target) -> Option<BlobId>
        requires ready { IsReady self.now }
        requires whole { IsNotComposite of.now }
        ensures meant { (state : State) → Keeps self.now state → result ≡ meant_by state.tags (entries_of state) of.now }
        ensures whole { IfSome result (λ id. is_composite id ≡ false) }
    {
        match of {
            Target::Tag(name) => self.named(name.as_slice()),
            Target::Id(id) => Some(*id),
        }
    }

    /// The id that `$TAG` names: the one that its put was answered with.
    fn named(&self, name: &[u8]) -> Option<BlobId>
        requires ready { IsReady self.now }
        ensures named { (state : State) → Keeps self.now state → result ≡ named_by state.tags (entries_of state) name.now }
        ensures simple { IfSome result (λ id. is_composite id ≡ false) }
    {
        match self.tags.number_of(name) {
            Some(number) => answer_at(self.answers.as_slice(), number),
            None => None,
        }
    }
}

/// Whether an order is to one of so many nodes.
fn is_to_node(nodes: u32, order: &Order) -> bool
    ensures { result ≡ is_to_node nodes order.now }
{
    match order {
        Order::Stop(node) | Order::Restart(node) => 1 <= *node && *node <= nodes,
        Order::Pull(..) | Order::Compact(..) | Order::Level(..) => false,
    }
}

/// A get of a whole blob.
fn begun_get(alloc: Global, id: &Option<BlobId>) -> Begun
    ensures { result ≡ get_of id.now }
{
    Begun::Get {
        id: *id,
        range: None,
        file: Bytes::new(alloc),
    }
}

fn begun_delete(id: &Option<BlobId>) -> Begun
    ensures { result ≡ delete_of id.now }
{
    Begun::Delete { id: *id }
}

/// The answer of an operation, numbered from 1.
fn answer_at(answers: &[Option<BlobId>], number: u32) -> Option<BlobId>
    requires simple { AllByRecursion IsSimpleAnswer answers.now }
    ensures answer { result ≡ answer_at answers.now number }
    ensures simple { IfSome result (λ id. is_composite id ≡ false) }
{
    match answers.get((number as usize).saturating_sub(1)) {
        Some(answer) => *answer,
        None => None,
    }
}

/// Sets the answer of an operation, where it has one.
fn answer_with(answers: &mut Vec<Option<BlobId>>, number: u32, answer: Option<BlobId>)
    requires simple { AllByRecursion IsSimpleAnswer answers.old.items }
    requires new { IsSimpleAnswer answer }
    ensures set { answers.new.items ≡ answered answers.old.items number answer }
    ensures simple { AllByRecursion IsSimpleAnswer answers.new.items }
{
    if answer.is_some() {
        if let Some(place) = answers.get_mut((number as usize).saturating_sub(1)) {
            *place = answer;
        }
    }
}

/// The answer that an outcome gives.
fn answer_in(outcome: &Outcome) -> Option<BlobId>
    ensures { result ≡ answer_in outcome.now }
{
    match outcome {
        Outcome::Put(id) => Some(*id),
        _ => None,
    }
}
