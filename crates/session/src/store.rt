//! The store in memory.

use crate::lines::read_line;
use crate::queries::{join_of, near_of, range_of};
use cmd_grammar::{Command, Reply};
use metric_laws::{Counted, Metric, Ruler};
use metrics_builtin::Space;
use pivot_choice::choose_objects;
use pivot_map::{Row, map_object};
use row_table::RowTable;
use spb_defs::{MEMORY_CAP, SAMPLE_LIMIT};
use spb_edge::{Bytes, Line, Memory};
use std::alloc::Global;

/// The store in memory: its space, how many pivots are wanted, the samples while they are kept, the pivots
/// from then on, and the rows of the four collections.
#[derive(Drop)]
pub(crate) struct Store {
    pub(crate) space: Space,
    wanted: u8,
    pivots: Vec<Bytes>,
    samples: Vec<Bytes>,
    sampling: bool,
    tables: [RowTable; 4],
}

impl Store {
    ghost use Rattle.metric_laws.specs.Calls.{RulerContinues};
    ghost use Rattle.std.specs.Prelude.{◌≡◌, ◌+◌, ◌^◌, ◌<◌, ◌≤◌, None, false, IsTrue, IfOk, OnOk, length, sum_by};
    ghost use Rattle.metrics_builtin.specs.Space.{fits, IsValid};
    ghost use Rattle.spb_edge.specs.declared.reader.Line.{Line};
    ghost use Rattle.spb_defs.specs.declared.Command.{Command};
    ghost use Rattle.spb_defs.specs.MetricOf.{IsMetricOf};
    ghost use Rattle.spb_defs.specs.State.{with_samples_closed, empty_in_memory};
    ghost use Rattle.spb_defs.specs.Step.{acting_state, reply_of, changed_state, reply_to, state_after, reply, next_state, evals_of};
    ghost use Rattle.spb_defs.specs.CommandText.{IsWellFormed};
    ghost use Rattle.cmd_grammar.specs.HoldsObject.{HoldsObject};
    ghost use Rattle.session.specs.Store.{IsStore, IsReady, state_of, with_member};
    ghost use Rattle.row_table.specs.Members.{rows_at};
    ghost use Rattle.row_table.specs.Tables.{row_with};
    ghost use Rattle.spb_defs.specs.declared.TheConstants.{MEMORY_CAP};

    /// An empty store of the space, with this many pivots wanted. It takes no memory.
    pub(crate) fn new(alloc: Global, space: Space, wanted: u8) -> Store
        requires fits { IsTrue (fits space) }
        requires few { wanted ≤ 8 }
        ensures empty { state_of result ≡ empty_in_memory space wanted }
        ensures sound { IsStore result }
    {
        Store {
            space,
            wanted,
            pivots: Vec::new(alloc),
            samples: Vec::new(alloc),
            sampling: true,
            tables: [
                RowTable::new(alloc),
                RowTable::new(alloc),
                RowTable::new(alloc),
                RowTable::new(alloc),
            ],
        }
    }

    /// The reply to the line, and the store after it.
    pub(crate) fn turn<M: Metric, R: Ruler>(
        &mut self,
        alloc: Global,
        metric: &M,
        ruler: &mut R,
        line: &Line,
    ) -> Result<Reply, Memory>
        requires sound { IsStore self.old }
        requires metric { IsMetricOf (M.admitted metric.now) (M.dist metric.now) self.old.space }
        requires ruler { IsMetricOf (R.admitted (R.kind ruler.old)) (R.dist (R.kind ruler.old)) self.old.space }
        requires room { R.count ruler.old < 2 ^ 63 }
        ensures reply { IfOk result (λ said. said ≡ reply (state_of self.old) line.now) }
        ensures next { OnOk result (state_of self.new ≡ next_state (state_of self.old) line.now) }
        ensures object { IfOk result (λ said. HoldsObject self.old.space said) }
        ensures few { IfOk result (λ said. evals_of said ≤ 2 ^ 32) }
        ensures count { IfOk result (λ said. R.count ruler.new ≡ R.count ruler.old + evals_of said) }
        ensures ruler { RulerContinues R.kind R.count ruler.old ruler.new }
        ensures space { self.new.space ≡ self.old.space }
        ensures sound { IsStore self.new }
    {
        match read_line(alloc, &self.space, line)? {
            Ok(command) => self.execute(alloc, metric, ruler, command),
            Err(refusal) => Ok(refusal),
        }
    }

    /// The reply to the command, and the store after it.
    fn execute<M: Metric, R: Ruler>(
        &mut self,
        alloc: Global,
        metric: &M,
        ruler: &mut R,
        command: Command,
    ) -> Result<Reply, Memory>
        requires sound { IsStore self.old }
        requires metric { IsMetricOf (M.admitted metric.now) (M.dist metric.now) self.old.space }
        requires ruler { IsMetricOf (R.admitted (R.kind ruler.old)) (R.dist (R.kind ruler.old)) self.old.space }
        requires room { R.count ruler.old < 2 ^ 63 }
        requires proper { IsWellFormed self.old.space command }
        ensures reply { IfOk result (λ said. said ≡ reply_to (state_of self.old) command) }
        ensures next { OnOk result (state_of self.new ≡ state_after (state_of self.old) command) }
        ensures object { IfOk result (λ said. HoldsObject self.old.space said) }
        ensures few { IfOk result (λ said. evals_of said ≤ 2 ^ 32) }
        ensures count { IfOk result (λ said. R.count ruler.new ≡ R.count ruler.old + evals_of said) }
        ensures ruler { RulerContinues R.kind R.count ruler.old ruler.new }
        ensures space { self.new.space ≡ self.old.space }
        ensures sound { IsStore self.new }
    {
        self.make_ready(alloc, metric, &command)?;
        self.execute_ready(alloc, metric, ruler, command)
    }

    /// Closes the samples, unless the command is a sample. If memory runs out nothing changes.
    fn make_ready<M: Metric>(
        &mut self,
        alloc: Global,
        metric: &M,
        command: &Command,
    ) -> Result<(), Memory>
        requires sound { IsStore self.old }
        requires metric { IsMetricOf (M.admitted metric.now) (M.dist metric.now) self.old.space }
        ensures acted_on { OnOk result (state_of self.new ≡ acting_state (state_of self.old) command.now) }
        ensures ready { OnOk result (IsReady self.new.sampling command.now) }
        ensures space { self.new.space ≡ self.old.space }
        ensures sound { IsStore self.new }
    {
        match command {
            Command::Sample { .. } => Ok(()),
            Command::Add { .. }
            | Command::Discard { .. }
            | Command::Get { .. }
            | Command::Count { .. }
            | Command::Range { .. }
            | Command::Near { .. }
            | Command::Join { .. } => self.close(alloc, metric),
        }
    }

    /// The reply to the command, and the store after it. The samples are closed, unless it is a sample.
    #[tactic(auto, unfolding(spb_defs::specs::Step::changed_state))]
    fn execute_ready<M: Metric, R: Ruler>(
        &mut self,
        alloc: Global,
        metric: &M,
        ruler: &mut R,
        command: Command,
    ) -> Result<Reply, Memory>
        requires sound { IsStore self.old }
        requires metric { IsMetricOf (M.admitted metric.now) (M.dist metric.now) self.old.space }
        requires ruler { IsMetricOf (R.admitted (R.kind ruler.old)) (R.dist (R.kind ruler.old)) self.old.space }
        requires room { R.count ruler.old < 2 ^ 63 }
        requires proper { IsWellFormed self.old.space command }
        requires ready { IsReady self.old.sampling command }
        ensures reply { IfOk result (λ said. said ≡ reply_of (state_of self.old) command) }
        ensures next { OnOk result (state_of self.new ≡ changed_state (state_of self.old) command) }
        ensures object { IfOk result (λ said. HoldsObject self.old.space said) }
        ensures count { IfOk result (λ said. R.count ruler.new ≡ R.count ruler.old + evals_of said) }
        ensures ruler { RulerContinues R.kind R.count ruler.old ruler.new }
        ensures space { self.new.space ≡ self.old.space }
        ensures sound { IsStore self.new }
    {
        match command {
            Command::Sample { object } => self.sample(object),
            Command::Add { c, id, object } => self.add(metric, c, id, object),
            Command::Discard { c, id } => Ok(self.discard(c, id)),
            Command::Get { c, id } => self.get(alloc, c, id),
            Command::Count { c } => Ok(self.count(c)),
            Command::Range { c, r, object } => self.range(alloc, ruler, c, r, &object),
            Command::Near { c, k, object } => self.near(alloc, ruler, c, k, &object),
            Command::Join { c, d, r } => self.join(alloc, ruler, c, d, r),
        }
    }

    /// Closes the samples, if they are open: the pivots are chosen from them. If memory runs out nothing
    /// changes.
    fn close<M: Metric>(&mut self, alloc: Global, metric: &M) -> Result<(), Memory>
        requires sound { IsStore self.old }
        requires metric { IsMetricOf (M.admitted metric.now) (M.dist metric.now) self.old.space }
        ensures closed { OnOk result (state_of self.new ≡ with_samples_closed (state_of self.old)) }
        ensures sampling { OnOk result (self.new.sampling ≡ false) }
        ensures space { self.new.space ≡ self.old.space }
        ensures sound { IsStore self.new }
    {
        if !self.sampling {
            return Ok(());
        }
        let samples = self.samples.as_slice();
        let choice = choose_objects(alloc, metric, samples, self.wanted as usize)?;
        self.pivots = choice.pivots;
        self.sampling = false;
        self.samples.clear();
        Ok(())
    }

    /// Keeps the object as a sample, while the samples are open and there is room.
    fn sample(&mut self, object: Bytes) -> Result<Reply, Memory>
        requires sound { IsStore self.old }
        requires object { IsValid self.old.space object }
        ensures reply { IfOk result (λ said. said ≡ reply_of (state_of self.old) (Command.Sample object)) }
        ensures next { OnOk result (state_of self.new ≡ changed_state (state_of self.old) (Command.Sample object)) }
        ensures object { IfOk result (λ said. HoldsObject self.old.space said) }
        ensures unmeasured { IfOk result (λ said. evals_of said ≡ 0) }
        ensures space { self.new.space ≡ self.old.space }
        ensures sound { IsStore self.new }
    {
        if !self.sampling {
            return Ok(Reply::Late);
        }
        if self.samples.len() >= SAMPLE_LIMIT {
            return Ok(Reply::Full);
        }
        self.samples.push(object)?;
        Ok(Reply::Done)
    }

    /// How many objects there are, in all collections.
    fn len(&self) -> usize
        requires sound { IsStore self.now }
        ensures { result ≡ sum_by length self.now.tables }
    {
        self.tables[0].len() + self.tables[1].len() + self.tables[2].len() + self.tables[3].len()
    }

    /// Adds the object, if the collection doesn't have the id and there is room. It takes the distances to
    /// the pivots, and time in the logarithm of the number of objects.
    fn add<M: Metric>(&mut self, metric: &M, c: u8, id: u32, object: Bytes) -> Result<Reply, Memory>
        requires sound { IsStore self.old }
        requires metric { IsMetricOf (M.admitted metric.now) (M.dist metric.now) self.old.space }
        requires closed { self.old.sampling ≡ false }
        requires collection { c < 4 }
        requires object { IsValid self.old.space object }
        ensures reply { IfOk result (λ said. said ≡ reply_of (state_of self.old) (Command.Add c id object)) }
        ensures next { OnOk result (state_of self.new ≡ changed_state (state_of self.old) (Command.Add c id object)) }
        ensures object { IfOk result (λ said. HoldsObject self.old.space said) }
        ensures unmeasured { IfOk result (λ said. evals_of said ≡ 0) }
        ensures space { self.new.space ≡ self.old.space }
        ensures sound { IsStore self.new }
    {
        if self.tables[c as usize].has(id) {
            return Ok(Reply::Exists);
        }
        if self.len() >= MEMORY_CAP {
            return Ok(Reply::Full);
        }
        self.put(metric, c, id, object)?;
        Ok(Reply::Done)
    }

    /// Adds a row for the object to a collection that doesn't have the id, while there is room.
    fn put<M: Metric>(&mut self, metric: &M, c: u8, id: u32, object: Bytes) -> Result<(), Memory>
        requires sound { IsStore self.old }
        requires metric { IsMetricOf (M.admitted metric.now) (M.dist metric.now) self.old.space }
        requires collection { c < 4 }
        requires object { IsValid self.old.space object }
        requires closed { self.old.sampling ≡ false }
        requires new { row_with id (rows_at self.old.tables c) ≡ None }
        requires room { sum_by length self.old.tables < MEMORY_CAP }
        ensures members { OnOk result (state_of self.new ≡ with_member (state_of self.old) c id object) }
        ensures space { self.new.space ≡ self.old.space }
        ensures sound { IsStore self.new }
    {
        let mut ruler = Counted::new(*metric);
        let vect = map_object(&mut ruler, self.pivots.as_slice(), object.as_slice());
        self.tables[c as usize].insert(Row { id, object, vect })?;
        Ok(())
    }

    /// Takes the object out, if the collection has the id. It takes time in the logarithm of the number of
    /// objects.
    fn discard(&mut self, c: u8, id: u32) -> Reply
        requires sound { IsStore self.old }
        requires closed { self.old.sampling ≡ false }
        requires collection { c < 4 }
        ensures reply { result ≡ reply_of (state_of self.old) (Command.Discard c id) }
        ensures next { state_of self.new ≡ changed_state (state_of self.old) (Command.Discard c id) }
        ensures object { HoldsObject self.old.space result }
        ensures unmeasured { evals_of result ≡ 0 }
        ensures space { self.new.space ≡ self.old.space }
        ensures sound { IsStore self.new }
    {
        if self.tables[c as usize].remove(id) {
            Reply::Done
        } else {
            Reply::Absent
        }
    }

    /// The object, if the collection has the id. It takes time in the logarithm of the number of objects,
    /// and memory for a copy.
    fn get(&self, alloc: Global, c: u8, id: u32) -> Result<Reply, Memory>
        requires sound { IsStore self.now }
        requires collection { c < 4 }
        ensures reply { IfOk result (λ said. said ≡ reply_of (state_of self.now) (Command.Get c id)) }
        ensures object { IfOk result (λ said. HoldsObject self.now.space said) }
        ensures unmeasured { IfOk result (λ said. evals_of said ≡ 0) }
    {
        match self.tables[c as usize].find(id) {
            Some(row) => Ok(Reply::Object(Bytes::of(alloc, row.object.as_slice())?)),
            None => Ok(Reply::Absent),
        }
    }

    /// How many objects the collection has.
    fn count(&self, c: u8) -> Reply
        requires sound { IsStore self.now }
        requires collection { c < 4 }
        ensures reply { result ≡ reply_of (state_of self.now) (Command.Count c) }
        ensures object { HoldsObject self.now.space result }
        ensures unmeasured { evals_of result ≡ 0 }
    {
        Reply::Count(self.tables[c as usize].len() as u32)
    }

    /// The ids of the collection within the radius.
    fn range<R: Ruler>(
        &self,
        alloc: Global,
        ruler: &mut R,
        c: u8,
        radius: u32,
        query: &Bytes,
    ) -> Result<Reply, Memory>
        requires sound { IsStore self.now }
        requires ruler { IsMetricOf (R.admitted (R.kind ruler.old)) (R.dist (R.kind ruler.old)) self.now.space }
        requires room { R.count ruler.old < 2 ^ 63 }
        requires collection { c < 4 }
        requires query { IsValid self.now.space query.now }
        ensures reply { IfOk result (λ said. said ≡ reply_of (state_of self.now) (Command.Range c radius query.now)) }
        ensures object { IfOk result (λ said. HoldsObject self.now.space said) }
        ensures count { IfOk result (λ said. R.count ruler.new ≡ R.count ruler.old + evals_of said) }
        ensures ruler { RulerContinues R.kind R.count ruler.old ruler.new }
    {
        let rows = self.tables[c as usize].rows();
        range_of(alloc, rows, self.pivots.as_slice(), ruler, c, radius, query)
    }

    /// The `k` nearest of the collection, by distance and then by id.
    fn near<R: Ruler>(
        &self,
        alloc: Global,
        ruler: &mut R,
        c: u8,
        k: u32,
        query: &Bytes,
    ) -> Result<Reply, Memory>
        requires sound { IsStore self.now }
        requires ruler { IsMetricOf (R.admitted (R.kind ruler.old)) (R.dist (R.kind ruler.old)) self.now.space }
        requires room { R.count ruler.old < 2 ^ 63 }
        requires collection { c < 4 }
        requires some { 1 ≤ k }
        requires query { IsValid self.now.space query.now }
        ensures reply { IfOk result (λ said. said ≡ reply_of (state_of self.now) (Command.Near c k query.now)) }
        ensures object { IfOk result (λ said. HoldsObject self.now.space said) }
        ensures count { IfOk result (λ said. R.count ruler.new ≡ R.count ruler.old + evals_of said) }
        ensures ruler { RulerContinues R.kind R.count ruler.old ruler.new }
    {
        let rows = self.tables[c as usize].rows();
        near_of(alloc, rows, self.pivots.as_slice(), ruler, c, k, query)
    }

    /// The pairs of an id of collection `c` and one of `d` within the radius of each other.
    fn join<R: Ruler>(
        &self,
        alloc: Global,
        ruler: &mut R,
        c: u8,
        d: u8,
        radius: u32,
    ) -> Result<Reply, Memory>
        requires sound { IsStore self.now }
        requires ruler { IsMetricOf (R.admitted (R.kind ruler.old)) (R.dist (R.kind ruler.old)) self.now.space }
        requires room { R.count ruler.old < 2 ^ 63 }
        requires left { c < 4 }
        requires right { d < 4 }
        ensures reply { IfOk result (λ said. said ≡ reply_of (state_of self.now) (Command.Join c d radius)) }
        ensures object { IfOk result (λ said. HoldsObject self.now.space said) }
        ensures count { IfOk result (λ said. R.count ruler.new ≡ R.count ruler.old + evals_of said) }
        ensures ruler { RulerContinues R.kind R.count ruler.old ruler.new }
    {
        let left = self.tables[c as usize].rows();
        let right = self.tables[d as usize].rows();
        join_of(
            alloc,
            left,
            right,
            self.pivots.as_slice(),
            ruler,
            c,
            d,
            radius,
        )
    }
}
