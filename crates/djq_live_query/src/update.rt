//! Updates of a registered query by a row of a relation that is inserted or deleted.
ghost use Rattle.std.specs.Prelude.{◌≡◌, ℕ, false, length, OnOk, OnErr};
ghost use Rattle.djq_model.specs.Data.{Tuple};
ghost use Rattle.djq_reduct.specs.Reducts.{SameTables};
ghost use Rattle.djq_database.specs.Catalog.{Catalog as CatalogModel};
ghost use Rattle.djq_leaves.specs.Batching.{GrowsBy};
ghost use Rattle.djq_leaves.specs.Changes.{Came, CameAll, Went, WentAll};
ghost use Rattle.djq_live_query.specs.Cursors.{outdated_slots};
ghost use Rattle.djq_live_query.specs.Live.{IsKept, IsLive, SameQuery};
ghost use Rattle.djq_leaves.specs.Stepping.{GrowsByOne, HasMore};
ghost use Rattle.djq_live_query.specs.Updating.{
  CanAdd,
  CanAddAll,
  CanDelete,
  CanDeleteAll,
  LiveAfter,
  LogsWhere,
  IsEmpty,
  CountsBatchAt,
  CountsDelta,
  CountsFlat,
  CountsFlatRows,
  CountsUpdate,
};

use crate::live::LiveQuery;
use djq_counters::{Ledgers, Steps};
use djq_database::RelationId;
use djq_enumeration::DeltaLog;
use djq_leaves::{
    add_all_to_leaves, add_to_leaves, delete_all_from_leaves, delete_from_leaves,
    give_all_from_leaves, tuples_of_all,
};
use djq_model::{Name, NoMem};
use djq_reduct::Cells;

impl LiveQuery {
    /// Inserts a row that was inserted into a relation, given by its cells; it is inserted into the
    /// leaves over the relation one after another. If the delta is wanted, the answers that were added
    /// are appended to the log. [`outdate`](LiveQuery::outdate) is to be called before a cursor is
    /// read.
    ///
    /// For each atom over the relation the update count rises by at most 16(m + v)(n + 1), with m atoms
    /// and v variables in the query, holes counted in, and at most n tuples in each leaf before. If the
    /// query is flat, by at most 16(m + v), whatever the number of tuples.
    ///
    /// # Errors
    ///
    /// `NoMem` out of memory; all tables are as before, with the same supports, and the log is empty.
    /// The update count then rises by at most three times as much, since the row is removed again from
    /// the leaves that have it; if the query is flat, by at most twice as much.
    pub fn add<L: Ledgers>(
        &mut self,
        relation: RelationId,
        cells: &[u64],
        wanted: bool,
        log: &mut DeltaLog,
        steps: &mut Steps<L>,
    ) -> Result<(), NoMem>
        requires { CanAdd self.old relation.at cells.now }
        ensures added { OnOk result (LiveAfter (λ c d. Came c d relation.at cells.now)
            self.old self.new) }
        ensures refused { OnErr result ((c : CatalogModel) → IsKept c self.old
            → IsKept c self.new) }
        ensures tables { OnErr result (SameTables self.old.reducts self.new.reducts) }
        ensures same { SameQuery self.old self.new }
        ensures log { OnOk result (LogsWhere wanted (λ c d. Came c d relation.at cells.now)
            self.old log.old log.new) }
        ensures emptied { OnErr result (IsEmpty log.new) }
        ensures counted { CountsDelta wanted (λ c d. Came c d relation.at cells.now)
            self.old relation.at steps.old.listing steps.new.listing }
        ensures grows { OnOk result (GrowsByOne self.old.reducts self.new.reducts) }
        ensures updates { OnOk result (CountsUpdate 1 self.old relation.at
            steps.old.update steps.new.update) }
        ensures refusal { OnErr result (CountsUpdate 3 self.old relation.at
            steps.old.update steps.new.update) }
        ensures flat { OnOk result (CountsFlat 1 self.old relation.at
            steps.old.update steps.new.update) }
        ensures flat_refusal { OnErr result (CountsFlat 2 self.old relation.at
            steps.old.update steps.new.update) }
        ensures rows { steps.new.rows ≡ steps.old.rows }
    {
        let atoms = self.numbered.atoms();
        let patterns = self.patterns.as_slice();
        let done = add_to_leaves(
            &mut self.reducts,
            atoms,
            patterns,
            relation.at,
            cells,
            wanted,
            log,
            steps,
        );
        if done == atoms.len() {
            return Ok(());
        }
        delete_from_leaves(
            &mut self.reducts,
            atoms,
            patterns,
            done,
            relation.at,
            cells,
            false,
            log,
            steps,
        );
        log.clear();
        Err(NoMem)
    }

    /// Inserts rows that were inserted into a relation at once, each given by its cells; they are
    /// inserted into the leaves over the relation one leaf after another, all tuples of a leaf at once.
    /// If the delta is wanted, the answers that all of them together added are appended to the log,
    /// each once. [`outdate`](LiveQuery::outdate) is to be called before a cursor is read.
    ///
    /// For each atom over the relation the update count rises by at most 16(m + v)(n + k + 1), with m
    /// atoms and v variables in the query, holes counted in, at most n tuples in each leaf before, and
    /// k new rows: by no more than one row may count if so many are there. If the query is flat, by at
    /// most 16(m + v) for each row, whatever the number of tuples.
    ///
    /// # Errors
    ///
    /// `NoMem` out of memory; all tables are as before, with the same supports, and the log is empty.
    /// The update count then rises by at most twice as much, since the rows are removed again from the
    /// leaves that have them.
    pub fn add_many<L: Ledgers>(
        &mut self,
        relation: RelationId,
        rows: &[Cells],
        wanted: bool,
        log: &mut DeltaLog,
        steps: &mut Steps<L>,
    ) -> Result<(), NoMem>
        requires { CanAddAll self.old relation.at rows.now }
        ensures added { OnOk result (LiveAfter (λ c d. CameAll c d relation.at rows.now)
            self.old self.new) }
        ensures refused { OnErr result ((c : CatalogModel) → IsKept c self.old
            → IsKept c self.new) }
        ensures tables { OnErr result (SameTables self.old.reducts self.new.reducts) }
        ensures same { SameQuery self.old self.new }
        ensures log { OnOk result (LogsWhere wanted (λ c d. CameAll c d relation.at rows.now)
            self.old log.old log.new) }
        ensures emptied { OnErr result (IsEmpty log.new) }
        ensures counted { CountsDelta wanted (λ c d. CameAll c d relation.at rows.now)
            self.old relation.at steps.old.listing steps.new.listing }
        ensures grows { OnOk result (GrowsBy (length rows.now) self.old.reducts self.new.reducts) }
        ensures updates { OnOk result (CountsBatchAt (length rows.now) 1 self.old relation.at
            steps.old.update steps.new.update) }
        ensures refusal { OnErr result (CountsBatchAt (length rows.now) 2 self.old relation.at
            steps.old.update steps.new.update) }
        ensures flat { OnOk result (CountsFlatRows (length rows.now) self.old relation.at
            steps.old.update steps.new.update) }
        ensures rows { steps.new.rows ≡ steps.old.rows }
    {
        let alloc = *self.patterns.allocator();
        let atoms = self.numbered.atoms();
        let patterns = self.patterns.as_slice();
        let Ok(batch) = tuples_of_all(alloc, atoms, patterns, relation.at, rows) else {
            log.clear();
            return Err(NoMem);
        };
        let tuples = batch.as_slice();
        let done = add_all_to_leaves(
            &mut self.reducts,
            atoms,
            tuples,
            rows,
            relation.at,
            wanted,
            log,
            steps,
        );
        if done == atoms.len() {
            return Ok(());
        }
        give_all_from_leaves(
            &mut self.reducts,
            atoms,
            tuples,
            rows,
            done,
            relation.at,
            steps,
        );
        log.clear();
        Err(NoMem)
    }

    /// Deletes a row that was deleted from a relation, given by its cells, leaf by leaf. If the delta
    /// is wanted, the answers that were removed are appended to the log. It needs no memory but the
    /// log's, and its update count is bounded as that of [`add`](LiveQuery::add).
    /// [`outdate`](LiveQuery::outdate) is to be called before a cursor is read.
    pub fn delete<L: Ledgers>(
        &mut self,
        relation: RelationId,
        cells: &[u64],
        wanted: bool,
        log: &mut DeltaLog,
        steps: &mut Steps<L>,
    )
        requires { CanDelete self.old relation.at cells.now }
        ensures deleted { LiveAfter (λ c d. Went c d relation.at cells.now) self.old self.new }
        ensures same { SameQuery self.old self.new }
        ensures fewer { HasMore self.new.reducts self.old.reducts }
        ensures log { LogsWhere wanted (λ c d. Went c d relation.at cells.now)
            self.old log.old log.new }
        ensures counted { CountsDelta wanted (λ c d. Went c d relation.at cells.now)
            self.old relation.at steps.old.listing steps.new.listing }
        ensures updates { CountsUpdate 1 self.old relation.at
            steps.old.update steps.new.update }
        ensures flat { CountsFlat 1 self.old relation.at steps.old.update steps.new.update }
        ensures rows { steps.new.rows ≡ steps.old.rows }
    {
        let atoms = self.numbered.atoms();
        let patterns = self.patterns.as_slice();
        let end = atoms.len();
        delete_from_leaves(
            &mut self.reducts,
            atoms,
            patterns,
            end,
            relation.at,
            cells,
            wanted,
            log,
            steps,
        );
    }

    /// Deletes rows that were deleted from a relation at once, each given by its cells; they are
    /// deleted from the leaves over the relation one leaf after another, all tuples of a leaf at once.
    /// If the delta is wanted, the answers that all of them together removed are appended to the log,
    /// each once. It needs no memory but the log's. [`outdate`](LiveQuery::outdate) is to be called
    /// before a cursor is read.
    ///
    /// For each atom over the relation the update count rises by at most 16(m + v)(n + 1), with m atoms
    /// and v variables in the query, holes counted in, and at most n tuples in each leaf before,
    /// however many rows are deleted. If the query is flat, by at most 16(m + v) for each row, whatever
    /// the number of tuples.
    pub fn delete_many<L: Ledgers>(
        &mut self,
        relation: RelationId,
        rows: &[Cells],
        wanted: bool,
        log: &mut DeltaLog,
        steps: &mut Steps<L>,
    )
        requires { CanDeleteAll self.old relation.at rows.now }
        ensures deleted { LiveAfter (λ c d. WentAll c d relation.at rows.now) self.old self.new }
        ensures same { SameQuery self.old self.new }
        ensures fewer { HasMore self.new.reducts self.old.reducts }
        ensures log { LogsWhere wanted (λ c d. WentAll c d relation.at rows.now)
            self.old log.old log.new }
        ensures counted { CountsDelta wanted (λ c d. WentAll c d relation.at rows.now)
            self.old relation.at steps.old.listing steps.new.listing }
        ensures updates { CountsUpdate 1 self.old relation.at
            steps.old.update steps.new.update }
        ensures flat { CountsFlatRows (length rows.now) self.old relation.at
            steps.old.update steps.new.update }
        ensures rows { steps.new.rows ≡ steps.old.rows }
    {
        let atoms = self.numbered.atoms();
        let patterns = self.patterns.as_slice();
        delete_all_from_leaves(
            &mut self.reducts,
            atoms,
            patterns,
            relation.at,
            rows,
            wanted,
            log,
            steps,
        );
    }

    /// Deletes a row again that [`add`](LiveQuery::add) inserted, without a delta. It needs no memory,
    /// and its update count is bounded as that of `add`.
    pub fn give_back<L: Ledgers>(
        &mut self,
        relation: RelationId,
        cells: &[u64],
        steps: &mut Steps<L>,
    )
        requires { CanDelete self.old relation.at cells.now }
        ensures deleted { LiveAfter (λ c d. Went c d relation.at cells.now) self.old self.new }
        ensures same { SameQuery self.old self.new }
        ensures fewer { HasMore self.new.reducts self.old.reducts }
        ensures counted { steps.new.listing ≡ steps.old.listing }
        ensures updates { CountsUpdate 1 self.old relation.at
            steps.old.update steps.new.update }
        ensures flat { CountsFlat 1 self.old relation.at steps.old.update steps.new.update }
        ensures rows { steps.new.rows ≡ steps.old.rows }
    {
        let mut untold = DeltaLog::new(*self.patterns.allocator());
        self.delete(relation, cells, false, &mut untold, steps);
    }

    /// Makes its open cursors stale, by a change of a relation of this number.
    pub fn outdate(&mut self, relation: Name, seq: u64)
        ensures outdated { self.new ≡ record self.old {
          cursors = outdated_slots relation seq self.old.cursors;
        } }
        ensures live { (c : CatalogModel) → IsKept c self.old → IsLive c self.new }
    {
        self.cursors.outdate(relation, seq);
    }
}
