//! The union of some registered queries, and what its cursors give.
ghost use Rattle.std.specs.Prelude.{
  ◌≡◌,
  ◌+◌,
  ◌≤◌,
  [],
  None,
  IsSome,
  IfOk,
  OnErr,
  List,
  Option,
  slice_set,
};
ghost use Rattle.djq_store_spec.specs.Registering.{answer_steps};
ghost use Rattle.djq_database.specs.Catalog.{Catalog as CatalogModel};
ghost use Rattle.djq_live_query.specs.Live.{Live};
ghost use Rattle.djq_united.specs.Slots.{slot_at, are_vacant, IsOpenIn, outdated_slots};
ghost use Rattle.djq_united.specs.United.{union_of, AreMembers, IsUnited, AreKept};
ghost use Rattle.djq_united.specs.Reading.{UnionOpensIn, UnionNextGives, UnionMoreGives, union_read_steps};
ghost use Rattle.djq_live_query.specs.Staying.{HasSameShape};
ghost use Rattle.djq_united.specs.Staying.{KeepMembers};

use crate::reads::{has_more, read};
use djq_counters::{Ledgers, Listing, Tally};
use djq_cursors::Cursors;
use djq_live_query::{LiveQuery, Next};
use djq_model::{Name, NoMem, Sequence};
use djq_reduct::Answer;
use djq_union::UnionCursor;
use std::alloc::Global;
use std::marker::Model;

/// The union of some registered queries. Each call that needs these is lent all queries in their
/// places, among them the members.
#[derive(Drop)]
pub struct LiveUnion {
    name: Name,
    // the members' places, in the union's order
    members: Sequence<usize>,
    cursors: Cursors<UnionCursor<LiveQuery>>,
}

impl Model for LiveUnion {
    ghost use Rattle.djq_united.specs.United.{United};

    ghost Value = { United };

    ghost view = { λ u. record { name = u.name; members = u.members; cursors = u.cursors } };
}

impl LiveUnion {
    /// The union of the queries in these places, in this order.
    pub fn new(alloc: Global, name: Name, members: Sequence<usize>) -> LiveUnion
        ensures is { result ≡ record { name = name; members = members; cursors = [] } }
        ensures united { (qs : List (Option Live)) → AreMembers qs members → IsUnited qs result }
    {
        LiveUnion {
            name,
            members,
            cursors: Cursors::new(alloc),
        }
    }

    /// Its name.
    pub fn name(&self) -> Name
        ensures { result ≡ self.now.name }
    {
        self.name
    }

    /// The places of its members, in its order.
    pub fn members(&self) -> &[usize]
        ensures { result.now ≡ self.now.members }
    {
        self.members.as_slice()
    }

    /// Whether no cursor is over it, stale or not.
    pub fn is_idle(&self) -> bool
        ensures { result ≡ are_vacant self.now.cursors }
    {
        self.cursors.is_empty()
    }

    /// Puts a cursor that has given nothing into a free slot, and returns its number.
    ///
    /// # Errors
    ///
    /// `NoMem` out of memory. Nothing has changed.
    pub fn open(&mut self) -> Result<usize, NoMem>
        ensures ok { IfOk result (λ k. UnionOpensIn self.old k self.new) }
        ensures united { (qs : List (Option Live)) → IsUnited qs self.old → IsUnited qs self.new }
        ensures err { OnErr result (self.new ≡ self.old) }
    {
        self.cursors.open(UnionCursor::start())
    }

    /// Removes the cursor from a slot.
    pub fn close(&mut self, slot: usize)
        requires { IsSome (slot_at self.old.cursors slot) }
        ensures closed { self.new
            ≡ record self.old { cursors = slice_set self.old.cursors slot None } }
        ensures united { (qs : List (Option Live)) → IsUnited qs self.old → IsUnited qs self.new }
    {
        self.cursors.close(slot);
    }

    /// Reads the cursor in a slot: gives a further answer, as a tuple of the first member's tree, or
    /// returns that none is left, or what made it stale. It needs no memory, and counts at most what
    /// an answer of the union costs.
    pub fn next<L: Ledgers>(
        &mut self,
        slot: usize,
        queries: &[Option<LiveQuery>],
        answer: &mut Answer,
        listing: &mut Tally<Listing<L>>,
    ) -> Next
        requires there { IsSome (slot_at self.old.cursors slot) }
        requires united { IsUnited queries.now self.old }
        requires kept { (c : CatalogModel) × AreKept c queries.now }
        ensures gives { (c : CatalogModel) → AreKept c queries.now
            → UnionNextGives c queries.now self.old slot result answer.new self.new }
        ensures counted { listing.new ≤ listing.old
            + union_read_steps result (union_of queries.now self.old) }
    {
        let members = self.members.as_slice();
        let progress = self.cursors.progress_mut(slot);
        read(progress, queries, members, answer, listing)
    }

    /// Whether a further answer is left for a cursor that isn't stale; if none is, it is at its end.
    /// It needs no memory, and counts no more than [`next`](LiveUnion::next).
    pub fn more<L: Ledgers>(
        &mut self,
        slot: usize,
        queries: &[Option<LiveQuery>],
        listing: &mut Tally<Listing<L>>,
    ) -> bool
        requires fresh { IsOpenIn self.old.cursors slot }
        requires united { IsUnited queries.now self.old }
        requires kept { (c : CatalogModel) × AreKept c queries.now }
        ensures gives { (c : CatalogModel) → AreKept c queries.now
            → UnionMoreGives c queries.now self.old slot result self.new }
        ensures counted { listing.new ≤ listing.old + answer_steps (union_of queries.now self.old) }
    {
        let members = self.members.as_slice();
        let progress = self.cursors.progress_mut(slot);
        has_more(progress, queries, members, listing)
    }

    /// Makes its open cursors stale, by a change of a relation of this number. Then it fits whatever
    /// tables its members have.
    pub fn outdate(&mut self, relation: Name, seq: u64)
        ensures outdated { self.new ≡ record self.old {
          cursors = outdated_slots relation seq self.old.cursors;
        } }
        ensures united { (old new : List (Option Live)) → IsUnited old self.old
            → KeepMembers HasSameShape old new self.old.members → IsUnited new self.new }
    {
        self.cursors.outdate(relation, seq);
    }
}
