//! What is asked of registered queries and unions without changing them.
ghost use Rattle.std.specs.Prelude.{◌≡◌, ◌+◌, ◌≤◌, ⊤, Some, length, map, IsSomeAnd, slice_get};
ghost use Rattle.djq_model.specs.Data.{Bytes};
ghost use Rattle.djq_model.specs.Listed.{a_query, a_union, listed_of, members_of};
ghost use Rattle.djq_store_spec.specs.Asking.{TellsShape, TellsWhether, has_steps};
ghost use Rattle.djq_store_spec.specs.Registering.{atoms_of};
ghost use Rattle.djq_store_spec.specs.Transaction.{TellsSuits};
ghost use Rattle.djq_live_query.specs.Member.{query_at};
ghost use Rattle.djq_united.specs.United.{AreMembers};
ghost use Rattle.djq_store.specs.Asking.{TellsMembership, asked_in};
ghost use Rattle.djq_store.specs.Explaining.{ExplainGives, HasMember};

use crate::explained::Explained;
use crate::finding::{find_union, joined_in};
use crate::store::Store;
use djq_counters::{Ledgers, Listing, Tally};
use djq_engine::{Engine, QueryId};
use djq_model::{Name, Value};
use djq_protocol::{Refusal, Shape};

/// Whether a tuple is an answer of the query in a place.
fn has_at<L: Ledgers>(
    engine: &Engine,
    at: usize,
    tuple: &[Value],
    listing: &mut Tally<Listing<L>>,
) -> Result<bool, Refusal>
    requires { IsSomeAnd (query_at engine.now.places at) (λ l. ⊤) }
    ensures tells { IsSomeAnd (query_at engine.now.places at)
        (λ l. TellsMembership engine.now.store.relations (a_query l.query) tuple.now result) }
    ensures counted { IsSomeAnd (query_at engine.now.places at)
        (λ l. listing.new ≤ listing.old + length l.query.atoms) }
{
    engine.laws();
    let name = engine.query_name(QueryId { at });
    engine.has(&name, tuple, listing)
}

/// Whether a tuple is an answer of one of these queries, whose answers have the same types.
fn some_has<L: Ledgers>(
    engine: &Engine,
    members: &[usize],
    tuple: &[Value],
    listing: &mut Tally<Listing<L>>,
) -> Result<bool, Refusal>
    requires { AreMembers engine.now.places members.now }
    ensures tells { (name : Bytes) → TellsMembership engine.now.store.relations
        (a_union name (asked_in engine.now.places members.now)) tuple.now result }
    ensures counted { listing.new ≤ listing.old + atoms_of (asked_in engine.now.places members.now) }
{
    engine.laws();
    for nth in 0..members.len() {
        match has_at(engine, members[nth], tuple, listing) {
            Ok(true) => return Ok(true),
            Ok(false) => {}
            Err(refusal) => return Err(refusal),
        }
    }
    Ok(false)
}

impl Store {
    /// Whether a tuple is an answer of a query or union. It needs no memory, and counts at most one lookup
    /// for each atom.
    ///
    /// # Errors
    ///
    /// `NoQuery` if none has the name; `Arity` and `WrongType` if the tuple doesn't suit the
    /// answers.
    pub fn has<L: Ledgers>(
        &self,
        name: &Name,
        tuple: &[Value],
        listing: &mut Tally<Listing<L>>,
    ) -> Result<bool, Refusal>
        ensures tells { TellsWhether self.now.store name.now tuple.now result }
        ensures counted { listing.new ≤ listing.old
            + has_steps (listed_of self.now.store.queries name.now) }
    {
        self.parts.engine.laws();
        let Some(slot) = find_union(self.parts.unions.as_slice(), name) else {
            return self.parts.engine.has(name, tuple, listing);
        };
        let joined = joined_in(self.parts.unions.as_slice(), slot);
        some_has(&self.parts.engine, joined.union.members(), tuple, listing)
    }

    /// What explains a query or union: the tree of the one, the members of the other.
    ///
    /// # Errors
    ///
    /// `NoQuery` if none has the name; `NoMemory` out of memory.
    pub fn explain(&self, name: &Name) -> Result<Explained, Refusal>
        ensures { ExplainGives self.now.store name.now result }
    {
        self.parts.engine.laws();
        if let Some(slot) = find_union(self.parts.unions.as_slice(), name) {
            let joined = joined_in(self.parts.unions.as_slice(), slot);
            return Ok(Explained::Members(joined.union.members().len()));
        }
        match self.parts.engine.explain(name) {
            Ok(lines) => Ok(Explained::Tree(lines)),
            Err(refusal) => Err(refusal),
        }
    }

    /// The name of a member of a union, by its place in the union's order.
    pub fn member_name(&self, union: &Name, nth: usize) -> Name
        requires { HasMember self.now.store union.now nth }
        ensures { IsSomeAnd (listed_of self.now.store.queries union.now)
            (λ q. slice_get (map (λ m. m.name) (members_of q)) nth ≡ Some result) }
    {
        self.parts.engine.laws();
        let Some(slot) = find_union(self.parts.unions.as_slice(), union) else {
            unreachable!()
        };
        let joined = joined_in(self.parts.unions.as_slice(), slot);
        self.parts.engine.query_name(QueryId {
            at: joined.union.members()[nth],
        })
    }

    /// What bounds an update of a query: `Flat` if and only if the query is flat, and then it is the
    /// same whatever the rows. A union's updates are its members', and its shape is `union`.
    ///
    /// # Errors
    ///
    /// `NoQuery` if none has the name. It needs no memory.
    pub fn shape(&self, name: &Name) -> Result<Shape, Refusal>
        ensures { TellsShape self.now.store name.now result }
    {
        self.parts.engine.laws();
        if let Some(_slot) = find_union(self.parts.unions.as_slice(), name) {
            return Ok(Shape::Union);
        }
        self.parts.engine.shape(name)
    }

    /// Whether a row suits a relation, and so may be held in a batch. It needs no memory.
    ///
    /// # Errors
    ///
    /// `NoRelation` if none has the name; `Arity` and `WrongType` if the row doesn't suit its
    /// columns.
    pub fn held_ok(&self, name: &Name, row: &[Value]) -> Result<(), Refusal>
        ensures { TellsSuits self.now.store name.now row.now result }
    {
        self.parts.engine.held_ok(name, row)
    }
}
