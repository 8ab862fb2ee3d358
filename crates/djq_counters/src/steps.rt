ghost use Rattle.std.specs.Prelude.{◌≡◌, ℕ};

use crate::tally::Tally;
use std::marker::{Brand, PhantomData};
use std::sync::ledger::{Blank, Ledger};

/// The names of three ledgers. Who makes steps picks them.
pub trait Ledgers {
    ghost listing: { ℕ };

    ghost update: { ℕ };

    ghost rows: { ℕ };
}

impl Ledgers for Brand {
    ghost listing = { 0 };

    ghost update = { 0 };

    ghost rows = { 0 };
}

/// The ledger of what listings cost.
pub struct Listing<L>(PhantomData<L>);

/// The ledger of what updates cost.
pub struct Update<L>(PhantomData<L>);

/// The ledger of what rows cost.
pub struct Rows<L>(PhantomData<L>);

impl<L: Ledgers> Ledger for Listing<L> {
    ghost name = { L.listing };

    ghost parts = { 1 };
}

impl<L: Ledgers> Ledger for Update<L> {
    ghost name = { L.update };

    ghost parts = { 1 };
}

impl<L: Ledgers> Ledger for Rows<L> {
    ghost name = { L.rows };

    ghost parts = { 1 };
}

/// The three counters of a program: the steps of listings, those of updates, and those of reads and
/// writes of rows, which no bound is about.
#[derive(Drop)]
pub struct Steps<L: Ledgers> {
    pub listing: Tally<Listing<L>>,
    pub update: Tally<Update<L>>,
    pub rows: Tally<Rows<L>>,
}

/// Three ledgers that no type represents yet, each of one part.
#[derive(Drop)]
pub struct Blanks {
    pub listing: Blank,
    pub update: Blank,
    pub rows: Blank,
    ghost one_part: { (listing.parts ≡ 1) × (update.parts ≡ 1) × (rows.parts ≡ 1) },
}

impl Blanks {
    /// Three new ledgers. It requires the runtime, as [`Steps::new`] does.
    pub fn new(_rt: &HostRuntime) -> Self {
        Blanks {
            listing: Blank::new(1),
            update: Blank::new(1),
            rows: Blank::new(1),
        }
    }
}

impl<L: Ledgers> Steps<L> {
    /// Three counters at zero, on these ledgers. This is the only maker of a tally.
    pub fn new(rt: &HostRuntime, blanks: Blanks) -> Self
        requires listing { blanks.listing.name ≡ L.listing }
        requires update { blanks.update.name ≡ L.update }
        requires rows { blanks.rows.name ≡ L.rows }
        ensures listing { result.listing ≡ 0 }
        ensures update { result.update ≡ 0 }
        ensures rows { result.rows ≡ 0 }
    {
        let Blanks {
            listing,
            update,
            rows,
        } = blanks;
        Steps {
            listing: Tally::new(rt, listing),
            update: Tally::new(rt, update),
            rows: Tally::new(rt, rows),
        }
    }
}
