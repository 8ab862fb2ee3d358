ghost use Rattle.std.specs.Prelude.{
  ◌≡◌,
  ◌<◌,
  ◌≤◌,
  ◌==◌,
  length,
  take,
  vec_len,
  AllPairs,
  IfOk,
  ⊤,
};
ghost use Rattle.std.specs.List.{list_any};

use djq_counters::{Blanks, Ledgers, Steps, Tally};
use djq_union::{Listing, Members, UnionCursor};
use std::alloc::{AllocError, Global};
use std::marker::Brand;
use std::sync::ledger::Ledger;
use std::test::Fail;

/// The numbers of a member are below this.
const NUMBERS: u64 = 8;

/// Rising numbers. A listing of them is known by how many it has given.
#[derive(Drop)]
struct Rising {
    items: Vec<u64>,
    ghost rising: { AllPairs (λ x y. x < y) items.items },
}

impl Rising {
    /// The numbers whose bits are set.
    fn of(alloc: Global, mask: u64) -> Result<Rising, AllocError> {
        let mut items = Vec::new(alloc);
        for n in 0..NUMBERS {
            if (mask >> n) & 1 == 1 {
                items.push(n)?;
            }
        }
        Ok(Rising { items })
    }
}

impl Listing for Rising {
    type State = usize;

    type Answer = u64;

    ghost has = { λ m t. list_any (λ n. n == t) m.items.items };

    ghost given = { λ m s. take s m.items.items };

    ghost ready = { λ m. ⊤ };

    ghost fits = { λ m s. s ≤ length m.items.items };

    ghost most = { λ m. 1 };

    ghost asks = { λ m. 1 };

    fn start(&self) -> usize {
        0
    }

    fn advance<L: Ledger>(&self, state: &mut usize, out: &mut u64, listing: &mut Tally<L>) -> bool {
        listing.link();
        if *state >= self.items.len() {
            return false;
        }
        *out = self.items[*state];
        *state += 1;
        true
    }

    fn is_left<L: Ledger>(&self, state: &usize, listing: &mut Tally<L>) -> bool {
        listing.link();
        *state < self.items.len()
    }

    fn has<L: Ledger>(&self, answer: &u64, listing: &mut Tally<L>) -> bool {
        listing.lookup();
        self.items.contains(answer)
    }
}

/// Up to eight members.
#[derive(Drop)]
struct Few {
    all: Vec<Rising>,
    ghost few: { vec_len all ≤ 8 },
}

impl Few {
    /// A member for each of these masks.
    fn of(alloc: Global, masks: &[u64]) -> Result<Few, AllocError>
        requires { length masks.now ≤ 8 }
    {
        let mut all = Vec::new(alloc);
        for mask in masks {
            all.push(Rising::of(alloc, *mask)?)?;
        }
        Ok(Few { all })
    }
}

impl Members for Few {
    type Member = Rising;

    ghost members = { λ g. g.all.items };

    ghost sound = { λ g. ⊤ };

    fn count(&self) -> usize {
        self.all.len()
    }

    fn member(&self, i: usize) -> &Rising {
        &self.all[i]
    }
}

/// What a cursor gives, in its order.
fn listed<L: Ledger>(
    alloc: Global,
    members: &Few,
    listing: &mut Tally<L>,
) -> Result<Vec<u64>, AllocError> {
    let mut given = Vec::new(alloc);
    let mut cursor = UnionCursor::start();
    let mut out = 0;
    for _call in 0..NUMBERS + 1 {
        if !cursor.is_left(members, listing) {
            break;
        }
        if cursor.advance(members, &mut out, listing) {
            given.push(out)?;
        }
    }
    Ok(given)
}

/// Whether a cursor gives each number of some mask once, and no other.
fn agree<L: Ledger>(
    alloc: Global,
    masks: &[u64],
    listing: &mut Tally<L>,
) -> Result<bool, AllocError>
    requires { length masks.now ≤ 8 }
{
    let members = Few::of(alloc, masks)?;
    let given = listed(alloc, &members, listing)?;
    let mut count = 0;
    for n in 0..NUMBERS {
        let wanted = masks.iter().any(|mask| (*mask >> n) & 1 == 1);
        if given.contains(&n) != wanted {
            return Ok(false);
        }
        if wanted {
            count += 1;
        }
    }
    Ok(given.len() == count)
}

/// What a cursor gives of the union of members with these masks.
fn told<L: Ledgers>(rt: &HostRuntime, blanks: Blanks, masks: &[u64]) -> Result<Vec<u64>, AllocError>
    requires listing { blanks.listing.name ≡ L.listing }
    requires update { blanks.update.name ≡ L.update }
    requires rows { blanks.rows.name ≡ L.rows }
    requires few { length masks.now ≤ 8 }
{
    let mut steps = Steps::<L>::new(rt, blanks);
    let members = Few::of(rt.alloc(), masks)?;
    listed(rt.alloc(), &members, &mut steps.listing)
}

/// Whether the unions of so many members agree with brute force, for masks in which few bits are set.
fn each_agrees<L: Ledgers>(
    rt: &HostRuntime,
    blanks: Blanks,
    members: usize,
) -> Result<bool, AllocError>
    requires listing { blanks.listing.name ≡ L.listing }
    requires update { blanks.update.name ≡ L.update }
    requires rows { blanks.rows.name ≡ L.rows }
    requires few { members ≤ 8 }
{
    let mut steps = Steps::<L>::new(rt, blanks);
    for seed in 0..500u64 {
        let mixed = seed.wrapping_mul(0x9E37_79B9_7F4A_7C15);
        let bytes = (mixed & mixed.rotate_left(29)).to_le_bytes();
        let masks = [
            u64::from(bytes[0]),
            u64::from(bytes[1]),
            u64::from(bytes[2]),
            u64::from(bytes[3]),
            u64::from(bytes[4]),
            u64::from(bytes[5]),
            u64::from(bytes[6]),
            u64::from(bytes[7]),
        ];
        if !agree(rt.alloc(), &masks[..members], &mut steps.listing)? {
            return Ok(false);
        }
    }
    Ok(true)
}

/// The later member has 2 and 3: instead of them the next of its own are given, 0 and 2.
#[test]
fn gives_the_next_of_the_later_members(rt: HostRuntime) -> Result<(), Fail> {
    let given = told::<Brand>(&rt, Blanks::new(&rt), &[0b1110, 0b1101])?;
    assert!(rt; given.as_slice() == [1, 0, 2, 3].as_slice());
    Ok(())
}

#[test]
fn gives_each_once_of_two_members(rt: HostRuntime) -> Result<(), Fail> {
    assert!(rt; each_agrees::<Brand>(&rt, Blanks::new(&rt), 2)?);
    Ok(())
}

#[test]
fn gives_each_once_of_three_members(rt: HostRuntime) -> Result<(), Fail> {
    assert!(rt; each_agrees::<Brand>(&rt, Blanks::new(&rt), 3)?);
    Ok(())
}

#[test]
fn gives_each_once_of_eight_members(rt: HostRuntime) -> Result<(), Fail> {
    assert!(rt; each_agrees::<Brand>(&rt, Blanks::new(&rt), 8)?);
    Ok(())
}
