ghost use Rattle.std.specs.Prelude.{◌≡◌, ◌+◌};

use djq_counters::{Blanks, Ledgers, Steps, Tally};
use std::marker::Brand;
use std::mem::size_of;
use std::sync::ledger::Ledger;

fn look_up_and_follow<L: Ledger>(tally: &mut Tally<L>)
    ensures { tally.new ≡ tally.old + 2 }
{
    tally.lookup();
    tally.link();
}

/// Ticks the listing thrice and the update once, and returns both counts together.
fn counted<L: Ledgers>(rt: &HostRuntime, blanks: Blanks) -> usize
    requires listing { blanks.listing.name ≡ L.listing }
    requires update { blanks.update.name ≡ L.update }
    requires rows { blanks.rows.name ≡ L.rows }
{
    let mut steps = Steps::<L>::new(rt, blanks);
    tick(&mut steps);
    size_of::<Steps<L>>()
}

fn tick<L: Ledgers>(steps: &mut Steps<L>)
    ensures listing { steps.new.listing ≡ steps.old.listing + 3 }
    ensures update { steps.new.update ≡ steps.old.update + 1 }
    ensures rows { steps.new.rows ≡ steps.old.rows }
{
    look_up_and_follow(&mut steps.listing);
    steps.listing.link();
    steps.update.edit();
}

#[test]
fn steps_take_no_bytes(rt: HostRuntime) {
    assert!(rt; counted::<Brand>(&rt, Blanks::new(&rt)) == 0);
}
