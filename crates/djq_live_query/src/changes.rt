ghost use Rattle.djq_leaves.specs.Changes.{OverGains, OverLoses};

/// If rows were inserted into a relation, the reducts are those of the query once each leaf over
/// the relation has gained the tuples that put into its atom give one of them.
pub fn leaves_after_insert()
    ensures { OverGains }
{}

/// If a row was deleted, they are once each such leaf has lost that tuple.
pub fn over_loses()
    ensures { OverLoses }
{}
