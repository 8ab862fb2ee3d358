ghost use Rattle.djq_query.specs.Comparing.{IntegersAreCompared};
ghost use Rattle.djq_query.specs.Meaning.{NumbersAreShown};

/// The law of [`number`](crate::number), stated of the definitions alone: a query by number has the
/// query's variables in the order in which they first occur, and the query's terms, each name with
/// one number and each hole with one that has no name; its comparisons are of the numbers of their
/// variables, and the head's numbers have the head's names. It does nothing.
pub fn numbers_are_shown()
    ensures { NumbersAreShown }
{}

/// The law of a pattern's tests, stated of the definitions alone: over the bits of two integers an
/// operator gives what it gives over the integers. It does nothing.
pub fn integers_are_compared()
    ensures { IntegersAreCompared }
{}
