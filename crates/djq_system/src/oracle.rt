//! What the system does beside what it answers, as contracts range over it.
ghost use Rattle.std.specs.Prelude.{ℕ, List};
ghost use Rattle.djq_system.specs.Oracle.{FileOracle};

use std::marker::Brand;

/// What the system does that no answer of a call shows. What is proved over any of these holds of the one that comes
/// true.
pub trait Oracle {
    // What a file does beside its answers.
    ghost file: { FileOracle };

    // The bytes that a reader gives until its end.
    ghost input: { List ℕ };
}

impl Oracle for Brand {
    ghost use Rattle.std.specs.Prelude.{[], false};

    ghost file = { record { first = []; left = λ _. []; replaces = λ _. false } };

    ghost input = { [] };
}
