ghost use Rattle.std.specs.Prelude.{◌≡◌};
ghost use Rattle.djq_engine.specs.Sizes.{rows_together};

use djq_database::{Catalog, RelationId};

/// How many different rows all relations have together.
pub fn row_total(catalog: &Catalog) -> u128
    ensures { result ≡ rows_together catalog.now.relations }
{
    let mut total: u128 = 0;
    for at in 0..catalog.len() {
        total += catalog.row_count(RelationId { at }) as u128;
    }
    total
}
