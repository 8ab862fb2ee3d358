ghost use Rattle.djq_database.specs.Laws.{CellsDiffer, CellsStay, TextsStay, NamesTell};

/// Different rows of the same columns have different cells.
pub fn cells_differ()
    ensures { CellsDiffer }
{}

/// The cells of a row stay the same as texts become known.
pub fn cells_stay()
    ensures { CellsStay }
{}

/// Known texts stay, with their numbers.
pub fn texts_stay()
    ensures { TextsStay }
{}

/// A relation's rows may be changed by its name or by its place.
pub fn rows_by_name_or_place()
    ensures { NamesTell }
{}
