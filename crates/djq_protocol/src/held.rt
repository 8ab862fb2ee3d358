/// What a line of a transaction does with a copy of a row.
#[derive(Clone, Copy, Debug, PartialEq, Eq)]
pub enum Verb {
    /// It adds one.
    Add,
    /// It deletes one.
    Delete,
}

/// Why a held line is refused at `done`.
#[derive(Clone, Copy, Debug, PartialEq, Eq)]
pub enum LineRefusal {
    /// A limit is reached: of copies of a row, of rows of a relation, or of texts.
    Limit,
    /// A row that is to be deleted has no copy.
    Absent,
    /// Out of memory.
    NoMemory,
}

/// A held line that is refused at `done`.
#[derive(Clone, Copy, Debug, PartialEq, Eq)]
pub struct RefusedLine {
    /// Its place among the held lines, from 0.
    pub at: usize,
    /// Why.
    pub refusal: LineRefusal,
}

/// Why `done` is refused.
#[derive(Clone, Copy, Debug, PartialEq, Eq)]
pub enum DoneRefusal {
    /// The number that it names isn't that of the held lines.
    OtherNumber,
    /// This is the first line that is refused.
    Line(RefusedLine),
    /// Rows are inserted or deleted, and the number of changes is the last.
    LastChange,
    /// Out of memory, once all lines had passed.
    NoMemory,
}
