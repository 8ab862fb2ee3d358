use djq_model::Name;

/// A cursor of a session: its name, and what is stored for it.
#[derive(Clone, Copy, Debug)]
pub struct NamedCursor<C> {
    /// Its name.
    pub name: Name,
    /// What is stored for it.
    pub cursor: C,
}
