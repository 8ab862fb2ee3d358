/// Names a relation of a catalog: its place among the relations, in the order of their making.
#[derive(Clone, Copy, Debug, PartialEq, Eq)]
pub struct RelationId {
    /// The place.
    pub at: usize,
}
