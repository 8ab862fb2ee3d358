/// A step of the reduction of Graham (1979) and of Yu and Ozsoyoglu (1979) on a list of edges.
/// Positions are those of the list that the step is applied to.
#[derive(Clone, Copy, Debug, PartialEq, Eq)]
pub enum Step {
    /// Removes from an edge a variable that is in no other edge.
    Vertex {
        /// The edge's position.
        edge: usize,
        /// The variable.
        variable: usize,
    },
    /// Removes from the list an edge that is a subset of another one. The edges after it move up.
    Edge {
        /// The edge's position.
        edge: usize,
        /// The position of the edge that it is a subset of.
        within: usize,
    },
}
