use djq_tree::Lines;

/// What explains a query or a union.
#[derive(Drop)]
pub enum Explained {
    /// The lines that explain a query's tree, each with its line end.
    Tree(Lines),
    /// How many members a union has.
    Members(usize),
}
