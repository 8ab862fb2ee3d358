use djq_hypergraph::VarSet;
use djq_reduct::Reducts;
use djq_tree::{Node, Tree};
use std::test::Fail;

/// Larger trees are tested with inserts.
#[test]
fn starts_without_tuples(rt: HostRuntime) -> Result<(), Fail> {
    let alloc = rt.alloc();
    let mut nodes = Vec::new(alloc);
    nodes.push(Node::Leaf { atom: 0 })?;
    let mut labels = Vec::new(alloc);
    labels.push(VarSet::new())?;
    let mut out = Vec::new(alloc);
    out.push(true)?;
    let tree = Tree::new(nodes, labels, out, VarSet::new(), 1, 1);
    let reducts = Reducts::new(alloc, tree)?;
    reducts.laws();
    assert!(rt; reducts.tree().len() == 1);
    assert!(rt; reducts.table(0).is_empty());
    assert!(rt; reducts.table(0).width() == 0);
    assert!(rt; reducts.table(0).key().is_empty());
    Ok(())
}
