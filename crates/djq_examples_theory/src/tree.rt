use djq_hypergraph::{Names, VarSet};
use djq_tree::{Node, Tree};
use std::test::Fail;

/// Larger trees are tested with their making, in `djq_plan`.
#[test]
fn reads_a_leaf(rt: HostRuntime) -> Result<(), Fail> {
    let alloc = rt.alloc();
    let mut nodes = Vec::new(alloc);
    nodes.push(Node::Leaf { atom: 0 })?;
    let mut labels = Vec::new(alloc);
    labels.push(VarSet::new())?;
    let mut out = Vec::new(alloc);
    out.push(true)?;
    let tree = Tree::new(nodes, labels, out, VarSet::new(), 1, 1);
    let mut atoms = Names::new(alloc);
    atoms.push(alloc, b"p")?;
    assert!(rt; tree.len() == 1);
    assert!(rt; tree.leaves() == 1);
    assert!(rt; tree.second_stage() == 1);
    assert!(rt; tree.node(0) == Node::Leaf { atom: 0 });
    assert!(rt; tree.label(0).is_empty());
    assert!(rt; tree.is_out(0));
    assert!(rt; tree.head().is_empty());
    assert!(rt; tree.key(0).is_empty());
    assert!(rt; tree.parent(0) == None);
    assert!(rt; tree.frontier(0) == 0);
    assert!(rt; tree.path(0).next() == Some(0));
    let lines = tree.explain_text(alloc, &atoms, &Names::new(alloc))?;
    assert!(rt; lines.as_bytes() == b"n 0 leaf p - out\n".as_slice());
    Ok(())
}
