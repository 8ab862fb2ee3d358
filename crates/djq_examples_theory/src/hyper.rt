use crate::shapes::edges_of;
use djq_hypergraph::{JoinTree, Link, Names, VARIABLES, VarSet, check_join_tree, is_flat};
use std::alloc::{AllocError, Global};
use std::test::Fail;

#[test]
fn walks_in_rising_order(rt: HostRuntime) {
    let set = VarSet::new()
        .insert(127)
        .insert(5)
        .insert(64)
        .insert(9)
        .insert(5);
    assert!(rt; set.len() == 4);
    assert!(rt; set.first() == Some(5));
    assert!(rt; set.without(VARIABLES) == set);
    let mut rest = set.without(9);
    assert!(rt; rest.pop() == Some(5));
    assert!(rt; rest.pop() == Some(64));
    assert!(rt; rest.pop() == Some(127));
    assert!(rt; rest.pop() == None);
    assert!(rt; rest.is_empty());
    set.rises();
}

#[test]
fn compares_and_combines(rt: HostRuntime) {
    let left = VarSet::new().insert(0).insert(1);
    let right = VarSet::new().insert(1).insert(2);
    assert!(rt; left.contains(0) && !left.contains(2) && !left.contains(VARIABLES));
    assert!(rt; left.intersection(right) == VarSet::new().insert(1));
    assert!(rt; left.difference(right) == VarSet::new().insert(0));
    assert!(rt; left.union(right).len() == 3);
    assert!(rt; left.intersection(right).is_subset(left) && !left.is_subset(right));
}

#[test]
fn keeps_names(rt: HostRuntime) -> Result<(), Fail> {
    let mut names = Names::new(rt.alloc());
    assert!(rt; names.is_empty());
    names.push(rt.alloc(), b"r")?;
    names.push(rt.alloc(), b"item")?;
    assert!(rt; names.len() == 2);
    assert!(rt; names.get(1) == b"item".as_slice());
    Ok(())
}

#[test]
fn tells_flat_queries(rt: HostRuntime) {
    let (x, y, z) = (
        VarSet::new().insert(3),
        VarSet::new().insert(9),
        VarSet::new().insert(63),
    );
    let edges = [x.union(y), y];
    assert!(rt; is_flat(&edges, &x.union(y)) && is_flat(&edges, &y));
    assert!(rt; !is_flat(&edges, &x) && !is_flat(&edges, &z));
    let chain = [x, x.union(y), y];
    assert!(rt; !is_flat(&chain, &x.union(y)) && !is_flat(&chain, &VarSet::new()));
    let star = [x, x.union(y), x.union(z)];
    assert!(rt; is_flat(&star, &x.union(z)) && !is_flat(&star, &y));
    assert!(rt; is_flat(&[], &x) && is_flat(&[x, y.union(z), x], &y));
}

fn tree_of(alloc: Global, rows: &[(usize, usize)]) -> Result<JoinTree, AllocError> {
    let mut tree = JoinTree::new(alloc);
    for (edge, parent) in rows {
        tree.push(Link {
            edge: *edge,
            parent: *parent,
        })?;
    }
    Ok(tree)
}

#[test]
fn accepts_join_trees(rt: HostRuntime) -> Result<(), Fail> {
    let cases: [(&[&[usize]], &[(usize, usize)]); 8] = [
        (&[], &[]),
        (&[&[0, 1]], &[(0, 7)]),
        (&[&[0, 1], &[1, 2], &[2, 3]], &[(1, 9), (2, 1), (0, 1)]),
        (&[&[0, 1], &[0, 2], &[0, 3]], &[(0, 0), (1, 0), (2, 1)]),
        (
            &[&[0, 1], &[1, 2], &[2, 3], &[3, 0], &[0, 1, 2, 3]],
            &[(4, 0), (0, 4), (1, 4), (2, 4), (3, 4)],
        ),
        (&[&[0], &[0]], &[(1, 0), (0, 1)]),
        (&[&[], &[0], &[]], &[(0, 0), (1, 0), (2, 1)]),
        (&[&[0], &[1]], &[(0, 0), (1, 0)]),
    ];
    for (rows, links) in cases {
        let edges = edges_of(rt.alloc(), rows)?;
        let tree = tree_of(rt.alloc(), links)?;
        assert!(rt; check_join_tree(&edges, &tree));
    }
    Ok(())
}

#[test]
fn refuses_others(rt: HostRuntime) -> Result<(), Fail> {
    let cases: [(&[&[usize]], &[(usize, usize)]); 9] = [
        (&[&[0]], &[]),
        (&[], &[(0, 0)]),
        (&[&[0, 1], &[1, 2], &[2, 0]], &[(0, 0), (1, 0), (2, 0)]),
        (
            &[&[0, 1], &[1, 2], &[2, 3], &[3, 0]],
            &[(0, 0), (1, 0), (2, 1), (3, 2)],
        ),
        (&[&[0, 1], &[1, 2], &[2, 3]], &[(0, 0), (2, 0), (1, 0)]),
        (&[&[0, 1], &[1, 2], &[2, 3]], &[(0, 0), (2, 1), (1, 0)]),
        (&[&[0], &[0]], &[(0, 0), (0, 0)]),
        (&[&[0], &[0]], &[(1, 0), (1, 1)]),
        (&[&[0], &[0]], &[(0, 0), (2, 0)]),
    ];
    for (rows, links) in cases {
        let edges = edges_of(rt.alloc(), rows)?;
        let tree = tree_of(rt.alloc(), links)?;
        assert!(rt; !check_join_tree(&edges, &tree));
    }
    Ok(())
}

#[test]
fn keeps_edges(rt: HostRuntime) -> Result<(), Fail> {
    let edges = edges_of(rt.alloc(), &[&[0, 1], &[]])?;
    assert!(rt; edges.len() == 2 && !edges.is_empty());
    assert!(rt; edges.get(0).len() == 2);
    let copy = edges.copy(rt.alloc())?;
    assert!(rt; copy.as_slice() == edges.as_slice());
    Ok(())
}

#[test]
fn keeps_links(rt: HostRuntime) -> Result<(), Fail> {
    let tree = tree_of(rt.alloc(), &[(0, 0), (1, 0)])?;
    assert!(rt; tree.len() == 2 && !tree.is_empty());
    assert!(rt;
        tree.as_slice() == [Link { edge: 0, parent: 0 }, Link { edge: 1, parent: 0 }].as_slice()
    );
    Ok(())
}
