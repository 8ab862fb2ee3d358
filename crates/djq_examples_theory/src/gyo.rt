use crate::shapes::edges_of;
use djq_hypergraph::{Edges, VarSet};
use djq_plan::{Step, reduce, rest_is_lean, turn_join_tree};
use std::alloc::{AllocError, Global};
use std::test::Fail;

#[test]
fn leaves_nothing_of_acyclic_edges(rt: HostRuntime) -> Result<(), Fail> {
    let cases: [&[&[usize]]; 10] = [
        // none, one, equal, empty and disconnected edges
        &[],
        &[&[0, 1]],
        &[&[0], &[0]],
        &[&[], &[], &[3]],
        &[&[0, 1], &[2, 3]],
        // a path, a star
        &[&[0, 1], &[1, 2], &[2, 3]],
        &[&[0, 1], &[0, 2], &[0, 3]],
        // the triangle and a cycle of four with an edge that covers them
        &[&[0, 1], &[1, 2], &[0, 2], &[0, 1, 2]],
        &[&[0, 1], &[1, 2], &[2, 3], &[0, 3], &[0, 1, 2, 3]],
        // b(x) <- p(x), p(x) with its head
        &[&[0], &[0], &[0]],
    ];
    for rows in cases {
        let edges = edges_of(rt.alloc(), rows)?;
        assert!(rt; reduce(rt.alloc(), &edges)?.rest.is_empty());
    }
    Ok(())
}

/// The edges at these positions.
fn picked(alloc: Global, edges: &Edges, positions: &[usize]) -> Result<Edges, AllocError> {
    let mut picked = Edges::new(alloc);
    for position in positions {
        if *position < edges.len() {
            picked.push(edges.get(*position))?;
        }
    }
    Ok(picked)
}

#[test]
fn leaves_the_rest_of_others(rt: HostRuntime) -> Result<(), Fail> {
    // The edges, and the positions of those that are left.
    let cases: [(&[&[usize]], &[usize]); 5] = [
        // the triangle, also q(x,z) <- r(x,y), s(y,z) with its head
        (&[&[0, 1], &[1, 2], &[0, 2]], &[0, 1, 2]),
        // a cycle of four, also a(x,w) <- r(x,y), s(y,z), t(z,w) with its head
        (&[&[0, 3], &[0, 1], &[1, 2], &[2, 3]], &[0, 1, 2, 3]),
        // a triangle with an ear and a twin edge
        (&[&[0, 1], &[2, 3], &[1, 2], &[0, 2], &[1, 0]], &[2, 3, 4]),
        // a triangle beside a path, and one with an empty edge
        (&[&[7, 8], &[0, 1], &[1, 2], &[8, 9], &[0, 2]], &[1, 2, 4]),
        (&[&[], &[0, 1], &[1, 2], &[0, 2]], &[1, 2, 3]),
    ];
    for (rows, left) in cases {
        let edges = edges_of(rt.alloc(), rows)?;
        let rest = reduce(rt.alloc(), &edges)?.rest;
        rest_is_lean(&edges, &rest);
        let want = picked(rt.alloc(), &edges, left)?;
        assert!(rt; rest.as_slice() == want.as_slice());
    }
    Ok(())
}

#[test]
fn lists_the_steps(rt: HostRuntime) -> Result<(), Fail> {
    let edges = edges_of(rt.alloc(), &[&[0, 1], &[1]])?;
    turn_join_tree(VarSet::new(), &edges);
    let steps = reduce(rt.alloc(), &edges)?.steps;
    assert!(rt; steps.len() == 3);
    assert!(rt; !steps.is_empty());
    let want = [
        Step::Vertex {
            edge: 0,
            variable: 0,
        },
        Step::Edge { edge: 0, within: 1 },
        Step::Vertex {
            edge: 0,
            variable: 1,
        },
    ];
    assert!(rt; steps.as_slice() == want.as_slice());
    Ok(())
}
