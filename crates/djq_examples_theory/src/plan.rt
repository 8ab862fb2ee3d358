//! Worked queries.

ghost use Rattle.std.specs.Prelude.{◌<◌, length};
ghost use Rattle.djq_hypergraph.specs.Variables.{AreCovered};

use crate::shapes::{edges_of, set_of};
use djq_hypergraph::{Edges, Names, VarSet};
use djq_plan::{PlanRefusal, plan};
use djq_tree::{Lines, Node, Tree};
use std::alloc::{AllocError, Global};
use std::process::Abort;
use std::test::Fail;

fn names_of(alloc: Global, texts: &[&str]) -> Result<Names, AllocError> {
    let mut names = Names::new(alloc);
    for text in texts {
        names.push(alloc, text.as_bytes())?;
    }
    Ok(names)
}

/// The lines that explain the tree of a query, and the tree.
fn explained<R: Abort>(
    rt: &R,
    alloc: Global,
    rows: &[&[usize]],
    head: &[usize],
    atoms: &[&str],
    variables: &[&str],
) -> Result<(Lines, Tree), Fail> {
    let edges = edges_of(alloc, rows)?;
    let head = set_of(head);
    let atoms = names_of(alloc, atoms)?;
    let variables = names_of(alloc, variables)?;
    assert!(rt; !edges.is_empty());
    assert!(rt; edges.covers(head));
    assert!(rt; edges.is_named(&variables));
    let tree = plan(alloc, &edges, &head).ok().ok_or("no plan")?;
    assert!(rt; tree.leaves() <= atoms.len());
    let lines = tree.explain_text(alloc, &atoms, &variables)?;
    Ok((lines, tree))
}

#[test]
fn grows_trees(rt: HostRuntime) -> Result<(), Fail> {
    // The atoms' variables, the head's, the relation and variable names, and the lines.
    // More are computed in the proofs of `djq_tree`, over the definition that `plan` meets.
    let cases: [(&[&[usize]], &[usize], &[&str], &[&str], &str); 3] = [
        // q(x,y,z) <- r(x,y), s(y,z), t(z,x), u(x,y,z)
        (
            &[&[0, 1], &[1, 2], &[2, 0], &[0, 1, 2]],
            &[0, 1, 2],
            &["r", "s", "t", "u"],
            &["x", "y", "z"],
            "n 0 leaf r x,y out\nn 1 leaf s y,z out\nn 2 leaf t x,z out\nn 3 leaf u x,y,z out\nn 4 meet 3 0 x,y,z out\nn 5 meet 4 1 x,y,z out\nn 6 trim 5 x,z out\nn 7 meet 2 6 x,z out\nn 8 trim 7 - out\n",
        ),
        // q(y) <- r(_,y), s(y,_): holes
        (
            &[&[0, 1], &[1, 2]],
            &[1],
            &["r", "s"],
            &["_", "y", "_"],
            "n 0 leaf r _,y\nn 1 leaf s y,_\nn 2 trim 0 y out\nn 3 trim 1 y out\nn 4 meet 2 3 y out\nn 5 trim 4 - out\n",
        ),
        // q() <- p(): no variable
        (&[&[]], &[], &["p"], &[], "n 0 leaf p - out\n"),
    ];
    for (rows, head, atoms, variables, want) in cases {
        let (lines, _tree) = explained(&rt, rt.alloc(), rows, head, atoms, variables)?;
        assert!(rt; lines.as_bytes() == want.as_bytes());
    }
    Ok(())
}

#[test]
fn takes_many_atoms(rt: HostRuntime) -> Result<(), Fail> {
    let edge: &[usize] = &[0, 1];
    let rows = [edge; 32];
    let atoms = ["r"; 32];
    let (lines, tree) = explained(&rt, rt.alloc(), &rows, &[1], &atoms, &["x", "y"])?;
    assert!(rt; tree.len() == 65);
    assert!(rt; tree.second_stage() == 64);
    assert!(rt;
        lines.as_bytes().ends_with(b"n 62 meet 60 61 x,y\nn 63 trim 62 y out\nn 64 trim 63 - out\n")
    );
    Ok(())
}

/// The nodes above the second leaf of a tree with six nodes, and what they are.
fn expect_path<R: Abort>(rt: &R, tree: &Tree) {
    assert!(rt; tree.leaves() == 2);
    assert!(rt; tree.len() == 6);
    assert!(rt; tree.frontier(1) == 3);
    let mut path = tree.path(1);
    for node in [1, 3, 4, 5] {
        assert!(rt; path.next() == Some(node));
    }
    assert!(rt; path.next() == None);
    assert!(rt; tree.parent(0) == Some(2));
    assert!(rt; tree.node(4) == Node::Meet { guard: 2, side: 3 });
    assert!(rt; tree.node(4).has_child(3) && !tree.is_out(1));
    let shared = set_of(&[1]);
    assert!(rt; tree.label(4) == shared && tree.key(2) == shared && tree.head() == shared);
}

#[test]
fn goes_up_a_tree(rt: HostRuntime) -> Result<(), Fail> {
    // q(y) <- r(x,y), s(y,z)
    let rows: [&[usize]; 2] = [&[0, 1], &[1, 2]];
    let (_lines, tree) = explained(&rt, rt.alloc(), &rows, &[1], &["r", "s"], &["x", "y", "z"])?;
    expect_path(&rt, &tree);
    Ok(())
}

/// What refuses a query: whether as cyclic, and the rest.
fn refused(alloc: Global, edges: &Edges, head: VarSet) -> (bool, Edges)
    requires some { 0 < length edges.now }
    requires head { AreCovered head edges.now }
{
    match plan(alloc, edges, &head) {
        Err(PlanRefusal::Cyclic(rest)) => (true, rest),
        Err(PlanRefusal::NotConnex(rest)) => (false, rest),
        Err(PlanRefusal::NoMem) => (false, Edges::new(alloc)),
        Ok(_tree) => (true, Edges::new(alloc)),
    }
}

#[test]
fn refuses_with_a_rest(rt: HostRuntime) -> Result<(), Fail> {
    // The atoms' variables, the head's, whether the query is cyclic, and the rest.
    let cases: [(&[&[usize]], &[usize], bool, &[&[usize]]); 2] = [
        // q() <- r(x,y), s(y,z), t(z,x), u(z,w)
        (
            &[&[0, 1], &[1, 2], &[0, 2], &[2, 3]],
            &[],
            true,
            &[&[0, 1], &[1, 2], &[0, 2]],
        ),
        // q(x,z) <- r(x,y), s(y,z)
        (
            &[&[0, 1], &[1, 2]],
            &[0, 2],
            false,
            &[&[0, 2], &[0, 1], &[1, 2]],
        ),
    ];
    for (rows, head, is_cyclic, want) in cases {
        let edges = edges_of(rt.alloc(), rows)?;
        let head = set_of(head);
        assert!(rt; !edges.is_empty() && edges.covers(head));
        let (cyclic, rest) = refused(rt.alloc(), &edges, head);
        let want = edges_of(rt.alloc(), want)?;
        assert!(rt; cyclic == is_cyclic);
        assert!(rt; rest.as_slice() == want.as_slice());
    }
    Ok(())
}
