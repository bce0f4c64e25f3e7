//! Tables of merged nodes that are right, tables that are not, and what the search finds.

use affine_prog::{Assign, Edge, Kind, Proc, Program, well_formed};
use merged_heads::{Merging, is_merged_table, merged_table};
use sqlite_items::Items;
use std::alloc::{AllocError, Global};
use std::test::Fail;
use word_rows::Row;

/// What an edge does: nothing, a0 := a0 + 8, or any word into a0.
fn kind(alloc: Global, what: u32) -> Result<Kind, AllocError> {
    let add_8 = Row::zero().with(0, 1).with(16, 8);
    let mut assigns = Items::new(alloc);
    if what == 1 {
        assigns.push(Assign::Affine(0, add_8))?;
    }
    if what == 2 {
        assigns.push(Assign::Any(0))?;
    }
    Ok(Kind::Do(assigns))
}

/// One procedure of seven nodes, from 0 to 6.
fn program_of(alloc: Global, steps: &[(u32, u32, u32)]) -> Result<Program, AllocError> {
    let mut edges = Items::new(alloc);
    for (from, to, what) in steps {
        let kind = kind(alloc, *what)?;
        edges.push(Edge {
            from: *from,
            to: *to,
            kind,
        })?;
    }
    let proc = Proc {
        entry: 0,
        exit: 6,
        slots: 0,
    };
    Ok(Program {
        width: 1,
        registers: 1,
        procs: Items::from_slice(alloc, &[proc])?,
        nodes: 7,
        owners: Items::from_slice(alloc, &[0; 7])?,
        edges,
        start: 0,
    })
}

/// Whether the table is right for this program, where nodes 1 to 5 have these edges and classes.
fn is_right(
    alloc: Global,
    steps: &[(u32, u32, u32)],
    parents: [Option<u32>; 5],
    classes: [u32; 5],
) -> Result<bool, AllocError> {
    let program = program_of(alloc, steps)?;
    let [a, b, c, d, e] = parents;
    let [r, s, t, u, v] = classes;
    let table = Merging {
        edges_into: Items::from_slice(alloc, &[None, a, b, c, d, e, None])?,
        classes: Items::from_slice(alloc, &[0, r, s, t, u, v, 6])?,
    };
    Ok(well_formed(&program) && is_merged_table(&program, &table))
}

#[test]
fn tables_that_are_right(rt: HostRuntime) -> Result<(), Fail> {
    let alloc = rt.alloc();
    let heads = [None; 5];
    let alone = [1, 2, 3, 4, 5];
    // no node is merged
    assert!(rt; is_right(alloc, &[(0, 1, 1), (1, 6, 0)], heads, alone)?);
    // two equal edges
    let one = [Some(0), None, None, None, None];
    assert!(rt; is_right(alloc, &[(0, 1, 1), (0, 1, 1), (1, 6, 0)], one, alone)?);
    // a parent that another edge leaves too
    assert!(rt; is_right(alloc, &[(0, 1, 1), (0, 6, 0)], one, alone)?);
    // a diamond whose arms assign nothing
    let three = [Some(0), Some(1), Some(2), None, None];
    let diamond = [(0, 1, 0), (0, 2, 0), (1, 3, 0), (2, 3, 0), (3, 6, 0)];
    assert!(rt; is_right(alloc, &diamond, three, [0, 0, 0, 4, 5])?);
    // a diamond whose arms assign the same, also any word, and an edge that does so at once
    let same = [
        (0, 1, 1),
        (0, 2, 1),
        (1, 3, 0),
        (2, 3, 0),
        (0, 3, 1),
        (3, 6, 0),
    ];
    assert!(rt; is_right(alloc, &same, three, [1, 1, 1, 4, 5])?);
    let any = [(0, 1, 2), (0, 2, 2), (1, 3, 0), (2, 3, 0), (3, 6, 0)];
    assert!(rt; is_right(alloc, &any, three, [1, 1, 1, 4, 5])?);
    // a loop that assigns nothing
    let two = [Some(0), Some(1), None, None, None];
    assert!(rt;
        is_right(
            alloc,
            &[(0, 1, 1), (1, 2, 0), (2, 1, 0), (2, 6, 0)],
            two,
            [1, 1, 3, 4, 5]
        )?
    );
    Ok(())
}

/// Whether the search finds these nodes to be heads, and no others.
fn finds_heads(
    alloc: Global,
    steps: &[(u32, u32, u32)],
    heads: &[u32],
) -> Result<bool, AllocError> {
    let program = program_of(alloc, steps)?;
    if !well_formed(&program) {
        return Ok(false);
    }
    let Some(table) = merged_table(alloc, &program)? else {
        return Ok(false);
    };
    for (node, edge) in table.edges_into.as_slice().iter().enumerate() {
        if edge.is_none() != heads.contains(&(node as u32)) {
            return Ok(false);
        }
    }
    Ok(true)
}

#[test]
fn what_the_search_finds(rt: HostRuntime) -> Result<(), Fail> {
    let alloc = rt.alloc();
    // two equal edges; a branch; nodes that nothing comes to stay heads
    assert!(rt;
        finds_heads(
            alloc,
            &[(0, 1, 1), (0, 1, 1), (1, 6, 0)],
            &[0, 2, 3, 4, 5, 6]
        )?
    );
    assert!(rt; finds_heads(alloc, &[(0, 1, 1), (0, 2, 2), (1, 6, 0)], &[0, 3, 4, 5, 6])?);
    // a diamond whose arms assign nothing, and one whose arms assign the same
    let diamond = [(0, 1, 0), (0, 2, 0), (1, 3, 0), (2, 3, 0), (3, 6, 0)];
    assert!(rt; finds_heads(alloc, &diamond, &[0, 4, 5, 6])?);
    let same = [(0, 1, 1), (0, 2, 1), (1, 3, 0), (2, 3, 0), (3, 6, 0)];
    assert!(rt; finds_heads(alloc, &same, &[0, 4, 5, 6])?);
    // one whose arms assign different things, and a loop
    let other = [(0, 1, 1), (0, 2, 2), (1, 3, 0), (2, 3, 0), (3, 6, 0)];
    assert!(rt; finds_heads(alloc, &other, &[0, 3, 4, 5, 6])?);
    let round = [(0, 1, 1), (1, 2, 0), (2, 1, 0), (2, 6, 0)];
    assert!(rt; finds_heads(alloc, &round, &[0, 1, 3, 4, 5, 6])?);
    Ok(())
}

#[test]
fn tables_that_are_not(rt: HostRuntime) -> Result<(), Fail> {
    let alloc = rt.alloc();
    let three = [Some(0), Some(1), Some(2), None, None];
    // arms that assign different things
    let other = [(0, 1, 1), (0, 2, 2), (1, 3, 0), (2, 3, 0), (3, 6, 0)];
    assert!(rt; !is_right(alloc, &other, three, [1, 1, 1, 4, 5])?);
    assert!(rt; !is_right(alloc, &other, three, [1, 2, 1, 4, 5])?);
    // a loop that assigns
    let two = [Some(0), Some(1), None, None, None];
    assert!(rt;
        !is_right(
            alloc,
            &[(0, 1, 0), (1, 2, 1), (2, 1, 0), (2, 6, 0)],
            two,
            [0, 2, 3, 4, 5]
        )?
    );
    // any word, twice: it is no loop that assigns nothing
    assert!(rt;
        !is_right(
            alloc,
            &[(0, 1, 2), (1, 2, 2), (2, 1, 0), (2, 6, 0)],
            two,
            [1, 1, 3, 4, 5]
        )?
    );
    // a circle that nothing enters
    let round = [Some(1), Some(0), None, None, None];
    assert!(rt;
        !is_right(
            alloc,
            &[(1, 2, 0), (2, 1, 0), (0, 6, 0)],
            round,
            [1, 1, 3, 4, 5]
        )?
    );
    // an edge from a node that nothing comes to keeps the node at its end from being merged
    let behind = [Some(0), None, None, None, None];
    assert!(rt;
        !is_right(
            alloc,
            &[(0, 1, 0), (2, 1, 0), (1, 6, 0)],
            behind,
            [0, 2, 3, 4, 5]
        )?
    );
    Ok(())
}
