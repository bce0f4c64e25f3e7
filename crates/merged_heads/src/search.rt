//! The search for merged nodes: the nodes in their order, and at each the edges that leave it. What it finds is tested.

ghost use Rattle.std.specs.Prelude.{◌≤◌, length, IfOk, IfSome};
ghost use Rattle.affine_prog.specs.Programs.{IsWellFormed};
ghost use Rattle.merged_heads.specs.Merges.{IsMergedTable};

use crate::Merging;
use crate::check::{are_same, is_merged_table};
use crate::kinds::assigns_of;
use affine_prog::{Edge, Kind, Program};
use sqlite_items::Items;
use std::alloc::{AllocError, Global};

/// A branch is merged only where the chain to it has at most so many assignments. Each edge behind it that goes to a head has
/// them before its own, so without a limit the block program might grow with the square of the program.
const LONGEST: usize = 16;

/// A table of merged nodes, if the one that is found is right. Edges must stand in the order of the nodes that they leave, or
/// few nodes are found.
pub fn merged_table(alloc: Global, program: &Program) -> Result<Option<Merging>, AllocError>
    requires { IsWellFormed program.now }
    ensures { IfOk result (λ found. IfSome found (IsMergedTable program.now)) }
{
    let table = search(alloc, program)?;
    if is_merged_table(program, &table) {
        Ok(Some(table))
    } else {
        Ok(None)
    }
}

/// What is known of a node while the search goes on.
#[derive(Clone, Copy)]
struct NodeState {
    /// It stays a head.
    is_head: bool,
    /// The number of the first edge into it.
    edge: Option<u32>,
    /// The node that stands for its class.
    class: u32,
    /// How many assignments the chain to it has.
    long: usize,
    /// The number of an edge that assigns something to what this class brings, into the node that stands for what it makes.
    made: Option<u32>,
}

/// A node of which nothing is known.
fn fresh(node: u32) -> NodeState {
    NodeState {
        is_head: false,
        edge: None,
        class: node,
        long: 0,
        made: None,
    }
}

fn seen(nodes: &[NodeState], node: u32) -> NodeState {
    if (node as usize) < nodes.len() {
        nodes[node as usize]
    } else {
        fresh(node)
    }
}

fn see(nodes: &mut Vec<NodeState>, node: u32, now: NodeState) {
    if (node as usize) < nodes.len() {
        nodes[node as usize] = now;
    }
}

fn keep_head(nodes: &mut Vec<NodeState>, node: u32) {
    let mut now = seen(nodes.as_slice(), node);
    now.is_head = true;
    see(nodes, node, now);
}

fn calls(edge: &Edge) -> bool {
    match &edge.kind {
        Kind::Do(_) => false,
        Kind::Call { .. } => true,
    }
}

/// All nodes, of which those stay heads that are entries or exits, that a call comes back to, or that an edge enters from
/// no smaller node.
fn start(alloc: Global, program: &Program) -> Result<Vec<NodeState>, AllocError> {
    let mut nodes = Vec::new(alloc);
    for node in 0..program.nodes {
        nodes.push(fresh(node))?;
    }
    for proc in program.procs.as_slice() {
        keep_head(&mut nodes, proc.entry);
        keep_head(&mut nodes, proc.exit);
    }
    for edge in program.edges.as_slice() {
        if calls(edge) || edge.from >= edge.to {
            keep_head(&mut nodes, edge.to);
        }
    }
    Ok(nodes)
}

/// The class of what an edge brings, where a node stands for it.
fn brought(edges: &[Edge], nodes: &[NodeState], edge: &Edge) -> Option<u32> {
    let class = seen(nodes, edge.from).class;
    let assigns = assigns_of(&edge.kind);
    if assigns.is_empty() {
        return Some(class);
    }
    let Some(k) = seen(nodes, class).made else {
        return None;
    };
    if k as usize >= edges.len() {
        return None;
    }
    let other = &edges[k as usize];
    if are_same(assigns_of(&other.kind), assigns) {
        Some(other.to)
    } else {
        None
    }
}

/// Whether two edges bring the same.
fn bring_same(edges: &[Edge], nodes: &[NodeState], some: &Edge, other: &Edge) -> bool {
    match (brought(edges, nodes, some), brought(edges, nodes, other)) {
        (Some(class), Some(same)) => class == same,
        (None, None) => {
            seen(nodes, some.from).class == seen(nodes, other.from).class
                && are_same(assigns_of(&some.kind), assigns_of(&other.kind))
        }
        _ => false,
    }
}

/// Settles what stands for a node, once all edges into it are seen.
fn settle(edges: &[Edge], nodes: &mut Vec<NodeState>, node: u32) {
    let mut now = seen(nodes.as_slice(), node);
    let Some(k) = now.edge else {
        keep_head(nodes, node);
        return;
    };
    if now.is_head || k as usize >= edges.len() {
        return;
    }
    let edge = &edges[k as usize];
    let before = seen(nodes.as_slice(), edge.from);
    now.long = before.long.saturating_add(assigns_of(&edge.kind).len());
    match brought(edges, nodes.as_slice(), edge) {
        Some(class) => now.class = class,
        None => {
            let mut class = seen(nodes.as_slice(), before.class);
            class.made = Some(k);
            see(nodes, before.class, class);
        }
    }
    see(nodes, node, now);
}

/// Sees one more edge, which leaves its node beside others where that is a branch.
fn offer(edges: &[Edge], nodes: &mut Vec<NodeState>, k: u32, is_branch: bool) {
    if k as usize >= edges.len() {
        return;
    }
    let edge = &edges[k as usize];
    let mut to = seen(nodes.as_slice(), edge.to);
    let long = seen(nodes.as_slice(), edge.from).long;
    match to.edge {
        None => to.edge = Some(k),
        Some(j) => {
            if j as usize >= edges.len()
                || !bring_same(edges, nodes.as_slice(), &edges[j as usize], edge)
            {
                to.is_head = true;
            }
        }
    }
    if is_branch && long.saturating_add(assigns_of(&edge.kind).len()) > LONGEST {
        to.is_head = true;
    }
    see(nodes, edge.to, to);
}

/// The end of the edges that leave a node, where they begin at this place.
fn end_of(edges: &[Edge], node: u32, first: usize) -> usize
    requires { first ≤ length edges.now }
    ensures { result ≤ length edges.now }
{
    let mut at = first;
    while at < edges.len() && edges[at].from == node {
        at += 1;
    }
    at
}

/// What is found of all nodes.
fn find(alloc: Global, program: &Program) -> Result<Vec<NodeState>, AllocError>
    requires { IsWellFormed program.now }
{
    let edges = program.edges.as_slice();
    let mut nodes = start(alloc, program)?;
    let mut first = 0;
    for node in 0..program.nodes {
        settle(edges, &mut nodes, node);
        let end = end_of(edges, node, first);
        for k in first..end {
            offer(edges, &mut nodes, k as u32, end > first + 1);
        }
        first = end;
    }
    Ok(nodes)
}

/// The table of what is found.
fn search(alloc: Global, program: &Program) -> Result<Merging, AllocError>
    requires { IsWellFormed program.now }
{
    let nodes = find(alloc, program)?;
    let mut edges_into = Items::new(alloc);
    let mut classes = Items::new(alloc);
    for node in 0..program.nodes {
        let now = seen(nodes.as_slice(), node);
        if now.is_head {
            edges_into.push(None)?;
            classes.push(node)?;
        } else {
            edges_into.push(now.edge)?;
            classes.push(now.class)?;
        }
    }
    Ok(Merging {
        edges_into,
        classes,
    })
}
