//! The test that a table of merged nodes is right: one pass over the edges, one over the nodes, one over the procedures.

ghost use Rattle.std.specs.Prelude.{◌≡◌, ℕ, ◌<◌, IsTrue, All, length, None, Some, MatchOption};
ghost use Rattle.affine_prog.specs.Programs.{IsWellFormed};
ghost use Rattle.affine_prog.specs.declared.Kind.TheVariants.{Do};
ghost use Rattle.merged_heads.specs.Merges.{edge_number, class_of, IsLong, IsParent, IsClassEdge, Carries, IsParentEdge, IsNodeMerged, IsEdgeMerged, AreHeads, IsMergedTable};

use crate::Merging;
use affine_prog::{Assign, Edge, Kind, Program};

/// Whether the table is right: then what comes to a merged node is what comes to its head, moved along its chain.
pub fn is_merged_table(program: &Program, table: &Merging) -> bool
    requires { IsWellFormed program.now }
    ensures { IsTrue result → IsMergedTable program.now table.now }
{
    if !is_long(program, table) {
        return false;
    }
    if !are_nodes_merged(program, table) {
        return false;
    }
    if !are_edges_merged(program, table) {
        return false;
    }
    are_ends_heads(program, table)
}

/// Whether the table tells something of each node.
fn is_long(program: &Program, table: &Merging) -> bool
    ensures { IsTrue result → IsLong program.now table.now }
{
    table.edges_into.len() == program.nodes as usize
        && table.classes.len() == program.nodes as usize
}

/// Whether two lists of assignments are equal.
pub(crate) fn are_same(some: &[Assign], other: &[Assign]) -> bool
    ensures { IsTrue result → some.now ≡ other.now }
{
    if some.len() != other.len() {
        return false;
    }
    for k in 0..some.len() {
        if !is_same(&some[k], &other[k]) {
            return false;
        }
    }
    true
}

/// Whether two assignments are equal.
fn is_same(some: &Assign, other: &Assign) -> bool
    ensures { IsTrue result → some.now ≡ other.now }
{
    match (some, other) {
        (Assign::Affine(i, row), Assign::Affine(j, line)) => i == j && row == line,
        (Assign::Any(i), Assign::Any(j)) => i == j,
        _ => false,
    }
}

/// Whether edge k goes to r by these assignments, from a node of this class.
fn is_class_edge(
    program: &Program,
    table: &Merging,
    k: u32,
    r: u32,
    assigns: &[Assign],
    class: u32,
) -> bool
    requires formed { IsWellFormed program.now }
    requires long { IsLong program.now table.now }
    ensures { IsTrue result → IsClassEdge program.now table.now k r assigns.now class }
{
    if k as usize >= program.edges.len() {
        return false;
    }
    let edge = &program.edges.as_slice()[k as usize];
    match &edge.kind {
        Kind::Do(list) => {
            edge.to == r
                && class == table.classes.as_slice()[edge.from as usize]
                && are_same(list.as_slice(), assigns)
        }
        Kind::Call { .. } => false,
    }
}

/// Whether an edge to a node of this class carries it.
fn carries(program: &Program, table: &Merging, edge: &Edge, class: u32) -> bool
    requires formed { IsWellFormed program.now }
    requires long { IsLong program.now table.now }
    requires from { edge.now.from < program.now.nodes }
    requires class { class < program.now.nodes }
    ensures { IsTrue result → Carries program.now table.now edge.now class }
{
    let Kind::Do(list) = &edge.kind else {
        return false;
    };
    let from = table.classes.as_slice()[edge.from as usize];
    if from == class && list.is_empty() {
        return true;
    }
    match table.edges_into.as_slice()[class as usize] {
        None => false,
        Some(k) => is_class_edge(program, table, k, class, list.as_slice(), from),
    }
}

/// Whether an edge goes to a head, or carries the class of its end.
fn is_edge_merged(program: &Program, table: &Merging, edge: &Edge) -> bool
    requires formed { IsWellFormed program.now }
    requires long { IsLong program.now table.now }
    requires from { edge.now.from < program.now.nodes }
    requires to { edge.now.to < program.now.nodes }
    ensures { IsTrue result → IsEdgeMerged program.now table.now edge.now }
{
    if table.edges_into.as_slice()[edge.to as usize].is_none() {
        return true;
    }
    let class = table.classes.as_slice()[edge.to as usize];
    class < program.nodes && carries(program, table, edge, class)
}

/// Whether all edges do.
fn are_edges_merged(program: &Program, table: &Merging) -> bool
    requires formed { IsWellFormed program.now }
    requires long { IsLong program.now table.now }
    ensures { IsTrue result → All (IsEdgeMerged program.now table.now) program.now.edges }
{
    for edge in program.edges.as_slice() {
        if !is_edge_merged(program, table, edge) {
            return false;
        }
    }
    true
}

/// Whether edge k goes to the node from a smaller one, and makes assignments.
fn is_parent_edge(program: &Program, node: u32, k: u32) -> bool
    ensures { IsTrue result → IsParentEdge program.now node k }
{
    if k as usize >= program.edges.len() {
        return false;
    }
    let edge = &program.edges.as_slice()[k as usize];
    match &edge.kind {
        Kind::Do(_) => edge.to == node && edge.from < node,
        Kind::Call { .. } => false,
    }
}

/// Whether the table may say this of a node.
fn is_node_merged(program: &Program, table: &Merging, node: u32) -> bool
    requires long { IsLong program.now table.now }
    requires node { node < program.now.nodes }
    ensures { IsTrue result → IsNodeMerged program.now table.now node }
{
    let class = table.classes.as_slice()[node as usize];
    if class > node {
        return false;
    }
    match table.edges_into.as_slice()[node as usize] {
        None => class == node,
        Some(k) => is_parent_edge(program, node, k),
    }
}

/// Whether it may of all nodes.
fn are_nodes_merged(program: &Program, table: &Merging) -> bool
    requires formed { IsWellFormed program.now }
    requires long { IsLong program.now table.now }
    ensures { IsTrue result → (v : ℕ) → v < program.now.nodes → IsNodeMerged program.now table.now v }
{
    for node in 0..program.nodes {
        if !is_node_merged(program, table, node) {
            return false;
        }
    }
    true
}

/// Whether the entry and the exit of a procedure are heads.
fn are_heads(program: &Program, table: &Merging, p: usize) -> bool
    requires formed { IsWellFormed program.now }
    requires long { IsLong program.now table.now }
    requires proc { p < length program.now.procs }
    ensures { IsTrue result → AreHeads program.now table.now p }
{
    let proc = program.procs.as_slice()[p];
    let numbers = table.edges_into.as_slice();
    numbers[proc.entry as usize].is_none() && numbers[proc.exit as usize].is_none()
}

/// Whether all entries and exits are heads.
fn are_ends_heads(program: &Program, table: &Merging) -> bool
    requires formed { IsWellFormed program.now }
    requires long { IsLong program.now table.now }
    ensures { IsTrue result → (p : ℕ) → p < length program.now.procs → AreHeads program.now table.now p }
{
    for p in 0..program.procs.len() {
        if !are_heads(program, table, p) {
            return false;
        }
    }
    true
}
