//! Which nodes are inner.

ghost use Rattle.std.specs.Prelude.{◌≡◌, ◌<◌, ◌↔◌, length, IsTrue, MatchOption, IfOk};
ghost use Rattle.affine_prog.specs.Programs.{IsWellFormed};
ghost use Rattle.affine_prog.specs.declared.Kind.TheVariants.{Do};
ghost use Rattle.block_program.specs.declared.Tally.TheVariants.{One};
ghost use Rattle.block_program.specs.InnerNodes.{IsEnd, IsInner};
ghost use Rattle.block_program.specs.Tallies.{AreTallies, number_of};
ghost use Rattle.block_program.specs.Ends.{AreEnds};
ghost use Rattle.block_program.specs.EdgesInto.{IsEdgeInto, AreEdgesInto, AreOwnClasses, IsSimpleTable};
ghost use Rattle.merged_heads.specs.Merges.{assigns_of};

use crate::Tally;
use crate::tallies::{Side, tallies};
use affine_prog::{Kind, Program};
use merged_heads::Merging;
use sqlite_items::Items;
use std::alloc::{AllocError, Global};

/// Whether a kind calls nothing.
fn calls_nothing(kind: &Kind) -> bool
    ensures { IsTrue result ↔ (kind.now ≡ Do (assigns_of kind.now)) }
{
    match kind {
        Kind::Do(_) => true,
        Kind::Call { .. } => false,
    }
}

impl Tally {
    /// Whether there is one edge.
    fn is_one(self) -> bool
        ensures { IsTrue result ↔ (self ≡ One (number_of self)) }
    {
        match self {
            Tally::One(_) => true,
            _ => false,
        }
    }
}

/// The number of a node's one edge where it is inner; nothing for a head.
fn inner_edge(
    program: &Program,
    into: &[Tally],
    out: &[Tally],
    is_end: bool,
    node: u32,
) -> Option<u32>
    requires formed { IsWellFormed program.now }
    requires into { AreTallies (λ e. e.to) program.now.nodes program.now.edges into.now }
    requires out { AreTallies (λ e. e.from) program.now.nodes program.now.edges out.now }
    requires ends { IsTrue is_end ↔ IsEnd program.now node }
    requires node { node < program.now.nodes }
    ensures { MatchOption result (IsInner program.now node → ⊥) (IsEdgeInto program.now node) }
{
    let Tally::One(k) = into[node as usize] else {
        return None;
    };
    let edge = &program.edges.as_slice()[k as usize];
    if calls_nothing(&edge.kind)
        && out[edge.from as usize].is_one()
        && edge.from < node
        && !is_end
    {
        Some(k)
    } else {
        None
    }
}

/// Whether each node is the entry or the exit of a procedure.
fn ends(alloc: Global, program: &Program) -> Result<Vec<bool>, AllocError>
    requires { IsWellFormed program.now }
    ensures { IfOk result (λ table. AreEnds program.now (length program.now.procs) table.items) }
{
    let mut table = vec![in alloc; false; program.nodes as usize]?;
    for proc in program.procs.as_slice() {
        table[proc.entry as usize] = true;
        table[proc.exit as usize] = true;
    }
    Ok(table)
}

/// For each node the number of its one edge where it is inner.
pub(crate) fn inner_edges(alloc: Global, program: &Program) -> Result<Vec<Option<u32>>, AllocError>
    requires { IsWellFormed program.now }
    ensures { IfOk result (λ table. AreEdgesInto program.now table.items) }
{
    let into = tallies(alloc, program, Side::To)?;
    let out = tallies(alloc, program, Side::From)?;
    let ends = ends(alloc, program)?;
    let mut table = Vec::new(alloc);
    for node in 0..program.nodes {
        let is_end = ends[node as usize];
        let one = inner_edge(program, into.as_slice(), out.as_slice(), is_end, node);
        table.push(one)?;
    }
    Ok(table)
}

/// Each node by itself.
fn own_classes(alloc: Global, nodes: u32) -> Result<Vec<u32>, AllocError>
    ensures { IfOk result (λ classes. AreOwnClasses nodes classes.items) }
{
    let mut classes = Vec::new(alloc);
    for node in 0..nodes {
        classes.push(node)?;
    }
    Ok(classes)
}

/// The table in which the inner nodes are merged.
pub(crate) fn simple_table(alloc: Global, program: &Program) -> Result<Merging, AllocError>
    requires { IsWellFormed program.now }
    ensures { IfOk result (IsSimpleTable program.now) }
{
    let edges_into = inner_edges(alloc, program)?;
    let classes = own_classes(alloc, program.nodes)?;
    Ok(Merging {
        edges_into: Items::from_vec(edges_into),
        classes: Items::from_vec(classes),
    })
}
