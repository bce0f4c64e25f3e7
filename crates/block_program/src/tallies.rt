//! Which edges there are at each node.

ghost use Rattle.std.specs.Prelude.{◌≡◌, ◌<◌, IfOk};
ghost use Rattle.affine_prog.specs.Programs.{IsWellFormed};
ghost use Rattle.block_program.specs.Tallies.{AreTallies, end_of, more_of};

use crate::Tally;
use affine_prog::{Edge, Program};
use std::alloc::{AllocError, Global};

impl Tally {
    /// One more edge, by its number.
    fn more(self, k: u32) -> Tally
        ensures { result ≡ more_of self k }
    {
        match self {
            Tally::Nothing => Tally::One(k),
            _ => Tally::Many,
        }
    }
}

/// An end of an edge.
#[derive(Clone, Copy)]
pub(crate) enum Side {
    From,
    To,
}

fn end_of(edge: &Edge, side: Side) -> u32
    ensures { result ≡ end_of side edge.now }
{
    match side {
        Side::From => edge.from,
        Side::To => edge.to,
    }
}

/// For each node which edges have this end there.
pub(crate) fn tallies(
    alloc: Global,
    program: &Program,
    side: Side,
) -> Result<Vec<Tally>, AllocError>
    requires { IsWellFormed program.now }
    ensures { IfOk result (λ table. AreTallies (end_of side) program.now.nodes program.now.edges table.items) }
{
    let mut table = vec![in alloc; Tally::Nothing; program.nodes as usize]?;
    for k in 0..program.edges.len() {
        let at = end_of(&program.edges.as_slice()[k], side) as usize;
        table[at] = table[at].more(k as u32);
    }
    Ok(table)
}
