//! Whether a row may be asked for: the tests of what `refute` requires.

ghost use Rattle.std.specs.Prelude.{◌≡◌, ◌<◌, ◌↔◌, All, IsTrue, false, slice_index};
ghost use Rattle.row_modules.specs.Positions.{has, with_constant, IsZeroOutside};
ghost use Rattle.affine_prog.specs.Programs.{owner_of, visible_in, IsWellFormed};
ghost use Rattle.refute_path.specs.Writing.{CallsAreSure, IsSure};

use crate::openings::has;
use crate::pushes::unknown_count;
use crate::turns::slots_at;
use affine_prog::{Edge, Kind, Program};
use std::alloc::Global;
use word_rows::Row;

/// Whether an edge isn't a call behind an unknown assignment.
fn is_sure(kind: &Kind) -> bool
    ensures { IsTrue result ↔ IsSure kind.now }
{
    match kind {
        Kind::Do(_) => true,
        Kind::Call { before, .. } => unknown_count(before.as_slice()) == 0,
    }
}

/// Whether no call among edges has an unknown assignment before it.
fn are_sure(edges: &[Edge]) -> bool
    ensures { IsTrue result ↔ All (λ e. IsSure e.kind) edges.now }
{
    edges.iter().all(|edge| is_sure(&edge.kind))
}

/// Whether no call of a program has an unknown assignment before it.
pub fn calls_are_sure(program: &Program) -> bool
    ensures { IsTrue result ↔ CallsAreSure program.now }
{
    are_sure(program.edges.as_slice())
}

/// Whether a position is in a set, or the row is 0 there.
fn is_zero_or_in(set: u16, row: &Row<17>, k: usize) -> bool
    requires { k < 17 }
    ensures { IsTrue result → has set k ≡ false → slice_index row.now k ≡ 0 }
{
    has(set, k) || row.get(k) == 0
}

/// Whether a row is 0 at each position below 16 that isn't visible at a node.
pub fn is_visible(program: &Program, node: u32, row: &Row<17>) -> bool
    requires formed { IsWellFormed program.now }
    requires node { node < program.now.nodes }
    ensures { IsTrue result → IsZeroOutside (with_constant (visible_in program.now (owner_of program.now node))) row.now }
{
    row.known();
    let set = program.registers | slots_at(program, node);
    for k in 0..16usize {
        if !is_zero_or_in(set, row, k) {
            return false;
        }
    }
    true
}
