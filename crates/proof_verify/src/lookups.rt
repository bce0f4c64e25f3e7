//! What a program has under a number.

ghost use Rattle.std.specs.Prelude.{◌≡◌, ◌<◌, length};
ghost use Rattle.affine_prog.specs.Programs.{IsWellFormed, entry_of, exit_of, slots_of, owner_of};
ghost use Rattle.affine_prog.specs.Spans.{rows_at};

use affine_prog::Program;
use lead_basis::Basis;

/// The entry of a procedure.
pub(crate) fn entry_of(program: &Program, p: usize) -> usize
    requires { p < length program.now.procs }
    ensures { result ≡ entry_of program.now p }
{
    program.procs.as_slice()[p].entry as usize
}

/// The exit of a procedure.
pub(crate) fn exit_of(program: &Program, p: usize) -> usize
    requires { p < length program.now.procs }
    ensures { result ≡ exit_of program.now p }
{
    program.procs.as_slice()[p].exit as usize
}

/// The slots of a procedure.
pub(crate) fn slots_of(program: &Program, p: usize) -> u16
    requires { p < length program.now.procs }
    ensures { result ≡ slots_of program.now p }
{
    program.procs.as_slice()[p].slots
}

/// The procedure that owns a node.
pub(crate) fn owner_of(program: &Program, node: usize) -> usize
    requires formed { IsWellFormed program.now }
    requires node { node < program.now.nodes }
    ensures is { result ≡ owner_of program.now node }
    ensures proc { result < length program.now.procs }
{
    program.owners.as_slice()[node] as usize
}

/// The basis of a number.
pub(crate) fn basis_at<const N: usize>(bases: &[Basis<N>], i: usize) -> &Basis<N>
    requires { i < length bases.now }
    ensures { result.now ≡ rows_at bases.now i }
{
    &bases[i]
}
