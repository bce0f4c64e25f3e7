//! Which procedures can return.

ghost use Rattle.std.specs.Prelude.{◌≡◌, ℕ, IfOk, length, map, ◌==◌, replicate, true};
ghost use Rattle.affine_prog.specs.Programs.{IsWellFormed};
ghost use Rattle.call_summaries.specs.Solutions.{IsChoiceOfProcs};

use affine_prog::Program;
use lead_basis::Memory;
use std::alloc::Global;

/// All procedures.
pub(crate) fn all_procs(alloc: Global, program: &Program) -> Result<Vec<bool>, Memory>
    ensures { IfOk result (λ wanted. wanted.items ≡ replicate (length program.now.procs) true) }
{
    let mut wanted = Vec::new(alloc);
    for _ in 0..program.procs.len() {
        match wanted.push(true) {
            Ok(()) => {}
            Err(_) => return Err(Memory),
        }
    }
    Ok(wanted)
}

/// The procedures whose entry is their exit.
fn short_procs(alloc: Global, program: &Program) -> Result<Vec<bool>, Memory>
    ensures { IfOk result (λ wanted. wanted.items ≡ map (λ proc. proc.entry == proc.exit) program.now.procs) }
{
    let mut wanted = Vec::new(alloc);
    for proc in program.procs.as_slice() {
        match wanted.push(proc.entry == proc.exit) {
            Ok(()) => {}
            Err(_) => return Err(Memory),
        }
    }
    Ok(wanted)
}

/// The procedures that an edge takes to their exit, or whose entry is their exit.
pub(crate) fn returning_procs(alloc: Global, program: &Program) -> Result<Vec<bool>, Memory>
    requires { IsWellFormed program.now }
    ensures { IfOk result (λ wanted. IsChoiceOfProcs program.now wanted.items) }
{
    let mut wanted = short_procs(alloc, program)?;
    for edge in program.edges.as_slice() {
        let owner = program.proc_of(edge.to) as usize;
        if program.procs.as_slice()[owner].exit == edge.to {
            wanted[owner] = true;
        }
    }
    Ok(wanted)
}
