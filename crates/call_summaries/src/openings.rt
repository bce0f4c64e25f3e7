//! Where the worklist starts: the openings of procedures.

ghost use Rattle.std.specs.Prelude.{◌≡◌, ◌<◌, IfOk, length, bit_and};
ghost use Rattle.row_modules.specs.Positions.{has};
ghost use Rattle.affine_prog.specs.Programs.{IsWellFormed};
ghost use Rattle.affine_prog.specs.Spans.{IsMapTo};
ghost use Rattle.row_engine.specs.Turns.{Grown};
ghost use Rattle.call_summaries.specs.Openings.{AreOpenings, HasOpenings, Opens};

use affine_prog::Program;
use lead_basis::{Memory, Steps};
use map_modules::{Mat, extend_call, identity};
use row_engine::Nodes;
use sqlite_items::Items;
use std::alloc::Global;
use std::sync::ledger::Ledger;
use word_rows::Row;

/// Whether a set of positions has this one.
fn has(set: u16, i: usize) -> bool
    requires { i < 17 }
    ensures { result ≡ has set i }
{
    (u32::from(set) >> i) & 1 == 1
}

/// Rows that span the openings of a procedure.
fn openings(alloc: Global, registers: u16, slots: u16) -> Result<Items<Mat>, Memory>
    requires { bit_and registers slots ≡ 0 }
    ensures { IfOk result (λ rows. AreOpenings registers slots rows) }
{
    let mut rows = Items::new(alloc);
    match rows.push(extend_call(&identity(16), registers, 0)) {
        Ok(()) => {}
        Err(_) => return Err(Memory),
    }
    for i in 0..16usize {
        if has(slots, i) {
            match rows.push(Row::zero().with(17 * i + 16, 1)) {
                Ok(()) => {}
                Err(_) => return Err(Memory),
            }
        }
    }
    Ok(rows)
}

/// Offers the openings of a procedure to its entry.
fn open_one<L: Ledger>(
    alloc: Global,
    program: &Program,
    p: usize,
    nodes: &mut Nodes<289>,
    steps: &mut Steps<L>,
) -> Result<(), Memory>
    requires formed { IsWellFormed program.now }
    requires proc { p < length program.now.procs }
    requires nodes { length nodes.old.bases ≡ program.now.nodes }
    ensures { Grown 289 (IsMapTo program.now) nodes.old nodes.new result steps.old steps.new (HasOpenings program.now p nodes.new) }
{
    nodes.known();
    let proc = program.procs.as_slice()[p];
    let rows = openings(alloc, program.registers, proc.slots)?;
    nodes.offer(proc.entry, rows.as_slice(), steps)
}

/// Offers the openings of each procedure that is to be solved.
pub(crate) fn open_all<L: Ledger>(
    alloc: Global,
    program: &Program,
    wanted: &[bool],
    nodes: &mut Nodes<289>,
    steps: &mut Steps<L>,
) -> Result<(), Memory>
    requires formed { IsWellFormed program.now }
    requires wanted { length wanted.now ≡ length program.now.procs }
    requires nodes { length nodes.old.bases ≡ program.now.nodes }
    ensures { Grown 289 (IsMapTo program.now) nodes.old nodes.new result steps.old steps.new (Opens program.now (length program.now.procs) wanted.now nodes.new) }
{
    nodes.known();
    for p in 0..program.procs.len() {
        if wanted[p] {
            open_one(alloc, program, p, nodes, steps)?;
        }
    }
    Ok(())
}
