//! Where edges and calls are looked up.

ghost use Rattle.std.specs.Prelude.{IfOk, length};
ghost use Rattle.affine_prog.specs.Programs.{IsWellFormed};
ghost use Rattle.call_summaries.specs.Tables.{ReturnFirst, ArePrepared, AreTables};

use crate::Tables;
use affine_prog::{Kind, Program};
use lead_basis::Memory;
use map_modules::Mat;
use row_engine::{edges_out, empty_lists};
use row_images::prepare;
use sqlite_items::Items;
use std::alloc::Global;

/// For each node the calls of the procedure whose exit it is.
fn calls_back(alloc: Global, program: &Program) -> Result<Vec<Items<u32>>, Memory>
    requires { IsWellFormed program.now }
    ensures { IfOk result (λ back. ReturnFirst program.now (length program.now.edges) back.items) }
{
    let mut back = empty_lists(alloc, program.nodes)?;
    for k in 0..program.edges.len() {
        match &program.edges.as_slice()[k].kind {
            Kind::Do(_) => {}
            Kind::Call { callee, .. } => {
                let exit = program.procs.as_slice()[*callee as usize].exit;
                match back[exit as usize].push(k as u32) {
                    Ok(()) => {}
                    Err(_) => return Err(Memory),
                }
            }
        }
    }
    Ok(back)
}

/// What is prepared for each edge.
fn prepared(alloc: Global, program: &Program) -> Result<Vec<Items<Mat>>, Memory>
    requires { IsWellFormed program.now }
    ensures { IfOk result (λ prepared. ArePrepared program.now (length program.now.edges) prepared.items) }
{
    let mut prepared = Vec::new(alloc);
    for edge in program.edges.as_slice() {
        let assigns = match &edge.kind {
            Kind::Do(assigns) => assigns,
            Kind::Call { before, .. } => before,
        };
        match prepared.push(prepare(alloc, assigns.as_slice())?) {
            Ok(()) => {}
            Err(_) => return Err(Memory),
        }
    }
    Ok(prepared)
}

/// The tables of a program.
pub(crate) fn tables_of(alloc: Global, program: &Program) -> Result<Tables, Memory>
    requires { IsWellFormed program.now }
    ensures { IfOk result (λ t. AreTables program.now t.prepared.items t.out.items t.back.items) }
{
    let prepared = prepared(alloc, program)?;
    let out = edges_out(alloc, program)?;
    let back = calls_back(alloc, program)?;
    Ok(Tables {
        prepared,
        out,
        back,
    })
}
