//! The block program.

ghost use Rattle.std.specs.Prelude.{◌≡◌, ◌^◌, ◌<◌, length, map, IfOk};
ghost use Rattle.std.specs.List.{AllZip};
ghost use Rattle.affine_prog.specs.Programs.{IsWellFormed, owner_of};
ghost use Rattle.merged_heads.specs.Merges.{IsMergedTable};
ghost use Rattle.merged_heads.specs.BlockPrograms.{IsBlockProc, IsBlockProgram, NumbersHeads};
ghost use Rattle.block_program.specs.InnerNodes as simple;
ghost use Rattle.block_program.specs.EdgesInto.{IsSimpleTable};
ghost use Rattle.block_program.specs.Numbers.{AreBlocks, AreNumbersBelow, HasSimpleHeads, IsNumbered};

use crate::head_numbers::number_heads;
use crate::inner_nodes::simple_table;
use crate::small_edges::{block_edges, number_of};
use crate::{Blocks, Numbered};
use affine_prog::{Proc, Program};
use lead_basis::Memory;
use merged_heads::{Merging, merged_table};
use sqlite_items::Items;
use std::alloc::{AllocError, Global};

/// The procedures of the block program.
fn block_procs(
    alloc: Global,
    program: &Program,
    merging: &Merging,
    heads: &[u32],
    numbers: &[Option<u32>],
) -> Result<Items<Proc>, AllocError>
    requires formed { IsWellFormed program.now }
    requires merged { IsMergedTable program.now merging.now }
    requires numbers { AreNumbersBelow merging.now program.now.nodes heads.now numbers.now }
    ensures { IfOk result (λ procs. AllZip (IsBlockProc heads.now) program.now.procs procs) }
{
    let mut procs = Items::new(alloc);
    for proc in program.procs.as_slice() {
        let entry = number_of(numbers, proc.entry);
        let exit = number_of(numbers, proc.exit);
        let slots = proc.slots;
        procs.push(Proc { entry, exit, slots })?;
    }
    Ok(procs)
}

/// The owners of the heads.
fn block_owners(
    alloc: Global,
    program: &Program,
    merging: &Merging,
    heads: &[u32],
) -> Result<Items<u32>, AllocError>
    requires formed { IsWellFormed program.now }
    requires heads { NumbersHeads program.now merging.now heads.now }
    ensures { IfOk result (λ owners. owners ≡ map (owner_of program.now) heads.now) }
{
    let mut owners = Items::new(alloc);
    for head in heads {
        owners.push(program.owners.as_slice()[*head as usize])?;
    }
    Ok(owners)
}

/// The program of the heads.
fn small_of(
    alloc: Global,
    program: &Program,
    merging: &Merging,
    heads: &[u32],
    numbers: &[Option<u32>],
) -> Result<Program, AllocError>
    requires formed { IsWellFormed program.now }
    requires merged { IsMergedTable program.now merging.now }
    requires heads { NumbersHeads program.now merging.now heads.now }
    requires numbers { AreNumbersBelow merging.now program.now.nodes heads.now numbers.now }
    requires count { length heads.now < 2 ^ 32 }
    ensures { IfOk result (IsBlockProgram program.now merging.now heads.now) }
{
    let edges = block_edges(alloc, program, heads, merging, numbers)?;
    Ok(Program {
        width: program.width,
        registers: program.registers,
        procs: block_procs(alloc, program, merging, heads, numbers)?,
        nodes: heads.len() as u32,
        owners: block_owners(alloc, program, merging, heads)?,
        edges,
        start: program.start,
    })
}

/// The heads of a table, and their numbers.
fn numbered(alloc: Global, program: &Program, merging: Merging) -> Result<Numbered, AllocError>
    requires { IsMergedTable program.now merging }
    ensures numbered { IfOk result (IsNumbered program.now) }
    ensures merging { IfOk result (λ by. by.merging ≡ merging) }
{
    let (heads, numbers) = number_heads(alloc, program, &merging)?;
    Ok(Numbered {
        merging,
        heads: Items::from_vec(heads),
        numbers: Items::from_vec(numbers),
    })
}

/// The heads by the simple notion, and their numbers.
fn simple(alloc: Global, program: &Program) -> Result<Numbered, AllocError>
    requires { IsWellFormed program.now }
    ensures numbered { IfOk result (IsNumbered program.now) }
    ensures heads { IfOk result (λ by. simple.NumbersHeads program.now by.heads) }
    ensures table { IfOk result (λ by. IsSimpleTable program.now by.merging) }
{
    let merging = simple_table(alloc, program)?;
    let by = numbered(alloc, program, merging)?;
    Ok(by)
}

/// The block program by these heads.
fn blocks_of(
    alloc: Global,
    program: &Program,
    by: Numbered,
    simple_heads: u32,
) -> Result<Blocks, AllocError>
    requires formed { IsWellFormed program.now }
    requires numbered { IsNumbered program.now by }
    requires simple { HasSimpleHeads program.now (length by.heads) simple_heads }
    ensures blocks { IfOk result (AreBlocks program.now) }
    ensures merging { IfOk result (λ blocks. blocks.merging ≡ by.merging) }
{
    let heads = by.heads.as_slice();
    let small = small_of(alloc, program, &by.merging, heads, by.numbers.as_slice())?;
    Ok(Blocks {
        small,
        numbers: by.numbers,
        merging: by.merging,
        simple_heads,
    })
}

/// The block program by the simple notion.
fn simple_blocks(alloc: Global, program: &Program) -> Result<Blocks, AllocError>
    requires { IsWellFormed program.now }
    ensures blocks { IfOk result (AreBlocks program.now) }
    ensures simple { IfOk result (λ blocks. IsSimpleTable program.now blocks.merging) }
{
    let by = simple(alloc, program)?;
    let count = by.heads.len() as u32;
    blocks_of(alloc, program, by, count)
}

/// The block program by a table that is searched for, or by the simple notion where that has no more heads.
fn merged_blocks(alloc: Global, program: &Program) -> Result<Blocks, AllocError>
    requires { IsWellFormed program.now }
    ensures { IfOk result (AreBlocks program.now) }
{
    let by = simple(alloc, program)?;
    let count = by.heads.len() as u32;
    if let Some(merging) = merged_table(alloc, program)? {
        let wider = numbered(alloc, program, merging)?;
        if wider.heads.len() < by.heads.len() {
            return blocks_of(alloc, program, wider, count);
        }
    }
    blocks_of(alloc, program, by, count)
}

/// The block program of a well-formed program, of the heads by the simple notion.
pub fn contract(alloc: Global, program: &Program) -> Result<Blocks, Memory>
    requires { IsWellFormed program.now }
    ensures blocks { IfOk result (AreBlocks program.now) }
    ensures simple { IfOk result (λ blocks. IsSimpleTable program.now blocks.merging) }
{
    match simple_blocks(alloc, program) {
        Ok(blocks) => Ok(blocks),
        Err(_) => Err(Memory),
    }
}

/// The block program of a well-formed program, of as few heads as the search finds.
pub fn contract_merged(alloc: Global, program: &Program) -> Result<Blocks, Memory>
    requires { IsWellFormed program.now }
    ensures { IfOk result (AreBlocks program.now) }
{
    match merged_blocks(alloc, program) {
        Ok(blocks) => Ok(blocks),
        Err(_) => Err(Memory),
    }
}
