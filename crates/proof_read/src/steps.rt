//! What a line makes of heads and procedures.

ghost use Rattle.std.specs.Prelude.{◌≡◌, [], ◌∷◌, ◌++◌, IfOk};
ghost use Rattle.proof_read.specs.Fronts.{IsMore, IsStep, entries_with, heads_with, row_in};

use crate::front::{Front, FrontFault};
use proof_lines::Line;
use proof_text::{EntryRows, HeadRows, SparseRow};
use sqlite_items::Items;
use std::alloc::{AllocError, Global};

/// What a line makes of heads and procedures.
#[derive(Drop)]
pub enum Step {
    /// There is more.
    Next(Front),
    /// It was the last one.
    Done(Front),
}

/// What a line makes of them, or that it isn't allowed.
pub fn go_on(alloc: Global, front: Front, number: u64, line: Line) -> Result<Step, FrontFault>
    ensures { IsStep number front line result }
{
    match line {
        Line::Head {
            proc_entry,
            address,
        } => {
            if !front.entries.is_empty() {
                return Err(FrontFault::Syntax(number));
            }
            let rows = Items::new(alloc);
            let head = HeadRows {
                proc_entry,
                address,
                rows,
            };
            with_head(front, head)
        }
        Line::Entry { proc_entry } => {
            let rows = Items::new(alloc);
            with_entry(front, EntryRows { proc_entry, rows })
        }
        Line::Row(row) => match with_row(front, row) {
            Err(_) => Err(FrontFault::Memory),
            Ok(front) => Ok(Step::Next(front)),
        },
        Line::Claims => Ok(Step::Done(front)),
    }
}

fn with_head(front: Front, head: HeadRows) -> Result<Step, FrontFault>
    ensures { IsMore (record front { heads = front.heads ++ head ∷ [] }) result }
{
    let Front { mut heads, entries } = front;
    match heads.push(head) {
        Err(_) => Err(FrontFault::Memory),
        Ok(()) => Ok(Step::Next(Front { heads, entries })),
    }
}

fn with_entry(front: Front, entry: EntryRows) -> Result<Step, FrontFault>
    ensures { IsMore (record front { entries = front.entries ++ entry ∷ [] }) result }
{
    let Front { heads, mut entries } = front;
    match entries.push(entry) {
        Err(_) => Err(FrontFault::Memory),
        Ok(()) => Ok(Step::Next(Front { heads, entries })),
    }
}

// The same with a row more under the last procedure, or where there is none under the last head.
fn with_row(front: Front, row: SparseRow) -> Result<Front, AllocError>
    ensures { IfOk result (λ next. next ≡ row_in front front.entries row) }
{
    let Front {
        mut heads,
        mut entries,
    } = front;
    if let Some(entry) = entries.pop() {
        let entries = push_entry_row(entries, entry, row)?;
        return Ok(Front { heads, entries });
    }
    if let Some(head) = heads.pop() {
        let heads = push_head_row(heads, head, row)?;
        return Ok(Front { heads, entries });
    }
    Ok(Front { heads, entries })
}

fn push_head_row(
    mut heads: Items<HeadRows>,
    head: HeadRows,
    row: SparseRow,
) -> Result<Items<HeadRows>, AllocError>
    ensures { IfOk result (λ with. with ≡ heads_with (heads ++ head ∷ []) row) }
{
    let HeadRows {
        proc_entry,
        address,
        mut rows,
    } = head;
    rows.push(row)?;
    heads.push(HeadRows {
        proc_entry,
        address,
        rows,
    })?;
    Ok(heads)
}

fn push_entry_row(
    mut entries: Items<EntryRows>,
    entry: EntryRows,
    row: SparseRow,
) -> Result<Items<EntryRows>, AllocError>
    ensures { IfOk result (λ with. with ≡ entries_with (entries ++ entry ∷ []) row) }
{
    let EntryRows {
        proc_entry,
        mut rows,
    } = entry;
    rows.push(row)?;
    entries.push(EntryRows { proc_entry, rows })?;
    Ok(entries)
}
