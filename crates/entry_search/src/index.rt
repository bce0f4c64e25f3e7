//! The index of points: where a point stands, by its procedure and its address.

ghost use Rattle.std.specs.Prelude.{◌<◌, ◌≤◌, length, IfSome, IsTrue};

use crate::drafts::{Draft, push};
use crate::limits::NoTable;
use std::alloc::Global;

fn mixed(p: u64, a: u64) -> u64 {
    let mixed = p.wrapping_mul(0x9e37_79b9_7f4a_7c15) ^ a.wrapping_mul(0xc2b2_ae3d_27d4_eb4f);
    mixed ^ (mixed >> 29)
}

fn is_point(drafts: &[Draft], entry: usize, p: u64, a: u64) -> bool
    ensures { IsTrue result → (1 ≤ entry) × (entry ≤ length drafts.now) }
{
    0 < entry
        && entry <= drafts.len()
        && drafts[entry - 1].procedure == p
        && drafts[entry - 1].address == a
}

// The place in the index of a point, or of the first free place where it isn't there.
fn place(index: &[usize], drafts: &[Draft], p: u64, a: u64) -> usize
    requires { 0 < length index.now }
    ensures { result < length index.now }
{
    let size = index.len();
    let mut at = (mixed(p, a) % size as u64) as usize;
    let mut left = size;
    while left > 0 && index[at] != 0 && !is_point(drafts, index[at], p, a) {
        at = if at + 1 < size { at + 1 } else { 0 };
        left -= 1;
    }
    at
}

/// The number of a point.
pub(crate) fn find(index: &[usize], drafts: &[Draft], p: u64, a: u64) -> Option<usize>
    ensures { IfSome result (λ at. at < length drafts.now) }
{
    if index.is_empty() {
        return None;
    }
    let entry = index[place(index, drafts, p, a)];
    if is_point(drafts, entry, p, a) {
        Some(entry - 1)
    } else {
        None
    }
}

/// The index, with the last point of all. Where it is half full, it is made anew, twice as large.
pub(crate) fn add_last(
    alloc: Global,
    index: &mut Vec<usize>,
    drafts: &[Draft],
) -> Result<(), NoTable> {
    if index.len() / 2 <= drafts.len() {
        let size = if drafts.len() < 1 << 40 {
            drafts.len() * 4 + 64
        } else {
            return Err(NoTable::Rows)
        };
        *index = indexed(alloc, drafts, size)?;
    } else if !drafts.is_empty() {
        enter(index, drafts, drafts.len() - 1);
    }
    Ok(())
}

fn indexed(alloc: Global, drafts: &[Draft], size: usize) -> Result<Vec<usize>, NoTable> {
    let mut index = Vec::new(alloc);
    for _ in 0..size {
        push(&mut index, 0)?;
    }
    let mut at = 0;
    while at < drafts.len() {
        enter(&mut index, drafts, at);
        at += 1;
    }
    Ok(index)
}

fn enter(index: &mut [usize], drafts: &[Draft], at: usize)
    requires { at < length drafts.now }
{
    if !index.is_empty() {
        let place = place(index, drafts, drafts[at].procedure, drafts[at].address);
        index[place] = at + 1;
    }
}
