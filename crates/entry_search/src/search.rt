//! The search.

ghost use Rattle.std.specs.Prelude.{◌≡◌, map, IfOk, IsTrue, Contains};
ghost use Rattle.elf_image.specs.Images.{code_at};
ghost use Rattle.entry_tables.specs.Tables.{EachOf, IsSettled, Reads};
ghost use Rattle.entry_tables.specs.Settling.{AreLined, table_of};

use crate::drafts::{Drafts, no_drafts};
use crate::follow::{Given, add_procedure, follow};
use crate::limits::{Limits, NoTable};
use crate::listed::listed;
use elf_image::Image;
use entry_tables::{Guess, Rows, Told, has_procedure, is_settled};
use sqlite_items::Items;
use std::alloc::Global;

/// A settled table of the given procedures and of all that they call, where targets are taken for jumps as
/// the guesses say, and the silent calls are taken not to return.
pub fn tabulate(
    alloc: Global,
    image: &Image,
    roots: &[u64],
    guesses: Items<Guess>,
    silent: Items<u64>,
    limits: Limits,
) -> Result<Rows, NoTable>
    ensures settled { IfOk result (λ rows. IsSettled (table_of image.now rows)) }
    ensures reads { IfOk result (λ rows. Reads (code_at image.now) (table_of image.now rows)) }
    ensures lined { IfOk result (λ rows. AreLined image.now rows.points) }
    ensures roots { IfOk result (λ rows. EachOf roots.now (Contains (table_of image.now rows).procedures)) }
    ensures given { IfOk result (λ rows. (rows.guesses ≡ guesses) × (rows.silent ≡ silent)) }
{
    let given = Given {
        image,
        guesses: guesses.as_slice(),
        silent: silent.as_slice(),
        limits,
    };
    let all = searched(alloc, given, roots)?;
    let rows = listed(alloc, image, &all, guesses, silent)?;
    checked(alloc, image, roots, rows)
}

// The rows, where they are a settled table of the procedures.
fn checked(alloc: Global, image: &Image, roots: &[u64], rows: Rows) -> Result<Rows, NoTable>
    requires { AreLined image.now rows.points }
    ensures settled { IfOk result (λ rows. IsSettled (table_of image.now rows)) }
    ensures reads { IfOk result (λ rows. Reads (code_at image.now) (table_of image.now rows)) }
    ensures lined { IfOk result (λ rows. AreLined image.now rows.points) }
    ensures roots { IfOk result (λ rows. EachOf roots.now (Contains (table_of image.now rows).procedures)) }
    ensures same { IfOk result (λ after. after ≡ rows) }
{
    match is_settled(alloc, image, &rows) {
        Ok(settled) if settled && have_roots(rows.procedures.as_slice(), roots) => Ok(rows),
        Ok(_) => Err(NoTable::Unsettled),
        Err(_) => Err(NoTable::Memory),
    }
}

fn have_roots(procedures: &[Told], roots: &[u64]) -> bool
    ensures { IsTrue result → EachOf roots.now (Contains (map (λ k. k.procedure) procedures.now)) }
{
    for root in roots {
        if !has_procedure(procedures, *root) {
            return false;
        }
    }
    true
}

fn searched(alloc: Global, given: Given, roots: &[u64]) -> Result<Drafts, NoTable> {
    let mut all = no_drafts(alloc);
    for root in roots {
        add_procedure(alloc, given.limits, &mut all, *root)?;
    }
    let mut left = given.limits.steps;
    while left > 0 {
        match all.waiting.pop() {
            Some(at) => follow(alloc, given, &mut all, at)?,
            None => return Ok(all),
        }
        left -= 1;
    }
    Ok(all)
}
