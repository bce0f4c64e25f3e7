//! The lines between the tracked names and the claims.

ghost use Rattle.std.specs.Prelude.{◌≡◌, ℕ, List, ◌∷◌, ◌++◌, codes};
ghost use Rattle.proof_read.specs.declared.front.Front.{Front};
ghost use Rattle.proof_read.specs.Fronts.{AreRows, IsFound, IsFrontTold, IsJudged, IsOfWords, IsReadAs, begun, front_text, width_of};

use crate::steps::{Step, go_on};
use proof_lines::read_line;
use proof_text::{EntryRows, HeadRows};
use report_lines::cut_at;
use sqlite_items::Items;
use std::alloc::Global;

/// Heads and procedures with their rows, as far as they are read.
#[derive(Drop)]
pub struct Front {
    pub heads: Items<HeadRows>,
    pub entries: Items<EntryRows>,
}

/// What the lines tell, the number of the line behind them, and what is left.
#[derive(Drop)]
pub struct FrontRead<'a> {
    pub front: Front,
    pub number: u64,
    pub rest: &'a [u8],
}

/// Why lines aren't those of heads, procedures and claims.
#[derive(Clone, Copy, Debug, PartialEq, Eq)]
pub enum FrontFault {
    /// The line of this number isn't allowed at its place, or isn't there.
    Syntax(u64),
    /// Out of memory.
    Memory,
}

/// What the lines tell behind the first two.
pub fn read_front(alloc: Global, text: &[u8]) -> Result<FrontRead<'_>, FrontFault>
    ensures told { IsFrontTold 3 begun text.now result }
    ensures found { IsFound text.now result }
    ensures only { (front : Front) (rest : List ℕ) → AreRows front → IsOfWords front → text.now ≡ front_text front ++ (codes "claims" ++ 10 ∷ rest) → IsReadAs front rest result }
{
    read_lines(alloc, text)
}

// The same by its lines.
fn read_lines(alloc: Global, text: &[u8]) -> Result<FrontRead<'_>, FrontFault>
    ensures { IsFrontTold 3 begun text.now result }
{
    let mut front = begin(alloc);
    let mut number = 3u64;
    let mut rest = text;
    while let Some((piece, behind)) = cut_at(b'\n', rest) {
        match judge(alloc, front, number, piece) {
            Err(fault) => return Err(fault),
            Ok(step) => match step {
                Step::Next(next) => front = next,
                Step::Done(front) => {
                    let (number, rest) = (number + 1, behind);
                    return Ok(FrontRead {
                        front,
                        number,
                        rest,
                    });
                }
            },
        }
        number += 1;
        rest = behind;
    }
    Err(FrontFault::Syntax(number))
}

// What a piece makes of heads and procedures.
fn judge(alloc: Global, front: Front, number: u64, piece: &[u8]) -> Result<Step, FrontFault>
    ensures { IsJudged number front piece.now result }
{
    match read_line(alloc, width_of(&front), piece) {
        Err(_) => Err(FrontFault::Memory),
        Ok(told) => match told {
            None => Err(FrontFault::Syntax(number)),
            Some(line) => go_on(alloc, front, number, line),
        },
    }
}

// Before the first line.
fn begin(alloc: Global) -> Front
    ensures { result ≡ begun }
{
    Front {
        heads: Items::new(alloc),
        entries: Items::new(alloc),
    }
}

// How many words a row has that comes next: none where no row may come.
fn width_of(front: &Front) -> u64
    ensures { result ≡ width_of front.now }
{
    if !front.entries.is_empty() {
        17
    } else if !front.heads.is_empty() {
        289
    } else {
        0
    }
}
