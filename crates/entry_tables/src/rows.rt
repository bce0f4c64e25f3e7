//! Tables.

use entry_values::State;
use rv_decode::Instr;
use sqlite_items::Items;

/// What is told of a procedure: whether it returns, and which registers it keeps.
#[derive(Clone, Copy, Debug)]
pub struct Told {
    pub procedure: u64,
    pub returns: bool,
    pub keeps: [bool; 32],
}

/// An instruction with its length.
#[derive(Clone, Copy, Debug)]
pub struct Line {
    pub instr: Instr,
    pub length: u8,
}

/// The targets that are taken for the jump at an address.
#[derive(Drop)]
pub struct Guess {
    pub address: u64,
    pub targets: Items<u64>,
}

/// What is known at an address of a procedure: the instruction there, and the state before it. Where it is
/// marked, the table doesn't follow it on.
#[derive(Drop)]
pub struct Point {
    pub procedure: u64,
    pub address: u64,
    pub line: Option<Line>,
    pub marked: bool,
    pub state: State,
}

/// A table: its points, the procedures with what is told of them, the targets that are taken for jumps, and
/// the calls that are taken not to return.
#[derive(Drop)]
pub struct Rows {
    pub points: Items<Point>,
    pub procedures: Items<Told>,
    pub guesses: Items<Guess>,
    pub silent: Items<u64>,
}
