//! Small programs, as data. They have a register a0 at position 0 and at most one slot, at position 1.

use affine_prog::{Assign, Edge, Kind, Proc, Program};
use map_modules::Mat;
use sqlite_items::Items;
use std::alloc::{AllocError, Global};
use word_rows::Row;

/// The words of a row at a0, at the slot and at the constant.
pub type Words = [u64; 3];

/// The words of a matrix in the rows of a0 and of the slot, and the one at (16, 16).
pub type MapWords = (Words, Words, u64);

/// An assignment to a position: what a row with these words gives, or any word.
#[derive(Clone, Copy)]
pub enum Put {
    Words(u8, Words),
    Any(u8),
}

/// An edge: the nodes that it leaves and enters, and its assignments; then the procedure that it calls, by its number.
#[derive(Clone, Copy)]
pub enum EdgePlan {
    Do(u32, u32, &'static [Put]),
    Call(u32, u32, &'static [Put], u32),
}

/// A program.
#[derive(Clone, Copy)]
pub struct Plan {
    pub width: u32,
    pub registers: u16,
    pub procs: &'static [Proc],
    pub nodes: u32,
    pub owners: &'static [u32],
    pub edges: &'static [EdgePlan],
    pub start: u32,
}

/// a0 := 0, then a0 := a0 + 8 as often as the loop turns.
pub const LOOP: Plan = Plan {
    width: 1,
    registers: 1,
    procs: &[Proc {
        entry: 0,
        exit: 4,
        slots: 0,
    }],
    nodes: 5,
    owners: &[0; 5],
    edges: &[
        EdgePlan::Do(0, 1, &[Put::Words(0, [0, 0, 0])]),
        EdgePlan::Do(1, 2, &[Put::Words(0, [1, 0, 8])]),
        EdgePlan::Do(2, 3, &[]),
        EdgePlan::Do(2, 1, &[]),
    ],
    start: 0,
};

/// Procedure 1 keeps a0 in its slot, calls itself with a0 + 8 or doesn't, and takes a0 back. Procedure 0 calls it.
pub const RECURSION: Plan = Plan {
    width: 2,
    registers: 0b01,
    procs: &[
        Proc {
            entry: 0,
            exit: 1,
            slots: 0,
        },
        Proc {
            entry: 2,
            exit: 5,
            slots: 0b10,
        },
    ],
    nodes: 6,
    owners: &[0, 0, 1, 1, 1, 1],
    edges: &[
        EdgePlan::Call(0, 1, &[], 1),
        EdgePlan::Do(2, 3, &[Put::Words(1, [1, 0, 0])]),
        EdgePlan::Do(3, 4, &[]),
        EdgePlan::Call(3, 4, &[Put::Words(0, [1, 0, 8])], 1),
        EdgePlan::Do(4, 5, &[Put::Words(0, [0, 1, 0])]),
    ],
    start: 0,
};

/// The row with these words.
pub fn row(words: Words) -> Row<17> {
    let [a0, slot, constant] = words;
    Row::zero().with(0, a0).with(1, slot).with(16, constant)
}

/// The matrix with these words, and 0 elsewhere.
pub fn map(words: MapWords) -> Mat {
    let (a0, slot, one) = words;
    Mat::zero()
        .with(0, a0[0])
        .with(1, a0[1])
        .with(16, a0[2])
        .with(17, slot[0])
        .with(18, slot[1])
        .with(33, slot[2])
        .with(288, one)
}

fn assigned(put: &Put) -> Assign {
    match *put {
        Put::Words(position, words) => Assign::Affine(position, row(words)),
        Put::Any(position) => Assign::Any(position),
    }
}

fn assigns_of(alloc: Global, puts: &[Put]) -> Result<Items<Assign>, AllocError> {
    let mut assigns = Items::new(alloc);
    for put in puts {
        assigns.push(assigned(put))?;
    }
    Ok(assigns)
}

pub fn edge(alloc: Global, plan: &EdgePlan) -> Result<Edge, AllocError> {
    match *plan {
        EdgePlan::Do(from, to, puts) => Ok(Edge {
            from,
            to,
            kind: Kind::Do(assigns_of(alloc, puts)?),
        }),
        EdgePlan::Call(from, to, puts, callee) => Ok(Edge {
            from,
            to,
            kind: Kind::Call {
                callee,
                before: assigns_of(alloc, puts)?,
            },
        }),
    }
}

fn edges_of(alloc: Global, plans: &[EdgePlan]) -> Result<Items<Edge>, AllocError> {
    let mut edges = Items::new(alloc);
    for plan in plans {
        edges.push(edge(alloc, plan)?)?;
    }
    Ok(edges)
}

pub fn program(alloc: Global, plan: &Plan) -> Result<Program, AllocError> {
    Ok(Program {
        width: plan.width,
        registers: plan.registers,
        procs: Items::from_slice(alloc, plan.procs)?,
        nodes: plan.nodes,
        owners: Items::from_slice(alloc, plan.owners)?,
        edges: edges_of(alloc, plan.edges)?,
        start: plan.start,
    })
}
