//! Rows of small programs that hold, or that some path breaks, worked out by hand; and each told path, followed again.

ghost use Rattle.std.specs.Prelude.{◌≡◌, ◌<◌};

use crate::small_programs::{EdgePlan, LOOP, Plan, Put, RECURSION, Words, program, row};
use affine_prog::{Assign, Kind, Program, well_formed};
use lead_basis::{Memory, Steps};
use map_modules::{Mat, after_affine, apply, extend_call, identity, product};
use refute_path::{Break, Deriv, Refuted, calls_are_sure, is_visible, refute};
use std::alloc::Global;
use std::marker::Brand;
use std::sync::ledger::{Blank, Ledger};
use word_rows::Row;

/// a0 := 5, and then any word of a0 by another edge.
const FIVE: Plan = Plan {
    nodes: 5,
    edges: &[
        EdgePlan::Do(0, 1, &[Put::Words(0, [0, 0, 5])]),
        EdgePlan::Do(1, 2, &[Put::Any(0)]),
    ],
    ..LOOP
};

/// A plan, a node, a row, and the value that breaks it where one does.
type Case = (Plan, u32, Words, Option<u64>);

const HALF: u64 = 1 << 63;

const CASES: [Case; 8] = [
    (FIVE, 1, [1, 0, 0u64.wrapping_sub(5)], None),
    (FIVE, 1, [1, 0, 0u64.wrapping_sub(4)], Some(1)),
    (FIVE, 2, [HALF, 0, 0], Some(HALF)),
    (FIVE, 3, [1, 0, 0], None),
    (LOOP, 1, [1 << 61, 0, 0], None),
    (LOOP, 1, [1 << 60, 0, 0], Some(HALF)),
    (RECURSION, 5, [1, u64::MAX, 0], None),
    (RECURSION, 3, [HALF, 0, 0], Some(HALF)),
];

/// A level path, by its end and its map.
#[derive(Clone, Copy)]
struct Level {
    node: u32,
    map: Mat,
}

/// What assignments make of a map, with these words for what is unknown.
fn made_of(assigns: &[Assign], words: &[u64], map: &Mat) -> Option<Mat> {
    let mut made = *map;
    let mut left = words;
    for assign in assigns {
        match assign {
            Assign::Affine(i, row) if *i < 16 => made = after_affine(&made, usize::from(*i), row),
            Assign::Any(i) if *i < 16 => {
                let (first, rest) = left.split_first()?;
                left = rest;
                made = after_affine(&made, usize::from(*i), &Row::zero().with(16, *first));
            }
            _ => return None,
        }
    }
    Some(made)
}

/// The opening of a procedure, with these words in its slots.
fn opened(program: &Program, proc: u32, words: &Row<17>) -> Option<Level> {
    let own = program.procs.as_slice().get(proc as usize)?;
    let mut map = extend_call(&identity(16), program.registers, 0);
    for i in 0..16usize {
        if (u32::from(own.slots) >> i) & 1 == 1 {
            map = map.with(17 * i + 16, words.get(i));
        }
    }
    Some(Level {
        node: own.entry,
        map,
    })
}

/// The level path with this number.
fn numbered(levels: &[Level], number: u32) -> Option<Level> {
    if number == 0 {
        return None;
    }
    levels.get(number as usize - 1).copied()
}

/// The step along an edge, behind a level path.
fn stepped(program: &Program, level: &Level, edge: u32, words: &[u64]) -> Option<Level> {
    let edge = program.edges.as_slice().get(edge as usize)?;
    if edge.from != level.node {
        return None;
    }
    match &edge.kind {
        Kind::Do(assigns) => Some(Level {
            node: edge.to,
            map: made_of(assigns.as_slice(), words, &level.map)?,
        }),
        Kind::Call { .. } => None,
    }
}

/// The callee's map as the procedure of a node sees it.
fn extended(program: &Program, node: u32, map: &Mat) -> Option<Mat> {
    let owner = program.owners.as_slice().get(node as usize)?;
    let own = program.procs.as_slice().get(*owner as usize)?;
    if program.registers & own.slots != 0 {
        return None;
    }
    Some(extend_call(map, program.registers, own.slots))
}

/// The call along an edge, behind a level path, with one of the callee to its exit.
fn called(program: &Program, level: &Level, edge: u32, exit: &Level) -> Option<Level> {
    let edge = program.edges.as_slice().get(edge as usize)?;
    if edge.from != level.node {
        return None;
    }
    match &edge.kind {
        Kind::Do(_) => None,
        Kind::Call { callee, before } => {
            let proc = program.procs.as_slice().get(*callee as usize)?;
            if proc.exit != exit.node {
                return None;
            }
            let inner = made_of(before.as_slice(), &[], &level.map)?;
            Some(Level {
                node: edge.to,
                map: product(&extended(program, edge.from, &exit.map)?, &inner),
            })
        }
    }
}

/// The level path that a derivation spells, over those before it.
fn spelled(program: &Program, levels: &[Level], deriv: &Deriv) -> Option<Level> {
    match deriv {
        Deriv::Opening { proc, slots } => opened(program, *proc, slots),
        Deriv::Step {
            before,
            edge,
            choice,
        } => stepped(
            program,
            &numbered(levels, *before)?,
            *edge,
            choice.as_slice(),
        ),
        Deriv::Call {
            before,
            edge,
            callee,
        } => called(
            program,
            &numbered(levels, *before)?,
            *edge,
            &numbered(levels, *callee)?,
        ),
    }
}

/// The level paths that derivations spell.
fn levels_of(alloc: Global, program: &Program, derivs: &[Deriv]) -> Result<Vec<Level>, Memory> {
    let mut levels = Vec::new(alloc);
    for deriv in derivs {
        let Some(level) = spelled(program, &levels, deriv) else {
            return Err(Memory);
        };
        match levels.push(level) {
            Ok(()) => {}
            Err(_) => return Err(Memory),
        }
    }
    Ok(levels)
}

/// The state with which the call from a node is entered.
fn entered(program: &Program, node: u32, state: &Row<17>) -> Option<Row<17>> {
    for edge in program.edges.as_slice() {
        match &edge.kind {
            Kind::Call { before, .. } if edge.from == node => {
                let map = made_of(before.as_slice(), &[], &identity(16))?;
                return Some(apply(&map, state));
            }
            _ => {}
        }
    }
    None
}

/// The state behind an open path, by the numbers of its level paths.
fn reached(program: &Program, levels: &[Level], start: &Row<17>, path: &[u32]) -> Option<Row<17>> {
    let (first, later) = path.split_first()?;
    let level = numbered(levels, *first)?;
    let mut node = level.node;
    let mut state = apply(&level.map, start);
    for number in later {
        let inner = entered(program, node, &state)?;
        let level = numbered(levels, *number)?;
        node = level.node;
        state = apply(&level.map, &inner);
    }
    Some(state)
}

/// What the state behind the told path gives the row.
fn replayed(
    alloc: Global,
    program: &Program,
    found: &Break,
    row: &Row<17>,
) -> Result<Option<u64>, Memory> {
    let levels = levels_of(alloc, program, found.derivs.as_slice())?;
    match reached(program, &levels, &found.start, found.path.as_slice()) {
        Some(state) => Ok(Some(row.dot(&state))),
        None => Ok(None),
    }
}

/// The value that breaks the row, where one does.
fn broken_by<L: Ledger>(
    alloc: Global,
    program: &Program,
    node: u32,
    row: &Row<17>,
    steps: &mut Steps<L>,
) -> Result<Option<u64>, Memory> {
    if !well_formed(program) || node >= program.nodes {
        return Ok(None);
    }
    if !calls_are_sure(program) || !is_visible(program, node, row) {
        return Ok(None);
    }
    match refute(alloc, program, node, row, steps)? {
        Refuted::Holds => Ok(None),
        Refuted::Broken(found) => {
            if replayed(alloc, program, &found, row)? != Some(found.value) {
                return Err(Memory);
            }
            Ok(Some(found.value))
        }
    }
}

fn answers<L: Ledger>(alloc: Global, case: &Case, blank: Blank) -> Result<bool, Memory>
    requires name { blank.name ≡ L.name }
    requires parts { blank.parts ≡ L.parts }
    requires some { 0 < blank.parts }
{
    let (plan, node, words, expected) = case;
    let Ok(program) = program(alloc, plan) else {
        return Err(Memory);
    };
    let mut steps = Steps::<L>::new(blank);
    let found = broken_by(alloc, &program, *node, &row(*words), &mut steps)?;
    Ok(found == *expected)
}

/// Whether the answer is the one of the table.
fn is_answered(alloc: Global, case: &Case) -> bool {
    answers::<Brand>(alloc, case, Blank::new(1)) == Ok(true)
}

#[test]
fn rows_hold_or_are_broken(rt: HostRuntime) {
    let alloc = rt.alloc();
    for case in CASES.iter() {
        assert!(rt; is_answered(alloc, case));
    }
}
