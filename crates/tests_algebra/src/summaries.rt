//! Summaries of small programs, worked out by hand.

ghost use Rattle.std.specs.Prelude.{◌≡◌, ◌<◌};

use crate::small_programs::{EdgePlan, LOOP, MapWords, Plan, Put, RECURSION, Words, map, program};
use affine_prog::{Program, well_formed};
use call_summaries::{exits, summaries};
use lead_basis::{Memory, Steps};
use map_modules::MatBasis;
use std::alloc::Global;
use std::marker::Brand;
use std::sync::ledger::{Blank, Ledger};

/// Procedure 0 adds 8 or calls procedure 1, which adds 1 and calls procedure 0, and doesn't use its slot.
/// Each returns only after the other.
const MUTUAL: Plan = Plan {
    edges: &[
        EdgePlan::Call(0, 1, &[], 1),
        EdgePlan::Do(0, 1, &[Put::Words(0, [1, 0, 8])]),
        EdgePlan::Call(2, 5, &[Put::Words(0, [1, 0, 1])], 0),
    ],
    ..RECURSION
};

/// Procedure 0 calls procedure 1, which never returns.
const ENDLESS: Plan = Plan {
    edges: &[
        EdgePlan::Call(0, 1, &[], 1),
        EdgePlan::Do(2, 3, &[Put::Any(0)]),
        EdgePlan::Do(3, 2, &[]),
    ],
    ..RECURSION
};

const NONE: Words = [0, 0, 0];

const SAME: Words = [1, 0, 0];

const OPENED: MapWords = (SAME, NONE, 1);

const KEPT: MapWords = (SAME, SAME, 1);

const CONSTANT: MapWords = (NONE, NONE, 1);

const EIGHT: MapWords = ([0, 0, 8], NONE, 0);

const UNIT: MapWords = ([0, 0, 1], NONE, 0);

const SLOT: MapWords = (NONE, [0, 0, 1], 0);

/// The number of a node or of a procedure, and the rows of the reduced basis there.
type Case = (usize, &'static [MapWords]);

const LOOP_LEVELS: [Case; 3] = [(0, &[OPENED]), (1, &[EIGHT, CONSTANT]), (4, &[])];

const RECURSION_LEVELS: [Case; 4] = [
    (2, &[OPENED, SLOT]),
    (4, &[KEPT, EIGHT]),
    (5, &[KEPT]),
    (1, &[OPENED]),
];

const MUTUAL_EXITS: [Case; 2] = [(0, &[OPENED, UNIT]), (1, &[OPENED, UNIT, SLOT])];

const ENDLESS_EXITS: [Case; 2] = [(0, &[]), (1, &[])];

/// Whether these are the rows.
fn has_rows(basis: &MatBasis, expected: &[MapWords]) -> bool {
    let rows = basis.rows();
    for (i, words) in expected.iter().enumerate() {
        if rows.get(i) != Some(&map(*words)) {
            return false;
        }
    }
    rows.len() == expected.len()
}

/// Whether the reduced basis of a module has these rows.
fn is_reduced<L: Ledger>(
    alloc: Global,
    basis: &MatBasis,
    rows: &[MapWords],
    steps: &mut Steps<L>,
) -> Result<bool, Memory> {
    let mut copy = MatBasis::new(alloc);
    for row in basis.rows() {
        copy.insert(*row, steps)?;
    }
    Ok(has_rows(&copy.reduced(), rows))
}

/// Whether the modules of these bases are those of the table.
fn are_spanned<L: Ledger>(
    alloc: Global,
    bases: &[MatBasis],
    table: &[Case],
    steps: &mut Steps<L>,
) -> Result<bool, Memory> {
    for (at, rows) in table {
        match bases.get(*at) {
            Some(basis) if is_reduced(alloc, basis, rows, steps)? => {}
            _ => return Ok(false),
        }
    }
    Ok(true)
}

/// Which bases of a program are asked for.
#[derive(Clone, Copy)]
enum Asked {
    Levels,
    Exits,
}

fn has_bases<L: Ledger>(
    alloc: Global,
    program: &Program,
    asked: Asked,
    table: &[Case],
    steps: &mut Steps<L>,
) -> Result<bool, Memory> {
    if !well_formed(program) {
        return Ok(false);
    }
    match asked {
        Asked::Levels => {
            let summaries = summaries(alloc, program, steps)?;
            are_spanned(alloc, summaries.levels(), table, steps)
        }
        Asked::Exits => {
            let exits = exits(alloc, program, steps)?;
            are_spanned(alloc, exits.bases(), table, steps)
        }
    }
}

fn bases_are<L: Ledger>(
    alloc: Global,
    plan: &Plan,
    asked: Asked,
    table: &[Case],
    blank: Blank,
) -> Result<bool, Memory>
    requires name { blank.name ≡ L.name }
    requires parts { blank.parts ≡ L.parts }
    requires some { 0 < blank.parts }
{
    let mut steps = Steps::<L>::new(blank);
    match program(alloc, plan) {
        Ok(program) => has_bases(alloc, &program, asked, table, &mut steps),
        Err(_) => Err(Memory),
    }
}

/// Whether these are the bases of a small program at the nodes and procedures of the table.
fn are_found(alloc: Global, plan: &Plan, asked: Asked, table: &[Case]) -> bool {
    bases_are::<Brand>(alloc, plan, asked, table, Blank::new(1)) == Ok(true)
}

#[test]
fn levels_by_hand(rt: HostRuntime) {
    let alloc = rt.alloc();
    assert!(rt; are_found(alloc, &LOOP, Asked::Levels, &LOOP_LEVELS));
    assert!(rt; are_found(alloc, &RECURSION, Asked::Levels, &RECURSION_LEVELS));
}

#[test]
fn exits_by_hand(rt: HostRuntime) {
    let alloc = rt.alloc();
    assert!(rt; are_found(alloc, &MUTUAL, Asked::Exits, &MUTUAL_EXITS));
    assert!(rt; are_found(alloc, &ENDLESS, Asked::Exits, &ENDLESS_EXITS));
}
