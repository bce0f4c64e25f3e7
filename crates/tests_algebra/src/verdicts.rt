//! Verdicts on what proofs claim of small programs: all as it should be, and with one row changed.

ghost use Rattle.std.specs.Prelude.{◌≡◌, ◌<◌};

use crate::small_programs::{EdgePlan, LOOP, MapWords, Plan, Put, Words, map, program, row};
use affine_prog::{Proc, Program, well_formed};
use block_program::contract;
use lead_basis::{Basis, Memory, Steps};
use map_modules::MatBasis;
use proof_verify::{Breach, Claim, first_breach};
use sqlite_items::Items;
use std::alloc::Global;
use std::marker::Brand;
use std::sync::ledger::{Blank, Ledger};

/// a0 := 5, and no way to the exit.
const FIVE: Plan = Plan {
    width: 1,
    registers: 1,
    procs: &[Proc {
        entry: 0,
        exit: 2,
        slots: 0,
    }],
    nodes: 3,
    owners: &[0; 3],
    edges: &[EdgePlan::Do(0, 1, &[Put::Words(0, [0, 0, 5])])],
    start: 0,
};

/// a0 := any word.
const ANY: Plan = Plan {
    width: 1,
    registers: 1,
    procs: &[Proc {
        entry: 0,
        exit: 1,
        slots: 0,
    }],
    nodes: 2,
    owners: &[0; 2],
    edges: &[EdgePlan::Do(0, 1, &[Put::Any(0)])],
    start: 0,
};

/// Procedure 0 calls procedure 1 with a0 = 7, which adds 8.
const CALL: Plan = Plan {
    width: 1,
    registers: 1,
    procs: &[
        Proc {
            entry: 0,
            exit: 1,
            slots: 0,
        },
        Proc {
            entry: 2,
            exit: 3,
            slots: 0,
        },
    ],
    nodes: 4,
    owners: &[0, 0, 1, 1],
    edges: &[
        EdgePlan::Call(0, 1, &[Put::Words(0, [0, 0, 7])], 1),
        EdgePlan::Do(2, 3, &[Put::Words(0, [1, 0, 8])]),
    ],
    start: 0,
};

/// What a proof claims: rows for heads, rows for procedures, and a row at a node.
type Proof = (
    &'static [&'static [MapWords]],
    &'static [&'static [Words]],
    (u32, Words),
);

const NO_SLOT: Words = [0, 0, 0];
/// The map that leaves a0 as it was.
const SAME: MapWords = ([1, 0, 0], NO_SLOT, 1);
/// The maps that make a0 that word.
const ZERO: MapWords = ([0, 0, 0], NO_SLOT, 1);

const FIFTEEN: MapWords = ([0, 0, 15], NO_SLOT, 1);
/// What 8 more, or 1 more, adds to a map.
const BY_EIGHT: MapWords = ([0, 0, 8], NO_SLOT, 0);

const BY_ONE: MapWords = ([0, 0, 1], NO_SLOT, 0);
/// The map that adds 8 to a0.
const EIGHT_MORE: MapWords = ([1, 0, 8], NO_SLOT, 1);

/// Any word in a0, and the constant.
const STARTS: &[Words] = &[[1, 0, 0], [0, 0, 1]];

const MINUS_4: u64 = 0xffff_ffff_ffff_fffc;

const MINUS_5: u64 = 0xffff_ffff_ffff_fffb;

const MINUS_7: u64 = 0xffff_ffff_ffff_fff9;

const MINUS_8: u64 = 0xffff_ffff_ffff_fff8;

const MINUS_15: u64 = 0xffff_ffff_ffff_fff1;

const OF_FIVE: [(Proof, Option<Breach>); 6] = [
    ((&[&[SAME], &[]], &[STARTS], (1, [1, 0, MINUS_5])), None),
    ((&[&[SAME], &[]], &[STARTS], (1, [3, 0, MINUS_15])), None),
    (
        (&[&[SAME], &[]], &[STARTS], (1, [1, 0, MINUS_4])),
        Some(Breach::Claimed(0)),
    ),
    (
        (&[&[], &[]], &[STARTS], (1, [1, 0, MINUS_5])),
        Some(Breach::Opening(0)),
    ),
    (
        (&[&[SAME], &[]], &[&[[0, 0, 1]]], (1, [1, 0, MINUS_5])),
        Some(Breach::Start),
    ),
    ((&[&[SAME], &[]], &[STARTS], (2, [0, 0, 1])), None),
];

const OF_LOOPS: [(Proof, Option<Breach>); 2] = [
    (
        (
            &[&[SAME], &[ZERO, BY_EIGHT], &[ZERO, BY_EIGHT], &[]],
            &[STARTS],
            (2, [1 << 61, 0, 0]),
        ),
        None,
    ),
    (
        (
            &[&[SAME], &[ZERO], &[ZERO, BY_EIGHT], &[]],
            &[STARTS],
            (2, [1 << 61, 0, 0]),
        ),
        Some(Breach::Step(2)),
    ),
];

const OF_ANY: [(Proof, Option<Breach>); 2] = [
    (
        (&[&[SAME], &[ZERO, BY_ONE]], &[STARTS], (1, [0, 0, 0])),
        None,
    ),
    (
        (&[&[SAME], &[ZERO]], &[STARTS], (1, [0, 0, 0])),
        Some(Breach::Step(0)),
    ),
];

const OF_CALLS: [(Proof, Option<Breach>); 6] = [
    (
        (
            &[&[SAME], &[FIFTEEN], &[SAME], &[EIGHT_MORE]],
            &[STARTS, &[[7, 0, 1]]],
            (2, [1, 0, MINUS_7]),
        ),
        None,
    ),
    (
        (
            &[&[SAME], &[FIFTEEN], &[SAME], &[EIGHT_MORE]],
            &[STARTS, &[[7, 0, 1]]],
            (1, [1, 0, MINUS_15]),
        ),
        None,
    ),
    (
        (
            &[&[SAME], &[], &[SAME], &[EIGHT_MORE]],
            &[STARTS, &[[7, 0, 1]]],
            (2, [1, 0, MINUS_7]),
        ),
        Some(Breach::Call(0)),
    ),
    (
        (
            &[&[SAME], &[FIFTEEN], &[SAME], &[]],
            &[STARTS, &[[7, 0, 1]]],
            (2, [1, 0, MINUS_7]),
        ),
        Some(Breach::Step(1)),
    ),
    (
        (
            &[&[SAME], &[FIFTEEN], &[SAME], &[EIGHT_MORE]],
            &[STARTS, &[[8, 0, 1]]],
            (2, [1, 0, MINUS_8]),
        ),
        Some(Breach::Entry(0)),
    ),
    (
        (
            &[&[SAME], &[FIFTEEN], &[SAME], &[EIGHT_MORE]],
            &[STARTS, &[[7, 0, 1]]],
            (2, [1, 0, MINUS_8]),
        ),
        Some(Breach::Claimed(0)),
    ),
];

fn level_basis<L: Ledger>(
    alloc: Global,
    rows: &[MapWords],
    steps: &mut Steps<L>,
) -> Result<MatBasis, Memory> {
    let mut basis = Basis::new(alloc);
    for words in rows {
        basis.insert(map(*words), steps)?;
    }
    Ok(basis)
}

fn levels_of<L: Ledger>(
    alloc: Global,
    lists: &[&[MapWords]],
    steps: &mut Steps<L>,
) -> Result<Vec<MatBasis>, Memory> {
    let mut levels = Vec::new(alloc);
    for rows in lists {
        let basis = level_basis(alloc, rows, steps)?;
        if levels.push(basis).is_err() {
            return Err(Memory);
        }
    }
    Ok(levels)
}

fn entry_basis<L: Ledger>(
    alloc: Global,
    rows: &[Words],
    steps: &mut Steps<L>,
) -> Result<Basis<17>, Memory> {
    let mut basis = Basis::new(alloc);
    for words in rows {
        basis.insert(row(*words), steps)?;
    }
    Ok(basis)
}

fn entries_of<L: Ledger>(
    alloc: Global,
    lists: &[&[Words]],
    steps: &mut Steps<L>,
) -> Result<Vec<Basis<17>>, Memory> {
    let mut entries = Vec::new(alloc);
    for rows in lists {
        let basis = entry_basis(alloc, rows, steps)?;
        if entries.push(basis).is_err() {
            return Err(Memory);
        }
    }
    Ok(entries)
}

fn claim_of(alloc: Global, node: u32, words: Words) -> Result<Claim, Memory> {
    let mut rows = Items::new(alloc);
    match rows.push(row(words)) {
        Ok(()) => Ok(Claim { node, rows }),
        Err(_) => Err(Memory),
    }
}

/// Whether bases and a claim have this verdict.
fn has_verdict<L: Ledger>(
    alloc: Global,
    program: &Program,
    levels: &[MatBasis],
    entries: &[Basis<17>],
    claim: Claim,
    first: Option<Breach>,
    steps: &mut Steps<L>,
) -> Result<bool, Memory> {
    if !well_formed(program)
        || claim.node >= program.nodes
        || entries.len() != program.procs.len()
    {
        return Ok(false);
    }
    let blocks = contract(alloc, program)?;
    if levels.len() != blocks.small().nodes as usize {
        return Ok(false);
    }
    let claims = [claim];
    let found = first_breach(alloc, program, &blocks, levels, entries, &claims, steps)?;
    Ok(found == first)
}

/// Whether a proof has this verdict.
fn is_told<L: Ledger>(
    alloc: Global,
    program: &Program,
    proof: &Proof,
    first: Option<Breach>,
    steps: &mut Steps<L>,
) -> Result<bool, Memory> {
    let (levels, entries, (node, words)) = *proof;
    let levels = levels_of(alloc, levels, steps)?;
    let entries = entries_of(alloc, entries, steps)?;
    let claim = claim_of(alloc, node, words)?;
    has_verdict(
        alloc,
        program,
        levels.as_slice(),
        entries.as_slice(),
        claim,
        first,
        steps,
    )
}

fn have_verdicts<L: Ledger>(
    alloc: Global,
    plan: &Plan,
    table: &[(Proof, Option<Breach>)],
    blank: Blank,
) -> Result<bool, Memory>
    requires name { blank.name ≡ L.name }
    requires parts { blank.parts ≡ L.parts }
    requires some { 0 < blank.parts }
{
    let mut steps = Steps::<L>::new(blank);
    let Ok(program) = program(alloc, plan) else {
        return Err(Memory);
    };
    for (proof, first) in table.iter() {
        if !is_told(alloc, &program, proof, *first, &mut steps)? {
            return Ok(false);
        }
    }
    Ok(true)
}

#[test]
fn one_row_changed_is_told(rt: HostRuntime) {
    let alloc = rt.alloc();
    assert!(rt; have_verdicts::<Brand>(alloc, &FIVE, &OF_FIVE, Blank::new(1)) == Ok(true));
}

#[test]
fn steps_under_simple_choices(rt: HostRuntime) {
    let alloc = rt.alloc();
    assert!(rt; have_verdicts::<Brand>(alloc, &LOOP, &OF_LOOPS, Blank::new(1)) == Ok(true));
    assert!(rt; have_verdicts::<Brand>(alloc, &ANY, &OF_ANY, Blank::new(1)) == Ok(true));
}

#[test]
fn calls_and_what_they_hand_over(rt: HostRuntime) {
    let alloc = rt.alloc();
    assert!(rt; have_verdicts::<Brand>(alloc, &CALL, &OF_CALLS, Blank::new(1)) == Ok(true));
}
