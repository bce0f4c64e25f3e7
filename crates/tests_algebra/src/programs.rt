//! Whether programs are well formed: a loop in one procedure, a call of a procedure with a slot, and a procedure with a slot
//! that calls itself, where each change breaks one rule. And the maps of their level paths.

use crate::small_programs::{
    EdgePlan, LOOP, MapWords, Plan, Put, RECURSION, Words, edge, map, program, row,
};
use affine_prog::*;
use map_modules::{Mat, after_affine, apply, extend_call, identity, product};
use std::alloc::{AllocError, Global};

/// Procedure 0 calls procedure 1, which puts any word in its slot at position 1 and then a0 into it.
const CALL: Plan = Plan {
    width: 2,
    registers: 0b01,
    procs: &[
        Proc {
            entry: 0,
            exit: 1,
            slots: 0,
        },
        Proc {
            entry: 2,
            exit: 3,
            slots: 0b10,
        },
    ],
    nodes: 4,
    owners: &[0, 0, 1, 1],
    edges: &[
        EdgePlan::Call(0, 1, &[Put::Any(0)], 1),
        EdgePlan::Do(2, 3, &[Put::Any(1), Put::Words(1, [1, 0, 0])]),
    ],
    start: 0,
};

/// As the recursion, but what is taken back is added to a0.
const ADDING: Plan = Plan {
    edges: &[
        EdgePlan::Call(0, 1, &[], 1),
        EdgePlan::Do(2, 3, &[Put::Words(1, [1, 0, 0])]),
        EdgePlan::Do(3, 4, &[]),
        EdgePlan::Call(3, 4, &[Put::Words(0, [1, 0, 8])], 1),
        EdgePlan::Do(4, 5, &[Put::Words(0, [1, 1, 0])]),
    ],
    ..RECURSION
};

/// Too many names, none, a node that has no procedure, no such procedure to start with; a register that is a slot, a
/// procedure that isn't there, an exit of another procedure.
const BROKEN: [Plan; 7] = [
    Plan { width: 17, ..LOOP },
    Plan { width: 0, ..LOOP },
    Plan { nodes: 6, ..LOOP },
    Plan { start: 1, ..LOOP },
    Plan {
        registers: 0b11,
        ..CALL
    },
    Plan {
        nodes: 5,
        owners: &[0, 0, 1, 1, 2],
        ..CALL
    },
    Plan {
        procs: &[
            Proc {
                entry: 0,
                exit: 1,
                slots: 0,
            },
            Proc {
                entry: 2,
                exit: 1,
                slots: 0b10,
            },
        ],
        ..CALL
    },
];

/// Edges that the call may not have: into another procedure, to no node, one that writes a slot of another procedure, one
/// that reads it, and one that calls no procedure.
const BREAKING: [EdgePlan; 5] = [
    EdgePlan::Do(0, 3, &[]),
    EdgePlan::Do(0, 4, &[]),
    EdgePlan::Do(0, 1, &[Put::Any(1)]),
    EdgePlan::Do(0, 1, &[Put::Words(0, [0, 1, 0])]),
    EdgePlan::Call(0, 1, &[], 2),
];

fn owners_are_told(alloc: Global) -> Result<bool, AllocError> {
    let program = program(alloc, &CALL)?;
    Ok(
        well_formed(&program)
            && program.nodes == 4
            && program.proc_of(1) == 0
            && program.proc_of(2) == 1,
    )
}

fn is_formed(alloc: Global, plan: &Plan) -> Result<bool, AllocError> {
    Ok(well_formed(&program(alloc, plan)?))
}

fn broken_plans_are_seen(alloc: Global) -> Result<bool, AllocError> {
    for plan in BROKEN.iter() {
        if is_formed(alloc, plan)? {
            return Ok(false);
        }
    }
    Ok(true)
}

/// Whether a program is well formed with one more edge.
fn is_formed_with(
    alloc: Global,
    program: &mut Program,
    plan: &EdgePlan,
) -> Result<bool, AllocError> {
    program.edges.push(edge(alloc, plan)?)?;
    Ok(well_formed(program))
}

fn breaking_edges_are_seen(alloc: Global) -> Result<bool, AllocError> {
    for plan in BREAKING.iter() {
        let mut program = program(alloc, &CALL)?;
        if is_formed_with(alloc, &mut program, plan)? {
            return Ok(false);
        }
    }
    Ok(true)
}

#[test]
fn small_programs_are_well_formed(rt: HostRuntime) {
    assert!(rt; is_formed(rt.alloc(), &LOOP) == Ok(true));
    assert!(rt; owners_are_told(rt.alloc()) == Ok(true));
}

#[test]
fn each_broken_rule_is_seen(rt: HostRuntime) {
    assert!(rt; broken_plans_are_seen(rt.alloc()) == Ok(true));
    assert!(rt; breaking_edges_are_seen(rt.alloc()) == Ok(true));
}

/// The matrix of a list of affine assignments; none where it isn't one.
fn matrix_of(assigns: &[Assign]) -> Option<Mat> {
    let mut m = identity(16);
    for assign in assigns {
        match assign {
            Assign::Affine(i, row) if *i < 16 => {
                m = product(&after_affine(&identity(16), *i as usize, row), &m);
            }
            _ => return None,
        }
    }
    Some(m)
}

/// The map of the level path along these edges after the opening's map m, in which each call has the callee's map; none
/// where they don't go on from one another. Position 0 is the register and position 1 the slot.
fn along(program: &Program, p: usize, m: &Mat, edges: &[usize], callee: &Mat) -> Option<Mat> {
    let mut at = program.procs.get(p)?.entry;
    let mut map = *m;
    for k in edges {
        let next = program.edges.get(*k)?;
        if next.from != at {
            return None;
        }
        at = next.to;
        map = match &next.kind {
            Kind::Do(assigns) => product(&matrix_of(assigns.as_slice())?, &map),
            Kind::Call { before, .. } => {
                let called = product(&matrix_of(before.as_slice())?, &map);
                product(&extend_call(callee, 0b01, 0b10), &called)
            }
        };
    }
    Some(map)
}

/// Edges of the loop's path, what becomes of a0, and that from 5.
const ROUNDS: [(&[usize], Words, u64); 5] = [
    (&[], [1, 0, 0], 5),
    (&[0], [0, 0, 0], 0),
    (&[0, 1], [0, 0, 8], 8),
    (&[0, 1, 3], [0, 0, 8], 8),
    (&[0, 1, 3, 1], [0, 0, 16], 16),
];

fn rounds_have_their_maps(alloc: Global) -> Result<bool, AllocError> {
    let program = program(alloc, &LOOP)?;
    for (edges, a0, from_5) in ROUNDS.iter() {
        let expected = map((*a0, [0, 0, 0], 1));
        let path = along(&program, 0, &identity(1), edges, &Mat::zero());
        if path != Some(expected) || apply(&expected, &row([5, 9, 1])) != row([*from_5, 0, 1]) {
            return Ok(false);
        }
    }
    Ok(true)
}

#[test]
fn rounds_of_a_loop_have_these_maps(rt: HostRuntime) {
    assert!(rt; rounds_have_their_maps(rt.alloc()) == Ok(true));
}

/// For a depth of calls the edge between, a0 before the last assignment, a0 at the exit, and that from 5.
type Depth = (usize, Words, Words, u64);

const DEPTHS: [Depth; 3] = [
    (2, [1, 0, 0], [1, 0, 0], 5),
    (3, [1, 0, 8], [1, 0, 0], 5),
    (3, [1, 0, 8], [1, 0, 0], 5),
];

const ADDING_DEPTHS: [Depth; 3] = [
    (2, [1, 0, 0], [2, 0, 0], 10),
    (3, [2, 0, 16], [3, 0, 16], 31),
    (3, [3, 0, 40], [4, 0, 40], 60),
];

/// What becomes of the slot at the opening, where it has the word 7.
const OPENED: MapWords = ([1, 0, 0], [0, 0, 7], 1);

/// The map that makes this of a0 and keeps it in the slot.
fn kept(a0: Words) -> Mat {
    map((a0, [1, 0, 0], 1))
}

fn depth_has_its_maps(program: &Program, depth: &Depth, callee: &Mat) -> bool {
    let (between, inside, exit, from_5) = depth;
    let opening = map(OPENED);
    let path = along(program, 1, &opening, &[1, *between], callee);
    let whole = along(program, 1, &opening, &[1, *between, 4], callee);
    let image = apply(&kept(*exit), &row([5, 9, 1]));
    path == Some(kept(*inside)) && whole == Some(kept(*exit)) && image == row([*from_5, 5, 1])
}

/// Whether the maps of each depth are those of its row, where the depth before is called.
fn depths_have_their_maps(
    alloc: Global,
    plan: &Plan,
    depths: &[Depth],
) -> Result<bool, AllocError> {
    let program = program(alloc, plan)?;
    if !well_formed(&program) {
        return Ok(false);
    }
    let mut callee = Mat::zero();
    for depth in depths {
        if !depth_has_its_maps(&program, depth, &callee) {
            return Ok(false);
        }
        callee = kept(depth.2);
    }
    Ok(true)
}

#[test]
fn recursion_has_these_maps_at_each_depth(rt: HostRuntime) {
    assert!(rt; after_affine(&identity(1), 1, &row([0, 0, 7])) == map(OPENED));
    assert!(rt; depths_have_their_maps(rt.alloc(), &RECURSION, &DEPTHS) == Ok(true));
    assert!(rt; depths_have_their_maps(rt.alloc(), &ADDING, &ADDING_DEPTHS) == Ok(true));
}

#[test]
fn laws_run_nothing() {
    steps_are_affine_in_choices();
    calls_are_bilinear();
    openings_are_affine();
    paths_keep_states();
    paths_end_at_nodes();
    paths_use_few_positions();
    starts_are_spanned();
    relations_annihilate_states();
}
