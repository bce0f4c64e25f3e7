//! States that reach the nodes of small programs, worked out by hand: a loop, and a procedure with a slot that calls itself.

ghost use Rattle.std.specs.Prelude.{◌≡◌, ◌<◌, length};

use crate::small_programs::{EdgePlan, Plan, Put, Words, program, row};
use affine_prog::{Proc, Program, well_formed};
use call_summaries::{exits, summaries};
use lead_basis::{Memory, Steps};
use reach_modules::Reach;
use reach_modules::solve::{reach, reach_by_exits};
use std::alloc::Global;
use std::marker::Brand;
use std::sync::ledger::{Blank, Ledger};

/// a0 := 0, and then a0 := a0 + 8 for ever.
const LOOP: Plan = Plan {
    width: 1,
    registers: 1,
    procs: &[Proc {
        entry: 0,
        exit: 2,
        slots: 0,
    }],
    nodes: 3,
    owners: &[0; 3],
    edges: &[
        EdgePlan::Do(0, 1, &[Put::Words(0, [0, 0, 0])]),
        EdgePlan::Do(1, 1, &[Put::Words(0, [1, 0, 8])]),
    ],
    start: 0,
};

/// Procedure 0 calls procedure 1 with a0 = 0, which puts a0 in its slot and calls itself with a0 + 8.
const RECURSION: Plan = Plan {
    width: 2,
    registers: 0b01,
    procs: &[
        Proc {
            entry: 0,
            exit: 2,
            slots: 0,
        },
        Proc {
            entry: 3,
            exit: 6,
            slots: 0b10,
        },
    ],
    nodes: 7,
    owners: &[0, 0, 0, 1, 1, 1, 1],
    edges: &[
        EdgePlan::Call(0, 1, &[Put::Words(0, [0, 0, 0])], 1),
        EdgePlan::Do(3, 4, &[Put::Words(1, [1, 0, 0])]),
        EdgePlan::Call(4, 5, &[Put::Words(0, [1, 0, 8])], 1),
    ],
    start: 0,
};

/// A node, rows that are in its module, and others that aren't.
type Case = (u32, &'static [Words], &'static [Words]);

const LOOP_BY_8: [Case; 3] = [
    (0, &[[1, 0, 0], [5, 0, 1]], &[[0, 1, 0]]),
    (
        1,
        &[[0, 0, 1], [8, 0, 1], [16, 0, 2]],
        &[[4, 0, 1], [1, 0, 0]],
    ),
    (2, &[[0, 0, 0]], &[[0, 0, 1]]),
];

const RECURSION_BY_8: [Case; 3] = [
    (
        3,
        &[[0, 0, 1], [8, 0, 1], [0, 1, 0]],
        &[[4, 0, 1], [1, 0, 0]],
    ),
    (
        4,
        &[[0, 0, 1], [8, 8, 0]],
        &[[8, 0, 0], [4, 4, 0], [0, 1, 0]],
    ),
    (5, &[], &[[0, 0, 1]]),
];

/// Whether each of the rows is in the module of a node, or whether none is.
fn are_members(reached: &Reach, node: u32, rows: &[Words], inside: bool) -> bool
    requires { node < length reached.now }
{
    for words in rows {
        if reached.at(node).member(&row(*words)) != inside {
            return false;
        }
    }
    true
}

/// Whether the nodes' modules are as the table says.
fn are_divided(reached: &Reach, nodes: u32, table: &[Case]) -> bool
    requires { length reached.now ≡ nodes }
{
    for (node, rows, others) in table {
        if *node >= nodes
            || !are_members(reached, *node, rows, true)
            || !are_members(reached, *node, others, false)
        {
            return false;
        }
    }
    true
}

/// Whether the states of a program are as the table says, where it is well formed.
fn reaches<L: Ledger>(
    alloc: Global,
    program: &Program,
    table: &[Case],
    steps: &mut Steps<L>,
) -> Result<bool, Memory> {
    if !well_formed(program) {
        return Ok(false);
    }
    let exits = exits(alloc, program, steps)?;
    let reached = reach_by_exits(alloc, program, exits.bases(), steps)?;
    Ok(are_divided(&reached, program.nodes, table))
}

fn are_reached<L: Ledger>(
    alloc: Global,
    plan: &Plan,
    table: &[Case],
    blank: Blank,
) -> Result<bool, Memory>
    requires name { blank.name ≡ L.name }
    requires parts { blank.parts ≡ L.parts }
    requires some { 0 < blank.parts }
{
    let mut steps = Steps::<L>::new(blank);
    match program(alloc, plan) {
        Ok(program) => reaches(alloc, &program, table, &mut steps),
        Err(_) => Err(Memory),
    }
}

fn reaches_by_levels<L: Ledger>(
    alloc: Global,
    plan: &Plan,
    table: &[Case],
    blank: Blank,
) -> Result<bool, Memory>
    requires name { blank.name ≡ L.name }
    requires parts { blank.parts ≡ L.parts }
    requires some { 0 < blank.parts }
{
    let Ok(program) = program(alloc, plan) else {
        return Err(Memory);
    };
    if !well_formed(&program) {
        return Ok(false);
    }
    let mut steps = Steps::<L>::new(blank);
    let summaries = summaries(alloc, &program, &mut steps)?;
    let reached = reach(alloc, &program, summaries.levels(), &mut steps)?;
    Ok(are_divided(&reached, program.nodes, table))
}

#[test]
fn states_that_reach_nodes(rt: HostRuntime) {
    let alloc = rt.alloc();
    assert!(rt; are_reached::<Brand>(alloc, &LOOP, &LOOP_BY_8, Blank::new(1)) == Ok(true));
    assert!(rt;
        are_reached::<Brand>(alloc, &RECURSION, &RECURSION_BY_8, Blank::new(1)) == Ok(true)
    );
}

#[test]
fn states_by_maps_at_each_node(rt: HostRuntime) {
    let alloc = rt.alloc();
    let blank = Blank::new(1);
    assert!(rt; reaches_by_levels::<Brand>(alloc, &RECURSION, &RECURSION_BY_8, blank) == Ok(true));
}
