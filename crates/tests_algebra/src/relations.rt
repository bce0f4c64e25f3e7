//! Relations between two registers, at positions 0 and 1, and the constant.

ghost use Rattle.std.specs.Prelude.{◌≡◌, IsTrue, ◌<◌};
ghost use Rattle.row_modules.specs.Positions.{has};

use crate::laws::AllRows;
use crate::small_programs::row;
use lead_basis::{Basis, Memory, Steps};
use relation_solver::{Relations, relations_follow_states, solve};
use std::alloc::Global;
use std::marker::Brand;
use std::sync::ledger::{Blank, Ledger};

/// Rows that span a module, and its relations; there are none where it isn't reached.
type Case = (&'static [[u64; 3]], &'static [[u64; 3]]);

const HALF: u64 = 1 << 63;

/// Where the first register is visible.
const ONE: [Case; 4] = [
    (&[], &[]),
    (&[[0, 0, 1]], &[[1, 0, 0]]),
    (&[[8, 0, 0], [0, 0, 1]], &[[2305843009213693952, 0, 0]]),
    (&[[HALF, 0, 0], [0, 0, 1]], &[[2, 0, 0]]),
];

/// Where both are.
const TWO: [Case; 3] = [
    (&[[0, 0, 1], [1, 2, 0]], &[[2, HALF - 1, 0], [0, HALF, 0]]),
    (&[[0, 0, 1], [1, 3, 0]], &[[1, 6148914691236517205, 0]]),
    (&[[1, u64::MAX, 0], [0, u64::MAX, 1]], &[[1, 1, 1]]),
];

/// Whether these are the rows.
fn has_rows(basis: &Basis<17>, expected: &[[u64; 3]]) -> bool {
    let rows = basis.rows();
    for (i, words) in expected.iter().enumerate() {
        if rows.get(i) != Some(&row(*words)) {
            return false;
        }
    }
    rows.len() == expected.len()
}

/// Whether the relations of the module of these rows are the expected ones.
fn gives<L: Ledger>(
    alloc: Global,
    steps: &mut Steps<L>,
    visible: u32,
    case: &Case,
) -> Result<bool, Memory>
    requires { IsTrue (has visible 16) }
{
    let (module, expected) = case;
    let mut basis = Basis::<17>::new(alloc);
    for words in module.iter() {
        basis.insert(row(*words), steps)?;
    }
    match solve::relations(alloc, &basis, visible)? {
        Relations::Unreached => Ok(expected.is_empty()),
        Relations::Rows(rows) => Ok(has_rows(&rows, expected)),
    }
}

fn are_given<L: Ledger>(
    alloc: Global,
    visible: u32,
    table: &[Case],
    blank: Blank,
) -> Result<bool, Memory>
    requires name { blank.name ≡ L.name }
    requires parts { blank.parts ≡ L.parts }
    requires some { 0 < blank.parts }
    requires constant { IsTrue (has visible 16) }
{
    let mut steps = Steps::<L>::new(blank);
    for case in table {
        if !gives(alloc, &mut steps, visible, case)? {
            return Ok(false);
        }
    }
    Ok(true)
}

#[test]
fn tables_of_relations(rt: HostRuntime) {
    relations_follow_states::<AllRows>();
    assert!(rt; are_given::<Brand>(rt.alloc(), 0x10001, &ONE, Blank::new(1)) == Ok(true));
    assert!(rt; are_given::<Brand>(rt.alloc(), 0x10003, &TWO, Blank::new(1)) == Ok(true));
}
