//! Relations modulo 2^32 between two registers, at positions 0 and 1, and the constant.

ghost use Rattle.std.specs.Prelude.{◌≡◌, IsTrue, ◌<◌};
ghost use Rattle.row_modules.specs.Positions.{has};

use crate::laws::AllRows;
use crate::small_programs::row;
use lead_basis::{Basis, Memory, Steps};
use narrow_solver::{narrow_answers_are_one, narrow_relations_follow_states, solve};
use report_text::PointState;
use std::alloc::Global;
use std::marker::Brand;
use std::sync::ledger::{Blank, Ledger};
use word_rows::Row;

/// Rows that span a module, and its narrow relations; there are none where each member is 0 modulo 2^32.
type Case = (&'static [[u64; 3]], &'static [[u64; 3]]);

/// Where the first register is visible: no state; all states; words that are multiples of 2^63, of 2^31 and of 8; and a module
/// that isn't zero, but is modulo 2^32.
const ONE: [Case; 6] = [
    (&[], &[]),
    (&[[0, 0, 1]], &[[1, 0, 0]]),
    (&[[1 << 63, 0, 0], [0, 0, 1]], &[[1, 0, 0]]),
    (&[[1 << 31, 0, 0], [0, 0, 1]], &[[2, 0, 0]]),
    (&[[8, 0, 0], [0, 0, 1]], &[[1 << 29, 0, 0]]),
    (&[[1 << 32, 0, 0]], &[]),
];

/// Where both are: the second is 2^31 times the first; it is the first and 1.
const TWO: [Case; 2] = [
    (&[[0, 0, 1], [1, 1 << 31, 0]], &[[1 << 31, 1, 0], [0, 2, 0]]),
    (&[[0, 1, 1], [1, 1, 0]], &[[1, 4294967295, 1]]),
];

/// Whether these are the rows.
fn has_rows(rows: &[Row<17>], expected: &[[u64; 3]]) -> bool {
    for (i, words) in expected.iter().enumerate() {
        if rows.get(i) != Some(&row(*words)) {
            return false;
        }
    }
    rows.len() == expected.len()
}

/// Whether the narrow relations of the module of these rows are the expected ones.
fn gives<L: Ledger>(
    alloc: Global,
    steps: &mut Steps<L>,
    visible: u32,
    case: &Case,
) -> Result<bool, Memory>
    requires { IsTrue (has visible 16) }
{
    let (module, expected) = case;
    let mut basis = Basis::<17>::new(alloc);
    for words in module.iter() {
        basis.insert(row(*words), steps)?;
    }
    match solve::narrow_relations(alloc, &basis, visible)? {
        PointState::Unreached => Ok(expected.is_empty()),
        PointState::Rows(rows) => Ok(has_rows(rows.as_slice(), expected)),
    }
}

fn are_given<L: Ledger>(
    alloc: Global,
    visible: u32,
    table: &[Case],
    blank: Blank,
) -> Result<bool, Memory>
    requires name { blank.name ≡ L.name }
    requires parts { blank.parts ≡ L.parts }
    requires some { 0 < blank.parts }
    requires constant { IsTrue (has visible 16) }
{
    let mut steps = Steps::<L>::new(blank);
    for case in table {
        if !gives(alloc, &mut steps, visible, case)? {
            return Ok(false);
        }
    }
    Ok(true)
}

#[test]
fn tables_of_narrow_relations(rt: HostRuntime) {
    narrow_answers_are_one::<AllRows>();
    narrow_relations_follow_states::<AllRows>();
    assert!(rt; are_given::<Brand>(rt.alloc(), 0x10001, &ONE, Blank::new(1)) == Ok(true));
    assert!(rt; are_given::<Brand>(rt.alloc(), 0x10003, &TWO, Blank::new(1)) == Ok(true));
}
