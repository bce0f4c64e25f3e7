//! Runs against whole reports, and a watch of another kind behind the four: how many records it sees, and that it changes
//! nothing of what the four find.

use crate::runs::{Given, Watches, answer, run_given, tells};
use run_watch::{RunRefusal, RunStop};
use std::alloc::Global;

/// addi a0,zero,0; addi a0,a0,8; bne a0,a1,-4; ebreak
const COUNTING: [u32; 4] = [0x00000513, 0x00850513, 0xfeb51ee3, 0x00100073];

const COUNTING_REPORT: &str =
    "affine-report 2\ntrack a0\nproc 0x10078\nat 0x10078\nnone\nat 0x1007c\nrel 2305843009213693952*a0\nat 0x10080\nrel 2305843009213693952*a0\nat 0x10084\nrel 2305843009213693952*a0\nend\n";

const WRONG_REPORT: &str =
    "affine-report 1\ntrack a0\nproc 0x10078\nat 0x10078\nnone\nat 0x1007c\nrel 1*a0\nend\n";

/// jal ra,8; ebreak; addi sp,sp,-16; sd ra,8(sp); sd zero,0(a0); ld ra,8(sp); addi sp,sp,16; ret
const STRAY_STORE: [u32; 8] = [
    0x008000ef, 0x00100073, 0xff010113, 0x00113423, 0x00053023, 0x00813083, 0x01010113, 0x00008067,
];

const STRAY_REPORT: &str =
    "affine-report 1\ntrack sp,ra,0x10080:-8\nproc 0x10078\nat 0x10078\nnone\nat 0x1007c\nrel 1*ra -65660\nproc 0x10080\nat 0x10080\nrel 1*ra -65660\nat 0x10084\nrel 1*ra -65660\nat 0x10088\nrel 1*ra -65660\nrel 1*0x10080:-8 -65660\nat 0x1008c\nrel 1*ra -65660\nrel 1*0x10080:-8 -65660\nat 0x10090\nrel 1*ra -65660\nrel 1*0x10080:-8 -65660\nat 0x10094\nrel 1*ra -65660\nrel 1*0x10080:-8 -65660\nend\n";

/// A run, what it is given, its steps and its stop, and the indices that the five watches tell.
struct Seen {
    words: &'static [u32],
    given: Given<'static>,
    steps: u64,
    stop: RunStop,
    indices: [Option<u64>; 5],
}

const COUNTED: Given<'static> = Given {
    report: COUNTING_REPORT,
    sp: 0,
    a0: 0,
    a1: 24,
    steps: 100,
    which: Watches::Five,
};

const SEEN: [Seen; 4] = [
    Seen {
        words: &COUNTING,
        given: COUNTED,
        steps: 7,
        stop: RunStop::Break(0x1_0084),
        indices: [None, None, None, None, Some(8)],
    },
    Seen {
        words: &COUNTING,
        given: Given {
            report: WRONG_REPORT,
            ..COUNTED
        },
        steps: 7,
        stop: RunStop::Break(0x1_0084),
        indices: [Some(3), None, None, None, Some(8)],
    },
    Seen {
        words: &COUNTING,
        given: Given {
            steps: 0,
            ..COUNTED
        },
        steps: 0,
        stop: RunStop::Budget,
        indices: [None, None, None, None, Some(1)],
    },
    Seen {
        words: &STRAY_STORE,
        given: Given {
            report: STRAY_REPORT,
            sp: 0x2_0000,
            a0: 0x1_fff8,
            ..COUNTED
        },
        steps: 7,
        stop: RunStop::Left(0),
        indices: [Some(4), Some(3), Some(6), None, Some(7)],
    },
];

fn all_are_seen(alloc: Global, cases: &[Seen]) -> bool {
    for case in cases.iter() {
        if !is_seen_so(alloc, case) {
            return false;
        }
    }
    true
}

fn is_seen_so(alloc: Global, case: &Seen) -> bool {
    if case.given.steps > 1000 {
        return false;
    }
    match run_given(alloc, case.words, &case.given) {
        Some(verdict) => tells(&verdict, case.steps, case.stop, &case.indices),
        None => false,
    }
}

/// The watch behind the four sees each record, and they find what they find without it.
#[test]
fn a_watch_of_another_kind(rt: HostRuntime) {
    assert!(rt; all_are_seen(rt.alloc(), &SEEN));
}

/// A report with a point that the file doesn't have is refused, and the watches are gone with it.
#[test]
fn watches_of_a_refused_run(rt: HostRuntime) {
    let given = Given {
        report: "affine-report 1\ntrack a0\nproc 0x10078\nat 0x10090\nnone\nend\n",
        ..COUNTED
    };
    let refusal = answer(rt.alloc(), &COUNTING, &given);
    assert!(rt; matches!(refusal, Some(Err(RunRefusal::NotAPoint(0x1_0090)))));
}
