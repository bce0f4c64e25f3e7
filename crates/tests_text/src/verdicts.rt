//! The text of a verdict.

use run_watch::{Found, RunStop, RunVerdict};
use sqlite_items::Items;
use std::alloc::{AllocError, Global};
use verdict_text::{has_found, write_verdict};

/// What the four watches found.
const FOUND: [Option<Found>; 4] = [
    Some(Found {
        index: 3,
        address: 0x1_007c,
        detail: 0,
    }),
    None,
    None,
    Some(Found {
        index: 12,
        address: 0x1_0080,
        detail: 0x1_0084,
    }),
];

const TEXT: &str =
    "affine-run 1\nsteps 7\nstop break 0x10084\nfound 1 step 3 at 0x1007c detail 0x0\nfound 4 step 12 at 0x10080 detail 0x10084\nend\n";

fn is_written(alloc: Global) -> Result<bool, AllocError> {
    let verdict = RunVerdict {
        steps: 7,
        stop: RunStop::Break(0x1_0084),
        found: Items::from_slice(alloc, &FOUND)?,
    };
    Ok(write_verdict(alloc, &verdict)?.as_slice() == TEXT.as_bytes())
}

#[test]
fn a_finding_of_each_kind(rt: HostRuntime) {
    assert!(rt; is_written(rt.alloc()) == Ok(true));
    assert!(rt; has_found(&FOUND));
}
