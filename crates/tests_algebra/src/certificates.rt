//! Certificates of small summaries.

ghost use Rattle.std.specs.Prelude.{◌≡◌, ◌<◌};

use abi_cert::{Cert, certificate};
use lead_basis::{Memory, Steps};
use map_modules::{MatBasis, after_affine, identity};
use std::alloc::Global;
use std::marker::Brand;
use std::sync::ledger::{Blank, Ledger};
use word_rows::Row;

/// Summaries whose maps leave position 0, and add each of these words to position 1; the certificates of both positions.
const SUMMARIES: [(&[u64], Cert, Cert); 4] = [
    (&[], Cert::NeverReturns, Cert::NeverReturns),
    (&[0], Cert::Granted, Cert::Granted),
    (&[8], Cert::Granted, Cert::Broken),
    (&[0, 1 << 63], Cert::Granted, Cert::Broken),
];

fn summary<L: Ledger>(
    alloc: Global,
    added: &[u64],
    steps: &mut Steps<L>,
) -> Result<MatBasis, Memory> {
    let mut summary = MatBasis::new(alloc);
    for word in added {
        let row = Row::zero().with(1, 1).with(16, *word);
        summary.insert(after_affine(&identity(2), 1, &row), steps)?;
    }
    Ok(summary)
}

fn are_certified<L: Ledger>(alloc: Global, blank: Blank) -> Result<bool, Memory>
    requires name { blank.name ≡ L.name }
    requires parts { blank.parts ≡ L.parts }
    requires some { 0 < blank.parts }
{
    let mut steps = Steps::<L>::new(blank);
    for (added, first, second) in SUMMARIES.iter() {
        let summary = summary(alloc, added, &mut steps)?;
        if certificate(&summary, 0) != *first || certificate(&summary, 1) != *second {
            return Ok(false);
        }
    }
    Ok(true)
}

#[test]
fn certificates_of_small_summaries(rt: HostRuntime) {
    assert!(rt; are_certified::<Brand>(rt.alloc(), Blank::new(1)) == Ok(true));
}
