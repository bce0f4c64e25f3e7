//! How many registers of each verdict there are.

ghost use Rattle.std.specs.Prelude.{◌≡◌};
ghost use Rattle.abi_lines.specs.Tallies.{more, with_verdict, with_findings, tally_of};

use crate::tally::Tally;
use abi_routines::{Finding, Routine};
use abi_verdicts::Verdict;

/// The tally of some routines.
pub fn tally_of(routines: &[Routine]) -> Tally
    ensures { result ≡ tally_of routines.now }
{
    let mut tally = Tally {
        kept: 0,
        clobbered: 0,
        unknown: 0,
        never: 0,
    };
    for routine in routines {
        tally = with_findings(tally, routine.findings.as_slice());
    }
    tally
}

/// The tally with some findings more.
pub fn with_findings(tally: Tally, found: &[Finding]) -> Tally
    ensures { result ≡ with_findings tally found.now }
{
    let mut all = tally;
    for one in found {
        all = with_verdict(all, one.verdict);
    }
    all
}

/// One more; 2^64 - 1 stays.
pub fn more(n: u64) -> u64
    ensures { result ≡ more n }
{
    if n < u64::MAX { n + 1 } else { n }
}

fn with_verdict(tally: Tally, verdict: Verdict) -> Tally
    ensures { result ≡ with_verdict tally verdict }
{
    let Tally {
        kept,
        clobbered,
        unknown,
        never,
    } = tally;
    match verdict {
        Verdict::Kept => Tally {
            kept: more(kept),
            clobbered,
            unknown,
            never,
        },
        Verdict::Never => Tally {
            kept,
            clobbered,
            unknown,
            never: more(never),
        },
        Verdict::Clobbered(_) => Tally {
            kept,
            clobbered: more(clobbered),
            unknown,
            never,
        },
        Verdict::Unknown(_) => Tally {
            kept,
            clobbered,
            unknown: more(unknown),
            never,
        },
    }
}
