//! How routines stand.

ghost use Rattle.std.specs.Prelude.{◌≡◌, IfOk};
ghost use Rattle.entry_tables.specs.Settling.{AreLined};
ghost use Rattle.abi_text.specs.Standings.{tally_in, is_clobbered, is_unknown, is_never, is_kept, more_if, with_standing, standings, same_fault, is_fault, has_fault, home, told_in, is_told_at, is_told_elsewhere, shows, is_shown, callee_why, callee_by, is_open, first_callee, is_by, is_against, all_by, alone, only_callee};

use crate::places::callee_at;
use abi_lines::{Tally, more, with_findings};
use abi_routines::{Finding, Routine};
use abi_verdicts::{Fault, Verdict, Why};
use elf_image::Image;
use entry_tables::Rows;
use std::alloc::{AllocError, Global};

const NO_TALLY: Tally = Tally {
    kept: 0,
    clobbered: 0,
    unknown: 0,
    never: 0,
};

/// How many registers of a routine there are of each verdict.
pub(crate) fn tally_in(found: &[Finding]) -> Tally
    ensures { result ≡ tally_in found.now }
{
    with_findings(NO_TALLY, found)
}

pub(crate) fn is_clobbered(tally: Tally) -> bool
    ensures { result ≡ is_clobbered tally }
{
    0 < tally.clobbered
}

pub(crate) fn is_unknown(tally: Tally) -> bool
    ensures { result ≡ is_unknown tally }
{
    tally.clobbered == 0 && 0 < tally.unknown
}

pub(crate) fn is_never(tally: Tally) -> bool
    ensures { result ≡ is_never tally }
{
    tally.clobbered == 0 && tally.unknown == 0 && 0 < tally.never
}

pub(crate) fn is_kept(tally: Tally) -> bool
    ensures { result ≡ is_kept tally }
{
    tally.clobbered == 0 && tally.unknown == 0 && tally.never == 0
}

fn more_if(some: bool, n: u64) -> u64
    ensures { result ≡ more_if some n }
{
    if some { more(n) } else { n }
}

fn with_standing(all: Tally, tally: Tally) -> Tally
    ensures { result ≡ with_standing all tally }
{
    Tally {
        kept: more_if(is_kept(tally), all.kept),
        clobbered: more_if(is_clobbered(tally), all.clobbered),
        unknown: more_if(is_unknown(tally), all.unknown),
        never: more_if(is_never(tally), all.never),
    }
}

/// How many routines are clobbered, unknown, never return, or are kept whole.
pub(crate) fn standings(routines: &[Routine]) -> Tally
    ensures { result ≡ standings routines.now }
{
    let mut all = NO_TALLY;
    for routine in routines {
        all = with_standing(all, tally_in(routine.findings.as_slice()));
    }
    all
}

fn same_fault(f: Fault, g: Fault) -> bool
    ensures { result ≡ same_fault f g }
{
    f.changed == g.changed && f.address == g.address
}

fn is_fault(fault: Fault, verdict: Verdict) -> bool
    ensures { result ≡ is_fault fault verdict }
{
    match verdict {
        Verdict::Clobbered(other) => same_fault(fault, other),
        _ => false,
    }
}

/// Whether the same fault is told of the same register.
pub(crate) fn has_fault(r: u8, fault: Fault, found: &[Finding]) -> bool
    ensures { result ≡ has_fault r fault found.now }
{
    for one in found {
        if one.register == r && is_fault(fault, one.verdict) {
            return true;
        }
    }
    false
}

fn home(a: u64, routines: &[Routine]) -> u64
    ensures { result ≡ home a 0 routines.now }
{
    let mut best = 0;
    for routine in routines {
        best = if best < routine.procedure && routine.procedure <= a {
            routine.procedure
        } else {
            best
        };
    }
    best
}

fn told_in(q: u64, r: u8, fault: Fault, routines: &[Routine]) -> bool
    ensures { result ≡ told_in q r fault routines.now }
{
    for routine in routines {
        if routine.procedure == q && has_fault(r, fault, routine.findings.as_slice()) {
            return true;
        }
    }
    false
}

fn is_told_at(q: u64, p: u64, r: u8, fault: Fault, routines: &[Routine]) -> bool
    ensures { result ≡ is_told_at q p r fault routines.now }
{
    q != p && told_in(q, r, fault, routines)
}

/// Whether a fault is told with the procedure that its change lies in.
pub(crate) fn is_told_elsewhere(routines: &[Routine], p: u64, r: u8, fault: Fault) -> bool
    ensures { result ≡ is_told_elsewhere routines.now p r fault }
{
    is_told_at(home(fault.changed, routines), p, r, fault, routines)
}

fn shows(routines: &[Routine], p: u64, r: u8, verdict: Verdict) -> bool
    ensures { result ≡ shows routines.now p r verdict }
{
    match verdict {
        Verdict::Clobbered(fault) => !is_told_elsewhere(routines, p, r, fault),
        _ => false,
    }
}

/// Whether some fault of a routine is told with itself.
pub(crate) fn is_shown(routines: &[Routine], found: &[Finding]) -> bool
    ensures { result ≡ is_shown routines.now found.now }
{
    for one in found {
        if shows(routines, one.procedure, one.register, one.verdict) {
            return true;
        }
    }
    false
}

fn callee_why(
    alloc: Global,
    image: &Image,
    rows: &Rows,
    p: u64,
    a: u64,
    why: Why,
) -> Result<Option<u64>, AllocError>
    requires { AreLined image.now rows.now.points }
    ensures { IfOk result (λ q. q ≡ callee_why image.now rows.now p a why) }
{
    match why {
        Why::Called(q) => Ok(Some(q)),
        Why::BehindCall => callee_at(alloc, image, rows, p, a),
        _ => Ok(None),
    }
}

fn callee_by(
    alloc: Global,
    image: &Image,
    rows: &Rows,
    p: u64,
    verdict: Verdict,
) -> Result<Option<u64>, AllocError>
    requires { AreLined image.now rows.now.points }
    ensures { IfOk result (λ q. q ≡ callee_by image.now rows.now p verdict) }
{
    match verdict {
        Verdict::Unknown(cause) => callee_why(alloc, image, rows, p, cause.address, cause.why),
        _ => Ok(None),
    }
}

fn is_open(verdict: Verdict) -> bool
    ensures { result ≡ is_open verdict }
{
    match verdict {
        Verdict::Unknown(_) => true,
        _ => false,
    }
}

fn first_callee(
    alloc: Global,
    image: &Image,
    rows: &Rows,
    found: &[Finding],
) -> Result<Option<u64>, AllocError>
    requires { AreLined image.now rows.now.points }
    ensures { IfOk result (λ q. q ≡ first_callee image.now rows.now found.now) }
{
    for one in found {
        if is_open(one.verdict) {
            return callee_by(alloc, image, rows, one.procedure, one.verdict);
        }
    }
    Ok(None)
}

fn is_by(q: u64, callee: Option<u64>) -> bool
    ensures { result ≡ is_by q callee }
{
    match callee {
        Some(c) => c == q,
        None => false,
    }
}

fn is_against(
    alloc: Global,
    image: &Image,
    rows: &Rows,
    q: u64,
    one: &Finding,
) -> Result<bool, AllocError>
    requires { AreLined image.now rows.now.points }
    ensures { IfOk result (λ b. b ≡ is_against image.now rows.now q one.now) }
{
    if !is_open(one.verdict) {
        return Ok(false);
    }
    let callee = callee_by(alloc, image, rows, one.procedure, one.verdict)?;
    Ok(!is_by(q, callee))
}

fn all_by(
    alloc: Global,
    image: &Image,
    rows: &Rows,
    q: u64,
    found: &[Finding],
) -> Result<bool, AllocError>
    requires { AreLined image.now rows.now.points }
    ensures { IfOk result (λ b. b ≡ all_by image.now rows.now q found.now) }
{
    for one in found {
        if is_against(alloc, image, rows, q, one)? {
            return Ok(false);
        }
    }
    Ok(true)
}

fn alone(
    alloc: Global,
    image: &Image,
    rows: &Rows,
    callee: Option<u64>,
    found: &[Finding],
) -> Result<Option<u64>, AllocError>
    requires { AreLined image.now rows.now.points }
    ensures { IfOk result (λ q. q ≡ alone image.now rows.now callee found.now) }
{
    match callee {
        Some(q) => {
            let all = all_by(alloc, image, rows, q, found)?;
            Ok(if all { Some(q) } else { None })
        }
        None => Ok(None),
    }
}

/// The procedure by which alone a routine is unknown.
pub(crate) fn only_callee(
    alloc: Global,
    image: &Image,
    rows: &Rows,
    found: &[Finding],
) -> Result<Option<u64>, AllocError>
    requires { AreLined image.now rows.now.points }
    ensures { IfOk result (λ q. q ≡ only_callee image.now rows.now found.now) }
{
    let callee = first_callee(alloc, image, rows, found)?;
    alone(alloc, image, rows, callee, found)
}
