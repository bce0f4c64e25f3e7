//! Reports of both versions, and changed ones.

use report_read::{ReportRefusal, read_report};
use report_text::write_report;
use std::alloc::{AllocError, Global};

/// Relations of sp, ra and a slot in two procedures.
const FIRST_VERSION: &str =
    "affine-report 1\ntrack sp,ra,0x10080:-8\nproc 0x10078\nat 0x10078\nnone\nat 0x1007c\nrel 1*ra -65660\nproc 0x10080\nat 0x10080\nrel 4611686018427387904*ra\nat 0x10084\nrel 4611686018427387904*ra\nat 0x10088\nrel 1*ra +4611686018427387903*0x10080:-8\nrel 4611686018427387904*0x10080:-8\nat 0x1008c\nrel 1*ra +4611686018427387903*0x10080:-8\nrel 4611686018427387904*0x10080:-8\nat 0x10090\nrel 4611686018427387904*ra\nrel 4611686018427387904*0x10080:-8\nat 0x10094\nrel 1*ra +4611686018427387903*0x10080:-8\nrel 4611686018427387904*0x10080:-8\nat 0x10098\nrel 1*ra +4611686018427387903*0x10080:-8\nrel 4611686018427387904*0x10080:-8\nend\n";

/// The same with certificates.
const SECOND_VERSION: &str =
    "affine-report 2\ntrack sp,ra,0x10080:-8\nproc 0x10078\ncert sp never\ncert ra never\nat 0x10078\nnone\nat 0x1007c\nrel 1*ra -65660\nproc 0x10080\ncert sp granted\ncert ra granted\nat 0x10080\nrel 4611686018427387904*ra\nat 0x10084\nrel 4611686018427387904*ra\nat 0x10088\nrel 1*ra +4611686018427387903*0x10080:-8\nrel 4611686018427387904*0x10080:-8\nat 0x1008c\nrel 1*ra +4611686018427387903*0x10080:-8\nrel 4611686018427387904*0x10080:-8\nat 0x10090\nrel 4611686018427387904*ra\nrel 4611686018427387904*0x10080:-8\nat 0x10094\nrel 1*ra +4611686018427387903*0x10080:-8\nrel 4611686018427387904*0x10080:-8\nat 0x10098\nrel 1*ra +4611686018427387903*0x10080:-8\nrel 4611686018427387904*0x10080:-8\nend\n";

/// The first five lines of the reports that are changed from line 6 on.
const FIVE_LINES: &str = "affine-report 1\ntrack a0\nproc 0x10078\nat 0x10078\nnone\n";

/// What stands behind them, and what is wrong.
const CHANGED_POINTS: [(&str, ReportRefusal); 14] = [
    ("at 0x1007c\nrel 1*a0 -0\nend\n", ReportRefusal::Syntax(7)),
    (
        "at 0x1007c\nrel 1*a0 -9223372036854775808\nend\n",
        ReportRefusal::Syntax(7),
    ),
    ("at 0x1007c\nrel +1*a0 -5\nend\n", ReportRefusal::Syntax(7)),
    (
        "at 0x1007c\nrel 1*a1 -5\nend\n",
        ReportRefusal::UnknownName(7),
    ),
    ("at 0x10078\nrel 1*a0 -5\nend\n", ReportRefusal::Order(6)),
    ("at 0x1007c\nrel 3*a0\nend\n", ReportRefusal::NotReduced(6)),
    (
        "at 0x1007c\nrel 2*a0 -1\nend\n",
        ReportRefusal::NotReduced(6),
    ),
    ("at 0x1007c\nrel 1*a0 -5\n", ReportRefusal::Syntax(8)),
    (
        "at 0x1007c\nrel 1*a0 -5\nend\nend\n",
        ReportRefusal::Syntax(9),
    ),
    ("at 0x1007c\nrel 3*a0\nen", ReportRefusal::NotReduced(6)),
    (
        "at 0x1007c\nrel 3*a0\nrel 1*a1\nend\n",
        ReportRefusal::UnknownName(8),
    ),
    (
        "at 0x1007c\nrel 1*a0\r\nend\n",
        ReportRefusal::UnknownName(7),
    ),
    ("rel 1*a0 -5\nend\n", ReportRefusal::Syntax(6)),
    (
        "proc 0x10078\nat 0x10078\nnone\nend\n",
        ReportRefusal::Order(6),
    ),
];

/// The first three lines of the reports whose certificates are changed.
const THREE_LINES: &str = "affine-report 2\ntrack sp,ra,0x10080:-8\nproc 0x10078\n";

const CHANGED_CERTIFICATES: [(&str, ReportRefusal); 7] = [
    (
        "cert ra never\ncert ra never\nat 0x10078\nnone\nend\n",
        ReportRefusal::Order(4),
    ),
    (
        "cert a0 never\ncert ra never\nat 0x10078\nnone\nend\n",
        ReportRefusal::UnknownName(4),
    ),
    (
        "cert sp maybe\ncert ra never\nat 0x10078\nnone\nend\n",
        ReportRefusal::Syntax(4),
    ),
    (
        "cert sp never\nat 0x10078\nnone\nend\n",
        ReportRefusal::Order(5),
    ),
    ("cert sp never\nproc 0x10080\n", ReportRefusal::Syntax(5)),
    (
        "cert sp never\ncert ra never\ncert sp never\n",
        ReportRefusal::Order(6),
    ),
    (
        "cert sp never\ncert ra never\nat 0x10078\ncert sp never\n",
        ReportRefusal::Syntax(7),
    ),
];

const OTHER_TEXTS: [(&str, ReportRefusal); 9] = [
    ("", ReportRefusal::Syntax(1)),
    ("affine-report 3\ntrack a0\nend\n", ReportRefusal::Syntax(1)),
    (
        "affine-report 1\ntrack a0,,a1\nend\n",
        ReportRefusal::Syntax(2),
    ),
    (
        "affine-report 1\ntrack a0,a0,a0,a0,a0,a0,a0,a0,a0,a0,a0,a0,a0,a0,a0,a0,a0\nend\n",
        ReportRefusal::Syntax(2),
    ),
    (
        "affine-report 1\ntrack a0,x10,a0\nend\n",
        ReportRefusal::UnknownName(2),
    ),
    (
        "affine-report 1\ntrack a0,a1,a0\nend\n",
        ReportRefusal::Order(2),
    ),
    (
        "affine-report 1\ntrack sp\nproc 0x10078\ncert sp never\nat 0x10078\nnone\nend\n",
        ReportRefusal::Syntax(4),
    ),
    (
        "affine-report 1\ntrack a0,a1\nproc 0x10078\nat 0x10078\nrel 1*a1 +1*a0 +1*zz\nend\n",
        ReportRefusal::UnknownName(5),
    ),
    (
        "affine-report 1\ntrack a0,a1\nproc 0x10078\nat 0x10078\nrel 1*a1 +1*a0\nend\n",
        ReportRefusal::Order(5),
    ),
];

/// What is wrong with a text, if anything is.
fn refusal_of(alloc: Global, text: &[u8]) -> Option<ReportRefusal> {
    match read_report(alloc, text) {
        Ok(_) => None,
        Err(refusal) => Some(refusal),
    }
}

/// Whether each text of the table, behind the front, is refused so.
fn are_refused(
    alloc: Global,
    front: &str,
    table: &[(&str, ReportRefusal)],
) -> Result<bool, AllocError> {
    for (behind, refusal) in table {
        let mut text = Vec::new(alloc);
        text.extend_from_slice(front.as_bytes())?;
        text.extend_from_slice(behind.as_bytes())?;
        if refusal_of(alloc, &text) != Some(*refusal) {
            return Ok(false);
        }
    }
    Ok(true)
}

/// Whether each shorter text breaks off in its last line.
fn is_cut_everywhere(alloc: Global, text: &str) -> bool {
    let text = text.as_bytes();
    let mut line = 1u64;
    for at in 0..text.len() {
        if refusal_of(alloc, &text[..at]) != Some(ReportRefusal::Syntax(line)) {
            return false;
        }
        if text[at] == b'\n' {
            line = line.wrapping_add(1);
        }
    }
    true
}

/// Whether the report is read, and written as it was.
fn comes_back(alloc: Global, text: &str) -> Result<bool, AllocError> {
    match read_report(alloc, text.as_bytes()) {
        Ok(report) => Ok(write_report(alloc, &report)?.as_slice() == text.as_bytes()),
        Err(_) => Ok(false),
    }
}

fn is_read(alloc: Global, text: &str) -> Result<bool, AllocError> {
    Ok(is_cut_everywhere(alloc, text) && comes_back(alloc, text)?)
}

#[test]
fn reports_of_both_versions(rt: HostRuntime) {
    let alloc = rt.alloc();
    assert!(rt; is_read(alloc, FIRST_VERSION) == Ok(true));
    assert!(rt; is_read(alloc, SECOND_VERSION) == Ok(true));
}

#[test]
fn changed_reports(rt: HostRuntime) {
    let alloc = rt.alloc();
    assert!(rt; are_refused(alloc, FIVE_LINES, &CHANGED_POINTS) == Ok(true));
    assert!(rt; are_refused(alloc, THREE_LINES, &CHANGED_CERTIFICATES) == Ok(true));
    assert!(rt; are_refused(alloc, "", &OTHER_TEXTS) == Ok(true));
}
