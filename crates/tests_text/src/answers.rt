//! The lines of refused reports.

use report_read::ReportRefusal;
use run_answers::{report_line, stranger_line};
use std::alloc::{AllocError, Global};

const LINES: [(ReportRefusal, &str); 4] = [
    (ReportRefusal::Syntax(3), "refused report Syntax 3\n"),
    (
        ReportRefusal::UnknownName(2),
        "refused report UnknownName 2\n",
    ),
    (ReportRefusal::Order(10), "refused report Order 10\n"),
    (
        ReportRefusal::NotReduced(118),
        "refused report NotReduced 118\n",
    ),
];

fn are_written(alloc: Global) -> Result<bool, AllocError> {
    for (refusal, line) in LINES.iter() {
        if report_line(alloc, *refusal)?.as_slice() != line.as_bytes() {
            return Ok(false);
        }
    }
    Ok(true)
}

fn a_stranger_is_written(alloc: Global) -> Result<bool, AllocError> {
    let line = stranger_line(alloc, 0x1_007c)?;
    Ok(line.as_slice() == b"refused report NotAPoint 0x1007c\n".as_slice())
}

#[test]
fn a_line_of_each_refusal(rt: HostRuntime) {
    assert!(rt; are_written(rt.alloc()) == Ok(true));
    assert!(rt; a_stranger_is_written(rt.alloc()) == Ok(true));
}
