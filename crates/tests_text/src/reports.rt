//! Small reports as text.

use report_text::{
    CertWord, Name, PointRows, PointState, Report, ReportCert, Tracked, is_certified, write_report,
};
use sqlite_items::Items;
use std::alloc::{AllocError, Global};

/// A report of version 1 on a register and a slot: nothing holds at the first point, no state reaches the second.
fn first_version(alloc: Global) -> Result<Report, AllocError> {
    let slot = Name::Slot {
        proc_entry: 0x10078,
        below: 8,
    };
    let first = PointRows {
        proc_entry: 0x10078,
        address: 0x10078,
        state: PointState::Rows(Items::from_vec(Vec::new(alloc))),
    };
    let second = PointRows {
        proc_entry: 0x10078,
        address: 0x1007c,
        state: PointState::Unreached,
    };
    let names = Items::from_vec(vec![in alloc; Name::Register(10), slot]?);
    let points = Items::from_vec(vec![in alloc; first, second]?);
    Ok(Report {
        version: 1,
        tracked: Tracked { names },
        certs: Items::new(alloc),
        points,
    })
}

/// A report of version 2 on sp and a0 in two procedures: the first never returns.
fn second_version(alloc: Global) -> Result<Report, AllocError> {
    let first = PointRows {
        proc_entry: 0x10078,
        address: 0x10078,
        state: PointState::Unreached,
    };
    let second = PointRows {
        proc_entry: 0x10080,
        address: 0x10080,
        state: PointState::Unreached,
    };
    let never = ReportCert {
        proc_entry: 0x10078,
        register: 2,
        word: CertWord::Never,
    };
    let granted = ReportCert {
        proc_entry: 0x10080,
        register: 2,
        word: CertWord::Granted,
    };
    let names = Items::from_vec(vec![in alloc; Name::Register(2), Name::Register(10)]?);
    let points = Items::from_vec(vec![in alloc; first, second]?);
    let certs = Items::from_vec(vec![in alloc; never, granted]?);
    Ok(Report {
        version: 2,
        tracked: Tracked { names },
        certs,
        points,
    })
}

const FIRST_TEXT: &str =
    "affine-report 1\ntrack a0,0x10078:-8\nproc 0x10078\nat 0x10078\nnone\nat 0x1007c\nunreached\nend\n";

const SECOND_TEXT: &str =
    "affine-report 2\ntrack sp,a0\nproc 0x10078\ncert sp never\nat 0x10078\nunreached\nproc 0x10080\ncert sp granted\nat 0x10080\nunreached\nend\n";

fn is_written(alloc: Global, report: &Report, text: &str) -> Result<bool, AllocError> {
    Ok(write_report(alloc, report)?.as_slice() == text.as_bytes())
}

fn first_is_written(alloc: Global) -> Result<bool, AllocError> {
    is_written(alloc, &first_version(alloc)?, FIRST_TEXT)
}

fn second_is_written(alloc: Global) -> Result<bool, AllocError> {
    is_written(alloc, &second_version(alloc)?, SECOND_TEXT)
}

#[test]
fn reports_as_text(rt: HostRuntime) {
    assert!(rt; first_is_written(rt.alloc()) == Ok(true));
    assert!(rt; second_is_written(rt.alloc()) == Ok(true));
}

#[test]
fn certified_registers(rt: HostRuntime) {
    assert!(rt; is_certified(1) && is_certified(27) && !is_certified(10) && !is_certified(28));
}
