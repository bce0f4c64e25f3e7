//! What the lines of a report tell so far.

use report_text::{PointRows, ReportCert, Tracked};
use sqlite_items::Items;
use word_rows::Row;

/// Where a line stands, by the lines before it.
#[derive(Drop)]
pub enum Place {
    /// Behind the tracked names.
    Top,
    /// Behind a procedure's line, and this many certificates.
    Procedure {
        entry: u64,
        count: usize,
    },
    /// Behind a point's line, which has this number.
    Point {
        entry: u64,
        address: u64,
        line: u64,
    },
    /// Behind such a line and the rows of relations.
    Rows {
        entry: u64,
        address: u64,
        line: u64,
        rows: Items<Row<17>>,
    },
    /// Behind what is told of a point.
    Told {
        entry: u64,
        address: u64,
    },
    /// Behind the last line.
    End,
}

/// A report as far as it is read.
#[derive(Drop)]
pub struct Draft {
    pub version: u8,
    pub tracked: Tracked,
    pub certs: Items<ReportCert>,
    pub points: Items<PointRows>,
    pub place: Place,
}
