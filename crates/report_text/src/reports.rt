//! What an analysis tells.

ghost use Rattle.std.specs.Prelude.{◌≡◌, ◌≤◌, [], All};
ghost use Rattle.report_text.specs.Certificates.{AreCertsOf};
ghost use Rattle.report_text.specs.Reports.{Ascend, AreRowsAt};

use crate::certs::ReportCert;
use crate::names::Tracked;
use crate::points::PointRows;
use sqlite_items::Items;

/// What an analysis found: the tracked names, each point with its rows, and in version 2 for each procedure of the points and
/// each tracked register among sp, ra and s0 to s11 a certificate. A report of version 1 has none.
#[derive(Debug, Drop)]
pub struct Report {
    pub version: u8,
    pub tracked: Tracked,
    pub certs: Items<ReportCert>,
    pub points: Items<PointRows>,
    ghost versions: { (1 ≤ version) × (version ≤ 2) },
    ghost without: { ∥ (version ≡ 1 → certs ≡ []) ∥₁ },
    ghost certified: { ∥ (version ≡ 2 → AreCertsOf tracked.names points certs) ∥₁ },
    ghost ascending: { ∥ Ascend points ∥₁ },
    ghost reduced: { ∥ All (AreRowsAt tracked.names) points ∥₁ },
}
