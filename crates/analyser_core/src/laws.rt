//! What follows of reports. The function runs nothing; its contract is a law.

ghost use Rattle.std.specs.Prelude.{ℕ, List};
ghost use Rattle.report_text.specs.declared.reports.Report.{Report};
ghost use Rattle.analyser_core.specs.MachineRuns.{TellsOfRuns};
ghost use Rattle.analyser_core.specs.Reports.{IsReportOver};
ghost use Rattle.analyser_core.specs.declared.cert_line.CertLine.{CertLine};

/// The report of an analysis tells of each run of the machine that keeps the discipline: its rows are 0 on the machine's
/// words at each moment, and certified registers are restored at returns.
pub fn reports_tell_of_runs()
    ensures { (bytes list : List ℕ) (report : Report) (certs : List CertLine) → IsReportOver bytes list report certs → TellsOfRuns bytes list report certs }
{}
