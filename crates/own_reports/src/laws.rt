//! What holds of own reports. Each function runs nothing; its contract is a law, and its body names the laws that it rests on.

ghost use Rattle.own_reports.specs.Checked.{OwnReportsFailForCause, OwnRunsFailForCause};
ghost use Rattle.own_reports.specs.One.{ReportsAreOne};
ghost use Rattle.own_reports.specs.Paths.{OpenPathsAreThePrograms};
ghost use Rattle.own_reports.specs.Reached.{RunsAreWhereRowsAre};
ghost use Rattle.own_reports.specs.Unrefused.{ReportsAreUnrefused};

use affine_lift::lists_are_read_in_one_way;
use analyser_core::reports_tell_of_runs;
use run_verdicts::laws::failures_are_caused;

/// Over the text of the report that an analysis gave, a run of the same file is checked against that very report. Where the
/// watch of relations has a finding, a watch of stores, of returns or of code has one of a lower index.
pub fn own_reports_fail_for_cause()
    ensures code { OwnReportsFailForCause }
    ensures files { OwnRunsFailForCause }
{
    failures_are_caused();
    reports_tell_of_runs();
}

/// An open path of activations, as a run spells it, ends where an open path of its program ends.
pub fn open_paths_are_the_programs()
    ensures { OpenPathsAreThePrograms }
{}

/// A run of the machine that keeps the discipline up to a moment is at no moment up to it at a point that the report of its
/// file's analysis calls unreached.
pub fn runs_are_where_rows_are()
    ensures { RunsAreWhereRowsAre }
{
    reports_tell_of_runs();
}

/// Where a file and a list have a report of an analysis, they are refused for want of memory alone.
pub fn reports_are_unrefused()
    ensures { ReportsAreUnrefused }
{
    lists_are_read_in_one_way();
}

/// A file and a list have one report, with one list of certificates.
pub fn reports_are_one()
    ensures { ReportsAreOne }
{
    lists_are_read_in_one_way();
    reports_tell_of_runs();
}
