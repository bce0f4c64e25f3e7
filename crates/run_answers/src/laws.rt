//! What holds of answers. Each function runs nothing; its contract is a law.

ghost use Rattle.run_answers.specs.Laws.{CheckedRunsHaveVerdicts, FilesReportsAreKnown, KnownReportsAreChecked};

/// Bytes that are the text of a report of words, whose names and points are the file's, are neither refused nor strange: a
/// run is checked against that report, and the status is 0 or 7.
pub fn known_reports_are_checked()
    ensures checked { KnownReportsAreChecked }
    ensures verdicts { CheckedRunsHaveVerdicts }
{}

/// A report whose slots' procedures and whose points are the file's is known.
pub fn files_reports_are_known()
    ensures { FilesReportsAreKnown }
{}
