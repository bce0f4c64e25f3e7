//! What verdicts tell. Each function runs nothing; its contract is a law.

ghost use Rattle.run_verdicts.specs.Changes.{RecordsTellChanges};
ghost use Rattle.run_verdicts.specs.Findings.{WatchesTell};
ghost use Rattle.run_verdicts.specs.Points.{RunsEndAtPoints, RunsLeaveForCause, StopsAreShown};
ghost use Rattle.run_verdicts.specs.Runs.{QuietRunsKeepDiscipline, StrayReturnsAreFound, VerdictsFindFirstBreaches, WatchedRunsAreRuns};
ghost use Rattle.run_verdicts.specs.Whole.{RecordsAreCounted, WholeRunsAreRuns};
ghost use Rattle.run_verdicts.specs.Environment.{QuietEcallsKeepRules};
ghost use Rattle.run_verdicts.specs.One.{RunsAreOne};
ghost use Rattle.run_verdicts.specs.Relations.{FailuresAreCaused, NoRelationFailsInQuiet};

/// The bytes that the record of a step tells as changed are exactly those at which memory differs after it, where the
/// machine made the step itself.
pub fn records_tell_changes()
    ensures { RecordsTellChanges }
{}

/// The watches of stores, returns and code find nothing at a step exactly where it keeps the rules of the discipline for
/// slots, for returns with what they restore, and for code.
pub fn watches_tell()
    ensures { WatchesTell }
{}

/// What watches see from the beginning of a run on is a run of the image, and the activations that they see are its own.
pub fn watched_runs_are_runs()
    ensures { WatchedRunsAreRuns }
{}

/// What watches see of a whole run are steps of a run of the image, a record each, and then records of no step.
pub fn whole_runs_are_runs()
    ensures { WholeRunsAreRuns }
{}

/// The index of each record of a whole run is the number of the records before it.
pub fn records_are_counted()
    ensures { RecordsAreCounted }
{}

/// A run keeps the discipline as long as the watches of stores, returns and code find nothing.
pub fn quiet_runs_keep_discipline()
    ensures { QuietRunsKeepDiscipline }
{}

/// Each of these three watches finds the first step of a run that breaks its rule: it has found nothing exactly as long as
/// each step kept it.
pub fn verdicts_find_first_breaches()
    ensures { VerdictsFindFirstBreaches }
{}

/// A return that goes elsewhere than behind its call, or that is the first activation's, at which a run is left, is found.
pub fn stray_returns_are_found()
    ensures { StrayReturnsAreFound }
{}

/// As long as these watches find nothing before a record, no row of a true report fails at its moment, and the run is at no
/// point that such a report calls unreached.
pub fn no_relation_fails_in_quiet()
    ensures { NoRelationFailsInQuiet }
{}

/// So where the watch of relations of a true report has a finding, one of the others has a finding of a lower index.
pub fn failures_are_caused()
    ensures { FailuresAreCaused }
{}

/// The discipline allows ECALL steps: one after which no byte of memory differs keeps its rules, whatever it leaves in registers.
pub fn quiet_ecalls_keep_rules()
    ensures { QuietEcallsKeepRules }
{}

/// Wherever a run of accepted code comes, it is at a point of the file, and ends there otherwise than by an instruction that
/// isn't fetched or means nothing.
pub fn runs_end_at_points()
    ensures { RunsEndAtPoints }
{}

/// So such a run leaves only where an instruction's word was changed, or by a return that goes elsewhere than to its caller.
pub fn runs_leave_for_cause()
    ensures { RunsLeaveForCause }
{}

/// Where such a run stops otherwise than by leaving, watches see one closing record, with its moment.
pub fn stops_are_shown()
    ensures { StopsAreShown }
{}

/// The run of an image from given registers, of at most so many steps, is one: what is seen of it, its steps and its stop.
pub fn runs_are_one()
    ensures { RunsAreOne }
{}
