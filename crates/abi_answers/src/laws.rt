//! What answers tell of runs. The function does nothing; its contract is the law.

ghost use Rattle.abi_answers.specs.Laws.{AnswersTellOfRuns};

use abi_meanings::laws::kept_is_kept;

/// A register that is told to be kept is kept in each run that keeps what is assumed.
pub fn answers_tell_of_runs()
    ensures { AnswersTellOfRuns }
{
    kept_is_kept();
}
