//! Laws of the judgement of texts. They run nothing.

ghost use Rattle.std.specs.Prelude.{◌≡◌, ℕ, List};
ghost use Rattle.report_read.specs.Telling.{IsTextJudged, Outcome};

/// One thing is told of bytes: a report, or one refusal with one line.
pub fn tellings_are_one()
    ensures { (bytes : List ℕ) (r q : Outcome) → IsTextJudged bytes r → IsTextJudged bytes q → r ≡ q }
{}
