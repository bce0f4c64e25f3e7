//! What a refused text has wrong. The function runs nothing; its contract is the law.

ghost use Rattle.wrong_lines.specs.Texts.{RefusalsAreOverLines};

/// What bytes are refused for is told over their lines, whatever the reader keeps of those before.
pub fn refusals_are_over_lines()
    ensures { RefusalsAreOverLines }
{}
