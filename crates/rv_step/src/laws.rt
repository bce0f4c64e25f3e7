//! What follows from the table of what instructions do.

ghost use Rattle.rv_step.specs.Harts.{Hart, IsHart};
ghost use Rattle.rv_step.specs.Steps.{Step};

/// A step leads from a machine to a machine: its registers stay words with x0 zero, its bytes stay bytes.
pub fn steps_keep_machines()
    ensures { (m n : Hart) → IsHart m → Step m n → IsHart n }
{}
