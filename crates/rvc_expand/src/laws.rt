//! What follows from the tables.

ghost use Rattle.std.specs.Prelude.{◌≡◌, ℕ};
ghost use Rattle.rv_instr.specs.declared.Instr.{Instr};
ghost use Rattle.rv_decode.specs.Instructions.{IsWellFormed};
ghost use Rattle.rvc_expand.specs.Lengths.{MeansWithLength};

/// A word of a length has at most one instruction.
pub fn meanings_are_one()
    ensures { (word length : ℕ) (i j : Instr) → MeansWithLength word length i
        → MeansWithLength word length j → i ≡ j }
{}

/// The fields of an instruction that a word of a length stands for are in range.
pub fn meanings_are_in_range()
    ensures { (word length : ℕ) (instr : Instr) → MeansWithLength word length instr → IsWellFormed instr }
{}
