//! Bases and their modules.

ghost use Rattle.lead_basis.specs.Laws.{EachListHasBasis, FormsVanish, LongerModules, NoRowsForZero, OneReducedBasis, RowsGenerate};

/// What a basis says of its module: the rows generate it, forms that are 0 at the rows are 0 on it, no rows stand for the
/// zero row alone, and two reduced bases of one module are equal. Nothing runs here: the contract is the law.
pub fn bases_tell_their_modules()
    ensures generators { RowsGenerate }
    ensures forms { FormsVanish }
    ensures no_rows { NoRowsForZero }
    ensures one_reduced { OneReducedBasis }
{}

/// Each list of rows has a basis of its module, and a larger module has a basis that is as long. Nothing runs here: the
/// contract is the law.
pub fn modules_have_bases()
    ensures lists { EachListHasBasis }
    ensures longer { LongerModules }
{}
