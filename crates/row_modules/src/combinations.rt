//! Combinations of generators.

ghost use Rattle.row_modules.specs.Laws.{ChoicesAreSpanned, CombinationAddsNothing, CombinationsAreModule, ContainsGenerators, ContainsMultiples, GeneratorsDecide, IsLeastModule, IsTransitive, MoreSpanMore, SplitsAtFirst};

use crate::RowSet;

/// The combinations of a set are a module, and contain the set.
pub fn combinations_are_a_module<P: RowSet>()
    ensures closed { CombinationsAreModule P.member }
    ensures generators { ContainsGenerators P.member }
{}

/// A module has each multiple of its members, and where it contains a set, it contains the combinations of the set.
pub fn module_is_least<P: RowSet, S: RowSet>()
    ensures multiples { ContainsMultiples S.member }
    ensures least { IsLeastModule P.member S.member }
{}

/// Generators decide inclusion, inclusion is transitive, and more generators span more.
pub fn inclusions<P: RowSet, Q: RowSet, R: RowSet>()
    ensures generators { GeneratorsDecide P.member Q.member }
    ensures transitive { IsTransitive P.member Q.member R.member }
    ensures more { MoreSpanMore P.member Q.member }
{}

/// What one row more makes of the module of a list: nothing where it is a combination, else all multiples of it.
pub fn lists_with_one_more()
    ensures same { CombinationAddsNothing }
    ensures split { SplitsAtFirst }
{}

/// A value that depends on unknown words, a fixed multiple for each, spans what its value at zeros and the fixed steps span.
pub fn choices_are_spanned()
    ensures { ChoicesAreSpanned }
{}
