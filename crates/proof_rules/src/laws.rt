//! What follows from the rules. Each function runs nothing; its contract is a law.

ghost use Rattle.proof_rules.specs.Laws.{ClaimsHold, ConstantIsNowhereZero, LevelMapsAreIn, OpenStatesAreIn};
ghost use Rattle.proof_rules.specs.Exact.{ExactRowsPass, WhatHoldsIsClaimed};
ghost use Rattle.proof_rules.specs.Alike.{RulesFollowModules};

use merged_heads::open_paths_are_kept;

/// Where the rules hold, the map of each level path is a combination of the rows at its end.
pub fn level_maps_are_in()
    ensures { LevelMapsAreIn }
{}

/// The state of each open path is what such a map makes of a combination of the entry rows.
pub fn open_states_are_in()
    ensures { OpenStatesAreIn }
{}

/// Where the rules hold, each claimed row holds after every open path.
pub fn claims_hold()
    ensures { ClaimsHold }
{
    open_paths_are_kept();
}

/// Rows that generate the maps of all level paths and all entry states pass the rules, and what holds is claimed by right.
pub fn exact_rows_pass()
    ensures rules { ExactRowsPass }
    ensures claims { WhatHoldsIsClaimed }
{
    open_paths_are_kept();
}

/// Rows of the same modules pass the same items of the rules: so a list of rows may be tried by any that generates its module.
pub fn rules_follow_modules()
    ensures { RulesFollowModules }
{}

/// Where the unit row of the constant's position holds at a node, no open path ends there: so a proof claims of a node that it
/// isn't reached.
pub fn constant_is_nowhere_zero()
    ensures { ConstantIsNowhereZero }
{}
