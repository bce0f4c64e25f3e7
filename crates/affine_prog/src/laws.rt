//! What holds of all paths. Each function runs nothing; its contract is a law.

ghost use Rattle.affine_prog.specs.Laws.{CallsAreBilinear, ChoicesMoveConstants, HoldsIsAnnihilation, LevelMapsAreAffine, LevelMapsAreOnVisible, LevelMapsUseFew, LevelPathsStay, OpenPathsEndInOwner, OpenStatesAreOnVisible, OpenStatesAreStates, OpenStatesUseFew, OpeningsAreAffine, OpeningsAreSpanned, StartIsReached, StartsAreSpanned, StepsAreAffineInChoices, StepsAreLinear};

/// The map of a step is linear in the map before it, and affine in the words that are chosen; these move its constants alone.
pub fn steps_are_affine_in_choices()
    ensures linear { StepsAreLinear }
    ensures affine { StepsAreAffineInChoices }
    ensures constants { ChoicesMoveConstants }
{}

/// The map of a call is linear in the caller's map, and linear in the callee's.
pub fn calls_are_bilinear()
    ensures { CallsAreBilinear }
{}

/// The map of an opening is affine in the words that the slots are given, and the openings span one map for each slot, and
/// one more.
pub fn openings_are_affine()
    ensures affine { OpeningsAreAffine }
    ensures spanned { OpeningsAreSpanned }
{}

/// In a well-formed program level paths have affine maps, and open paths end in states.
pub fn paths_keep_states()
    ensures maps { LevelMapsAreAffine }
    ensures states { OpenStatesAreStates }
{}

/// In a well-formed program a level path ends at a node of its procedure, an open path at a node of its last procedure, and
/// the entry of the start procedure is reached.
pub fn paths_end_at_nodes()
    ensures level { LevelPathsStay }
    ensures open_paths { OpenPathsEndInOwner }
    ensures start { StartIsReached }
{}

/// In a well-formed program maps and states are 0 outside the positions that are visible where they stand, so that they use
/// few of all.
pub fn paths_use_few_positions()
    ensures maps { LevelMapsAreOnVisible }
    ensures states { OpenStatesAreOnVisible }
    ensures few_maps { LevelMapsUseFew }
    ensures few_states { OpenStatesUseFew }
{}

/// The starts span one row for each register, and one for the constant.
pub fn starts_are_spanned()
    ensures { StartsAreSpanned }
{}

/// A relation holds at a node exactly where it annihilates the states there.
pub fn relations_annihilate_states()
    ensures { HoldsIsAnnihilation }
{}
