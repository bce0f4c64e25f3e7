//! The paths of a program and of its block program. Each function runs nothing; its contract is a law.

ghost use Rattle.merged_heads.specs.Laws.{LevelPathsAtHeads, LevelPathsAlongChains, OpenPathsAtHeads, OpenPathsAlongChains, BlockProgramsAreWellFormed};
ghost use Rattle.merged_heads.specs.FollowLaws.{LevelPathsFollow, OpenPathsFollow, MergedStatesFollow, StatesArePassedOn, MergedModulesFollow, MergedPlacesAreFew, ChainsExist, ChainsAreUnique};
ghost use Rattle.merged_heads.specs.HeadLaws.{StatesAlike, ReachedAlike, HoldsAlike, ReturnsAlike, CertifiedAlike, ExitsAlike};

/// At a head the maps of the level paths are those in the block program; behind a chain its assignments follow.
#[tactic(auto, using(crate::proofs::HeadsTell::maps_at))]
pub fn level_paths_are_kept()
    ensures heads { LevelPathsAtHeads }
    ensures chains { LevelPathsAlongChains }
{}

/// At a head the states of the open paths are those in the block program; behind a chain its assignments follow.
#[tactic(auto, using(crate::proofs::HeadsTell::states_at))]
pub fn open_paths_are_kept()
    ensures heads { OpenPathsAtHeads }
    ensures chains { OpenPathsAlongChains }
{}

/// The block program of a well-formed program is well formed.
pub fn block_programs_are_formed()
    ensures { BlockProgramsAreWellFormed }
{}

/// At a head the same states come, and the same relations hold, in the block program; and its procedures return and are
/// certified alike.
#[tactic(auto, using(crate::proofs::HeadsTell::states_alike, crate::proofs::HeadsTell::reached_alike, crate::proofs::HeadsTell::returns_alike, crate::proofs::HeadsTell::exits_alike))]
pub fn heads_tell_alike()
    ensures states { StatesAlike }
    ensures reached { ReachedAlike }
    ensures relations { HoldsAlike }
    ensures returns { ReturnsAlike }
    ensures certified { CertifiedAlike }
    ensures exits { ExitsAlike }
{}

/// The maps and the states at a node are those of its head pushed along its chain, which is one; at a merged node the states
/// are what its edge makes of its parent's.
#[tactic(auto, using(crate::proofs::Classes::unique_chain, crate::proofs::PassedOn::passed_on))]
pub fn merged_nodes_follow()
    ensures maps { LevelPathsFollow }
    ensures states { OpenPathsFollow }
    ensures parents { MergedStatesFollow }
    ensures passed_on { StatesArePassedOn }
    ensures modules { MergedModulesFollow }
    ensures few { MergedPlacesAreFew }
    ensures exist { ChainsExist }
    ensures unique { ChainsAreUnique }
{}
