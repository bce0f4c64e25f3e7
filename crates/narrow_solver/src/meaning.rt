//! Laws on narrow answers.

ghost use Rattle.narrow_solver.specs.Laws.{FollowNarrowStates, NarrowAnswersAreOne};

use row_modules::RowSet;

/// A set of rows has one reduced narrow basis. Nothing runs here: the contract is the law.
pub fn narrow_answers_are_one<S: RowSet>()
    ensures { NarrowAnswersAreOne S.member }
{}

/// From a module to states that span it. Nothing runs here: the contract is the law.
pub fn narrow_relations_follow_states<P: RowSet>()
    ensures { FollowNarrowStates P.member }
{}
