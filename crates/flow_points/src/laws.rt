//! What follows of points, whatever the code is, and of refusals.

ghost use Rattle.std.specs.Prelude.{◌≡◌, ◌≢◌, ◌↔◌, ℕ, All, Contains};
ghost use Rattle.rv_decode.specs.Instructions.{IsWellFormed};
ghost use Rattle.elf_image.specs.declared.image.Image.{Image};
ghost use Rattle.std.specs.List.Sorted.{IsStrictlyIncreasing};
ghost use Rattle.flow_points.specs.Walks.{IsPoint, most_points, start, successors_of};
ghost use Rattle.flow_points.specs.Refusals.{IsBad, IsFlowRefusal, address_of};
ghost use Rattle.refusals.specs.declared.flow.FlowRefusal.{FlowRefusal};
ghost use Rattle.refusals.specs.declared.flow.FlowRefusal.TheVariants.{TooManyPoints};
ghost use Rattle.flow_points.specs.PointLists.{FlowPoints, ArePointsOf, HasCode, entries_of, places_of};
ghost use Rattle.flow_points.specs.declared.code_points.CodePoint.{CodePoint};
ghost use Rattle.flow_points.specs.declared.code_points.Point.{Point};

/// The points of an image are those at which a walk along the flow ends.
pub fn points_are_walk_ends()
    ensures { (image : Image) (points : FlowPoints) (p : Point) → ArePointsOf image points → IsPoint image p ↔ Contains (places_of points.points) p }
{}

/// The start is a point, and so is where the flow goes on from a point.
pub fn points_are_closed()
    ensures begins { (points : FlowPoints) → HasCode points → Contains (places_of points.points) (start points.entry) }
    ensures goes_on { (points : FlowPoints) (c : CodePoint) (to : Point) → HasCode points → Contains points.points c →
        Contains (successors_of c.point.proc_entry c.flow) to → Contains (places_of points.points) to }
{}

/// The fields of each point's instruction are in range.
pub fn instructions_are_in_range()
    ensures { (points : FlowPoints) → HasCode points → All (λ c. IsWellFormed c.instr) points.points }
{}

/// The procedures ascend, and they are those of the points.
pub fn procedures_ascend()
    ensures ascending { (points : FlowPoints) → HasCode points → IsStrictlyIncreasing points.procedures }
    ensures all { (points : FlowPoints) (p : ℕ) → HasCode points → Contains (entries_of points.points) p → Contains points.procedures p }
    ensures only { (points : FlowPoints) (p : ℕ) → HasCode points → Contains points.procedures p → Contains (entries_of points.points) p }
{}

/// An image is refused for one cause alone.
pub fn refusal_is_one()
    ensures { (image : Image) (r s : FlowRefusal) → IsFlowRefusal image r → IsFlowRefusal image s → r ≡ s }
{}

/// An image that isn't refused for the number of its points is refused at a bad one.
pub fn refusal_names_a_bad_point()
    ensures { (image : Image) (refusal : FlowRefusal) → IsFlowRefusal image refusal → refusal ≢ TooManyPoints most_points →
        (p : Point) × IsBad image p × (p.address ≡ address_of refusal) }
{}
