//! What holds of lifted programs. Each function runs nothing; its contract is a law.

ghost use Rattle.std.specs.Prelude.{◌≡◌, ◌↔◌, ℕ, List, Some, slice_get, IsTrue};
ghost use Rattle.row_modules.specs.Positions.{has};
ghost use Rattle.affine_prog.specs.Programs.{owner_of, visible_in};
ghost use Rattle.affine_prog.specs.declared.Program.{Program};
ghost use Rattle.flow_points.specs.PointLists.{FlowPoints, HasCode};
ghost use Rattle.flow_points.specs.declared.code_points.CodePoint.{CodePoint};
ghost use Rattle.report_text.specs.Names.{IsSeenAt};
ghost use Rattle.report_text.specs.declared.names.Name.{Name};
ghost use Rattle.affine_lift.specs.Lifting.{IsLifted};
ghost use Rattle.affine_lift.specs.Tracking.{IsTracked, IsTrackRefusal, Scope};
ghost use Rattle.refusals.specs.declared.track.TrackRefusal.{TrackRefusal};
ghost use Rattle.refusals.specs.declared.track.TrackRefusal.TheVariants.{Memory};

/// What is visible at the node of a point are the positions of the names that are seen in the point's procedure.
pub fn visible_names_are_seen()
    ensures { (points : FlowPoints) (names : List Name) (program : Program) (u : ℕ) (code : CodePoint) (k : ℕ) → HasCode points →
        IsLifted points names program → slice_get points.points u ≡ Some code →
        IsTrue (has (visible_in program (owner_of program u)) k) ↔ IsSeenAt names code.point.proc_entry k }
{}

/// Points and names have one program.
pub fn programs_are_one()
    ensures { (points : FlowPoints) (names : List Name) (first second : Program) → HasCode points → IsLifted points names first →
        IsLifted points names second → first ≡ second }
{}

/// A list has one reading, and one that has a reading is refused for want of memory alone.
pub fn lists_are_read_in_one_way()
    ensures names { (scope : Scope) (text : List ℕ) (a b : List Name) → IsTracked scope text a → IsTracked scope text b → a ≡ b }
    ensures refused { (scope : Scope) (text : List ℕ) (names : List Name) (refusal : TrackRefusal) → IsTracked scope text names →
        IsTrackRefusal scope text refusal → refusal ≡ Memory }
{}
