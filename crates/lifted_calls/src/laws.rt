//! What holds of the calls of lifted programs, and of rows between names. Each function runs nothing; its contract is a law.

ghost use Rattle.std.specs.Prelude.{◌≡◌, ◌≢◌, ℕ, ◌<◌, List, Some, slice_get, slice_index};
ghost use Rattle.word_rows.specs.Rows.{IsRow};
ghost use Rattle.row_modules.specs.Positions.{with_constant, IsZeroOutside};
ghost use Rattle.affine_prog.specs.Programs.{owner_of, visible_in};
ghost use Rattle.affine_prog.specs.declared.Program.{Program};
ghost use Rattle.flow_points.specs.PointLists.{FlowPoints, HasCode};
ghost use Rattle.flow_points.specs.declared.code_points.CodePoint.{CodePoint};
ghost use Rattle.report_text.specs.Names.{IsSeenAt};
ghost use Rattle.report_text.specs.declared.names.Name.{Name};
ghost use Rattle.affine_lift.specs.Lifting.{IsLiftedBy};
ghost use Rattle.affine_lift.specs.declared.width.Width.{Width};
ghost use Rattle.refute_path.specs.Writing.{CallsAreSure};

/// No call of a lifted program has an unknown assignment before it.
pub fn lifted_calls_are_plain()
    ensures { (w : Width) (points : FlowPoints) (names : List Name) (program : Program) → HasCode points → IsLiftedBy w points names program →
        CallsAreSure program }
{}

/// A row whose names are seen in a point's procedure is 0 at what isn't visible at the point's node.
pub fn seen_rows_are_visible()
    ensures { (w : Width) (points : FlowPoints) (names : List Name) (program : Program) (u : ℕ) (code : CodePoint) (row : List ℕ) → HasCode points →
        IsLiftedBy w points names program → slice_get points.points u ≡ Some code → IsRow 17 row →
        ((k : ℕ) → k < 16 → slice_index row k ≢ 0 → IsSeenAt names code.point.proc_entry k) →
        IsZeroOutside (with_constant (visible_in program (owner_of program u))) row }
{}
