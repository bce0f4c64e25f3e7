//! What `run FILE REPORT --steps N [--regs R]` answers.

ghost use Rattle.std.specs.Prelude.{◌≡◌, ◌≤◌, ℕ, List, Option, None, map, replicate, IfOk};
ghost use Rattle.flow_points.specs.PointLists.{ArePointsOf};
ghost use Rattle.frame_offsets.specs.Frames.{AreOffsetsOf};
ghost use Rattle.run_answers.specs.Answers.{four_kinds, IsRunAnswer};

use elf_image::Image;
use flow_points::Points;
use frame_offsets::offsets;
use run_answers::run_answer;
use run_watch::Watch;
use std::alloc::{AllocError, Global};

/// What `run FILE REPORT --steps N [--regs R]` answers for the code of a file and the bytes of a report, with these registers.
pub fn answer_to_run(
    alloc: Global,
    image: &Image,
    points: &Points,
    report: &[u8],
    steps: u32,
    start: [u64; 32],
    watches: Vec<Box<dyn Watch>>,
) -> Result<(u8, Vec<u8>), AllocError>
    requires steps { steps ≤ 1000000000 }
    requires points { ArePointsOf image.now points.now }
    requires kinds { map (λ watch. kind_of watch) watches.items ≡ four_kinds }
    requires fresh { map (λ watch. state watch) watches.items ≡ replicate 4 None }
    ensures { IfOk result (λ a. (offsets : List (Option ℕ)) × AreOffsetsOf points.now offsets
        × IsRunAnswer image.now points.now offsets report.now start steps a.0 a.1.items) }
{
    let Ok(offsets) = offsets(alloc, points) else {
        return Err(AllocError);
    };
    run_answer(
        alloc,
        image,
        points,
        &offsets,
        report,
        start,
        u64::from(steps),
        watches,
    )
}
