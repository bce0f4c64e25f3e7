//! Computing the offsets of points.

ghost use Rattle.std.specs.Prelude.{◌≡◌, IfOk};
ghost use Rattle.frame_offsets.specs.Frames.{AreOffsetsOf};

use crate::Memory;
use crate::frame::Offsets;
use crate::known::Known;
use crate::settle::settle;
use crate::table::REGISTERS;
use flow_points::Points;
use sqlite_items::Items;
use std::alloc::Global;

/// The offsets of points. It fails only where it is out of memory.
pub fn offsets(alloc: Global, points: &Points) -> Result<Offsets, Memory>
    ensures { IfOk result (λ offsets. AreOffsetsOf points.now offsets) }
{
    points.known();
    let Ok(mut table) = vec![in alloc; Known::Unmet; REGISTERS * points.count() as usize] else {
        return Err(Memory);
    };
    settle(alloc, &mut table, points)?;
    Ok(Offsets::of_table(Items::from_vec(table)))
}
