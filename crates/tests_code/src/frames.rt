//! Small files with the offsets at some of their points.

ghost use Rattle.std.specs.Prelude.{◌<◌};
ghost use Rattle.frame_offsets.specs.Frames.{AreOffsetsOf};

use crate::points::points_of;
use flow_points::Points;
use frame_offsets::{Offsets, offsets};
use std::alloc::Global;

const RA: u8 = 1;

const SP: u8 = 2;

const T0: u8 = 5;

const S0: u8 = 8;

const S11: u8 = 27;

const EBREAK: u32 = 0x00100073;

/// The offset of a register at a point, None where there is no such point.
fn offset_of(
    points: &Points,
    offsets: &Offsets,
    place: (u64, u64),
    register: u8,
) -> Option<Option<i64>>
    requires offsets { AreOffsetsOf points.now offsets.now }
    requires register { register < 32 }
{
    let point = points.find(place.0, place.1)?;
    Some(offsets.at(point, register))
}

/// Files, with the offsets of registers at some of their points, each by its procedure and its address.
const FILES: [(&[u32], &[((u64, u64), u8, Option<i64>)]); 6] = [
    // jal ra,8; ebreak; addi sp,sp,-16; sd ra,8(sp); beq a0,zero,8; jal ra,-12; ld ra,8(sp);
    // addi sp,sp,16; jalr zero,0(ra)
    (
        &[
            0x008000ef, EBREAK, 0xff010113, 0x00113423, 0x00050463, 0xff5ff0ef, 0x00813083,
            0x01010113, 0x00008067,
        ],
        &[
            ((0x10080, 0x10080), SP, Some(0)),
            ((0x10080, 0x10088), SP, Some(-16)),
            ((0x10080, 0x10090), SP, Some(-16)),
            ((0x10080, 0x10098), SP, Some(0)),
            ((0x10080, 0x10080), RA, None),
            ((0x10080, 0x10098), RA, None),
        ],
    ),
    // addi s0,sp,8; addi s0,s0,-24; ebreak
    (
        &[0x00810413, 0xfe840413, EBREAK],
        &[
            ((0x10078, 0x10078), S0, None),
            ((0x10078, 0x1007c), S0, Some(8)),
            ((0x10078, 0x10080), S0, Some(-16)),
        ],
    ),
    // addi sp,sp,-16; bne a0,a1,-4; ebreak
    (
        &[0xff010113, 0xfeb51ee3, EBREAK],
        &[
            ((0x10078, 0x10078), SP, None),
            ((0x10078, 0x10080), SP, None),
        ],
    ),
    // beq a0,zero,12; addi sp,sp,-16; jal zero,8; addi sp,sp,-16; ebreak
    (
        &[0x00050663, 0xff010113, 0x0080006f, 0xff010113, EBREAK],
        &[((0x10078, 0x10088), SP, Some(-16))],
    ),
    // the same with addi sp,sp,16 on the other way
    (
        &[0x00050663, 0xff010113, 0x0080006f, 0x01010113, EBREAK],
        &[
            ((0x10078, 0x10084), SP, Some(0)),
            ((0x10078, 0x10088), SP, None),
        ],
    ),
    // addi s0,sp,8; addi s11,sp,-8; addi t0,sp,16; jal ra,8; ebreak; jalr zero,0(ra)
    (
        &[
            0x00810413, 0xff810d93, 0x01010293, 0x008000ef, EBREAK, 0x00008067,
        ],
        &[
            ((0x10078, 0x10084), T0, Some(16)),
            ((0x10078, 0x10088), T0, None),
            ((0x10078, 0x10088), S0, Some(8)),
            ((0x10078, 0x10088), S11, Some(-8)),
            ((0x10078, 0x10088), SP, Some(0)),
        ],
    ),
];

fn are_offsets(
    points: &Points,
    offsets: &Offsets,
    expected: &[((u64, u64), u8, Option<i64>)],
) -> bool
    requires offsets { AreOffsetsOf points.now offsets.now }
{
    for (place, register, offset) in expected {
        if offset_of(points, offsets, *place, *register % 32) != Some(*offset) {
            return false;
        }
    }
    true
}

fn have_offsets(
    alloc: Global,
    points: &Points,
    expected: &[((u64, u64), u8, Option<i64>)],
) -> bool {
    match offsets(alloc, points) {
        Ok(offsets) => are_offsets(points, &offsets, expected),
        Err(_) => false,
    }
}

fn has_offsets(alloc: Global, words: &[u32], expected: &[((u64, u64), u8, Option<i64>)]) -> bool {
    match points_of(alloc, words) {
        Ok(points) => have_offsets(alloc, &points, expected),
        Err(_) => false,
    }
}

fn all_have_their_offsets(alloc: Global) -> bool {
    for (words, expected) in FILES.iter() {
        if !has_offsets(alloc, words, expected) {
            return false;
        }
    }
    true
}

#[test]
fn offsets_of_all_walks(rt: HostRuntime) {
    assert!(rt; all_have_their_offsets(rt.alloc()));
}
