//! The lines of what is refused, and the texts that the refusals themselves have.

use analyser_core::Refusal;
use refusal_lines::{elf_line, flow_line, track_line, value_line};
use refusals::{ElfRefusal, FlowRefusal, GenRefusal, TrackRefusal};
use std::alloc::{AllocError, Global};

const LINES: [(Refusal, &str); 27] = [
    (
        Refusal::Elf(ElfRefusal::Short {
            length: 3,
            offset: 3,
        }),
        "refused Short 3 at offset 3\n",
    ),
    (
        Refusal::Elf(ElfRefusal::NotElf { offset: 0 }),
        "refused NotElf at offset 0\n",
    ),
    (
        Refusal::Elf(ElfRefusal::NotClass64 { byte: 1, offset: 4 }),
        "refused NotClass64 1 at offset 4\n",
    ),
    (
        Refusal::Elf(ElfRefusal::NotLittle { byte: 2, offset: 5 }),
        "refused NotLittle 2 at offset 5\n",
    ),
    (
        Refusal::Elf(ElfRefusal::NotExec {
            e_type: 3,
            offset: 16,
        }),
        "refused NotExec 3 at offset 16\n",
    ),
    (
        Refusal::Elf(ElfRefusal::NotRiscv {
            e_machine: 62,
            offset: 18,
        }),
        "refused NotRiscv 62 at offset 18\n",
    ),
    (
        Refusal::Elf(ElfRefusal::Rve { offset: 48 }),
        "refused Rve at offset 48\n",
    ),
    (
        Refusal::Elf(ElfRefusal::BadHeaderTable { offset: 54 }),
        "refused BadHeaderTable at offset 54\n",
    ),
    (
        Refusal::Elf(ElfRefusal::Dynamic { offset: 64 }),
        "refused Dynamic at offset 64\n",
    ),
    (
        Refusal::Elf(ElfRefusal::BadSegment { offset: 120 }),
        "refused BadSegment at offset 120\n",
    ),
    (
        Refusal::Elf(ElfRefusal::TooManySegments {
            limit: 64,
            offset: 3648,
        }),
        "refused TooManySegments 64 at offset 3648\n",
    ),
    (
        Refusal::Elf(ElfRefusal::Overlap { offset: 120 }),
        "refused Overlap at offset 120\n",
    ),
    (
        Refusal::Elf(ElfRefusal::NoCode {
            entry: 0x1_007a,
            offset: 24,
        }),
        "refused NoCode 0x1007a at offset 24\n",
    ),
    (
        Refusal::Flow(FlowRefusal::TooManyPoints(16384)),
        "refused TooManyPoints 16384\n",
    ),
    (
        Refusal::Flow(FlowRefusal::OutsideCode(0x1_007c)),
        "refused OutsideCode at 0x1007c\n",
    ),
    (
        Refusal::Flow(FlowRefusal::NoInstruction(0x1_0078, 0x1f)),
        "refused NoInstruction 0000001f at 0x10078\n",
    ),
    (
        Refusal::Flow(FlowRefusal::OddLink(0x1_0078, 5)),
        "refused OddLink t0 at 0x10078\n",
    ),
    (
        Refusal::Flow(FlowRefusal::IndirectJump(0x1_0080, 1)),
        "refused IndirectJump ra at 0x10080\n",
    ),
    (
        Refusal::Flow(FlowRefusal::MisalignedTarget(0x1_0078, 0x1_007e)),
        "refused MisalignedTarget 0x1007e at 0x10078\n",
    ),
    (
        Refusal::Flow(FlowRefusal::IntoPair(0x1_007c)),
        "refused IntoPair at 0x1007c\n",
    ),
    (Refusal::Track(TrackRefusal::Empty), "refused Empty\n"),
    (
        Refusal::Track(TrackRefusal::TooMany(16)),
        "refused TooMany 16\n",
    ),
    (
        Refusal::Track(TrackRefusal::UnknownName(2)),
        "refused UnknownName 2\n",
    ),
    (
        Refusal::Track(TrackRefusal::BadSlot(3)),
        "refused BadSlot 3\n",
    ),
    (
        Refusal::Track(TrackRefusal::NoSuchProcedure(1)),
        "refused NoSuchProcedure 1\n",
    ),
    (
        Refusal::Track(TrackRefusal::Repeated(10)),
        "refused Repeated 10\n",
    ),
    (Refusal::Heads(4096), "refused TooManyHeads 4096\n"),
];

/// The line of a refusal, of a file whose unit is 4.
fn line_of(alloc: Global, refusal: Refusal) -> Result<Vec<u8>, AllocError> {
    match refusal {
        Refusal::Elf(refusal) => elf_line(alloc, refusal),
        Refusal::Flow(refusal) => flow_line(alloc, 4, refusal),
        Refusal::Track(refusal) => track_line(alloc, refusal),
        Refusal::Heads(limit) => value_line(alloc, b"TooManyHeads", u64::from(limit)),
        Refusal::Memory => Err(AllocError),
    }
}

/// Whether this is the line of a refusal, and its text where it is shown.
fn is_told(alloc: Global, refusal: Refusal, line: &str) -> Result<bool, AllocError> {
    let shown = format!(in alloc; "refused {refusal}\n")?;
    let told = line_of(alloc, refusal)?;
    Ok(shown.as_str() == line && told.as_slice() == line.as_bytes())
}

fn are_told(alloc: Global) -> Result<bool, AllocError> {
    for (refusal, line) in LINES.iter() {
        if !is_told(alloc, *refusal, line)? {
            return Ok(false);
        }
    }
    Ok(true)
}

fn is_range_told(alloc: Global) -> Result<bool, AllocError> {
    let refusal = GenRefusal::Range(101);
    let shown = format!(in alloc; "refused {refusal}\n")?;
    Ok(shown.as_bytes() == value_line(alloc, b"Range", 101)?.as_slice())
}

#[test]
fn a_line_and_a_text_are_one(rt: HostRuntime) {
    assert!(rt; are_told(rt.alloc()) == Ok(true));
    assert!(rt; is_range_told(rt.alloc()) == Ok(true));
}
