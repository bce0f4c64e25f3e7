//! Where a run starts: an image in memory.

ghost use Rattle.std.specs.Prelude.{◌≡◌, ◌<◌, ◌≤◌, ◌+◌, ◌^◌, ℕ, All, length, slice_index, filter, map, slice_set, IfOk, OnOk};
ghost use Rattle.elf_image.specs.Images.{loaded};
ghost use Rattle.elf_image.specs.Ranges.{executable_ranges, range_of};
ghost use Rattle.rv_step.specs.Loads.{copied};
ghost use Rattle.rv_step.specs.Machines.{hart_of, made_of};
ghost use Rattle.rv_step.specs.Pages.{byte_of};
ghost use Rattle.rv_step.specs.Runs.{Starts};

use crate::Memory;
use crate::machine::Machine;
use crate::pages::Pages;
use elf_image::{Image, Range, Segment};
use sqlite_items::Items;
use std::alloc::{AllocError, Global};

impl Machine {
    /// The image, loaded and at its entry, with these registers but x0, which is 0.
    pub fn start(alloc: Global, image: &Image, regs: [u64; 32]) -> Result<Machine, Memory>
        ensures starts { IfOk result (λ m. Starts image.now (hart_of m)) }
        ensures registers { IfOk result (λ m. (hart_of m).registers ≡ slice_set regs 0 0) }
        ensures memory { IfOk result (λ m. (a : ℕ) → (hart_of m).memory a ≡ loaded image.now a) }
        ensures made { IfOk result (λ m. made_of m ≡ 0) }
    {
        image.known();
        let Ok(memory) = loaded(alloc, image) else {
            return Err(Memory);
        };
        let Ok(code) = code_ranges(alloc, image) else {
            return Err(Memory);
        };
        Ok(Machine {
            pc: image.entry,
            registers: zero_first(regs),
            memory,
            code,
            unit: image.unit,
            made: 0,
        })
    }
}

// The registers, with 0 in x0.
fn zero_first(regs: [u64; 32]) -> [u64; 32]
    ensures value { result ≡ slice_set regs 0 0 }
    ensures count { length result ≡ 32 }
    ensures words { All (λ w. w < 2 ^ 64) result }
    ensures zero { slice_index result 0 ≡ 0 }
{
    let mut registers = regs;
    registers[0] = 0;
    each_is_word(&registers);
    registers
}

// Each word is below 2^64, for contracts that see the words as a list of numbers.
fn each_is_word(words: &[u64])
    ensures { All (λ w. w < 2 ^ 64) words.now }
{}

// The ranges of the executable segments.
fn code_ranges(alloc: Global, image: &Image) -> Result<Items<Range>, AllocError>
    ensures { IfOk result (λ code. code ≡ executable_ranges image.now.segments) }
{
    let executable = executable_segments(alloc, image.segments.as_slice())?;
    Ok(Items::from_vec(ranges(alloc, &executable)?))
}

fn executable_segments(alloc: Global, segments: &[Segment]) -> Result<Vec<Segment>, AllocError>
    ensures { IfOk result (λ v. v.items ≡ filter (λ s. s.executable) segments.now) }
{
    segments
        .iter()
        .filter(|s| s.executable)
        .copied()
        .collect(alloc)
}

fn ranges(alloc: Global, segments: &[Segment]) -> Result<Vec<Range>, AllocError>
    ensures { IfOk result (λ v. v.items ≡ map range_of segments.now) }
{
    segments.iter().map(|s| s.range()).collect(alloc)
}

// The bytes of the image.
fn loaded(alloc: Global, image: &Image) -> Result<Pages, AllocError>
    ensures { IfOk result (λ memory. (a : ℕ) → byte_of memory a ≡ loaded image.now a) }
{
    image.known();
    let mut memory = Pages::new(alloc);
    for segment in image.segments.as_slice() {
        load(&mut memory, segment, image.file.as_slice())?;
    }
    Ok(memory)
}

// Loads the stored bytes of a segment.
fn load(memory: &mut Pages, segment: &Segment, file: &[u8]) -> Result<(), AllocError>
    requires stored { segment.now.offset + segment.now.stored ≤ length file.now }
    requires ends { segment.now.address + segment.now.stored ≤ 2 ^ 64 }
    ensures { OnOk result ((a : ℕ) →
        byte_of memory.new a ≡ copied segment.now.stored file.now segment.now (byte_of memory.old) a) }
{
    for k in 0..segment.stored {
        let address = segment.address + k;
        memory.reserve(address)?;
        memory.put(address, file[(segment.offset + k) as usize]);
    }
    Ok(())
}
