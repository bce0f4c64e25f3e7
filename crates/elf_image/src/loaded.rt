//! What segments of a file load: bytes, and instructions.

ghost use Rattle.std.specs.Prelude.{◌≡◌, ◌<◌, length, All};
ghost use Rattle.std.specs.List.{list_any};
ghost use Rattle.elf_image.specs.Segments.{IsLoadable, byte_of};
ghost use Rattle.elf_image.specs.Ranges.{is_in, executable_ranges};
ghost use Rattle.elf_image.specs.Fetches.{read, loaded_in, fetched_in};

use crate::fetched::{Fetched, fetch_length};
use crate::segment::{Segment, segment_with};

/// The byte that is loaded at an address: 0 past the stored ones, None where no segment has it.
pub fn byte_of(file: &[u8], segments: &[Segment], address: u64) -> Option<u8>
    requires { All (IsLoadable (length file.now)) segments.now }
    ensures { result ≡ byte_of file.now segments.now address }
{
    let segment = segment_with(segments, address)?;
    Some(segment.byte_at(file, address))
}

/// The instruction word at an address and its length, where the address is a multiple of the unit and
/// the word's bytes lie in one executable segment.
#[tactic(auto, unfolding(crate::specs::Fetches::fetch))]
pub fn fetched_in(file: &[u8], segments: &[Segment], unit: u8, address: u64) -> Option<Fetched>
    requires loadable { All (IsLoadable (length file.now)) segments.now }
    requires unit { 0 < unit }
    ensures { result ≡ fetched_in unit file.now segments.now address }
{
    let length = fetch_length(unit, loaded_in(file, segments, address));
    if address % u64::from(unit) != 0 || !is_code(segments, address, length) {
        return None;
    }
    let word = if length == 2 {
        u32::from(half_at(file, segments, address))
    } else {
        word_at(file, segments, address)
    };
    Some(Fetched { word, length })
}

// The bytes from the address on lie in one executable segment.
fn is_code(segments: &[Segment], address: u64, length: u8) -> bool
    ensures { result ≡ list_any (is_in address length) (executable_ranges segments.now) }
{
    segments
        .iter()
        .filter(|s| s.executable)
        .map(|s| s.range())
        .any(|r| r.has(address, u64::from(length)))
}

// The byte that is loaded at an address, or 0.
fn loaded_in(file: &[u8], segments: &[Segment], address: u64) -> u8
    requires { All (IsLoadable (length file.now)) segments.now }
    ensures { result ≡ loaded_in file.now segments.now address }
{
    byte_of(file, segments, address).unwrap_or(0)
}

fn half_at(file: &[u8], segments: &[Segment], address: u64) -> u16
    requires { All (IsLoadable (length file.now)) segments.now }
    ensures { result ≡ read 2 (loaded_in file.now segments.now) address }
{
    u16::from_le_bytes([
        loaded_in(file, segments, address),
        loaded_in(file, segments, address.wrapping_add(1)),
    ])
}

fn word_at(file: &[u8], segments: &[Segment], address: u64) -> u32
    requires { All (IsLoadable (length file.now)) segments.now }
    ensures { result ≡ read 4 (loaded_in file.now segments.now) address }
{
    u32::from_le_bytes([
        loaded_in(file, segments, address),
        loaded_in(file, segments, address.wrapping_add(1)),
        loaded_in(file, segments, address.wrapping_add(2)),
        loaded_in(file, segments, address.wrapping_add(3)),
    ])
}
