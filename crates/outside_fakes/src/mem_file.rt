//! A file in memory.
ghost use Rattle.std.specs.Prelude.{◌≡◌, ◌-◌, ◌≤◌, length, take, drop, min, position};
ghost use Rattle.outside.specs.Counts.{one_more, top};
ghost use Rattle.outside_fakes.specs.Named.{is_named};

/// One file with its count of faults.
#[derive(Drop)]
pub struct MemFile {
    pub name: String,
    pub contents: Vec<u8>,
    pub faults: u64,
}

/// Counts one more fault.
pub(crate) fn count_fault(file: &mut MemFile)
    ensures counted { file.new ≡ record file.old { faults = one_more file.old.faults } }
    ensures range { file.old.faults ≤ top }
{
    file.faults = file.faults.saturating_add(1);
}

/// Where the first file of this name stands.
pub(crate) fn place_of(files: &[MemFile], name: &str) -> Option<usize>
    ensures { result ≡ position (is_named name.now) files.now }
{
    files.iter().position(|file| file.name.as_str() == name)
}

/// Copies at most `most` bytes of the contents from `at` on to the front of `into`, as many as there are,
/// and gives their number.
pub(crate) fn copy_piece(contents: &[u8], at: u64, most: usize, into: &mut [u8]) -> usize
    ensures count { result ≡ min (min most (length into.new)) (length contents.now - at) }
    ensures bytes { take result into.new ≡ take result (drop at contents.now) }
{
    let rest = &contents[contents.len().min(at as usize)..];
    let n = most.min(into.len()).min(rest.len());
    into[..n].copy_from_slice(&rest[..n]);
    n
}
