//! Ranges of addresses.

ghost use Rattle.std.specs.Prelude.{◌≡◌};
ghost use Rattle.elf_image.specs.Ranges.{is_in};

/// The `size` addresses from `address` on.
#[derive(Clone, Copy, Debug, PartialEq, Eq)]
pub struct Range {
    pub address: u64,
    pub size: u64,
}

impl Range {
    /// The `count` bytes from an address on lie in the range.
    pub fn has(&self, address: u64, count: u64) -> bool
        ensures { result ≡ is_in address count self.now }
    {
        self.address <= address && count <= self.size && address - self.address <= self.size - count
    }
}
