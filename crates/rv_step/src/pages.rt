//! Memory in pages: only pages that something was loaded or stored to are kept.

ghost use Rattle.std.specs.Prelude.{◌≡◌, ◌≢◌, ◌≤◌, ◌<◌, ◌+◌, ◌-◌, ◌%◌, ◌^◌, ℕ, IfOk, OnOk, OnErr, slice_index};
ghost use Rattle.rv_step.specs.Pages.{byte_of, HasPage};
ghost use Rattle.rv_step.specs.Effects.{stored};
ghost use Rattle.rv_step.specs.Steps.{store_width};
ghost use Rattle.elf_image.specs.Fetches.{read};

use rv_decode::StoreOp;
use std::alloc::{AllocError, Global};
use std::collections::BTreeMap;

/// The bytes of a page.
const PAGE_SIZE: u64 = 4096;

type Page = Box<[u8; 4096]>;

/// A byte at each address, 0 where none was loaded or stored.
#[derive(Drop)]
pub(crate) struct Pages {
    alloc: Global,
    pages: BTreeMap<u64, Page>,
}

impl Pages {
    /// All bytes are 0.
    pub(crate) fn new(alloc: Global) -> Pages
        ensures { (a : ℕ) → byte_of result a ≡ 0 }
    {
        Pages {
            alloc,
            pages: BTreeMap::new(alloc),
        }
    }

    /// The byte at an address.
    pub(crate) fn byte(&self, address: u64) -> u8
        ensures { result ≡ byte_of self.now address }
    {
        match self.pages.get(&(address / PAGE_SIZE)) {
            Some(page) => page[(address % PAGE_SIZE) as usize],
            None => 0,
        }
    }

    /// The number in the two bytes from an address on.
    #[tactic(auto, using(elf_image::proofs::Laws::read_2))]
    pub(crate) fn half(&self, address: u64) -> u16
        ensures { result ≡ read 2 (byte_of self.now) address }
    {
        u16::from_le_bytes([self.byte(address), self.byte(address.wrapping_add(1))])
    }

    /// The number in the four bytes from an address on.
    pub(crate) fn word(&self, address: u64) -> u32
        ensures { result ≡ read 4 (byte_of self.now) address }
    {
        if address % PAGE_SIZE <= PAGE_SIZE - 4 {
            self.word_in_page(address)
        } else {
            self.word_by_bytes(address)
        }
    }

    // The same where they lie in one page, which is looked up once.
    #[tactic(auto, using(elf_image::proofs::Laws::read_4))]
    fn word_in_page(&self, address: u64) -> u32
        requires { address % 4096 ≤ 4092 }
        ensures { result ≡ read 4 (byte_of self.now) address }
    {
        let at = (address % PAGE_SIZE) as usize;
        match self.pages.get(&(address / PAGE_SIZE)) {
            Some(page) => u32::from_le_bytes([page[at], page[at + 1], page[at + 2], page[at + 3]]),
            None => 0,
        }
    }

    // The same, byte after byte.
    #[tactic(auto, using(elf_image::proofs::Laws::read_4))]
    fn word_by_bytes(&self, address: u64) -> u32
        ensures { result ≡ read 4 (byte_of self.now) address }
    {
        u32::from_le_bytes([
            self.byte(address),
            self.byte(address.wrapping_add(1)),
            self.byte(address.wrapping_add(2)),
            self.byte(address.wrapping_add(3)),
        ])
    }

    /// The number in the eight bytes from an address on.
    #[tactic(auto, using(elf_image::proofs::Laws::read_8))]
    pub(crate) fn double(&self, address: u64) -> u64
        ensures { result ≡ read 8 (byte_of self.now) address }
    {
        if address % PAGE_SIZE <= PAGE_SIZE - 8 {
            self.double_in_page(address)
        } else {
            u64::from(self.word(address)) + (u64::from(self.word(address.wrapping_add(4))) << 32)
        }
    }

    // The same where they lie in one page, which is looked up once.
    #[tactic(auto, using(elf_image::proofs::Laws::read_4, elf_image::proofs::Laws::read_8))]
    fn double_in_page(&self, address: u64) -> u64
        requires { address % 4096 ≤ 4088 }
        ensures { result ≡ read 8 (byte_of self.now) address }
    {
        let at = (address % PAGE_SIZE) as usize;
        match self.pages.get(&(address / PAGE_SIZE)) {
            Some(page) => u64::from_le_bytes([
                page[at],
                page[at + 1],
                page[at + 2],
                page[at + 3],
                page[at + 4],
                page[at + 5],
                page[at + 6],
                page[at + 7],
            ]),
            None => 0,
        }
    }

    /// The number in as many bytes as a store writes.
    #[tactic(auto, using(elf_image::proofs::Laws::read_1))]
    pub(crate) fn read(&self, address: u64, op: StoreOp) -> u64
        ensures { result ≡ read (store_width op) (byte_of self.now) address }
    {
        match op {
            StoreOp::Sb => u64::from(self.byte(address)),
            StoreOp::Sh => u64::from(self.half(address)),
            StoreOp::Sw => u64::from(self.word(address)),
            StoreOp::Sd => self.double(address),
        }
    }

    /// Keeps the page of an address, whose bytes stay.
    pub(crate) fn reserve(&mut self, address: u64) -> Result<(), AllocError>
        ensures same { (a : ℕ) → byte_of self.new a ≡ byte_of self.old a }
        ensures kept { OnOk result (HasPage self.new address) }
        ensures keeps { (a : ℕ) → HasPage self.old a → HasPage self.new a }
    {
        let number = address / PAGE_SIZE;
        if !self.pages.contains_key(&number) {
            self.pages.insert(number, blank_page(self.alloc)?)?;
        }
        Ok(())
    }

    /// Writes the byte at an address whose page is kept.
    pub(crate) fn put(&mut self, address: u64, byte: u8)
        requires { HasPage self.old address }
        ensures there { byte_of self.new address ≡ byte }
        ensures elsewhere { (a : ℕ) → a ≢ address → byte_of self.new a ≡ byte_of self.old a }
        ensures keeps { (a : ℕ) → HasPage self.old a → HasPage self.new a }
    {
        if let Some(page) = self.pages.get_mut(&(address / PAGE_SIZE)) {
            page[(address % PAGE_SIZE) as usize] = byte;
        }
    }

    /// Writes the low bytes of a value from an address on. Room is made for all of them before one is
    /// written.
    pub(crate) fn store(&mut self, address: u64, width: u8, value: u64) -> Result<(), AllocError>
        requires { (1 ≤ width) × (width ≤ 8) }
        ensures stored { OnOk result ((b : ℕ) → b < 2 ^ 64 →
            byte_of self.new b ≡ stored width address value (byte_of self.old) b) }
        ensures same { OnErr result ((b : ℕ) → byte_of self.new b ≡ byte_of self.old b) }
    {
        self.reserve(address)?;
        self.reserve(address.wrapping_add(u64::from(width - 1)))?;
        self.write(address, width, value);
        Ok(())
    }

    // Writes the low bytes of a value from an address on, where the pages are kept.
    fn write(&mut self, address: u64, width: u8, value: u64)
        requires width { (1 ≤ width) × (width ≤ 8) }
        requires first { HasPage self.old address }
        requires last { HasPage self.old ((address + (width - 1)) % 2 ^ 64) }
        ensures { (b : ℕ) → b < 2 ^ 64 →
            byte_of self.new b ≡ stored width address value (byte_of self.old) b }
    {
        for k in 0..width {
            let byte = (value >> (8 * k)) % 256;
            self.put(address.wrapping_add(u64::from(k)), byte as u8);
        }
    }
}

// A page of bytes 0.
fn blank_page(alloc: Global) -> Result<Page, AllocError>
    ensures { IfOk result (λ page. (k : ℕ) → slice_index page.value k ≡ 0) }
{
    Ok(Box::new(alloc, [0; 4096])?)
}
