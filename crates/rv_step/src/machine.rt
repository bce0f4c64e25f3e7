//! The machine.

ghost use Rattle.std.specs.Prelude.{◌≡◌, ◌||◌, ◌==◌, true, slice_index};

use crate::pages::Pages;
use crate::records::StepRec;
use elf_image::{Fetched, Range, fetch_length};
use sqlite_items::Items;

/// A machine: its pc, the registers, a byte at each address, the ranges of executable addresses, the unit
/// whose multiples are the addresses of instructions, and the number of steps made, which stays at its
/// greatest once it is there.
#[derive(Drop)]
pub struct Machine {
    pub(crate) pc: u64,
    pub(crate) registers: [u64; 32],
    pub(crate) memory: Pages,
    pub(crate) code: Items<Range>,
    pub(crate) unit: u8,
    pub(crate) made: u64,
    pub(crate) ghost zero: { slice_index registers 0 ≡ 0 },
    pub(crate) ghost units: { (unit == 2 || unit == 4) ≡ true },
}

impl Machine {
    ghost use Rattle.std.specs.Prelude.{◌≡◌, ◌<◌, option_map};
    ghost use Rattle.elf_image.specs.Fetches.{read};
    ghost use Rattle.elf_image.specs.Ranges.{is_in};
    ghost use Rattle.std.specs.List.{list_any};
    ghost use Rattle.rv_step.specs.Harts.{fetched, x};
    ghost use Rattle.rv_step.specs.Effects.{Writes};
    ghost use Rattle.rv_step.specs.Machines.{hart_of, made_of};
    ghost use Rattle.rv_step.specs.Records.{IsClosing};

    /// The address of the next instruction.
    pub fn pc(&self) -> u64
        ensures { result ≡ (hart_of self.now).pc }
    {
        self.pc
    }

    /// How many steps were made.
    pub fn made(&self) -> u64
        ensures { result ≡ made_of self.now }
    {
        self.made
    }

    /// The words in the registers.
    pub fn registers(&self) -> &[u64; 32]
        ensures { result.now ≡ (hart_of self.now).registers }
    {
        &self.registers
    }

    /// The instruction word in memory at pc; `None` exactly where nothing is fetched there.
    pub fn fetched(&self) -> Option<u32>
        ensures { result ≡ option_map (λ at. at.word) (fetched (hart_of self.now)) }
    {
        Some(self.fetch()?.word)
    }

    /// The eight bytes from an address on, as a word.
    pub fn read_word(&self, address: u64) -> u64
        ensures { result ≡ read 8 (hart_of self.now).memory address }
    {
        self.memory.double(address)
    }

    /// Where the machine is, told as a record of no step.
    pub fn closing(&self) -> StepRec
        ensures { IsClosing self.now result }
    {
        let at = self.fetch().unwrap_or(Fetched { word: 0, length: 0 });
        StepRec {
            index: self.made,
            made: false,
            pc: self.pc,
            word: at.word,
            length: at.length,
            regs: self.registers,
            next: self.pc,
            store: None,
        }
    }

    /// What is fetched at pc.
    #[tactic(auto, unfolding(elf_image::specs::Fetches::fetch))]
    pub(crate) fn fetch(&self) -> Option<Fetched>
        ensures { result ≡ fetched (hart_of self.now) }
    {
        let length = fetch_length(self.unit, self.memory.byte(self.pc));
        if self.pc % u64::from(self.unit) != 0 || !self.is_code(u64::from(length)) {
            return None;
        }
        let word = if length == 2 {
            u32::from(self.memory.half(self.pc))
        } else {
            self.memory.word(self.pc)
        };
        Some(Fetched { word, length })
    }

    // As many bytes from pc on lie in one executable range.
    fn is_code(&self, count: u64) -> bool
        ensures { result ≡ list_any (is_in self.now.pc count) self.now.code }
    {
        self.code
            .as_slice()
            .iter()
            .any(|range| range.has(self.pc, count))
    }

    /// The word in a register.
    pub fn register(&self, r: u8) -> u64
        requires { r < 32 }
        ensures { result ≡ x (hart_of self.now) r }
    {
        self.registers[usize::from(r)]
    }

    /// Writes a register and goes to the next pc.
    pub(crate) fn write(&mut self, rd: u8, value: u64, next: u64)
        requires { rd < 32 }
        ensures writes { Writes (hart_of self.old) rd value next (hart_of self.new) }
        ensures made { made_of self.new ≡ made_of self.old }
    {
        if rd != 0 {
            self.registers[usize::from(rd)] = value;
        }
        self.pc = next;
    }
}
