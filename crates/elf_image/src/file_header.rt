//! The file header, the first 64 bytes: System V ABI, "ELF Header".

ghost use Rattle.std.specs.Prelude.{◌≡◌, ◌≤◌, ◌+◌, ◌*◌, length, slice_index, OnOk};
ghost use Rattle.elf_image.specs.Fields.{e_type, e_machine, e_entry, e_phoff, e_flags, e_phentsize, e_phnum, unit_of};
ghost use Rattle.elf_image.specs.Symbols.{e_shentsize, e_shnum, e_shoff};
ghost use Rattle.elf_image.specs.Refusals.{IsVerdict, identity_refusal, machine_refusal, table_refusal};

use crate::fields::{half_at, word_at, xword_at};
use crate::program_header::HEADER_SIZE;
use refusals::ElfRefusal;

/// The bytes of a file header.
const FILE_HEADER_SIZE: usize = 64;

const ELFCLASS64: u8 = 2;

/// Little-endian.
const ELFDATA2LSB: u8 = 1;

const ET_EXEC: u16 = 2;

const EM_RISCV: u16 = 243;

/// Of the RISC-V ELF psABI, "File Header": the base with 16 registers.
const EF_RISCV_RVE: u32 = 0x8;

/// Of the RISC-V ELF psABI, "File Header": compressed instructions.
const EF_RISCV_RVC: u8 = 0x1;

/// Refuses bytes that don't begin as a little-endian ELF-64 file.
#[tactic(auto, unfolding(crate::specs::Refusals::identity_refusal))]
pub fn check_identity(bytes: &[u8]) -> Result<(), ElfRefusal>
    ensures header { OnOk result (64 ≤ length bytes.now) }
    ensures verdict { IsVerdict result (identity_refusal bytes.now) }
{
    if bytes.len() < FILE_HEADER_SIZE {
        let length = bytes.len() as u64;
        return Err(ElfRefusal::Short {
            length,
            offset: length,
        });
    }
    if !bytes.starts_with(b"\x7fELF") {
        return Err(ElfRefusal::NotElf { offset: 0 });
    }
    if bytes[4] != ELFCLASS64 {
        return Err(ElfRefusal::NotClass64 {
            byte: bytes[4],
            offset: 4,
        });
    }
    if bytes[5] != ELFDATA2LSB {
        return Err(ElfRefusal::NotLittle {
            byte: bytes[5],
            offset: 5,
        });
    }
    Ok(())
}

/// Refuses a file that isn't an executable for the machine.
#[tactic(auto, unfolding(crate::specs::Refusals::machine_refusal))]
pub fn check_machine(bytes: &[u8]) -> Result<(), ElfRefusal>
    requires { 64 ≤ length bytes.now }
    ensures { IsVerdict result (machine_refusal bytes.now) }
{
    let e_type = e_type(bytes);
    if e_type != ET_EXEC {
        return Err(ElfRefusal::NotExec { e_type, offset: 16 });
    }
    let e_machine = e_machine(bytes);
    if e_machine != EM_RISCV {
        return Err(ElfRefusal::NotRiscv {
            e_machine,
            offset: 18,
        });
    }
    if e_flags(bytes) & EF_RISCV_RVE != 0 {
        return Err(ElfRefusal::Rve { offset: 48 });
    }
    Ok(())
}

/// Refuses a file whose table of program headers doesn't lie in it.
#[tactic(auto, unfolding(crate::specs::Refusals::table_refusal))]
pub fn check_table(bytes: &[u8]) -> Result<(), ElfRefusal>
    requires { 64 ≤ length bytes.now }
    ensures table { OnOk result (e_phoff bytes.now + 56 * e_phnum bytes.now ≤ length bytes.now) }
    ensures verdict { IsVerdict result (table_refusal bytes.now) }
{
    if usize::from(e_phentsize(bytes)) != HEADER_SIZE {
        return Err(ElfRefusal::BadHeaderTable { offset: 54 });
    }
    let table_size = HEADER_SIZE * usize::from(e_phnum(bytes));
    if table_size > bytes.len() || e_phoff(bytes) > (bytes.len() - table_size) as u64 {
        return Err(ElfRefusal::BadHeaderTable { offset: 32 });
    }
    Ok(())
}

/// The kind of file.
fn e_type(bytes: &[u8]) -> u16
    requires { 64 ≤ length bytes.now }
    ensures { result ≡ e_type bytes.now }
{
    half_at(bytes, 16)
}

/// The machine.
fn e_machine(bytes: &[u8]) -> u16
    requires { 64 ≤ length bytes.now }
    ensures { result ≡ e_machine bytes.now }
{
    half_at(bytes, 18)
}

/// The address where a run starts.
pub fn e_entry(bytes: &[u8]) -> u64
    requires { 64 ≤ length bytes.now }
    ensures { result ≡ e_entry bytes.now }
{
    xword_at(bytes, 24)
}

/// The offset of the table of program headers.
pub fn e_phoff(bytes: &[u8]) -> u64
    requires { 64 ≤ length bytes.now }
    ensures { result ≡ e_phoff bytes.now }
{
    xword_at(bytes, 32)
}

/// What addresses of instructions are multiples of in a file with these bytes, by the flag for compressed
/// instructions.
#[tactic(auto, using(crate::proofs::Units::unit_by_first))]
pub fn unit_of(bytes: &[u8]) -> u8
    ensures { result ≡ unit_of bytes.now }
{
    if flags_low(bytes) & EF_RISCV_RVC != 0 {
        2
    } else {
        4
    }
}

// The first byte of the flags, which has the lowest bits.
fn flags_low(bytes: &[u8]) -> u8
    ensures { result ≡ slice_index bytes.now 48 }
{
    bytes.get(48).copied().unwrap_or(0)
}

/// The flags of the machine.
fn e_flags(bytes: &[u8]) -> u32
    requires { 64 ≤ length bytes.now }
    ensures { result ≡ e_flags bytes.now }
{
    word_at(bytes, 48)
}

/// The size of one program header.
fn e_phentsize(bytes: &[u8]) -> u16
    requires { 64 ≤ length bytes.now }
    ensures { result ≡ e_phentsize bytes.now }
{
    half_at(bytes, 54)
}

/// The number of program headers.
pub fn e_phnum(bytes: &[u8]) -> u16
    requires { 64 ≤ length bytes.now }
    ensures { result ≡ e_phnum bytes.now }
{
    half_at(bytes, 56)
}

/// The offset of the table of section headers.
pub fn e_shoff(bytes: &[u8]) -> u64
    requires { 64 ≤ length bytes.now }
    ensures { result ≡ e_shoff bytes.now }
{
    xword_at(bytes, 40)
}

/// The size of one section header.
pub fn e_shentsize(bytes: &[u8]) -> u16
    requires { 64 ≤ length bytes.now }
    ensures { result ≡ e_shentsize bytes.now }
{
    half_at(bytes, 58)
}

/// The number of section headers.
pub fn e_shnum(bytes: &[u8]) -> u16
    requires { 64 ≤ length bytes.now }
    ensures { result ≡ e_shnum bytes.now }
{
    half_at(bytes, 60)
}
