//! The table of opaque words.

ghost use Rattle.std.specs.Prelude.{◌≡◌, ◌<◌, ◌≤◌, IfSome};
ghost use Rattle.rv_decode.specs.Layouts.{bits_at};
ghost use Rattle.opaque_words.specs.Table.{nothing, no_step, writes, changes, is_fence_of_memory, system_row, is_exchange, atomic_row, opaque_row};

use crate::rows::Row;

/// What is known of the instruction of a word, of 4 or 2 bytes.
pub fn opaque_row(word: u32, length: u8) -> Option<Row>
    ensures row { result ≡ opaque_row word length }
    ensures registers { IfSome result (λ row. (row.rd < 32) × (row.base < 32) × (row.width ≤ 8)) }
{
    if length == 2 {
        return if word == 0 { Some(no_step(2)) } else { None };
    }
    match field(word, 0, 7) {
        0x73 => system_row(word),
        0x0f if field(word, 12, 3) == 1 => Some(nothing()),
        0x2f => atomic_row(word),
        _ => None,
    }
}

fn field(word: u32, low: u32, width: u32) -> u32
    requires low { low < 32 }
    requires width { width < 32 }
    ensures { result ≡ bits_at word low width }
{
    (word >> low) % (1 << width)
}

fn register(word: u32, low: u32) -> u8
    requires { low < 32 }
    ensures { result ≡ bits_at word low 5 }
{
    field(word, low, 5) as u8
}

fn no_step(length: u8) -> Row
    ensures { result ≡ no_step length }
{
    Row {
        rd: 0,
        base: 0,
        imm: 0,
        width: 0,
        length,
        halts: true,
    }
}

fn nothing() -> Row
    ensures { result ≡ nothing }
{
    writes(0)
}

fn writes(rd: u8) -> Row
    ensures { result ≡ writes rd }
{
    changes(rd, 0, 0)
}

fn changes(rd: u8, base: u8, width: u8) -> Row
    ensures { result ≡ changes rd base width }
{
    Row {
        rd,
        base,
        imm: 0,
        width,
        length: 4,
        halts: false,
    }
}

// CSR instructions have a funct3 that is neither 0 nor 4. UNIMP is a write of a CSR that can't be written.
fn system_row(word: u32) -> Option<Row>
    ensures row { result ≡ system_row word }
    ensures registers { IfSome result (λ row. (row.rd < 32) × (row.base < 32) × (row.width ≤ 8)) }
{
    match word {
        0xc000_1073 | 0x3020_0073 | 0x1020_0073 => Some(no_step(4)),
        0x1050_0073 => Some(nothing()),
        _ if field(word, 12, 3) % 4 != 0 => Some(writes(register(word, 7))),
        _ if is_fence_of_memory(word) => Some(nothing()),
        _ => None,
    }
}

fn is_fence_of_memory(word: u32) -> bool
    ensures { result ≡ is_fence_of_memory word }
{
    field(word, 25, 7) == 9 && field(word, 7, 8) == 0
}

fn atomic_row(word: u32) -> Option<Row>
    ensures row { result ≡ atomic_row word }
    ensures registers { IfSome result (λ row. (row.rd < 32) × (row.base < 32) × (row.width ≤ 8)) }
{
    let width = match field(word, 12, 3) {
        2 => 4,
        3 => 8,
        _ => return None,
    };
    if field(word, 27, 5) == 2 && field(word, 20, 5) == 0 {
        Some(writes(register(word, 7)))
    } else if is_exchange(field(word, 27, 5)) {
        Some(changes(register(word, 7), register(word, 15), width))
    } else {
        None
    }
}

fn is_exchange(funct5: u32) -> bool
    ensures { result ≡ is_exchange funct5 }
{
    funct5 == 3 || funct5 < 2 || funct5 % 4 == 0
}
