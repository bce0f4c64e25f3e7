//! The lines of code that is refused for its flow.

ghost use Rattle.std.specs.Prelude.{◌≡◌, IfOk, codes};
ghost use Rattle.number_text.specs.Numerals.{hex};
ghost use Rattle.rv_decode.specs.Registers.{name_of_register};
ghost use Rattle.refusals.specs.declared.flow.FlowRefusal.TheVariants.{NoInstruction};
ghost use Rattle.refusal_lines.specs.Lines.{at_address, valued, flow_line};

use crate::value_lines::value_line;
use elf_image::fetch_length;
use flow_points::FlowRefusal;
use number_text::push_hex;
use rv_decode::register_name;
use rv_text::push_word;
use std::alloc::{AllocError, Global};

/// The line of what the code of a file with this unit is refused for. Want of memory has none.
pub fn flow_line(alloc: Global, unit: u8, refusal: FlowRefusal) -> Result<Vec<u8>, AllocError>
    ensures { IfOk result (λ line. line.items ≡ flow_line unit refusal) }
{
    match refusal {
        FlowRefusal::TooManyPoints(limit) => value_line(alloc, b"TooManyPoints", u64::from(limit)),
        FlowRefusal::OutsideCode(address) => address_line(alloc, b"OutsideCode", address),
        FlowRefusal::NoInstruction(address, word) => {
            no_instruction_line(alloc, unit, address, word)
        }
        FlowRefusal::OddLink(address, register) => register_line(
            alloc, b"OddLink", register, address,
        ),
        FlowRefusal::IndirectJump(address, register) => register_line(
            alloc,
            b"IndirectJump",
            register,
            address,
        ),
        FlowRefusal::MisalignedTarget(address, target) => target_line(alloc, address, target),
        FlowRefusal::IntoPair(address) => address_line(alloc, b"IntoPair", address),
        FlowRefusal::Memory => Err(AllocError),
    }
}

fn address_line(alloc: Global, text: &[u8], address: u64) -> Result<Vec<u8>, AllocError>
    ensures { IfOk result (λ line. line.items ≡ at_address text.now address) }
{
    let mut line = Vec::from_slice(alloc, b"refused ")?;
    line.extend_from_slice(text)?;
    line.extend_from_slice(b" at ")?;
    push_hex(&mut line, address)?;
    line.extend_from_slice(b"\n")?;
    Ok(line)
}

fn register_line(
    alloc: Global,
    name: &[u8],
    register: u8,
    address: u64,
) -> Result<Vec<u8>, AllocError>
    ensures { IfOk result (λ line. line.items ≡ at_address (valued name.now (name_of_register register)) address) }
{
    let mut text = Vec::from_slice(alloc, name)?;
    text.extend_from_slice(b" ")?;
    text.extend_from_slice(name_of(register).as_bytes())?;
    address_line(alloc, &text, address)
}

// The name of a register; a number that no register has, has none.
fn name_of(register: u8) -> &'static str
    ensures { result.now ≡ name_of_register register }
{
    if register < 32 {
        register_name(register)
    } else {
        ""
    }
}

fn no_instruction_line(
    alloc: Global,
    unit: u8,
    address: u64,
    word: u32,
) -> Result<Vec<u8>, AllocError>
    ensures { IfOk result (λ line. line.items ≡ flow_line unit (NoInstruction address word)) }
{
    let mut text = Vec::from_slice(alloc, b"NoInstruction ")?;
    push_word(&mut text, word, fetch_length(unit, (word % 256) as u8))?;
    address_line(alloc, &text, address)
}

fn target_line(alloc: Global, address: u64, target: u64) -> Result<Vec<u8>, AllocError>
    ensures { IfOk result (λ line. line.items ≡ at_address (valued (codes "MisalignedTarget") (hex target)) address) }
{
    let mut text = Vec::from_slice(alloc, b"MisalignedTarget ")?;
    push_hex(&mut text, target)?;
    address_line(alloc, &text, address)
}
